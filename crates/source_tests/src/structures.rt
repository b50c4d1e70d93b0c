//! Tables of structures, and the cells of their types.

use crate::builders::{innermost, is_typed_in, nested_structures, structure_of, structure_type};
use crate::trees::{evaluate, one, read};
use cc_typed::{DataType, ElementType, Field, NumberType, Structure, cells_in, part_offset};
use sqlite_items::Items;
use std::alloc::{AllocError, Global};
use std::rt::HostRuntime;

/// Whether the innermost `int` of so many nested structures is typed.
fn nested(alloc: Global, count: u32) -> Result<bool, AllocError> {
    let structures = nested_structures(alloc, count)?;
    let place = innermost(alloc, count)?;
    is_typed_in(
        alloc,
        structures,
        structure_type(count.saturating_sub(1)),
        evaluate(read(place)),
    )
}

/// Whether a program with this one structure is typed.
fn alone(alloc: Global, structure: Result<Structure, AllocError>) -> Result<bool, AllocError> {
    let structures = one(alloc, structure?)?;
    is_typed_in(
        alloc,
        structures,
        DataType::int(),
        evaluate(cc_typed::Expression::GetChar),
    )
}

/// `struct a { int x; long y[3]; };` and `struct b { char c; struct a d; };`.
fn two(alloc: Global) -> Result<Items<Structure>, AllocError> {
    let mut fields = one(
        alloc,
        Field {
            data_type: DataType::int(),
            offset: 0,
        },
    )?;
    fields.push(Field {
        data_type: DataType::Array {
            element: ElementType::Number(NumberType::Long),
            length: 3,
        },
        offset: 1,
    })?;
    let mut structures = one(alloc, Structure { fields, cells: 4 })?;
    structures.push(outer(alloc)?)?;
    Ok(structures)
}

/// `struct b { char c; struct a d; };`.
fn outer(alloc: Global) -> Result<Structure, AllocError> {
    let mut fields = one(
        alloc,
        Field {
            data_type: DataType::number(NumberType::Char),
            offset: 0,
        },
    )?;
    fields.push(Field {
        data_type: structure_type(0),
        offset: 1,
    })?;
    Ok(Structure { fields, cells: 5 })
}

#[test]
fn nested_structures_40_000_deep_are_typed(rt: HostRuntime) {
    let answer = nested(rt.alloc(), 40_000);
    assert!(rt; answer.expect(&rt, "memory"));
}

#[test]
fn a_nested_structure_has_its_cells(rt: HostRuntime) {
    let structures = nested_structures(rt.alloc(), 40_000).expect(&rt, "memory");
    let cells = cells_in(structures.as_slice(), structure_type(39_999));
    assert!(rt; cells == 1);
}

#[test]
fn cells_and_offsets_are_the_tables(rt: HostRuntime) {
    let structures = two(rt.alloc()).expect(&rt, "memory");
    let all = structures.as_slice();
    assert!(rt; cells_in(all, structure_type(1)) == 5);
    assert!(rt; part_offset(all, structure_type(1), 1) == 1);
    let array = DataType::Array {
        element: ElementType::Struct { number: 1 },
        length: 7,
    };
    assert!(rt; cells_in(all, array) == 35);
    assert!(rt; part_offset(all, array, 3) == 15);
}

#[test]
fn tables_are_right_or_not(rt: HostRuntime) {
    let alloc = rt.alloc();
    let fine = alone(alloc, structure_of(alloc, DataType::int(), 1));
    assert!(rt; fine.expect(&rt, "memory"));
    let large = alone(alloc, structure_of(alloc, DataType::int(), 2));
    assert!(rt; !large.expect(&rt, "memory"));
    let itself = alone(alloc, structure_of(alloc, structure_type(0), 1));
    assert!(rt; !itself.expect(&rt, "memory"));
    let missing = alone(alloc, structure_of(alloc, DataType::process(2), 1));
    assert!(rt; !missing.expect(&rt, "memory"));
}
