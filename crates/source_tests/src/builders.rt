//! Typed trees, put together by hand.

use crate::trees::{accept, body_of, main_of, one, read, site, transaction, two, variable};
use cc_typed::{
    ChainStep, DataType, ElementType, Expression, Field, Kind, Location, PartStep, ProgramParts,
    Statement, Structure, typed_program,
};
use sqlite_items::{Boxed, Items};
use std::alloc::{AllocError, Global};

/// The type of the structure of this number.
pub(crate) fn structure_type(number: u32) -> DataType {
    DataType::Single(ElementType::Struct { number })
}

/// The body of the process type `q`, which has one variable of type `int`.
pub(crate) fn server_with(alloc: Global, body: Items<Statement>) -> Result<Kind, AllocError> {
    body_of(alloc, 0, &[DataType::int()], body)
}

/// A program of `main` and `q`, which has one site.
pub(crate) fn program(
    alloc: Global,
    structures: Items<Structure>,
    main: Kind,
    server: Kind,
    first: u32,
) -> Result<ProgramParts, AllocError> {
    let kinds = two(alloc, main, server)?;
    let transactions = one(alloc, transaction(alloc, 1, &[], DataType::process(1))?)?;
    let sites = one(alloc, site(alloc, 1, 0, first))?;
    Ok(ProgramParts {
        structures,
        kinds,
        functions: Items::new(alloc),
        transactions,
        sites,
        formats: Items::new(alloc),
    })
}

/// `q` with the body `accept t() { }`.
pub(crate) fn plain_server(alloc: Global) -> Result<Kind, AllocError> {
    let accepts = one(alloc, accept(0, Items::new(alloc)))?;
    server_with(alloc, accepts)
}

/// Whether a program is typed in which `main` has one variable of this type and this statement, and `q` one accept.
pub(crate) fn is_typed_in(
    alloc: Global,
    structures: Items<Structure>,
    variable_type: DataType,
    statement: Result<Statement, AllocError>,
) -> Result<bool, AllocError> {
    let body = one(alloc, statement?)?;
    let main = main_of(alloc, &[variable_type], body)?;
    let parts = program(alloc, structures, main, plain_server(alloc)?, 0)?;
    typed_program(alloc, &parts)
}

/// The same with a variable of type `int`.
pub(crate) fn is_typed(
    alloc: Global,
    statement: Result<Statement, AllocError>,
) -> Result<bool, AllocError> {
    is_typed_in(alloc, Items::new(alloc), DataType::int(), statement)
}

/// The structure of one field.
pub(crate) fn structure_of(
    alloc: Global,
    data_type: DataType,
    cells: u32,
) -> Result<Structure, AllocError> {
    Ok(Structure {
        fields: one(
            alloc,
            Field {
                data_type,
                offset: 0,
            },
        )?,
        cells,
    })
}

/// So many structures: the first holds an `int`, and each other one the one before it.
pub(crate) fn nested_structures(alloc: Global, count: u32) -> Result<Items<Structure>, AllocError> {
    let mut all = Items::new(alloc);
    let mut inner = DataType::int();
    for number in 0..count {
        all.push(structure_of(alloc, inner, 1)?)?;
        inner = structure_type(number);
    }
    Ok(all)
}

/// The place `x.a.a ..` of a variable of the last of so many nested structures, down to the `int`.
pub(crate) fn innermost(alloc: Global, count: u32) -> Result<Location, AllocError> {
    let mut steps = Items::new(alloc);
    for number in (0..count.saturating_sub(1)).rev() {
        steps.push(PartStep::Field {
            field: 0,
            data_type: structure_type(number),
        })?;
    }
    steps.push(PartStep::Field {
        field: 0,
        data_type: DataType::int(),
    })?;
    Ok(Location {
        variable: 0,
        of: structure_type(count.saturating_sub(1)),
        steps,
        data_type: DataType::int(),
    })
}

/// `p.t().t() ..` with so many calls, where p is the first variable.
pub(crate) fn calls(alloc: Global, count: u32) -> Result<Expression, AllocError> {
    let mut steps = Items::new(alloc);
    for _ in 0..count {
        steps.push(ChainStep::Call {
            transaction: 0,
            args: Items::new(alloc),
            data_type: DataType::process(1),
        })?;
    }
    let first = read(variable(alloc, 0, DataType::process(1)));
    Ok(Expression::Chain {
        first: Boxed::new(alloc, first)?,
        steps,
        data_type: DataType::process(1),
    })
}
