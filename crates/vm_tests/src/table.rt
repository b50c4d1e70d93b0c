//! Each instruction that goes on behind itself, with the operands and the variables before and after it.
use crate::building::{rows, with_format, with_kind, with_transaction};
use crate::driving::{Ran, run};
use cc_base::{Bytes, Cells, NumberType};
use cc_code::{Instr, Part, RawCode, verify};
use cc_vm::Image;
use std::alloc::{AllocError, Global};
use std::rt::HostRuntime;
use std::test::Fail;

const INT: NumberType = NumberType::Int;

/// The variables and the operands before an instruction, and the operands and the variables after it.
type Row = (
    &'static [i64],
    &'static [i64],
    Instr,
    &'static [i64],
    &'static [i64],
);

const OPERANDS: [Row; 12] = [
    (&[], &[4], Instr::Const(7), &[4, 7], &[]),
    (&[], &[4], Instr::Zeros(2), &[4, 0, 0], &[]),
    (&[], &[4, 5, 6], Instr::Drop(2), &[4], &[]),
    (&[], &[4, 5], Instr::Dup, &[4, 5, 5], &[]),
    (&[], &[4, 5], Instr::Field(3), &[4, 8], &[]),
    (
        &[],
        &[4, 10, 2],
        Instr::Index {
            length: 3,
            stride: 2,
        },
        &[4, 14],
        &[],
    ),
    (
        &[],
        &[4, 5, 6, 7],
        Instr::Part {
            from: 1,
            cells: 3,
            kept: 1,
        },
        &[4, 6],
        &[],
    ),
    (
        &[],
        &[9, 1, 2, 3, 4, 1],
        Instr::Pick {
            length: 2,
            stride: 2,
        },
        &[9, 3, 4],
        &[],
    ),
    (&[], &[4, 3], Instr::Neg(INT), &[4, -3], &[]),
    (&[], &[4, 0], Instr::Not, &[4, 1], &[]),
    (
        &[],
        &[4, 257],
        Instr::Narrow(NumberType::Char),
        &[4, 1],
        &[],
    ),
    (&[], &[4], Instr::Tick, &[4], &[]),
];

const ARITHMETIC: [Row; 11] = [
    (&[], &[4, 7, 3], Instr::Add(INT), &[4, 10], &[]),
    (&[], &[4, 7, 3], Instr::Sub(INT), &[4, 4], &[]),
    (&[], &[4, 7, 3], Instr::Mul(INT), &[4, 21], &[]),
    (&[], &[4, -7, 3], Instr::Div(INT), &[4, -2], &[]),
    (&[], &[4, -7, 3], Instr::Rem(INT), &[4, -1], &[]),
    (&[], &[4, 3, 7], Instr::Lt, &[4, 1], &[]),
    (&[], &[4, 7, 3], Instr::Le, &[4, 0], &[]),
    (&[], &[4, 7, 3], Instr::Gt, &[4, 1], &[]),
    (&[], &[4, 3, 7], Instr::Ge, &[4, 0], &[]),
    (&[], &[4, 3, 3], Instr::Eq, &[4, 1], &[]),
    (&[], &[4, 3, 3], Instr::Ne, &[4, 0], &[]),
];

const VARIABLES: [Row; 5] = [
    (&[5, 6, 7], &[4, 1], Instr::Fetch(2), &[4, 6, 7], &[5, 6, 7]),
    (
        &[5, 6, 7],
        &[4, 1, 8, 9],
        Instr::Put(2),
        &[4, 8, 9],
        &[5, 8, 9],
    ),
    (
        &[5, 6, 7],
        &[4, 1],
        Instr::Bump {
            number_type: INT,
            by: 2,
        },
        &[4, 6],
        &[5, 8, 7],
    ),
    (
        &[255],
        &[4, 0],
        Instr::Bump {
            number_type: NumberType::Char,
            by: 1,
        },
        &[4, 255],
        &[0],
    ),
    (
        &[5, 6, 7],
        &[4],
        Instr::Zero {
            offset: 1,
            cells: 1,
        },
        &[4],
        &[5, 0, 7],
    ),
];

const REQUESTS: [Row; 10] = [
    (&[5], &[4], Instr::SelBegin, &[4], &[5]),
    (&[5], &[4, 9], Instr::OfferAfter(0), &[4], &[5]),
    (&[5], &[4], Instr::OfferNow(0), &[4], &[5]),
    (&[5], &[4], Instr::OfferEnd(0), &[4], &[5]),
    (&[5], &[4, 9], Instr::Create(1), &[4, 2], &[5]),
    (&[5], &[4, 1, 9], Instr::Send(0), &[4], &[5]),
    (&[5], &[4, 9], Instr::Wait, &[4], &[5]),
    (&[5], &[4, 321], Instr::PutByte, &[4, 65], &[5]),
    (&[5], &[4], Instr::GetByte, &[4, 97], &[5]),
    (&[5], &[4, -12], Instr::Format(0), &[4, 4], &[5]),
];

/// As many as that, where that is a small number.
fn count(numbers: &[i64]) -> u32 {
    u32::try_from(numbers.len()).unwrap_or(0)
}

/// These numbers are put on the stack, where so many cells stand already.
fn push_all(all: &mut Vec<(Instr, u32)>, numbers: &[i64], from: u32) -> Result<(), AllocError> {
    let mut height = from;
    for number in numbers {
        all.push((Instr::Const(*number), height))?;
        height = height.wrapping_add(1);
    }
    Ok(())
}

/// The variables get their cells.
fn set_variables(all: &mut Vec<(Instr, u32)>, numbers: &[i64]) -> Result<(), AllocError> {
    let cells = count(numbers);
    all.push((Instr::Const(0), 0))?;
    push_all(all, numbers, 1)?;
    all.push((Instr::Put(cells), cells.wrapping_add(1)))?;
    all.push((Instr::Drop(cells), cells))?;
    Ok(())
}

/// A Reply of the operands and the variables.
fn tell_all(all: &mut Vec<(Instr, u32)>, operands: u32, cells: u32) -> Result<(), AllocError> {
    let both = operands.wrapping_add(cells);
    all.push((Instr::Const(0), operands))?;
    all.push((Instr::Fetch(cells), operands.wrapping_add(1)))?;
    all.push((Instr::Reply(both), both))?;
    all.push((Instr::End, 0))?;
    Ok(())
}

/// What `main` does in a row.
fn steps(alloc: Global, row: &Row) -> Result<Vec<(Instr, u32)>, AllocError> {
    let (cells, before, instr, after, _) = *row;
    let mut all = Vec::new(alloc);
    set_variables(&mut all, cells)?;
    push_all(&mut all, before, 0)?;
    all.push((instr, count(before)))?;
    tell_all(&mut all, count(after), count(cells))?;
    Ok(all)
}

/// The code of a row, with a kind and a transaction of one cell each.
fn code_of(alloc: Global, row: &Row) -> Result<RawCode, AllocError> {
    let all = steps(alloc, row)?;
    let kind = Part {
        entry: u16::try_from(all.len()).unwrap_or(0).wrapping_sub(1),
        args: 1,
        cells: 1,
        value: 0,
    };
    let cells = u64::from(count(row.0));
    let raw = with_kind(rows(alloc, cells, all.as_slice())?, kind)?;
    with_transaction(raw, 1)
}

/// The same with the format `%d%`.
fn formatted(alloc: Global, row: &Row) -> Result<RawCode, Fail> {
    let format = Bytes::from_slice(alloc, b"%d%")?;
    Ok(with_format(code_of(alloc, row)?, format)?)
}

/// Its run on the input `a`, with 9 as the reading of the clock.
fn ran(alloc: Global, row: &Row) -> Result<Ran, Fail> {
    let code = verify(alloc, formatted(alloc, row)?)?;
    Ok(run(alloc, Image(code), b"a", 10, &[9])?)
}

/// Whether these cells are the numbers, from the place on.
fn are(cells: &Cells, from: usize, numbers: &[i64]) -> bool {
    for (at, number) in numbers.iter().enumerate() {
        if cells.get(from.wrapping_add(at)) != Some(*number) {
            return false;
        }
    }
    true
}

/// Whether the operands and the variables are after a row as it says.
fn holds(alloc: Global, row: &Row) -> Result<bool, Fail> {
    let found = ran(alloc, row)?.replied;
    let (_, _, _, after, cells) = *row;
    let whole = found.len() == after.len().wrapping_add(cells.len());
    Ok(whole && are(&found, 0, after) && are(&found, after.len(), cells))
}

/// The first row that does not hold, or how many there are.
fn first_wrong(alloc: Global, table: &[Row]) -> Result<usize, Fail> {
    for (at, row) in table.iter().enumerate() {
        if !holds(alloc, row)? {
            return Ok(at);
        }
    }
    Ok(table.len())
}

#[test]
fn operands_are_as_the_table_says(rt: HostRuntime) -> Result<(), Fail> {
    assert_eq!(rt; first_wrong(rt.alloc(), &OPERANDS)?, 12);
    Ok(())
}

#[test]
fn arithmetic_is_as_the_table_says(rt: HostRuntime) -> Result<(), Fail> {
    assert_eq!(rt; first_wrong(rt.alloc(), &ARITHMETIC)?, 11);
    Ok(())
}

#[test]
fn variables_are_as_the_table_says(rt: HostRuntime) -> Result<(), Fail> {
    assert_eq!(rt; first_wrong(rt.alloc(), &VARIABLES)?, 5);
    Ok(())
}

#[test]
fn requests_leave_what_the_table_says(rt: HostRuntime) -> Result<(), Fail> {
    assert_eq!(rt; first_wrong(rt.alloc(), &REQUESTS)?, 10);
    Ok(())
}
