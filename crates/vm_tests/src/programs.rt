//! How far `main` comes, for each instruction that asks nothing, for calls, for each fault that they meet, and for pauses.
use crate::building::{code, heights, instrs, with_function};
use crate::driving::run;
use cc_base::NumberType;
use cc_code::{Instr, Part, RawCode, verify};
use cc_vm::Image;
use std::alloc::{AllocError, Global};
use std::rt::HostRuntime;
use std::test::Fail;

/// A word for how far `main` comes with 2 pauses at most: 0 for its end, 1 for a third pause, and for a fault 2 more than its number.
fn ending(alloc: Global, raw: RawCode) -> Result<u8, Fail> {
    let ran = run(alloc, Image(verify(alloc, raw)?), &[], 3, &[])?;
    Ok(match ran.asked.last() {
        Some((_, (0, _, _))) => 0,
        Some((_, (9, kind, _))) => u8::try_from(*kind).unwrap_or(0).wrapping_add(2),
        Some((_, (10, _, _))) => 1,
        _ => 99,
    })
}

/// Whether the one operand that these instructions leave is this number: 0, and 3 where it is another.
fn leaves(alloc: Global, front: &[Instr], levels: &[u32], number: i64) -> Result<u8, Fail> {
    let other = u16::try_from(front.len()).unwrap_or(0).wrapping_add(4);
    let test = [
        Instr::Const(number),
        Instr::Eq,
        Instr::JumpZero(other),
        Instr::End,
        Instr::Const(1),
        Instr::Const(0),
        Instr::Div(NumberType::Int),
        Instr::Drop(1),
        Instr::End,
    ];
    let instrs = instrs(alloc, front, &test)?;
    let heights = heights(alloc, levels, &[1, 2, 1, 0, 0, 1, 2, 1, 0])?;
    ending(alloc, code(alloc, 3, instrs, heights)?)
}

/// What comes of two numbers and an instruction.
fn of_two(alloc: Global, left: i64, right: i64, instr: Instr, number: i64) -> Result<u8, Fail> {
    leaves(
        alloc,
        &[Instr::Const(left), Instr::Const(right), instr],
        &[0, 1, 2],
        number,
    )
}

#[test]
fn arithmetic_takes_the_left_first(rt: HostRuntime) -> Result<(), Fail> {
    let int = NumberType::Int;
    assert_eq!(rt; of_two(rt.alloc(), 7, 3, Instr::Add(int), 10)?, 0);
    assert_eq!(rt; of_two(rt.alloc(), 7, 3, Instr::Sub(int), 4)?, 0);
    assert_eq!(rt; of_two(rt.alloc(), 7, 3, Instr::Mul(int), 21)?, 0);
    assert_eq!(rt; of_two(rt.alloc(), -7, 3, Instr::Div(int), -2)?, 0);
    assert_eq!(rt; of_two(rt.alloc(), -7, 3, Instr::Rem(int), -1)?, 0);
    assert_eq!(rt; of_two(rt.alloc(), 7, 3, Instr::Sub(int), 5)?, 3);
    Ok(())
}

#[test]
fn arithmetic_faults(rt: HostRuntime) -> Result<(), Fail> {
    let int = NumberType::Int;
    assert_eq!(rt;
        of_two(rt.alloc(), 2_147_483_647, 1, Instr::Add(int), 0)?,
        4
    );
    assert_eq!(rt; of_two(rt.alloc(), 1, 0, Instr::Rem(int), 0)?, 3);
    assert_eq!(rt;
        of_two(
            rt.alloc(),
            0,
            3,
            Instr::Index {
                length: 3,
                stride: 2
            },
            0
        )?,
        5
    );
    Ok(())
}

#[test]
fn comparisons_give_1_or_0(rt: HostRuntime) -> Result<(), Fail> {
    assert_eq!(rt; of_two(rt.alloc(), 3, 7, Instr::Lt, 1)?, 0);
    assert_eq!(rt; of_two(rt.alloc(), 7, 7, Instr::Le, 1)?, 0);
    assert_eq!(rt; of_two(rt.alloc(), 7, 7, Instr::Gt, 0)?, 0);
    assert_eq!(rt; of_two(rt.alloc(), 3, 7, Instr::Ge, 0)?, 0);
    assert_eq!(rt; of_two(rt.alloc(), 3, 7, Instr::Ne, 1)?, 0);
    assert_eq!(rt;
        of_two(
            rt.alloc(),
            10,
            2,
            Instr::Index {
                length: 3,
                stride: 2
            },
            14
        )?,
        0
    );
    Ok(())
}

/// What one cell is after 5 and 6 were stored from cell 1 on, and then these instructions.
fn of_cells(alloc: Global, back: &[Instr], levels: &[u32], number: i64) -> Result<u8, Fail> {
    let stored = [
        Instr::Const(1),
        Instr::Const(5),
        Instr::Const(6),
        Instr::Put(2),
        Instr::Drop(2),
    ];
    let instrs = instrs(alloc, &stored, back)?;
    let heights = heights(alloc, &[0, 1, 2, 3, 2], levels)?;
    leaves(alloc, instrs.as_slice(), heights.as_slice(), number)
}

#[test]
fn variables_are_read_and_written(rt: HostRuntime) -> Result<(), Fail> {
    let fetch = [Instr::Const(2), Instr::Fetch(1)];
    assert_eq!(rt; of_cells(rt.alloc(), &fetch, &[0, 1], 6)?, 0);
    let bump = [
        Instr::Const(1),
        Instr::Bump {
            number_type: NumberType::Int,
            by: 1,
        },
    ];
    assert_eq!(rt; of_cells(rt.alloc(), &bump, &[0, 1], 5)?, 0);
    let outside = [Instr::Const(3), Instr::Fetch(1)];
    assert_eq!(rt; of_cells(rt.alloc(), &outside, &[0, 1], 0)?, 5);
    Ok(())
}

#[test]
fn variables_are_cleared_and_bumped(rt: HostRuntime) -> Result<(), Fail> {
    let zero = [
        Instr::Zero {
            offset: 2,
            cells: 1,
        },
        Instr::Const(2),
        Instr::Fetch(1),
    ];
    assert_eq!(rt; of_cells(rt.alloc(), &zero, &[0, 0, 1], 0)?, 0);
    let bumped = [
        Instr::Const(1),
        Instr::Bump {
            number_type: NumberType::Int,
            by: 1,
        },
        Instr::Drop(1),
        Instr::Const(1),
        Instr::Fetch(1),
    ];
    assert_eq!(rt; of_cells(rt.alloc(), &bumped, &[0, 1, 1, 0, 1], 6)?, 0);
    Ok(())
}

#[test]
fn operands_are_cut_and_picked(rt: HostRuntime) -> Result<(), Fail> {
    let part = [
        Instr::Const(4),
        Instr::Const(5),
        Instr::Const(6),
        Instr::Part {
            from: 1,
            cells: 3,
            kept: 1,
        },
    ];
    assert_eq!(rt; leaves(rt.alloc(), &part, &[0, 1, 2, 3], 5)?, 0);
    let pick = [
        Instr::Const(4),
        Instr::Const(5),
        Instr::Const(1),
        Instr::Pick {
            length: 2,
            stride: 1,
        },
    ];
    assert_eq!(rt; leaves(rt.alloc(), &pick, &[0, 1, 2, 3], 5)?, 0);
    let doubled = [
        Instr::Const(7),
        Instr::Dup,
        Instr::Zeros(1),
        Instr::Drop(1),
        Instr::Add(NumberType::Int),
    ];
    assert_eq!(rt; leaves(rt.alloc(), &doubled, &[0, 1, 2, 3, 2], 14)?, 0);
    Ok(())
}

#[test]
fn one_number_becomes_another(rt: HostRuntime) -> Result<(), Fail> {
    let narrow = [Instr::Const(257), Instr::Narrow(NumberType::Char)];
    assert_eq!(rt; leaves(rt.alloc(), &narrow, &[0, 1], 1)?, 0);
    let neg = [Instr::Const(3), Instr::Neg(NumberType::Int)];
    assert_eq!(rt; leaves(rt.alloc(), &neg, &[0, 1], -3)?, 0);
    let not = [Instr::Const(0), Instr::Not];
    assert_eq!(rt; leaves(rt.alloc(), &not, &[0, 1], 1)?, 0);
    let field = [Instr::Const(3), Instr::Field(4)];
    assert_eq!(rt; leaves(rt.alloc(), &field, &[0, 1], 7)?, 0);
    Ok(())
}

/// `main` calls function 0 with n, where f(n) = n ? f(n - 1) + 2 : 0, until it gives less than 2000.
fn calls(alloc: Global, n: i64) -> Result<RawCode, AllocError> {
    let main = [
        Instr::Const(n),
        Instr::Call(0),
        Instr::Const(2000),
        Instr::Lt,
        Instr::JumpZero(0),
        Instr::End,
    ];
    let function = [
        Instr::Const(0),
        Instr::Fetch(1),
        Instr::JumpZero(17),
        Instr::Const(0),
        Instr::Fetch(1),
        Instr::Const(1),
        Instr::Sub(NumberType::Int),
        Instr::Call(0),
        Instr::Const(2),
        Instr::Add(NumberType::Int),
        Instr::Ret(1),
        Instr::Const(0),
        Instr::Ret(1),
    ];
    let instrs = instrs(alloc, &main, &function)?;
    let levels = [0, 1, 1, 0, 1, 1, 2, 1, 1, 2, 1, 0, 1];
    let heights = heights(alloc, &[0, 1, 1, 2, 1, 0], &levels)?;
    code(alloc, 0, instrs, heights)
}

/// How far that comes, where the function has so many variable cells.
fn with_calls(alloc: Global, n: i64, cells: u64) -> Result<u8, Fail> {
    let function = Part {
        entry: 6,
        args: 1,
        cells,
        value: 1,
    };
    ending(alloc, with_function(calls(alloc, n)?, function)?)
}

#[test]
fn functions_call_and_return(rt: HostRuntime) -> Result<(), Fail> {
    assert_eq!(rt; with_calls(rt.alloc(), 20, 1)?, 0);
    assert_eq!(rt; with_calls(rt.alloc(), 999, 65)?, 0);
    assert_eq!(rt; with_calls(rt.alloc(), 1000, 1)?, 6);
    assert_eq!(rt; with_calls(rt.alloc(), 999, 66)?, 7);
    assert_eq!(rt; with_calls(rt.alloc(), 1, 0)?, 5);
    Ok(())
}

/// How far a `main` with these instructions alone comes.
fn runs(alloc: Global, all: &[Instr], levels: &[u32]) -> Result<u8, Fail> {
    let instrs = instrs(alloc, all, &[])?;
    let heights = heights(alloc, levels, &[])?;
    ending(alloc, code(alloc, 1, instrs, heights)?)
}

#[test]
fn a_process_pauses_after_1000_ticks(rt: HostRuntime) -> Result<(), Fail> {
    let forever = [Instr::Tick, Instr::Jump(0)];
    assert_eq!(rt; runs(rt.alloc(), &forever, &[0, 0])?, 1);
    let without = [Instr::Jump(0)];
    assert_eq!(rt; runs(rt.alloc(), &without, &[0])?, 6);
    Ok(())
}
