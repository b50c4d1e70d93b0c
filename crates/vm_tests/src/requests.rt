//! What `main` asks first, for each instruction that asks and whose operands say all of it.
use crate::again::asks_again;
use crate::building::{code, heights, instrs, rows, with_format, with_kind, with_transaction};
use crate::driving::{Told, asked_at, run};
use cc_base::Bytes;
use cc_code::{Instr, Part, RawCode, verify};
use cc_vm::Image;
use std::alloc::{AllocError, Global};
use std::rt::HostRuntime;
use std::test::Fail;

/// Code with one more kind and one transaction, each with two cells for its arguments; the value has none.
fn whole(alloc: Global, all: &[Instr], levels: &[u32]) -> Result<RawCode, AllocError> {
    let instrs = instrs(alloc, all, &[Instr::End])?;
    let heights = heights(alloc, levels, &[0])?;
    let kind = Part {
        entry: u16::try_from(all.len()).unwrap_or(0),
        args: 2,
        cells: 2,
        value: 0,
    };
    let raw = with_kind(code(alloc, 0, instrs, heights)?, kind)?;
    with_transaction(raw, 2)
}

/// What comes of the format `%d%c%%` with -3 and `A`.
fn formats(alloc: Global) -> Result<Told, Fail> {
    let all = [
        Instr::Const(-3),
        Instr::Const(65),
        Instr::Format(0),
        Instr::Drop(1),
    ];
    let format = Bytes::from_slice(alloc, b"%d%c%%")?;
    let raw = with_format(whole(alloc, &all, &[0, 1, 2, 1])?, format)?;
    first_asked(alloc, raw)
}

/// What `main` asks first.
fn asks(alloc: Global, all: &[Instr], levels: &[u32]) -> Result<Told, Fail> {
    first_asked(alloc, whole(alloc, all, levels)?)
}

/// What the code's `main` asks first.
fn first_asked(alloc: Global, raw: RawCode) -> Result<Told, Fail> {
    let code = verify(alloc, raw)?;
    let ran = run(alloc, Image(code), &[], 1, &[])?;
    Ok(match asked_at(&ran, 0) {
        Some((_, told)) => told,
        None => (-1, 0, 0),
    })
}

#[test]
fn processes_are_created_with_their_arguments(rt: HostRuntime) -> Result<(), Fail> {
    let all = [
        Instr::Const(5),
        Instr::Const(6),
        Instr::Create(1),
        Instr::Drop(1),
    ];
    assert_eq!(rt; asks(rt.alloc(), &all, &[0, 1, 2, 1])?, (1, 1, 56));
    Ok(())
}

#[test]
fn calls_name_a_process_below_the_arguments(rt: HostRuntime) -> Result<(), Fail> {
    let send = [
        Instr::Const(3),
        Instr::Const(7),
        Instr::Const(8),
        Instr::Send(0),
    ];
    assert_eq!(rt; asks(rt.alloc(), &send, &[0, 1, 2, 3])?, (4, 2, 78));
    let null = [
        Instr::Const(0),
        Instr::Const(7),
        Instr::Const(8),
        Instr::Send(0),
    ];
    assert_eq!(rt; asks(rt.alloc(), &null, &[0, 1, 2, 3])?, (9, 6, 0));
    Ok(())
}

#[test]
fn waits_and_answers(rt: HostRuntime) -> Result<(), Fail> {
    let wait = [Instr::Const(30), Instr::Wait];
    assert_eq!(rt; asks(rt.alloc(), &wait, &[0, 1])?, (5, 30, 0));
    let reply = [Instr::Const(1), Instr::Const(2), Instr::Reply(2)];
    assert_eq!(rt; asks(rt.alloc(), &reply, &[0, 1, 2])?, (6, 0, 12));
    Ok(())
}

#[test]
fn bytes_are_printed_and_got(rt: HostRuntime) -> Result<(), Fail> {
    let print = [Instr::Const(321), Instr::PutByte, Instr::Drop(1)];
    assert_eq!(rt; asks(rt.alloc(), &print, &[0, 1, 1])?, (7, 65, 1));
    let get = [Instr::GetByte, Instr::Drop(1)];
    assert_eq!(rt; asks(rt.alloc(), &get, &[0, 1])?, (8, 0, 0));
    Ok(())
}

#[test]
fn formats_are_printed_with_their_numbers(rt: HostRuntime) -> Result<(), Fail> {
    assert_eq!(rt; formats(rt.alloc())?, (7, 45, 4));
    Ok(())
}

/// Whether `main` with these instructions asks so many times at once.
fn asks_so_often(alloc: Global, all: &[(Instr, u32)], times: u32) -> Result<bool, Fail> {
    let code = verify(alloc, rows(alloc, 0, all)?)?;
    Ok(asks_again(alloc, Image(code), times)?)
}

#[test]
fn a_process_asks_again_and_again(rt: HostRuntime) -> Result<(), Fail> {
    let prints = [
        (Instr::Const(65), 0),
        (Instr::PutByte, 1),
        (Instr::Drop(1), 1),
        (Instr::Jump(0), 0),
    ];
    assert!(rt; asks_so_often(rt.alloc(), &prints, 1_000)?);
    let once = [(Instr::Const(0), 0), (Instr::Wait, 1), (Instr::End, 0)];
    assert!(rt; asks_so_often(rt.alloc(), &once, 1)?);
    assert!(rt; !asks_so_often(rt.alloc(), &once, 2)?);
    Ok(())
}
