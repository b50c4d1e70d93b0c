//! What processes print that call each other, select, wait and read, on the kernel.
use crate::building::{
    rows, site, with_call, with_format, with_kind, with_site, with_table, with_transaction,
};
use crate::driving::{Ran, asked_at, run};
use cc_base::{Bytes, NumberType};
use cc_code::{Instr, Part, RawCode, TableEntry, verify};
use cc_vm::Image;
use sqlite_items::Items;
use std::alloc::Global;
use std::rt::HostRuntime;
use std::test::Fail;

const INT: NumberType = NumberType::Int;

/// The run of code on the input `a`, with these readings of the clock.
fn runs(alloc: Global, raw: RawCode, readings: &[u64]) -> Result<Ran, Fail> {
    Ok(run(alloc, Image(verify(alloc, raw)?), b"a", 100, readings)?)
}

/// Code with a second kind, which begins at this address and has so many variable cells, the first of them its arguments.
fn two_kinds(
    alloc: Global,
    all: &[(Instr, u32)],
    entry: u16,
    args: u32,
    cells: u64,
) -> Result<RawCode, Fail> {
    let kind = Part {
        entry,
        args,
        cells,
        value: 0,
    };
    Ok(with_kind(rows(alloc, 0, all)?, kind)?)
}

/// The same with this table.
fn selecting(alloc: Global, raw: RawCode, table: &[TableEntry]) -> Result<RawCode, Fail> {
    Ok(with_table(raw, Items::from_slice(alloc, table)?)?)
}

/// The same with a site of transaction 0 whose environment has the first cells, and whose `suchthat` begins at this address.
fn accepting(alloc: Global, raw: RawCode, cells: u32, such: Option<u16>) -> Result<RawCode, Fail> {
    Ok(with_site(raw, site(alloc, cells, such, None)?)?)
}

/// The alternative of this number, with its site.
fn entry(alt: u32, site: Option<u32>, address: u16) -> TableEntry {
    TableEntry { alt, site, address }
}

/// `main` makes a process, calls it with 7, and prints the byte that it answers: 60 more.
fn called(alloc: Global) -> Result<RawCode, Fail> {
    let all = [
        (Instr::Create(1), 0),
        (Instr::Const(7), 1),
        (Instr::Ask(0), 2),
        (Instr::PutByte, 1),
        (Instr::Drop(1), 1),
        (Instr::End, 0),
        (Instr::SelBegin, 0),
        (Instr::OfferAccept { alt: 0, site: 0 }, 0),
        (Instr::SelWait(0), 0),
        (Instr::Const(0), 0),
        (Instr::Fetch(1), 1),
        (Instr::Const(60), 1),
        (Instr::Add(INT), 2),
        (Instr::Reply(1), 1),
        (Instr::End, 0),
    ];
    let raw = with_call(two_kinds(alloc, &all, 6, 0, 1)?, 1, 1)?;
    let raw = accepting(alloc, raw, 0, None)?;
    selecting(alloc, raw, &[entry(0, Some(0), 9)])
}

#[test]
fn a_call_is_taken_and_answered(rt: HostRuntime) -> Result<(), Fail> {
    let ran = runs(rt.alloc(), called(rt.alloc())?, &[])?;
    assert!(rt; ran.printed.as_slice() == b"C".as_slice());
    assert_eq!(rt; asked_at(&ran, 0), Some((0, (1, 1, 0))));
    assert_eq!(rt; asked_at(&ran, 1), Some((0, (2, 1, 7))));
    assert_eq!(rt; asked_at(&ran, 2), Some((1, (11, 0, 1))));
    assert_eq!(rt; asked_at(&ran, 3), Some((1, (6, 0, 67))));
    assert_eq!(rt; asked_at(&ran, 4), Some((1, (0, 0, 0))));
    assert_eq!(rt; asked_at(&ran, 5), Some((0, (7, 67, 1))));
    assert_eq!(rt; asked_at(&ran, 6), Some((0, (0, 0, 0))));
    assert_eq!(rt; asked_at(&ran, 7), None);
    Ok(())
}

/// `main` calls a process that waits for 100 milliseconds, within 5, and prints `L` where the call comes too late.
fn late(alloc: Global) -> Result<RawCode, Fail> {
    let all = [
        (Instr::Create(1), 0),
        (Instr::Drop(1), 1),
        (Instr::Const(5), 0),
        (Instr::Const(2), 1),
        (Instr::Const(7), 2),
        (Instr::AskWithin { trans: 0, late: 9 }, 3),
        (Instr::PutByte, 1),
        (Instr::Drop(1), 1),
        (Instr::End, 0),
        (Instr::Const(76), 0),
        (Instr::PutByte, 1),
        (Instr::Drop(1), 1),
        (Instr::End, 0),
        (Instr::Const(100), 0),
        (Instr::Wait, 1),
        (Instr::End, 0),
    ];
    Ok(with_call(two_kinds(alloc, &all, 13, 0, 0)?, 1, 1)?)
}

#[test]
fn a_late_call_goes_on_elsewhere(rt: HostRuntime) -> Result<(), Fail> {
    let ran = runs(rt.alloc(), late(rt.alloc())?, &[5])?;
    assert!(rt; ran.printed.as_slice() == b"L".as_slice());
    assert_eq!(rt; asked_at(&ran, 1), Some((0, (3, 6, 7))));
    assert_eq!(rt; asked_at(&ran, 2), Some((1, (5, 100, 0))));
    assert_eq!(rt; asked_at(&ran, 3), Some((0, (7, 76, 1))));
    Ok(())
}

/// The same, where the process takes the call at once, and answers 65.
fn in_time(alloc: Global) -> Result<RawCode, Fail> {
    let all = [
        (Instr::Create(1), 0),
        (Instr::Drop(1), 1),
        (Instr::Const(5), 0),
        (Instr::Const(2), 1),
        (Instr::AskWithin { trans: 0, late: 8 }, 2),
        (Instr::PutByte, 1),
        (Instr::Drop(1), 1),
        (Instr::End, 0),
        (Instr::End, 0),
        (Instr::SelBegin, 0),
        (Instr::OfferAccept { alt: 0, site: 0 }, 0),
        (Instr::SelWait(0), 0),
        (Instr::Const(65), 0),
        (Instr::Reply(1), 1),
        (Instr::End, 0),
    ];
    let raw = with_call(two_kinds(alloc, &all, 9, 0, 0)?, 0, 1)?;
    let raw = accepting(alloc, raw, 0, None)?;
    selecting(alloc, raw, &[entry(0, Some(0), 12)])
}

#[test]
fn a_call_in_time_gives_its_value(rt: HostRuntime) -> Result<(), Fail> {
    let ran = runs(rt.alloc(), in_time(rt.alloc())?, &[5])?;
    assert!(rt; ran.printed.as_slice() == b"A".as_slice());
    Ok(())
}

/// `main` sends 9 to a process, which prints what it is sent until all end.
fn sent(alloc: Global) -> Result<RawCode, Fail> {
    let all = [
        (Instr::Create(1), 0),
        (Instr::Const(9), 1),
        (Instr::Send(0), 2),
        (Instr::End, 0),
        (Instr::SelBegin, 0),
        (Instr::OfferAccept { alt: 0, site: 0 }, 0),
        (Instr::OfferEnd(1), 0),
        (Instr::SelWait(0), 0),
        (Instr::Const(0), 0),
        (Instr::Fetch(1), 1),
        (Instr::Const(48), 1),
        (Instr::Add(INT), 2),
        (Instr::PutByte, 1),
        (Instr::Drop(1), 1),
        (Instr::Jump(4), 0),
    ];
    let raw = with_transaction(two_kinds(alloc, &all, 4, 0, 1)?, 1)?;
    let raw = accepting(alloc, raw, 0, None)?;
    selecting(alloc, raw, &[entry(0, Some(0), 8), entry(1, None, 4)])
}

#[test]
fn what_is_sent_is_taken(rt: HostRuntime) -> Result<(), Fail> {
    let ran = runs(rt.alloc(), sent(rt.alloc())?, &[])?;
    assert!(rt; ran.printed.as_slice() == b"9".as_slice());
    assert_eq!(rt; asked_at(&ran, 1), Some((0, (4, 1, 9))));
    Ok(())
}

/// `main` sends 5 and then 6 to a process, which takes those that are the 6 in its variable, and prints one.
fn chosen(alloc: Global) -> Result<RawCode, Fail> {
    let all = [
        (Instr::Create(1), 0),
        (Instr::Dup, 1),
        (Instr::Const(5), 2),
        (Instr::Send(0), 3),
        (Instr::Const(6), 1),
        (Instr::Send(0), 2),
        (Instr::End, 0),
        (Instr::Const(0), 0),
        (Instr::Const(6), 1),
        (Instr::Put(1), 2),
        (Instr::Drop(1), 1),
        (Instr::SelBegin, 0),
        (Instr::OfferAccept { alt: 0, site: 0 }, 0),
        (Instr::SelWait(0), 0),
        (Instr::Const(0), 0),
        (Instr::Fetch(1), 1),
        (Instr::Const(48), 1),
        (Instr::Add(INT), 2),
        (Instr::PutByte, 1),
        (Instr::Drop(1), 1),
        (Instr::End, 0),
        (Instr::Const(0), 0),
        (Instr::Fetch(1), 1),
        (Instr::Const(1), 1),
        (Instr::Fetch(1), 2),
        (Instr::Eq, 2),
        (Instr::Yield, 1),
    ];
    let raw = with_transaction(two_kinds(alloc, &all, 7, 0, 1)?, 1)?;
    let raw = accepting(alloc, raw, 1, Some(21))?;
    selecting(alloc, raw, &[entry(0, Some(0), 14)])
}

#[test]
fn an_accept_takes_the_environment_as_it_is(rt: HostRuntime) -> Result<(), Fail> {
    let ran = runs(rt.alloc(), chosen(rt.alloc())?, &[])?;
    assert!(rt; ran.printed.as_slice() == b"6".as_slice());
    Ok(())
}

/// Prints `f` at address 6 and `s` at address 10, after these six instructions.
fn first_or_second(alloc: Global, front: &[(Instr, u32); 6]) -> Result<RawCode, Fail> {
    let all = [
        front[0],
        front[1],
        front[2],
        front[3],
        front[4],
        front[5],
        (Instr::Const(102), 0),
        (Instr::PutByte, 1),
        (Instr::Drop(1), 1),
        (Instr::End, 0),
        (Instr::Const(115), 0),
        (Instr::PutByte, 1),
        (Instr::Drop(1), 1),
        (Instr::End, 0),
    ];
    Ok(rows(alloc, 0, &all)?)
}

#[test]
fn the_first_entry_of_an_alternative_counts(rt: HostRuntime) -> Result<(), Fail> {
    let front = [
        (Instr::SelBegin, 0),
        (Instr::OfferNow(0), 0),
        (Instr::SelBegin, 0),
        (Instr::OfferNow(3), 0),
        (Instr::OfferNow(4), 0),
        (Instr::SelWait(0), 0),
    ];
    let raw = first_or_second(rt.alloc(), &front)?;
    let table = [entry(0, None, 10), entry(3, None, 6), entry(3, None, 10)];
    let ran = runs(rt.alloc(), selecting(rt.alloc(), raw, &table)?, &[])?;
    assert!(rt; ran.printed.as_slice() == b"f".as_slice());
    assert_eq!(rt; asked_at(&ran, 0), Some((0, (11, 0, 2))));
    Ok(())
}

#[test]
fn the_shortest_delay_is_taken(rt: HostRuntime) -> Result<(), Fail> {
    let front = [
        (Instr::SelBegin, 0),
        (Instr::Const(9), 0),
        (Instr::OfferAfter(0), 1),
        (Instr::Const(3), 0),
        (Instr::OfferAfter(1), 1),
        (Instr::SelWait(0), 0),
    ];
    let raw = first_or_second(rt.alloc(), &front)?;
    let table = [entry(0, None, 6), entry(1, None, 10)];
    let ran = runs(rt.alloc(), selecting(rt.alloc(), raw, &table)?, &[3])?;
    assert!(rt; ran.printed.as_slice() == b"s".as_slice());
    Ok(())
}

/// What `main` asks at this place that has these instructions and table.
fn asks(
    alloc: Global,
    all: &[(Instr, u32)],
    table: &[TableEntry],
    at: usize,
) -> Result<Option<(u32, (i64, i64, i64))>, Fail> {
    let raw = selecting(alloc, with_call(rows(alloc, 0, all)?, 1, 0)?, table)?;
    let ran = runs(alloc, raw, &[])?;
    Ok(asked_at(&ran, at))
}

#[test]
fn selects_fault(rt: HostRuntime) -> Result<(), Fail> {
    let none = [
        (Instr::SelBegin, 0),
        (Instr::SelWait(0), 0),
        (Instr::End, 0),
    ];
    assert_eq!(rt; asks(rt.alloc(), &none, &[], 0)?, Some((0, (9, 8, 0))));
    let falling = [
        (Instr::SelBegin, 0),
        (Instr::OfferNow(1), 0),
        (Instr::OfferNow(1), 0),
        (Instr::End, 0),
    ];
    assert_eq!(rt; asks(rt.alloc(), &falling, &[], 0)?, Some((0, (9, 3, 0))));
    let unlisted = [
        (Instr::SelBegin, 0),
        (Instr::OfferNow(1), 0),
        (Instr::SelWait(0), 0),
        (Instr::End, 0),
    ];
    let table = [entry(0, None, 3)];
    assert_eq!(rt;
        asks(rt.alloc(), &unlisted, &table, 0)?,
        Some((0, (11, 0, 1)))
    );
    assert_eq!(rt;
        asks(rt.alloc(), &unlisted, &table, 1)?,
        Some((0, (9, 3, 0)))
    );
    Ok(())
}

#[test]
fn calls_fault(rt: HostRuntime) -> Result<(), Fail> {
    let gone = [
        (Instr::Const(5), 0),
        (Instr::Const(8), 1),
        (Instr::Ask(0), 2),
        (Instr::End, 0),
    ];
    assert_eq!(rt; asks(rt.alloc(), &gone, &[], 0)?, Some((0, (2, 4, 8))));
    assert_eq!(rt; asks(rt.alloc(), &gone, &[], 1)?, Some((0, (9, 7, 0))));
    let null = [
        (Instr::Const(0), 0),
        (Instr::Const(8), 1),
        (Instr::Ask(0), 2),
        (Instr::End, 0),
    ];
    assert_eq!(rt; asks(rt.alloc(), &null, &[], 0)?, Some((0, (9, 6, 0))));
    Ok(())
}

/// What is read, printed and given, after a wait.
fn printing(alloc: Global) -> Result<RawCode, Fail> {
    let all = [
        (Instr::Const(5), 0),
        (Instr::Wait, 1),
        (Instr::GetByte, 0),
        (Instr::PutByte, 1),
        (Instr::Const(1), 1),
        (Instr::Add(INT), 2),
        (Instr::PutByte, 1),
        (Instr::Drop(1), 1),
        (Instr::GetByte, 0),
        (Instr::Const(49), 1),
        (Instr::Add(INT), 2),
        (Instr::PutByte, 1),
        (Instr::Drop(1), 1),
        (Instr::Format(0), 0),
        (Instr::Const(48), 1),
        (Instr::Add(INT), 2),
        (Instr::PutByte, 1),
        (Instr::Drop(1), 1),
        (Instr::End, 0),
    ];
    let format = Bytes::from_slice(alloc, b"%%ok")?;
    Ok(with_format(rows(alloc, 0, &all)?, format)?)
}

#[test]
fn bytes_are_read_and_printed_after_a_wait(rt: HostRuntime) -> Result<(), Fail> {
    let early = runs(rt.alloc(), printing(rt.alloc())?, &[4])?;
    assert!(rt; early.printed.as_slice() == b"".as_slice());
    let ran = runs(rt.alloc(), printing(rt.alloc())?, &[5])?;
    assert!(rt; ran.printed.as_slice() == b"ab0%ok3".as_slice());
    Ok(())
}

/// `main` makes a process with 20 and 40, and prints its number and 48; the process prints the sum of its arguments.
fn made(alloc: Global) -> Result<RawCode, Fail> {
    let all = [
        (Instr::Const(20), 0),
        (Instr::Const(40), 1),
        (Instr::Create(1), 2),
        (Instr::Const(48), 1),
        (Instr::Add(INT), 2),
        (Instr::PutByte, 1),
        (Instr::Drop(1), 1),
        (Instr::End, 0),
        (Instr::Const(0), 0),
        (Instr::Fetch(2), 1),
        (Instr::Add(INT), 2),
        (Instr::PutByte, 1),
        (Instr::Drop(1), 1),
        (Instr::End, 0),
    ];
    two_kinds(alloc, &all, 8, 2, 2)
}

#[test]
fn a_process_begins_with_its_arguments(rt: HostRuntime) -> Result<(), Fail> {
    let ran = runs(rt.alloc(), made(rt.alloc())?, &[])?;
    assert!(rt; ran.printed.as_slice() == b"2<".as_slice());
    Ok(())
}

#[test]
fn a_kind_that_is_too_large_is_at_fault(rt: HostRuntime) -> Result<(), Fail> {
    let all = [
        (Instr::Create(1), 0),
        (Instr::Drop(1), 1),
        (Instr::End, 0),
        (Instr::End, 0),
    ];
    let ran = runs(rt.alloc(), two_kinds(rt.alloc(), &all, 3, 0, 65_537)?, &[])?;
    assert_eq!(rt; asked_at(&ran, 2), Some((1, (9, 5, 0))));
    let most = runs(rt.alloc(), two_kinds(rt.alloc(), &all, 3, 0, 65_536)?, &[])?;
    assert_eq!(rt; asked_at(&most, 2), Some((1, (0, 0, 0))));
    Ok(())
}
