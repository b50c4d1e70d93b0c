//! For each rule the smallest code that breaks it, and a neighbour that doesn't.
use crate::building::{
    answer, code, entry, part, with_function, with_kind, with_site, with_table, with_transaction,
};
use cc_base::{NumberType, Shape};
use cc_code::{Instr, RawCode, Rule, TableEntry};
use sqlite_items::Items;
use std::alloc::{AllocError, Global};
use std::rt::HostRuntime;
use std::test::Fail;

/// What verification answers of instructions with these heights, in `main` alone.
fn of(alloc: Global, instrs: &[Instr], heights: &[u32]) -> Result<Option<(u32, Rule)>, Fail> {
    Ok(answer(alloc, code(alloc, instrs, heights))?)
}

#[test]
fn code_has_a_height_for_each_instruction(rt: HostRuntime) -> Result<(), Fail> {
    assert_eq!(rt; of(rt.alloc(), &[Instr::End], &[])?, Some((0, Rule::Size)));
    assert_eq!(rt; of(rt.alloc(), &[Instr::End], &[0])?, None);
    Ok(())
}

/// `main` with so many ticks and an `End`.
fn long(alloc: Global, ticks: u32) -> Result<RawCode, AllocError> {
    let mut raw = code(alloc, &[], &[])?;
    for _ in 0..ticks {
        raw.instrs.push(Instr::Tick)?;
        raw.heights.push(0)?;
    }
    raw.instrs.push(Instr::End)?;
    raw.heights.push(0)?;
    Ok(raw)
}

#[test]
fn code_has_at_most_65535_instructions(rt: HostRuntime) -> Result<(), Fail> {
    assert_eq!(rt; answer(rt.alloc(), long(rt.alloc(), 65_534))?, None);
    assert_eq!(rt;
        answer(rt.alloc(), long(rt.alloc(), 65_535))?,
        Some((65_535, Rule::Size))
    );
    Ok(())
}

#[test]
fn empty_code_has_no_main(rt: HostRuntime) -> Result<(), Fail> {
    let mut raw = code(rt.alloc(), &[], &[])?;
    raw.kinds = Items::new(rt.alloc());
    assert_eq!(rt; answer(rt.alloc(), Ok(raw))?, Some((0, Rule::Table)));
    Ok(())
}

#[test]
fn jumps_lead_to_instructions(rt: HostRuntime) -> Result<(), Fail> {
    assert_eq!(rt;
        of(rt.alloc(), &[Instr::Jump(1)], &[0])?,
        Some((0, Rule::Target))
    );
    assert_eq!(rt; of(rt.alloc(), &[Instr::Jump(0)], &[0])?, None);
    Ok(())
}

#[test]
fn an_entry_counts_where_it_is_named_and_else_at_0(rt: HostRuntime) -> Result<(), Fail> {
    let ends = code(rt.alloc(), &[Instr::End], &[0])?;
    let raw = with_function(ends, part(5, 0, 0));
    assert_eq!(rt; answer(rt.alloc(), raw)?, Some((0, Rule::Target)));
    let calls = code(
        rt.alloc(),
        &[Instr::Tick, Instr::Call(0), Instr::End],
        &[0, 0, 0],
    )?;
    let raw = with_function(calls, part(5, 0, 0));
    assert_eq!(rt; answer(rt.alloc(), raw)?, Some((1, Rule::Target)));
    Ok(())
}

/// A select in `main` that opens alternative 2 at site 0, whose `suchthat` begins at an address, with one entry in its table.
fn accepting(alloc: Global, such: Option<u16>, taken: TableEntry) -> Result<RawCode, AllocError> {
    let instrs = [
        Instr::SelBegin,
        Instr::OfferAccept { alt: 2, site: 0 },
        Instr::SelWait(0),
        Instr::End,
        Instr::Const(1),
        Instr::Yield,
    ];
    let raw = with_transaction(code(alloc, &instrs, &[0, 0, 0, 0, 0, 1])?, true)?;
    with_table(alloc, with_site(alloc, raw, such)?, &[taken])
}

#[test]
fn tables_and_fragments_lead_to_instructions(rt: HostRuntime) -> Result<(), Fail> {
    assert_eq!(rt;
        answer(
            rt.alloc(),
            accepting(rt.alloc(), Some(4), entry(2, Some(0), 3))
        )?,
        None
    );
    assert_eq!(rt;
        answer(
            rt.alloc(),
            accepting(rt.alloc(), Some(6), entry(2, Some(0), 3))
        )?,
        Some((1, Rule::Target))
    );
    assert_eq!(rt;
        answer(
            rt.alloc(),
            accepting(rt.alloc(), Some(4), entry(2, Some(0), 6))
        )?,
        Some((2, Rule::Target))
    );
    Ok(())
}

#[test]
fn an_accept_has_the_site_of_its_table(rt: HostRuntime) -> Result<(), Fail> {
    assert_eq!(rt;
        answer(
            rt.alloc(),
            accepting(rt.alloc(), None, entry(2, Some(1), 3))
        )?,
        Some((1, Rule::Table))
    );
    assert_eq!(rt;
        answer(rt.alloc(), accepting(rt.alloc(), None, entry(2, None, 3)))?,
        Some((1, Rule::Table))
    );
    Ok(())
}

#[test]
fn sites_and_their_transactions_are_there(rt: HostRuntime) -> Result<(), Fail> {
    let offers = [Instr::OfferAccept { alt: 0, site: 0 }, Instr::End];
    let raw = code(rt.alloc(), &offers, &[0, 0]);
    assert_eq!(rt; answer(rt.alloc(), raw)?, Some((0, Rule::Table)));
    let raw = with_site(rt.alloc(), code(rt.alloc(), &offers, &[0, 0])?, None);
    assert_eq!(rt; answer(rt.alloc(), raw)?, Some((0, Rule::Table)));
    let raw = with_transaction(code(rt.alloc(), &offers, &[0, 0])?, false)?;
    assert_eq!(rt; answer(rt.alloc(), with_site(rt.alloc(), raw, None))?, None);
    Ok(())
}

#[test]
fn kinds_tables_and_formats_are_there(rt: HostRuntime) -> Result<(), Fail> {
    assert_eq!(rt;
        of(
            rt.alloc(),
            &[Instr::Create(1), Instr::Drop(1), Instr::End],
            &[0, 1, 0]
        )?,
        Some((0, Rule::Table))
    );
    assert_eq!(rt;
        of(
            rt.alloc(),
            &[Instr::Create(0), Instr::Drop(1), Instr::End],
            &[0, 1, 0]
        )?,
        None
    );
    assert_eq!(rt;
        of(rt.alloc(), &[Instr::SelWait(0), Instr::End], &[0, 0])?,
        Some((0, Rule::Table))
    );
    assert_eq!(rt;
        of(
            rt.alloc(),
            &[Instr::Format(0), Instr::Drop(1), Instr::End],
            &[0, 1, 0]
        )?,
        Some((0, Rule::Table))
    );
    Ok(())
}

#[test]
fn a_call_that_waits_is_not_asynchronous(rt: HostRuntime) -> Result<(), Fail> {
    let ask = [Instr::Const(0), Instr::Ask(0), Instr::End];
    let raw = with_transaction(code(rt.alloc(), &ask, &[0, 1, 0])?, true);
    assert_eq!(rt; answer(rt.alloc(), raw)?, Some((1, Rule::Table)));
    let raw = with_transaction(code(rt.alloc(), &ask, &[0, 1, 0])?, false);
    assert_eq!(rt; answer(rt.alloc(), raw)?, None);
    Ok(())
}

/// A call within a time, which gives one cell, with the height at the address to which it goes when it is late.
fn within(alloc: Global, late: u16, height: u32) -> Result<RawCode, AllocError> {
    let instrs = [
        Instr::Const(5),
        Instr::Const(0),
        Instr::AskWithin { trans: 0, late },
        Instr::Drop(1),
        Instr::End,
    ];
    let mut raw = code(alloc, &instrs, &[0, 1, 2, 1, height])?;
    raw.transactions.push(Shape {
        is_async: false,
        args: 0,
        value: 1,
    })?;
    Ok(raw)
}

#[test]
fn a_call_that_is_late_leaves_nothing(rt: HostRuntime) -> Result<(), Fail> {
    assert_eq!(rt; answer(rt.alloc(), within(rt.alloc(), 4, 0))?, None);
    assert_eq!(rt;
        answer(rt.alloc(), within(rt.alloc(), 3, 0))?,
        Some((2, Rule::Height))
    );
    assert_eq!(rt;
        answer(rt.alloc(), within(rt.alloc(), 5, 0))?,
        Some((2, Rule::Target))
    );
    Ok(())
}

#[test]
fn parts_begin_and_end_with_height_0(rt: HostRuntime) -> Result<(), Fail> {
    assert_eq!(rt;
        of(rt.alloc(), &[Instr::Drop(1), Instr::End], &[1, 0])?,
        Some((0, Rule::Height))
    );
    assert_eq!(rt;
        of(rt.alloc(), &[Instr::Const(1), Instr::End], &[0, 1])?,
        Some((1, Rule::Height))
    );
    Ok(())
}

/// A select that opens alternative 2, immediate, and another begins before it waits, with a table that has a site for it.
fn begun_again(alloc: Global, between: Instr) -> Result<RawCode, AllocError> {
    let instrs = [
        Instr::SelBegin,
        Instr::OfferNow(2),
        between,
        Instr::SelWait(0),
        Instr::End,
    ];
    let raw = code(alloc, &instrs, &[0, 0, 0, 0, 0])?;
    with_table(alloc, raw, &[entry(2, Some(0), 4)])
}

#[test]
fn tables_count_up_to_the_next_select(rt: HostRuntime) -> Result<(), Fail> {
    assert_eq!(rt;
        answer(rt.alloc(), begun_again(rt.alloc(), Instr::Tick))?,
        Some((1, Rule::Table))
    );
    assert_eq!(rt;
        answer(rt.alloc(), begun_again(rt.alloc(), Instr::SelBegin))?,
        None
    );
    assert_eq!(rt;
        answer(rt.alloc(), begun_again(rt.alloc(), Instr::Jump(1)))?,
        None
    );
    Ok(())
}

#[test]
fn a_second_way_to_another_table_counts(rt: HostRuntime) -> Result<(), Fail> {
    let instrs = [
        Instr::OfferNow(2),
        Instr::Const(0),
        Instr::JumpZero(4),
        Instr::SelWait(0),
        Instr::SelWait(1),
        Instr::End,
    ];
    let raw = code(rt.alloc(), &instrs, &[0, 0, 1, 0, 0, 0])?;
    let raw = with_table(rt.alloc(), raw, &[entry(2, None, 5)])?;
    let raw = with_table(rt.alloc(), raw, &[entry(2, Some(0), 5)]);
    assert_eq!(rt; answer(rt.alloc(), raw)?, Some((0, Rule::Table)));
    let raw = code(rt.alloc(), &instrs, &[0, 0, 1, 0, 0, 0])?;
    let raw = with_table(rt.alloc(), raw, &[entry(2, None, 5)])?;
    let raw = with_table(rt.alloc(), raw, &[entry(1, None, 5)]);
    assert_eq!(rt; answer(rt.alloc(), raw)?, None);
    Ok(())
}

#[test]
fn what_is_named_is_there(rt: HostRuntime) -> Result<(), Fail> {
    assert_eq!(rt;
        of(rt.alloc(), &[Instr::Call(0), Instr::End], &[0, 0])?,
        Some((0, Rule::Table))
    );
    let send = [Instr::Const(0), Instr::Send(0), Instr::End];
    let raw = code(rt.alloc(), &send, &[0, 1, 0])?;
    assert_eq!(rt;
        answer(rt.alloc(), with_transaction(raw, false))?,
        Some((1, Rule::Table))
    );
    let raw = code(rt.alloc(), &send, &[0, 1, 0])?;
    assert_eq!(rt; answer(rt.alloc(), with_transaction(raw, true))?, None);
    Ok(())
}

#[test]
fn the_table_of_a_select_agrees_with_its_offers(rt: HostRuntime) -> Result<(), Fail> {
    let instrs = [
        Instr::SelBegin,
        Instr::OfferNow(2),
        Instr::SelWait(0),
        Instr::End,
    ];
    let raw = code(rt.alloc(), &instrs, &[0, 0, 0, 0])?;
    let raw = with_table(rt.alloc(), raw, &[entry(2, Some(0), 3)]);
    assert_eq!(rt; answer(rt.alloc(), raw)?, Some((1, Rule::Table)));
    let raw = code(rt.alloc(), &instrs, &[0, 0, 0, 0])?;
    let raw = with_table(rt.alloc(), raw, &[entry(2, None, 3), entry(2, Some(0), 3)]);
    assert_eq!(rt; answer(rt.alloc(), raw)?, None);
    let raw = code(rt.alloc(), &instrs, &[0, 0, 0, 0])?;
    let raw = with_table(rt.alloc(), raw, &[entry(1, Some(0), 3)]);
    assert_eq!(rt; answer(rt.alloc(), raw)?, None);
    Ok(())
}

#[test]
fn a_table_may_name_a_site_that_no_offer_names(rt: HostRuntime) -> Result<(), Fail> {
    let raw = code(
        rt.alloc(),
        &[Instr::SelBegin, Instr::SelWait(0), Instr::End],
        &[0, 0, 0],
    )?;
    let raw = with_table(rt.alloc(), raw, &[entry(0, Some(5), 2)]);
    assert_eq!(rt; answer(rt.alloc(), raw)?, None);
    Ok(())
}

#[test]
fn heights_agree_where_ways_join(rt: HostRuntime) -> Result<(), Fail> {
    let instrs = [
        Instr::Const(1),
        Instr::JumpZero(3),
        Instr::Const(2),
        Instr::End,
    ];
    assert_eq!(rt;
        of(rt.alloc(), &instrs, &[0, 1, 0, 0])?,
        Some((2, Rule::Height))
    );
    let instrs = [Instr::Const(1), Instr::JumpZero(3), Instr::Tick, Instr::End];
    assert_eq!(rt; of(rt.alloc(), &instrs, &[0, 1, 0, 0])?, None);
    Ok(())
}

#[test]
fn a_select_leaves_nothing(rt: HostRuntime) -> Result<(), Fail> {
    let instrs = [
        Instr::Jump(3),
        Instr::Drop(1),
        Instr::End,
        Instr::SelWait(0),
        Instr::End,
    ];
    let raw = code(rt.alloc(), &instrs, &[0, 1, 0, 0, 0])?;
    let raw = with_table(rt.alloc(), raw, &[entry(0, None, 1)]);
    assert_eq!(rt; answer(rt.alloc(), raw)?, Some((3, Rule::Height)));
    let raw = code(
        rt.alloc(),
        &[Instr::Const(1), Instr::SelWait(0), Instr::End],
        &[0, 1, 0],
    )?;
    assert_eq!(rt;
        answer(rt.alloc(), with_table(rt.alloc(), raw, &[]))?,
        Some((1, Rule::Height))
    );
    Ok(())
}

#[test]
fn a_ret_has_the_value_of_its_functions(rt: HostRuntime) -> Result<(), Fail> {
    let instrs = [Instr::End, Instr::Const(1), Instr::Ret(1)];
    let raw = code(rt.alloc(), &instrs, &[0, 0, 1])?;
    assert_eq!(rt;
        answer(rt.alloc(), with_function(raw, part(1, 0, 2)))?,
        Some((2, Rule::Height))
    );
    let raw = code(rt.alloc(), &instrs, &[0, 0, 1])?;
    assert_eq!(rt;
        answer(rt.alloc(), with_function(raw, part(1, 0, 1)))?,
        None
    );
    let raw = with_function(code(rt.alloc(), &instrs, &[0, 0, 1])?, part(1, 0, 1))?;
    assert_eq!(rt;
        answer(rt.alloc(), with_function(raw, part(1, 0, 2)))?,
        Some((2, Rule::Height))
    );
    Ok(())
}

#[test]
fn nothing_falls_through_the_last_instruction(rt: HostRuntime) -> Result<(), Fail> {
    assert_eq!(rt;
        of(rt.alloc(), &[Instr::Const(1)], &[0])?,
        Some((0, Rule::Fall))
    );
    Ok(())
}

/// What verification answers of a fragment behind an `End`.
fn fragment(alloc: Global, instrs: &[Instr], heights: &[u32]) -> Result<Option<(u32, Rule)>, Fail> {
    let raw = with_transaction(code(alloc, instrs, heights)?, true)?;
    Ok(answer(alloc, with_site(alloc, raw, Some(1)))?)
}

#[test]
fn fragments_are_pure_and_go_forwards(rt: HostRuntime) -> Result<(), Fail> {
    let ticks = [Instr::End, Instr::Tick, Instr::Const(1), Instr::Yield];
    assert_eq!(rt;
        fragment(rt.alloc(), &ticks, &[0, 0, 0, 1])?,
        Some((1, Rule::Pure))
    );
    assert_eq!(rt;
        fragment(rt.alloc(), &[Instr::End, Instr::Jump(1)], &[0, 0])?,
        Some((1, Rule::Pure))
    );
    let adds = [
        Instr::End,
        Instr::Const(1),
        Instr::Const(2),
        Instr::Add(NumberType::Int),
        Instr::Yield,
    ];
    assert_eq!(rt; fragment(rt.alloc(), &adds, &[0, 0, 1, 2, 1])?, None);
    Ok(())
}

#[test]
fn fragments_fetch_one_cell(rt: HostRuntime) -> Result<(), Fail> {
    let one = [Instr::End, Instr::Const(0), Instr::Fetch(1), Instr::Yield];
    assert_eq!(rt; fragment(rt.alloc(), &one, &[0, 0, 1, 1])?, None);
    let two = [Instr::End, Instr::Const(0), Instr::Fetch(2), Instr::Yield];
    assert_eq!(rt;
        fragment(rt.alloc(), &two, &[0, 0, 1, 2])?,
        Some((2, Rule::Pure))
    );
    Ok(())
}

/// A fragment that puts so many numbers on its stack, and ends.
fn tall(alloc: Global, cells: u32) -> Result<RawCode, Fail> {
    let mut raw = code(alloc, &[Instr::End], &[0])?;
    for height in 0..cells {
        raw.instrs.push(Instr::Const(1))?;
        raw.heights.push(height)?;
    }
    raw.instrs.push(Instr::Yield)?;
    raw.heights.push(cells)?;
    Ok(with_site(alloc, with_transaction(raw, true)?, Some(1))?)
}

#[test]
fn a_fragment_has_at_most_64_cells(rt: HostRuntime) -> Result<(), Fail> {
    assert_eq!(rt; answer(rt.alloc(), Ok(tall(rt.alloc(), 64)?))?, None);
    assert_eq!(rt;
        answer(rt.alloc(), Ok(tall(rt.alloc(), 65)?))?,
        Some((65, Rule::Pure))
    );
    Ok(())
}

#[test]
fn parts_hold_what_is_theirs(rt: HostRuntime) -> Result<(), Fail> {
    assert_eq!(rt;
        of(rt.alloc(), &[Instr::Ret(0)], &[0])?,
        Some((0, Rule::Reach))
    );
    assert_eq!(rt;
        of(rt.alloc(), &[Instr::Const(1), Instr::Yield], &[0, 1])?,
        Some((1, Rule::Reach))
    );
    let raw = code(
        rt.alloc(),
        &[Instr::End, Instr::Const(1), Instr::Yield],
        &[0, 0, 1],
    )?;
    assert_eq!(rt;
        answer(rt.alloc(), with_function(raw, part(1, 0, 0)))?,
        Some((2, Rule::Reach))
    );
    let raw = code(
        rt.alloc(),
        &[Instr::End, Instr::Reply(0), Instr::Ret(0)],
        &[0, 0, 0],
    )?;
    assert_eq!(rt;
        answer(rt.alloc(), with_function(raw, part(1, 0, 0)))?,
        Some((1, Rule::Reach))
    );
    let raw = code(
        rt.alloc(),
        &[Instr::End, Instr::Reply(0), Instr::End],
        &[0, 0, 0],
    )?;
    assert_eq!(rt; answer(rt.alloc(), with_kind(raw, part(1, 0, 0)))?, None);
    Ok(())
}

#[test]
fn the_first_instruction_and_then_the_first_rule_counts(rt: HostRuntime) -> Result<(), Fail> {
    assert_eq!(rt;
        of(rt.alloc(), &[Instr::Drop(1), Instr::Jump(7)], &[0, 0])?,
        Some((0, Rule::Height))
    );
    assert_eq!(rt;
        of(rt.alloc(), &[Instr::Call(3)], &[0])?,
        Some((0, Rule::Table))
    );
    assert_eq!(rt;
        of(rt.alloc(), &[Instr::Drop(1)], &[0])?,
        Some((0, Rule::Height))
    );
    Ok(())
}

#[test]
fn rules_are_reported_in_their_order(rt: HostRuntime) -> Result<(), Fail> {
    assert_eq!(rt;
        of(rt.alloc(), &[Instr::Jump(9)], &[])?,
        Some((0, Rule::Size))
    );
    let raw = with_function(code(rt.alloc(), &[Instr::Call(7)], &[0])?, part(5, 0, 0));
    assert_eq!(rt; answer(rt.alloc(), raw)?, Some((0, Rule::Target)));
    let tick = [Instr::End, Instr::Tick];
    assert_eq!(rt;
        fragment(rt.alloc(), &tick, &[0, 0])?,
        Some((1, Rule::Fall))
    );
    let ends = with_function(
        code(rt.alloc(), &[Instr::End, Instr::End], &[0, 0])?,
        part(1, 0, 0),
    )?;
    let raw = with_site(rt.alloc(), with_transaction(ends, true)?, Some(1));
    assert_eq!(rt; answer(rt.alloc(), raw)?, Some((1, Rule::Pure)));
    Ok(())
}
