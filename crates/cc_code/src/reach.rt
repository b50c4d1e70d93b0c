//! What places of code are reached from given ones, in time linear in its size.
//!
//! The places are the tables and after them the instructions, so that a table that many instructions share is walked once.

ghost use Rattle.std.specs.Prelude.{◌≡◌, ◌+◌, ◌<◌, ◌≤◌, ◌↔◌, IsTrue, [], ◌∷◌, length, get_or, IfOk, OnOk};
ghost use Rattle.cc_code.specs.Reach.{Grown, IsSmall, Marking, instr_ways, labelled, left, place_of, table_place, table_ways, way_list, ways};

use crate::code::{RawCode, TableEntry};
use crate::instr::Instr;
use std::alloc::{AllocError, Global};

/// A place to begin with, and the label for all that it reaches.
#[derive(Clone, Copy, Debug, Drop)]
pub(crate) struct Start {
    pub place: usize,
    pub label: u32,
}

/// Whether to stop where a select begins or waits.
#[derive(Clone, Copy, Debug, Drop)]
pub(crate) enum Extent {
    All,
    Select,
}

/// The place of an address.
pub(crate) fn place_of(raw: &RawCode, address: usize) -> usize
    requires small { IsSmall raw.now }
    requires address { address < 4294967297 }
    ensures { result ≡ place_of raw.now address }
{
    raw.tables.len() + address
}

/// The places to which a place leads.
pub(crate) enum Ways<'c> {
    None,
    One(usize),
    Two(usize, usize),
    Table(&'c [TableEntry]),
}

/// The place of a table, if there is one of this number.
fn to_table<'c>(raw: &RawCode, table: u32) -> Ways<'c>
    ensures { way_list raw.now result ≡ table_place raw.now table }
{
    let place = table as usize;
    if place < raw.tables.len() {
        Ways::One(place)
    } else {
        Ways::None
    }
}

/// The places to which an instruction leads.
fn instr_ways<'c>(raw: &RawCode, extent: Extent, at: usize, instr: Instr) -> Ways<'c>
    requires small { IsSmall raw.now }
    requires address { at < 4294967296 }
    ensures { way_list raw.now result ≡ instr_ways raw.now extent at instr }
{
    let next = place_of(raw, at + 1);
    match instr {
        Instr::Jump(to) => Ways::One(place_of(raw, to as usize)),
        Instr::JumpZero(to) => Ways::Two(place_of(raw, to as usize), next),
        Instr::AskWithin { late, .. } => Ways::Two(place_of(raw, late as usize), next),
        Instr::Ret(_) | Instr::Yield | Instr::End => Ways::None,
        Instr::SelBegin => match extent {
            Extent::All => Ways::One(next),
            Extent::Select => Ways::None,
        },
        Instr::SelWait(table) => match extent {
            Extent::All => to_table(raw, table),
            Extent::Select => Ways::None,
        },
        _ => Ways::One(next),
    }
}

/// The places to which a place leads.
pub(crate) fn leads_to<'c>(raw: &'c RawCode, extent: Extent, place: usize) -> Ways<'c>
    requires { IsSmall raw.now }
    ensures { way_list raw.now result ≡ ways raw.now extent place }
{
    match raw.tables.get(place) {
        Some(table) => Ways::Table(table.as_slice()),
        None => {
            let at = place - raw.tables.len();
            match raw.instrs.get(at) {
                Some(instr) => instr_ways(raw, extent, at, *instr),
                None => Ways::None,
            }
        }
    }
}

/// The label of a place, if it has one.
pub(crate) fn label_at(labels: &Vec<Option<u32>>, place: usize) -> Option<u32>
    ensures { result ≡ get_or labels.now.items place None }
{
    match labels.get(place) {
        Some(label) => *label,
        None => None,
    }
}

/// Whether it is a place without a label.
fn is_new(labels: &Vec<Option<u32>>, place: usize) -> bool
    ensures { IsTrue result ↔ (place < length labels.now.items) × (get_or labels.now.items place None ≡ None) }
{
    place < labels.len() && label_at(labels, place).is_none()
}

/// Labels a place, and puts it with the work where it had no label.
fn visit(
    labels: &mut Vec<Option<u32>>,
    work: &mut Vec<Start>,
    start: Start,
) -> Result<(), AllocError>
    ensures grown { OnOk result (Grown (start ∷ []) labels.old.items work.old.items labels.new.items work.new.items) }
    ensures left { OnOk result (left labels.new.items work.new.items ≤ left labels.old.items work.old.items) }
{
    if is_new(labels, start.place) {
        labels[start.place] = Some(start.label);
        work.push(start)?;
    }
    Ok(())
}

/// Labels the places to begin with.
fn seed(
    labels: &mut Vec<Option<u32>>,
    work: &mut Vec<Start>,
    starts: &[Start],
) -> Result<(), AllocError>
    ensures { OnOk result (Grown starts.now labels.old.items work.old.items labels.new.items work.new.items) }
{
    for start in starts {
        visit(labels, work, *start)?;
    }
    Ok(())
}

/// Labels two places.
fn visit_two(
    labels: &mut Vec<Option<u32>>,
    work: &mut Vec<Start>,
    first: usize,
    second: usize,
    label: u32,
) -> Result<(), AllocError>
    ensures grown { OnOk result (Grown (labelled label (first ∷ second ∷ [])) labels.old.items work.old.items labels.new.items work.new.items) }
    ensures left { OnOk result (left labels.new.items work.new.items ≤ left labels.old.items work.old.items) }
{
    let one = Start {
        place: first,
        label,
    };
    visit(labels, work, one)?;
    let other = Start {
        place: second,
        label,
    };
    visit(labels, work, other)?;
    Ok(())
}

/// Labels the places to which a table leads.
fn visit_table(
    raw: &RawCode,
    table: &[TableEntry],
    labels: &mut Vec<Option<u32>>,
    work: &mut Vec<Start>,
    label: u32,
) -> Result<(), AllocError>
    requires { IsSmall raw.now }
    ensures grown { OnOk result (Grown (labelled label (table_ways raw.now table.now)) labels.old.items work.old.items labels.new.items work.new.items) }
    ensures left { OnOk result (left labels.new.items work.new.items ≤ left labels.old.items work.old.items) }
{
    for entry in table {
        let place = place_of(raw, entry.address as usize);
        visit(labels, work, Start { place, label })?;
    }
    Ok(())
}

/// Labels the places to which a place leads.
fn visit_ways(
    raw: &RawCode,
    ways: Ways,
    labels: &mut Vec<Option<u32>>,
    work: &mut Vec<Start>,
    label: u32,
) -> Result<(), AllocError>
    requires { IsSmall raw.now }
    ensures grown { OnOk result (Grown (labelled label (way_list raw.now ways.entry)) labels.old.items work.old.items labels.new.items work.new.items) }
    ensures left { OnOk result (left labels.new.items work.new.items ≤ left labels.old.items work.old.items) }
{
    match ways {
        Ways::None => Ok(()),
        Ways::One(place) => visit(labels, work, Start { place, label }),
        Ways::Two(first, second) => visit_two(labels, work, first, second, label),
        Ways::Table(table) => visit_table(raw, table, labels, work, label),
    }
}

/// Follows the work until none is left.
fn follow(
    raw: &RawCode,
    extent: Extent,
    starts: &[Start],
    labels: &mut Vec<Option<u32>>,
    work: &mut Vec<Start>,
) -> Result<(), AllocError>
    requires small { IsSmall raw.now }
    requires marking { Marking (ways raw.now extent) starts.now labels.old.items work.old.items }
    ensures long { OnOk result (length labels.new.items ≡ length labels.old.items) }
    ensures marking { OnOk result (Marking (ways raw.now extent) starts.now labels.new.items []) }
{
    'work: while let Some(from) = work.pop() {
        visit_ways(
            raw,
            leads_to(raw, extent, from.place),
            labels,
            work,
            from.label,
        )?;
    }
    Ok(())
}

/// For each place that the starts reach the label of one of them that reaches it.
pub(crate) fn reach(
    alloc: Global,
    raw: &RawCode,
    extent: Extent,
    starts: &[Start],
) -> Result<Vec<Option<u32>>, AllocError>
    requires { IsSmall raw.now }
    ensures long { IfOk result (λ m. length m.items ≡ length raw.now.tables + length raw.now.instrs) }
    ensures marking { IfOk result (λ m. Marking (ways raw.now extent) starts.now m.items []) }
{
    let mut labels = vec![in alloc; None; raw.tables.len() + raw.instrs.len()]?;
    let mut work = Vec::new(alloc);
    seed(&mut labels, &mut work, starts)?;
    follow(raw, extent, starts, &mut labels, &mut work)?;
    Ok(labels)
}
