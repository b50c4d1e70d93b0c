//! Instructions that open alternatives of a select.

ghost use Rattle.std.specs.Prelude.{◌≡◌, ◌↔◌, IsTrue, ◌+◌, ◌<◌, ◌≤◌, ◌++◌, Some, length, slice_get, IfOk, OnOk};
ghost use Rattle.cc_code.specs.Operands.{takes};
ghost use Rattle.cc_code.specs.Rules.{IsVerified};
ghost use Rattle.cc_code.specs.Works.{environment, is_above, is_within};
ghost use Rattle.cc_vm.specs.Lists.{IsReady};
ghost use Rattle.cc_vm.specs.Machine.{between};
ghost use Rattle.cc_vm.specs.Offering.{IsOffer, Opened, Opens, OpensAlt, OpensAt, PartIf, Passes};
ghost use Rattle.cc_vm.specs.Running.{IsRoom};

use crate::arms::{cell_at, locate_from};
use crate::lists::Lists;
use crate::registers::Registers;
use cc_base::limits::MOST_STEPS;
use cc_base::{Alt, Alts, Cells, FaultKind, Memory};
use cc_code::{EnvironmentPart, Instr, RawCode, Site};
use std::alloc::Global;

/// Whether no open alternative has this number or a greater one.
fn is_above(number: u32, alts: &Alts) -> bool
    ensures { result ≡ is_above number alts.now }
{
    let open = alts.len();
    if open == 0 {
        return true;
    }
    match alts.get(open - 1) {
        Some(last) => last.0 < number,
        None => true,
    }
}

/// Goes on at the next address without so many operands.
fn pass(lists: &mut Lists, taken: usize)
    requires low { lists.old.registers.at < 65535 }
    requires few { lists.old.registers.count ≤ 131072 }
    requires operands { taken ≤ lists.old.registers.top }
    ensures { Passes taken lists.old lists.new }
{
    lists.registers.at += 1;
    lists.registers.top -= taken;
    lists.registers.count += 1;
}

/// Opens an alternative, where its number is above those that are open; or the fault.
fn open_alt(
    lists: &mut Lists,
    alts: &mut Alts,
    number: u32,
    alt: Alt,
    taken: usize,
) -> Result<Option<FaultKind>, Memory>
    requires low { lists.old.registers.at < 65535 }
    requires few { lists.old.registers.count ≤ 131072 }
    requires operands { taken ≤ lists.old.registers.top }
    ensures { IfOk result (OpensAlt number alt taken lists.old alts.old lists.new alts.new) }
{
    if !is_above(number, alts) {
        return Ok(Some(FaultKind::Index));
    }
    alts.push((number, alt))?;
    pass(lists, taken);
    Ok(None)
}

/// Puts the cells between two places of a list at the end.
fn append_cells(cells: &mut Cells, list: &[i64], from: usize, to: usize) -> Result<(), Memory>
    requires order { from ≤ to }
    requires within { to ≤ length list.now }
    ensures { OnOk result (cells.new ≡ cells.old ++ between from to list.now) }
{
    for at in from..to {
        cells.push(cell_at(list, at))?;
    }
    Ok(())
}

/// Puts the cells of a part of an environment at the end, and answers whether all are variable cells.
fn append_part(
    env: &mut Cells,
    cells: &[i64],
    r: &Registers,
    part: EnvironmentPart,
) -> Result<bool, Memory>
    requires first { r.now.first ≤ r.now.end }
    requires end { r.now.end ≤ length cells.now }
    ensures { IfOk result (PartIf (is_within part.offset part.cells (between r.now.first r.now.end cells.now)) part
        (between r.now.first r.now.end cells.now) env.old env.new) }
{
    match locate_from(cells, r, part.offset, part.cells as usize) {
        Some(offset) => {
            let from = r.first + offset;
            append_cells(env, cells, from, from + part.cells as usize)?;
            Ok(true)
        }
        None => Ok(false),
    }
}

/// The cells of an environment, where all are variable cells.
fn environment(
    alloc: Global,
    parts: &[EnvironmentPart],
    cells: &[i64],
    r: &Registers,
) -> Result<Option<Cells>, Memory>
    requires first { r.now.first ≤ r.now.end }
    requires end { r.now.end ≤ length cells.now }
    ensures { IfOk result (λ o. o ≡ environment parts.now (between r.now.first r.now.end cells.now)) }
{
    let mut env = Cells::new(alloc);
    for part in parts {
        if !append_part(&mut env, cells, r, *part)? {
            return Ok(None);
        }
    }
    Ok(Some(env))
}

/// Opens an accept at a site, in its environment as it is now; or the fault.
fn open_at(
    alloc: Global,
    found: &Site,
    lists: &mut Lists,
    alts: &mut Alts,
    number: u32,
    site: u32,
) -> Result<Option<FaultKind>, Memory>
    requires low { lists.old.registers.at < 65535 }
    requires few { lists.old.registers.count ≤ 131072 }
    requires first { lists.old.registers.first ≤ lists.old.registers.end }
    requires end { lists.old.registers.end ≤ length lists.old.cells.items }
    ensures { IfOk result (OpensAt number site (Some found.now) lists.old alts.old lists.new alts.new) }
{
    let env = environment(
        alloc,
        found.env.as_slice(),
        lists.cells.as_slice(),
        &lists.registers,
    )?;
    match env {
        Some(env) => {
            let trans = found.trans;
            open_alt(lists, alts, number, Alt::Accept { trans, site, env }, 0)
        }
        None => Ok(Some(FaultKind::Index)),
    }
}

/// The same at the site of a number.
fn open_accept(
    alloc: Global,
    raw: &RawCode,
    lists: &mut Lists,
    alts: &mut Alts,
    number: u32,
    site: u32,
) -> Result<Option<FaultKind>, Memory>
    requires low { lists.old.registers.at < 65535 }
    requires few { lists.old.registers.count ≤ 131072 }
    requires first { lists.old.registers.first ≤ lists.old.registers.end }
    requires end { lists.old.registers.end ≤ length lists.old.cells.items }
    ensures { IfOk result (OpensAt number site (slice_get raw.now.sites site) lists.old alts.old lists.new alts.new) }
{
    match raw.sites.get(site as usize) {
        Some(found) => open_at(alloc, found, lists, alts, number, site),
        None => Ok(Some(FaultKind::Index)),
    }
}

/// Begins a select or opens an alternative; or the fault that comes of it.
fn open(
    alloc: Global,
    raw: &RawCode,
    lists: &mut Lists,
    alts: &mut Alts,
    instr: Instr,
) -> Result<Option<FaultKind>, Memory>
    requires operands { takes raw.now instr ≤ lists.old.registers.top }
    requires low { lists.old.registers.at < 65535 }
    requires few { lists.old.registers.count ≤ 131072 }
    requires top { lists.old.registers.top ≤ length lists.old.stack.items }
    requires first { lists.old.registers.first ≤ lists.old.registers.end }
    requires end { lists.old.registers.end ≤ length lists.old.cells.items }
    ensures { IfOk result (Opens raw.now instr lists.old alts.old lists.new alts.new) }
{
    match instr {
        Instr::SelBegin => {
            *alts = Alts::new(alloc);
            pass(lists, 0);
            Ok(None)
        }
        Instr::OfferAccept { alt, site } => open_accept(alloc, raw, lists, alts, alt, site),
        Instr::OfferAfter(number) => {
            let wait = cell_at(lists.stack.as_slice(), lists.registers.top - 1);
            open_alt(lists, alts, number, Alt::After { wait }, 1)
        }
        Instr::OfferNow(number) => open_alt(lists, alts, number, Alt::Now, 0),
        Instr::OfferEnd(number) => open_alt(lists, alts, number, Alt::Terminate, 0),
        _ => Ok(None),
    }
}

/// Whether the instruction begins a select or opens an alternative.
pub(crate) fn is_offer(instr: Instr) -> bool
    ensures { IsTrue result ↔ IsOffer instr }
{
    matches!(
        instr,
        Instr::SelBegin
            | Instr::OfferAccept { .. }
            | Instr::OfferAfter(_)
            | Instr::OfferNow(_)
            | Instr::OfferEnd(_)
    )
}

/// The same, with the bound on how many instructions may come since the last grant or tick.
pub(crate) fn open_next(
    alloc: Global,
    raw: &RawCode,
    room: usize,
    lists: &mut Lists,
    alts: &mut Alts,
    instr: Instr,
) -> Result<Option<FaultKind>, Memory>
    requires verified { IsVerified raw.now }
    requires room { IsRoom raw.now room }
    requires ready { IsReady raw.now room lists.old }
    requires there { slice_get raw.now.instrs lists.old.registers.at ≡ Some instr }
    requires offer { IsOffer instr }
    ensures { IfOk result (Opened raw.now room lists.old alts.old lists.new alts.new) }
{
    let _ = room;
    match open(alloc, raw, lists, alts, instr)? {
        Some(kind) => return Ok(Some(kind)),
        None => {}
    }
    if lists.registers.count > MOST_STEPS {
        return Ok(Some(FaultKind::Depth));
    }
    Ok(None)
}
