//! How a process that selected goes on with the alternative that was taken.

ghost use Rattle.std.specs.Prelude.{◌≡◌, ◌≤◌, [], length, pos, slice_get};
ghost use Rattle.cc_base.specs.Granted.{alternative_taken, args_taken};
ghost use Rattle.cc_code.specs.Works.{entry_of, table_at};
ghost use Rattle.cc_vm.specs.Going.{selecting};
ghost use Rattle.cc_vm.specs.Machine.{between, located};
ghost use Rattle.cc_vm.specs.Selecting.{Selected, StoresArgs, StoresAt, StoresInto, Turns};

use crate::arms::locate_from;
use crate::lists::Lists;
use crate::resumes::write_cells;
use cc_base::limits::TICKS_GRANTED;
use cc_base::{Alts, Cells, FaultKind, Grant, Request};
use cc_code::{RawCode, TableEntry};
use std::alloc::Global;
use std::mem;

/// The open alternatives, as a request; after it none is open. None open is a fault.
pub(crate) fn select(alloc: Global, alts: &mut Alts) -> Request
    ensures asks { result ≡ selecting alts.old }
    ensures none { alts.new ≡ [] }
{
    if alts.len() == 0 {
        return Request::Fault {
            kind: FaultKind::NoAlternative,
        };
    }
    Request::Select {
        alts: mem::replace(alts, Alts::new(alloc)),
    }
}

/// The entries of a table; none where it is not there.
fn table_at<'r>(raw: &'r RawCode, table: u32) -> &'r [TableEntry]
    ensures { result.now ≡ table_at raw.now table }
{
    match raw.tables.get(table as usize) {
        Some(entries) => entries.as_slice(),
        None => &[],
    }
}

/// The first entry of an alternative.
fn entry_of(alt: u32, table: &[TableEntry]) -> Option<TableEntry>
    ensures { result ≡ entry_of alt table.now }
{
    for entry in table {
        if entry.alt == alt {
            return Some(*entry);
        }
    }
    None
}

/// The alternative that was taken or chosen.
fn alternative_taken(grant: &Grant) -> u32
    ensures { result ≡ alternative_taken grant.now }
{
    match grant {
        Grant::Took { alt, .. } | Grant::Chose { alt } => *alt,
        _ => 0,
    }
}

/// Goes on at an address.
fn turn(lists: &mut Lists, at: usize)
    ensures { Turns lists.old.cells.items at lists.old lists.new }
{
    lists.registers.at = at;
    lists.registers.ticks = TICKS_GRANTED;
    lists.registers.count = 0;
}

/// The same with arguments stored in the variables, from an offset on; or the fault that they find no room there.
fn store_args(lists: &mut Lists, into: u64, args: &Cells, at: usize) -> Option<FaultKind>
    requires first { lists.old.registers.first ≤ lists.old.registers.end }
    requires end { lists.old.registers.end ≤ length lists.old.cells.items }
    ensures { StoresArgs (located (pos into) (length args.now) (between lists.old.registers.first lists.old.registers.end lists.old.cells.items))
        args.now at lists.old lists.new result }
{
    match locate_from(lists.cells.as_slice(), &lists.registers, into, args.len()) {
        Some(offset) => {
            let place = lists.registers.first + offset;
            write_cells(lists.cells.as_mut_slice(), place, args);
            turn(lists, at);
            None
        }
        None => Some(FaultKind::Index),
    }
}

/// The same, where the site of a number says.
fn store_into(
    raw: &RawCode,
    lists: &mut Lists,
    site: u32,
    args: &Cells,
    at: usize,
) -> Option<FaultKind>
    requires first { lists.old.registers.first ≤ lists.old.registers.end }
    requires end { lists.old.registers.end ≤ length lists.old.cells.items }
    ensures { StoresInto (slice_get raw.now.sites site) args.now at lists.old lists.new result }
{
    match raw.sites.get(site as usize) {
        Some(found) => store_args(lists, found.into, args, at),
        None => Some(FaultKind::Index),
    }
}

/// The same at the site of an accept; without one nothing is stored.
fn store_at(
    raw: &RawCode,
    lists: &mut Lists,
    site: Option<u32>,
    args: &Cells,
    at: usize,
) -> Option<FaultKind>
    requires first { lists.old.registers.first ≤ lists.old.registers.end }
    requires end { lists.old.registers.end ≤ length lists.old.cells.items }
    ensures { StoresAt raw.now site args.now at lists.old lists.new result }
{
    match site {
        Some(site) => store_into(raw, lists, site, args, at),
        None => {
            turn(lists, at);
            None
        }
    }
}

/// The same, where an entry of a table says.
fn turn_by(
    alloc: Global,
    raw: &RawCode,
    lists: &mut Lists,
    entry: TableEntry,
    grant: &Grant,
) -> Option<FaultKind>
    requires first { lists.old.registers.first ≤ lists.old.registers.end }
    requires end { lists.old.registers.end ≤ length lists.old.cells.items }
    ensures { StoresAt raw.now entry.site (args_taken grant.now) entry.address lists.old lists.new result }
{
    let at = entry.address as usize;
    match grant {
        Grant::Took { args, .. } => store_at(raw, lists, entry.site, args, at),
        _ => store_at(raw, lists, entry.site, &Cells::new(alloc), at),
    }
}

/// Goes on after a select whose table has this number, with the alternative that was taken; or the fault that comes of it.
pub(crate) fn resume_select(
    alloc: Global,
    raw: &RawCode,
    lists: &mut Lists,
    table: u32,
    grant: &Grant,
) -> Option<FaultKind>
    requires first { lists.old.registers.first ≤ lists.old.registers.end }
    requires end { lists.old.registers.end ≤ length lists.old.cells.items }
    ensures { Selected raw.now table grant.now lists.old lists.new result }
{
    match entry_of(alternative_taken(grant), table_at(raw, table)) {
        Some(entry) => turn_by(alloc, raw, lists, entry, grant),
        None => Some(FaultKind::Index),
    }
}
