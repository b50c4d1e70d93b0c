//! How an instruction that asked goes on, with the grant that answers it.

ghost use Rattle.std.specs.Prelude.{◌≡◌, ◌+◌, ◌-◌, ◌<◌, ◌≤◌, ◌∷◌, [], pos, length, slice_get, Some, IfOk};
ghost use Rattle.cc_base.specs.Granted.{byte_got, process_made};
ghost use Rattle.cc_code.specs.Operands.{gives, takes};
ghost use Rattle.cc_vm.specs.Granting.{Answered, AnsweredInTime, Gives, Granted, HasRoomToAnswer, IsFull};
ghost use Rattle.cc_base.specs.Formats.{conversions, formatted};
ghost use Rattle.cc_vm.specs.Machine.{between};
ghost use Rattle.cc_code.specs.Works.{with_cells};

use crate::arms::cell_at;
use crate::asks::{format_at, kind_at, operands, shape_at};
use crate::lists::Lists;
use crate::prints::{numbers_of, print_format};
use cc_base::arithmetic::{byte_of, number_of};
use cc_base::limits::TICKS_GRANTED;
use cc_base::{Cells, FaultKind, Grant, Memory};
use cc_code::{Instr, RawCode};
use std::alloc::Global;

/// The number of the process that was made.
fn process_made(grant: &Grant) -> i64
    ensures { result ≡ process_made grant.now }
{
    match grant {
        Grant::Made(process) => number_of(*process),
        _ => 0,
    }
}

/// The byte that was got, or -1 at the end of the input.
fn byte_got(grant: &Grant) -> i64
    ensures { result ≡ byte_got grant.now }
{
    match grant {
        Grant::Byte(Some(byte)) => i64::from(*byte),
        _ => -1,
    }
}

/// Goes on at an address without so many operands.
fn give_none(lists: &mut Lists, taken: usize, at: usize)
    requires operands { taken ≤ lists.old.registers.top }
    requires top { lists.old.registers.top ≤ length lists.old.stack.items }
    ensures { Gives [] taken at lists.old lists.new }
{
    lists.registers.at = at;
    lists.registers.top -= taken;
    lists.registers.ticks = TICKS_GRANTED;
    lists.registers.count = 0;
}

/// Writes a cell into a stack.
fn write_cell(stack: &mut [i64], place: usize, cell: i64)
    requires { place < length stack.old }
    ensures { stack.new ≡ with_cells place (cell ∷ []) stack.old }
{
    stack[place] = cell;
}

/// The same with a cell in their place.
fn give_one(lists: &mut Lists, taken: usize, at: usize, cell: i64)
    requires operands { taken ≤ lists.old.registers.top }
    requires room { lists.old.registers.top - taken + 1 ≤ length lists.old.stack.items }
    ensures { Gives (cell ∷ []) taken at lists.old lists.new }
{
    let place = lists.registers.top - taken;
    write_cell(lists.stack.as_mut_slice(), place, cell);
    lists.registers.at = at;
    lists.registers.top = place + 1;
    lists.registers.ticks = TICKS_GRANTED;
    lists.registers.count = 0;
}

/// The cell at a place of a list.
fn cell_of(cells: &Cells, at: usize) -> i64
    requires { at < length cells.now }
    ensures { slice_get cells.now at ≡ Some result }
{
    match cells.get(at) {
        Some(cell) => cell,
        None => 0,
    }
}

/// Writes cells into a stack from a place on.
pub(crate) fn write_cells(stack: &mut [i64], place: usize, cells: &Cells)
    requires { place + length cells.now ≤ length stack.old }
    ensures { stack.new ≡ with_cells place cells.now stack.old }
{
    for at in 0..cells.len() {
        stack[place + at] = cell_of(cells, at);
    }
}

/// The same with these cells in their place.
fn give_cells(lists: &mut Lists, taken: usize, at: usize, cells: &Cells)
    requires operands { taken ≤ lists.old.registers.top }
    requires room { lists.old.registers.top - taken + length cells.now ≤ length lists.old.stack.items }
    ensures { Gives cells.now taken at lists.old lists.new }
{
    let place = lists.registers.top - taken;
    write_cells(lists.stack.as_mut_slice(), place, cells);
    lists.registers.at = at;
    lists.registers.top = place + cells.len();
    lists.registers.ticks = TICKS_GRANTED;
    lists.registers.count = 0;
}

/// How many bytes the format prints with the numbers on the top.
fn printed_length(alloc: Global, stack: &[i64], top: usize, format: &[u8]) -> Result<i64, Memory>
    requires operands { conversions format.now ≤ top }
    requires top { top ≤ length stack.now }
    ensures { IfOk result (λ n. n ≡ pos (length (formatted format.now (between (top - conversions format.now) top stack.now)))) }
{
    let numbers = operands(alloc, stack, top - numbers_of(format), top)?;
    let bytes = print_format(alloc, format, &numbers)?;
    Ok(bytes.as_slice().len() as i64)
}

/// A call goes on with the value that answers it, or is at fault.
fn resume_call(lists: &mut Lists, taken: usize, grant: &Grant) -> Option<FaultKind>
    requires operands { taken ≤ lists.old.registers.top }
    requires low { lists.old.registers.at < 65535 }
    requires top { lists.old.registers.top ≤ length lists.old.stack.items }
    requires room { HasRoomToAnswer lists.old taken grant.now }
    ensures { Answered taken (lists.old.registers.at + 1) grant.now lists.old lists.new result }
{
    match grant {
        Grant::Value(cells) => {
            let at = lists.registers.at + 1;
            give_cells(lists, taken, at, cells);
            None
        }
        _ => Some(FaultKind::CalleeGone),
    }
}

/// A timed call goes on with the value, at another address where it was withdrawn, or is at fault.
fn resume_timed(lists: &mut Lists, taken: usize, late: u16, grant: &Grant) -> Option<FaultKind>
    requires operands { taken ≤ lists.old.registers.top }
    requires low { lists.old.registers.at < 65535 }
    requires top { lists.old.registers.top ≤ length lists.old.stack.items }
    requires room { HasRoomToAnswer lists.old taken grant.now }
    ensures { AnsweredInTime taken (lists.old.registers.at + 1) late grant.now lists.old lists.new result }
{
    match grant {
        Grant::Value(cells) => {
            let at = lists.registers.at + 1;
            give_cells(lists, taken, at, cells);
            None
        }
        Grant::Late => {
            give_none(lists, taken, late as usize);
            None
        }
        _ => Some(FaultKind::CalleeGone),
    }
}

/// Goes on after the grant that answers the request of the next instruction; or the fault that comes of it.
pub(crate) fn resume(
    alloc: Global,
    raw: &RawCode,
    lists: &mut Lists,
    instr: Instr,
    grant: &Grant,
) -> Result<Option<FaultKind>, Memory>
    requires operands { takes raw.now instr ≤ lists.old.registers.top }
    requires low { lists.old.registers.at < 65535 }
    requires top { lists.old.registers.top ≤ length lists.old.stack.items }
    requires room { lists.old.registers.top - takes raw.now instr + gives raw.now instr ≤ length lists.old.stack.items }
    requires full { IsFull raw.now instr grant.now }
    ensures { IfOk result (Granted raw.now instr grant.now lists.old lists.new) }
{
    let next = lists.registers.at + 1;
    match instr {
        Instr::Create(kind) => {
            let args = kind_at(raw, kind).args as usize;
            give_one(lists, args, next, process_made(grant));
        }
        Instr::Ask(trans) => {
            let args = shape_at(raw, trans).args as usize;
            return Ok(resume_call(lists, 1 + args, grant));
        }
        Instr::AskWithin { trans, late } => {
            let args = shape_at(raw, trans).args as usize;
            return Ok(resume_timed(lists, 2 + args, late, grant));
        }
        Instr::Send(trans) => {
            let args = shape_at(raw, trans).args as usize;
            give_none(lists, 1 + args, next);
        }
        Instr::Wait => give_none(lists, 1, next),
        Instr::Reply(cells) => give_none(lists, cells as usize, next),
        Instr::PutByte => {
            let byte = byte_of(cell_at(lists.stack.as_slice(), lists.registers.top - 1));
            give_one(lists, 1, next, i64::from(byte));
        }
        Instr::GetByte => give_one(lists, 0, next, byte_got(grant)),
        Instr::Format(format) => {
            let format = format_at(raw, format);
            let top = lists.registers.top;
            let length = printed_length(alloc, lists.stack.as_slice(), top, format)?;
            give_one(lists, numbers_of(format), next, length);
        }
        _ => {}
    }
    Ok(None)
}
