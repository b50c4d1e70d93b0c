//! The machine's loop.
//!
//! It runs on slices and registers of its own, allocates nothing and tests no index: what verification proves is not tested again.
//! Where a call finds no room, and at an instruction that asks, it stops before it, with all as it was.

ghost use Rattle.std.specs.Prelude.{◌≡◌, ◌+◌, ◌-◌, ◌<◌, ◌≤◌, Some, length, slice_get};
ghost use Rattle.cc_code.specs.Rules.{IsVerified};
ghost use Rattle.cc_vm.specs.Machine.{AreWithin, HasPlace};
ghost use Rattle.cc_vm.specs.Running.{FallsTo, Finds, IsRoom, Moves, Ready, RunsTo, StopsLeft};

use crate::arms::perform;
use crate::calls::{call, go_back};
use crate::registers::{Frame, Registers, Stop};
use cc_base::FaultKind;
use cc_base::limits::MOST_STEPS;
use cc_code::{Instr, Part, RawCode};

/// The instruction at an address.
#[inline(always)]
fn instr_of(code: &[Instr], at: usize) -> Instr
    requires { at < length code.now }
    ensures { slice_get code.now at ≡ Some result }
{
    code[at]
}

/// The instruction that is next.
#[inline(always)]
fn next_instr(
    code: &[Instr],
    raw: &RawCode,
    room: usize,
    stack: &[i64],
    cells: &[i64],
    frames: &[Frame],
    r: &Registers,
) -> Instr
    requires code { code.now ≡ raw.now.instrs }
    requires verified { IsVerified raw.now }
    requires room { IsRoom raw.now room }
    requires ready { Ready raw.now room stack.now cells.now frames.now r.now }
    ensures there { slice_get raw.now.instrs r.now.at ≡ Some result }
    ensures place { HasPlace result r.now.top (length stack.now) }
    ensures within { AreWithin r.now (length stack.now) (length cells.now) }
    ensures finds { Finds raw.now r.now frames.now result }
{
    let _ = raw;
    let _ = room;
    let _ = stack;
    let _ = cells;
    let _ = frames;
    instr_of(code, r.at)
}

/// The function of this number.
#[inline(always)]
fn function_at(raw: &RawCode, function: u32) -> Part
    requires { function < length raw.now.functions }
    ensures { slice_get raw.now.functions function ≡ Some result }
{
    raw.functions.as_slice()[function as usize]
}

/// One instruction, but for the bound on how many may come since the last grant or tick.
#[inline(always)]
fn step(
    code: &[Instr],
    raw: &RawCode,
    room: usize,
    stack: &mut [i64],
    cells: &mut [i64],
    frames: &mut [Frame],
    r: &mut Registers,
) -> Option<Stop>
    requires code { code.now ≡ raw.now.instrs }
    requires verified { IsVerified raw.now }
    requires room { IsRoom raw.now room }
    requires ready { Ready raw.now room stack.old cells.old frames.old r.old }
    ensures moves { Moves raw.now room stack.old cells.old frames.old r.old stack.new cells.new frames.new r.new result }
    ensures left { StopsLeft raw.now r.old result }
{
    let instr = next_instr(code, raw, room, stack, cells, frames, r);
    match instr {
        Instr::Call(function) => {
            let part = function_at(raw, function);
            call(stack, cells, frames, r, part, room)
        }
        Instr::Ret(_) => {
            go_back(frames, r);
            None
        }
        _ => perform(stack, cells, r, instr),
    }
}

/// Runs up to an instruction that is none of the loop's, to a fault, or to a call that finds no room.
pub(crate) fn run(
    code: &[Instr],
    raw: &RawCode,
    room: usize,
    stack: &mut [i64],
    cells: &mut [i64],
    frames: &mut [Frame],
    registers: &mut Registers,
) -> Stop
    requires code { code.now ≡ raw.now.instrs }
    requires verified { IsVerified raw.now }
    requires room { IsRoom raw.now room }
    requires ready { Ready raw.now room stack.old cells.old frames.old registers.old }
    ensures runs { RunsTo raw.now room stack.old cells.old frames.old registers.old stack.new cells.new frames.new registers.new result }
    ensures falls { FallsTo raw.now registers.old registers.new result }
{
    let mut r = *registers;
    'instructions: loop {
        match step(code, raw, room, stack, cells, frames, &mut r) {
            Some(stop) => {
                *registers = r;
                return stop;
            }
            None => {}
        }
        if r.count > MOST_STEPS {
            *registers = r;
            return Stop::Fault(FaultKind::Depth);
        }
    }
}
