//! A process that runs on, with room for its calls.

ghost use Rattle.std.specs.Prelude.{◌≡◌, ◌<◌, Some, length, slice_get, IfOk};
ghost use Rattle.cc_code.specs.Rules.{IsVerified};
ghost use Rattle.cc_vm.specs.Lists.{ComesTo, FallsIf, IsReady, RunsOn, size};
ghost use Rattle.cc_vm.specs.Running.{FallsTo, IsRoom};

use crate::growth::grow;
use crate::lists::Lists;
use crate::machine::run;
use crate::registers::Stop;
use cc_base::FaultKind;
use cc_code::{Instr, RawCode};
use std::alloc::AllocError;

/// The loop, on the lists as they are.
fn run_within(raw: &RawCode, room: usize, lists: &mut Lists) -> Stop
    requires verified { IsVerified raw.now }
    requires room { IsRoom raw.now room }
    requires ready { IsReady raw.now room lists.old }
    ensures runs { RunsOn raw.now room lists.old lists.new result }
    ensures falls { FallsTo raw.now lists.old.registers lists.new.registers result }
    ensures size { size lists.new ≡ size lists.old }
{
    run(
        raw.instrs.as_slice(),
        raw,
        room,
        lists.stack.as_mut_slice(),
        lists.cells.as_mut_slice(),
        lists.frames.as_mut_slice(),
        &mut lists.registers,
    )
}

/// Runs up to a fault, or to an instruction that is none of the loop's, and makes room for calls on the way.
pub(crate) fn run_on(
    raw: &RawCode,
    room: usize,
    lists: &mut Lists,
) -> Result<Option<FaultKind>, AllocError>
    requires verified { IsVerified raw.now }
    requires room { IsRoom raw.now room }
    requires ready { IsReady raw.now room lists.old }
    ensures comes { IfOk result (ComesTo raw.now room lists.old lists.new) }
    ensures falls { IfOk result (FallsIf raw.now lists.old lists.new) }
{
    'growths: loop {
        match run_within(raw, room, lists) {
            Stop::Room => grow(lists, room)?,
            Stop::Fault(kind) => return Ok(Some(kind)),
            Stop::Other => return Ok(None),
        }
    }
}

/// The instruction at an address.
pub(crate) fn instr_at(raw: &RawCode, at: usize) -> Instr
    requires { at < length raw.now.instrs }
    ensures { slice_get raw.now.instrs at ≡ Some result }
{
    raw.instrs.as_slice()[at]
}
