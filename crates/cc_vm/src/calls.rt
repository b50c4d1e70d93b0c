//! Calls of functions and returns from them, on lists that have room.

ghost use Rattle.std.specs.Prelude.{◌≡◌, ◌+◌, ◌-◌, ◌<◌, ◌≤◌, None, get_or, length};
ghost use Rattle.cc_vm.specs.Machine.{AreWithin, Calls, Enters, back_to, no_frame};

use crate::moves::{clear_cells, put_cells};
use crate::registers::{Frame, Registers, Stop};
use cc_base::FaultKind;
use cc_base::limits::{MOST_CALLS, MOST_CELLS};
use cc_code::Part;

/// The function begins, with its arguments and zeros for its variables.
#[inline(always)]
fn enter(stack: &[i64], cells: &mut [i64], frames: &mut [Frame], r: &mut Registers, part: Part)
    requires operands { part.args ≤ r.old.top }
    requires among { part.args ≤ part.cells }
    requires cells { r.old.end + part.cells ≤ length cells.old }
    requires frames { r.old.calls < length frames.old }
    requires within { AreWithin r.old (length stack.now) (length cells.old) }
    ensures { Enters part stack.now cells.old frames.old r.old cells.new frames.new r.new }
{
    let args = part.args as usize;
    let count = part.cells as usize;
    let from = r.top - args;
    put_cells(cells, r.end, stack, from, args);
    clear_cells(cells, r.end + args, count - args);
    frames[r.calls] = Frame {
        back: r.at + 1,
        bottom: r.bottom,
        first: r.first,
    };
    r.at = part.entry as usize;
    r.bottom = from;
    r.top = from;
    r.first = r.end;
    r.end += count;
    r.calls += 1;
    r.count += 1;
}

/// A call of a function, whose operands want so much room at most.
#[inline(always)]
pub(crate) fn call(
    stack: &[i64],
    cells: &mut [i64],
    frames: &mut [Frame],
    r: &mut Registers,
    part: Part,
    room: usize,
) -> Option<Stop>
    requires operands { part.args ≤ r.old.top }
    requires end { r.old.end ≤ 65536 }
    requires within { AreWithin r.old (length stack.now) (length cells.old) }
    ensures { Calls part room stack.now cells.old frames.old r.old cells.new frames.new r.new result }
{
    if r.calls >= MOST_CALLS as usize {
        return Some(Stop::Fault(FaultKind::Depth));
    }
    if part.cells > u64::from(MOST_CELLS) - r.end as u64 {
        return Some(Stop::Fault(FaultKind::Cells));
    }
    if u64::from(part.args) > part.cells {
        return Some(Stop::Fault(FaultKind::Index));
    }
    if r.calls >= frames.len()
        || part.cells as usize > cells.len() - r.end
        || room > stack.len() - (r.top - part.args as usize)
    {
        return Some(Stop::Room);
    }
    enter(stack, cells, frames, r, part);
    None
}

/// Back behind the latest call, with the operands of the function as its value.
#[inline(always)]
pub(crate) fn go_back(frames: &[Frame], r: &mut Registers)
    requires active { 0 < r.old.calls }
    requires frames { r.old.calls ≤ length frames.now }
    requires few { r.old.count ≤ 131072 }
    ensures { r.new ≡ back_to (get_or frames.now (r.old.calls - 1) no_frame) r.old }
{
    let frame = frames[r.calls - 1];
    r.at = frame.back;
    r.bottom = frame.bottom;
    r.end = r.first;
    r.first = frame.first;
    r.calls -= 1;
    r.count += 1;
}
