//! Room for calls, made where there is none.

ghost use Rattle.std.specs.Prelude.{◌≡◌, ◌+◌, ◌*◌, ◌^◌, ◌<◌, ◌≤◌, ◌++◌, pos, length, replicate, OnOk};
ghost use Rattle.cc_vm.specs.Lists.{Grows, size};
ghost use Rattle.cc_vm.specs.Machine.{no_frame};

use crate::lists::Lists;
use crate::registers::Frame;
use std::alloc::AllocError;

const NO_FRAME: Frame = Frame {
    back: 0,
    bottom: 0,
    first: 0,
};

/// Puts so many zeros at the end of a list.
fn add_zeros(list: &mut Vec<i64>, count: usize) -> Result<(), AllocError>
    ensures { OnOk result (list.new.items ≡ list.old.items ++ replicate count (pos 0)) }
{
    match list.len().checked_add(count) {
        Some(len) => list.resize(len, 0),
        None => Err(AllocError),
    }
}

/// Puts so many frames at the end of a list.
fn add_frames(list: &mut Vec<Frame>, count: usize) -> Result<(), AllocError>
    ensures { OnOk result (list.new.items ≡ list.old.items ++ replicate count no_frame) }
{
    match list.len().checked_add(count) {
        Some(len) => list.resize(len, NO_FRAME),
        None => Err(AllocError),
    }
}

/// Makes the list longer that has no room for a call, whose operands want so much room at most.
pub(crate) fn grow(lists: &mut Lists, room: usize) -> Result<(), AllocError>
    requires { lists.old.registers.top ≤ length lists.old.stack.items }
    ensures grows { OnOk result (Grows lists.old lists.new) }
    ensures longer { OnOk result (size lists.old < size lists.new) }
    ensures most { size lists.old < 3 * 2 ^ 64 }
{
    let stack = lists.stack.len();
    let cells = lists.cells.len();
    let frames = lists.frames.len();
    if lists.registers.calls >= frames {
        add_frames(&mut lists.frames, frames.saturating_add(16))
    } else if room > stack - lists.registers.top {
        add_zeros(&mut lists.stack, stack.saturating_add(room))
    } else {
        add_zeros(&mut lists.cells, cells.saturating_add(64))
    }
}
