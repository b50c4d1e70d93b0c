//! The variable cells of a fragment, which are the arguments of a call and then the environment, and their offsets.

ghost use Rattle.std.specs.Prelude.{◌≡◌, ◌++◌, slice_get};
ghost use Rattle.cc_code.specs.Works.{further};
ghost use Rattle.cc_vm.specs.Fragments.{cell_at, element_at};

use cc_base::arithmetic::index;
use cc_base::{Cells, FaultKind};

/// The cell at a place of the arguments and the environment, if there is one.
fn cell_of(args: &Cells, env: &Cells, place: usize) -> Option<i64>
    ensures { result ≡ slice_get (args.now ++ env.now) place }
{
    if place < args.len() {
        args.get(place)
    } else {
        env.get(place - args.len())
    }
}

/// The variable cell at an offset; Index where there is none.
pub(crate) fn variable(args: &Cells, env: &Cells, offset: i64) -> Result<i64, FaultKind>
    ensures { result ≡ cell_at (args.now ++ env.now) offset }
{
    if offset < 0 {
        return Err(FaultKind::Index);
    }
    match cell_of(args, env, offset as usize) {
        Some(cell) => Ok(cell),
        None => Err(FaultKind::Index),
    }
}

/// The offset that many cells further; Index above the greatest offset.
#[tactic(auto, unfolding(cc_code::specs::Works::further))]
pub(crate) fn further(offset: i64, cells: u64) -> Result<i64, FaultKind>
    ensures { result ≡ further offset cells }
{
    match offset.checked_add_unsigned(cells) {
        Some(offset) => Ok(offset),
        None => Err(FaultKind::Index),
    }
}

/// The offset of the element of an index, in an array from an offset on; Index outside the array, and above the greatest offset.
pub(crate) fn element(
    elements: u32,
    stride: u32,
    offset: i64,
    number: i64,
) -> Result<i64, FaultKind>
    ensures { result ≡ element_at elements stride offset number }
{
    let at = index(elements, number)?;
    further(offset, u64::from(at) * u64::from(stride))
}
