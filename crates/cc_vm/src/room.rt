//! How much room the operands of a part want.

ghost use Rattle.std.specs.Prelude.{ℕ, ◌≤◌};
ghost use Rattle.cc_code.specs.Rules.{IsVerified, height_at};
ghost use Rattle.cc_vm.specs.Running.{IsRoom};
ghost use Rattle.std.specs.Prelude.{get_or};

use cc_code::RawCode;

/// The greatest of these heights, or 0.
fn most_height(heights: &[u32]) -> u32
    ensures { (at : ℕ) → get_or heights.now at 0 ≤ result }
{
    let mut most = 0;
    for height in heights {
        if most < *height {
            most = *height;
        }
    }
    most
}

/// As many cells as the operands of a part have at most.
pub(crate) fn room_for(raw: &RawCode) -> usize
    requires { IsVerified raw.now }
    ensures { IsRoom raw.now result }
{
    most_height(raw.heights.as_slice()) as usize
}
