ghost use Rattle.std.specs.Prelude.{ℕ, ◌<◌, List, length, Option};
ghost use Rattle.cc_world.specs.Causes.{HasCause, StaysUnlessFailed};
ghost use Rattle.cc_world.specs.Told.{Takes};

use crate::fault::IoFault;

/// Where bytes come from.
pub trait Source {
    /// The bytes that are left. A source that does not tell them says None, and then always does.
    ghost left: { Self → Option (List ℕ) };

    /// A count that rises where a call fails, and nowhere else.
    ghost faults: { Self → ℕ };

    /// Takes the next bytes into the front of `buf`, and answers how many: at least one, or 0 exactly at the end. It
    /// is `Failed` exactly where `faults` rose, and after either fault all bytes that it tells are still left.
    fn take(&mut self, buf: &mut [u8]) -> Result<usize, IoFault>
        requires { 0 < length buf.old }
        ensures bytes { Takes (left self.old) (left self.new) result buf.new }
        ensures cause { HasCause (faults self.old) (faults self.new) result }
        ensures spared { StaysUnlessFailed (faults self.old) (faults self.new) result };
}
