ghost use Rattle.std.specs.Prelude.{◌≡◌, ◌≤◌, List, length, Option, IfOk, OnErr, OnOk};
ghost use Rattle.cc_world.specs.Shelf.{Files, IsStartOf, Missed, missed_after, Written};

use crate::fault::{IoFault, ShelfCall};
use cc_base::Bytes;

/// Files by name.
pub trait Shelf {
    /// What each file holds. A shelf that does not tell it says None, and then always does.
    ghost files: { Self → Option Files };

    /// The calls that failed, the first one first: the name, and which call.
    ghost failed: { Self → List Missed };

    /// The first `most` bytes of a file, or all where it is shorter. It is a fault where there is no such file. It is
    /// `Failed` only where this call was put last in `failed`; no other answer changes `failed`.
    fn read(&mut self, name: &str, most: usize) -> Result<Bytes, IoFault>
        ensures bytes { IfOk result (IsStartOf (files self.old) name.now most) }
        ensures bound { IfOk result (λ bytes. length bytes ≤ most) }
        ensures same { files self.new ≡ files self.old }
        ensures cause { failed self.new ≡ missed_after result (failed self.old) name.now ShelfCall.Read };

    /// Sets a whole file, and leaves every other. It is `Failed` only where this call was put last in `failed`; no
    /// other answer changes `failed`. After either fault the files that are told are as before.
    fn write(&mut self, name: &str, bytes: &[u8]) -> Result<(), IoFault>
        ensures done { OnOk result (files self.new ≡ Written (files self.old) name.now bytes.now) }
        ensures same { OnErr result (files self.new ≡ files self.old) }
        ensures cause { failed self.new ≡ missed_after result (failed self.old) name.now ShelfCall.Write };
}
