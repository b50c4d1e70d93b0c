ghost use Rattle.std.specs.Prelude.{◌≡◌, ℕ, ◌<◌, List, [], length, Option, IsOk, OnOk, OnErr};
ghost use Rattle.cc_world.specs.Causes.{HasCause, HasWant, StaysUnlessFailed};
ghost use Rattle.cc_world.specs.Told.{GrewBy, GrewByPart, Puts};

use crate::fault::IoFault;

/// Where bytes go to.
pub trait Sink {
    /// The bytes that it holds. A sink that does not tell them says None, and then always does.
    ghost held: { Self → Option (List ℕ) };

    /// A count that rises where a call fails, and nowhere else.
    ghost faults: { Self → ℕ };

    /// A count that never falls, and rises where a call is out of memory.
    ghost wants: { Self → ℕ };

    /// Appends the first bytes of `bytes`, at least one, and answers how many. It is `Failed` exactly where `faults`
    /// rose, and `Memory` only where `wants` rose; after either it tells that it holds what it held.
    fn put(&mut self, bytes: &[u8]) -> Result<usize, IoFault>
        requires { 0 < length bytes.now }
        ensures bytes { Puts (held self.old) (held self.new) result bytes.now }
        ensures cause { HasCause (faults self.old) (faults self.new) result }
        ensures spared { StaysUnlessFailed (faults self.old) (faults self.new) result }
        ensures want { HasWant (wants self.old) (wants self.new) result };
}

/// Appends all the bytes, piece by piece. After a fault the sink has grown by the first ones of them, and not by all;
/// it is `Failed` exactly where `faults` rose, and `Memory` only where `wants` rose. No bytes are no put, and change
/// nothing.
#[tactic(auto, using(crate::proofs::Grown::not_grown))]
pub fn write_all<K: Sink>(out: &mut K, bytes: &[u8]) -> Result<(), IoFault>
    ensures done { OnOk result (GrewBy (K.held out.old) (K.held out.new) bytes.now) }
    ensures part { OnErr result (GrewByPart (K.held out.old) (K.held out.new) bytes.now) }
    ensures cause { HasCause (K.faults out.old) (K.faults out.new) result }
    ensures spared { StaysUnlessFailed (K.faults out.old) (K.faults out.new) result }
    ensures want { HasWant (K.wants out.old) (K.wants out.new) result }
    ensures idle { bytes.now ≡ [] → out.new ≡ out.old }
    ensures idle_is_done { bytes.now ≡ [] → IsOk result }
{
    let mut done = 0;
    while done < bytes.len() {
        done += out.put(&bytes[done..])?;
    }
    Ok(())
}
