ghost use Rattle.std.specs.Prelude.{◌≡◌};
ghost use Rattle.cc_world.specs.declared.fault.IoFault.TheVariants.{Memory as OutOfMemory};

use cc_base::Memory;

/// Why a call of an outside object failed. What the object tells of its content is then as before.
#[derive(Clone, Copy, Debug, Drop, PartialEq, Eq)]
pub enum IoFault {
    /// The object could not do it, and has noted that: a count has risen, or stands at the end of its type, or a list of
    /// failed calls has grown.
    Failed,
    /// Memory was wanting. Nothing is noted among the failed calls.
    Memory,
}

impl From<Memory> for IoFault {
    ghost from_gives = { λ _ e. e ≡ OutOfMemory };

    fn from(_: Memory) -> IoFault {
        IoFault::Memory
    }
}

/// Which call of a shelf.
#[derive(Clone, Copy, Debug, Drop, PartialEq, Eq)]
pub enum ShelfCall {
    /// A whole file or its beginning was to be read.
    Read,
    /// A whole file was to be set.
    Write,
}
