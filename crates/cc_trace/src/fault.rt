ghost use Rattle.std.specs.Prelude.{◌≡◌};
ghost use Rattle.cc_trace.specs.declared.fault.TraceError.TheVariants.{Memory};

use cc_base::Memory;
use thiserror::Error;

/// Why a text was not read.
#[derive(Debug, Drop, Error)]
pub enum TraceError {
    /// The line of this number, from 1, is the first that is no event's.
    #[error("line {0} is no event")]
    BadLine(u64),
    #[error("out of memory")]
    Memory,
}

impl From<Memory> for TraceError {
    ghost from_gives = { λ _ e. e ≡ Memory };

    fn from(_error: Memory) -> TraceError {
        TraceError::Memory
    }
}
