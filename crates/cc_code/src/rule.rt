ghost use Rattle.std.specs.Prelude.{◌≡◌};
ghost use Rattle.cc_code.specs.declared.rule.VerifyError.TheVariants.{Memory};

use cc_base::Memory;
use std::alloc::{AllocError, AllocFailed};
use thiserror::Error;

/// A rule of verification, in their order.
#[derive(Clone, Copy, Debug, Drop, PartialEq, Eq)]
pub enum Rule {
    /// Code has at most 65,535 instructions, and a height for each.
    Size,
    /// Jumps, entries and tables lead to instructions.
    Target,
    /// What is named is there and of the right kind, and the tables of a `select` agree with its offers; kind 0 is there and
    /// takes no arguments.
    Table,
    /// Each height is enough for its instruction and is what the one before leaves. It is 0 at entries, at a `SelWait` and at an
    /// `End`; a `Ret` has just the cells that it gives, which are the value of each function that it ends.
    Height,
    /// Nothing falls through the last instruction.
    Fall,
    /// Fragments compute a value with at most 64 cells on their stack, and only go forwards.
    Pure,
    /// No part holds instructions of another kind of part.
    Reach,
}

/// Why code was refused.
#[derive(Debug, Drop, Error)]
pub enum VerifyError {
    /// A rule is broken at an instruction, none at an earlier one, and none of a lower number there.
    #[error("instruction {at} breaks {rule:?}")]
    BadCode { at: u32, rule: Rule },
    /// Out of memory.
    #[error("out of memory")]
    Memory,
}

impl From<Memory> for VerifyError {
    ghost from_gives = { λ _ e. e ≡ Memory };

    fn from(_error: Memory) -> VerifyError {
        VerifyError::Memory
    }
}

impl From<AllocError> for VerifyError {
    ghost from_gives = { λ _ e. e ≡ Memory };

    fn from(_error: AllocError) -> VerifyError {
        VerifyError::Memory
    }
}
