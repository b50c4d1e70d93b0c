ghost use Rattle.std.specs.Prelude.{◌≡◌};
ghost use Rattle.cc_lex.specs.declared.fault.LexError.TheVariants.{Memory};

use cc_base::{Memory, Place};
use thiserror::Error;

/// What is wrong at a place of a text.
#[derive(Clone, Copy, Debug, Drop, PartialEq, Eq)]
pub enum LexKind {
    /// The text is longer than 1,048,576 bytes.
    TextTooLong,
    /// A byte that begins no token, comment or white space.
    NoToken,
    /// Letters, digits and `_` from a digit on that spell no number.
    BadNumber,
    /// A number above 9,223,372,036,854,775,807.
    NumberTooLarge,
    /// A `'` that begins no character.
    BadCharacter,
    /// A `"` that begins no string.
    BadString,
    /// A `/*` without its `*/`.
    OpenComment,
}

/// Why a text was not cut into tokens.
#[derive(Debug, Drop, Error)]
pub enum LexError {
    /// The first fault of the text, and where it is.
    #[error("{kind:?}")]
    Fault { place: Place, kind: LexKind },
    /// Memory was wanting.
    #[error("out of memory")]
    Memory,
}

impl From<Memory> for LexError {
    ghost from_gives = { λ _ e. e ≡ Memory };

    fn from(_error: Memory) -> LexError {
        LexError::Memory
    }
}
