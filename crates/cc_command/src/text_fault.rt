ghost use Rattle.std.specs.Prelude.{◌≡◌};
ghost use Rattle.cc_command.specs.TextFaults.{kind_name, lex_name};
ghost use Rattle.cc_command.specs.declared.text_fault.ReadError.TheVariants.{Memory as OutOfMemory};

use cc_base::{Memory, Place};
use cc_lex::LexKind;
use thiserror::Error;

/// What is wrong with a text.
#[derive(Clone, Copy, Debug, Drop, PartialEq, Eq)]
pub enum TextFaultKind {
    /// The text is no list of tokens.
    Tokens(LexKind),
    /// The tokens before this place begin a program, and with the one at this place they begin none. At the text's end: they
    /// begin a program and are none.
    Syntax,
    /// A phrase that is nested too deep begins here.
    TooDeep,
    /// The text is a sentence of the language of a form that isn't built yet.
    Unbuilt,
}

impl TextFaultKind {
    /// The kind as a report names it.
    pub fn name(self) -> &'static str
        ensures name { result.now ≡ kind_name self }
    {
        match self {
            TextFaultKind::Tokens(kind) => name_in_tokens(kind),
            TextFaultKind::Syntax => "Syntax",
            TextFaultKind::TooDeep => "TooDeep",
            TextFaultKind::Unbuilt => "Unbuilt",
        }
    }
}

fn name_in_tokens(kind: LexKind) -> &'static str
    ensures { result.now ≡ lex_name kind }
{
    match kind {
        LexKind::TextTooLong => "TextTooLong",
        LexKind::NoToken => "NoToken",
        LexKind::BadNumber => "BadNumber",
        LexKind::NumberTooLarge => "NumberTooLarge",
        LexKind::BadCharacter => "BadCharacter",
        LexKind::BadString => "BadString",
        LexKind::OpenComment => "OpenComment",
    }
}

/// The first fault of a text, and where it is.
#[derive(Clone, Copy, Debug, Drop, PartialEq, Eq)]
pub struct TextFault {
    pub place: Place,
    pub kind: TextFaultKind,
}

/// Why a text was not read.
#[derive(Debug, Drop, Error)]
pub enum ReadError {
    /// The text has a fault, of which this is the first.
    #[error("the text has a fault")]
    Fault(TextFault),
    /// It was out of memory.
    #[error("out of memory")]
    Memory,
}

impl From<Memory> for ReadError {
    ghost from_gives = { λ _ e. e ≡ OutOfMemory };

    fn from(_error: Memory) -> ReadError {
        ReadError::Memory
    }
}
