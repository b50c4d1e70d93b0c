//! The tokens that are left to be read.

ghost use Rattle.std.specs.Prelude.{◌≡◌, ◌∷◌, [], length};
ghost use Rattle.cc_grammar.specs.Begins as begins;
ghost use Rattle.cc_grammar.specs.Kinds as kinds;
ghost use Rattle.cc_grammar.specs.Reading as reading;
ghost use Rattle.cc_grammar.specs.Sentences.{place_of};
ghost use Rattle.cc_expressions.specs.Steps.{Takes};

use cc_base::{Memory, Place};
use cc_lex::{Mark, Token, What, Word};
use std::alloc::{AllocError, AllocFailed};
use std::marker::Model;

/// Why a reader stopped.
#[derive(Clone, Copy, Debug, Drop, PartialEq, Eq)]
pub enum Stop {
    /// The next token does not go on with a phrase.
    Bad,
    /// The next token begins a phrase that is too deep.
    Deep,
    Memory,
}

impl From<AllocError> for Stop {
    ghost use Rattle.cc_expressions.specs.declared.cursor.Stop.TheVariants.{Memory};

    ghost from_gives = { λ _ e. e ≡ Memory };

    fn from(_: AllocError) -> Stop {
        Stop::Memory
    }
}

impl<T: Drop> From<AllocFailed<T>> for Stop {
    ghost use Rattle.cc_expressions.specs.declared.cursor.Stop.TheVariants.{Memory};

    ghost from_gives = { λ _ e. e ≡ Memory };

    fn from(_: AllocFailed<T>) -> Stop {
        Stop::Memory
    }
}

impl From<Memory> for Stop {
    ghost use Rattle.cc_expressions.specs.declared.cursor.Stop.TheVariants.{Memory};

    ghost from_gives = { λ _ e. e ≡ Memory };

    fn from(_: Memory) -> Stop {
        Stop::Memory
    }
}

/// The kind of a reserved word.
pub fn key(word: Word) -> u8
    ensures key { result ≡ kinds.word_kind word }
{
    match word {
        Word::Abort => 10,
        Word::Accept => 11,
        Word::Async => 12,
        Word::Auto => 13,
        Word::Body => 14,
        Word::Break => 15,
        Word::By => 16,
        Word::Case => 17,
        Word::Char => 18,
        Word::Const => 19,
        Word::Continue => 20,
        Word::Create => 21,
        Word::Default => 22,
        Word::Delay => 23,
        Word::Do => 24,
        Word::Double => 25,
        Word::Else => 26,
        Word::Enum => 27,
        Word::Extern => 28,
        Word::Float => 29,
        Word::For => 30,
        Word::Getchar => 31,
        Word::Goto => 32,
        Word::If => 33,
        Word::Immediate => 34,
        Word::Int => 35,
        Word::Long => 36,
        Word::Or => 37,
        Word::Printf => 38,
        Word::Process => 39,
        Word::Putchar => 40,
        Word::Register => 41,
        Word::Return => 42,
        Word::Select => 43,
        Word::Short => 44,
        Word::Signed => 45,
        Word::Sizeof => 46,
        Word::Spec => 47,
        Word::Static => 48,
        Word::Struct => 49,
        Word::Suchthat => 50,
        Word::Switch => 51,
        Word::Terminate => 52,
        Word::Trans => 53,
        Word::Treturn => 54,
        Word::Typedef => 55,
        Word::Union => 56,
        Word::Unsigned => 57,
        Word::Void => 58,
        Word::Volatile => 59,
        Word::While => 60,
        Word::Within => 61,
    }
}

/// The kind of a mark.
pub fn sign(mark: Mark) -> u8
    ensures key { result ≡ kinds.mark_kind mark }
{
    match mark {
        Mark::OpenParenthesis => 100,
        Mark::CloseParenthesis => 101,
        Mark::OpenBrace => 102,
        Mark::CloseBrace => 103,
        Mark::OpenBracket => 104,
        Mark::CloseBracket => 105,
        Mark::Semicolon => 106,
        Mark::Comma => 107,
        Mark::Dot => 108,
        Mark::Colon => 109,
        Mark::Question => 110,
        Mark::Assign => 111,
        Mark::Plus => 112,
        Mark::Minus => 113,
        Mark::Star => 114,
        Mark::Slash => 115,
        Mark::Percent => 116,
        Mark::Less => 117,
        Mark::Greater => 118,
        Mark::Not => 119,
        Mark::LessEqual => 120,
        Mark::GreaterEqual => 121,
        Mark::Equal => 122,
        Mark::NotEqual => 123,
        Mark::And => 124,
        Mark::Or => 125,
        Mark::Increment => 126,
        Mark::Decrement => 127,
        Mark::PlusAssign => 128,
        Mark::MinusAssign => 129,
        Mark::StarAssign => 130,
        Mark::SlashAssign => 131,
        Mark::PercentAssign => 132,
    }
}

/// The kind of every name.
pub const NAME: u8 = 0;

/// The kind of every number.
pub const NUMBER: u8 = 1;

/// The kind of every character.
pub const CHARACTER: u8 = 2;

/// The kind of every string.
pub const STRING: u8 = 3;

/// The kind of a token.
#[tactic(auto, unfolding(cc_grammar::specs::Kinds::kind))]
pub fn kind(token: &Token) -> u8
    ensures kind { result ≡ kinds.kind token.now }
{
    match &token.what {
        What::Name(_) => NAME,
        What::Number { .. } => NUMBER,
        What::Character(_) => CHARACTER,
        What::String(_) => STRING,
        What::Word(word) => key(*word),
        What::Mark(mark) => sign(*mark),
    }
}

/// Whether a kind is one of these.
fn has(list: &[u8], kind: u8) -> bool
    ensures { result ≡ begins.has list.now kind }
{
    match list {
        [] => false,
        [first, rest @ ..] => *first == kind || has(rest, kind),
    }
}

/// The tokens that are left.
#[derive(Drop)]
pub struct Cursor<'a> {
    rest: &'a [Token],
}

impl<'a> Model for Cursor<'a> {
    ghost use Rattle.std.specs.Prelude.{List};
    ghost use Rattle.cc_lex.specs.declared.token.Token.{Token};

    ghost Value = { List Token };

    ghost view = { λ c. c.rest.now };
}

impl<'a> Cursor<'a> {
    /// Begins at the first of these tokens.
    pub fn new(rest: &'a [Token]) -> Cursor<'a>
        ensures rest { result ≡ rest.now }
    {
        Cursor { rest }
    }

    /// How many tokens are left.
    pub fn left(&self) -> usize
        ensures left { result ≡ length self.now }
    {
        self.rest.len()
    }

    /// The place of the next token; of the text's end where no token is left.
    pub fn place(&self, end: Place) -> Place
        ensures place { result ≡ place_of self.now end }
    {
        match self.rest {
            [] => end,
            [first, ..] => first.place,
        }
    }

    /// Whether the next token is of this kind.
    pub fn sees(&self, wanted: u8) -> bool
        ensures seen { result ≡ reading.at (wanted ∷ []) self.now }
    {
        match self.rest {
            [] => false,
            [first, ..] => wanted == kind(first),
        }
    }

    /// Whether the next token is of one of these kinds.
    pub fn at(&self, list: &[u8]) -> bool
        ensures seen { result ≡ reading.at list.now self.now }
    {
        match self.rest {
            [] => false,
            [first, ..] => has(list, kind(first)),
        }
    }

    /// Takes the next token, which is to be of this kind.
    pub fn expect(&mut self, wanted: u8) -> Result<&'a Token, Stop>
        ensures taken { Takes (reading.expect wanted self.old) result self.new }
    {
        match self.rest {
            [first, rest @ ..] if wanted == kind(first) => {
                self.rest = rest;
                Ok(first)
            }
            _ => Err(Stop::Bad),
        }
    }
}
