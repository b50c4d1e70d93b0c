//! From the tokens of a text to its tree.

ghost use Rattle.cc_grammar.specs.Reading.{Bad, Deep, finished, symbol};
ghost use Rattle.cc_grammar.specs.Sentences.{Parses, limit};
ghost use Rattle.cc_grammar.specs.Symbols as the;
ghost use Rattle.std.specs.Prelude.{◌≡◌, Err};

use crate::sources::Sources;
use cc_expressions::{Cursor, Simple, Stop};
use cc_grammar::{ParseError, Tree};
use cc_lex::Tokens;
use std::alloc::Global;

/// How many phrases that add to the nesting may hold each other.
const MOST_NESTED: usize = 200;

#[tactic(auto, unfolding(cc_grammar::specs::Sentences::limit))]
fn most_nested() -> usize
    ensures { result ≡ limit }
{
    MOST_NESTED
}

/// The fault of a text that goes on with no text where so much of it is left.
#[tactic(auto, using(crate::proofs::Answered::no_more, crate::proofs::Answered::syntax_of))]
fn syntax(tokens: &Tokens, left: &Cursor<'_>) -> ParseError
    requires { finished (symbol limit the.text tokens.now.tokens) ≡ (Bad, left.now) }
    ensures { Parses tokens.now (Err result) }
{
    ParseError::Syntax {
        at: tokens.len() - left.left(),
        place: left.place(tokens.end()),
    }
}

/// The fault of a text in which a phrase that is too deep begins where so much of it is left.
#[tactic(auto, using(crate::proofs::Answered::deep_of))]
fn too_deep(tokens: &Tokens, left: &Cursor<'_>) -> ParseError
    requires { finished (symbol limit the.text tokens.now.tokens) ≡ (Deep, left.now) }
    ensures { Parses tokens.now (Err result) }
{
    ParseError::TooDeep {
        place: left.place(tokens.end()),
    }
}

/// The tree of the text that has these tokens. All of them are read, and at most 200 phrases that add to the nesting hold each other.
///
/// `Syntax`: the tokens before number `at`, from 0, begin a text, and with that one they begin none; behind the last token, they
/// begin a text and are none. `place` is that of this token, or of the text's end. `TooDeep`: the first token that too many phrases hold,
/// where no token before it is a fault of syntax. `Memory`: out of memory.
#[tactic(auto, using(crate::proofs::Answered::tree_of, crate::proofs::Answered::more_left))]
pub fn parse(alloc: Global, tokens: &Tokens) -> Result<Tree, ParseError>
    ensures answer { Parses tokens.now result }
{
    let mut cursor = Cursor::new(tokens.as_slice());
    let room = most_nested();
    let sources = Sources {
        simple: Simple { alloc, room },
    };
    match sources.text(&mut cursor) {
        Ok(tree) if cursor.left() == 0 => Ok(tree),
        Ok(_) | Err(Stop::Bad) => Err(syntax(tokens, &cursor)),
        Err(Stop::Deep) => Err(too_deep(tokens, &cursor)),
        Err(Stop::Memory) => Err(ParseError::Memory),
    }
}
