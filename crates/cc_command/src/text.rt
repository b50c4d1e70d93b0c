ghost use Rattle.std.specs.Prelude.{◌≡◌, ℕ, List, IfOk};
ghost use Rattle.cc_grammar.specs.Sentences.{IsTree};
ghost use Rattle.cc_grammar.specs.declared.tree.Tree.{Tree};
ghost use Rattle.cc_command.specs.Texts.{HasFault, HasTokens, HasTree, HasTreeFault, IfFault, IsBuilt, MeansProgram};

use crate::form::read_form;
use crate::program::program;
use crate::text_fault::{ReadError, TextFault, TextFaultKind};
use cc_base::Place;
use cc_lex::{LexError, Tokens, lex};
use cc_parse::{ParseError, Tree, parse};
use cc_source::Early;
use std::alloc::Global;

/// The most bytes that a text has.
pub const MOST_TEXT_BYTES: usize = 1_048_576;

/// The place of a text's first byte.
const START: Place = Place { line: 1, column: 1 };

/// The tokens of a text.
fn tokens_of(alloc: Global, text: &[u8]) -> Result<Tokens, ReadError>
    ensures tokens { IfOk result (λ list. HasTokens text.now list) }
    ensures fault { IfFault result (HasFault text.now) }
{
    match lex(alloc, text) {
        Ok(tokens) => Ok(tokens),
        Err(LexError::Fault { place, kind }) => Err(ReadError::Fault(TextFault {
            place,
            kind: TextFaultKind::Tokens(kind),
        })),
        Err(LexError::Memory) => Err(ReadError::Memory),
    }
}

/// The tree of these tokens.
fn tree_of(alloc: Global, tokens: &Tokens) -> Result<Tree, ReadError>
    ensures tree { IfOk result (λ tree. IsTree tokens.now tree) }
    ensures fault { IfFault result (HasTreeFault tokens.now) }
{
    match parse(alloc, tokens) {
        Ok(tree) => Ok(tree),
        Err(ParseError::Syntax { place, .. }) => Err(ReadError::Fault(TextFault {
            place,
            kind: TextFaultKind::Syntax,
        })),
        Err(ParseError::TooDeep { place }) => Err(ReadError::Fault(TextFault {
            place,
            kind: TextFaultKind::TooDeep,
        })),
        Err(ParseError::Memory) => Err(ReadError::Memory),
    }
}

/// The program of these tokens, which are those of a tree.
fn build(alloc: Global, tokens: &Tokens, _tree: &Tree) -> Result<Early, ReadError>
    requires { IsTree tokens.now _tree.now }
    ensures program { IfOk result (λ program. IsBuilt tokens.now program) }
    ensures fault { (text : List ℕ) → HasTokens text tokens.now → IfFault result (HasFault text) }
{
    match read_form(alloc, tokens.as_slice())? {
        Some(bytes) => Ok(program(alloc, bytes.as_slice())?),
        None => Err(ReadError::Fault(TextFault {
            place: START,
            kind: TextFaultKind::Unbuilt,
        })),
    }
}

/// The program of these tokens.
fn program_of_tokens(alloc: Global, tokens: &Tokens) -> Result<Early, ReadError>
    ensures program { IfOk result (λ program. (text : List ℕ) → HasTokens text tokens.now → MeansProgram text program) }
    ensures fault { (text : List ℕ) → HasTokens text tokens.now → IfFault result (HasFault text) }
{
    let tree = tree_of(alloc, tokens)?;
    build(alloc, tokens, &tree)
}

/// The program that a text means, or the text's first fault. Any text may be given; of one with more than [`MOST_TEXT_BYTES`]
/// bytes the fault is that it is too long.
pub fn read_program(alloc: Global, text: &[u8]) -> Result<Early, ReadError>
    ensures program { IfOk result (λ program. MeansProgram text.now program) }
    ensures fault { IfFault result (HasFault text.now) }
{
    let tokens = tokens_of(alloc, text)?;
    program_of_tokens(alloc, &tokens)
}
