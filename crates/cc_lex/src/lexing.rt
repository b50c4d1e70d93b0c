ghost use Rattle.std.specs.Prelude.{◌≡◌, ◌+◌, ◌^◌, ◌<◌, ◌≤◌, IfOk, length};
ghost use Rattle.cc_base.specs.declared.names.Place.{Place};
ghost use Rattle.cc_lex.specs.Spells as spec;
ghost use Rattle.cc_lex.specs.Spells.{FirstFault, Gives, IfFault, Lexes, Spells, longest_text};
ghost use Rattle.cc_lex.specs.TokenList.{TokenList};
ghost use Rattle.cc_lex.specs.declared.fault.LexKind.{LexKind};

use crate::fault::{LexError, LexKind};
use crate::piece::{Piece, first_piece};
use crate::token::Token;
use crate::tokens::{START, Tokens};
use cc_base::Place;
use std::alloc::Global;

const LONGEST_TEXT: usize = 1_048_576;

/// The place after these bytes.
fn after(place: Place, bytes: &[u8]) -> Place
    requires line_fits { place.line + length bytes.now < 2 ^ 32 }
    requires column_fits { place.column + length bytes.now < 2 ^ 32 }
    ensures value { result ≡ spec.after place bytes.now }
    ensures line { result.line ≤ place.line + length bytes.now }
    ensures column { result.column ≤ place.column + length bytes.now }
{
    let mut place = place;
    for b in bytes {
        if *b == b'\n' {
            place.line += 1;
            place.column = 1;
        } else {
            place.column += 1;
        }
    }
    place
}

/// The tokens of a text that is not too long, or its first fault.
fn read(alloc: Global, text: &[u8]) -> Result<Tokens, LexError>
    requires { length text.now ≤ longest_text }
    ensures { Lexes text.now result }
{
    let mut tokens = Tokens::new(alloc);
    let mut place = START;
    let mut rest = text;
    while !rest.is_empty() {
        let (piece, len) = first_piece(alloc, rest)?;
        match piece {
            Piece::Space | Piece::Comment => {}
            Piece::Token(what) => tokens.push(Token { place, what })?,
            Piece::Fault(kind) => return Err(LexError::Fault { place, kind }),
        }
        let (bytes, behind) = rest.split_at(len);
        place = after(place, bytes);
        rest = behind;
    }
    tokens.set_end(place);
    Ok(tokens)
}

/// The tokens that spell a text, or its first fault.
pub fn lex(alloc: Global, text: &[u8]) -> Result<Tokens, LexError>
    // What is answered spells the text.
    ensures found { IfOk result (λ tokens. (length text.now ≤ longest_text) × Spells text.now tokens) }
    // A fault that is answered is the first one.
    ensures fault { IfFault result (FirstFault text.now) }
    // What spells the text is answered, out of memory apart.
    ensures only { (tokens : TokenList) → length text.now ≤ longest_text → Spells text.now tokens → Gives result (Ok tokens) }
    // The first fault is answered, out of memory apart.
    ensures first { (place : Place) (kind : LexKind) → FirstFault text.now place kind → Gives result (Err (LexError.Fault place kind)) }
{
    if text.len() > LONGEST_TEXT {
        return Err(LexError::Fault {
            place: START,
            kind: LexKind::TextTooLong,
        });
    }
    read(alloc, text)
}
