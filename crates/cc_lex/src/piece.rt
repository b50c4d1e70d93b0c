ghost use Rattle.std.specs.Prelude.{◌≡◌, ◌<◌, ◌≤◌, IfOk, length, take, drop};
ghost use Rattle.cc_lex.specs.Pieces.{Stands};
ghost use Rattle.cc_lex.specs.Reading as reading;

use crate::bytes::{is_digit, is_letter, is_space, word_len};
use crate::fault::LexKind;
use crate::marks::{mark_at, slash_at};
use crate::name::Name;
use crate::numbers::number_at;
use crate::quotes::{character_at, string_at};
use crate::token::What;
use crate::words::reserved_word;
use cc_base::Memory;
use std::alloc::Global;

/// What stands at a place of a text.
#[derive(Debug, Drop)]
pub enum Piece {
    /// One byte of white space.
    Space,
    Comment,
    Token(What),
    /// What is wrong, where no longer piece stands.
    Fault(LexKind),
}

/// The reserved word or name at the front of a text that begins with a letter or `_`, and its length.
#[tactic(auto, unfolding(crate::specs::Reading::word_at))]
fn word_at(alloc: Global, text: &[u8]) -> Result<(Piece, usize), Memory>
    ensures { IfOk result (λ found. found ≡ reading.word_at text.now) }
{
    let len = word_len(text);
    let (bytes, _rest) = text.split_at(len);
    match reserved_word(bytes) {
        Some(word) => Ok((Piece::Token(What::Word(word)), len)),
        None => {
            let name = Name::from_slice(alloc, bytes)?;
            Ok((Piece::Token(What::Name(name)), len))
        }
    }
}

/// The piece at the front of a text and its length, by its first byte.
#[tactic(auto, unfolding(crate::specs::Reading::piece_at))]
fn piece_at(alloc: Global, text: &[u8]) -> Result<(Piece, usize), Memory>
    ensures { IfOk result (λ found. found ≡ reading.piece_at text.now) }
{
    match text {
        [] => Ok((Piece::Fault(LexKind::NoToken), 0)),
        [b, ..] if is_space(*b) => Ok((Piece::Space, 1)),
        [b, ..] if is_letter(*b) => word_at(alloc, text),
        [b, ..] if is_digit(*b) => Ok(number_at(text)),
        [b'\'', rest @ ..] => Ok(character_at(rest)),
        [b'"', rest @ ..] => string_at(alloc, rest),
        [b'/', rest @ ..] => Ok(slash_at(rest)),
        [b, rest @ ..] => Ok(mark_at(*b, rest)),
    }
}

/// The piece that stands at the front of a text, and its length.
pub fn first_piece(alloc: Global, text: &[u8]) -> Result<(Piece, usize), Memory>
    requires { 0 < length text.now }
    ensures some { IfOk result (λ found. 0 < found.1) }
    ensures within { IfOk result (λ found. found.1 ≤ length text.now) }
    ensures stands { IfOk result (λ found. Stands found.0 (take found.1 text.now) (drop found.1 text.now)) }
{
    piece_at(alloc, text)
}
