//! Characters and strings.

ghost use Rattle.std.specs.Prelude.{◌≡◌, ◌≤◌, IfOk, IfSome, length};
ghost use Rattle.cc_lex.specs.Bytes as spec;
ghost use Rattle.cc_lex.specs.Reading as reading;

use crate::bytes::{is_plain_character, is_plain_in_string};
use crate::fault::LexKind;
use crate::piece::Piece;
use crate::token::What;
use cc_base::{Bytes, Memory};
use std::alloc::Global;

/// What an escape stands for, by its letter.
fn escape(letter: u8) -> Option<u8>
    ensures { result ≡ spec.escape letter }
{
    match letter {
        b'n' => Some(b'\n'),
        b't' => Some(b'\t'),
        b'r' => Some(b'\r'),
        b'0' => Some(0),
        b'\\' | b'\'' | b'"' => Some(letter),
        _ => None,
    }
}

/// The character behind an opening quote, and its length with that quote.
#[tactic(auto, unfolding(crate::specs::Reading::character_at))]
pub fn character_at(text: &[u8]) -> (Piece, usize)
    ensures character { result ≡ reading.character_at text.now }
{
    match text {
        [b'\\', letter, rest @ ..] => escaped_character(escape(*letter), rest),
        [b, b'\'', ..] if is_plain_character(*b) => (Piece::Token(What::Character(*b)), 3),
        _ => (Piece::Fault(LexKind::BadCharacter), 1),
    }
}

/// The character of an escape, before the closing quote.
fn escaped_character(escaped: Option<u8>, rest: &[u8]) -> (Piece, usize)
    ensures { result ≡ reading.escaped_character escaped rest.now }
{
    match (escaped, rest) {
        (Some(b), [b'\'', ..]) => (Piece::Token(What::Character(b)), 4),
        _ => (Piece::Fault(LexKind::BadCharacter), 1),
    }
}

/// The byte of a string that the bytes at the front stand for, and how many they are.
fn string_byte(text: &[u8]) -> Option<(u8, usize)>
    ensures value { result ≡ reading.string_byte text.now }
    ensures within { IfSome result (λ found. found.1 ≤ length text.now) }
{
    match text {
        [b'\\', letter, ..] => Some((escape(*letter)?, 2)),
        [b, ..] if is_plain_in_string(*b) => Some((*b, 1)),
        _ => None,
    }
}

/// The string behind an opening quote, and its length with that quote.
#[tactic(auto, unfolding(crate::specs::Reading::string_at))]
pub fn string_at(alloc: Global, text: &[u8]) -> Result<(Piece, usize), Memory>
    ensures string { IfOk result (λ found. found ≡ reading.string_at text.now) }
{
    let mut bytes = Bytes::new(alloc);
    let mut len = 0;
    let mut left = text;
    while let Some((b, n)) = string_byte(left) {
        bytes.push(b)?;
        len += n;
        left = left.split_at(n).1;
    }
    match left {
        [b'"', ..] => Ok((Piece::Token(What::String(bytes)), len + 2)),
        _ => Ok((Piece::Fault(LexKind::BadString), 1)),
    }
}
