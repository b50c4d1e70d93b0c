//! Numbers.

ghost use Rattle.std.specs.Prelude.{◌≡◌, ◌<◌, ◌≤◌, IfSome};
ghost use Rattle.cc_lex.specs.Bytes as spec;
ghost use Rattle.cc_lex.specs.Pieces.{greatest_number};
ghost use Rattle.cc_lex.specs.Reading as reading;

use crate::bytes::{digit_of, digits_len, word_len};
use crate::fault::LexKind;
use crate::piece::Piece;
use crate::token::{Size, What};

const GREATEST_NUMBER: u64 = 9_223_372_036_854_775_807;

const GREATEST_INT: u64 = 2_147_483_647;

/// What digits of a base are worth, where that is no more than the greatest number.
fn value_of(base: u64, digits: &[u8]) -> Option<u64>
    requires small { base ≤ 16 }
    requires positive { 0 < base }
    ensures value { result ≡ reading.bounded (spec.value_of base digits.now) }
    ensures bounded { IfSome result (λ n. n ≤ greatest_number) }
{
    let mut value: u64 = 0;
    for d in digits {
        let digit = digit_of(*d);
        if value > (GREATEST_NUMBER - digit) / base {
            return None;
        }
        value = value * base + digit;
    }
    Some(value)
}

/// The number, or that it is too large.
fn number(value: Option<u64>, long: bool) -> Piece
    requires { IfSome value (λ n. n ≤ greatest_number) }
    ensures { result ≡ reading.number value long }
{
    match value {
        None => Piece::Fault(LexKind::NumberTooLarge),
        Some(n) => {
            let size = if long || n > GREATEST_INT {
                Size::Long
            } else {
                Size::Int
            };
            Piece::Token(What::Number {
                value: n as i64,
                size,
            })
        }
    }
}

/// Digits of a base, and then the suffix or nothing.
#[tactic(auto, unfolding(crate::specs::Reading::numeral))]
fn numeral(base: u64, bytes: &[u8]) -> Piece
    requires small { base ≤ 16 }
    requires positive { 0 < base }
    ensures { result ≡ reading.numeral base bytes.now }
{
    let (digits, suffix) = bytes.split_at(digits_len(base, bytes));
    match suffix {
        [] => number(value_of(base, digits), false),
        [b'l' | b'L'] => number(value_of(base, digits), true),
        _ => Piece::Fault(LexKind::BadNumber),
    }
}

fn hexadecimal(digits: &[u8]) -> Piece
    ensures { result ≡ reading.hexadecimal digits.now }
{
    match digits {
        [d, ..] if digit_of(*d) < 16 => numeral(16, digits),
        _ => Piece::Fault(LexKind::BadNumber),
    }
}

/// What letters, digits and `_` from a digit on spell.
#[tactic(auto, unfolding(crate::specs::Reading::number_of))]
fn number_of(bytes: &[u8]) -> Piece
    ensures { result ≡ reading.number_of bytes.now }
{
    match bytes {
        [] => Piece::Fault(LexKind::BadNumber),
        [b'0', b'x' | b'X', digits @ ..] => hexadecimal(digits),
        [b'0', digits @ ..] => numeral(8, digits),
        _ => numeral(10, bytes),
    }
}

/// The number at the front of a text that begins with a digit, or its fault, and its length.
#[tactic(auto, unfolding(crate::specs::Reading::number_at))]
pub fn number_at(text: &[u8]) -> (Piece, usize)
    ensures number { result ≡ reading.number_at text.now }
{
    let len = word_len(text);
    let (bytes, _rest) = text.split_at(len);
    (number_of(bytes), len)
}
