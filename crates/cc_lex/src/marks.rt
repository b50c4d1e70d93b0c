//! Marks and comments.

ghost use Rattle.std.specs.Prelude.{◌≡◌, ◌≤◌, IfSome, length};
ghost use Rattle.cc_lex.specs.Reading as reading;

use crate::bytes::line_len;
use crate::fault::LexKind;
use crate::piece::Piece;
use crate::token::{Mark, What};

/// The mark of one byte.
fn mark_of(b: u8) -> Option<Mark>
    ensures { result ≡ reading.mark_of b }
{
    match b {
        b'(' => Some(Mark::OpenParenthesis),
        b')' => Some(Mark::CloseParenthesis),
        b'{' => Some(Mark::OpenBrace),
        b'}' => Some(Mark::CloseBrace),
        b'[' => Some(Mark::OpenBracket),
        b']' => Some(Mark::CloseBracket),
        b';' => Some(Mark::Semicolon),
        b',' => Some(Mark::Comma),
        b'.' => Some(Mark::Dot),
        b':' => Some(Mark::Colon),
        b'?' => Some(Mark::Question),
        b'=' => Some(Mark::Assign),
        b'+' => Some(Mark::Plus),
        b'-' => Some(Mark::Minus),
        b'*' => Some(Mark::Star),
        b'/' => Some(Mark::Slash),
        b'%' => Some(Mark::Percent),
        b'<' => Some(Mark::Less),
        b'>' => Some(Mark::Greater),
        b'!' => Some(Mark::Not),
        _ => None,
    }
}

/// The mark of a byte and `=` behind it.
fn mark_with_equal(b: u8) -> Option<Mark>
    ensures { result ≡ reading.mark_with_equal b }
{
    match b {
        b'<' => Some(Mark::LessEqual),
        b'>' => Some(Mark::GreaterEqual),
        b'=' => Some(Mark::Equal),
        b'!' => Some(Mark::NotEqual),
        b'+' => Some(Mark::PlusAssign),
        b'-' => Some(Mark::MinusAssign),
        b'*' => Some(Mark::StarAssign),
        b'/' => Some(Mark::SlashAssign),
        b'%' => Some(Mark::PercentAssign),
        _ => None,
    }
}

/// The mark of a byte that stands twice.
fn mark_twice(b: u8) -> Option<Mark>
    ensures { result ≡ reading.mark_twice b }
{
    match b {
        b'&' => Some(Mark::And),
        b'|' => Some(Mark::Or),
        b'+' => Some(Mark::Increment),
        b'-' => Some(Mark::Decrement),
        _ => None,
    }
}

/// The mark of two bytes.
#[tactic(auto, unfolding(crate::specs::Reading::mark_of_two))]
fn mark_of_two(a: u8, b: u8) -> Option<Mark>
    ensures { result ≡ reading.mark_of_two a b }
{
    if b == b'=' {
        mark_with_equal(a)
    } else if a == b {
        mark_twice(a)
    } else {
        None
    }
}

#[inline]
fn short_mark(b: u8) -> (Piece, usize)
    ensures { result ≡ reading.short_mark (reading.mark_of b) }
{
    match mark_of(b) {
        Some(mark) => (Piece::Token(What::Mark(mark)), 1),
        None => (Piece::Fault(LexKind::NoToken), 1),
    }
}

/// The mark that begins with a byte, before the rest of the text, and its length.
#[inline]
#[tactic(auto, unfolding(crate::specs::Reading::mark_at))]
pub fn mark_at(b: u8, rest: &[u8]) -> (Piece, usize)
    ensures mark { result ≡ reading.mark_at b rest.now }
{
    match rest {
        [] => short_mark(b),
        [next, ..] => match mark_of_two(b, *next) {
            Some(mark) => (Piece::Token(What::Mark(mark)), 2),
            None => short_mark(b),
        },
    }
}

/// How many bytes there are up to the first `*/`, and with it.
fn comment_len(text: &[u8]) -> Option<usize>
    ensures value { result ≡ reading.comment_len text.now }
    ensures within { IfSome result (λ n. n ≤ length text.now) }
{
    let mut n = 0;
    while n + 1 < text.len() {
        if text[n] == b'*' && text[n + 1] == b'/' {
            return Some(n + 2);
        }
        n += 1;
    }
    None
}

/// The comment or the mark of a `/`, before the rest of the text, and its length.
#[inline]
#[tactic(auto, unfolding(crate::specs::Reading::slash_at))]
pub fn slash_at(rest: &[u8]) -> (Piece, usize)
    ensures piece { result ≡ reading.slash_at rest.now }
{
    match rest {
        [b'/', line @ ..] => (Piece::Comment, line_len(line) + 2),
        [b'*', inside @ ..] => match comment_len(inside) {
            Some(n) => (Piece::Comment, n + 2),
            None => (Piece::Fault(LexKind::OpenComment), 2),
        },
        _ => mark_at(b'/', rest),
    }
}
