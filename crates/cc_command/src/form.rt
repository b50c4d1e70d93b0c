ghost use Rattle.std.specs.Prelude.{◌≡◌, ◌≤◌, ◌<◌, ◌++◌, ◌↔◌, ℕ, List, pos, codes, length, IsTrue, IfOk, IfSome, MatchOption};
ghost use Rattle.cc_lex.specs.declared.token.What.{What};
ghost use Rattle.cc_command.specs.Form.{closing, IsForm, opening, statement_of, whats};

use cc_base::{Bytes, Memory};
use cc_lex::{Mark, Name, Size, Token, What, Word};
use std::alloc::Global;

fn is_main(name: &Name) -> bool
    ensures { IsTrue result ↔ (name.now ≡ codes "main") }
{
    name.as_slice() == b"main".as_slice()
}

/// The tokens behind `main() {`, where they begin so.
fn after_opening(tokens: &[Token]) -> Option<&[Token]>
    ensures { MatchOption result ((rest : List What) → ¬ (whats tokens.now ≡ opening ++ rest)) (λ rest. whats tokens.now ≡ opening ++ whats rest.now) }
{
    match tokens {
        [
            Token {
                what: What::Name(name),
                ..
            },
            Token {
                what: What::Mark(Mark::OpenParenthesis),
                ..
            },
            Token {
                what: What::Mark(Mark::CloseParenthesis),
                ..
            },
            Token {
                what: What::Mark(Mark::OpenBrace),
                ..
            },
            rest @ ..,
        ] => { if is_main(name) { Some(rest) } else { None } }
        _ => None,
    }
}

/// The byte of this number.
fn byte_of(number: i64) -> Option<u8>
    ensures cases { MatchOption result ((byte : ℕ) → byte ≤ 255 → ¬ (number ≡ pos byte)) (λ byte. number ≡ pos byte) }
    ensures in_range { IfSome result (λ byte. byte ≤ 255) }
{
    u8::try_from(number).ok()
}

/// The number that the statement at the front puts, and the tokens after the statement.
fn put_at(tokens: &[Token]) -> Option<(i64, &[Token])>
    ensures cases { MatchOption result ((byte : ℕ) (rest : List What) → ¬ (whats tokens.now ≡ statement_of byte ++ rest)) (λ found. (byte : ℕ) → found.0 ≡ pos byte → whats tokens.now ≡ statement_of byte ++ whats found.1.now) }
    ensures only { IfSome result (λ found. (byte : ℕ) (rest : List What) → whats tokens.now ≡ statement_of byte ++ rest → found.0 ≡ pos byte) }
    ensures shorter { IfSome result (λ found. length found.1.now < length tokens.now) }
{
    match tokens {
        [
            Token {
                what: What::Word(Word::Putchar),
                ..
            },
            Token {
                what: What::Mark(Mark::OpenParenthesis),
                ..
            },
            Token {
                what: What::Number {
                    value,
                    size: Size::Int,
                },
                ..
            },
            Token {
                what: What::Mark(Mark::CloseParenthesis),
                ..
            },
            Token {
                what: What::Mark(Mark::Semicolon),
                ..
            },
            rest @ ..,
        ] => Some((*value, rest)),
        _ => None,
    }
}

/// The byte that the statement at the front puts, and the tokens after the statement.
fn statement(tokens: &[Token]) -> Option<(u8, &[Token])>
    ensures cases { MatchOption result ((byte : ℕ) (rest : List What) → byte ≤ 255 → ¬ (whats tokens.now ≡ statement_of byte ++ rest)) (λ found. whats tokens.now ≡ statement_of found.0 ++ whats found.1.now) }
    ensures in_range { IfSome result (λ found. found.0 ≤ 255) }
    ensures shorter { IfSome result (λ found. length found.1.now < length tokens.now) }
{
    let (number, rest) = put_at(tokens)?;
    Some((byte_of(number)?, rest))
}

/// Whether `}` is all that is left.
fn is_closing(tokens: &[Token]) -> bool
    ensures { IsTrue result ↔ (whats tokens.now ≡ closing) }
{
    matches!(
        tokens,
        [Token {
            what: What::Mark(Mark::CloseBrace),
            ..
        }]
    )
}

/// The bytes that the program of these tokens puts, in order; none exactly where the tokens are of another form.
pub(crate) fn read_form(alloc: Global, tokens: &[Token]) -> Result<Option<Bytes>, Memory>
    ensures { IfOk result (λ found. MatchOption found ((bytes : List ℕ) → ¬ IsForm tokens.now bytes) (λ bytes. IsForm tokens.now bytes)) }
{
    let Some(mut rest) = after_opening(tokens) else {
        return Ok(None);
    };
    let mut bytes = Bytes::new(alloc);
    while let Some((byte, after)) = statement(rest) {
        bytes.push(byte)?;
        rest = after;
    }
    if is_closing(rest) {
        Ok(Some(bytes))
    } else {
        Ok(None)
    }
}
