//! What is kept of a token.

ghost use Rattle.cc_grammar.specs.Trees as trees;
ghost use Rattle.cc_grammar.specs.declared.tree.Length.TheVariants as some_length;
ghost use Rattle.cc_grammar.specs.declared.tree.Expression.TheVariants as expression;
ghost use Rattle.std.specs.Prelude.{◌≡◌, ◌∷◌, IfOk};

use cc_base::{Bytes, Memory};
use cc_grammar::{Expression, Format, Identifier, Length};
use cc_lex::{Name, Size, Token, What};
use sqlite_items::Items;
use std::alloc::{AllocError, Global};

/// The name that a token is, where it stands.
pub fn identifier(alloc: Global, token: &Token) -> Result<Identifier, Memory>
    ensures identifier { IfOk result (λ x. x ≡ trees.identifier token.now) }
{
    let name = match &token.what {
        What::Name(name) => name.copy(alloc)?,
        _ => Name::from_slice(alloc, &[])?,
    };
    Ok(Identifier {
        place: token.place,
        name,
    })
}

/// The string that a token is.
pub fn format(alloc: Global, token: &Token) -> Result<Format, Memory>
    ensures format { IfOk result (λ x. x ≡ trees.format token.now) }
{
    let bytes = match &token.what {
        What::String(bytes) => bytes.copy()?,
        _ => Bytes::new(alloc),
    };
    Ok(Format {
        place: token.place,
        bytes,
    })
}

/// The value of a number, and its type.
fn number_of(token: &Token) -> (i64, Size)
    ensures value { result.0 ≡ trees.number_value token.now.what }
    ensures size { result.1 ≡ trees.number_size token.now.what }
{
    match &token.what {
        What::Number { value, size } => (*value, *size),
        _ => (0, Size::Int),
    }
}

/// The byte of a character.
fn byte_of(token: &Token) -> u8
    ensures { result ≡ trees.character_byte token.now.what }
{
    match &token.what {
        What::Character(byte) => *byte,
        _ => 0,
    }
}

/// The expression of a token that is a number.
pub fn number(token: &Token) -> Expression
    ensures number { result ≡ expression.Number token.now.place (trees.number_value token.now.what) (trees.number_size token.now.what) }
{
    let (value, size) = number_of(token);
    Expression::Number {
        place: token.place,
        value,
        size,
    }
}

/// The expression of a token that is a character.
pub fn character(token: &Token) -> Expression
    ensures character { result ≡ expression.Character token.now.place (trees.character_byte token.now.what) }
{
    Expression::Character {
        place: token.place,
        value: byte_of(token),
    }
}

/// The length of an array that is written as a number.
pub fn number_length(token: &Token) -> Length
    ensures length { result ≡ some_length.Number token.now.place (trees.number_value token.now.what) (trees.number_size token.now.what) }
{
    let (value, size) = number_of(token);
    Length::Number {
        place: token.place,
        value,
        size,
    }
}

/// The length of an array that is written as a character.
pub fn character_length(token: &Token) -> Length
    ensures length { result ≡ some_length.Character token.now.place (trees.character_byte token.now.what) }
{
    Length::Character {
        place: token.place,
        value: byte_of(token),
    }
}

/// The list with an item in front of it.
pub fn before<T: Drop>(alloc: Global, first: T, others: Items<T>) -> Result<Items<T>, AllocError>
    ensures all { IfOk result (λ all. all ≡ first ∷ others) }
{
    let mut all = Items::new(alloc);
    all.push(first)?;
    all.append(others)?;
    Ok(all)
}
