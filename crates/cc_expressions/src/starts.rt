//! Which phrase the next token begins.

ghost use Rattle.cc_grammar.specs.Begins.{assign_operators, assign_starts, entry_starts, item_starts, operand_starts, prefix_starts, primary_starts, statement_starts, type_starts};
ghost use Rattle.cc_grammar.specs.Kinds.{word_kind};
ghost use Rattle.cc_grammar.specs.Reading.{at};
ghost use Rattle.cc_lex.specs.declared.token.Word.TheVariants as word;
ghost use Rattle.std.specs.Prelude.{◌≡◌, ◌∷◌, []};

use crate::cursor::{CHARACTER, Cursor, NAME, NUMBER, key, sign};
use cc_lex::{Mark, Word};

/// Whether the next token begins a type.
pub fn begins_type(tokens: &Cursor<'_>) -> bool
    ensures begins { result ≡ at type_starts tokens.now }
{
    tokens.at(&[
        key(Word::Void),
        key(Word::Char),
        key(Word::Int),
        key(Word::Long),
    ]) || tokens.at(&[key(Word::Struct), key(Word::Enum), key(Word::Process)])
}

/// Whether the next token begins an item.
pub fn begins_item(tokens: &Cursor<'_>) -> bool
    ensures begins { result ≡ at item_starts tokens.now }
{
    tokens.sees(NAME) || begins_type(tokens)
}

/// Whether the next token is a prefix operator.
pub fn begins_prefix(tokens: &Cursor<'_>) -> bool
    ensures begins { result ≡ at prefix_starts tokens.now }
{
    tokens.at(&[
        sign(Mark::Minus),
        sign(Mark::Plus),
        sign(Mark::Not),
        sign(Mark::Increment),
        sign(Mark::Decrement),
    ])
}

/// Whether the next token begins an operand without a prefix operator.
pub fn begins_primary(tokens: &Cursor<'_>) -> bool
    ensures begins { result ≡ at primary_starts tokens.now }
{
    tokens.at(&[NUMBER, CHARACTER, NAME, key(Word::Create)])
        || tokens.at(&[
            key(Word::Putchar),
            key(Word::Getchar),
            key(Word::Printf),
            sign(Mark::OpenParenthesis),
        ])
}

/// Whether the next token begins an operand.
pub fn begins_operand(tokens: &Cursor<'_>) -> bool
    ensures begins { result ≡ at operand_starts tokens.now }
{
    begins_prefix(tokens) || begins_primary(tokens)
}

/// Whether the next token begins an expression.
pub fn begins_assign(tokens: &Cursor<'_>) -> bool
    ensures begins { result ≡ at assign_starts tokens.now }
{
    tokens.sees(key(Word::Within)) || begins_operand(tokens)
}

/// Whether the next token begins `if`, `while`, `do` or `for`.
pub fn begins_control(tokens: &Cursor<'_>) -> bool
    ensures begins { result ≡ at (word_kind word.If ∷ word_kind word.While ∷ word_kind word.Do ∷ word_kind word.For ∷ []) tokens.now }
{
    tokens.at(&[
        key(Word::If),
        key(Word::While),
        key(Word::Do),
        key(Word::For),
    ])
}

/// Whether the next token begins a jump, `delay`, `accept` or `select`.
pub fn begins_jump(tokens: &Cursor<'_>) -> bool
    ensures begins { result ≡ at (word_kind word.Break ∷ word_kind word.Continue ∷ word_kind word.Return ∷ word_kind word.Treturn ∷ []) tokens.now }
{
    tokens.at(&[
        key(Word::Break),
        key(Word::Continue),
        key(Word::Return),
        key(Word::Treturn),
    ])
}

fn begins_process_statement(tokens: &Cursor<'_>) -> bool
    ensures { result ≡ at (word_kind word.Delay ∷ word_kind word.Accept ∷ word_kind word.Select ∷ []) tokens.now }
{
    tokens.at(&[key(Word::Delay), key(Word::Accept), key(Word::Select)])
}

fn begins_jump_or_process(tokens: &Cursor<'_>) -> bool
    ensures { result ≡ at (word_kind word.Break ∷ word_kind word.Continue ∷ word_kind word.Return ∷ word_kind word.Treturn ∷ word_kind word.Delay ∷ word_kind word.Accept ∷ word_kind word.Select ∷ []) tokens.now }
{
    begins_jump(tokens) || begins_process_statement(tokens)
}

fn begins_word_statement(tokens: &Cursor<'_>) -> bool
    ensures { result ≡ at (word_kind word.If ∷ word_kind word.While ∷ word_kind word.Do ∷ word_kind word.For ∷ word_kind word.Break ∷ word_kind word.Continue ∷ word_kind word.Return ∷ word_kind word.Treturn ∷ word_kind word.Delay ∷ word_kind word.Accept ∷ word_kind word.Select ∷ []) tokens.now }
{
    begins_control(tokens) || begins_jump_or_process(tokens)
}

/// Whether the next token begins a statement.
pub fn begins_statement(tokens: &Cursor<'_>) -> bool
    ensures begins { result ≡ at statement_starts tokens.now }
{
    tokens.at(&[sign(Mark::Semicolon), sign(Mark::OpenBrace)])
        || begins_word_statement(tokens)
        || begins_assign(tokens)
}

/// Whether the next token begins an entry of a block.
pub fn begins_entry(tokens: &Cursor<'_>) -> bool
    ensures begins { result ≡ at entry_starts tokens.now }
{
    begins_type(tokens) || begins_statement(tokens)
}

/// Whether the next token is `=` or an operator with `=`.
pub fn begins_store(tokens: &Cursor<'_>) -> bool
    ensures begins { result ≡ at assign_operators tokens.now }
{
    tokens.at(&[
        sign(Mark::Assign),
        sign(Mark::PlusAssign),
        sign(Mark::MinusAssign),
        sign(Mark::StarAssign),
        sign(Mark::SlashAssign),
        sign(Mark::PercentAssign),
    ])
}
