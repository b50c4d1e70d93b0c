//! The phrases that add to the nesting, where so many more may be open.

ghost use Rattle.cc_expressions.specs.Steps.{Reads};
ghost use Rattle.cc_grammar.specs.Reading.{level};
ghost use Rattle.cc_grammar.specs.Symbols as the;

use crate::statements::Statements;
use cc_expressions::{Cursor, Operands, Simple, Stop, begins_statement, refused};
use cc_grammar::{Expression, Statement};
use std::alloc::Global;

/// An expression.
pub fn assign(alloc: Global, tokens: &mut Cursor<'_>, room: usize) -> Result<Expression, Stop>
    ensures read { Reads (level room the.assign tokens.old) result tokens.new }
{
    cc_expressions::assign(alloc, tokens, room)
}

/// A statement.
#[cycle(statements)]
pub fn statement(alloc: Global, tokens: &mut Cursor<'_>, room: usize) -> Result<Statement, Stop>
    ensures read { Reads (level room the.statement tokens.old) result tokens.new }
{
    if room == 0 {
        return Err(refused(begins_statement(tokens)));
    }
    let simple = Simple {
        alloc,
        room: room - 1,
    };
    let operands = Operands { simple, assign };
    Statements {
        operands,
        statement,
    }
    .statement(tokens)
}
