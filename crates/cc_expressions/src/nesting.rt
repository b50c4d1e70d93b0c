//! The expressions that add to the nesting, where so many more phrases that do so may be open.

ghost use Rattle.cc_grammar.specs.Reading.{level};
ghost use Rattle.cc_grammar.specs.Symbols as the;
ghost use Rattle.cc_expressions.specs.Steps.{Reads};
ghost use Rattle.cc_expressions.specs.declared.cursor.Stop.TheVariants as stop;
ghost use Rattle.std.specs.Prelude.{◌≡◌, if◌then◌else◌};

use crate::cursor::{Cursor, Stop};
use crate::expressions::Expressions;
use crate::operands::Operands;
use crate::simple::Simple;
use crate::starts::{begins_assign, begins_operand};
use cc_grammar::Expression;
use std::alloc::Global;

/// Why a phrase is not read for which no room is left.
pub fn refused(begins: bool) -> Stop
    ensures stop { result ≡ if begins then stop.Deep else stop.Bad }
{
    if begins { Stop::Deep } else { Stop::Bad }
}

/// An expression.
#[cycle(expressions)]
pub fn assign(alloc: Global, tokens: &mut Cursor<'_>, room: usize) -> Result<Expression, Stop>
    ensures read { Reads (level room the.assign tokens.old) result tokens.new }
{
    if room == 0 {
        return Err(refused(begins_assign(tokens)));
    }
    let simple = Simple {
        alloc,
        room: room - 1,
    };
    let operands = Operands { simple, assign };
    Expressions {
        operands,
        conditional,
        unary,
    }
    .assign(tokens)
}

/// What stands behind the `:` of a choice.
#[cycle(expressions)]
pub fn conditional(alloc: Global, tokens: &mut Cursor<'_>, room: usize) -> Result<Expression, Stop>
    ensures read { Reads (level room the.conditional tokens.old) result tokens.new }
{
    if room == 0 {
        return Err(refused(begins_operand(tokens)));
    }
    let simple = Simple {
        alloc,
        room: room - 1,
    };
    let operands = Operands { simple, assign };
    Expressions {
        operands,
        conditional,
        unary,
    }
    .conditional(tokens)
}

/// The operand of a prefix operator.
#[cycle(expressions)]
pub fn unary(alloc: Global, tokens: &mut Cursor<'_>, room: usize) -> Result<Expression, Stop>
    ensures read { Reads (level room the.unary tokens.old) result tokens.new }
{
    if room == 0 {
        return Err(refused(begins_operand(tokens)));
    }
    let simple = Simple {
        alloc,
        room: room - 1,
    };
    let operands = Operands { simple, assign };
    Expressions {
        operands,
        conditional,
        unary,
    }
    .unary(tokens)
}
