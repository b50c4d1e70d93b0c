//! Readers of statements of one word, with a value behind it or none.

ghost use Rattle.cc_expressions.specs.Nests.{Nests};
ghost use Rattle.cc_expressions.specs.Steps.{Reads};
ghost use Rattle.cc_grammar.specs.Reading.{symbol};
ghost use Rattle.cc_grammar.specs.Symbols as the;

use crate::statements::Statements;
use cc_expressions::{Cursor, Stop, key, sign};
use cc_grammar::{Expression, Statement};
use cc_lex::{Mark, Word};
use std::alloc::Global;

impl<
    A: Fn(Global, &mut Cursor<'_>, usize) -> Result<Expression, Stop>,
    S: Fn(Global, &mut Cursor<'_>, usize) -> Result<Statement, Stop>,
> Statements<A, S> {
    #[tactic(auto, using(crate::proofs::Expand::break_statement_is))]
    fn break_statement(&self, tokens: &mut Cursor<'_>) -> Result<Statement, Stop>
        ensures { Reads (symbol self.now.operands.simple.room the.break_statement tokens.old) result tokens.new }
    {
        let place = tokens.expect(key(Word::Break))?.place;
        tokens.expect(sign(Mark::Semicolon))?;
        Ok(Statement::Break(place))
    }

    #[tactic(auto, using(crate::proofs::Expand::continue_statement_is))]
    fn continue_statement(&self, tokens: &mut Cursor<'_>) -> Result<Statement, Stop>
        ensures { Reads (symbol self.now.operands.simple.room the.continue_statement tokens.old) result tokens.new }
    {
        let place = tokens.expect(key(Word::Continue))?.place;
        tokens.expect(sign(Mark::Semicolon))?;
        Ok(Statement::Continue(place))
    }

    #[tactic(auto, using(crate::proofs::Expand::return_statement_is))]
    fn return_statement(&self, tokens: &mut Cursor<'_>) -> Result<Statement, Stop>
        requires assigns { Nests the.assign self.now.operands.simple.room (A.pre self.now.operands.assign) (A.post self.now.operands.assign) }
        ensures { Reads (symbol self.now.operands.simple.room the.return_statement tokens.old) result tokens.new }
    {
        let place = tokens.expect(key(Word::Return))?.place;
        let value = self.ended_optional_assign(tokens)?;
        Ok(Statement::Return(place, value))
    }

    #[tactic(auto, using(crate::proofs::Expand::treturn_statement_is))]
    fn treturn_statement(&self, tokens: &mut Cursor<'_>) -> Result<Statement, Stop>
        requires assigns { Nests the.assign self.now.operands.simple.room (A.pre self.now.operands.assign) (A.post self.now.operands.assign) }
        ensures { Reads (symbol self.now.operands.simple.room the.treturn_statement tokens.old) result tokens.new }
    {
        let place = tokens.expect(key(Word::Treturn))?.place;
        let value = self.ended_optional_assign(tokens)?;
        Ok(Statement::Treturn(place, value))
    }

    /// Reads `break`, `continue`, `return` or `treturn`.
    #[tactic(auto, using(crate::proofs::Expand::jump_statement_is))]
    pub fn jump_statement(&self, tokens: &mut Cursor<'_>) -> Result<Statement, Stop>
        requires assigns { Nests the.assign self.now.operands.simple.room (A.pre self.now.operands.assign) (A.post self.now.operands.assign) }
        ensures read { Reads (symbol self.now.operands.simple.room the.jump_statement tokens.old) result tokens.new }
    {
        if tokens.sees(key(Word::Break)) {
            self.break_statement(tokens)
        } else if tokens.sees(key(Word::Continue)) {
            self.continue_statement(tokens)
        } else if tokens.sees(key(Word::Return)) {
            self.return_statement(tokens)
        } else {
            self.treturn_statement(tokens)
        }
    }

    /// Reads a `delay`.
    #[tactic(auto, using(crate::proofs::Expand::delay_statement_is))]
    pub fn delay_statement(&self, tokens: &mut Cursor<'_>) -> Result<Statement, Stop>
        requires assigns { Nests the.assign self.now.operands.simple.room (A.pre self.now.operands.assign) (A.post self.now.operands.assign) }
        ensures read { Reads (symbol self.now.operands.simple.room the.delay_statement tokens.old) result tokens.new }
    {
        let place = tokens.expect(key(Word::Delay))?.place;
        let wait = self.ended_assign(tokens)?;
        Ok(Statement::Delay(place, wait))
    }
}
