//! Readers of statements. They take the readers of the phrases within that add to the nesting as parameters, so that each is
//! proved by itself.

ghost use Rattle.cc_expressions.specs.Nests.{Nests};
ghost use Rattle.cc_expressions.specs.Steps.{Reads};
ghost use Rattle.cc_grammar.specs.Reading.{level, symbol};
ghost use Rattle.cc_grammar.specs.Symbols as the;
ghost use Rattle.std.specs.Prelude.{◌≡◌};

use crate::declarations::Declarations;
use cc_expressions::{
    Cursor, Operands, Stop, begins_assign, begins_control, begins_jump, key, sign,
};
use cc_grammar::{Expression, Statement};
use cc_lex::{Mark, Word};
use sqlite_items::Boxed;
use std::alloc::Global;

/// What each reader of statements is given.
#[derive(Clone, Copy)]
pub struct Statements<A, S> {
    pub operands: Operands<A>,
    /// Reads a statement, which adds to the nesting.
    pub statement: S,
}

impl<
    A: Fn(Global, &mut Cursor<'_>, usize) -> Result<Expression, Stop>,
    S: Fn(Global, &mut Cursor<'_>, usize) -> Result<Statement, Stop>,
> Statements<A, S> {
    /// The readers of declarations, over the same tokens.
    pub fn declarations(&self) -> Declarations
        ensures simple { result.simple ≡ self.now.operands.simple }
    {
        Declarations {
            simple: self.operands.simple,
        }
    }

    /// Reads an expression one level deeper.
    pub fn nested_assign(&self, tokens: &mut Cursor<'_>) -> Result<Expression, Stop>
        requires assigns { Nests the.assign self.now.operands.simple.room (A.pre self.now.operands.assign) (A.post self.now.operands.assign) }
        ensures read { Reads (level self.now.operands.simple.room the.assign tokens.old) result tokens.new }
    {
        self.operands.nested_assign(tokens)
    }

    /// Reads a statement one level deeper.
    pub fn nested_statement(&self, tokens: &mut Cursor<'_>) -> Result<Statement, Stop>
        requires statements { Nests the.statement self.now.operands.simple.room (S.pre self.now.statement) (S.post self.now.statement) }
        ensures read { Reads (level self.now.operands.simple.room the.statement tokens.old) result tokens.new }
    {
        (self.statement)(
            self.operands.simple.alloc,
            tokens,
            self.operands.simple.room,
        )
    }

    /// The same in a box.
    pub fn boxed_statement(&self, tokens: &mut Cursor<'_>) -> Result<Boxed<Statement>, Stop>
        requires statements { Nests the.statement self.now.operands.simple.room (S.pre self.now.statement) (S.post self.now.statement) }
        ensures read { Reads (level self.now.operands.simple.room the.statement tokens.old) result tokens.new }
    {
        let statement = self.nested_statement(tokens)?;
        Ok(Boxed::new(self.operands.simple.alloc, statement)?)
    }

    /// Reads an expression and `;`.
    #[tactic(auto, using(crate::proofs::Expand::ended_assign_is))]
    pub fn ended_assign(&self, tokens: &mut Cursor<'_>) -> Result<Expression, Stop>
        requires assigns { Nests the.assign self.now.operands.simple.room (A.pre self.now.operands.assign) (A.post self.now.operands.assign) }
        ensures read { Reads (symbol self.now.operands.simple.room the.ended_assign tokens.old) result tokens.new }
    {
        let value = self.nested_assign(tokens)?;
        tokens.expect(sign(Mark::Semicolon))?;
        Ok(value)
    }

    /// Reads an expression, if there is one, and `;`.
    #[tactic(auto, using(crate::proofs::Expand::ended_optional_assign_is))]
    pub fn ended_optional_assign(&self, tokens: &mut Cursor<'_>) -> Result<Option<Expression>, Stop>
        requires assigns { Nests the.assign self.now.operands.simple.room (A.pre self.now.operands.assign) (A.post self.now.operands.assign) }
        ensures read { Reads (symbol self.now.operands.simple.room the.ended_optional_assign tokens.old) result tokens.new }
    {
        let value = self.operands.optional_assign(tokens)?;
        tokens.expect(sign(Mark::Semicolon))?;
        Ok(value)
    }

    #[tactic(auto, using(crate::proofs::Expand::expression_statement_is))]
    fn expression_statement(&self, tokens: &mut Cursor<'_>) -> Result<Statement, Stop>
        requires assigns { Nests the.assign self.now.operands.simple.room (A.pre self.now.operands.assign) (A.post self.now.operands.assign) }
        ensures { Reads (symbol self.now.operands.simple.room the.expression_statement tokens.old) result tokens.new }
    {
        let value = self.ended_assign(tokens)?;
        Ok(Statement::Expression(value))
    }

    #[tactic(auto, using(crate::proofs::Expand::process_statement_is))]
    fn process_statement(&self, tokens: &mut Cursor<'_>) -> Result<Statement, Stop>
        requires assigns { Nests the.assign self.now.operands.simple.room (A.pre self.now.operands.assign) (A.post self.now.operands.assign) }
        requires statements { Nests the.statement self.now.operands.simple.room (S.pre self.now.statement) (S.post self.now.statement) }
        ensures { Reads (symbol self.now.operands.simple.room the.process_statement tokens.old) result tokens.new }
    {
        if tokens.sees(key(Word::Delay)) {
            self.delay_statement(tokens)
        } else if tokens.sees(key(Word::Accept)) {
            let accept = self.boxed_accept(tokens)?;
            Ok(Statement::Accept(accept))
        } else {
            self.select_statement(tokens)
        }
    }

    /// Reads a statement.
    #[tactic(auto, using(crate::proofs::Expand::statement_is))]
    pub fn statement(&self, tokens: &mut Cursor<'_>) -> Result<Statement, Stop>
        requires assigns { Nests the.assign self.now.operands.simple.room (A.pre self.now.operands.assign) (A.post self.now.operands.assign) }
        requires statements { Nests the.statement self.now.operands.simple.room (S.pre self.now.statement) (S.post self.now.statement) }
        ensures read { Reads (symbol self.now.operands.simple.room the.statement tokens.old) result tokens.new }
    {
        if tokens.sees(sign(Mark::Semicolon)) {
            let place = tokens.expect(sign(Mark::Semicolon))?.place;
            Ok(Statement::Empty(place))
        } else if tokens.sees(sign(Mark::OpenBrace)) {
            let entries = self.block(tokens)?;
            Ok(Statement::Block(entries))
        } else if begins_assign(tokens) {
            self.expression_statement(tokens)
        } else if begins_control(tokens) {
            self.control_statement(tokens)
        } else if begins_jump(tokens) {
            self.jump_statement(tokens)
        } else {
            self.process_statement(tokens)
        }
    }
}
