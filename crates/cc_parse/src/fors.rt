//! Readers of `for`.

ghost use Rattle.cc_expressions.specs.Nests.{Nests};
ghost use Rattle.cc_expressions.specs.Steps.{Reads};
ghost use Rattle.cc_grammar.specs.Reading.{symbol};
ghost use Rattle.cc_grammar.specs.Symbols as the;

use crate::statements::Statements;
use cc_expressions::{Cursor, Stop, key, sign};
use cc_grammar::{Expression, ForHeader, Statement};
use cc_lex::{Mark, Word};
use sqlite_items::Boxed;
use std::alloc::Global;

impl<
    A: Fn(Global, &mut Cursor<'_>, usize) -> Result<Expression, Stop>,
    S: Fn(Global, &mut Cursor<'_>, usize) -> Result<Statement, Stop>,
> Statements<A, S> {
    #[tactic(auto, using(crate::proofs::Expand::for_step_is))]
    fn for_step(&self, tokens: &mut Cursor<'_>) -> Result<Option<Expression>, Stop>
        requires assigns { Nests the.assign self.now.operands.simple.room (A.pre self.now.operands.assign) (A.post self.now.operands.assign) }
        ensures { Reads (symbol self.now.operands.simple.room the.for_step tokens.old) result tokens.new }
    {
        let value = self.operands.optional_assign(tokens)?;
        tokens.expect(sign(Mark::CloseParenthesis))?;
        Ok(value)
    }

    #[tactic(auto, using(crate::proofs::Expand::for_rest_is))]
    fn for_rest(
        &self,
        tokens: &mut Cursor<'_>,
    ) -> Result<(Option<Expression>, Option<Expression>), Stop>
        requires assigns { Nests the.assign self.now.operands.simple.room (A.pre self.now.operands.assign) (A.post self.now.operands.assign) }
        ensures { Reads (symbol self.now.operands.simple.room the.for_rest tokens.old) result tokens.new }
    {
        let condition = self.ended_optional_assign(tokens)?;
        let step = self.for_step(tokens)?;
        Ok((condition, step))
    }

    #[tactic(auto, using(crate::proofs::Expand::for_parts_is))]
    fn for_parts(&self, tokens: &mut Cursor<'_>) -> Result<ForHeader, Stop>
        requires assigns { Nests the.assign self.now.operands.simple.room (A.pre self.now.operands.assign) (A.post self.now.operands.assign) }
        ensures { Reads (symbol self.now.operands.simple.room the.for_parts tokens.old) result tokens.new }
    {
        let first = self.ended_optional_assign(tokens)?;
        let (condition, step) = self.for_rest(tokens)?;
        Ok(ForHeader {
            first,
            condition,
            step,
        })
    }

    #[tactic(auto, using(crate::proofs::Expand::for_header_is))]
    fn for_header(&self, tokens: &mut Cursor<'_>) -> Result<Boxed<ForHeader>, Stop>
        requires assigns { Nests the.assign self.now.operands.simple.room (A.pre self.now.operands.assign) (A.post self.now.operands.assign) }
        ensures { Reads (symbol self.now.operands.simple.room the.for_header tokens.old) result tokens.new }
    {
        tokens.expect(sign(Mark::OpenParenthesis))?;
        let parts = self.for_parts(tokens)?;
        Ok(Boxed::new(self.operands.simple.alloc, parts)?)
    }

    #[tactic(auto, using(crate::proofs::Expand::for_loop_is))]
    fn for_loop(
        &self,
        tokens: &mut Cursor<'_>,
    ) -> Result<(Boxed<ForHeader>, Boxed<Statement>), Stop>
        requires assigns { Nests the.assign self.now.operands.simple.room (A.pre self.now.operands.assign) (A.post self.now.operands.assign) }
        requires statements { Nests the.statement self.now.operands.simple.room (S.pre self.now.statement) (S.post self.now.statement) }
        ensures { Reads (symbol self.now.operands.simple.room the.for_loop tokens.old) result tokens.new }
    {
        let header = self.for_header(tokens)?;
        let body = self.boxed_statement(tokens)?;
        Ok((header, body))
    }

    /// Reads a `for`.
    #[tactic(auto, using(crate::proofs::Expand::for_statement_is))]
    pub fn for_statement(&self, tokens: &mut Cursor<'_>) -> Result<Statement, Stop>
        requires assigns { Nests the.assign self.now.operands.simple.room (A.pre self.now.operands.assign) (A.post self.now.operands.assign) }
        requires statements { Nests the.statement self.now.operands.simple.room (S.pre self.now.statement) (S.post self.now.statement) }
        ensures read { Reads (symbol self.now.operands.simple.room the.for_statement tokens.old) result tokens.new }
    {
        let place = tokens.expect(key(Word::For))?.place;
        let (header, body) = self.for_loop(tokens)?;
        Ok(Statement::For {
            place,
            header,
            body,
        })
    }
}
