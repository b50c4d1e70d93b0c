//! Readers of `if`, `while` and `do`.

ghost use Rattle.cc_expressions.specs.Nests.{Nests};
ghost use Rattle.cc_expressions.specs.Steps.{Reads};
ghost use Rattle.cc_grammar.specs.Reading.{symbol};
ghost use Rattle.cc_grammar.specs.Symbols as the;
ghost use Rattle.cc_grammar.specs.Trees as trees;
ghost use Rattle.std.specs.Prelude.{◌≡◌};

use crate::statements::Statements;
use cc_base::Place;
use cc_expressions::{Cursor, Stop, key, sign};
use cc_grammar::{Expression, Statement};
use cc_lex::{Mark, Word};
use sqlite_items::Boxed;
use std::alloc::Global;

impl<
    A: Fn(Global, &mut Cursor<'_>, usize) -> Result<Expression, Stop>,
    S: Fn(Global, &mut Cursor<'_>, usize) -> Result<Statement, Stop>,
> Statements<A, S> {
    #[tactic(auto, using(crate::proofs::Expand::otherwise_is))]
    fn otherwise(&self, tokens: &mut Cursor<'_>) -> Result<Boxed<Statement>, Stop>
        requires statements { Nests the.statement self.now.operands.simple.room (S.pre self.now.statement) (S.post self.now.statement) }
        ensures { Reads (symbol self.now.operands.simple.room the.otherwise tokens.old) result tokens.new }
    {
        tokens.expect(key(Word::Else))?;
        self.boxed_statement(tokens)
    }

    /// The statement of an `if`, and that behind its `else`.
    #[tactic(auto, using(crate::proofs::Expand::branches_is))]
    fn branches(
        &self,
        tokens: &mut Cursor<'_>,
    ) -> Result<(Boxed<Statement>, Option<Boxed<Statement>>), Stop>
        requires statements { Nests the.statement self.now.operands.simple.room (S.pre self.now.statement) (S.post self.now.statement) }
        ensures { Reads (symbol self.now.operands.simple.room the.branches tokens.old) result tokens.new }
    {
        let then = self.boxed_statement(tokens)?;
        if tokens.sees(key(Word::Else)) {
            let otherwise = self.otherwise(tokens)?;
            Ok((then, Some(otherwise)))
        } else {
            Ok((then, None))
        }
    }

    #[tactic(auto, using(crate::proofs::Expand::if_statement_is))]
    fn if_statement(&self, tokens: &mut Cursor<'_>) -> Result<Statement, Stop>
        requires assigns { Nests the.assign self.now.operands.simple.room (A.pre self.now.operands.assign) (A.post self.now.operands.assign) }
        requires statements { Nests the.statement self.now.operands.simple.room (S.pre self.now.statement) (S.post self.now.statement) }
        ensures { Reads (symbol self.now.operands.simple.room the.if_statement tokens.old) result tokens.new }
    {
        let place = tokens.expect(key(Word::If))?.place;
        let condition = self.operands.condition(tokens)?;
        let (then, otherwise) = self.branches(tokens)?;
        Ok(if_of(place, condition, then, otherwise))
    }

    #[tactic(auto, using(crate::proofs::Expand::while_loop_is))]
    fn while_loop(&self, tokens: &mut Cursor<'_>) -> Result<(Expression, Boxed<Statement>), Stop>
        requires assigns { Nests the.assign self.now.operands.simple.room (A.pre self.now.operands.assign) (A.post self.now.operands.assign) }
        requires statements { Nests the.statement self.now.operands.simple.room (S.pre self.now.statement) (S.post self.now.statement) }
        ensures { Reads (symbol self.now.operands.simple.room the.while_loop tokens.old) result tokens.new }
    {
        let condition = self.operands.condition(tokens)?;
        let body = self.boxed_statement(tokens)?;
        Ok((condition, body))
    }

    #[tactic(auto, using(crate::proofs::Expand::while_statement_is))]
    fn while_statement(&self, tokens: &mut Cursor<'_>) -> Result<Statement, Stop>
        requires assigns { Nests the.assign self.now.operands.simple.room (A.pre self.now.operands.assign) (A.post self.now.operands.assign) }
        requires statements { Nests the.statement self.now.operands.simple.room (S.pre self.now.statement) (S.post self.now.statement) }
        ensures { Reads (symbol self.now.operands.simple.room the.while_statement tokens.old) result tokens.new }
    {
        let place = tokens.expect(key(Word::While))?.place;
        let (condition, body) = self.while_loop(tokens)?;
        Ok(Statement::While {
            place,
            condition,
            body,
        })
    }

    #[tactic(auto, using(crate::proofs::Expand::do_body_is))]
    fn do_body(&self, tokens: &mut Cursor<'_>) -> Result<Boxed<Statement>, Stop>
        requires statements { Nests the.statement self.now.operands.simple.room (S.pre self.now.statement) (S.post self.now.statement) }
        ensures { Reads (symbol self.now.operands.simple.room the.do_body tokens.old) result tokens.new }
    {
        let body = self.boxed_statement(tokens)?;
        tokens.expect(key(Word::While))?;
        Ok(body)
    }

    #[tactic(auto, using(crate::proofs::Expand::ended_condition_is))]
    fn ended_condition(&self, tokens: &mut Cursor<'_>) -> Result<Expression, Stop>
        requires assigns { Nests the.assign self.now.operands.simple.room (A.pre self.now.operands.assign) (A.post self.now.operands.assign) }
        ensures { Reads (symbol self.now.operands.simple.room the.ended_condition tokens.old) result tokens.new }
    {
        let condition = self.operands.condition(tokens)?;
        tokens.expect(sign(Mark::Semicolon))?;
        Ok(condition)
    }

    #[tactic(auto, using(crate::proofs::Expand::do_loop_is))]
    fn do_loop(&self, tokens: &mut Cursor<'_>) -> Result<(Boxed<Statement>, Expression), Stop>
        requires assigns { Nests the.assign self.now.operands.simple.room (A.pre self.now.operands.assign) (A.post self.now.operands.assign) }
        requires statements { Nests the.statement self.now.operands.simple.room (S.pre self.now.statement) (S.post self.now.statement) }
        ensures { Reads (symbol self.now.operands.simple.room the.do_loop tokens.old) result tokens.new }
    {
        let body = self.do_body(tokens)?;
        let condition = self.ended_condition(tokens)?;
        Ok((body, condition))
    }

    #[tactic(auto, using(crate::proofs::Expand::do_statement_is))]
    fn do_statement(&self, tokens: &mut Cursor<'_>) -> Result<Statement, Stop>
        requires assigns { Nests the.assign self.now.operands.simple.room (A.pre self.now.operands.assign) (A.post self.now.operands.assign) }
        requires statements { Nests the.statement self.now.operands.simple.room (S.pre self.now.statement) (S.post self.now.statement) }
        ensures { Reads (symbol self.now.operands.simple.room the.do_statement tokens.old) result tokens.new }
    {
        let place = tokens.expect(key(Word::Do))?.place;
        let (body, condition) = self.do_loop(tokens)?;
        Ok(Statement::Do {
            place,
            body,
            condition,
        })
    }

    /// Reads `if`, `while`, `do` or `for`.
    #[tactic(auto, using(crate::proofs::Expand::control_statement_is))]
    pub fn control_statement(&self, tokens: &mut Cursor<'_>) -> Result<Statement, Stop>
        requires assigns { Nests the.assign self.now.operands.simple.room (A.pre self.now.operands.assign) (A.post self.now.operands.assign) }
        requires statements { Nests the.statement self.now.operands.simple.room (S.pre self.now.statement) (S.post self.now.statement) }
        ensures read { Reads (symbol self.now.operands.simple.room the.control_statement tokens.old) result tokens.new }
    {
        if tokens.sees(key(Word::If)) {
            self.if_statement(tokens)
        } else if tokens.sees(key(Word::While)) {
            self.while_statement(tokens)
        } else if tokens.sees(key(Word::Do)) {
            self.do_statement(tokens)
        } else {
            self.for_statement(tokens)
        }
    }
}

/// An `if`, with its `else` or without.
fn if_of(
    place: Place,
    condition: Expression,
    then: Boxed<Statement>,
    otherwise: Option<Boxed<Statement>>,
) -> Statement
    ensures { result ≡ trees.if_of place condition (then, otherwise) }
{
    match otherwise {
        None => Statement::If {
            place,
            condition,
            then,
        },
        Some(otherwise) => Statement::IfElse {
            place,
            condition,
            then,
            otherwise,
        },
    }
}
