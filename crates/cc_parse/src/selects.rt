//! Readers of `select` and its alternatives.

ghost use Rattle.cc_expressions.specs.Nests.{Nests};
ghost use Rattle.cc_expressions.specs.Steps.{Reads};
ghost use Rattle.cc_grammar.specs.Kinds.{word_kind};
ghost use Rattle.cc_grammar.specs.Reading.{loop, symbol};
ghost use Rattle.cc_grammar.specs.Symbols as the;
ghost use Rattle.cc_lex.specs.declared.token.Word.TheVariants as word;
ghost use Rattle.std.specs.Prelude.{◌∷◌, [], length};

use crate::statements::Statements;
use cc_expressions::{Cursor, Stop, before, key, sign};
use cc_grammar::{Alternative, Choice, Entry, Expression, Statement};
use cc_lex::{Mark, Word};
use sqlite_items::{Boxed, Items};
use std::alloc::Global;

impl<
    A: Fn(Global, &mut Cursor<'_>, usize) -> Result<Expression, Stop>,
    S: Fn(Global, &mut Cursor<'_>, usize) -> Result<Statement, Stop>,
> Statements<A, S> {
    #[tactic(auto, using(crate::proofs::Expand::accept_choice_is))]
    fn accept_choice(&self, tokens: &mut Cursor<'_>) -> Result<Choice, Stop>
        requires assigns { Nests the.assign self.now.operands.simple.room (A.pre self.now.operands.assign) (A.post self.now.operands.assign) }
        requires statements { Nests the.statement self.now.operands.simple.room (S.pre self.now.statement) (S.post self.now.statement) }
        ensures { Reads (symbol self.now.operands.simple.room the.accept_choice tokens.old) result tokens.new }
    {
        let accept = self.boxed_accept(tokens)?;
        let entries = self.entries(tokens)?;
        Ok(Choice::Accept(accept.into_inner(), entries))
    }

    #[tactic(auto, using(crate::proofs::Expand::delay_rest_is))]
    fn delay_rest(&self, tokens: &mut Cursor<'_>) -> Result<(Expression, Items<Entry>), Stop>
        requires assigns { Nests the.assign self.now.operands.simple.room (A.pre self.now.operands.assign) (A.post self.now.operands.assign) }
        requires statements { Nests the.statement self.now.operands.simple.room (S.pre self.now.statement) (S.post self.now.statement) }
        ensures { Reads (symbol self.now.operands.simple.room the.delay_rest tokens.old) result tokens.new }
    {
        let wait = self.ended_assign(tokens)?;
        let entries = self.entries(tokens)?;
        Ok((wait, entries))
    }

    #[tactic(auto, using(crate::proofs::Expand::delay_choice_is))]
    fn delay_choice(&self, tokens: &mut Cursor<'_>) -> Result<Choice, Stop>
        requires assigns { Nests the.assign self.now.operands.simple.room (A.pre self.now.operands.assign) (A.post self.now.operands.assign) }
        requires statements { Nests the.statement self.now.operands.simple.room (S.pre self.now.statement) (S.post self.now.statement) }
        ensures { Reads (symbol self.now.operands.simple.room the.delay_choice tokens.old) result tokens.new }
    {
        let place = tokens.expect(key(Word::Delay))?.place;
        let (wait, entries) = self.delay_rest(tokens)?;
        Ok(Choice::Delay(place, wait, entries))
    }

    #[tactic(auto, using(crate::proofs::Expand::immediate_choice_is))]
    fn immediate_choice(&self, tokens: &mut Cursor<'_>) -> Result<Choice, Stop>
        requires assigns { Nests the.assign self.now.operands.simple.room (A.pre self.now.operands.assign) (A.post self.now.operands.assign) }
        requires statements { Nests the.statement self.now.operands.simple.room (S.pre self.now.statement) (S.post self.now.statement) }
        ensures { Reads (symbol self.now.operands.simple.room the.immediate_choice tokens.old) result tokens.new }
    {
        let place = tokens.expect(key(Word::Immediate))?.place;
        tokens.expect(sign(Mark::Semicolon))?;
        let entries = self.entries(tokens)?;
        Ok(Choice::Immediate(place, entries))
    }

    #[tactic(auto, using(crate::proofs::Expand::terminate_choice_is))]
    fn terminate_choice(&self, tokens: &mut Cursor<'_>) -> Result<Choice, Stop>
        ensures { Reads (symbol self.now.operands.simple.room the.terminate_choice tokens.old) result tokens.new }
    {
        let place = tokens.expect(key(Word::Terminate))?.place;
        tokens.expect(sign(Mark::Semicolon))?;
        Ok(Choice::Terminate(place))
    }

    #[tactic(auto, using(crate::proofs::Expand::choice_is))]
    fn choice(&self, tokens: &mut Cursor<'_>) -> Result<Choice, Stop>
        requires assigns { Nests the.assign self.now.operands.simple.room (A.pre self.now.operands.assign) (A.post self.now.operands.assign) }
        requires statements { Nests the.statement self.now.operands.simple.room (S.pre self.now.statement) (S.post self.now.statement) }
        ensures { Reads (symbol self.now.operands.simple.room the.choice tokens.old) result tokens.new }
    {
        if tokens.sees(key(Word::Accept)) {
            self.accept_choice(tokens)
        } else if tokens.sees(key(Word::Delay)) {
            self.delay_choice(tokens)
        } else if tokens.sees(key(Word::Immediate)) {
            self.immediate_choice(tokens)
        } else {
            self.terminate_choice(tokens)
        }
    }

    #[tactic(auto, using(crate::proofs::Expand::guard_is))]
    fn guard(&self, tokens: &mut Cursor<'_>) -> Result<Expression, Stop>
        requires assigns { Nests the.assign self.now.operands.simple.room (A.pre self.now.operands.assign) (A.post self.now.operands.assign) }
        ensures { Reads (symbol self.now.operands.simple.room the.guard tokens.old) result tokens.new }
    {
        let guard = self.operands.condition(tokens)?;
        tokens.expect(sign(Mark::Colon))?;
        Ok(guard)
    }

    /// The same in a box.
    fn boxed_guard(&self, tokens: &mut Cursor<'_>) -> Result<Boxed<Expression>, Stop>
        requires assigns { Nests the.assign self.now.operands.simple.room (A.pre self.now.operands.assign) (A.post self.now.operands.assign) }
        ensures { Reads (symbol self.now.operands.simple.room the.guard tokens.old) result tokens.new }
    {
        let guard = self.guard(tokens)?;
        Ok(Boxed::new(self.operands.simple.alloc, guard)?)
    }

    #[tactic(auto, using(crate::proofs::Expand::alternative_is))]
    fn alternative(&self, tokens: &mut Cursor<'_>) -> Result<Alternative, Stop>
        requires assigns { Nests the.assign self.now.operands.simple.room (A.pre self.now.operands.assign) (A.post self.now.operands.assign) }
        requires statements { Nests the.statement self.now.operands.simple.room (S.pre self.now.statement) (S.post self.now.statement) }
        ensures { Reads (symbol self.now.operands.simple.room the.alternative tokens.old) result tokens.new }
    {
        if tokens.sees(sign(Mark::OpenParenthesis)) {
            let guard = self.boxed_guard(tokens)?;
            let choice = self.choice(tokens)?;
            Ok(Alternative {
                guard: Some(guard.into_inner()),
                choice,
            })
        } else {
            let choice = self.choice(tokens)?;
            Ok(Alternative {
                guard: None,
                choice,
            })
        }
    }

    /// The same in a box.
    fn boxed_alternative(&self, tokens: &mut Cursor<'_>) -> Result<Boxed<Alternative>, Stop>
        requires assigns { Nests the.assign self.now.operands.simple.room (A.pre self.now.operands.assign) (A.post self.now.operands.assign) }
        requires statements { Nests the.statement self.now.operands.simple.room (S.pre self.now.statement) (S.post self.now.statement) }
        ensures { Reads (symbol self.now.operands.simple.room the.alternative tokens.old) result tokens.new }
    {
        let alternative = self.alternative(tokens)?;
        Ok(Boxed::new(self.operands.simple.alloc, alternative)?)
    }

    #[tactic(auto, using(crate::proofs::Expand::next_alternative_is))]
    fn next_alternative(&self, tokens: &mut Cursor<'_>) -> Result<Alternative, Stop>
        requires assigns { Nests the.assign self.now.operands.simple.room (A.pre self.now.operands.assign) (A.post self.now.operands.assign) }
        requires statements { Nests the.statement self.now.operands.simple.room (S.pre self.now.statement) (S.post self.now.statement) }
        ensures { Reads (symbol self.now.operands.simple.room the.next_alternative tokens.old) result tokens.new }
    {
        tokens.expect(key(Word::Or))?;
        self.alternative(tokens)
    }

    #[tactic(auto, unfolding(cc_expressions::specs::Turns::from))]
    fn next_alternatives(&self, tokens: &mut Cursor<'_>) -> Result<Items<Alternative>, Stop>
        requires assigns { Nests the.assign self.now.operands.simple.room (A.pre self.now.operands.assign) (A.post self.now.operands.assign) }
        requires statements { Nests the.statement self.now.operands.simple.room (S.pre self.now.statement) (S.post self.now.statement) }
        ensures { Reads (loop (symbol self.now.operands.simple.room the.next_alternative) (word_kind word.Or ∷ []) (length tokens.old) tokens.old) result tokens.new }
    {
        let mut found = Items::new(self.operands.simple.alloc);
        for _turn in 0..tokens.left() {
            if !tokens.sees(key(Word::Or)) {
                return Ok(found);
            }
            found.push(self.next_alternative(tokens)?)?;
        }
        Ok(found)
    }

    #[tactic(auto, using(crate::proofs::Expand::alternatives_is))]
    fn alternatives(&self, tokens: &mut Cursor<'_>) -> Result<Items<Alternative>, Stop>
        requires assigns { Nests the.assign self.now.operands.simple.room (A.pre self.now.operands.assign) (A.post self.now.operands.assign) }
        requires statements { Nests the.statement self.now.operands.simple.room (S.pre self.now.statement) (S.post self.now.statement) }
        ensures { Reads (symbol self.now.operands.simple.room the.alternatives tokens.old) result tokens.new }
    {
        let first = self.boxed_alternative(tokens)?;
        let others = self.next_alternatives(tokens)?;
        Ok(before(self.operands.simple.alloc, first.into_inner(), others)?)
    }

    #[tactic(auto, using(crate::proofs::Expand::closed_alternatives_is))]
    fn closed_alternatives(&self, tokens: &mut Cursor<'_>) -> Result<Items<Alternative>, Stop>
        requires assigns { Nests the.assign self.now.operands.simple.room (A.pre self.now.operands.assign) (A.post self.now.operands.assign) }
        requires statements { Nests the.statement self.now.operands.simple.room (S.pre self.now.statement) (S.post self.now.statement) }
        ensures { Reads (symbol self.now.operands.simple.room the.closed_alternatives tokens.old) result tokens.new }
    {
        let alternatives = self.alternatives(tokens)?;
        tokens.expect(sign(Mark::CloseBrace))?;
        Ok(alternatives)
    }

    /// Reads a `select`.
    #[tactic(auto, using(crate::proofs::Expand::select_statement_is))]
    pub fn select_statement(&self, tokens: &mut Cursor<'_>) -> Result<Statement, Stop>
        requires assigns { Nests the.assign self.now.operands.simple.room (A.pre self.now.operands.assign) (A.post self.now.operands.assign) }
        requires statements { Nests the.statement self.now.operands.simple.room (S.pre self.now.statement) (S.post self.now.statement) }
        ensures read { Reads (symbol self.now.operands.simple.room the.select_statement tokens.old) result tokens.new }
    {
        let place = tokens.expect(key(Word::Select))?.place;
        tokens.expect(sign(Mark::OpenBrace))?;
        let alternatives = self.closed_alternatives(tokens)?;
        Ok(Statement::Select(place, alternatives))
    }
}
