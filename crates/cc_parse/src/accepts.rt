//! Readers of `accept`.

ghost use Rattle.cc_expressions.specs.Nests.{Nests};
ghost use Rattle.cc_expressions.specs.Steps.{Reads};
ghost use Rattle.cc_grammar.specs.Reading.{symbol};
ghost use Rattle.cc_grammar.specs.Symbols as the;

use crate::statements::Statements;
use cc_expressions::{Cursor, NAME, Stop, identifier, key, sign};
use cc_grammar::{Accept, Clauses, Entry, Expression, Identifier, Statement};
use cc_lex::{Mark, Word};
use sqlite_items::{Boxed, Items};
use std::alloc::Global;

impl<
    A: Fn(Global, &mut Cursor<'_>, usize) -> Result<Expression, Stop>,
    S: Fn(Global, &mut Cursor<'_>, usize) -> Result<Statement, Stop>,
> Statements<A, S> {
    #[tactic(auto, using(crate::proofs::Expand::such_is))]
    fn such(&self, tokens: &mut Cursor<'_>) -> Result<Expression, Stop>
        requires assigns { Nests the.assign self.now.operands.simple.room (A.pre self.now.operands.assign) (A.post self.now.operands.assign) }
        ensures { Reads (symbol self.now.operands.simple.room the.such tokens.old) result tokens.new }
    {
        tokens.expect(key(Word::Suchthat))?;
        self.operands.condition(tokens)
    }

    #[tactic(auto, using(crate::proofs::Expand::least_is))]
    fn least(&self, tokens: &mut Cursor<'_>) -> Result<Expression, Stop>
        requires assigns { Nests the.assign self.now.operands.simple.room (A.pre self.now.operands.assign) (A.post self.now.operands.assign) }
        ensures { Reads (symbol self.now.operands.simple.room the.least tokens.old) result tokens.new }
    {
        tokens.expect(key(Word::By))?;
        self.operands.condition(tokens)
    }

    #[tactic(auto, using(crate::proofs::Expand::clauses_is))]
    fn clauses(&self, tokens: &mut Cursor<'_>) -> Result<Clauses, Stop>
        requires assigns { Nests the.assign self.now.operands.simple.room (A.pre self.now.operands.assign) (A.post self.now.operands.assign) }
        ensures { Reads (symbol self.now.operands.simple.room the.clauses tokens.old) result tokens.new }
    {
        if tokens.sees(key(Word::Suchthat)) {
            let such = self.such(tokens)?;
            if tokens.sees(key(Word::By)) {
                let least = self.least(tokens)?;
                Ok(Clauses::SuchLeast(such, least))
            } else {
                Ok(Clauses::Such(such))
            }
        } else {
            let least = self.least(tokens)?;
            if tokens.sees(key(Word::Suchthat)) {
                let such = self.such(tokens)?;
                Ok(Clauses::LeastSuch(least, such))
            } else {
                Ok(Clauses::Least(least))
            }
        }
    }

    #[tactic(auto, using(crate::proofs::Expand::optional_clauses_is))]
    fn optional_clauses(&self, tokens: &mut Cursor<'_>) -> Result<Clauses, Stop>
        requires assigns { Nests the.assign self.now.operands.simple.room (A.pre self.now.operands.assign) (A.post self.now.operands.assign) }
        ensures { Reads (symbol self.now.operands.simple.room the.optional_clauses tokens.old) result tokens.new }
    {
        if tokens.at(&[key(Word::Suchthat), key(Word::By)]) {
            self.clauses(tokens)
        } else {
            Ok(Clauses::None)
        }
    }

    /// The same in a box.
    fn boxed_clauses(&self, tokens: &mut Cursor<'_>) -> Result<Boxed<Clauses>, Stop>
        requires assigns { Nests the.assign self.now.operands.simple.room (A.pre self.now.operands.assign) (A.post self.now.operands.assign) }
        ensures { Reads (symbol self.now.operands.simple.room the.optional_clauses tokens.old) result tokens.new }
    {
        let clauses = self.optional_clauses(tokens)?;
        Ok(Boxed::new(self.operands.simple.alloc, clauses)?)
    }

    #[tactic(auto, using(crate::proofs::Expand::accept_block_is))]
    fn accept_block(&self, tokens: &mut Cursor<'_>) -> Result<Option<Items<Entry>>, Stop>
        requires assigns { Nests the.assign self.now.operands.simple.room (A.pre self.now.operands.assign) (A.post self.now.operands.assign) }
        requires statements { Nests the.statement self.now.operands.simple.room (S.pre self.now.statement) (S.post self.now.statement) }
        ensures { Reads (symbol self.now.operands.simple.room the.accept_block tokens.old) result tokens.new }
    {
        if tokens.sees(sign(Mark::OpenBrace)) {
            let block = self.block(tokens)?;
            Ok(Some(block))
        } else {
            tokens.expect(sign(Mark::Semicolon))?;
            Ok(None)
        }
    }

    #[tactic(auto, using(crate::proofs::Expand::accept_head_is))]
    fn accept_head(&self, tokens: &mut Cursor<'_>) -> Result<(Identifier, Items<Identifier>), Stop>
        ensures { Reads (symbol self.now.operands.simple.room the.accept_head tokens.old) result tokens.new }
    {
        let name = identifier(self.operands.simple.alloc, tokens.expect(NAME)?)?;
        let names = self.declarations().parameter_names(tokens)?;
        Ok((name, names))
    }

    #[tactic(auto, using(crate::proofs::Expand::accept_rest_is))]
    fn accept_rest(&self, tokens: &mut Cursor<'_>) -> Result<(Clauses, Option<Items<Entry>>), Stop>
        requires assigns { Nests the.assign self.now.operands.simple.room (A.pre self.now.operands.assign) (A.post self.now.operands.assign) }
        requires statements { Nests the.statement self.now.operands.simple.room (S.pre self.now.statement) (S.post self.now.statement) }
        ensures { Reads (symbol self.now.operands.simple.room the.accept_rest tokens.old) result tokens.new }
    {
        let clauses = self.boxed_clauses(tokens)?;
        let block = self.accept_block(tokens)?;
        Ok((clauses.into_inner(), block))
    }

    /// Reads an `accept`.
    #[tactic(auto, using(crate::proofs::Expand::accept_is))]
    pub fn accept(&self, tokens: &mut Cursor<'_>) -> Result<Accept, Stop>
        requires assigns { Nests the.assign self.now.operands.simple.room (A.pre self.now.operands.assign) (A.post self.now.operands.assign) }
        requires statements { Nests the.statement self.now.operands.simple.room (S.pre self.now.statement) (S.post self.now.statement) }
        ensures read { Reads (symbol self.now.operands.simple.room the.accept tokens.old) result tokens.new }
    {
        let place = tokens.expect(key(Word::Accept))?.place;
        let (name, names) = self.accept_head(tokens)?;
        let (clauses, block) = self.accept_rest(tokens)?;
        Ok(Accept {
            place,
            name,
            names,
            clauses,
            block,
        })
    }

    /// The same in a box.
    pub fn boxed_accept(&self, tokens: &mut Cursor<'_>) -> Result<Boxed<Accept>, Stop>
        requires assigns { Nests the.assign self.now.operands.simple.room (A.pre self.now.operands.assign) (A.post self.now.operands.assign) }
        requires statements { Nests the.statement self.now.operands.simple.room (S.pre self.now.statement) (S.post self.now.statement) }
        ensures read { Reads (symbol self.now.operands.simple.room the.accept tokens.old) result tokens.new }
    {
        let accept = self.accept(tokens)?;
        Ok(Boxed::new(self.operands.simple.alloc, accept)?)
    }
}
