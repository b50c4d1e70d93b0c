//! Readers of blocks.

ghost use Rattle.cc_expressions.specs.Nests.{Nests};
ghost use Rattle.cc_expressions.specs.Steps.{Reads};
ghost use Rattle.cc_grammar.specs.Begins.{entry_starts};
ghost use Rattle.cc_grammar.specs.Reading.{loop, symbol};
ghost use Rattle.cc_grammar.specs.Symbols as the;
ghost use Rattle.std.specs.Prelude.{length};

use crate::statements::Statements;
use cc_expressions::{Cursor, Stop, begins_entry, begins_type, sign};
use cc_grammar::{Entry, Expression, Statement};
use cc_lex::Mark;
use sqlite_items::Items;
use std::alloc::Global;

impl<
    A: Fn(Global, &mut Cursor<'_>, usize) -> Result<Expression, Stop>,
    S: Fn(Global, &mut Cursor<'_>, usize) -> Result<Statement, Stop>,
> Statements<A, S> {
    #[tactic(auto, using(crate::proofs::Expand::entry_is))]
    fn entry(&self, tokens: &mut Cursor<'_>) -> Result<Entry, Stop>
        requires assigns { Nests the.assign self.now.operands.simple.room (A.pre self.now.operands.assign) (A.post self.now.operands.assign) }
        requires statements { Nests the.statement self.now.operands.simple.room (S.pre self.now.statement) (S.post self.now.statement) }
        ensures { Reads (symbol self.now.operands.simple.room the.entry tokens.old) result tokens.new }
    {
        if begins_type(tokens) {
            let local = self.local(tokens)?;
            Ok(Entry::Local(local))
        } else {
            let statement = self.nested_statement(tokens)?;
            Ok(Entry::Statement(statement))
        }
    }

    #[tactic(auto, unfolding(cc_expressions::specs::Turns::from))]
    fn entry_list(&self, tokens: &mut Cursor<'_>) -> Result<Items<Entry>, Stop>
        requires assigns { Nests the.assign self.now.operands.simple.room (A.pre self.now.operands.assign) (A.post self.now.operands.assign) }
        requires statements { Nests the.statement self.now.operands.simple.room (S.pre self.now.statement) (S.post self.now.statement) }
        ensures { Reads (loop (symbol self.now.operands.simple.room the.entry) entry_starts (length tokens.old) tokens.old) result tokens.new }
    {
        let mut found = Items::new(self.operands.simple.alloc);
        for _turn in 0..tokens.left() {
            if !begins_entry(tokens) {
                return Ok(found);
            }
            found.push(self.entry(tokens)?)?;
        }
        Ok(found)
    }

    /// Reads entries up to the end of their block.
    #[tactic(auto, using(crate::proofs::Expand::entries_is))]
    pub fn entries(&self, tokens: &mut Cursor<'_>) -> Result<Items<Entry>, Stop>
        requires assigns { Nests the.assign self.now.operands.simple.room (A.pre self.now.operands.assign) (A.post self.now.operands.assign) }
        requires statements { Nests the.statement self.now.operands.simple.room (S.pre self.now.statement) (S.post self.now.statement) }
        ensures read { Reads (symbol self.now.operands.simple.room the.entries tokens.old) result tokens.new }
    {
        self.entry_list(tokens)
    }

    #[tactic(auto, using(crate::proofs::Expand::closed_entries_is))]
    fn closed_entries(&self, tokens: &mut Cursor<'_>) -> Result<Items<Entry>, Stop>
        requires assigns { Nests the.assign self.now.operands.simple.room (A.pre self.now.operands.assign) (A.post self.now.operands.assign) }
        requires statements { Nests the.statement self.now.operands.simple.room (S.pre self.now.statement) (S.post self.now.statement) }
        ensures { Reads (symbol self.now.operands.simple.room the.closed_entries tokens.old) result tokens.new }
    {
        let entries = self.entries(tokens)?;
        tokens.expect(sign(Mark::CloseBrace))?;
        Ok(entries)
    }

    /// Reads a block in braces.
    #[tactic(auto, using(crate::proofs::Expand::block_is))]
    pub fn block(&self, tokens: &mut Cursor<'_>) -> Result<Items<Entry>, Stop>
        requires assigns { Nests the.assign self.now.operands.simple.room (A.pre self.now.operands.assign) (A.post self.now.operands.assign) }
        requires statements { Nests the.statement self.now.operands.simple.room (S.pre self.now.statement) (S.post self.now.statement) }
        ensures read { Reads (symbol self.now.operands.simple.room the.block tokens.old) result tokens.new }
    {
        tokens.expect(sign(Mark::OpenBrace))?;
        self.closed_entries(tokens)
    }
}
