//! Readers of variables.

ghost use Rattle.cc_expressions.specs.Nests.{Nests};
ghost use Rattle.cc_expressions.specs.Steps.{Reads};
ghost use Rattle.cc_grammar.specs.Kinds.{mark_kind};
ghost use Rattle.cc_grammar.specs.Reading.{loop, symbol};
ghost use Rattle.cc_grammar.specs.Symbols as the;
ghost use Rattle.cc_lex.specs.declared.token.Mark.TheVariants as mark;
ghost use Rattle.std.specs.Prelude.{◌∷◌, [], length};

use crate::statements::Statements;
use cc_expressions::{Cursor, NAME, Stop, before, identifier, sign};
use cc_grammar::{Expression, Local, LocalDeclarator, Statement};
use cc_lex::Mark;
use sqlite_items::Items;
use std::alloc::Global;

impl<
    A: Fn(Global, &mut Cursor<'_>, usize) -> Result<Expression, Stop>,
    S: Fn(Global, &mut Cursor<'_>, usize) -> Result<Statement, Stop>,
> Statements<A, S> {
    #[tactic(auto, using(crate::proofs::Expand::initialiser_is))]
    fn initialiser(&self, tokens: &mut Cursor<'_>) -> Result<Expression, Stop>
        requires assigns { Nests the.assign self.now.operands.simple.room (A.pre self.now.operands.assign) (A.post self.now.operands.assign) }
        ensures { Reads (symbol self.now.operands.simple.room the.initialiser tokens.old) result tokens.new }
    {
        tokens.expect(sign(Mark::Assign))?;
        self.nested_assign(tokens)
    }

    #[tactic(auto, using(crate::proofs::Expand::local_declarator_is))]
    fn local_declarator(&self, tokens: &mut Cursor<'_>) -> Result<LocalDeclarator, Stop>
        requires assigns { Nests the.assign self.now.operands.simple.room (A.pre self.now.operands.assign) (A.post self.now.operands.assign) }
        ensures { Reads (symbol self.now.operands.simple.room the.local_declarator tokens.old) result tokens.new }
    {
        let name = identifier(self.operands.simple.alloc, tokens.expect(NAME)?)?;
        if tokens.at(&[sign(Mark::OpenBracket), sign(Mark::Assign)]) {
            if tokens.sees(sign(Mark::OpenBracket)) {
                let length = self.declarations().array_length(tokens)?;
                Ok(LocalDeclarator::Array(name, length))
            } else {
                let value = self.initialiser(tokens)?;
                Ok(LocalDeclarator::Value(name, value))
            }
        } else {
            Ok(LocalDeclarator::Plain(name))
        }
    }

    #[tactic(auto, using(crate::proofs::Expand::next_local_declarator_is))]
    fn next_local_declarator(&self, tokens: &mut Cursor<'_>) -> Result<LocalDeclarator, Stop>
        requires assigns { Nests the.assign self.now.operands.simple.room (A.pre self.now.operands.assign) (A.post self.now.operands.assign) }
        ensures { Reads (symbol self.now.operands.simple.room the.next_local_declarator tokens.old) result tokens.new }
    {
        tokens.expect(sign(Mark::Comma))?;
        self.local_declarator(tokens)
    }

    #[tactic(auto, unfolding(cc_expressions::specs::Turns::from))]
    fn next_local_declarators(
        &self,
        tokens: &mut Cursor<'_>,
    ) -> Result<Items<LocalDeclarator>, Stop>
        requires assigns { Nests the.assign self.now.operands.simple.room (A.pre self.now.operands.assign) (A.post self.now.operands.assign) }
        ensures { Reads (loop (symbol self.now.operands.simple.room the.next_local_declarator) (mark_kind mark.Comma ∷ []) (length tokens.old) tokens.old) result tokens.new }
    {
        let mut found = Items::new(self.operands.simple.alloc);
        for _turn in 0..tokens.left() {
            if !tokens.sees(sign(Mark::Comma)) {
                return Ok(found);
            }
            found.push(self.next_local_declarator(tokens)?)?;
        }
        Ok(found)
    }

    #[tactic(auto, using(crate::proofs::Expand::local_declarators_is))]
    fn local_declarators(&self, tokens: &mut Cursor<'_>) -> Result<Items<LocalDeclarator>, Stop>
        requires assigns { Nests the.assign self.now.operands.simple.room (A.pre self.now.operands.assign) (A.post self.now.operands.assign) }
        ensures { Reads (symbol self.now.operands.simple.room the.local_declarators tokens.old) result tokens.new }
    {
        let first = self.local_declarator(tokens)?;
        let others = self.next_local_declarators(tokens)?;
        Ok(before(self.operands.simple.alloc, first, others)?)
    }

    #[tactic(auto, using(crate::proofs::Expand::ended_local_declarators_is))]
    fn ended_local_declarators(
        &self,
        tokens: &mut Cursor<'_>,
    ) -> Result<Items<LocalDeclarator>, Stop>
        requires assigns { Nests the.assign self.now.operands.simple.room (A.pre self.now.operands.assign) (A.post self.now.operands.assign) }
        ensures { Reads (symbol self.now.operands.simple.room the.ended_local_declarators tokens.old) result tokens.new }
    {
        let declarators = self.local_declarators(tokens)?;
        tokens.expect(sign(Mark::Semicolon))?;
        Ok(declarators)
    }

    /// Reads the declaration of local variables.
    #[tactic(auto, using(crate::proofs::Expand::local_is))]
    pub fn local(&self, tokens: &mut Cursor<'_>) -> Result<Local, Stop>
        requires assigns { Nests the.assign self.now.operands.simple.room (A.pre self.now.operands.assign) (A.post self.now.operands.assign) }
        ensures read { Reads (symbol self.now.operands.simple.room the.local tokens.old) result tokens.new }
    {
        let of = self.declarations().type_name(tokens)?;
        let declarators = self.ended_local_declarators(tokens)?;
        Ok(Local { of, declarators })
    }
}
