//! Readers of operands and of what stands in parentheses. They take the reader of the expressions within as a parameter, so that
//! each is proved by itself.

ghost use Rattle.cc_grammar.specs.Kinds.{mark_kind};
ghost use Rattle.cc_grammar.specs.Reading.{level, loop, symbol};
ghost use Rattle.cc_grammar.specs.Symbols as the;
ghost use Rattle.cc_lex.specs.declared.token.Mark.TheVariants as mark;
ghost use Rattle.cc_expressions.specs.Nests.{Nests};
ghost use Rattle.cc_expressions.specs.Steps.{Reads};
ghost use Rattle.std.specs.Prelude.{◌∷◌, [], length};

use crate::cursor::{CHARACTER, Cursor, NAME, NUMBER, STRING, Stop, key, sign};
use crate::leaves::{before, format, identifier};
use crate::rows::postfix;
use crate::simple::Simple;
use crate::starts::begins_assign;
use cc_grammar::{Expression, Format, Step};
use cc_lex::{Mark, Word};
use sqlite_items::{Boxed, Items};
use std::alloc::Global;

/// The readers of operands, with the one of the expressions within.
#[derive(Clone, Copy)]
pub struct Operands<A> {
    pub simple: Simple,
    /// Reads an expression that adds to the nesting.
    pub assign: A,
}

impl<A: Fn(Global, &mut Cursor<'_>, usize) -> Result<Expression, Stop>> Operands<A> {
    /// Reads an expression one level deeper.
    pub fn nested_assign(&self, tokens: &mut Cursor<'_>) -> Result<Expression, Stop>
        requires assigns { Nests the.assign self.now.simple.room (A.pre self.now.assign) (A.post self.now.assign) }
        ensures read { Reads (level self.now.simple.room the.assign tokens.old) result tokens.new }
    {
        (self.assign)(self.simple.alloc, tokens, self.simple.room)
    }

    /// Reads an expression in parentheses.
    #[tactic(auto, using(crate::proofs::Expand::condition_is))]
    pub fn condition(&self, tokens: &mut Cursor<'_>) -> Result<Expression, Stop>
        requires assigns { Nests the.assign self.now.simple.room (A.pre self.now.assign) (A.post self.now.assign) }
        ensures read { Reads (symbol self.now.simple.room the.condition tokens.old) result tokens.new }
    {
        tokens.expect(sign(Mark::OpenParenthesis))?;
        let inner = self.nested_assign(tokens)?;
        tokens.expect(sign(Mark::CloseParenthesis))?;
        Ok(inner)
    }

    /// Reads an expression, or nothing where none begins.
    #[tactic(auto, using(crate::proofs::Expand::optional_assign_is))]
    pub fn optional_assign(&self, tokens: &mut Cursor<'_>) -> Result<Option<Expression>, Stop>
        requires assigns { Nests the.assign self.now.simple.room (A.pre self.now.assign) (A.post self.now.assign) }
        ensures read { Reads (symbol self.now.simple.room the.optional_assign tokens.old) result tokens.new }
    {
        if begins_assign(tokens) {
            let value = self.nested_assign(tokens)?;
            Ok(Some(value))
        } else {
            Ok(None)
        }
    }

    #[tactic(auto, using(crate::proofs::Expand::next_argument_is))]
    fn next_argument(&self, tokens: &mut Cursor<'_>) -> Result<Expression, Stop>
        requires assigns { Nests the.assign self.now.simple.room (A.pre self.now.assign) (A.post self.now.assign) }
        ensures { Reads (symbol self.now.simple.room the.next_argument tokens.old) result tokens.new }
    {
        tokens.expect(sign(Mark::Comma))?;
        self.nested_assign(tokens)
    }

    #[tactic(auto, unfolding(crate::specs::Turns::from))]
    fn next_arguments(&self, tokens: &mut Cursor<'_>) -> Result<Items<Expression>, Stop>
        requires assigns { Nests the.assign self.now.simple.room (A.pre self.now.assign) (A.post self.now.assign) }
        ensures { Reads (loop (symbol self.now.simple.room the.next_argument) (mark_kind mark.Comma ∷ []) (length tokens.old) tokens.old) result tokens.new }
    {
        let mut found = Items::new(self.simple.alloc);
        for _turn in 0..tokens.left() {
            if !tokens.sees(sign(Mark::Comma)) {
                return Ok(found);
            }
            found.push(self.next_argument(tokens)?)?;
        }
        Ok(found)
    }

    #[tactic(auto, using(crate::proofs::Expand::arguments_is))]
    fn arguments(&self, tokens: &mut Cursor<'_>) -> Result<Items<Expression>, Stop>
        requires assigns { Nests the.assign self.now.simple.room (A.pre self.now.assign) (A.post self.now.assign) }
        ensures { Reads (symbol self.now.simple.room the.arguments tokens.old) result tokens.new }
    {
        if begins_assign(tokens) {
            let first = self.nested_assign(tokens)?;
            let others = self.next_arguments(tokens)?;
            Ok(before(self.simple.alloc, first, others)?)
        } else {
            Ok(Items::new(self.simple.alloc))
        }
    }

    #[tactic(auto, using(crate::proofs::Expand::argument_list_is))]
    fn argument_list(&self, tokens: &mut Cursor<'_>) -> Result<Items<Expression>, Stop>
        requires assigns { Nests the.assign self.now.simple.room (A.pre self.now.assign) (A.post self.now.assign) }
        ensures { Reads (symbol self.now.simple.room the.argument_list tokens.old) result tokens.new }
    {
        tokens.expect(sign(Mark::OpenParenthesis))?;
        let arguments = self.arguments(tokens)?;
        tokens.expect(sign(Mark::CloseParenthesis))?;
        Ok(arguments)
    }

    #[tactic(auto, using(crate::proofs::Expand::named_is))]
    fn named(&self, tokens: &mut Cursor<'_>) -> Result<Expression, Stop>
        requires assigns { Nests the.assign self.now.simple.room (A.pre self.now.assign) (A.post self.now.assign) }
        ensures { Reads (symbol self.now.simple.room the.named tokens.old) result tokens.new }
    {
        let name = identifier(self.simple.alloc, tokens.expect(NAME)?)?;
        if tokens.sees(sign(Mark::OpenParenthesis)) {
            let arguments = self.argument_list(tokens)?;
            Ok(Expression::Call(Boxed::new(self.simple.alloc, name)?, arguments))
        } else {
            Ok(Expression::Name(name))
        }
    }

    #[tactic(auto, using(crate::proofs::Expand::create_is))]
    fn create(&self, tokens: &mut Cursor<'_>) -> Result<Expression, Stop>
        requires assigns { Nests the.assign self.now.simple.room (A.pre self.now.assign) (A.post self.now.assign) }
        ensures { Reads (symbol self.now.simple.room the.create tokens.old) result tokens.new }
    {
        let place = tokens.expect(key(Word::Create))?.place;
        let name = identifier(self.simple.alloc, tokens.expect(NAME)?)?;
        let arguments = self.argument_list(tokens)?;
        Ok(Expression::Create(place, Boxed::new(self.simple.alloc, name)?, arguments))
    }

    #[tactic(auto, using(crate::proofs::Expand::putchar_is))]
    fn putchar(&self, tokens: &mut Cursor<'_>) -> Result<Expression, Stop>
        requires assigns { Nests the.assign self.now.simple.room (A.pre self.now.assign) (A.post self.now.assign) }
        ensures { Reads (symbol self.now.simple.room the.putchar tokens.old) result tokens.new }
    {
        let place = tokens.expect(key(Word::Putchar))?.place;
        let byte = self.condition(tokens)?;
        Ok(Expression::Putchar(place, Boxed::new(self.simple.alloc, byte)?))
    }

    #[tactic(auto, using(crate::proofs::Expand::getchar_is))]
    fn getchar(&self, tokens: &mut Cursor<'_>) -> Result<Expression, Stop>
        ensures { Reads (symbol self.now.simple.room the.getchar tokens.old) result tokens.new }
    {
        let place = tokens.expect(key(Word::Getchar))?.place;
        tokens.expect(sign(Mark::OpenParenthesis))?;
        tokens.expect(sign(Mark::CloseParenthesis))?;
        Ok(Expression::Getchar(place))
    }

    #[tactic(auto, using(crate::proofs::Expand::format_and_arguments_is))]
    fn format_and_arguments(
        &self,
        tokens: &mut Cursor<'_>,
    ) -> Result<(Format, Items<Expression>), Stop>
        requires assigns { Nests the.assign self.now.simple.room (A.pre self.now.assign) (A.post self.now.assign) }
        ensures { Reads (symbol self.now.simple.room the.format_and_arguments tokens.old) result tokens.new }
    {
        let text = format(self.simple.alloc, tokens.expect(STRING)?)?;
        let arguments = self.next_arguments(tokens)?;
        Ok((text, arguments))
    }

    #[tactic(auto, using(crate::proofs::Expand::printf_is))]
    fn printf(&self, tokens: &mut Cursor<'_>) -> Result<Expression, Stop>
        requires assigns { Nests the.assign self.now.simple.room (A.pre self.now.assign) (A.post self.now.assign) }
        ensures { Reads (symbol self.now.simple.room the.printf tokens.old) result tokens.new }
    {
        let place = tokens.expect(key(Word::Printf))?.place;
        tokens.expect(sign(Mark::OpenParenthesis))?;
        let (text, arguments) = self.format_and_arguments(tokens)?;
        tokens.expect(sign(Mark::CloseParenthesis))?;
        Ok(Expression::Printf(place, Boxed::new(self.simple.alloc, text)?, arguments))
    }

    #[tactic(auto, using(crate::proofs::Expand::library_call_is))]
    fn library_call(&self, tokens: &mut Cursor<'_>) -> Result<Expression, Stop>
        requires assigns { Nests the.assign self.now.simple.room (A.pre self.now.assign) (A.post self.now.assign) }
        ensures { Reads (symbol self.now.simple.room the.library_call tokens.old) result tokens.new }
    {
        if tokens.sees(key(Word::Putchar)) {
            self.putchar(tokens)
        } else if tokens.sees(key(Word::Getchar)) {
            self.getchar(tokens)
        } else {
            self.printf(tokens)
        }
    }

    #[tactic(auto, using(crate::proofs::Expand::parenthesised_value_is))]
    fn parenthesised_value(&self, tokens: &mut Cursor<'_>) -> Result<Expression, Stop>
        requires assigns { Nests the.assign self.now.simple.room (A.pre self.now.assign) (A.post self.now.assign) }
        ensures { Reads (symbol self.now.simple.room the.parenthesised_value tokens.old) result tokens.new }
    {
        let inner = self.nested_assign(tokens)?;
        tokens.expect(sign(Mark::CloseParenthesis))?;
        Ok(inner)
    }

    #[tactic(auto, using(crate::proofs::Expand::parenthesised_is))]
    fn parenthesised(&self, tokens: &mut Cursor<'_>) -> Result<Expression, Stop>
        requires assigns { Nests the.assign self.now.simple.room (A.pre self.now.assign) (A.post self.now.assign) }
        ensures { Reads (symbol self.now.simple.room the.parenthesised tokens.old) result tokens.new }
    {
        let place = tokens.expect(sign(Mark::OpenParenthesis))?.place;
        let inner = self.parenthesised_value(tokens)?;
        Ok(Expression::Parenthesised(place, Boxed::new(self.simple.alloc, inner)?))
    }

    #[tactic(auto, using(crate::proofs::Expand::primary_is))]
    fn primary(&self, tokens: &mut Cursor<'_>) -> Result<Expression, Stop>
        requires assigns { Nests the.assign self.now.simple.room (A.pre self.now.assign) (A.post self.now.assign) }
        ensures { Reads (symbol self.now.simple.room the.primary tokens.old) result tokens.new }
    {
        if tokens.at(&[NUMBER, CHARACTER]) {
            self.simple.literal(tokens)
        } else if tokens.sees(NAME) {
            self.named(tokens)
        } else if tokens.sees(key(Word::Create)) {
            self.create(tokens)
        } else if tokens.at(&[key(Word::Putchar), key(Word::Getchar), key(Word::Printf)]) {
            self.library_call(tokens)
        } else {
            self.parenthesised(tokens)
        }
    }

    #[tactic(auto, using(crate::proofs::Expand::selection_is))]
    fn selection(&self, tokens: &mut Cursor<'_>) -> Result<Step, Stop>
        requires assigns { Nests the.assign self.now.simple.room (A.pre self.now.assign) (A.post self.now.assign) }
        ensures { Reads (symbol self.now.simple.room the.selection tokens.old) result tokens.new }
    {
        tokens.expect(sign(Mark::Dot))?;
        let name = identifier(self.simple.alloc, tokens.expect(NAME)?)?;
        if tokens.sees(sign(Mark::OpenParenthesis)) {
            let arguments = self.argument_list(tokens)?;
            Ok(Step::Call(Boxed::new(self.simple.alloc, name)?, arguments))
        } else {
            Ok(Step::Field(name))
        }
    }

    #[tactic(auto, using(crate::proofs::Expand::index_value_is))]
    fn index_value(&self, tokens: &mut Cursor<'_>) -> Result<Expression, Stop>
        requires assigns { Nests the.assign self.now.simple.room (A.pre self.now.assign) (A.post self.now.assign) }
        ensures { Reads (symbol self.now.simple.room the.index_value tokens.old) result tokens.new }
    {
        let inner = self.nested_assign(tokens)?;
        tokens.expect(sign(Mark::CloseBracket))?;
        Ok(inner)
    }

    #[tactic(auto, using(crate::proofs::Expand::index_is))]
    fn index(&self, tokens: &mut Cursor<'_>) -> Result<Step, Stop>
        requires assigns { Nests the.assign self.now.simple.room (A.pre self.now.assign) (A.post self.now.assign) }
        ensures { Reads (symbol self.now.simple.room the.index tokens.old) result tokens.new }
    {
        tokens.expect(sign(Mark::OpenBracket))?;
        let inner = self.index_value(tokens)?;
        Ok(Step::Index(Boxed::new(self.simple.alloc, inner)?))
    }

    #[tactic(auto, using(crate::proofs::Expand::step_is))]
    fn step(&self, tokens: &mut Cursor<'_>) -> Result<Step, Stop>
        requires assigns { Nests the.assign self.now.simple.room (A.pre self.now.assign) (A.post self.now.assign) }
        ensures { Reads (symbol self.now.simple.room the.step tokens.old) result tokens.new }
    {
        if tokens.sees(sign(Mark::Dot)) {
            self.selection(tokens)
        } else {
            self.index(tokens)
        }
    }

    #[tactic(auto, unfolding(crate::specs::Turns::from))]
    fn steps(&self, tokens: &mut Cursor<'_>) -> Result<Items<Step>, Stop>
        requires assigns { Nests the.assign self.now.simple.room (A.pre self.now.assign) (A.post self.now.assign) }
        ensures { Reads (loop (symbol self.now.simple.room the.step) (mark_kind mark.Dot ∷ mark_kind mark.OpenBracket ∷ []) (length tokens.old) tokens.old) result tokens.new }
    {
        let mut found = Items::new(self.simple.alloc);
        for _turn in 0..tokens.left() {
            if !tokens.at(&[sign(Mark::Dot), sign(Mark::OpenBracket)]) {
                return Ok(found);
            }
            found.push(self.step(tokens)?)?;
        }
        Ok(found)
    }

    /// Reads an operand with the steps and the suffix behind it.
    #[tactic(auto, using(crate::proofs::Expand::postfix_is))]
    pub fn postfix(&self, tokens: &mut Cursor<'_>) -> Result<Expression, Stop>
        requires assigns { Nests the.assign self.now.simple.room (A.pre self.now.assign) (A.post self.now.assign) }
        ensures read { Reads (symbol self.now.simple.room the.postfix tokens.old) result tokens.new }
    {
        let first = self.primary(tokens)?;
        let steps = self.steps(tokens)?;
        let suffix = self.simple.optional_suffix(tokens)?;
        Ok(postfix(self.simple.alloc, first, steps, suffix)?)
    }
}
