//! Readers of expressions. They take the readers of the phrases within that add to the nesting as parameters, so that each is
//! proved by itself.

ghost use Rattle.cc_grammar.specs.Kinds.{mark_kind};
ghost use Rattle.cc_grammar.specs.Reading.{level, loop, symbol};
ghost use Rattle.cc_grammar.specs.Symbols as the;
ghost use Rattle.cc_lex.specs.declared.token.Mark.TheVariants as mark;
ghost use Rattle.cc_expressions.specs.Nests.{Nests};
ghost use Rattle.cc_expressions.specs.Steps.{Reads};
ghost use Rattle.std.specs.Prelude.{◌∷◌, [], length};

use crate::cursor::{Cursor, Stop, key, sign};
use crate::operands::Operands;
use crate::rows::{choice, conjunction, disjunction, equality, order, stored, sum, term, within};
use crate::starts::{begins_prefix, begins_store};
use cc_grammar::{AssignOperator, EqualityStep, Expression, OrderStep, SumStep, TermStep};
use cc_lex::{Mark, Word};
use sqlite_items::{Boxed, Items};
use std::alloc::Global;

/// The readers of expressions, with those of the expressions within, which add to the nesting.
#[derive(Clone, Copy)]
pub struct Expressions<A, C, U> {
    pub operands: Operands<A>,
    /// Reads what stands behind the `:` of a choice.
    pub conditional: C,
    /// Reads the operand of a prefix operator.
    pub unary: U,
}

impl<
    A: Fn(Global, &mut Cursor<'_>, usize) -> Result<Expression, Stop>,
    C: Fn(Global, &mut Cursor<'_>, usize) -> Result<Expression, Stop>,
    U: Fn(Global, &mut Cursor<'_>, usize) -> Result<Expression, Stop>,
> Expressions<A, C, U> {
    fn nested_assign(&self, tokens: &mut Cursor<'_>) -> Result<Expression, Stop>
        requires assigns { Nests the.assign self.now.operands.simple.room (A.pre self.now.operands.assign) (A.post self.now.operands.assign) }
        ensures { Reads (level self.now.operands.simple.room the.assign tokens.old) result tokens.new }
    {
        self.operands.nested_assign(tokens)
    }

    fn nested_conditional(&self, tokens: &mut Cursor<'_>) -> Result<Expression, Stop>
        requires conditionals { Nests the.conditional self.now.operands.simple.room (C.pre self.now.conditional) (C.post self.now.conditional) }
        ensures { Reads (level self.now.operands.simple.room the.conditional tokens.old) result tokens.new }
    {
        (self.conditional)(
            self.operands.simple.alloc,
            tokens,
            self.operands.simple.room,
        )
    }

    fn nested_unary(&self, tokens: &mut Cursor<'_>) -> Result<Expression, Stop>
        requires unaries { Nests the.unary self.now.operands.simple.room (U.pre self.now.unary) (U.post self.now.unary) }
        ensures { Reads (level self.now.operands.simple.room the.unary tokens.old) result tokens.new }
    {
        (self.unary)(
            self.operands.simple.alloc,
            tokens,
            self.operands.simple.room,
        )
    }

    #[tactic(auto, using(crate::proofs::Expand::prefixed_is))]
    fn prefixed(&self, tokens: &mut Cursor<'_>) -> Result<Expression, Stop>
        requires unaries { Nests the.unary self.now.operands.simple.room (U.pre self.now.unary) (U.post self.now.unary) }
        ensures { Reads (symbol self.now.operands.simple.room the.prefixed tokens.old) result tokens.new }
    {
        let prefix = self.operands.simple.prefix(tokens)?;
        let operand = self.nested_unary(tokens)?;
        Ok(Expression::Prefixed {
            prefix,
            operand: Boxed::new(self.operands.simple.alloc, operand)?,
        })
    }

    /// Reads an operand with the prefix operator before it, if there is one.
    #[tactic(auto, using(crate::proofs::Expand::unary_is))]
    pub fn unary(&self, tokens: &mut Cursor<'_>) -> Result<Expression, Stop>
        requires assigns { Nests the.assign self.now.operands.simple.room (A.pre self.now.operands.assign) (A.post self.now.operands.assign) }
        requires unaries { Nests the.unary self.now.operands.simple.room (U.pre self.now.unary) (U.post self.now.unary) }
        ensures read { Reads (symbol self.now.operands.simple.room the.unary tokens.old) result tokens.new }
    {
        if begins_prefix(tokens) {
            self.prefixed(tokens)
        } else {
            self.operands.postfix(tokens)
        }
    }

    #[tactic(auto, using(crate::proofs::Expand::term_step_is))]
    fn term_step(&self, tokens: &mut Cursor<'_>) -> Result<TermStep, Stop>
        requires assigns { Nests the.assign self.now.operands.simple.room (A.pre self.now.operands.assign) (A.post self.now.operands.assign) }
        requires unaries { Nests the.unary self.now.operands.simple.room (U.pre self.now.unary) (U.post self.now.unary) }
        ensures { Reads (symbol self.now.operands.simple.room the.term_step tokens.old) result tokens.new }
    {
        let operator = self.operands.simple.term_operator(tokens)?;
        let operand = self.unary(tokens)?;
        Ok(TermStep { operator, operand })
    }

    #[tactic(auto, unfolding(crate::specs::Turns::from))]
    fn term_steps(&self, tokens: &mut Cursor<'_>) -> Result<Items<TermStep>, Stop>
        requires assigns { Nests the.assign self.now.operands.simple.room (A.pre self.now.operands.assign) (A.post self.now.operands.assign) }
        requires unaries { Nests the.unary self.now.operands.simple.room (U.pre self.now.unary) (U.post self.now.unary) }
        ensures { Reads (loop (symbol self.now.operands.simple.room the.term_step) (mark_kind mark.Star ∷ mark_kind mark.Slash ∷ mark_kind mark.Percent ∷ []) (length tokens.old) tokens.old) result tokens.new }
    {
        let mut found = Items::new(self.operands.simple.alloc);
        for _turn in 0..tokens.left() {
            if !tokens.at(&[sign(Mark::Star), sign(Mark::Slash), sign(Mark::Percent)]) {
                return Ok(found);
            }
            found.push(self.term_step(tokens)?)?;
        }
        Ok(found)
    }

    #[tactic(auto, using(crate::proofs::Expand::term_is))]
    fn term(&self, tokens: &mut Cursor<'_>) -> Result<Expression, Stop>
        requires assigns { Nests the.assign self.now.operands.simple.room (A.pre self.now.operands.assign) (A.post self.now.operands.assign) }
        requires unaries { Nests the.unary self.now.operands.simple.room (U.pre self.now.unary) (U.post self.now.unary) }
        ensures { Reads (symbol self.now.operands.simple.room the.term tokens.old) result tokens.new }
    {
        let first = self.unary(tokens)?;
        let more = self.term_steps(tokens)?;
        Ok(term(self.operands.simple.alloc, first, more)?)
    }

    #[tactic(auto, using(crate::proofs::Expand::sum_step_is))]
    fn sum_step(&self, tokens: &mut Cursor<'_>) -> Result<SumStep, Stop>
        requires assigns { Nests the.assign self.now.operands.simple.room (A.pre self.now.operands.assign) (A.post self.now.operands.assign) }
        requires unaries { Nests the.unary self.now.operands.simple.room (U.pre self.now.unary) (U.post self.now.unary) }
        ensures { Reads (symbol self.now.operands.simple.room the.sum_step tokens.old) result tokens.new }
    {
        let operator = self.operands.simple.sum_operator(tokens)?;
        let operand = self.term(tokens)?;
        Ok(SumStep { operator, operand })
    }

    #[tactic(auto, unfolding(crate::specs::Turns::from))]
    fn sum_steps(&self, tokens: &mut Cursor<'_>) -> Result<Items<SumStep>, Stop>
        requires assigns { Nests the.assign self.now.operands.simple.room (A.pre self.now.operands.assign) (A.post self.now.operands.assign) }
        requires unaries { Nests the.unary self.now.operands.simple.room (U.pre self.now.unary) (U.post self.now.unary) }
        ensures { Reads (loop (symbol self.now.operands.simple.room the.sum_step) (mark_kind mark.Plus ∷ mark_kind mark.Minus ∷ []) (length tokens.old) tokens.old) result tokens.new }
    {
        let mut found = Items::new(self.operands.simple.alloc);
        for _turn in 0..tokens.left() {
            if !tokens.at(&[sign(Mark::Plus), sign(Mark::Minus)]) {
                return Ok(found);
            }
            found.push(self.sum_step(tokens)?)?;
        }
        Ok(found)
    }

    #[tactic(auto, using(crate::proofs::Expand::sum_is))]
    fn sum(&self, tokens: &mut Cursor<'_>) -> Result<Expression, Stop>
        requires assigns { Nests the.assign self.now.operands.simple.room (A.pre self.now.operands.assign) (A.post self.now.operands.assign) }
        requires unaries { Nests the.unary self.now.operands.simple.room (U.pre self.now.unary) (U.post self.now.unary) }
        ensures { Reads (symbol self.now.operands.simple.room the.sum tokens.old) result tokens.new }
    {
        let first = self.term(tokens)?;
        let more = self.sum_steps(tokens)?;
        Ok(sum(self.operands.simple.alloc, first, more)?)
    }

    #[tactic(auto, using(crate::proofs::Expand::order_step_is))]
    fn order_step(&self, tokens: &mut Cursor<'_>) -> Result<OrderStep, Stop>
        requires assigns { Nests the.assign self.now.operands.simple.room (A.pre self.now.operands.assign) (A.post self.now.operands.assign) }
        requires unaries { Nests the.unary self.now.operands.simple.room (U.pre self.now.unary) (U.post self.now.unary) }
        ensures { Reads (symbol self.now.operands.simple.room the.order_step tokens.old) result tokens.new }
    {
        let operator = self.operands.simple.order_operator(tokens)?;
        let operand = self.sum(tokens)?;
        Ok(OrderStep { operator, operand })
    }

    #[tactic(auto, unfolding(crate::specs::Turns::from))]
    fn order_steps(&self, tokens: &mut Cursor<'_>) -> Result<Items<OrderStep>, Stop>
        requires assigns { Nests the.assign self.now.operands.simple.room (A.pre self.now.operands.assign) (A.post self.now.operands.assign) }
        requires unaries { Nests the.unary self.now.operands.simple.room (U.pre self.now.unary) (U.post self.now.unary) }
        ensures { Reads (loop (symbol self.now.operands.simple.room the.order_step) (mark_kind mark.Less ∷ mark_kind mark.LessEqual ∷ mark_kind mark.Greater ∷ mark_kind mark.GreaterEqual ∷ []) (length tokens.old) tokens.old) result tokens.new }
    {
        let mut found = Items::new(self.operands.simple.alloc);
        for _turn in 0..tokens.left() {
            if !tokens.at(&[
                sign(Mark::Less),
                sign(Mark::LessEqual),
                sign(Mark::Greater),
                sign(Mark::GreaterEqual),
            ]) {
                return Ok(found);
            }
            found.push(self.order_step(tokens)?)?;
        }
        Ok(found)
    }

    #[tactic(auto, using(crate::proofs::Expand::order_is))]
    fn order(&self, tokens: &mut Cursor<'_>) -> Result<Expression, Stop>
        requires assigns { Nests the.assign self.now.operands.simple.room (A.pre self.now.operands.assign) (A.post self.now.operands.assign) }
        requires unaries { Nests the.unary self.now.operands.simple.room (U.pre self.now.unary) (U.post self.now.unary) }
        ensures { Reads (symbol self.now.operands.simple.room the.order tokens.old) result tokens.new }
    {
        let first = self.sum(tokens)?;
        let more = self.order_steps(tokens)?;
        Ok(order(self.operands.simple.alloc, first, more)?)
    }

    #[tactic(auto, using(crate::proofs::Expand::equality_step_is))]
    fn equality_step(&self, tokens: &mut Cursor<'_>) -> Result<EqualityStep, Stop>
        requires assigns { Nests the.assign self.now.operands.simple.room (A.pre self.now.operands.assign) (A.post self.now.operands.assign) }
        requires unaries { Nests the.unary self.now.operands.simple.room (U.pre self.now.unary) (U.post self.now.unary) }
        ensures { Reads (symbol self.now.operands.simple.room the.equality_step tokens.old) result tokens.new }
    {
        let operator = self.operands.simple.equality_operator(tokens)?;
        let operand = self.order(tokens)?;
        Ok(EqualityStep { operator, operand })
    }

    #[tactic(auto, unfolding(crate::specs::Turns::from))]
    fn equality_steps(&self, tokens: &mut Cursor<'_>) -> Result<Items<EqualityStep>, Stop>
        requires assigns { Nests the.assign self.now.operands.simple.room (A.pre self.now.operands.assign) (A.post self.now.operands.assign) }
        requires unaries { Nests the.unary self.now.operands.simple.room (U.pre self.now.unary) (U.post self.now.unary) }
        ensures { Reads (loop (symbol self.now.operands.simple.room the.equality_step) (mark_kind mark.Equal ∷ mark_kind mark.NotEqual ∷ []) (length tokens.old) tokens.old) result tokens.new }
    {
        let mut found = Items::new(self.operands.simple.alloc);
        for _turn in 0..tokens.left() {
            if !tokens.at(&[sign(Mark::Equal), sign(Mark::NotEqual)]) {
                return Ok(found);
            }
            found.push(self.equality_step(tokens)?)?;
        }
        Ok(found)
    }

    #[tactic(auto, using(crate::proofs::Expand::equality_is))]
    fn equality(&self, tokens: &mut Cursor<'_>) -> Result<Expression, Stop>
        requires assigns { Nests the.assign self.now.operands.simple.room (A.pre self.now.operands.assign) (A.post self.now.operands.assign) }
        requires unaries { Nests the.unary self.now.operands.simple.room (U.pre self.now.unary) (U.post self.now.unary) }
        ensures { Reads (symbol self.now.operands.simple.room the.equality tokens.old) result tokens.new }
    {
        let first = self.order(tokens)?;
        let more = self.equality_steps(tokens)?;
        Ok(equality(self.operands.simple.alloc, first, more)?)
    }

    #[tactic(auto, using(crate::proofs::Expand::next_equality_is))]
    fn next_equality(&self, tokens: &mut Cursor<'_>) -> Result<Expression, Stop>
        requires assigns { Nests the.assign self.now.operands.simple.room (A.pre self.now.operands.assign) (A.post self.now.operands.assign) }
        requires unaries { Nests the.unary self.now.operands.simple.room (U.pre self.now.unary) (U.post self.now.unary) }
        ensures { Reads (symbol self.now.operands.simple.room the.next_equality tokens.old) result tokens.new }
    {
        tokens.expect(sign(Mark::And))?;
        self.equality(tokens)
    }

    #[tactic(auto, unfolding(crate::specs::Turns::from))]
    fn next_equalities(&self, tokens: &mut Cursor<'_>) -> Result<Items<Expression>, Stop>
        requires assigns { Nests the.assign self.now.operands.simple.room (A.pre self.now.operands.assign) (A.post self.now.operands.assign) }
        requires unaries { Nests the.unary self.now.operands.simple.room (U.pre self.now.unary) (U.post self.now.unary) }
        ensures { Reads (loop (symbol self.now.operands.simple.room the.next_equality) (mark_kind mark.And ∷ []) (length tokens.old) tokens.old) result tokens.new }
    {
        let mut found = Items::new(self.operands.simple.alloc);
        for _turn in 0..tokens.left() {
            if !tokens.sees(sign(Mark::And)) {
                return Ok(found);
            }
            found.push(self.next_equality(tokens)?)?;
        }
        Ok(found)
    }

    #[tactic(auto, using(crate::proofs::Expand::conjunction_is))]
    fn conjunction(&self, tokens: &mut Cursor<'_>) -> Result<Expression, Stop>
        requires assigns { Nests the.assign self.now.operands.simple.room (A.pre self.now.operands.assign) (A.post self.now.operands.assign) }
        requires unaries { Nests the.unary self.now.operands.simple.room (U.pre self.now.unary) (U.post self.now.unary) }
        ensures { Reads (symbol self.now.operands.simple.room the.conjunction tokens.old) result tokens.new }
    {
        let first = self.equality(tokens)?;
        let more = self.next_equalities(tokens)?;
        Ok(conjunction(self.operands.simple.alloc, first, more)?)
    }

    #[tactic(auto, using(crate::proofs::Expand::next_conjunction_is))]
    fn next_conjunction(&self, tokens: &mut Cursor<'_>) -> Result<Expression, Stop>
        requires assigns { Nests the.assign self.now.operands.simple.room (A.pre self.now.operands.assign) (A.post self.now.operands.assign) }
        requires unaries { Nests the.unary self.now.operands.simple.room (U.pre self.now.unary) (U.post self.now.unary) }
        ensures { Reads (symbol self.now.operands.simple.room the.next_conjunction tokens.old) result tokens.new }
    {
        tokens.expect(sign(Mark::Or))?;
        self.conjunction(tokens)
    }

    #[tactic(auto, unfolding(crate::specs::Turns::from))]
    fn next_conjunctions(&self, tokens: &mut Cursor<'_>) -> Result<Items<Expression>, Stop>
        requires assigns { Nests the.assign self.now.operands.simple.room (A.pre self.now.operands.assign) (A.post self.now.operands.assign) }
        requires unaries { Nests the.unary self.now.operands.simple.room (U.pre self.now.unary) (U.post self.now.unary) }
        ensures { Reads (loop (symbol self.now.operands.simple.room the.next_conjunction) (mark_kind mark.Or ∷ []) (length tokens.old) tokens.old) result tokens.new }
    {
        let mut found = Items::new(self.operands.simple.alloc);
        for _turn in 0..tokens.left() {
            if !tokens.sees(sign(Mark::Or)) {
                return Ok(found);
            }
            found.push(self.next_conjunction(tokens)?)?;
        }
        Ok(found)
    }

    #[tactic(auto, using(crate::proofs::Expand::disjunction_is))]
    fn disjunction(&self, tokens: &mut Cursor<'_>) -> Result<Expression, Stop>
        requires assigns { Nests the.assign self.now.operands.simple.room (A.pre self.now.operands.assign) (A.post self.now.operands.assign) }
        requires unaries { Nests the.unary self.now.operands.simple.room (U.pre self.now.unary) (U.post self.now.unary) }
        ensures { Reads (symbol self.now.operands.simple.room the.disjunction tokens.old) result tokens.new }
    {
        let first = self.conjunction(tokens)?;
        let more = self.next_conjunctions(tokens)?;
        Ok(disjunction(self.operands.simple.alloc, first, more)?)
    }

    #[tactic(auto, using(crate::proofs::Expand::then_arm_is))]
    fn then_arm(&self, tokens: &mut Cursor<'_>) -> Result<Expression, Stop>
        requires assigns { Nests the.assign self.now.operands.simple.room (A.pre self.now.operands.assign) (A.post self.now.operands.assign) }
        ensures { Reads (symbol self.now.operands.simple.room the.then_arm tokens.old) result tokens.new }
    {
        tokens.expect(sign(Mark::Question))?;
        let then = self.nested_assign(tokens)?;
        tokens.expect(sign(Mark::Colon))?;
        Ok(then)
    }

    #[tactic(auto, using(crate::proofs::Expand::arms_is))]
    fn arms(&self, tokens: &mut Cursor<'_>) -> Result<(Expression, Expression), Stop>
        requires assigns { Nests the.assign self.now.operands.simple.room (A.pre self.now.operands.assign) (A.post self.now.operands.assign) }
        requires conditionals { Nests the.conditional self.now.operands.simple.room (C.pre self.now.conditional) (C.post self.now.conditional) }
        ensures { Reads (symbol self.now.operands.simple.room the.arms tokens.old) result tokens.new }
    {
        let then = self.then_arm(tokens)?;
        let otherwise = self.nested_conditional(tokens)?;
        Ok((then, otherwise))
    }

    /// Reads an expression without `=`: a row of operators, with the two arms of a choice behind it, if there are any.
    #[tactic(auto, using(crate::proofs::Expand::conditional_is))]
    pub fn conditional(&self, tokens: &mut Cursor<'_>) -> Result<Expression, Stop>
        requires assigns { Nests the.assign self.now.operands.simple.room (A.pre self.now.operands.assign) (A.post self.now.operands.assign) }
        requires conditionals { Nests the.conditional self.now.operands.simple.room (C.pre self.now.conditional) (C.post self.now.conditional) }
        requires unaries { Nests the.unary self.now.operands.simple.room (U.pre self.now.unary) (U.post self.now.unary) }
        ensures read { Reads (symbol self.now.operands.simple.room the.conditional tokens.old) result tokens.new }
    {
        let condition = self.disjunction(tokens)?;
        if tokens.sees(sign(Mark::Question)) {
            let (then, otherwise) = self.arms(tokens)?;
            Ok(choice(self.operands.simple.alloc, condition, then, otherwise)?)
        } else {
            Ok(condition)
        }
    }

    #[tactic(auto, using(crate::proofs::Expand::store_is))]
    fn store(&self, tokens: &mut Cursor<'_>) -> Result<(AssignOperator, Expression), Stop>
        requires assigns { Nests the.assign self.now.operands.simple.room (A.pre self.now.operands.assign) (A.post self.now.operands.assign) }
        ensures { Reads (symbol self.now.operands.simple.room the.store tokens.old) result tokens.new }
    {
        let operator = self.operands.simple.assign_operator(tokens)?;
        let value = self.nested_assign(tokens)?;
        Ok((operator, value))
    }

    #[tactic(auto, using(crate::proofs::Expand::untimed_is))]
    fn untimed(&self, tokens: &mut Cursor<'_>) -> Result<Expression, Stop>
        requires assigns { Nests the.assign self.now.operands.simple.room (A.pre self.now.operands.assign) (A.post self.now.operands.assign) }
        requires conditionals { Nests the.conditional self.now.operands.simple.room (C.pre self.now.conditional) (C.post self.now.conditional) }
        requires unaries { Nests the.unary self.now.operands.simple.room (U.pre self.now.unary) (U.post self.now.unary) }
        ensures { Reads (symbol self.now.operands.simple.room the.untimed tokens.old) result tokens.new }
    {
        let target = self.conditional(tokens)?;
        if begins_store(tokens) {
            let (operator, value) = self.store(tokens)?;
            Ok(stored(self.operands.simple.alloc, target, operator, value)?)
        } else {
            Ok(target)
        }
    }

    #[tactic(auto, using(crate::proofs::Expand::wait_is))]
    fn wait(&self, tokens: &mut Cursor<'_>) -> Result<Expression, Stop>
        requires assigns { Nests the.assign self.now.operands.simple.room (A.pre self.now.operands.assign) (A.post self.now.operands.assign) }
        requires unaries { Nests the.unary self.now.operands.simple.room (U.pre self.now.unary) (U.post self.now.unary) }
        ensures { Reads (symbol self.now.operands.simple.room the.wait tokens.old) result tokens.new }
    {
        let wait = self.disjunction(tokens)?;
        tokens.expect(sign(Mark::Question))?;
        Ok(wait)
    }

    #[tactic(auto, using(crate::proofs::Expand::timed_postfix_is))]
    fn timed_postfix(&self, tokens: &mut Cursor<'_>) -> Result<Expression, Stop>
        requires assigns { Nests the.assign self.now.operands.simple.room (A.pre self.now.operands.assign) (A.post self.now.operands.assign) }
        ensures { Reads (symbol self.now.operands.simple.room the.timed_postfix tokens.old) result tokens.new }
    {
        let call = self.operands.postfix(tokens)?;
        tokens.expect(sign(Mark::Colon))?;
        Ok(call)
    }

    #[tactic(auto, using(crate::proofs::Expand::timed_rest_is))]
    fn timed_rest(
        &self,
        tokens: &mut Cursor<'_>,
    ) -> Result<(Expression, Expression, Expression), Stop>
        requires assigns { Nests the.assign self.now.operands.simple.room (A.pre self.now.operands.assign) (A.post self.now.operands.assign) }
        requires unaries { Nests the.unary self.now.operands.simple.room (U.pre self.now.unary) (U.post self.now.unary) }
        ensures { Reads (symbol self.now.operands.simple.room the.timed_rest tokens.old) result tokens.new }
    {
        let wait = self.wait(tokens)?;
        let call = self.timed_postfix(tokens)?;
        let otherwise = self.nested_assign(tokens)?;
        Ok((wait, call, otherwise))
    }

    #[tactic(auto, using(crate::proofs::Expand::timed_is))]
    fn timed(&self, tokens: &mut Cursor<'_>) -> Result<Expression, Stop>
        requires assigns { Nests the.assign self.now.operands.simple.room (A.pre self.now.operands.assign) (A.post self.now.operands.assign) }
        requires unaries { Nests the.unary self.now.operands.simple.room (U.pre self.now.unary) (U.post self.now.unary) }
        ensures { Reads (symbol self.now.operands.simple.room the.timed tokens.old) result tokens.new }
    {
        let place = tokens.expect(key(Word::Within))?.place;
        let (wait, call, otherwise) = self.timed_rest(tokens)?;
        Ok(within(self.operands.simple.alloc, place, wait, call, otherwise)?)
    }

    /// Reads an expression.
    #[tactic(auto, using(crate::proofs::Expand::assign_is))]
    pub fn assign(&self, tokens: &mut Cursor<'_>) -> Result<Expression, Stop>
        requires assigns { Nests the.assign self.now.operands.simple.room (A.pre self.now.operands.assign) (A.post self.now.operands.assign) }
        requires conditionals { Nests the.conditional self.now.operands.simple.room (C.pre self.now.conditional) (C.post self.now.conditional) }
        requires unaries { Nests the.unary self.now.operands.simple.room (U.pre self.now.unary) (U.post self.now.unary) }
        ensures read { Reads (symbol self.now.operands.simple.room the.assign tokens.old) result tokens.new }
    {
        if tokens.sees(key(Word::Within)) {
            self.timed(tokens)
        } else {
            self.untimed(tokens)
        }
    }
}
