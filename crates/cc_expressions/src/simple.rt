//! Readers of phrases that hold no other: operators and literals.

ghost use Rattle.cc_grammar.specs.Reading.{symbol};
ghost use Rattle.cc_grammar.specs.Symbols as the;
ghost use Rattle.cc_expressions.specs.Steps.{Reads};

use crate::cursor::{CHARACTER, Cursor, NUMBER, Stop, sign};
use crate::leaves::{character, number};
use cc_grammar::{
    AssignOperator, EqualityOperator, Expression, OrderOperator, Prefix, PrefixOperator,
    SuffixOperator, SumOperator, TermOperator,
};
use cc_lex::Mark;
use std::alloc::Global;

/// What each reader is given.
#[derive(Clone, Copy)]
pub struct Simple {
    pub alloc: Global,
    /// How many more phrases that add to the nesting may be open.
    pub room: usize,
}

impl Simple {
    /// Reads `=`, or an operator with `=`.
    #[tactic(auto, using(crate::proofs::Expand::assign_operator_is))]
    pub fn assign_operator(&self, tokens: &mut Cursor<'_>) -> Result<AssignOperator, Stop>
        ensures read { Reads (symbol self.now.room the.assign_operator tokens.old) result tokens.new }
    {
        if tokens.sees(sign(Mark::Assign)) {
            tokens.expect(sign(Mark::Assign))?;
            Ok(AssignOperator::Set)
        } else if tokens.sees(sign(Mark::PlusAssign)) {
            tokens.expect(sign(Mark::PlusAssign))?;
            Ok(AssignOperator::Add)
        } else if tokens.sees(sign(Mark::MinusAssign)) {
            tokens.expect(sign(Mark::MinusAssign))?;
            Ok(AssignOperator::Subtract)
        } else if tokens.sees(sign(Mark::StarAssign)) {
            tokens.expect(sign(Mark::StarAssign))?;
            Ok(AssignOperator::Multiply)
        } else if tokens.sees(sign(Mark::SlashAssign)) {
            tokens.expect(sign(Mark::SlashAssign))?;
            Ok(AssignOperator::Divide)
        } else {
            tokens.expect(sign(Mark::PercentAssign))?;
            Ok(AssignOperator::Remainder)
        }
    }

    /// Reads `==` or `!=`.
    #[tactic(auto, using(crate::proofs::Expand::equality_operator_is))]
    pub fn equality_operator(&self, tokens: &mut Cursor<'_>) -> Result<EqualityOperator, Stop>
        ensures read { Reads (symbol self.now.room the.equality_operator tokens.old) result tokens.new }
    {
        if tokens.sees(sign(Mark::Equal)) {
            tokens.expect(sign(Mark::Equal))?;
            Ok(EqualityOperator::Equal)
        } else {
            tokens.expect(sign(Mark::NotEqual))?;
            Ok(EqualityOperator::NotEqual)
        }
    }

    /// Reads `<`, `<=`, `>` or `>=`.
    #[tactic(auto, using(crate::proofs::Expand::order_operator_is))]
    pub fn order_operator(&self, tokens: &mut Cursor<'_>) -> Result<OrderOperator, Stop>
        ensures read { Reads (symbol self.now.room the.order_operator tokens.old) result tokens.new }
    {
        if tokens.sees(sign(Mark::Less)) {
            tokens.expect(sign(Mark::Less))?;
            Ok(OrderOperator::Less)
        } else if tokens.sees(sign(Mark::LessEqual)) {
            tokens.expect(sign(Mark::LessEqual))?;
            Ok(OrderOperator::LessEqual)
        } else if tokens.sees(sign(Mark::Greater)) {
            tokens.expect(sign(Mark::Greater))?;
            Ok(OrderOperator::Greater)
        } else {
            tokens.expect(sign(Mark::GreaterEqual))?;
            Ok(OrderOperator::GreaterEqual)
        }
    }

    /// Reads `+` or `-`.
    #[tactic(auto, using(crate::proofs::Expand::sum_operator_is))]
    pub fn sum_operator(&self, tokens: &mut Cursor<'_>) -> Result<SumOperator, Stop>
        ensures read { Reads (symbol self.now.room the.sum_operator tokens.old) result tokens.new }
    {
        if tokens.sees(sign(Mark::Plus)) {
            tokens.expect(sign(Mark::Plus))?;
            Ok(SumOperator::Plus)
        } else {
            tokens.expect(sign(Mark::Minus))?;
            Ok(SumOperator::Minus)
        }
    }

    /// Reads `*`, `/` or `%`.
    #[tactic(auto, using(crate::proofs::Expand::term_operator_is))]
    pub fn term_operator(&self, tokens: &mut Cursor<'_>) -> Result<TermOperator, Stop>
        ensures read { Reads (symbol self.now.room the.term_operator tokens.old) result tokens.new }
    {
        if tokens.sees(sign(Mark::Star)) {
            tokens.expect(sign(Mark::Star))?;
            Ok(TermOperator::Times)
        } else if tokens.sees(sign(Mark::Slash)) {
            tokens.expect(sign(Mark::Slash))?;
            Ok(TermOperator::Divide)
        } else {
            tokens.expect(sign(Mark::Percent))?;
            Ok(TermOperator::Remainder)
        }
    }

    /// Reads a prefix operator.
    #[tactic(auto, using(crate::proofs::Expand::prefix_is))]
    pub fn prefix(&self, tokens: &mut Cursor<'_>) -> Result<Prefix, Stop>
        ensures read { Reads (symbol self.now.room the.prefix tokens.old) result tokens.new }
    {
        if tokens.sees(sign(Mark::Minus)) {
            let place = tokens.expect(sign(Mark::Minus))?.place;
            Ok(Prefix {
                place,
                operator: PrefixOperator::Minus,
            })
        } else if tokens.sees(sign(Mark::Plus)) {
            let place = tokens.expect(sign(Mark::Plus))?.place;
            Ok(Prefix {
                place,
                operator: PrefixOperator::Plus,
            })
        } else if tokens.sees(sign(Mark::Not)) {
            let place = tokens.expect(sign(Mark::Not))?.place;
            Ok(Prefix {
                place,
                operator: PrefixOperator::Not,
            })
        } else if tokens.sees(sign(Mark::Increment)) {
            let place = tokens.expect(sign(Mark::Increment))?.place;
            Ok(Prefix {
                place,
                operator: PrefixOperator::Increment,
            })
        } else {
            let place = tokens.expect(sign(Mark::Decrement))?.place;
            Ok(Prefix {
                place,
                operator: PrefixOperator::Decrement,
            })
        }
    }

    #[tactic(auto, using(crate::proofs::Expand::suffix_is))]
    fn suffix(&self, tokens: &mut Cursor<'_>) -> Result<SuffixOperator, Stop>
        ensures { Reads (symbol self.now.room the.suffix tokens.old) result tokens.new }
    {
        if tokens.sees(sign(Mark::Increment)) {
            tokens.expect(sign(Mark::Increment))?;
            Ok(SuffixOperator::Increment)
        } else {
            tokens.expect(sign(Mark::Decrement))?;
            Ok(SuffixOperator::Decrement)
        }
    }

    /// Reads `++` or `--`, or nothing where neither stands.
    #[tactic(auto, using(crate::proofs::Expand::optional_suffix_is))]
    pub fn optional_suffix(&self, tokens: &mut Cursor<'_>) -> Result<Option<SuffixOperator>, Stop>
        ensures read { Reads (symbol self.now.room the.optional_suffix tokens.old) result tokens.new }
    {
        if tokens.at(&[sign(Mark::Increment), sign(Mark::Decrement)]) {
            let suffix = self.suffix(tokens)?;
            Ok(Some(suffix))
        } else {
            Ok(None)
        }
    }

    /// Reads a number or a character.
    #[tactic(auto, using(crate::proofs::Expand::literal_is))]
    pub fn literal(&self, tokens: &mut Cursor<'_>) -> Result<Expression, Stop>
        ensures read { Reads (symbol self.now.room the.literal tokens.old) result tokens.new }
    {
        if tokens.sees(NUMBER) {
            Ok(number(tokens.expect(NUMBER)?))
        } else {
            Ok(character(tokens.expect(CHARACTER)?))
        }
    }
}
