//! What is made of the parts of an expression.

ghost use Rattle.cc_grammar.specs.Trees as trees;
ghost use Rattle.cc_grammar.specs.declared.tree.Expression.TheVariants as expression;
ghost use Rattle.std.specs.Prelude.{◌≡◌, IfOk};

use cc_base::Place;
use cc_grammar::{
    AssignOperator, EqualityStep, Expression, OrderStep, Step, SuffixOperator, SumStep, TermStep,
};
use sqlite_items::{Boxed, Items};
use std::alloc::{AllocError, Global};

/// Operands with `||` between them; an operand alone is itself.
pub fn disjunction(
    alloc: Global,
    first: Expression,
    more: Items<Expression>,
) -> Result<Expression, AllocError>
    ensures made { IfOk result (λ x. x ≡ trees.disjunction_of first more) }
{
    if more.is_empty() {
        return Ok(first);
    }
    let first = Boxed::new(alloc, first)?;
    Ok(Expression::Disjunction { first, more })
}

/// Operands with `&&` between them; an operand alone is itself.
pub fn conjunction(
    alloc: Global,
    first: Expression,
    more: Items<Expression>,
) -> Result<Expression, AllocError>
    ensures made { IfOk result (λ x. x ≡ trees.conjunction_of first more) }
{
    if more.is_empty() {
        return Ok(first);
    }
    let first = Boxed::new(alloc, first)?;
    Ok(Expression::Conjunction { first, more })
}

/// Operands with `==` and `!=` between them; an operand alone is itself.
pub fn equality(
    alloc: Global,
    first: Expression,
    more: Items<EqualityStep>,
) -> Result<Expression, AllocError>
    ensures made { IfOk result (λ x. x ≡ trees.equality_of first more) }
{
    if more.is_empty() {
        return Ok(first);
    }
    let first = Boxed::new(alloc, first)?;
    Ok(Expression::Equality { first, more })
}

/// Operands with `<`, `<=`, `>` and `>=` between them; an operand alone is itself.
pub fn order(
    alloc: Global,
    first: Expression,
    more: Items<OrderStep>,
) -> Result<Expression, AllocError>
    ensures made { IfOk result (λ x. x ≡ trees.order_of first more) }
{
    if more.is_empty() {
        return Ok(first);
    }
    let first = Boxed::new(alloc, first)?;
    Ok(Expression::Order { first, more })
}

/// Operands with `+` and `-` between them; an operand alone is itself.
pub fn sum(alloc: Global, first: Expression, more: Items<SumStep>) -> Result<Expression, AllocError>
    ensures made { IfOk result (λ x. x ≡ trees.sum_of first more) }
{
    if more.is_empty() {
        return Ok(first);
    }
    let first = Boxed::new(alloc, first)?;
    Ok(Expression::Sum { first, more })
}

/// Operands with `*`, `/` and `%` between them; an operand alone is itself.
pub fn term(
    alloc: Global,
    first: Expression,
    more: Items<TermStep>,
) -> Result<Expression, AllocError>
    ensures made { IfOk result (λ x. x ≡ trees.term_of first more) }
{
    if more.is_empty() {
        return Ok(first);
    }
    let first = Boxed::new(alloc, first)?;
    Ok(Expression::Term { first, more })
}

/// An operand with steps and a suffix behind it; without any it is itself.
pub fn postfix(
    alloc: Global,
    first: Expression,
    steps: Items<Step>,
    suffix: Option<SuffixOperator>,
) -> Result<Expression, AllocError>
    ensures made { IfOk result (λ x. x ≡ trees.postfix_of first steps suffix) }
{
    if steps.is_empty() && suffix.is_none() {
        return Ok(first);
    }
    let first = Boxed::new(alloc, first)?;
    Ok(Expression::Postfix {
        first,
        steps,
        suffix,
    })
}

/// `condition ? then : otherwise`.
pub fn choice(
    alloc: Global,
    condition: Expression,
    then: Expression,
    otherwise: Expression,
) -> Result<Expression, AllocError>
    ensures made { IfOk result (λ x. x ≡ expression.Choice condition then otherwise) }
{
    let condition = Boxed::new(alloc, condition)?;
    let then = Boxed::new(alloc, then)?;
    let otherwise = Boxed::new(alloc, otherwise)?;
    Ok(Expression::Choice {
        condition,
        then,
        otherwise,
    })
}

/// A value that is stored by `=` or by an operator with `=`.
pub fn stored(
    alloc: Global,
    target: Expression,
    operator: AssignOperator,
    value: Expression,
) -> Result<Expression, AllocError>
    ensures made { IfOk result (λ x. x ≡ expression.Store target operator value) }
{
    let target = Boxed::new(alloc, target)?;
    let value = Boxed::new(alloc, value)?;
    Ok(Expression::Store {
        target,
        operator,
        value,
    })
}

/// `within (wait) call otherwise`.
pub fn within(
    alloc: Global,
    place: Place,
    wait: Expression,
    call: Expression,
    otherwise: Expression,
) -> Result<Expression, AllocError>
    ensures made { IfOk result (λ x. x ≡ expression.Within place wait call otherwise) }
{
    let wait = Boxed::new(alloc, wait)?;
    let call = Boxed::new(alloc, call)?;
    let otherwise = Boxed::new(alloc, otherwise)?;
    Ok(Expression::Within {
        place,
        wait,
        call,
        otherwise,
    })
}
