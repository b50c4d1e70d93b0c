//! The plain expressions of a text.

ghost use Rattle.std.specs.Prelude.{◌≡◌, IfOk, map};
ghost use Rattle.cc_faults.specs.declared.plain.Phrase.TheVariants as plain;
ghost use Rattle.cc_faults.specs.declared.plain.Step.TheVariants as plain_step;
ghost use Rattle.cc_names.specs.PlainLists.{equality_step, order_step, sum_step, term_step};
ghost use Rattle.cc_names.specs.Plains as spec;

use crate::mentions::Numbers;
use cc_base::{Comparison, Memory, NumberType, Operator, Place};
use cc_faults::{Compared, Format, Identifier, Operation, Phrase, Step, StepWord};
use cc_grammar as tree;
use cc_grammar::{
    AssignOperator, EqualityOperator, EqualityStep, Expression, OrderOperator, OrderStep,
    PrefixOperator, SuffixOperator, SumOperator, SumStep, TermOperator, TermStep,
};
use cc_lex::Size;
use sqlite_items::{Boxed, Items};
use std::alloc::Global;

pub(crate) fn identifier(numbers: &Numbers, x: &tree::Identifier) -> Result<Identifier, Memory>
    ensures { IfOk result (λ y. y ≡ spec.identifier numbers.now.names numbers.now.formats x.now) }
{
    let name = numbers.names.number(x.name.as_slice())?;
    Ok(Identifier {
        place: x.place,
        name,
    })
}

fn format(numbers: &Numbers, f: &tree::Format) -> Result<Format, Memory>
    ensures { IfOk result (λ y. y ≡ spec.format numbers.now.names numbers.now.formats f.now) }
{
    let number = numbers.formats.number(f.bytes.as_slice())?;
    Ok(Format {
        place: f.place,
        number,
    })
}

fn term_operation(o: TermOperator) -> Operator
    ensures { result ≡ spec.term_operation o }
{
    match o {
        TermOperator::Times => Operator::Multiply,
        TermOperator::Divide => Operator::Divide,
        TermOperator::Remainder => Operator::Remainder,
    }
}

fn sum_operation(o: SumOperator) -> Operator
    ensures { result ≡ spec.sum_operation o }
{
    match o {
        SumOperator::Plus => Operator::Add,
        SumOperator::Minus => Operator::Subtract,
    }
}

fn order_comparison(o: OrderOperator) -> Comparison
    ensures { result ≡ spec.order_comparison o }
{
    match o {
        OrderOperator::Less => Comparison::Less,
        OrderOperator::LessEqual => Comparison::AtMost,
        OrderOperator::Greater => Comparison::Greater,
        OrderOperator::GreaterEqual => Comparison::AtLeast,
    }
}

fn equality_comparison(o: EqualityOperator) -> Comparison
    ensures { result ≡ spec.equality_comparison o }
{
    match o {
        EqualityOperator::Equal => Comparison::Equal,
        EqualityOperator::NotEqual => Comparison::Different,
    }
}

fn number_type(size: Size) -> NumberType
    ensures { result ≡ spec.number_type size }
{
    match size {
        Size::Int => NumberType::Int,
        Size::Long => NumberType::Long,
    }
}

fn prefixed_by(place: Place, operator: PrefixOperator, operand: Boxed<Phrase>) -> Phrase
    ensures { result ≡ spec.prefixed_by place operator operand }
{
    match operator {
        PrefixOperator::Minus => Phrase::Negate { place, operand },
        PrefixOperator::Plus => Phrase::Plus { place, operand },
        PrefixOperator::Not => Phrase::Not { place, operand },
        PrefixOperator::Increment => Phrase::StepBefore {
            place,
            word: StepWord::Up,
            target: operand,
        },
        PrefixOperator::Decrement => Phrase::StepBefore {
            place,
            word: StepWord::Down,
            target: operand,
        },
    }
}

fn storing(target: Boxed<Phrase>, operator: AssignOperator, value: Boxed<Phrase>) -> Phrase
    ensures { result ≡ spec.storing target operator value }
{
    match operator {
        AssignOperator::Set => Phrase::Assign { target, value },
        AssignOperator::Add => Phrase::Update {
            target,
            operator: Operator::Add,
            value,
        },
        AssignOperator::Subtract => Phrase::Update {
            target,
            operator: Operator::Subtract,
            value,
        },
        AssignOperator::Multiply => Phrase::Update {
            target,
            operator: Operator::Multiply,
            value,
        },
        AssignOperator::Divide => Phrase::Update {
            target,
            operator: Operator::Divide,
            value,
        },
        AssignOperator::Remainder => Phrase::Update {
            target,
            operator: Operator::Remainder,
            value,
        },
    }
}

fn chain(alloc: Global, first: Boxed<Phrase>, steps: Items<Step>) -> Result<Boxed<Phrase>, Memory>
    ensures { IfOk result (λ p. p ≡ spec.chain first steps) }
{
    if steps.is_empty() {
        return Ok(first);
    }
    Ok(Boxed::new(alloc, Phrase::Chain { first, steps })?)
}

fn suffixed(target: Boxed<Phrase>, suffix: Option<SuffixOperator>) -> Phrase
    ensures { result ≡ spec.suffixed target suffix }
{
    match suffix {
        None => target.into_inner(),
        Some(SuffixOperator::Increment) => Phrase::StepAfter {
            target,
            word: StepWord::Up,
        },
        Some(SuffixOperator::Decrement) => Phrase::StepAfter {
            target,
            word: StepWord::Down,
        },
    }
}

fn chained(
    alloc: Global,
    first: Boxed<Phrase>,
    steps: Items<Step>,
    suffix: Option<SuffixOperator>,
) -> Result<Phrase, Memory>
    ensures { IfOk result (λ p. p ≡ spec.suffixed (spec.chain first steps) suffix) }
{
    let target = chain(alloc, first, steps)?;
    Ok(suffixed(target, suffix))
}

fn call_of(numbers: &Numbers, x: &tree::Identifier, args: Items<Phrase>) -> Result<Phrase, Memory>
    ensures { IfOk result (λ p. p ≡ plain.Call (spec.identifier numbers.now.names numbers.now.formats x.now) args) }
{
    let name = identifier(numbers, x)?;
    Ok(Phrase::Call { name, args })
}

fn create_of(
    numbers: &Numbers,
    place: Place,
    x: &tree::Identifier,
    args: Items<Phrase>,
) -> Result<Phrase, Memory>
    ensures { IfOk result (λ p. p ≡ plain.Create place (spec.identifier numbers.now.names numbers.now.formats x.now) args) }
{
    let name = identifier(numbers, x)?;
    Ok(Phrase::Create { place, name, args })
}

fn print_of(
    numbers: &Numbers,
    place: Place,
    f: &tree::Format,
    args: Items<Phrase>,
) -> Result<Phrase, Memory>
    ensures { IfOk result (λ p. p ≡ plain.PrintFormat place (spec.format numbers.now.names numbers.now.formats f.now) args) }
{
    let format = format(numbers, f)?;
    Ok(Phrase::PrintFormat {
        place,
        format,
        args,
    })
}

fn step_call_of(
    numbers: &Numbers,
    x: &tree::Identifier,
    args: Items<Phrase>,
) -> Result<Step, Memory>
    ensures { IfOk result (λ p. p ≡ plain_step.Call (spec.identifier numbers.now.names numbers.now.formats x.now) args) }
{
    let name = identifier(numbers, x)?;
    Ok(Step::Call { name, args })
}

/// The plain expression of an expression.
#[cycle(phrases)]
#[tactic(auto, using(crate::proofs::PlainRows::plain_phrases))]
pub(crate) fn phrase(alloc: Global, numbers: &Numbers, e: &Expression) -> Result<Phrase, Memory>
    ensures { IfOk result (λ p. p ≡ spec.plain_expression numbers.now.names numbers.now.formats e.now) }
{
    match e {
        Expression::Within {
            place,
            wait,
            call,
            otherwise,
        } => {
            let wait = boxed(alloc, numbers, wait.get())?;
            let middle = boxed(alloc, numbers, call.get())?;
            let otherwise = boxed(alloc, numbers, otherwise.get())?;
            Ok(Phrase::Within {
                place: *place,
                wait,
                middle,
                otherwise,
            })
        }
        Expression::Store {
            target,
            operator,
            value,
        } => {
            let target = boxed(alloc, numbers, target.get())?;
            let value = boxed(alloc, numbers, value.get())?;
            Ok(storing(target, *operator, value))
        }
        Expression::Choice {
            condition,
            then,
            otherwise,
        } => {
            let condition = boxed(alloc, numbers, condition.get())?;
            let yes = boxed(alloc, numbers, then.get())?;
            let no = boxed(alloc, numbers, otherwise.get())?;
            Ok(Phrase::Choose { condition, yes, no })
        }
        Expression::Disjunction { first, more } => {
            let first = boxed(alloc, numbers, first.get())?;
            let rest = phrases(alloc, numbers, more.as_slice())?;
            Ok(Phrase::Either { first, rest })
        }
        Expression::Conjunction { first, more } => {
            let first = boxed(alloc, numbers, first.get())?;
            let rest = phrases(alloc, numbers, more.as_slice())?;
            Ok(Phrase::Both { first, rest })
        }
        Expression::Equality { first, more } => {
            let first = boxed(alloc, numbers, first.get())?;
            let rest = equalities(alloc, numbers, more.as_slice())?;
            Ok(Phrase::Compare { first, rest })
        }
        Expression::Order { first, more } => {
            let first = boxed(alloc, numbers, first.get())?;
            let rest = orders(alloc, numbers, more.as_slice())?;
            Ok(Phrase::Compare { first, rest })
        }
        Expression::Sum { first, more } => {
            let first = boxed(alloc, numbers, first.get())?;
            let rest = sums(alloc, numbers, more.as_slice())?;
            Ok(Phrase::Arithmetic { first, rest })
        }
        Expression::Term { first, more } => {
            let first = boxed(alloc, numbers, first.get())?;
            let rest = terms(alloc, numbers, more.as_slice())?;
            Ok(Phrase::Arithmetic { first, rest })
        }
        Expression::Prefixed { prefix, operand } => {
            let operand = boxed(alloc, numbers, operand.get())?;
            Ok(prefixed_by(prefix.place, prefix.operator, operand))
        }
        Expression::Postfix {
            first,
            steps,
            suffix,
        } => {
            let first = boxed(alloc, numbers, first.get())?;
            let steps = plain_steps(alloc, numbers, steps.as_slice())?;
            chained(alloc, first, steps, *suffix)
        }
        Expression::Number { place, value, size } => Ok(Phrase::Number {
            place: *place,
            value: *value,
            number_type: number_type(*size),
        }),
        Expression::Character { place, value } => Ok(Phrase::Number {
            place: *place,
            value: *value as i64,
            number_type: NumberType::Int,
        }),
        Expression::Name(x) => name(numbers, x),
        Expression::Call(x, args) => {
            let args = phrases(alloc, numbers, args.as_slice())?;
            call_of(numbers, x.get(), args)
        }
        Expression::Create(place, x, args) => {
            let args = phrases(alloc, numbers, args.as_slice())?;
            create_of(numbers, *place, x.get(), args)
        }
        Expression::Putchar(place, e) => {
            let value = boxed(alloc, numbers, e.get())?;
            Ok(Phrase::PutChar {
                place: *place,
                value,
            })
        }
        Expression::Getchar(place) => Ok(Phrase::GetChar(*place)),
        Expression::Printf(place, f, args) => {
            let args = phrases(alloc, numbers, args.as_slice())?;
            print_of(numbers, *place, f.get(), args)
        }
        Expression::Parenthesised(place, e) => {
            let operand = boxed(alloc, numbers, e.get())?;
            Ok(Phrase::Parenthesized {
                place: *place,
                operand,
            })
        }
    }
}

#[cycle(phrases)]
#[tactic(auto, using(crate::proofs::PlainRows::plain_phrases))]
fn boxed(alloc: Global, numbers: &Numbers, e: &Expression) -> Result<Boxed<Phrase>, Memory>
    ensures { IfOk result (λ p. p ≡ spec.plain_expression numbers.now.names numbers.now.formats e.now) }
{
    let p = phrase(alloc, numbers, e)?;
    Ok(Boxed::new(alloc, p)?)
}

fn name(numbers: &Numbers, x: &tree::Identifier) -> Result<Phrase, Memory>
    ensures { IfOk result (λ p. p ≡ plain.Name (spec.identifier numbers.now.names numbers.now.formats x.now)) }
{
    Ok(Phrase::Name(identifier(numbers, x)?))
}

#[cycle(phrases)]
#[tactic(auto, using(crate::proofs::PlainRows::plain_phrases))]
fn phrases(alloc: Global, numbers: &Numbers, all: &[Expression]) -> Result<Items<Phrase>, Memory>
    ensures { IfOk result (λ p. p ≡ map (spec.plain_expression numbers.now.names numbers.now.formats) all.now) }
{
    let mut found = Items::new(alloc);
    for x in all {
        let one = phrase(alloc, numbers, x)?;
        found.push(one)?;
    }
    Ok(found)
}

#[cycle(phrases)]
#[tactic(auto, using(crate::proofs::PlainRows::plain_phrases))]
fn equality_step(alloc: Global, numbers: &Numbers, x: &EqualityStep) -> Result<Compared, Memory>
    ensures { IfOk result (λ p. p ≡ equality_step numbers.now.names numbers.now.formats x.now) }
{
    let operand = phrase(alloc, numbers, &x.operand)?;
    Ok(Compared {
        comparison: equality_comparison(x.operator),
        operand,
    })
}

#[cycle(phrases)]
#[tactic(auto, using(crate::proofs::PlainRows::plain_phrases))]
fn order_step(alloc: Global, numbers: &Numbers, x: &OrderStep) -> Result<Compared, Memory>
    ensures { IfOk result (λ p. p ≡ order_step numbers.now.names numbers.now.formats x.now) }
{
    let operand = phrase(alloc, numbers, &x.operand)?;
    Ok(Compared {
        comparison: order_comparison(x.operator),
        operand,
    })
}

#[cycle(phrases)]
#[tactic(auto, using(crate::proofs::PlainRows::plain_phrases))]
fn sum_step(alloc: Global, numbers: &Numbers, x: &SumStep) -> Result<Operation, Memory>
    ensures { IfOk result (λ p. p ≡ sum_step numbers.now.names numbers.now.formats x.now) }
{
    let operand = phrase(alloc, numbers, &x.operand)?;
    Ok(Operation {
        operator: sum_operation(x.operator),
        operand,
    })
}

#[cycle(phrases)]
#[tactic(auto, using(crate::proofs::PlainRows::plain_phrases))]
fn term_step(alloc: Global, numbers: &Numbers, x: &TermStep) -> Result<Operation, Memory>
    ensures { IfOk result (λ p. p ≡ term_step numbers.now.names numbers.now.formats x.now) }
{
    let operand = phrase(alloc, numbers, &x.operand)?;
    Ok(Operation {
        operator: term_operation(x.operator),
        operand,
    })
}

#[cycle(phrases)]
#[tactic(auto, using(crate::proofs::PlainRows::plain_phrases))]
fn equalities(
    alloc: Global,
    numbers: &Numbers,
    all: &[EqualityStep],
) -> Result<Items<Compared>, Memory>
    ensures { IfOk result (λ p. p ≡ map (equality_step numbers.now.names numbers.now.formats) all.now) }
{
    let mut found = Items::new(alloc);
    for x in all {
        let one = equality_step(alloc, numbers, x)?;
        found.push(one)?;
    }
    Ok(found)
}

#[cycle(phrases)]
#[tactic(auto, using(crate::proofs::PlainRows::plain_phrases))]
fn orders(alloc: Global, numbers: &Numbers, all: &[OrderStep]) -> Result<Items<Compared>, Memory>
    ensures { IfOk result (λ p. p ≡ map (order_step numbers.now.names numbers.now.formats) all.now) }
{
    let mut found = Items::new(alloc);
    for x in all {
        let one = order_step(alloc, numbers, x)?;
        found.push(one)?;
    }
    Ok(found)
}

#[cycle(phrases)]
#[tactic(auto, using(crate::proofs::PlainRows::plain_phrases))]
fn sums(alloc: Global, numbers: &Numbers, all: &[SumStep]) -> Result<Items<Operation>, Memory>
    ensures { IfOk result (λ p. p ≡ map (sum_step numbers.now.names numbers.now.formats) all.now) }
{
    let mut found = Items::new(alloc);
    for x in all {
        let one = sum_step(alloc, numbers, x)?;
        found.push(one)?;
    }
    Ok(found)
}

#[cycle(phrases)]
#[tactic(auto, using(crate::proofs::PlainRows::plain_phrases))]
fn terms(alloc: Global, numbers: &Numbers, all: &[TermStep]) -> Result<Items<Operation>, Memory>
    ensures { IfOk result (λ p. p ≡ map (term_step numbers.now.names numbers.now.formats) all.now) }
{
    let mut found = Items::new(alloc);
    for x in all {
        let one = term_step(alloc, numbers, x)?;
        found.push(one)?;
    }
    Ok(found)
}

#[cycle(phrases)]
#[tactic(auto, using(crate::proofs::PlainRows::plain_phrases))]
fn plain_steps(alloc: Global, numbers: &Numbers, all: &[tree::Step]) -> Result<Items<Step>, Memory>
    ensures { IfOk result (λ p. p ≡ map (spec.plain_step numbers.now.names numbers.now.formats) all.now) }
{
    let mut found = Items::new(alloc);
    for x in all {
        let one = plain_step(alloc, numbers, x)?;
        found.push(one)?;
    }
    Ok(found)
}

#[cycle(phrases)]
#[tactic(auto, using(crate::proofs::PlainRows::plain_phrases))]
fn plain_step(alloc: Global, numbers: &Numbers, x: &tree::Step) -> Result<Step, Memory>
    ensures { IfOk result (λ p. p ≡ spec.plain_step numbers.now.names numbers.now.formats x.now) }
{
    match x {
        tree::Step::Field(x) => Ok(Step::Field(identifier(numbers, x)?)),
        tree::Step::Call(x, args) => {
            let args = phrases(alloc, numbers, args.as_slice())?;
            step_call_of(numbers, x.get(), args)
        }
        tree::Step::Index(e) => {
            let index = boxed(alloc, numbers, e.get())?;
            Ok(Step::Index(index))
        }
    }
}
