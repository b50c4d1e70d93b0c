//! The names and the formats that a text mentions, each once, in the order of the text.

ghost use Rattle.std.specs.Prelude.{◌≡◌, OnOk};
ghost use Rattle.cc_names.specs.Mentions.{in_expression, in_length, in_name, in_names, in_optional_length, in_optional_name, in_optional_type, in_step, in_type};
ghost use Rattle.cc_names.specs.Seen.{after, in_format, in_all_equalities, in_all_expressions, in_all_orders, in_all_steps, in_all_sums, in_all_terms};

use crate::strings::Strings;
use cc_base::Memory;
use cc_grammar::{
    EqualityStep, Expression, Format, Identifier, Length, OrderStep, Step, SumStep, TermStep,
    TypeName,
};

/// The names and the formats that were mentioned so far, with their numbers.
#[derive(Drop)]
pub(crate) struct Numbers<'t> {
    pub(crate) names: Strings<'t>,
    pub(crate) formats: Strings<'t>,
}

#[tactic(auto, using(crate::proofs::Walks::seen_one))]
pub(crate) fn see_name<'t>(numbers: &mut Numbers<'t>, x: &'t Identifier) -> Result<(), Memory>
    ensures { OnOk result (numbers.new ≡ after numbers.old (in_name x.now)) }
{
    numbers.names.mention(x.name.as_slice())
}

#[tactic(auto, using(crate::proofs::Walks::seen))]
pub(crate) fn see_names<'t>(numbers: &mut Numbers<'t>, xs: &'t [Identifier]) -> Result<(), Memory>
    ensures { OnOk result (numbers.new ≡ after numbers.old (in_names xs.now)) }
{
    for x in xs {
        see_name(numbers, x)?;
    }
    Ok(())
}

#[tactic(auto, using(crate::proofs::Walks::seen_one))]
fn see_format<'t>(numbers: &mut Numbers<'t>, format: &'t Format) -> Result<(), Memory>
    ensures { OnOk result (numbers.new ≡ after numbers.old (in_format format.now)) }
{
    numbers.formats.mention(format.bytes.as_slice())
}

#[tactic(auto, using(crate::proofs::Walks::seen))]
pub(crate) fn see_optional_name<'t>(
    numbers: &mut Numbers<'t>,
    x: &'t Option<Identifier>,
) -> Result<(), Memory>
    ensures { OnOk result (numbers.new ≡ after numbers.old (in_optional_name x.now)) }
{
    match x {
        None => Ok(()),
        Some(x) => see_name(numbers, x),
    }
}

#[tactic(auto, using(crate::proofs::Walks::seen))]
pub(crate) fn see_type<'t>(numbers: &mut Numbers<'t>, t: &'t TypeName) -> Result<(), Memory>
    ensures { OnOk result (numbers.new ≡ after numbers.old (in_type t.now)) }
{
    match t {
        TypeName::Structure(_, x) | TypeName::Enumeration(_, x) | TypeName::Process(_, x) =>
            see_name(numbers, x),
        TypeName::Void(_) | TypeName::Char(_) | TypeName::Int(_) | TypeName::Long(_) => Ok(()),
    }
}

#[tactic(auto, using(crate::proofs::Walks::seen))]
pub(crate) fn see_optional_type<'t>(
    numbers: &mut Numbers<'t>,
    t: &'t Option<TypeName>,
) -> Result<(), Memory>
    ensures { OnOk result (numbers.new ≡ after numbers.old (in_optional_type t.now)) }
{
    match t {
        None => Ok(()),
        Some(t) => see_type(numbers, t),
    }
}

#[tactic(auto, using(crate::proofs::Walks::seen))]
pub(crate) fn see_length<'t>(numbers: &mut Numbers<'t>, n: &'t Length) -> Result<(), Memory>
    ensures { OnOk result (numbers.new ≡ after numbers.old (in_length n.now)) }
{
    match n {
        Length::Name(x) => see_name(numbers, x),
        Length::Number { .. } | Length::Character { .. } => Ok(()),
    }
}

#[tactic(auto, using(crate::proofs::Walks::seen))]
pub(crate) fn see_optional_length<'t>(
    numbers: &mut Numbers<'t>,
    n: &'t Option<Length>,
) -> Result<(), Memory>
    ensures { OnOk result (numbers.new ≡ after numbers.old (in_optional_length n.now)) }
{
    match n {
        None => Ok(()),
        Some(n) => see_length(numbers, n),
    }
}

#[cycle(expressions)]
#[tactic(auto, using(crate::proofs::Walks::seen_expressions))]
pub(crate) fn see_expression<'t>(numbers: &mut Numbers<'t>, e: &'t Expression) -> Result<(), Memory>
    ensures { OnOk result (numbers.new ≡ after numbers.old (in_expression e.now)) }
{
    match e {
        Expression::Within {
            wait,
            call,
            otherwise,
            ..
        } => {
            see_expression(numbers, wait.get())?;
            see_expression(numbers, call.get())?;
            see_expression(numbers, otherwise.get())
        }
        Expression::Store { target, value, .. } => {
            see_expression(numbers, target.get())?;
            see_expression(numbers, value.get())
        }
        Expression::Choice {
            condition,
            then,
            otherwise,
        } => {
            see_expression(numbers, condition.get())?;
            see_expression(numbers, then.get())?;
            see_expression(numbers, otherwise.get())
        }
        Expression::Disjunction { first, more } | Expression::Conjunction { first, more } => {
            see_expression(numbers, first.get())?;
            see_expressions(numbers, more.as_slice())
        }
        Expression::Equality { first, more } => {
            see_expression(numbers, first.get())?;
            see_equalities(numbers, more.as_slice())
        }
        Expression::Order { first, more } => {
            see_expression(numbers, first.get())?;
            see_orders(numbers, more.as_slice())
        }
        Expression::Sum { first, more } => {
            see_expression(numbers, first.get())?;
            see_sums(numbers, more.as_slice())
        }
        Expression::Term { first, more } => {
            see_expression(numbers, first.get())?;
            see_terms(numbers, more.as_slice())
        }
        Expression::Prefixed { operand, .. } => see_expression(numbers, operand.get()),
        Expression::Postfix { first, steps, .. } => {
            see_expression(numbers, first.get())?;
            see_steps(numbers, steps.as_slice())
        }
        Expression::Name(x) => see_name(numbers, x),
        Expression::Call(x, args) => {
            see_name(numbers, x.get())?;
            see_expressions(numbers, args.as_slice())
        }
        Expression::Create(_, x, args) => {
            see_name(numbers, x.get())?;
            see_expressions(numbers, args.as_slice())
        }
        Expression::Putchar(_, e) | Expression::Parenthesised(_, e) => see_expression(
            numbers,
            e.get(),
        ),
        Expression::Printf(_, format, args) => {
            see_format(numbers, format.get())?;
            see_expressions(numbers, args.as_slice())
        }
        Expression::Number { .. } | Expression::Character { .. } | Expression::Getchar(_) => Ok(()),
    }
}

#[cycle(expressions)]
#[tactic(auto, using(crate::proofs::Walks::seen_expressions))]
fn see_expressions<'t>(numbers: &mut Numbers<'t>, all: &'t [Expression]) -> Result<(), Memory>
    ensures { OnOk result (numbers.new ≡ after numbers.old (in_all_expressions all.now)) }
{
    for e in all {
        see_expression(numbers, e)?;
    }
    Ok(())
}

#[cycle(expressions)]
#[tactic(auto, using(crate::proofs::Walks::seen_expressions))]
fn see_equalities<'t>(numbers: &mut Numbers<'t>, all: &'t [EqualityStep]) -> Result<(), Memory>
    ensures { OnOk result (numbers.new ≡ after numbers.old (in_all_equalities all.now)) }
{
    for step in all {
        see_expression(numbers, &step.operand)?;
    }
    Ok(())
}

#[cycle(expressions)]
#[tactic(auto, using(crate::proofs::Walks::seen_expressions))]
fn see_orders<'t>(numbers: &mut Numbers<'t>, all: &'t [OrderStep]) -> Result<(), Memory>
    ensures { OnOk result (numbers.new ≡ after numbers.old (in_all_orders all.now)) }
{
    for step in all {
        see_expression(numbers, &step.operand)?;
    }
    Ok(())
}

#[cycle(expressions)]
#[tactic(auto, using(crate::proofs::Walks::seen_expressions))]
fn see_sums<'t>(numbers: &mut Numbers<'t>, all: &'t [SumStep]) -> Result<(), Memory>
    ensures { OnOk result (numbers.new ≡ after numbers.old (in_all_sums all.now)) }
{
    for step in all {
        see_expression(numbers, &step.operand)?;
    }
    Ok(())
}

#[cycle(expressions)]
#[tactic(auto, using(crate::proofs::Walks::seen_expressions))]
fn see_terms<'t>(numbers: &mut Numbers<'t>, all: &'t [TermStep]) -> Result<(), Memory>
    ensures { OnOk result (numbers.new ≡ after numbers.old (in_all_terms all.now)) }
{
    for step in all {
        see_expression(numbers, &step.operand)?;
    }
    Ok(())
}

#[cycle(expressions)]
#[tactic(auto, using(crate::proofs::Walks::seen_expressions))]
fn see_steps<'t>(numbers: &mut Numbers<'t>, all: &'t [Step]) -> Result<(), Memory>
    ensures { OnOk result (numbers.new ≡ after numbers.old (in_all_steps all.now)) }
{
    for step in all {
        see_step(numbers, step)?;
    }
    Ok(())
}

#[cycle(expressions)]
#[tactic(auto, using(crate::proofs::Walks::seen_expressions))]
fn see_step<'t>(numbers: &mut Numbers<'t>, step: &'t Step) -> Result<(), Memory>
    ensures { OnOk result (numbers.new ≡ after numbers.old (in_step step.now)) }
{
    match step {
        Step::Field(x) => see_name(numbers, x),
        Step::Call(x, args) => {
            see_name(numbers, x.get())?;
            see_expressions(numbers, args.as_slice())
        }
        Step::Index(e) => see_expression(numbers, e.get()),
    }
}
