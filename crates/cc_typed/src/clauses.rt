ghost use Rattle.std.specs.Prelude.{◌≡◌, ◌-◌, true, OnOk};
ghost use Rattle.std.specs.List.{list_all};
ghost use Rattle.cc_typed.specs.Clauses.{all_noted, are_numbers, clause_noted, is_among, is_own, is_pure, is_pure_part, noted, part_noted};
ghost use Rattle.cc_typed.specs.ClauseLists.{comparisons_noted_in, operations_noted_in, parts_noted_in, row_noted_in};

use crate::tree::{Compared, Expression, Operation, PartStep};
use sqlite_items::Items;
use std::alloc::AllocError;

/// The variables that are an accept's own: its parameters, `count` of them, numbered from `first` on.
#[derive(Clone, Copy)]
pub struct Own {
    /// The number of the first.
    pub first: u32,
    /// How many there are.
    pub count: usize,
}

#[cycle(pure_expressions)]
#[tactic(auto, using(crate::proofs::Pure::pure_expressions))]
fn pure_part(depth: u32, step: &PartStep) -> bool
    ensures { result ≡ is_pure_part depth step.now }
{
    match step {
        PartStep::Field { .. } => true,
        PartStep::Element { index, .. } => pure(depth, index),
    }
}

/// Whether the indexes in steps are pure and no deeper than this.
#[cycle(pure_expressions)]
#[tactic(auto, using(crate::proofs::Pure::pure_expressions))]
fn pure_parts(depth: u32, steps: &[PartStep]) -> bool
    ensures { result ≡ list_all (is_pure_part depth) steps.now }
{
    for step in steps {
        if !pure_part(depth, step) {
            return false;
        }
    }
    true
}

/// Whether an expression is pure and no deeper than this.
#[cycle(pure_expressions)]
#[tactic(auto, using(crate::proofs::Pure::pure_expressions))]
pub(crate) fn pure(depth: u32, e: &Expression) -> bool
    ensures { result ≡ is_pure depth e.now }
{
    match e {
        Expression::Constant { .. } => 0 < depth,
        Expression::Read { from } => 0 < depth
            && pure_parts(depth.saturating_sub(1), from.steps.as_slice()),
        Expression::Negate { operand, .. } => pure(depth, operand.get()),
        Expression::Not { operand } => pure(depth, operand.get()),
        Expression::Plus { operand, .. } => pure(depth, operand.get()),
        Expression::Parenthesized { operand, .. } => pure(depth, operand.get()),
        Expression::Arithmetic { first, rest, .. } => pure(depth, first.get())
            && pure_operations(depth.saturating_sub(1), rest.as_slice()),
        Expression::Compare { first, rest } => pure(depth, first.get())
            && pure_comparisons(depth.saturating_sub(1), rest.as_slice()),
        Expression::Both { first, rest } => pure(depth, first.get())
            && pure_row(depth, rest.as_slice()),
        Expression::Either { first, rest } => pure(depth, first.get())
            && pure_row(depth, rest.as_slice()),
        Expression::Choose {
            condition,
            yes,
            no,
            ..
        } => pure(depth, condition.get()) && pure(depth, yes.get()) && pure(depth, no.get()),
        Expression::GetChar
        | Expression::Chain { .. }
        | Expression::ChangeBefore { .. }
        | Expression::ChangeAfter { .. }
        | Expression::Assign { .. }
        | Expression::Update { .. }
        | Expression::CallFunction { .. }
        | Expression::CreateProcess { .. }
        | Expression::Within { .. }
        | Expression::PutChar { .. }
        | Expression::PrintFormat { .. } => false,
    }
}

#[cycle(pure_expressions)]
#[tactic(auto, using(crate::proofs::Pure::pure_expressions))]
fn pure_operations(depth: u32, rest: &[Operation]) -> bool
    ensures { result ≡ list_all (λ o. is_pure depth o.operand) rest.now }
{
    for operation in rest {
        if !pure(depth, &operation.operand) {
            return false;
        }
    }
    true
}

#[cycle(pure_expressions)]
#[tactic(auto, using(crate::proofs::Pure::pure_expressions))]
fn pure_comparisons(depth: u32, rest: &[Compared]) -> bool
    ensures { result ≡ list_all (λ c. is_pure depth c.operand) rest.now }
{
    for compared in rest {
        if !pure(depth, &compared.operand) {
            return false;
        }
    }
    true
}

#[cycle(pure_expressions)]
#[tactic(auto, using(crate::proofs::Pure::pure_expressions))]
fn pure_row(depth: u32, rest: &[Expression]) -> bool
    ensures { result ≡ list_all (is_pure depth) rest.now }
{
    for e in rest {
        if !pure(depth, e) {
            return false;
        }
    }
    true
}

fn among(seen: &[u32], variable: u32) -> bool
    ensures { result ≡ is_among seen.now variable }
{
    for x in seen {
        if *x == variable {
            return true;
        }
    }
    false
}

/// Notes a variable, unless it was seen or is the accept's own.
fn note(own: Own, seen: &mut Items<u32>, variable: u32) -> Result<(), AllocError>
    ensures { OnOk result (seen.new ≡ noted own seen.old variable) }
{
    let is_own = own.first <= variable && ((variable - own.first) as usize) < own.count;
    if !is_own && !among(seen.as_slice(), variable) {
        seen.push(variable)?;
    }
    Ok(())
}

#[cycle(noted_expressions)]
#[tactic(auto, using(crate::proofs::Noted::noted_expressions))]
fn note_part(own: Own, seen: &mut Items<u32>, step: &PartStep) -> Result<(), AllocError>
    ensures { OnOk result (seen.new ≡ part_noted own seen.old step.now) }
{
    match step {
        PartStep::Field { .. } => Ok(()),
        PartStep::Element { index, .. } => note_variables(own, seen, index),
    }
}

#[cycle(noted_expressions)]
#[tactic(auto, using(crate::proofs::Noted::noted_expressions))]
fn note_parts(own: Own, seen: &mut Items<u32>, steps: &[PartStep]) -> Result<(), AllocError>
    ensures { OnOk result (seen.new ≡ parts_noted_in own seen.old steps.now) }
{
    for step in steps {
        note_part(own, seen, step)?;
    }
    Ok(())
}

/// Notes the variables that a pure expression names, each once and in the order of their first naming, apart from an
/// accept's own. Fails where memory is out.
#[cycle(noted_expressions)]
#[tactic(auto, using(crate::proofs::Noted::noted_expressions))]
pub fn note_variables(own: Own, seen: &mut Items<u32>, e: &Expression) -> Result<(), AllocError>
    ensures noted { OnOk result (seen.new ≡ all_noted own seen.old e.now) }
{
    match e {
        Expression::Read { from } => {
            note(own, seen, from.variable)?;
            note_parts(own, seen, from.steps.as_slice())
        }
        Expression::Negate { operand, .. } => note_variables(own, seen, operand.get()),
        Expression::Not { operand } => note_variables(own, seen, operand.get()),
        Expression::Plus { operand, .. } => note_variables(own, seen, operand.get()),
        Expression::Parenthesized { operand, .. } => note_variables(own, seen, operand.get()),
        Expression::Arithmetic { first, rest, .. } => {
            note_variables(own, seen, first.get())?;
            note_operations(own, seen, rest.as_slice())
        }
        Expression::Compare { first, rest } => {
            note_variables(own, seen, first.get())?;
            note_comparisons(own, seen, rest.as_slice())
        }
        Expression::Both { first, rest } => {
            note_variables(own, seen, first.get())?;
            note_row(own, seen, rest.as_slice())
        }
        Expression::Either { first, rest } => {
            note_variables(own, seen, first.get())?;
            note_row(own, seen, rest.as_slice())
        }
        Expression::Choose {
            condition,
            yes,
            no,
            ..
        } => {
            note_variables(own, seen, condition.get())?;
            note_variables(own, seen, yes.get())?;
            note_variables(own, seen, no.get())
        }
        Expression::Constant { .. }
        | Expression::GetChar
        | Expression::Chain { .. }
        | Expression::ChangeBefore { .. }
        | Expression::ChangeAfter { .. }
        | Expression::Assign { .. }
        | Expression::Update { .. }
        | Expression::CallFunction { .. }
        | Expression::CreateProcess { .. }
        | Expression::Within { .. }
        | Expression::PutChar { .. }
        | Expression::PrintFormat { .. } => Ok(()),
    }
}

#[cycle(noted_expressions)]
#[tactic(auto, using(crate::proofs::Noted::noted_expressions))]
fn note_operations(own: Own, seen: &mut Items<u32>, rest: &[Operation]) -> Result<(), AllocError>
    ensures { OnOk result (seen.new ≡ operations_noted_in own seen.old rest.now) }
{
    for operation in rest {
        note_variables(own, seen, &operation.operand)?;
    }
    Ok(())
}

#[cycle(noted_expressions)]
#[tactic(auto, using(crate::proofs::Noted::noted_expressions))]
fn note_comparisons(own: Own, seen: &mut Items<u32>, rest: &[Compared]) -> Result<(), AllocError>
    ensures { OnOk result (seen.new ≡ comparisons_noted_in own seen.old rest.now) }
{
    for compared in rest {
        note_variables(own, seen, &compared.operand)?;
    }
    Ok(())
}

#[cycle(noted_expressions)]
#[tactic(auto, using(crate::proofs::Noted::noted_expressions))]
fn note_row(own: Own, seen: &mut Items<u32>, rest: &[Expression]) -> Result<(), AllocError>
    ensures { OnOk result (seen.new ≡ row_noted_in own seen.old rest.now) }
{
    for e in rest {
        note_variables(own, seen, e)?;
    }
    Ok(())
}

/// Notes the variables of a clause, where it is there.
pub(crate) fn note_clause(
    own: Own,
    seen: &mut Items<u32>,
    clause: &Option<Expression>,
) -> Result<(), AllocError>
    ensures { OnOk result (seen.new ≡ clause_noted own seen.old clause.now) }
{
    match clause {
        None => Ok(()),
        Some(e) => note_variables(own, seen, e),
    }
}

/// Whether two lists have the same numbers in order.
#[tactic(auto, using(crate::proofs::Noted::numbers))]
pub(crate) fn same_numbers(xs: &[u32], ys: &[u32]) -> bool
    ensures { result ≡ are_numbers xs.now ys.now }
{
    if xs.len() != ys.len() {
        return false;
    }
    for at in 0..xs.len() {
        if xs[at] != ys[at] {
            return false;
        }
    }
    true
}
