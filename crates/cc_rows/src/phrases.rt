//! Phrases by themselves: where they begin, whether they go on to parts, and how deep they are.

ghost use Rattle.std.specs.List.{list_all};
ghost use Rattle.std.specs.Prelude.{◌≡◌, IfOk, OnOk};
ghost use Rattle.cc_faults.specs.Depths.{depth_of};
ghost use Rattle.cc_faults.specs.Expressions as phrase;
ghost use Rattle.cc_faults.specs.Faults.{noted};
ghost use Rattle.cc_faults.specs.Judged.{answer, answer_asked, answer_map, answer_pair, both, faults, faults_asked, first, map};
ghost use Rattle.cc_faults.specs.Rows as row;
ghost use Rattle.cc_rows.specs.Within.{is_comparison_within, is_operation_within, is_step_within, is_within};

use crate::rows::number;
use cc_base::Place;
use cc_base::limits::MOST_PURE_DEPTH;
use cc_faults::{
    Answer, ClauseWord, Compared, Found, Least, Meaning, Named, Operation, Phrase, Step, TypeKind,
    pair, wrong,
};
use cc_typed::Expression;
use std::alloc::{AllocError, Global};

/// The place of an expression's first token.
#[tactic(auto, using(crate::proofs::Beginnings::places))]
pub fn place_of(e: &Phrase) -> Place
    ensures place { result ≡ phrase.place_of e.now }
{
    match e {
        Phrase::Number { place, .. } => *place,
        Phrase::Name(x) => x.place,
        Phrase::Call { name, .. } => name.place,
        Phrase::Create { place, .. } => *place,
        Phrase::PutChar { place, .. } => *place,
        Phrase::GetChar(place) => *place,
        Phrase::PrintFormat { place, .. } => *place,
        Phrase::Parenthesized { place, .. } => *place,
        Phrase::Chain { first, .. } => place_of(first.get()),
        Phrase::StepAfter { target, .. } => place_of(target.get()),
        Phrase::StepBefore { place, .. } => *place,
        Phrase::Negate { place, .. } => *place,
        Phrase::Plus { place, .. } => *place,
        Phrase::Not { place, .. } => *place,
        Phrase::Arithmetic { first, .. } => place_of(first.get()),
        Phrase::Compare { first, .. } => place_of(first.get()),
        Phrase::Both { first, .. } => place_of(first.get()),
        Phrase::Either { first, .. } => place_of(first.get()),
        Phrase::Choose { condition, .. } => place_of(condition.get()),
        Phrase::Assign { target, .. } => place_of(target.get()),
        Phrase::Update { target, .. } => place_of(target.get()),
        Phrase::Within { place, .. } => *place,
    }
}

/// Whether a name means a variable, with a type or without.
pub fn is_variable(named: Option<Named>) -> bool
    ensures variable { result ≡ phrase.is_variable named }
{
    match named {
        None => false,
        Some(named) => matches!(named.meaning, Meaning::Variable(_) | Meaning::Typeless(_)),
    }
}

/// Whether a step goes on to a part.
pub fn is_part_step(step: &Step) -> bool
    ensures part { result ≡ phrase.is_part_step step.now }
{
    match step {
        Step::Field(_) => true,
        Step::Call { .. } => false,
        Step::Index(_) => true,
    }
}

/// Whether each step goes on to a part.
pub fn are_part_steps(steps: &[Step]) -> bool
    ensures parts { result ≡ list_all phrase.is_part_step steps.now }
{
    for step in steps {
        if !is_part_step(step) {
            return false;
        }
    }
    true
}

#[cycle(depths)]
#[tactic(auto, using(crate::proofs::Depth::depths))]
fn is_step_within(most: u32, step: &Step) -> bool
    ensures { result ≡ is_step_within most step.now }
{
    match step {
        Step::Field(_) => true,
        Step::Call { .. } => true,
        Step::Index(index) => 0 < most && is_within(most.saturating_sub(1), index.get()),
    }
}

#[cycle(depths)]
#[tactic(auto, using(crate::proofs::Depth::depths))]
fn are_steps_within(most: u32, steps: &[Step]) -> bool
    ensures { result ≡ list_all (is_step_within most) steps.now }
{
    for step in steps {
        if !is_step_within(most, step) {
            return false;
        }
    }
    true
}

#[cycle(depths)]
#[tactic(auto, using(crate::proofs::Depth::depths))]
fn are_operations_within(most: u32, rest: &[Operation]) -> bool
    ensures { result ≡ list_all (is_operation_within most) rest.now }
{
    for operation in rest {
        if most == 0 || !is_within(most.saturating_sub(1), &operation.operand) {
            return false;
        }
    }
    true
}

#[cycle(depths)]
#[tactic(auto, using(crate::proofs::Depth::depths))]
fn are_comparisons_within(most: u32, rest: &[Compared]) -> bool
    ensures { result ≡ list_all (is_comparison_within most) rest.now }
{
    for compared in rest {
        if most == 0 || !is_within(most.saturating_sub(1), &compared.operand) {
            return false;
        }
    }
    true
}

#[cycle(depths)]
#[tactic(auto, using(crate::proofs::Depth::depths))]
fn are_within(most: u32, rest: &[Phrase]) -> bool
    ensures { result ≡ list_all (is_within most) rest.now }
{
    for e in rest {
        if !is_within(most, e) {
            return false;
        }
    }
    true
}

/// Whether an expression is at most so deep.
#[cycle(depths)]
#[tactic(auto, using(crate::proofs::Depth::depths))]
fn is_within(most: u32, e: &Phrase) -> bool
    ensures { result ≡ is_within most e.now }
{
    match e {
        Phrase::Number { .. } => 0 < most,
        Phrase::Name(_) => 0 < most,
        Phrase::Parenthesized { operand, .. } => is_within(most, operand.get()),
        Phrase::Chain { first, steps } => {
            is_within(most, first.get()) && are_steps_within(most, steps.as_slice())
        }
        Phrase::Negate { operand, .. } => is_within(most, operand.get()),
        Phrase::Plus { operand, .. } => is_within(most, operand.get()),
        Phrase::Not { operand, .. } => is_within(most, operand.get()),
        Phrase::Arithmetic { first, rest } => {
            is_within(most, first.get()) && are_operations_within(most, rest.as_slice())
        }
        Phrase::Compare { first, rest } => {
            is_within(most, first.get()) && are_comparisons_within(most, rest.as_slice())
        }
        Phrase::Both { first, rest } => {
            is_within(most, first.get()) && are_within(most, rest.as_slice())
        }
        Phrase::Either { first, rest } => {
            is_within(most, first.get()) && are_within(most, rest.as_slice())
        }
        Phrase::Choose { condition, yes, no } => {
            is_within(most, condition.get())
                && is_within(most, yes.get())
                && is_within(most, no.get())
        }
        Phrase::Call { .. }
        | Phrase::Create { .. }
        | Phrase::PutChar { .. }
        | Phrase::GetChar(_)
        | Phrase::PrintFormat { .. }
        | Phrase::StepAfter { .. }
        | Phrase::StepBefore { .. }
        | Phrase::Assign { .. }
        | Phrase::Update { .. }
        | Phrase::Within { .. } => true,
    }
}

/// PureTooDeep: the depth of a clause.
#[tactic(auto, using(crate::proofs::Laws::rows))]
pub fn too_deep(least: &mut Least, e: &Phrase) -> Answer<()>
    ensures value { result ≡ answer (row.not_deep (phrase.place_of e.now) (depth_of e.now)) }
    ensures noted { least.new ≡ noted least.old (faults (row.not_deep (phrase.place_of e.now) (depth_of e.now))) }
{
    if !is_within(MOST_PURE_DEPTH, e) {
        wrong(least, place_of(e), TypeKind::PureTooDeep);
        return Answer::Faulty;
    }
    Answer::Good(())
}

/// The first of two parts, where both are good.
fn first_of(value: Answer<Expression>, depth: Answer<()>) -> Answer<Expression>
    ensures { result ≡ answer_map first (answer_pair value depth) }
{
    match pair(value, depth) {
        Answer::Good((value, _)) => Answer::Good(value),
        Answer::Typeless => Answer::Typeless,
        Answer::Faulty => Answer::Faulty,
    }
}

/// A clause that has a type.
#[tactic(auto, using(crate::proofs::Laws::joined))]
fn typed_clause(
    alloc: Global,
    least: &mut Least,
    e: &Phrase,
    found: Found,
) -> Result<Answer<Expression>, AllocError>
    ensures value { IfOk result (λ r. r ≡ answer (map first (both (row.number (phrase.place_of e.now) found) (row.not_deep (phrase.place_of e.now) (depth_of e.now))))) }
    ensures noted { OnOk result (least.new ≡ noted least.old (faults (map first (both (row.number (phrase.place_of e.now) found) (row.not_deep (phrase.place_of e.now) (depth_of e.now)))))) }
{
    let value = number(alloc, least, place_of(e), Answer::Good(found))?;
    let depth = too_deep(least, e);
    Ok(first_of(value, depth))
}

/// Mismatch and PureTooDeep: a clause counts as a condition; its depth is also asked of one without a type that holds no fault.
#[tactic(auto, using(crate::proofs::Laws::joined))]
pub fn clause(
    alloc: Global,
    least: &mut Least,
    e: &Phrase,
    value: Answer<Found>,
) -> Result<Answer<Expression>, AllocError>
    ensures value { IfOk result (λ r. r ≡ answer_asked value (λ (v : Found). map first (both (row.number (phrase.place_of e.now) v) (row.not_deep (phrase.place_of e.now) (depth_of e.now)))) (row.not_deep (phrase.place_of e.now) (depth_of e.now))) }
    ensures noted { OnOk result (least.new ≡ noted least.old (faults_asked value (λ (v : Found). map first (both (row.number (phrase.place_of e.now) v) (row.not_deep (phrase.place_of e.now) (depth_of e.now)))) (row.not_deep (phrase.place_of e.now) (depth_of e.now)))) }
{
    match value {
        Answer::Good(found) => Ok(typed_clause(alloc, least, e, found)?),
        Answer::Typeless => {
            let depth = too_deep(least, e);
            Ok(first_of(Answer::Typeless, depth))
        }
        Answer::Faulty => Ok(Answer::Faulty),
    }
}

/// A clause with its word.
pub fn with_word(word: ClauseWord, value: Answer<Expression>) -> Answer<(ClauseWord, Expression)>
    ensures word { result ≡ answer_map (λ (e : Expression). (word, e)) value }
{
    match value {
        Answer::Good(value) => Answer::Good((word, value)),
        Answer::Typeless => Answer::Typeless,
        Answer::Faulty => Answer::Faulty,
    }
}
