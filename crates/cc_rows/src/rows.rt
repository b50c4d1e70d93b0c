//! The rows that are asked of expressions.

ghost use Rattle.std.specs.Prelude.{◌≡◌, IfOk, OnOk};
ghost use Rattle.cc_faults.specs.Expressions as phrase;
ghost use Rattle.cc_faults.specs.Faults.{noted};
ghost use Rattle.cc_faults.specs.Judged.{answer, answer_asked, answer_then, faults, faults_asked, faults_then};
ghost use Rattle.cc_faults.specs.declared.answer.Answer.TheVariants as an;
ghost use Rattle.cc_typed.specs.Typed.{is_equality};
ghost use Rattle.cc_faults.specs.Made as made;
ghost use Rattle.cc_faults.specs.Rows as row;

use crate::found::{
    is_array, is_assignable, is_process, is_same, is_struct, is_void, type_in, value_of,
};
use cc_base::{Comparison, Place};
use cc_faults::{Answer, Found, Least, TypeKind, wrong};
use cc_typed::{DataType, Expression, Location};
use sqlite_items::Boxed;
use std::alloc::{AllocError, Global};

/// Mismatch: an operand, condition, guard, duration or index of an arithmetic type.
#[tactic(auto, using(crate::proofs::Laws::rows))]
pub fn number(
    alloc: Global,
    least: &mut Least,
    place: Place,
    value: Answer<Found>,
) -> Result<Answer<Expression>, AllocError>
    ensures value { IfOk result (λ r. r ≡ answer_then value (row.number place)) }
    ensures noted { OnOk result (least.new ≡ noted least.old (faults_then value (row.number place))) }
{
    match value {
        Answer::Good(v) => {
            if !type_in(&v).is_arithmetic() {
                wrong(least, place, TypeKind::Mismatch);
                return Ok(Answer::Faulty);
            }
            Ok(Answer::Good(value_of(alloc, v)?))
        }
        Answer::Typeless => Ok(Answer::Typeless),
        Answer::Faulty => Ok(Answer::Faulty),
    }
}

fn may_be_assigned(to: Option<DataType>, t: DataType) -> bool
    ensures { result ≡ row.may_be_assigned to t }
{
    match to {
        None => !(is_void(t) || is_array(t)),
        Some(u) => is_assignable(t, u),
    }
}

/// Mismatch: a value that is assigned to a type, where that is known.
#[tactic(auto, using(crate::proofs::Laws::rows))]
pub fn assigned(
    alloc: Global,
    least: &mut Least,
    place: Place,
    to: Option<DataType>,
    value: Answer<Found>,
) -> Result<Answer<Expression>, AllocError>
    ensures value { IfOk result (λ r. r ≡ answer_then value (row.assigned place to)) }
    ensures noted { OnOk result (least.new ≡ noted least.old (faults_then value (row.assigned place to))) }
{
    match value {
        Answer::Good(v) => {
            if !may_be_assigned(to, type_in(&v)) {
                wrong(least, place, TypeKind::Mismatch);
                return Ok(Answer::Faulty);
            }
            Ok(Answer::Good(value_of(alloc, v)?))
        }
        Answer::Typeless => Ok(Answer::Typeless),
        Answer::Faulty => Ok(Answer::Faulty),
    }
}

/// Mismatch: the operand of `.name` is a structure.
#[tactic(auto, using(crate::proofs::Laws::rows))]
pub fn structure_in(least: &mut Least, place: Place, value: Answer<Found>) -> Answer<Found>
    ensures value { result ≡ answer_then value (row.structure_in place) }
    ensures noted { least.new ≡ noted least.old (faults_then value (row.structure_in place)) }
{
    match value {
        Answer::Good(v) => {
            if !is_struct(type_in(&v)) {
                wrong(least, place, TypeKind::Mismatch);
                return Answer::Faulty;
            }
            Answer::Good(v)
        }
        Answer::Typeless => Answer::Typeless,
        Answer::Faulty => Answer::Faulty,
    }
}

/// Mismatch: the operand of `.name(` is a process.
#[tactic(auto, using(crate::proofs::Laws::rows))]
pub fn process_in(least: &mut Least, place: Place, value: Answer<Found>) -> Answer<Found>
    ensures value { result ≡ answer_then value (row.process_in place) }
    ensures noted { least.new ≡ noted least.old (faults_then value (row.process_in place)) }
{
    match value {
        Answer::Good(v) => {
            if !is_process(type_in(&v)) {
                wrong(least, place, TypeKind::Mismatch);
                return Answer::Faulty;
            }
            Answer::Good(v)
        }
        Answer::Typeless => Answer::Typeless,
        Answer::Faulty => Answer::Faulty,
    }
}

/// Mismatch: the operand of `[` is an array.
#[tactic(auto, using(crate::proofs::Laws::rows))]
pub fn array_in(least: &mut Least, place: Place, value: Answer<Found>) -> Answer<Found>
    ensures value { result ≡ answer_then value (row.array_in place) }
    ensures noted { least.new ≡ noted least.old (faults_then value (row.array_in place)) }
{
    match value {
        Answer::Good(v) => {
            if !is_array(type_in(&v)) {
                wrong(least, place, TypeKind::Mismatch);
                return Answer::Faulty;
            }
            Answer::Good(v)
        }
        Answer::Typeless => Answer::Typeless,
        Answer::Faulty => Answer::Faulty,
    }
}

/// Mismatch: an arm of `? :` is no array.
#[tactic(auto, using(crate::proofs::Laws::rows))]
pub fn no_array(least: &mut Least, place: Place, value: Answer<Found>) -> Answer<Found>
    ensures value { result ≡ answer_then value (row.no_array place) }
    ensures noted { least.new ≡ noted least.old (faults_then value (row.no_array place)) }
{
    match value {
        Answer::Good(v) => {
            if is_array(type_in(&v)) {
                wrong(least, place, TypeKind::Mismatch);
                return Answer::Faulty;
            }
            Answer::Good(v)
        }
        Answer::Typeless => Answer::Typeless,
        Answer::Faulty => Answer::Faulty,
    }
}

/// An arm, in a box: two of them are asked whether they fit.
pub fn boxed(alloc: Global, arm: Answer<Found>) -> Result<Answer<Boxed<Found>>, AllocError>
    ensures boxed { IfOk result (λ r. r ≡ arm) }
{
    match arm {
        Answer::Good(found) => Ok(Answer::Good(Boxed::new(alloc, found)?)),
        Answer::Typeless => Ok(Answer::Typeless),
        Answer::Faulty => Ok(Answer::Faulty),
    }
}

fn may_be_arms(t: DataType, u: DataType) -> bool
    ensures { result ≡ row.may_be_arms t u }
{
    t.is_arithmetic() && u.is_arithmetic() || !t.is_arithmetic() && is_same(t, u)
}

fn are_arms(arms: &(Boxed<Found>, Boxed<Found>)) -> bool
    ensures { result ≡ row.may_be_arms (made.type_in arms.now.0) (made.type_in arms.now.1) }
{
    may_be_arms(type_in(arms.0.get()), type_in(arms.1.get()))
}

/// Mismatch: the arms of `? :` fit each other; they are the last one's fault.
#[tactic(auto, using(crate::proofs::Laws::rows))]
pub fn fitting(
    least: &mut Least,
    place: Place,
    arms: Answer<(Boxed<Found>, Boxed<Found>)>,
) -> Answer<(Boxed<Found>, Boxed<Found>)>
    ensures value { result ≡ answer_then arms (row.fitting place) }
    ensures noted { least.new ≡ noted least.old (faults_then arms (row.fitting place)) }
{
    match arms {
        Answer::Good(arms) => {
            if !are_arms(&arms) {
                wrong(least, place, TypeKind::Mismatch);
                return Answer::Faulty;
            }
            Answer::Good(arms)
        }
        Answer::Typeless => Answer::Typeless,
        Answer::Faulty => Answer::Faulty,
    }
}

/// NotAPlace: what is stored to, where it has a type.
#[tactic(auto, using(crate::proofs::Laws::rows))]
pub fn target(least: &mut Least, place: Place, value: Answer<Found>) -> Answer<Location>
    ensures value { result ≡ answer_then value (row.target place) }
    ensures noted { least.new ≡ noted least.old (faults_then value (row.target place)) }
{
    match value {
        Answer::Good(Found::Place(location)) => Answer::Good(location),
        Answer::Good(_) => {
            wrong(least, place, TypeKind::NotAPlace);
            Answer::Faulty
        }
        Answer::Typeless => Answer::Typeless,
        Answer::Faulty => Answer::Faulty,
    }
}

/// NotAPlace of a phrase without a type.
#[tactic(auto, using(crate::proofs::Laws::joined))]
fn typeless_target(least: &mut Least, place: Place, is_place: bool) -> Answer<Location>
    ensures value { result ≡ answer_asked an.Typeless (row.target place) (row.a_place is_place place) }
    ensures noted { least.new ≡ noted least.old (faults_asked an.Typeless (row.target place) (row.a_place is_place place)) }
{
    if !is_place {
        wrong(least, place, TypeKind::NotAPlace);
        return Answer::Faulty;
    }
    Answer::Typeless
}

/// Mismatch and NotAPlace, each by itself: a place for numbers.
#[tactic(auto, using(crate::proofs::Laws::joined))]
fn number_place(least: &mut Least, place: Place, found: Found) -> Answer<Location>
    ensures value { result ≡ answer (phrase.number_target place found) }
    ensures noted { least.new ≡ noted least.old (faults (phrase.number_target place found)) }
{
    if !type_in(&found).is_arithmetic() {
        wrong(least, place, TypeKind::Mismatch);
        let _ = target(least, place, Answer::Good(found));
        return Answer::Faulty;
    }
    target(least, place, Answer::Good(found))
}

/// Mismatch and NotAPlace, each by itself: a place that is no array.
#[tactic(auto, using(crate::proofs::Laws::joined))]
fn any_place(least: &mut Least, place: Place, found: Found) -> Answer<Location>
    ensures value { result ≡ answer (phrase.any_target place found) }
    ensures noted { least.new ≡ noted least.old (faults (phrase.any_target place found)) }
{
    if is_array(type_in(&found)) {
        wrong(least, place, TypeKind::Mismatch);
        let _ = target(least, place, Answer::Good(found));
        return Answer::Faulty;
    }
    target(least, place, Answer::Good(found))
}

/// The target of `++`, `--` or of an operator with `=`: Mismatch and NotAPlace, of which the last is also asked of a phrase without a type.
#[tactic(auto, using(crate::proofs::Laws::joined))]
pub fn number_target(
    least: &mut Least,
    place: Place,
    is_place: bool,
    value: Answer<Found>,
) -> Answer<Location>
    ensures value { result ≡ answer_asked value (phrase.number_target place) (row.a_place is_place place) }
    ensures noted { least.new ≡ noted least.old (faults_asked value (phrase.number_target place) (row.a_place is_place place)) }
{
    match value {
        Answer::Good(found) => number_place(least, place, found),
        Answer::Typeless => typeless_target(least, place, is_place),
        Answer::Faulty => Answer::Faulty,
    }
}

/// The target of `=`: Mismatch and NotAPlace, of which the last is also asked of a phrase without a type.
#[tactic(auto, using(crate::proofs::Laws::joined))]
pub fn any_target(
    least: &mut Least,
    place: Place,
    is_place: bool,
    value: Answer<Found>,
) -> Answer<Location>
    ensures value { result ≡ answer_asked value (phrase.any_target place) (row.a_place is_place place) }
    ensures noted { least.new ≡ noted least.old (faults_asked value (phrase.any_target place) (row.a_place is_place place)) }
{
    match value {
        Answer::Good(found) => any_place(least, place, found),
        Answer::Typeless => typeless_target(least, place, is_place),
        Answer::Faulty => Answer::Faulty,
    }
}

fn is_equality(comparison: Comparison) -> bool
    ensures { result ≡ is_equality comparison }
{
    matches!(comparison, Comparison::Equal | Comparison::Different)
}

fn is_partner(other: Option<DataType>, t: DataType) -> bool
    ensures { result ≡ row.is_partner other t }
{
    match other {
        None => true,
        Some(u) => is_same(u, t),
    }
}

pub(crate) fn may_be_compared(comparison: Comparison, other: Option<DataType>, t: DataType) -> bool
    ensures { result ≡ row.may_be_compared comparison other t }
{
    t.is_arithmetic() || is_equality(comparison) && is_process(t) && is_partner(other, t)
}
