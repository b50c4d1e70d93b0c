//! What is found of numbers and of names, and parts as values.

ghost use Rattle.std.specs.Prelude.{◌≡◌, ◌&&◌, if◌then◌else◌, IfOk, pos, slice_get};
ghost use Rattle.cc_base.specs.Numbers.{fits, is_int};
ghost use Rattle.cc_base.specs.declared.numbers.NumberType.TheVariants as numeric;
ghost use Rattle.cc_faults.specs.Expressions as phrase;
ghost use Rattle.cc_faults.specs.Faults.{noted};
ghost use Rattle.cc_faults.specs.Judged.{answer_map, answer_then, faults_then, good_of, mapped};
ghost use Rattle.cc_faults.specs.Made as made;
ghost use Rattle.cc_faults.specs.Rows as row;
ghost use Rattle.cc_typed.specs.declared.tree.Expression.TheVariants as typed;

use crate::found::{self, type_in, variable};
use crate::sums::{Row, Timed};
use cc_base::{NumberType, Place};
use cc_faults::{Answer, Found, Least, Meaning, TypeKind, note, wrong};
use cc_typed::{DataType, Expression};
use std::alloc::{AllocError, Global};

/// Whether an `int` can be this number.
fn fits_int(value: i64) -> bool
    ensures { result ≡ fits 31 value }
{
    -2_147_483_648 <= value && value <= 2_147_483_647
}

/// Whether a `long` can be this number.
fn fits_long(value: i64) -> bool
    ensures { result ≡ fits 63 value }
{
    -9_223_372_036_854_775_808 <= value && value <= 9_223_372_036_854_775_807
}

/// The number, which is a `long`.
fn in_range(value: i64) -> i64
    ensures { result ≡ (if fits 63 value then value else pos 0) }
{
    if fits_long(value) { value } else { 0 }
}

#[tactic(auto, unfolding(cc_base::specs::Numbers::is_int))]
fn is_int(t: NumberType) -> bool
    ensures { result ≡ is_int t }
{
    matches!(t, NumberType::Int)
}

fn type_of_constant(value: i64, number_type: NumberType) -> NumberType
    ensures { result ≡ (if is_int number_type && fits 31 value then numeric.Int else numeric.Long) }
{
    if is_int(number_type) && fits_int(value) {
        NumberType::Int
    } else {
        NumberType::Long
    }
}

/// A number of the text, which is an `int` only in the range of that.
pub fn constant(value: i64, number_type: NumberType) -> Found
    ensures constant { result ≡ made.constant value number_type }
{
    Found::Value(Expression::Constant {
        value: in_range(value),
        number_type: type_of_constant(value, number_type),
    })
}

/// The type of this number in a list, where it has one.
pub fn type_at(types: &[DataType], at: usize) -> Option<DataType>
    ensures at { result ≡ slice_get types.now at }
{
    types.get(at).copied()
}

/// A type, which is `void` where it isn't there.
pub fn type_or_void(t: Option<DataType>) -> DataType
    ensures of { result ≡ row.type_or_void t }
{
    match t {
        None => DataType::Void,
        Some(t) => t,
    }
}

/// NotAValue: what is named without a call, a variable of these or a constant; where it was declared with a fault, that is noted.
#[tactic(auto, using(crate::proofs::Laws::rows))]
pub fn value_named_by(
    alloc: Global,
    least: &mut Least,
    variables: &[DataType],
    place: Place,
    meaning: Answer<Meaning>,
) -> Answer<Found>
    ensures value { result ≡ answer_then meaning (row.value_named_by variables.now place) }
    ensures noted { least.new ≡ noted least.old (faults_then meaning (row.value_named_by variables.now place)) }
{
    match meaning {
        Answer::Good(Meaning::Variable(number)) => {
            let data_type = type_or_void(type_at(variables, number as usize));
            Answer::Good(variable(alloc, number, data_type))
        }
        Answer::Good(Meaning::Constant(value)) => Answer::Good(Found::Value(
            Expression::Constant {
                value,
                number_type: NumberType::Int,
            },
        )),
        Answer::Good(Meaning::Typeless(fault)) => {
            note(least, fault);
            Answer::Typeless
        }
        Answer::Good(Meaning::Valueless(fault)) => {
            note(least, fault);
            Answer::Typeless
        }
        Answer::Good(_) => {
            wrong(least, place, TypeKind::NotAValue);
            Answer::Faulty
        }
        Answer::Typeless => Answer::Typeless,
        Answer::Faulty => Answer::Faulty,
    }
}

/// `getchar()`
pub fn got_char() -> Found
    ensures got { result ≡ phrase.value typed.GetChar }
{
    Found::Value(Expression::GetChar)
}

/// A part of any type, as a value.
pub fn any_value(alloc: Global, part: Answer<Found>) -> Result<Answer<Expression>, AllocError>
    ensures value { IfOk result (λ r. r ≡ answer_map made.value_of part) }
{
    match part {
        Answer::Good(found) => Ok(Answer::Good(found::value_of(alloc, found)?)),
        Answer::Typeless => Ok(Answer::Typeless),
        Answer::Faulty => Ok(Answer::Faulty),
    }
}

/// `(e)`
pub fn parenthesized(alloc: Global, part: Answer<Found>) -> Result<Answer<Found>, AllocError>
    ensures parenthesized { IfOk result (λ r. r ≡ answer_map made.within_parentheses part) }
{
    match part {
        Answer::Good(found) => Ok(Answer::Good(found::within_parentheses(alloc, found)?)),
        Answer::Typeless => Ok(Answer::Typeless),
        Answer::Faulty => Ok(Answer::Faulty),
    }
}

/// The type of a part, where it has one.
pub fn type_found(part: &Answer<Found>) -> Option<DataType>
    ensures of { result ≡ mapped made.type_in (good_of part.now) }
{
    match part {
        Answer::Good(found) => Some(type_in(found)),
        Answer::Typeless => None,
        Answer::Faulty => None,
    }
}

/// The type of what stands before the next comparison, where it has one.
pub fn row_type(row: &Answer<Row>) -> Option<DataType>
    ensures of { result ≡ mapped phrase.row_type (good_of row.now) }
{
    match row {
        Answer::Good((_, _, data_type)) => Some(*data_type),
        Answer::Typeless => None,
        Answer::Faulty => None,
    }
}

/// The type of what a timed call gives, where it has one.
pub fn timed_type(call: &Answer<Timed>) -> Option<DataType>
    ensures of { result ≡ mapped (λ (v : row.Timed). v.3) (good_of call.now) }
{
    match call {
        Answer::Good((_, _, _, data_type)) => Some(*data_type),
        Answer::Typeless => None,
        Answer::Faulty => None,
    }
}
