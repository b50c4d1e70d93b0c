//! Arithmetic on cells, as specs/Numbers.antt defines it.

ghost use Rattle.std.specs.Prelude.{◌≡◌, int_div, MatchOption};
ghost use Rattle.cc_base.specs.Numbers.{at_zero, byte_of, callee, compared, converted, in_range, indexed, operated, number_of, opposite, process_of, truth, updated, wider};

use crate::names::{FaultKind, Pid};
use crate::numbers::{Comparison, NumberType, Operator};

/// The type of an operation on numbers of these types: `long` where one is, otherwise `int`.
#[tactic(auto, unfolding(crate::specs::Numbers::is_long))]
pub fn wider(left: NumberType, right: NumberType) -> NumberType
    ensures value { result ≡ wider left right }
{
    match (left, right) {
        (NumberType::Long, _) | (_, NumberType::Long) => NumberType::Long,
        _ => NumberType::Int,
    }
}

/// A result of arithmetic in a type: Overflow where it is outside.
#[tactic(auto, unfolding(crate::specs::Numbers::in_range, crate::specs::Numbers::is_long, crate::specs::Numbers::is_int))]
pub fn in_range(number_type: NumberType, number: i64) -> Result<i64, FaultKind>
    ensures value { result ≡ in_range number_type number }
{
    let fits = match number_type {
        NumberType::Char => 0 <= number && number <= 255,
        NumberType::Int => -2_147_483_648 <= number && number <= 2_147_483_647,
        NumberType::Long => true,
    };
    if fits {
        Ok(number)
    } else {
        Err(FaultKind::Overflow)
    }
}

/// A number modulo 256.
pub fn byte_of(number: i64) -> u8
    ensures value { result ≡ byte_of number }
{
    number.rem_euclid(256) as u8
}

/// A number of the first type as one of the second: modulo 256 as a `char`, and Overflow where a `long` does not fit an
/// `int`.
#[tactic(auto, unfolding(crate::specs::Numbers::converted, crate::specs::Numbers::is_char, crate::specs::Numbers::is_int, crate::specs::Numbers::is_long))]
pub fn convert(from: NumberType, to: NumberType, number: i64) -> Result<i64, FaultKind>
    ensures value { result ≡ converted from to number }
{
    match (from, to) {
        (_, NumberType::Char) => Ok(i64::from(byte_of(number))),
        (NumberType::Long, NumberType::Int) => in_range(to, number),
        _ => Ok(number),
    }
}

/// A result of arithmetic, which is none where it does not fit 64 bits.
fn in_range_of(number_type: NumberType, whole: Option<i64>) -> Result<i64, FaultKind>
    ensures value { MatchOption whole (result ≡ Err FaultKind.Overflow) (λ n. result ≡ in_range number_type n) }
{
    match whole {
        None => Err(FaultKind::Overflow),
        Some(number) => in_range(number_type, number),
    }
}

/// A quotient: DivideByZero where the divisor is 0.
#[tactic(auto, using(crate::proofs::Quotients::least_quotient))]
fn quotient(number_type: NumberType, left: i64, right: i64) -> Result<i64, FaultKind>
    ensures value { result ≡ at_zero right (Err FaultKind.DivideByZero) (in_range number_type (int_div left right)) }
{
    if right == 0 {
        return Err(FaultKind::DivideByZero);
    }
    if left == i64::MIN && right == -1 {
        return Err(FaultKind::Overflow);
    }
    in_range(number_type, left / right)
}

/// The result of an operation in a type: Overflow where it is outside, DivideByZero where the divisor is 0.
#[tactic(auto, unfolding(crate::specs::Numbers::operated, crate::specs::Numbers::in_range, crate::specs::Numbers::is_long, crate::specs::Numbers::is_int))]
pub fn operate(
    operator: Operator,
    number_type: NumberType,
    left: i64,
    right: i64,
) -> Result<i64, FaultKind>
    ensures value { result ≡ operated operator number_type left right }
{
    match operator {
        Operator::Add => in_range_of(number_type, left.checked_add(right)),
        Operator::Subtract => in_range_of(number_type, left.checked_sub(right)),
        Operator::Multiply => in_range_of(number_type, left.checked_mul(right)),
        Operator::Divide => quotient(number_type, left, right),
        Operator::Remainder => {
            if right == 0 {
                return Err(FaultKind::DivideByZero);
            }
            in_range(number_type, left.wrapping_rem(right))
        }
    }
}

/// The opposite of a number: Overflow where it is outside the type.
#[tactic(auto, unfolding(crate::specs::Numbers::operated))]
pub fn negate(number_type: NumberType, number: i64) -> Result<i64, FaultKind>
    ensures value { result ≡ opposite number_type number }
{
    operate(Operator::Subtract, number_type, 0, number)
}

/// What an update of a number of type `place` by an operation with one of type `amount` stores.
pub fn update(
    operator: Operator,
    place: NumberType,
    amount: NumberType,
    old: i64,
    number: i64,
) -> Result<i64, FaultKind>
    ensures value { result ≡ updated operator place amount old number }
{
    let whole = wider(place, amount);
    let new = operate(operator, whole, old, number)?;
    convert(whole, place, new)
}

/// Whether the comparison holds.
#[tactic(auto, unfolding(crate::specs::Numbers::compared))]
pub fn compare(comparison: Comparison, left: i64, right: i64) -> bool
    ensures value { result ≡ compared comparison left right }
{
    match comparison {
        Comparison::Less => left < right,
        Comparison::AtMost => left <= right,
        Comparison::Greater => left > right,
        Comparison::AtLeast => left >= right,
        Comparison::Equal => left == right,
        Comparison::Different => left != right,
    }
}

/// 1 for true, 0 for false.
pub fn truth(holds: bool) -> i64
    ensures value { result ≡ truth holds }
{
    i64::from(holds)
}

/// An index of an array of `length` elements: Index where it is outside.
#[tactic(auto, unfolding(crate::specs::Numbers::indexed))]
pub fn index(length: u32, number: i64) -> Result<u32, FaultKind>
    ensures value { result ≡ indexed length number }
{
    match u32::try_from(number) {
        Ok(at) if at < length => Ok(at),
        _ => Err(FaultKind::Index),
    }
}

/// The process of a number, which is one more than the process's own; none for null and for what names no process.
pub fn process_of(number: i64) -> Option<Pid>
    ensures value { result ≡ process_of number }
{
    if 1 <= number && number <= 4_294_967_296 {
        Some(Pid((number - 1) as u32))
    } else {
        None
    }
}

/// The process that a call names: NullProcess where the number names none.
pub fn callee(number: i64) -> Result<Pid, FaultKind>
    ensures value { result ≡ callee number }
{
    process_of(number).ok_or(FaultKind::NullProcess)
}

/// A process, as a number.
pub fn number_of(process: Pid) -> i64
    ensures value { result ≡ number_of process }
{
    i64::from(process.0) + 1
}
