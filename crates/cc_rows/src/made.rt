//! What is made of parts, where they are good.

ghost use Rattle.std.specs.Prelude.{◌≡◌, IfOk};
ghost use Rattle.cc_faults.specs.Expressions as phrase;
ghost use Rattle.cc_faults.specs.Judged.{answer_map, answer_pair, answer_put, second};
ghost use Rattle.cc_faults.specs.Made as made;

use crate::found::{type_in, value_of};
use cc_base::{NumberType, Operator, arithmetic};
use cc_faults::{Answer, Found, StepWord, pair};
use cc_typed::{Argument, Change, DataType, Expression, Location};
use sqlite_items::{Boxed, Items};
use std::alloc::{AllocError, Global};

/// The type of an operation with one operand of this type.
fn alone(t: DataType) -> NumberType
    ensures { result ≡ made.alone t }
{
    arithmetic::wider(t.number_type(), NumberType::Int)
}

/// `-e`
pub fn negated(alloc: Global, operand: Answer<Expression>) -> Result<Answer<Found>, AllocError>
    ensures negated { IfOk result (λ r. r ≡ answer_map phrase.negated operand) }
{
    match operand {
        Answer::Good(e) => {
            let number_type = alone(e.data_type());
            let operand = Boxed::new(alloc, e)?;
            Ok(Answer::Good(Found::Value(Expression::Negate {
                operand,
                number_type,
            })))
        }
        Answer::Typeless => Ok(Answer::Typeless),
        Answer::Faulty => Ok(Answer::Faulty),
    }
}

/// `+e`
pub fn plussed(alloc: Global, operand: Answer<Expression>) -> Result<Answer<Found>, AllocError>
    ensures plussed { IfOk result (λ r. r ≡ answer_map phrase.plussed operand) }
{
    match operand {
        Answer::Good(e) => {
            let number_type = alone(e.data_type());
            let operand = Boxed::new(alloc, e)?;
            Ok(Answer::Good(Found::Value(Expression::Plus {
                operand,
                number_type,
            })))
        }
        Answer::Typeless => Ok(Answer::Typeless),
        Answer::Faulty => Ok(Answer::Faulty),
    }
}

/// `!e`
pub fn complemented(alloc: Global, operand: Answer<Expression>) -> Result<Answer<Found>, AllocError>
    ensures complemented { IfOk result (λ r. r ≡ answer_map phrase.complemented operand) }
{
    match operand {
        Answer::Good(e) => {
            let operand = Boxed::new(alloc, e)?;
            Ok(Answer::Good(Found::Value(Expression::Not { operand })))
        }
        Answer::Typeless => Ok(Answer::Typeless),
        Answer::Faulty => Ok(Answer::Faulty),
    }
}

/// `a && b` and so on.
pub fn both_of(
    alloc: Global,
    first: Answer<Expression>,
    rest: Answer<Items<Expression>>,
) -> Result<Answer<Found>, AllocError>
    ensures both { IfOk result (λ r. r ≡ answer_map phrase.both_of (answer_pair first rest)) }
{
    match pair(first, rest) {
        Answer::Good((first, rest)) => {
            let first = Boxed::new(alloc, first)?;
            Ok(Answer::Good(Found::Value(Expression::Both { first, rest })))
        }
        Answer::Typeless => Ok(Answer::Typeless),
        Answer::Faulty => Ok(Answer::Faulty),
    }
}

/// `a || b` and so on.
pub fn either_of(
    alloc: Global,
    first: Answer<Expression>,
    rest: Answer<Items<Expression>>,
) -> Result<Answer<Found>, AllocError>
    ensures either { IfOk result (λ r. r ≡ answer_map phrase.either_of (answer_pair first rest)) }
{
    match pair(first, rest) {
        Answer::Good((first, rest)) => {
            let first = Boxed::new(alloc, first)?;
            Ok(Answer::Good(Found::Value(Expression::Either { first, rest })))
        }
        Answer::Typeless => Ok(Answer::Typeless),
        Answer::Faulty => Ok(Answer::Faulty),
    }
}

/// The type of a choice between arms that fit each other.
fn choice_of(t: DataType, u: DataType) -> DataType
    ensures { result ≡ made.choice_of t u }
{
    if t.is_arithmetic() && u.is_arithmetic() {
        return DataType::number(arithmetic::wider(t.number_type(), u.number_type()));
    }
    t
}

/// What is found as a value of its own.
fn boxed_value(alloc: Global, found: Boxed<Found>) -> Result<Boxed<Expression>, AllocError>
    ensures { IfOk result (λ e. e ≡ made.value_of found) }
{
    let value = value_of(alloc, found.into_inner())?;
    Ok(Boxed::new(alloc, value)?)
}

fn choice(
    alloc: Global,
    condition: Expression,
    yes: Boxed<Found>,
    no: Boxed<Found>,
) -> Result<Found, AllocError>
    ensures { IfOk result (λ r. r ≡ phrase.chosen (condition, (yes, no))) }
{
    let data_type = choice_of(type_in(yes.get()), type_in(no.get()));
    let condition = Boxed::new(alloc, condition)?;
    let yes = boxed_value(alloc, yes)?;
    let no = boxed_value(alloc, no)?;
    Ok(Found::Value(Expression::Choose {
        condition,
        yes,
        no,
        data_type,
    }))
}

/// `c ? x : y`
pub fn chosen(
    alloc: Global,
    condition: Answer<Expression>,
    arms: Answer<(Boxed<Found>, Boxed<Found>)>,
) -> Result<Answer<Found>, AllocError>
    ensures chosen { IfOk result (λ r. r ≡ answer_map phrase.chosen (answer_pair condition arms)) }
{
    match pair(condition, arms) {
        Answer::Good((condition, (yes, no))) => Ok(Answer::Good(choice(
            alloc, condition, yes, no,
        )?)),
        Answer::Typeless => Ok(Answer::Typeless),
        Answer::Faulty => Ok(Answer::Faulty),
    }
}

/// `a = b`
pub fn stored(
    alloc: Global,
    to: Answer<Location>,
    value: Answer<Expression>,
) -> Result<Answer<Found>, AllocError>
    ensures stored { IfOk result (λ r. r ≡ answer_map phrase.stored (answer_pair to value)) }
{
    match pair(to, value) {
        Answer::Good((to, value)) => {
            let value = Boxed::new(alloc, value)?;
            Ok(Answer::Good(Found::Value(Expression::Assign { to, value })))
        }
        Answer::Typeless => Ok(Answer::Typeless),
        Answer::Faulty => Ok(Answer::Faulty),
    }
}

/// `a op= b`
pub fn updated(
    alloc: Global,
    operator: Operator,
    to: Answer<Location>,
    value: Answer<Expression>,
) -> Result<Answer<Found>, AllocError>
    ensures updated { IfOk result (λ r. r ≡ answer_map (phrase.updated operator) (answer_pair to value)) }
{
    match pair(to, value) {
        Answer::Good((to, value)) => {
            let value = Boxed::new(alloc, value)?;
            Ok(Answer::Good(Found::Value(Expression::Update {
                to,
                operator,
                value,
            })))
        }
        Answer::Typeless => Ok(Answer::Typeless),
        Answer::Faulty => Ok(Answer::Faulty),
    }
}

fn change_of(word: StepWord) -> Change
    ensures { result ≡ made.change_of word }
{
    match word {
        StepWord::Up => Change::Up,
        StepWord::Down => Change::Down,
    }
}

/// `++e`, `--e`
pub fn stepped_before(word: StepWord, at: Answer<Location>) -> Answer<Found>
    ensures stepped { result ≡ answer_map (phrase.stepped_before word) at }
{
    match at {
        Answer::Good(at) => Answer::Good(Found::Value(Expression::ChangeBefore {
            at,
            change: change_of(word),
        })),
        Answer::Typeless => Answer::Typeless,
        Answer::Faulty => Answer::Faulty,
    }
}

/// `e++`, `e--`
pub fn stepped_after(word: StepWord, at: Answer<Location>) -> Answer<Found>
    ensures stepped { result ≡ answer_map (phrase.stepped_after word) at }
{
    match at {
        Answer::Good(at) => Answer::Good(Found::Value(Expression::ChangeAfter {
            at,
            change: change_of(word),
        })),
        Answer::Typeless => Answer::Typeless,
        Answer::Faulty => Answer::Faulty,
    }
}

/// `putchar(e)`
pub fn put_out(alloc: Global, value: Answer<Expression>) -> Result<Answer<Found>, AllocError>
    ensures put { IfOk result (λ r. r ≡ answer_map phrase.put_out value) }
{
    match value {
        Answer::Good(e) => {
            let value = Boxed::new(alloc, e)?;
            Ok(Answer::Good(Found::Value(Expression::PutChar { value })))
        }
        Answer::Typeless => Ok(Answer::Typeless),
        Answer::Faulty => Ok(Answer::Faulty),
    }
}

/// `printf`, by the number of its format.
pub fn printed(format: u32, counted: Answer<()>, args: Answer<Items<Expression>>) -> Answer<Found>
    ensures printed { result ≡ answer_map (phrase.printed format) (answer_pair counted args) }
{
    match pair(counted, args) {
        Answer::Good((_, args)) => Answer::Good(Found::Value(Expression::PrintFormat {
            format,
            args,
        })),
        Answer::Typeless => Answer::Typeless,
        Answer::Faulty => Answer::Faulty,
    }
}

/// A part that is pure, or not asked to be.
pub fn kept<T: Drop>(pure: Answer<()>, value: Answer<T>) -> Answer<T>
    ensures kept { result ≡ answer_map second (answer_pair pure value) }
{
    match pair(pure, value) {
        Answer::Good((_, value)) => Answer::Good(value),
        Answer::Typeless => Answer::Typeless,
        Answer::Faulty => Answer::Faulty,
    }
}

/// A list with one more.
pub fn put<T: Drop>(
    so_far: Answer<Items<T>>,
    item: Answer<T>,
) -> Result<Answer<Items<T>>, AllocError>
    ensures put { IfOk result (λ r. r ≡ answer_put so_far item) }
{
    match pair(so_far, item) {
        Answer::Good((mut items, item)) => {
            items.push(item)?;
            Ok(Answer::Good(items))
        }
        Answer::Typeless => Ok(Answer::Typeless),
        Answer::Faulty => Ok(Answer::Faulty),
    }
}

/// A value for a parameter of this type.
pub fn argument_for(data_type: DataType, value: Answer<Expression>) -> Answer<Argument>
    ensures argument { result ≡ answer_map (made.argument_for data_type) value }
{
    match value {
        Answer::Good(value) => Answer::Good(Argument { value, data_type }),
        Answer::Typeless => Answer::Typeless,
        Answer::Faulty => Answer::Faulty,
    }
}
