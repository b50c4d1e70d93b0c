//! Operators in a row, which group from the left, and steps behind what is found.

ghost use Rattle.std.specs.Prelude.{◌≡◌, IfOk, OnOk};
ghost use Rattle.cc_faults.specs.Expressions as phrase;
ghost use Rattle.cc_faults.specs.Faults.{noted};
ghost use Rattle.cc_faults.specs.Judged.{answer, answer_asked, answer_map, answer_pair, answer_then, faults, faults_asked, faults_then};
ghost use Rattle.cc_faults.specs.Made as made;
ghost use Rattle.cc_faults.specs.Rows as row;
ghost use Rattle.cc_faults.specs.declared.answer.Answer.TheVariants as an;

use crate::found::{behind, element_of, part_of, type_in, value_of};
use crate::rows::may_be_compared;
use cc_base::{Comparison, NumberType, Operator, Place, arithmetic};
use cc_faults::{Answer, Found, Least, TypeKind, pair, wrong};
use cc_typed::{Argument, Compared, DataType, Expression, Operation, PartStep};
use sqlite_items::{Boxed, Items};
use std::alloc::{AllocError, Global};

/// The first operand, the operations behind it, and their type.
pub type Sum = (Expression, Items<Operation>, NumberType);

/// The first operand, the comparisons behind it, and the type of what stands before the next one.
pub type Row = (Expression, Items<Compared>, DataType);

/// What a timed call waits for: the process, the transaction, its arguments and its type.
pub type Timed = (Expression, u32, Items<Argument>, DataType);

/// A row of operations that begins with this operand.
pub fn sum_from(alloc: Global, first: Answer<Expression>) -> Answer<Sum>
    ensures sum { result ≡ answer_map made.sum_from first }
{
    match first {
        Answer::Good(e) => {
            let number_type = e.data_type().number_type();
            Answer::Good((e, Items::new(alloc), number_type))
        }
        Answer::Typeless => Answer::Typeless,
        Answer::Faulty => Answer::Faulty,
    }
}

/// A row with one more operation.
pub fn added(
    operator: Operator,
    so_far: Answer<Sum>,
    operand: Answer<Expression>,
) -> Result<Answer<Sum>, AllocError>
    ensures added { IfOk result (λ r. r ≡ answer_map (made.added operator) (answer_pair so_far operand)) }
{
    match pair(so_far, operand) {
        Answer::Good(((first, mut rest, t), operand)) => {
            let number_type = arithmetic::wider(t, operand.data_type().number_type());
            rest.push(Operation {
                operator,
                operand,
                number_type,
            })?;
            Ok(Answer::Good((first, rest, number_type)))
        }
        Answer::Typeless => Ok(Answer::Typeless),
        Answer::Faulty => Ok(Answer::Faulty),
    }
}

/// A whole row of operations.
pub fn summed(alloc: Global, sum: Answer<Sum>) -> Result<Answer<Found>, AllocError>
    ensures summed { IfOk result (λ r. r ≡ answer_map made.summed sum) }
{
    match sum {
        Answer::Good((first, rest, number_type)) => {
            let first = Boxed::new(alloc, first)?;
            Ok(Answer::Good(Found::Value(Expression::Arithmetic {
                first,
                rest,
                number_type,
            })))
        }
        Answer::Typeless => Ok(Answer::Typeless),
        Answer::Faulty => Ok(Answer::Faulty),
    }
}

/// A row of comparisons that begins with this operand.
pub fn row_from(alloc: Global, first: Answer<Found>) -> Result<Answer<Row>, AllocError>
    ensures row { IfOk result (λ r. r ≡ answer_map made.row_from first) }
{
    match first {
        Answer::Good(found) => {
            let data_type = type_in(&found);
            let e = value_of(alloc, found)?;
            Ok(Answer::Good((e, Items::new(alloc), data_type)))
        }
        Answer::Typeless => Ok(Answer::Typeless),
        Answer::Faulty => Ok(Answer::Faulty),
    }
}

/// A row with one more comparison.
pub fn with_comparison(
    comparison: Comparison,
    so_far: Answer<Row>,
    operand: Answer<Expression>,
) -> Result<Answer<Row>, AllocError>
    ensures compared { IfOk result (λ r. r ≡ answer_map (made.with_comparison comparison) (answer_pair so_far operand)) }
{
    match pair(so_far, operand) {
        Answer::Good(((first, mut rest, _), operand)) => {
            rest.push(Compared {
                comparison,
                operand,
            })?;
            Ok(Answer::Good((first, rest, DataType::int())))
        }
        Answer::Typeless => Ok(Answer::Typeless),
        Answer::Faulty => Ok(Answer::Faulty),
    }
}

/// Mismatch: what stands before a comparison, beside the type of its right operand, where that is known.
#[tactic(auto, using(crate::proofs::Laws::rows))]
pub fn comparable_row(
    least: &mut Least,
    comparison: Comparison,
    other: Option<DataType>,
    place: Place,
    so_far: Answer<Row>,
) -> Answer<Row>
    ensures value { result ≡ answer_then so_far (λ (v : made.Row). row.comparable comparison other place (phrase.row_type v) v) }
    ensures noted { least.new ≡ noted least.old (faults_then so_far (λ (v : made.Row). row.comparable comparison other place (phrase.row_type v) v)) }
{
    match so_far {
        Answer::Good(row) => {
            if !may_be_compared(comparison, other, row.2) {
                wrong(least, place, TypeKind::Mismatch);
                return Answer::Faulty;
            }
            Answer::Good(row)
        }
        Answer::Typeless => Answer::Typeless,
        Answer::Faulty => Answer::Faulty,
    }
}

/// Mismatch: the right operand of a comparison, beside the type of what stands before it, where that is known.
#[tactic(auto, using(crate::proofs::Laws::rows))]
pub fn comparable_operand(
    alloc: Global,
    least: &mut Least,
    comparison: Comparison,
    other: Option<DataType>,
    place: Place,
    operand: Answer<Found>,
) -> Result<Answer<Expression>, AllocError>
    ensures value { IfOk result (λ r. r ≡ answer_then operand (λ (v : Found). row.comparable comparison other place (made.type_in v) (made.value_of v))) }
    ensures noted { OnOk result (least.new ≡ noted least.old (faults_then operand (λ (v : Found). row.comparable comparison other place (made.type_in v) (made.value_of v)))) }
{
    match operand {
        Answer::Good(found) => {
            if !may_be_compared(comparison, other, type_in(&found)) {
                wrong(least, place, TypeKind::Mismatch);
                return Ok(Answer::Faulty);
            }
            Ok(Answer::Good(value_of(alloc, found)?))
        }
        Answer::Typeless => Ok(Answer::Typeless),
        Answer::Faulty => Ok(Answer::Faulty),
    }
}

/// A whole row of comparisons.
pub fn compared_in(alloc: Global, row: Answer<Row>) -> Result<Answer<Found>, AllocError>
    ensures compared { IfOk result (λ r. r ≡ answer_map made.compared_in row) }
{
    match row {
        Answer::Good((first, rest, _)) => {
            let first = Boxed::new(alloc, first)?;
            Ok(Answer::Good(Found::Value(Expression::Compare { first, rest })))
        }
        Answer::Typeless => Ok(Answer::Typeless),
        Answer::Faulty => Ok(Answer::Faulty),
    }
}

fn element(alloc: Global, array: Found, index: Expression) -> Result<Found, AllocError>
    ensures { IfOk result (λ r. r ≡ phrase.indexed (array, index)) }
{
    let data_type = element_of(type_in(&array));
    Ok(part_of(alloc, array, PartStep::Element { index, data_type })?)
}

/// `a[i]`
pub fn indexed(
    alloc: Global,
    array: Answer<Found>,
    index: Answer<Expression>,
) -> Result<Answer<Found>, AllocError>
    ensures indexed { IfOk result (λ r. r ≡ answer_map phrase.indexed (answer_pair array index)) }
{
    match pair(array, index) {
        Answer::Good((array, index)) => Ok(Answer::Good(element(alloc, array, index)?)),
        Answer::Typeless => Ok(Answer::Typeless),
        Answer::Faulty => Ok(Answer::Faulty),
    }
}

/// NotTimed of a middle of `within` that has a type.
#[tactic(auto, using(crate::proofs::Laws::rows))]
fn timed_call(
    alloc: Global,
    least: &mut Least,
    place: Place,
    found: Found,
) -> Result<Answer<Timed>, AllocError>
    ensures value { IfOk result (λ r. r ≡ answer (row.timed place found)) }
    ensures noted { OnOk result (least.new ≡ noted least.old (faults (row.timed place found))) }
{
    match found {
        Found::Call {
            first,
            steps,
            process,
            transaction,
            args,
            data_type,
        } => {
            let process = behind(alloc, first, steps, process)?;
            Ok(Answer::Good((process, transaction, args, data_type)))
        }
        _ => {
            wrong(least, place, TypeKind::NotTimed);
            Ok(Answer::Faulty)
        }
    }
}

/// NotTimed of a middle without a type.
#[tactic(auto, using(crate::proofs::Laws::joined))]
fn typeless_call(least: &mut Least, place: Place, may_be: bool) -> Answer<Timed>
    ensures value { result ≡ answer_asked an.Typeless (row.timed place) (row.a_timed_call may_be place) }
    ensures noted { least.new ≡ noted least.old (faults_asked an.Typeless (row.timed place) (row.a_timed_call may_be place)) }
{
    if !may_be {
        wrong(least, place, TypeKind::NotTimed);
        return Answer::Faulty;
    }
    Answer::Typeless
}

/// NotTimed: the middle of `within` is a call of a synchronous transaction, or has no type and may be one.
#[tactic(auto, using(crate::proofs::Laws::joined))]
pub fn timed(
    alloc: Global,
    least: &mut Least,
    place: Place,
    may_be: bool,
    middle: Answer<Found>,
) -> Result<Answer<Timed>, AllocError>
    ensures value { IfOk result (λ r. r ≡ answer_asked middle (row.timed place) (row.a_timed_call may_be place)) }
    ensures noted { OnOk result (least.new ≡ noted least.old (faults_asked middle (row.timed place) (row.a_timed_call may_be place))) }
{
    match middle {
        Answer::Good(found) => Ok(timed_call(alloc, least, place, found)?),
        Answer::Typeless => Ok(typeless_call(least, place, may_be)),
        Answer::Faulty => Ok(Answer::Faulty),
    }
}

fn boxed_wait(
    alloc: Global,
    wait: Expression,
    timed: Timed,
    otherwise: Expression,
) -> Result<Found, AllocError>
    ensures { IfOk result (λ r. r ≡ phrase.waited (wait, (timed, otherwise))) }
{
    let (process, transaction, args, data_type) = timed;
    let wait = Boxed::new(alloc, wait)?;
    let process = Boxed::new(alloc, process)?;
    let otherwise = Boxed::new(alloc, otherwise)?;
    Ok(Found::Value(Expression::Within {
        wait,
        process,
        transaction,
        args,
        otherwise,
        data_type,
    }))
}

/// `within d ? p.t(args) : e`
pub fn waited(
    alloc: Global,
    wait: Answer<Expression>,
    call: Answer<(Timed, Expression)>,
) -> Result<Answer<Found>, AllocError>
    ensures waited { IfOk result (λ r. r ≡ answer_map phrase.waited (answer_pair wait call)) }
{
    match pair(wait, call) {
        Answer::Good((wait, (timed, otherwise))) => Ok(Answer::Good(boxed_wait(
            alloc, wait, timed, otherwise,
        )?)),
        Answer::Typeless => Ok(Answer::Typeless),
        Answer::Faulty => Ok(Answer::Faulty),
    }
}
