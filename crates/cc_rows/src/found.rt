ghost use Rattle.std.specs.Prelude.{◌≡◌, IfOk};
ghost use Rattle.cc_faults.specs.Made as made;
ghost use Rattle.cc_faults.specs.declared.scope.Found.TheVariants as found_as;
ghost use Rattle.cc_typed.specs.declared.tree.Expression.TheVariants as expression;
ghost use Rattle.cc_typed.specs.Types.{is_array, is_assignable, is_process, is_same, is_struct, is_void};

use cc_faults::Found;
use cc_typed::{ChainStep, DataType, ElementType, Expression, Location, PartStep};
use sqlite_items::{Boxed, Items};
use std::alloc::{AllocError, Global};

/// The type of what is found.
pub fn type_in(found: &Found) -> DataType
    ensures of { result ≡ made.type_in found.now }
{
    match found {
        Found::Place(location) => location.data_type,
        Found::Value(e) => e.data_type(),
        Found::Chain { data_type, .. } => *data_type,
        Found::Call { data_type, .. } => *data_type,
    }
}

/// An expression with steps behind it, of which there may be none.
pub(crate) fn behind(
    alloc: Global,
    first: Expression,
    steps: Items<ChainStep>,
    data_type: DataType,
) -> Result<Expression, AllocError>
    ensures { IfOk result (λ e. e ≡ made.behind first steps data_type) }
{
    if steps.is_empty() {
        return Ok(first);
    }
    let first = Boxed::new(alloc, first)?;
    Ok(Expression::Chain {
        first,
        steps,
        data_type,
    })
}

/// Its first value and the steps behind that.
pub(crate) fn parts_of(
    alloc: Global,
    found: Found,
) -> Result<(Expression, Items<ChainStep>), AllocError>
    ensures { IfOk result (λ r. r ≡ (made.first_of found, made.steps_of found)) }
{
    match found {
        Found::Place(from) => Ok((Expression::Read { from }, Items::new(alloc))),
        Found::Value(e) => Ok((e, Items::new(alloc))),
        Found::Chain { first, steps, .. } => Ok((first, steps)),
        Found::Call {
            first,
            steps,
            transaction,
            args,
            data_type,
            ..
        } => {
            let mut steps = steps;
            steps.push(ChainStep::Call {
                transaction,
                args,
                data_type,
            })?;
            Ok((first, steps))
        }
    }
}

/// What is found as a value.
pub fn value_of(alloc: Global, found: Found) -> Result<Expression, AllocError>
    ensures value { IfOk result (λ e. e ≡ made.value_of found) }
{
    let data_type = type_in(&found);
    let (first, steps) = parts_of(alloc, found)?;
    Ok(behind(alloc, first, steps, data_type)?)
}

/// What is found with a step behind it that leads to a value of this type.
pub fn with_step(
    alloc: Global,
    found: Found,
    step: ChainStep,
    data_type: DataType,
) -> Result<Found, AllocError>
    ensures step { IfOk result (λ v. v ≡ made.with_step found step data_type) }
{
    let (first, mut steps) = parts_of(alloc, found)?;
    steps.push(step)?;
    Ok(Found::Chain {
        first,
        steps,
        data_type,
    })
}

/// The variable of this number and type.
pub fn variable(alloc: Global, number: u32, data_type: DataType) -> Found
    ensures variable { result ≡ made.variable number data_type }
{
    Found::Place(Location {
        variable: number,
        of: data_type,
        steps: Items::new(alloc),
        data_type,
    })
}

fn with_part(location: Location, step: PartStep) -> Result<Found, AllocError>
    ensures { IfOk result (λ v. v ≡ made.with_part location step) }
{
    let data_type = step.data_type();
    let Location {
        variable,
        of,
        steps,
        ..
    } = location;
    let mut steps = steps;
    steps.push(step)?;
    Ok(Found::Place(Location {
        variable,
        of,
        steps,
        data_type,
    }))
}

/// A part of what is found: of a place it is a place.
pub fn part_of(alloc: Global, found: Found, step: PartStep) -> Result<Found, AllocError>
    ensures part { IfOk result (λ v. v ≡ made.part_of found step) }
{
    let data_type = step.data_type();
    match found {
        Found::Place(location) => Ok(with_part(location, step)?),
        other => Ok(with_step(alloc, other, ChainStep::Part { step }, data_type)?),
    }
}

/// A value within parentheses.
fn parenthesized(alloc: Global, found: Found) -> Result<Found, AllocError>
    ensures { IfOk result (λ v. v ≡ found_as.Value (expression.Parenthesized (made.value_of found) (made.type_in found))) }
{
    let data_type = type_in(&found);
    let operand = value_of(alloc, found)?;
    let operand = Boxed::new(alloc, operand)?;
    Ok(Found::Value(Expression::Parenthesized { operand, data_type }))
}

/// What is found within parentheses: a place stays a place.
pub fn within_parentheses(alloc: Global, found: Found) -> Result<Found, AllocError>
    ensures within { IfOk result (λ v. v ≡ made.within_parentheses found) }
{
    match found {
        Found::Place(location) => Ok(Found::Place(location)),
        other => Ok(parenthesized(alloc, other)?),
    }
}

/// The type of an array's elements.
pub fn element_of(t: DataType) -> DataType
    ensures element { result ≡ made.element_of t }
{
    match t {
        DataType::Array { element, .. } => DataType::Single(element),
        other => other,
    }
}

pub(crate) fn is_void(t: DataType) -> bool
    ensures { result ≡ is_void t }
{
    matches!(t, DataType::Void)
}

pub(crate) fn is_array(t: DataType) -> bool
    ensures { result ≡ is_array t }
{
    matches!(t, DataType::Array { .. })
}

pub(crate) fn is_struct(t: DataType) -> bool
    ensures { result ≡ is_struct t }
{
    matches!(t, DataType::Single(ElementType::Struct { .. }))
}

pub(crate) fn is_process(t: DataType) -> bool
    ensures { result ≡ is_process t }
{
    matches!(t, DataType::Single(ElementType::Process { .. }))
}

pub(crate) fn is_same(t: DataType, u: DataType) -> bool
    ensures { result ≡ is_same t u }
{
    t == u
}

/// Whether a value of the first type may be assigned to the second.
pub(crate) fn is_assignable(from: DataType, to: DataType) -> bool
    ensures { result ≡ is_assignable from to }
{
    from.is_arithmetic() && to.is_arithmetic()
        || (is_process(to) || is_struct(to)) && is_same(from, to)
}
