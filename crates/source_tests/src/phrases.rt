//! Which phrases are typed.

use crate::builders::{calls, is_typed, is_typed_in};
use crate::trees::{evaluate, number, one, read, variable};
use cc_typed::{
    ChainStep, DataType, Expression, NumberType, Operation, Operator, PartStep, Statement,
};
use sqlite_items::{Boxed, Items};
use std::alloc::{AllocError, Global};
use std::rt::HostRuntime;

/// `x + 1L` with this type.
fn sum(
    alloc: Global,
    number_type: NumberType,
    row_type: NumberType,
) -> Result<Statement, AllocError> {
    let operation = Operation {
        operator: Operator::Add,
        operand: number(1, NumberType::Long),
        number_type,
    };
    let first = Boxed::new(alloc, read(variable(alloc, 0, DataType::int())))?;
    let rest = one(alloc, operation)?;
    evaluate(Expression::Arithmetic {
        first,
        rest,
        number_type: row_type,
    })
}

/// `while (1) break;`.
fn turn(alloc: Global) -> Result<Statement, AllocError> {
    Ok(Statement::While {
        condition: number(1, NumberType::Int),
        body: Boxed::new(alloc, Statement::Break)?,
    })
}

/// `x.f`, as a chain on the place `x`.
fn part_of_a_place(alloc: Global) -> Result<Statement, AllocError> {
    let step = PartStep::Field {
        field: 0,
        data_type: DataType::int(),
    };
    evaluate(Expression::Chain {
        first: Boxed::new(alloc, read(variable(alloc, 0, DataType::int())))?,
        steps: one(alloc, ChainStep::Part { step })?,
        data_type: DataType::int(),
    })
}

/// Whether `p.t().t() ..` with so many calls is typed.
fn chain(alloc: Global, count: u32) -> Result<bool, AllocError> {
    let statement = evaluate(calls(alloc, count)?);
    is_typed_in(alloc, Items::new(alloc), DataType::process(1), statement)
}

#[test]
fn expressions_are_typed_or_not(rt: HostRuntime) {
    let alloc = rt.alloc();
    let fine = is_typed(alloc, sum(alloc, NumberType::Long, NumberType::Long));
    assert!(rt; fine.expect(&rt, "memory"));
    let narrow = is_typed(alloc, sum(alloc, NumberType::Int, NumberType::Int));
    assert!(rt; !narrow.expect(&rt, "memory"));
    let other = is_typed(alloc, sum(alloc, NumberType::Long, NumberType::Int));
    assert!(rt; !other.expect(&rt, "memory"));
    let missing = is_typed(alloc, evaluate(read(variable(alloc, 1, DataType::int()))));
    assert!(rt; !missing.expect(&rt, "memory"));
    let large = is_typed(alloc, evaluate(number(5_000_000_000, NumberType::Int)));
    assert!(rt; !large.expect(&rt, "memory"));
    let part = is_typed(alloc, part_of_a_place(alloc));
    assert!(rt; !part.expect(&rt, "memory"));
}

#[test]
fn statements_are_typed_or_not(rt: HostRuntime) {
    let alloc = rt.alloc();
    let inside = is_typed(alloc, turn(alloc));
    assert!(rt; inside.expect(&rt, "memory"));
    let outside = is_typed(alloc, Ok(Statement::Break));
    assert!(rt; !outside.expect(&rt, "memory"));
    let value = Some(number(5_000_000_000, NumberType::Long));
    let finish = is_typed(alloc, Ok(Statement::Finish { value }));
    assert!(rt; finish.expect(&rt, "memory"));
    let value = Some(read(variable(alloc, 0, DataType::process(1))));
    let other = is_typed(alloc, Ok(Statement::Finish { value }));
    assert!(rt; !other.expect(&rt, "memory"));
    let wait = number(5, NumberType::Int);
    let delay = is_typed(alloc, Ok(Statement::Delay { wait }));
    assert!(rt; delay.expect(&rt, "memory"));
    let alternatives = Items::new(alloc);
    let select = is_typed(alloc, Ok(Statement::Select { alternatives }));
    assert!(rt; !select.expect(&rt, "memory"));
}

#[test]
fn a_chain_of_200_000_calls_is_typed(rt: HostRuntime) {
    let answer = chain(rt.alloc(), 200_000);
    assert!(rt; answer.expect(&rt, "memory"));
}
