use FaultKind::{DivideByZero, Index, NullProcess, Overflow};
use NumberType::{Char, Int, Long};
use Operator::{Add, Divide, Multiply, Remainder, Subtract};
use cc_base::arithmetic::{
    byte_of, callee, compare, convert, index, negate, number_of, operate, process_of, update, wider,
};
use cc_base::{Comparison, FaultKind, NumberType, Operator, Pid};
use std::rt::HostRuntime;

/// An operation, its type, its operands and its result.
type Row = (Operator, NumberType, i64, i64, Result<i64, FaultKind>);

const OPERATIONS: [Row; 28] = [
    (Add, Int, 2_147_483_646, 1, Ok(2_147_483_647)),
    (Add, Int, 2_147_483_647, 1, Err(Overflow)),
    (Add, Int, -2_147_483_647, -1, Ok(-2_147_483_648)),
    (Add, Int, -2_147_483_648, -1, Err(Overflow)),
    (Add, Long, 2_147_483_647, 1, Ok(2_147_483_648)),
    (
        Add,
        Long,
        9_223_372_036_854_775_806,
        1,
        Ok(9_223_372_036_854_775_807),
    ),
    (Add, Long, 9_223_372_036_854_775_807, 1, Err(Overflow)),
    (Add, Long, -9_223_372_036_854_775_808, -1, Err(Overflow)),
    (Add, Char, 254, 1, Ok(255)),
    (Add, Char, 255, 1, Err(Overflow)),
    (Subtract, Int, -2_147_483_648, 1, Err(Overflow)),
    (Subtract, Long, 0, -9_223_372_036_854_775_808, Err(Overflow)),
    (Subtract, Int, 3, 5, Ok(-2)),
    (Multiply, Int, 65_536, 32_768, Err(Overflow)),
    (Multiply, Int, -65_536, 32_768, Ok(-2_147_483_648)),
    (Multiply, Long, 4_294_967_296, 2_147_483_648, Err(Overflow)),
    (
        Multiply,
        Long,
        -4_294_967_296,
        2_147_483_648,
        Ok(-9_223_372_036_854_775_808),
    ),
    (Divide, Int, 7, 2, Ok(3)),
    (Divide, Int, -7, 2, Ok(-3)),
    (Divide, Int, 7, -2, Ok(-3)),
    (Divide, Int, 7, 0, Err(DivideByZero)),
    (Divide, Int, -2_147_483_648, -1, Err(Overflow)),
    (Divide, Long, -9_223_372_036_854_775_808, -1, Err(Overflow)),
    (Remainder, Int, 7, 2, Ok(1)),
    (Remainder, Int, -7, 2, Ok(-1)),
    (Remainder, Int, 7, -2, Ok(1)),
    (Remainder, Int, 7, 0, Err(DivideByZero)),
    (Remainder, Long, -9_223_372_036_854_775_808, -1, Ok(0)),
];

#[test]
fn operations_are_in_range_or_a_fault(rt: HostRuntime) {
    for (operator, number_type, left, right, result) in OPERATIONS {
        assert_eq!(rt; operate(operator, number_type, left, right), result);
    }
}

#[test]
fn numbers_are_converted(rt: HostRuntime) {
    assert_eq!(rt; convert(Int, Char, 256), Ok(0));
    assert_eq!(rt; convert(Char, Char, 255), Ok(255));
    assert_eq!(rt; convert(Long, Char, -1), Ok(255));
    assert_eq!(rt; convert(Long, Int, 2_147_483_647), Ok(2_147_483_647));
    assert_eq!(rt; convert(Long, Int, 2_147_483_648), Err(Overflow));
    assert_eq!(rt; convert(Int, Long, -5), Ok(-5));
    assert_eq!(rt; negate(Int, -2_147_483_648), Err(Overflow));
    assert_eq!(rt; negate(Long, -2_147_483_648), Ok(2_147_483_648));
    assert_eq!(rt; byte_of(-257), 255);
    assert_eq!(rt; wider(Char, Char), Int);
    assert_eq!(rt; wider(Int, Long), Long);
}

#[test]
fn updates_are_converted_to_the_place(rt: HostRuntime) {
    assert_eq!(rt; update(Add, Char, Int, 255, 1), Ok(0));
    assert_eq!(rt; update(Subtract, Char, Long, 0, 1_000), Ok(24));
    assert_eq!(rt; update(Add, Int, Int, 2_147_483_647, 1), Err(Overflow));
    assert_eq!(rt; update(Add, Int, Long, 0, 2_147_483_648), Err(Overflow));
    assert_eq!(rt; update(Add, Long, Int, 2_147_483_647, 1), Ok(2_147_483_648));
}

#[test]
fn numbers_are_compared(rt: HostRuntime) {
    let orders = [
        (Comparison::Less, [true, false, false]),
        (Comparison::AtMost, [true, true, false]),
        (Comparison::Greater, [false, false, true]),
        (Comparison::AtLeast, [false, true, true]),
        (Comparison::Equal, [false, true, false]),
        (Comparison::Different, [true, false, true]),
    ];
    for (comparison, [less, equal, greater]) in orders {
        assert_eq!(rt; compare(comparison, -1, 1), less);
        assert_eq!(rt; compare(comparison, 1, 1), equal);
        assert_eq!(rt; compare(comparison, 1, -1), greater);
    }
}

#[test]
fn indexes_and_processes_have_bounds(rt: HostRuntime) {
    assert_eq!(rt; index(8, 7), Ok(7));
    assert_eq!(rt; index(8, 8), Err(Index));
    assert_eq!(rt; index(8, -1), Err(Index));
    assert_eq!(rt; index(0, 0), Err(Index));
    assert_eq!(rt; process_of(0), None);
    assert_eq!(rt; process_of(1), Some(Pid(0)));
    assert_eq!(rt; process_of(4_294_967_296), Some(Pid(4_294_967_295)));
    assert_eq!(rt; process_of(4_294_967_297), None);
    assert_eq!(rt; callee(-1), Err(NullProcess));
    assert_eq!(rt; callee(2), Ok(Pid(1)));
    assert_eq!(rt; number_of(Pid(0)), 1);
}
