//! What each instruction of the loop does with the lists of cells and the registers.
//!
//! Each function here is part of the machine's loop. None of them allocates, and what verification proves is not tested again.

ghost use Rattle.std.specs.Prelude.{◌≡◌, ◌+◌, ◌-◌, ◌*◌, ◌<◌, ◌≤◌, pos, Ok, Some, None, length, replicate, take, drop};
ghost use Rattle.cc_base.specs.Numbers.{at_zero, compared, converted, indexed, logical_not, operated, opposite, truth};
ghost use Rattle.cc_code.specs.Works.{further, with_cells};
ghost use Rattle.cc_vm.specs.Fragments.{element_at};
ghost use Rattle.cc_vm.specs.Machine.{Acts, AreWithin, Bumps, Clears, Fetches, HasPlace, PicksAt, Puts};
ghost use Rattle.cc_vm.specs.Machine.{PutsIf, Replaces, Stores, Ticks, Updates, between, cell_of, located, moved};
ghost use Rattle.std.specs.Prelude.{nat_le};

use crate::moves::{clear_cells, move_cells, put_cells};
use crate::registers::{Registers, Stop};
use crate::variables::{element, further};
use cc_base::arithmetic::{compare, convert, index, negate, operate, truth, update};
use cc_base::{Comparison, FaultKind, NumberType, Operator};
use cc_code::Instr;

/// Goes on at the next instruction, with the operands up to a place.
#[inline(always)]
fn go_on(r: &mut Registers, top: usize)
    requires low { r.old.at < 65535 }
    requires few { r.old.count ≤ 131072 }
    ensures { r.new ≡ moved r.old (r.old.at + 1) top }
{
    r.at += 1;
    r.top = top;
    r.count += 1;
}

/// Puts an outcome at a place of the operands, where they end then, or stops with its fault.
#[inline(always)]
fn replace(
    stack: &mut [i64],
    r: &mut Registers,
    place: usize,
    outcome: Result<i64, FaultKind>,
) -> Option<Stop>
    requires place { place < length stack.old }
    requires low { r.old.at < 65535 }
    requires few { r.old.count ≤ 131072 }
    ensures { Replaces outcome place stack.old r.old stack.new r.new result }
{
    match outcome {
        Ok(number) => {
            stack[place] = number;
            go_on(r, place + 1);
            None
        }
        Err(kind) => Some(Stop::Fault(kind)),
    }
}

/// Where so many variable cells from an offset on stand among the variables, if all are there.
#[inline(always)]
pub(crate) fn locate_from(cells: &[i64], r: &Registers, offset: u64, count: usize) -> Option<usize>
    requires first { r.now.first ≤ r.now.end }
    requires end { r.now.end ≤ length cells.now }
    ensures { result ≡ located (pos offset) count (between r.now.first r.now.end cells.now) }
{
    let _ = cells;
    let variables = r.end - r.first;
    if count <= variables && offset <= (variables - count) as u64 {
        Some(offset as usize)
    } else {
        None
    }
}

/// The same for an offset that the code computed.
#[inline(always)]
fn locate(cells: &[i64], r: &Registers, offset: i64, count: usize) -> Option<usize>
    requires first { r.now.first ≤ r.now.end }
    requires end { r.now.end ≤ length cells.now }
    ensures { result ≡ located offset count (between r.now.first r.now.end cells.now) }
{
    if offset < 0 {
        return None;
    }
    locate_from(cells, r, offset as u64, count)
}

/// The cell at a place of the operands.
#[inline(always)]
pub(crate) fn cell_at(stack: &[i64], place: usize) -> i64
    requires { place < length stack.now }
    ensures { result ≡ cell_of stack.now place }
{
    stack[place]
}

/// Zeros on top of the operands.
#[inline(always)]
fn zeros(stack: &mut [i64], r: &mut Registers, count: usize) -> Option<Stop>
    requires room { r.old.top + count ≤ length stack.old }
    requires low { r.old.at < 65535 }
    requires few { r.old.count ≤ 131072 }
    ensures { Puts (replicate count (pos 0)) r.old.top stack.old r.old stack.new r.new result }
{
    let top = r.top;
    clear_cells(stack, top, count);
    go_on(r, top + count);
    None
}

/// Variable cells in place of their offset.
#[inline(always)]
fn fetch(stack: &mut [i64], cells: &[i64], r: &mut Registers, count: usize) -> Option<Stop>
    requires operand { 0 < r.old.top }
    requires room { r.old.top - 1 + count ≤ length stack.old }
    requires within { AreWithin r.old (length stack.old) (length cells.now) }
    ensures { Fetches (located (cell_of stack.old (r.old.top - 1)) count (between r.old.first r.old.end cells.now)) count
        (between r.old.first r.old.end cells.now) (r.old.top - 1) stack.old r.old stack.new r.new result }
{
    let place = r.top - 1;
    let offset = cell_at(stack, place);
    match locate(cells, r, offset, count) {
        Some(offset) => {
            put_cells(stack, place, cells, r.first + offset, count);
            go_on(r, place + count);
            None
        }
        None => Some(Stop::Fault(FaultKind::Index)),
    }
}

/// The cells above an offset are stored in the variables there, and stand in place of it.
#[inline(always)]
fn put(stack: &mut [i64], cells: &mut [i64], r: &mut Registers, count: usize) -> Option<Stop>
    requires operands { count < r.old.top }
    requires within { AreWithin r.old (length stack.old) (length cells.old) }
    ensures { Stores (located (cell_of stack.old (r.old.top - count - 1)) count (between r.old.first r.old.end cells.old))
        (between (r.old.top - count) r.old.top stack.old) (r.old.top - count - 1) stack.old cells.old r.old stack.new cells.new
        r.new result }
{
    let from = r.top - count;
    let place = from - 1;
    let offset = cell_at(stack, place);
    match locate(cells, r, offset, count) {
        Some(offset) => {
            put_cells(cells, r.first + offset, stack, from, count);
            move_cells(stack, from, place, count);
            go_on(r, place + count);
            None
        }
        None => Some(Stop::Fault(FaultKind::Index)),
    }
}

/// An outcome is stored in the variables, and the old cell stands in place of its offset.
#[inline(always)]
fn update_at(
    stack: &mut [i64],
    cells: &mut [i64],
    r: &mut Registers,
    offset: usize,
    outcome: Result<i64, FaultKind>,
) -> Option<Stop>
    requires operand { 0 < r.old.top }
    requires offset { r.old.first + offset < length cells.old }
    requires within { AreWithin r.old (length stack.old) (length cells.old) }
    ensures { Updates outcome offset (r.old.top - 1) stack.old cells.old r.old stack.new cells.new r.new result }
{
    match outcome {
        Ok(number) => {
            let place = r.first + offset;
            let old = cells[place];
            cells[place] = number;
            let at = r.top - 1;
            replace(stack, r, at, Ok(old))
        }
        Err(kind) => Some(Stop::Fault(kind)),
    }
}

/// A variable cell grows by a number, and its old cell stands in place of the offset.
#[inline(always)]
fn bump(
    stack: &mut [i64],
    cells: &mut [i64],
    r: &mut Registers,
    number_type: NumberType,
    by: i64,
) -> Option<Stop>
    requires operand { 0 < r.old.top }
    requires within { AreWithin r.old (length stack.old) (length cells.old) }
    ensures { Bumps number_type by (located (cell_of stack.old (r.old.top - 1)) 1 (between r.old.first r.old.end cells.old))
        (r.old.top - 1) stack.old cells.old r.old stack.new cells.new r.new result }
{
    match locate(cells, r, stack[r.top - 1], 1) {
        Some(offset) => {
            let old = cells[r.first + offset];
            update_at(
                stack,
                cells,
                r,
                offset,
                update(Operator::Add, number_type, NumberType::Int, old, by),
            )
        }
        None => Some(Stop::Fault(FaultKind::Index)),
    }
}

/// Variable cells become 0.
#[inline(always)]
fn clear(cells: &mut [i64], r: &mut Registers, offset: u64, count: usize) -> Option<Stop>
    requires first { r.old.first ≤ r.old.end }
    requires end { r.old.end ≤ length cells.old }
    requires low { r.old.at < 65535 }
    requires few { r.old.count ≤ 131072 }
    ensures { Clears (located (pos offset) count (between r.old.first r.old.end cells.old)) count cells.old r.old cells.new r.new result }
{
    match locate_from(cells, r, offset, count) {
        Some(offset) => {
            clear_cells(cells, r.first + offset, count);
            let top = r.top;
            go_on(r, top);
            None
        }
        None => Some(Stop::Fault(FaultKind::Index)),
    }
}

/// Of the topmost cells some stay.
#[inline(always)]
fn part(stack: &mut [i64], r: &mut Registers, from: u64, count: usize, kept: u64) -> Option<Stop>
    requires operands { count ≤ r.old.top }
    requires sum { from + kept < 18446744073709551616 }
    requires top { r.old.top ≤ length stack.old }
    requires low { r.old.at < 65535 }
    requires few { r.old.count ≤ 131072 }
    ensures { PutsIf (nat_le (from + kept) count) (take kept (drop from (between (r.old.top - count) r.old.top stack.old)))
        (r.old.top - count) stack.old r.old stack.new r.new result }
{
    if from + kept > count as u64 {
        return Some(Stop::Fault(FaultKind::Index));
    }
    let place = r.top - count;
    move_cells(stack, place + from as usize, place, kept as usize);
    go_on(r, place + kept as usize);
    None
}

/// The element of the index on top stays, of an array below it.
#[inline(always)]
fn pick(stack: &mut [i64], r: &mut Registers, elements: u32, stride: u32) -> Option<Stop>
    requires operands { elements * stride < r.old.top }
    requires top { r.old.top ≤ length stack.old }
    requires low { r.old.at < 65535 }
    requires few { r.old.count ≤ 131072 }
    ensures { PicksAt (indexed elements (cell_of stack.old (r.old.top - 1))) stride
        (between (r.old.top - (elements * stride + 1)) r.old.top stack.old) (r.old.top - (elements * stride + 1)) stack.old
        r.old stack.new r.new result }
{
    let array = r.top - 1 - elements as usize * stride as usize;
    let number = cell_at(stack, r.top - 1);
    match index(elements, number) {
        Ok(number) => {
            move_cells(
                stack,
                array + number as usize * stride as usize,
                array,
                stride as usize,
            );
            go_on(r, array + stride as usize);
            None
        }
        Err(kind) => Some(Stop::Fault(kind)),
    }
}

/// Two operands give way to the result of an operation.
#[inline(always)]
fn arithmetic(
    stack: &mut [i64],
    r: &mut Registers,
    operator: Operator,
    number_type: NumberType,
) -> Option<Stop>
    requires operands { 1 < r.old.top }
    requires top { r.old.top ≤ length stack.old }
    requires low { r.old.at < 65535 }
    requires few { r.old.count ≤ 131072 }
    ensures { Replaces (operated operator number_type (cell_of stack.old (r.old.top - 2)) (cell_of stack.old (r.old.top - 1)))
        (r.old.top - 2) stack.old r.old stack.new r.new result }
{
    let place = r.top - 2;
    let outcome = operate(operator, number_type, stack[place], stack[place + 1]);
    replace(stack, r, place, outcome)
}

/// Two operands give way to 1 where the comparison holds of them, and else to 0.
#[inline(always)]
fn comparison(stack: &mut [i64], r: &mut Registers, comparison: Comparison) -> Option<Stop>
    requires operands { 1 < r.old.top }
    requires top { r.old.top ≤ length stack.old }
    requires low { r.old.at < 65535 }
    requires few { r.old.count ≤ 131072 }
    ensures { Replaces (Ok (truth (compared comparison (cell_of stack.old (r.old.top - 2)) (cell_of stack.old (r.old.top - 1)))))
        (r.old.top - 2) stack.old r.old stack.new r.new result }
{
    let place = r.top - 2;
    let holds = compare(comparison, stack[place], stack[place + 1]);
    replace(stack, r, place, Ok(truth(holds)))
}

/// A jump where the operand on top, which is taken, is 0.
#[inline(always)]
fn jump_at_zero(stack: &[i64], r: &mut Registers, to: u16) -> Option<Stop>
    requires operand { 0 < r.old.top }
    requires top { r.old.top ≤ length stack.now }
    requires low { r.old.at < 65535 }
    requires few { r.old.count ≤ 131072 }
    ensures stop { result ≡ None }
    ensures moved { r.new ≡ moved r.old (at_zero (cell_of stack.now (r.old.top - 1)) to (r.old.at + 1)) (r.old.top - 1) }
{
    let top = r.top - 1;
    r.at = if stack[top] == 0 {
        to as usize
    } else {
        r.at + 1
    };
    r.top = top;
    r.count += 1;
    None
}

/// Goes on at an address.
#[inline(always)]
fn jump(r: &mut Registers, to: u16)
    requires { r.old.count ≤ 131072 }
    ensures { r.new ≡ moved r.old to r.old.top }
{
    r.at = to as usize;
    r.count += 1;
}

/// A tick is spent, where one is left.
#[inline(always)]
fn tick(r: &mut Registers) -> Option<Stop>
    requires { r.old.at < 65535 }
    ensures { Ticks r.old.ticks r.old r.new result }
{
    if r.ticks == 0 {
        return Some(Stop::Other);
    }
    r.ticks -= 1;
    r.count = 0;
    r.at += 1;
    None
}

/// What an instruction of the loop does. At another the machine stops, and changes nothing.
#[inline(always)]
pub(crate) fn perform(
    stack: &mut [i64],
    cells: &mut [i64],
    r: &mut Registers,
    instr: Instr,
) -> Option<Stop>
    requires place { HasPlace instr r.old.top (length stack.old) }
    requires within { AreWithin r.old (length stack.old) (length cells.old) }
    ensures { Acts instr stack.old cells.old r.old stack.new cells.new r.new result }
{
    let top = r.top;
    match instr {
        Instr::Const(number) => replace(stack, r, top, Ok(number)),
        Instr::Zeros(count) => zeros(stack, r, count as usize),
        Instr::Drop(count) => {
            go_on(r, top - count as usize);
            None
        }
        Instr::Dup => {
            let number = stack[top - 1];
            replace(stack, r, top, Ok(number))
        }
        Instr::Field(count) => {
            let outcome = further(stack[top - 1], u64::from(count));
            replace(stack, r, top - 1, outcome)
        }
        Instr::Index { length, stride } => {
            let outcome = element(length, stride, stack[top - 2], stack[top - 1]);
            replace(stack, r, top - 2, outcome)
        }
        Instr::Fetch(count) => fetch(stack, cells, r, count as usize),
        Instr::Put(count) => put(stack, cells, r, count as usize),
        Instr::Bump { number_type, by } => bump(stack, cells, r, number_type, by),
        Instr::Zero {
            offset,
            cells: count,
        } => clear(cells, r, offset, count as usize),
        Instr::Part {
            from,
            cells: count,
            kept,
        } => part(stack, r, u64::from(from), count as usize, u64::from(kept)),
        Instr::Pick { length, stride } => pick(stack, r, length, stride),
        Instr::Add(number_type) => arithmetic(stack, r, Operator::Add, number_type),
        Instr::Sub(number_type) => arithmetic(stack, r, Operator::Subtract, number_type),
        Instr::Mul(number_type) => arithmetic(stack, r, Operator::Multiply, number_type),
        Instr::Div(number_type) => arithmetic(stack, r, Operator::Divide, number_type),
        Instr::Rem(number_type) => arithmetic(stack, r, Operator::Remainder, number_type),
        Instr::Neg(number_type) => {
            let outcome = negate(number_type, stack[top - 1]);
            replace(stack, r, top - 1, outcome)
        }
        Instr::Lt => comparison(stack, r, Comparison::Less),
        Instr::Le => comparison(stack, r, Comparison::AtMost),
        Instr::Gt => comparison(stack, r, Comparison::Greater),
        Instr::Ge => comparison(stack, r, Comparison::AtLeast),
        Instr::Eq => comparison(stack, r, Comparison::Equal),
        Instr::Ne => comparison(stack, r, Comparison::Different),
        Instr::Not => {
            let zero = stack[top - 1] == 0;
            replace(stack, r, top - 1, Ok(truth(zero)))
        }
        Instr::Narrow(number_type) => {
            let outcome = convert(NumberType::Long, number_type, stack[top - 1]);
            replace(stack, r, top - 1, outcome)
        }
        Instr::Jump(to) => {
            jump(r, to);
            None
        }
        Instr::JumpZero(to) => jump_at_zero(stack, r, to),
        Instr::Tick => tick(r),
        Instr::Call(_)
        | Instr::Ret(_)
        | Instr::Create(_)
        | Instr::Ask(_)
        | Instr::AskWithin { .. }
        | Instr::Send(_)
        | Instr::SelBegin
        | Instr::OfferAccept { .. }
        | Instr::OfferAfter(_)
        | Instr::OfferNow(_)
        | Instr::OfferEnd(_)
        | Instr::SelWait(_)
        | Instr::Wait
        | Instr::Reply(_)
        | Instr::PutByte
        | Instr::GetByte
        | Instr::Format(_)
        | Instr::Yield
        | Instr::End => Some(Stop::Other),
    }
}
