//! What an instruction asks whose operands are in place.

ghost use Rattle.std.specs.Prelude.{◌≡◌, ◌+◌, ◌-◌, ◌<◌, ◌≤◌, ◌∷◌, [], length, IfOk};
ghost use Rattle.cc_base.specs.Numbers.{byte_of, callee};
ghost use Rattle.cc_base.specs.declared.request.Request.TheVariants as request;
ghost use Rattle.cc_base.specs.Formats.{conversions, formatted};
ghost use Rattle.cc_code.specs.Operands.{format_at, kind_at, shape_at, takes};
ghost use Rattle.cc_vm.specs.Asking.{Requested, addressed};
ghost use Rattle.cc_vm.specs.Machine.{between, cell_of};

use crate::arms::cell_at;
use crate::prints::{numbers_of, print_format};
use cc_base::arithmetic::{byte_of, callee};
use cc_base::{Bytes, Cells, Memory, Request, Shape};
use cc_code::{Instr, Part, RawCode};
use std::alloc::Global;

const NO_PART: Part = Part {
    entry: 0,
    args: 0,
    cells: 0,
    value: 0,
};

const NO_SHAPE: Shape = Shape {
    is_async: false,
    args: 0,
    value: 0,
};

/// The operands from a place up to before another.
pub(crate) fn operands(
    alloc: Global,
    stack: &[i64],
    from: usize,
    to: usize,
) -> Result<Cells, Memory>
    requires order { from ≤ to }
    requires within { to ≤ length stack.now }
    ensures { IfOk result (λ cells. cells ≡ between from to stack.now) }
{
    let mut cells = Cells::new(alloc);
    for at in from..to {
        cells.push(cell_at(stack, at))?;
    }
    Ok(cells)
}

/// The kind of this number, or one with nothing.
pub(crate) fn kind_at(raw: &RawCode, kind: u32) -> Part
    ensures { result ≡ kind_at raw.now kind }
{
    match raw.kinds.get(kind as usize) {
        Some(part) => *part,
        None => NO_PART,
    }
}

/// The transaction of this number, or one with nothing.
pub(crate) fn shape_at(raw: &RawCode, trans: u32) -> Shape
    ensures { result ≡ shape_at raw.now trans }
{
    match raw.transactions.get(trans as usize) {
        Some(shape) => *shape,
        None => NO_SHAPE,
    }
}

/// The format of this number, or an empty one.
pub(crate) fn format_at<'r>(raw: &'r RawCode, format: u32) -> &'r [u8]
    ensures { result.now ≡ format_at raw.now format }
{
    match raw.formats.get(format as usize) {
        Some(bytes) => bytes.as_slice(),
        None => b"",
    }
}

/// A new process.
fn create(
    alloc: Global,
    stack: &[i64],
    top: usize,
    args: usize,
    kind: u32,
) -> Result<Request, Memory>
    requires operands { args ≤ top }
    requires top { top ≤ length stack.now }
    ensures { IfOk result (λ q. q ≡ request.Create kind (between (top - args) top stack.now)) }
{
    let args = operands(alloc, stack, top - args, top)?;
    Ok(Request::Create { kind, args })
}

/// A call of the process whose number stands below the arguments.
fn call(
    alloc: Global,
    stack: &[i64],
    top: usize,
    args: usize,
    trans: u32,
) -> Result<Request, Memory>
    requires operands { args < top }
    requires top { top ≤ length stack.now }
    ensures { IfOk result (λ q. q ≡ addressed (callee (cell_of stack.now (top - args - 1)))
        (λ target. request.Call target trans (between (top - args) top stack.now))) }
{
    let from = top - args;
    match callee(cell_at(stack, from - 1)) {
        Ok(target) => {
            let args = operands(alloc, stack, from, top)?;
            Ok(Request::Call {
                target,
                trans,
                args,
            })
        }
        Err(kind) => Ok(Request::Fault { kind }),
    }
}

/// A timed call, where the milliseconds stand below the number of the process.
fn timed_call(
    alloc: Global,
    stack: &[i64],
    top: usize,
    args: usize,
    trans: u32,
) -> Result<Request, Memory>
    requires operands { args + 1 < top }
    requires top { top ≤ length stack.now }
    ensures { IfOk result (λ q. q ≡ addressed (callee (cell_of stack.now (top - args - 1)))
        (λ target. request.TimedCall target trans (between (top - args) top stack.now) (cell_of stack.now (top - args - 2)))) }
{
    let from = top - args;
    match callee(cell_at(stack, from - 1)) {
        Ok(target) => {
            let args = operands(alloc, stack, from, top)?;
            Ok(Request::TimedCall {
                target,
                trans,
                args,
                wait: cell_at(stack, from - 2),
            })
        }
        Err(kind) => Ok(Request::Fault { kind }),
    }
}

/// An asynchronous call of the process whose number stands below the arguments.
fn send(
    alloc: Global,
    stack: &[i64],
    top: usize,
    args: usize,
    trans: u32,
) -> Result<Request, Memory>
    requires operands { args < top }
    requires top { top ≤ length stack.now }
    ensures { IfOk result (λ q. q ≡ addressed (callee (cell_of stack.now (top - args - 1)))
        (λ target. request.Send target trans (between (top - args) top stack.now))) }
{
    let from = top - args;
    match callee(cell_at(stack, from - 1)) {
        Ok(target) => {
            let args = operands(alloc, stack, from, top)?;
            Ok(Request::Send {
                target,
                trans,
                args,
            })
        }
        Err(kind) => Ok(Request::Fault { kind }),
    }
}

/// The answer to the innermost call that is served.
fn reply(alloc: Global, stack: &[i64], top: usize, cells: usize) -> Result<Request, Memory>
    requires operands { cells ≤ top }
    requires top { top ≤ length stack.now }
    ensures { IfOk result (λ q. q ≡ request.Reply (between (top - cells) top stack.now)) }
{
    let value = operands(alloc, stack, top - cells, top)?;
    Ok(Request::Reply { value })
}

/// A number as one byte.
fn print_byte(alloc: Global, number: i64) -> Result<Request, Memory>
    ensures { IfOk result (λ q. q ≡ request.Print (byte_of number ∷ [])) }
{
    let mut bytes = Bytes::new(alloc);
    bytes.push(byte_of(number))?;
    Ok(Request::Print { bytes })
}

/// A format with the numbers on the top.
fn print(alloc: Global, stack: &[i64], top: usize, format: &[u8]) -> Result<Request, Memory>
    requires operands { conversions format.now ≤ top }
    requires top { top ≤ length stack.now }
    ensures { IfOk result (λ q. q ≡ request.Print (formatted format.now (between (top - conversions format.now) top stack.now))) }
{
    let numbers = operands(alloc, stack, top - numbers_of(format), top)?;
    let bytes = print_format(alloc, format, &numbers)?;
    Ok(Request::Print { bytes })
}

/// What the instruction asks; none where it opens an alternative or selects, and where it asks nothing.
pub(crate) fn request_of(
    alloc: Global,
    raw: &RawCode,
    stack: &[i64],
    top: usize,
    instr: Instr,
) -> Result<Option<Request>, Memory>
    requires operands { takes raw.now instr ≤ top }
    requires top { top ≤ length stack.now }
    ensures { IfOk result (Requested raw.now instr stack.now top) }
{
    Ok(match instr {
        Instr::Create(kind) => Some(create(
            alloc,
            stack,
            top,
            kind_at(raw, kind).args as usize,
            kind,
        )?),
        Instr::Ask(trans) => Some(call(
            alloc,
            stack,
            top,
            shape_at(raw, trans).args as usize,
            trans,
        )?),
        Instr::AskWithin { trans, .. } => {
            Some(timed_call(alloc, stack, top, shape_at(raw, trans).args as usize, trans)?)
        }
        Instr::Send(trans) => Some(send(
            alloc,
            stack,
            top,
            shape_at(raw, trans).args as usize,
            trans,
        )?),
        Instr::Wait => Some(Request::Delay {
            wait: cell_at(stack, top - 1),
        }),
        Instr::Reply(cells) => Some(reply(alloc, stack, top, cells as usize)?),
        Instr::PutByte => Some(print_byte(alloc, cell_at(stack, top - 1))?),
        Instr::GetByte => Some(Request::Get),
        Instr::Format(format) => Some(print(alloc, stack, top, format_at(raw, format))?),
        Instr::End => Some(Request::Done),
        _ => None,
    })
}
