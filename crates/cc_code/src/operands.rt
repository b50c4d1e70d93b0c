//! The cells that each instruction takes and gives, as specs/Operands.antt defines them.

ghost use Rattle.std.specs.Prelude.{◌≡◌, ◌*◌, ◌<◌};
ghost use Rattle.cc_code.specs.Checked.{AreConversions};
ghost use Rattle.cc_code.specs.Operands.{function_at, gives, kind_at, shape_at, takes};

use crate::code::{Part, RawCode};
use crate::instr::Instr;
use cc_base::Shape;

const NO_PART: Part = Part {
    entry: 0,
    args: 0,
    cells: 0,
    value: 0,
};

/// The function of this number, or one with nothing.
pub(crate) fn function_at(raw: &RawCode, function: u32) -> Part
    ensures { result ≡ function_at raw.now function }
{
    match raw.functions.get(function as usize) {
        Some(part) => *part,
        None => NO_PART,
    }
}

/// The kind of process of this number, or one with nothing.
pub(crate) fn kind_at(raw: &RawCode, kind: u32) -> Part
    ensures { result ≡ kind_at raw.now kind }
{
    match raw.kinds.get(kind as usize) {
        Some(part) => *part,
        None => NO_PART,
    }
}

/// The transaction of this number, or one with nothing.
pub(crate) fn shape_at(raw: &RawCode, trans: u32) -> Shape
    ensures { result ≡ shape_at raw.now trans }
{
    match raw.transactions.get(trans as usize) {
        Some(shape) => *shape,
        None => Shape {
            is_async: false,
            args: 0,
            value: 0,
        },
    }
}

/// The cells of so many elements of so many cells.
fn element_cells(length: u32, stride: u32) -> u64
    ensures { result ≡ length * stride }
{
    u64::from(length) * u64::from(stride)
}

/// The cells that an instruction takes, given how many numbers each format converts.
pub(crate) fn takes(raw: &RawCode, conversions: &Vec<u64>, instr: Instr) -> u64
    requires { AreConversions raw.now conversions.now.items }
    ensures { result ≡ takes raw.now instr }
{
    match instr {
        Instr::Drop(cells) | Instr::Ret(cells) | Instr::Reply(cells) | Instr::Part { cells, .. } =>
            u64::from(cells),
        Instr::Put(cells) => 1 + u64::from(cells),
        Instr::Pick { length, stride } => element_cells(length, stride) + 1,
        Instr::Call(function) => u64::from(function_at(raw, function).args),
        Instr::Create(kind) => u64::from(kind_at(raw, kind).args),
        Instr::Ask(trans) | Instr::Send(trans) => 1 + u64::from(shape_at(raw, trans).args),
        Instr::AskWithin { trans, .. } => 2 + u64::from(shape_at(raw, trans).args),
        Instr::Format(format) => match conversions.get(format as usize) {
            Some(numbers) => *numbers,
            None => 0,
        },
        Instr::Dup
        | Instr::Field(_)
        | Instr::Fetch(_)
        | Instr::Bump { .. }
        | Instr::Neg(_)
        | Instr::Not
        | Instr::Narrow(_)
        | Instr::JumpZero(_)
        | Instr::OfferAfter(_)
        | Instr::Wait
        | Instr::PutByte
        | Instr::Yield => 1,
        Instr::Index { .. }
        | Instr::Add(_)
        | Instr::Sub(_)
        | Instr::Mul(_)
        | Instr::Div(_)
        | Instr::Rem(_)
        | Instr::Lt
        | Instr::Le
        | Instr::Gt
        | Instr::Ge
        | Instr::Eq
        | Instr::Ne => 2,
        _ => 0,
    }
}

/// The cells that an instruction gives.
pub(crate) fn gives(raw: &RawCode, instr: Instr) -> u64
    ensures cells { result ≡ gives raw.now instr }
    ensures small { result < 4294967296 }
{
    match instr {
        Instr::Zeros(cells) | Instr::Fetch(cells) | Instr::Put(cells) => u64::from(cells),
        Instr::Part { kept, .. } => u64::from(kept),
        Instr::Pick { stride, .. } => u64::from(stride),
        Instr::Call(function) => u64::from(function_at(raw, function).value),
        Instr::Ask(trans) | Instr::AskWithin { trans, .. } => u64::from(shape_at(raw, trans).value),
        Instr::Dup => 2,
        Instr::Drop(_)
        | Instr::Zero { .. }
        | Instr::Jump(_)
        | Instr::JumpZero(_)
        | Instr::Tick
        | Instr::Ret(_)
        | Instr::Send(_)
        | Instr::SelBegin
        | Instr::OfferAccept { .. }
        | Instr::OfferAfter(_)
        | Instr::OfferNow(_)
        | Instr::OfferEnd(_)
        | Instr::SelWait(_)
        | Instr::Wait
        | Instr::Reply(_)
        | Instr::Yield
        | Instr::End => 0,
        Instr::Const(_)
        | Instr::Field(_)
        | Instr::Index { .. }
        | Instr::Bump { .. }
        | Instr::Add(_)
        | Instr::Sub(_)
        | Instr::Mul(_)
        | Instr::Div(_)
        | Instr::Rem(_)
        | Instr::Neg(_)
        | Instr::Lt
        | Instr::Le
        | Instr::Gt
        | Instr::Ge
        | Instr::Eq
        | Instr::Ne
        | Instr::Not
        | Instr::Narrow(_)
        | Instr::Create(_)
        | Instr::PutByte
        | Instr::GetByte
        | Instr::Format(_) => 1,
    }
}
