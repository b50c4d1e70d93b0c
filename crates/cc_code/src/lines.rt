//! The listing of code: a line for each instruction.

ghost use Rattle.std.specs.Fmt.{decimal, signed_decimal};
ghost use Rattle.std.specs.Prelude.{◌≡◌, ◌++◌, ◌∷◌, ◌<◌, length, slice_get, IfOk, OnOk};
ghost use Rattle.cc_code.specs.Listing.{line, lines, name, operands, spaced, type_word};

use crate::instr::Instr;
use crate::verified::Code;
use cc_base::{Bytes, Memory, NumberType};
use itoa::Buffer;
use std::alloc::Global;

/// One line for each instruction: its address, its name and its operands, with single spaces and a newline.
pub fn listing(alloc: Global, code: &Code) -> Result<Bytes, Memory>
    ensures lines { IfOk result (λ text. text ≡ lines 0 code.now.instrs) }
{
    listed(alloc, code.instrs())
}

/// The lines of these instructions, the first of which stands at address 0.
fn listed(alloc: Global, instrs: &[Instr]) -> Result<Bytes, Memory>
    ensures { IfOk result (λ text. text ≡ lines 0 instrs.now) }
{
    let mut text = Bytes::new(alloc);
    for at in 0..instrs.len() {
        put_line(&mut text, at, instr_at(instrs, at))?;
    }
    Ok(text)
}

/// The instruction at an address.
fn instr_at(instrs: &[Instr], at: usize) -> Instr
    requires { at < length instrs.now }
    ensures { slice_get instrs.now at ≡ Some result }
{
    instrs[at]
}

/// Puts the line of an instruction.
fn put_line(text: &mut Bytes, at: usize, instr: Instr) -> Result<(), Memory>
    ensures { OnOk result (text.new ≡ text.old ++ line at instr) }
{
    text.append(Buffer::new().format(at).as_bytes())?;
    put_word(text, name(instr))?;
    put_operands(text, instr)?;
    text.push(b'\n')
}

/// Puts a word after a space.
fn put_word(text: &mut Bytes, word: &str) -> Result<(), Memory>
    ensures { OnOk result (text.new ≡ text.old ++ 32 ∷ word.now) }
{
    text.push(b' ')?;
    text.append(word.as_bytes())
}

/// Puts a number after a space.
fn put_number(text: &mut Bytes, number: u64) -> Result<(), Memory>
    ensures { OnOk result (text.new ≡ text.old ++ 32 ∷ decimal number) }
{
    put_word(text, Buffer::new().format(number))
}

/// Puts a number that may be negative after a space.
fn put_signed(text: &mut Bytes, number: i64) -> Result<(), Memory>
    ensures { OnOk result (text.new ≡ text.old ++ 32 ∷ signed_decimal number) }
{
    put_word(text, Buffer::new().format(number))
}

fn put_small(text: &mut Bytes, number: u32) -> Result<(), Memory>
    ensures { OnOk result (text.new ≡ text.old ++ 32 ∷ decimal number) }
{
    put_number(text, u64::from(number))
}

/// The word of a type.
fn type_word(number_type: NumberType) -> &'static str
    ensures { result.now ≡ type_word number_type }
{
    match number_type {
        NumberType::Char => "char",
        NumberType::Int => "int",
        NumberType::Long => "long",
    }
}

/// Puts the operands of an instruction.
fn put_operands(text: &mut Bytes, instr: Instr) -> Result<(), Memory>
    ensures { OnOk result (text.new ≡ text.old ++ spaced (operands instr)) }
{
    match instr {
        Instr::Const(number) => put_signed(text, number),
        Instr::Zeros(n)
        | Instr::Drop(n)
        | Instr::Field(n)
        | Instr::Fetch(n)
        | Instr::Put(n)
        | Instr::Call(n)
        | Instr::Ret(n)
        | Instr::Create(n)
        | Instr::Ask(n)
        | Instr::Send(n)
        | Instr::OfferAfter(n)
        | Instr::OfferNow(n)
        | Instr::OfferEnd(n)
        | Instr::SelWait(n)
        | Instr::Reply(n)
        | Instr::Format(n) => put_small(text, n),
        Instr::Index { length, stride } | Instr::Pick { length, stride } => {
            put_small(text, length)?;
            put_small(text, stride)
        }
        Instr::Bump { number_type, by } => {
            put_word(text, type_word(number_type))?;
            put_signed(text, by)
        }
        Instr::Zero { offset, cells } => {
            put_number(text, offset)?;
            put_small(text, cells)
        }
        Instr::Part { from, cells, kept } => {
            put_small(text, from)?;
            put_small(text, cells)?;
            put_small(text, kept)
        }
        Instr::Add(t)
        | Instr::Sub(t)
        | Instr::Mul(t)
        | Instr::Div(t)
        | Instr::Rem(t)
        | Instr::Neg(t)
        | Instr::Narrow(t) => put_word(text, type_word(t)),
        Instr::Jump(to) | Instr::JumpZero(to) => put_number(text, u64::from(to)),
        Instr::AskWithin { trans, late } => {
            put_small(text, trans)?;
            put_number(text, u64::from(late))
        }
        Instr::OfferAccept { alt, site } => {
            put_small(text, alt)?;
            put_small(text, site)
        }
        _ => Ok(()),
    }
}

/// The name of an instruction.
fn name(instr: Instr) -> &'static str
    ensures { result.now ≡ name instr }
{
    match instr {
        Instr::Const(_) => "Const",
        Instr::Zeros(_) => "Zeros",
        Instr::Drop(_) => "Drop",
        Instr::Dup => "Dup",
        Instr::Field(_) => "Field",
        Instr::Index { .. } => "Index",
        Instr::Fetch(_) => "Fetch",
        Instr::Put(_) => "Put",
        Instr::Bump { .. } => "Bump",
        Instr::Zero { .. } => "Zero",
        Instr::Part { .. } => "Part",
        Instr::Pick { .. } => "Pick",
        Instr::Add(_) => "Add",
        Instr::Sub(_) => "Sub",
        Instr::Mul(_) => "Mul",
        Instr::Div(_) => "Div",
        Instr::Rem(_) => "Rem",
        Instr::Neg(_) => "Neg",
        Instr::Lt => "Lt",
        Instr::Le => "Le",
        Instr::Gt => "Gt",
        Instr::Ge => "Ge",
        Instr::Eq => "Eq",
        Instr::Ne => "Ne",
        Instr::Not => "Not",
        Instr::Narrow(_) => "Narrow",
        Instr::Jump(_) => "Jump",
        Instr::JumpZero(_) => "JumpZero",
        Instr::Tick => "Tick",
        Instr::Call(_) => "Call",
        Instr::Ret(_) => "Ret",
        Instr::Create(_) => "Create",
        Instr::Ask(_) => "Ask",
        Instr::AskWithin { .. } => "AskWithin",
        Instr::Send(_) => "Send",
        Instr::SelBegin => "SelBegin",
        Instr::OfferAccept { .. } => "OfferAccept",
        Instr::OfferAfter(_) => "OfferAfter",
        Instr::OfferNow(_) => "OfferNow",
        Instr::OfferEnd(_) => "OfferEnd",
        Instr::SelWait(_) => "SelWait",
        Instr::Wait => "Wait",
        Instr::Reply(_) => "Reply",
        Instr::PutByte => "PutByte",
        Instr::GetByte => "GetByte",
        Instr::Format(_) => "Format",
        Instr::Yield => "Yield",
        Instr::End => "End",
    }
}
