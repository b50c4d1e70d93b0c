//! Pure fragments, instruction by instruction.

ghost use Rattle.std.specs.Prelude.{◌≡◌, ◌+◌, ◌*◌, ◌<◌, ◌≤◌, ℤ, Ok, Some, [], ◌∷◌, ◌++◌, length, slice_get};
ghost use Rattle.cc_base.specs.Numbers.{at_zero, converted, logical_not, operated, opposite, truth, compared};
ghost use Rattle.cc_base.specs.declared.numbers.NumberType.TheVariants.{Long};
ghost use Rattle.cc_code.specs.Control.{fragments};
ghost use Rattle.cc_code.specs.Meaning.{begins, nothing_left, value_of};
ghost use Rattle.cc_code.specs.Rules.{IsVerified};
ghost use Rattle.cc_code.specs.Steps.{goes_on};
ghost use Rattle.cc_code.specs.Works.{further};
ghost use Rattle.cc_vm.specs.declared.fragment.Next.TheVariants.{Ended, To};
ghost use Rattle.cc_vm.specs.Fragments.{Comes, Comes1, Comes2, Does, HasRoom, IsReady, StepsTo, Taken, cell_at, element_at};
ghost use Rattle.std.specs.List.{Contains};

use crate::operands::Operands;
use crate::variables::{element, further, variable};
use cc_base::arithmetic::{compare, convert, negate, operate, truth};
use cc_base::{Cells, Comparison, FaultKind, NumberType, Operator};
use cc_code::{Instr, RawCode};

/// Where a fragment goes on, or how it ended: with its value, or with none where it faulted.
#[derive(Clone, Copy, Debug, Drop)]
pub(crate) enum Next {
    To(usize),
    Ended(Option<i64>),
}

/// The instruction at an address.
fn instr_of(raw: &RawCode, at: usize) -> Instr
    requires { at < length raw.now.instrs }
    ensures { slice_get raw.now.instrs at ≡ Some result }
{
    raw.instrs.as_slice()[at]
}

/// The instruction that is next in a fragment, which finds its operands.
fn instr_at(raw: &RawCode, args: &Cells, env: &Cells, stack: &Operands, at: usize) -> Instr
    requires verified { IsVerified raw.now }
    requires ready { IsReady raw.now (args.now ++ env.now) at stack.now }
    ensures there { slice_get raw.now.instrs at ≡ Some result }
    ensures room { HasRoom at (length stack.now) result }
    ensures low { at < 65535 }
{
    let _ = args;
    let _ = env;
    let _ = stack;
    instr_of(raw, at)
}

/// An outcome is put on the operands, or ends the fragment.
fn give(stack: &mut Operands, at: usize, outcome: Result<i64, FaultKind>) -> Next
    requires room { length stack.old < 64 }
    requires low { at < 65535 }
    ensures { Comes outcome at stack.old stack.new result }
{
    match outcome {
        Ok(number) => {
            stack.push(number);
            Next::To(at + 1)
        }
        Err(_) => Next::Ended(None),
    }
}

/// The top operand is an offset, and gives way to one that many cells further.
fn field(stack: &mut Operands, at: usize, cells: u32) -> Next
    requires operand { 0 < length stack.old }
    requires room { length stack.old ≤ 64 }
    requires low { at < 65535 }
    ensures { Comes1 (λ o. further o cells) at stack.old stack.new result }
{
    let offset = stack.pop();
    give(stack, at, further(offset, u64::from(cells)))
}

/// The two top operands are an offset and an index, and give way to the offset of the element.
fn index(stack: &mut Operands, at: usize, elements: u32, stride: u32) -> Next
    requires operands { 1 < length stack.old }
    requires room { length stack.old ≤ 65 }
    requires low { at < 65535 }
    ensures { Comes2 (element_at elements stride) at stack.old stack.new result }
{
    let index = stack.pop();
    let offset = stack.pop();
    give(stack, at, element(elements, stride, offset, index))
}

/// The top operand is an offset, and gives way to the variable cell there.
fn fetch(args: &Cells, env: &Cells, stack: &mut Operands, at: usize) -> Next
    requires operand { 0 < length stack.old }
    requires room { length stack.old ≤ 64 }
    requires low { at < 65535 }
    ensures { Comes1 (cell_at (args.now ++ env.now)) at stack.old stack.new result }
{
    let offset = stack.pop();
    give(stack, at, variable(args, env, offset))
}

/// The two top operands give way to the result of an operation.
fn arithmetic(stack: &mut Operands, at: usize, operator: Operator, number_type: NumberType) -> Next
    requires operands { 1 < length stack.old }
    requires room { length stack.old ≤ 65 }
    requires low { at < 65535 }
    ensures { Comes2 (operated operator number_type) at stack.old stack.new result }
{
    let right = stack.pop();
    let left = stack.pop();
    give(stack, at, operate(operator, number_type, left, right))
}

/// The two top operands give way to 1 where the comparison holds of them, and else to 0.
fn comparison(stack: &mut Operands, at: usize, comparison: Comparison) -> Next
    requires operands { 1 < length stack.old }
    requires room { length stack.old ≤ 65 }
    requires low { at < 65535 }
    ensures { Comes2 (λ a b. Ok (truth (compared comparison a b))) at stack.old stack.new result }
{
    let right = stack.pop();
    let left = stack.pop();
    give(stack, at, Ok(truth(compare(comparison, left, right))))
}

/// The top operand gives way to its opposite.
fn opposite(stack: &mut Operands, at: usize, number_type: NumberType) -> Next
    requires operand { 0 < length stack.old }
    requires room { length stack.old ≤ 64 }
    requires low { at < 65535 }
    ensures { Comes1 (opposite number_type) at stack.old stack.new result }
{
    let number = stack.pop();
    give(stack, at, negate(number_type, number))
}

/// The top operand gives way to 1 where it is 0, and else to 0.
fn not(stack: &mut Operands, at: usize) -> Next
    requires operand { 0 < length stack.old }
    requires room { length stack.old ≤ 64 }
    requires low { at < 65535 }
    ensures { Comes1 (λ a. Ok (logical_not a)) at stack.old stack.new result }
{
    let number = stack.pop();
    give(stack, at, Ok(truth(number == 0)))
}

/// The top operand gives way to itself as a number of a type.
fn narrow(stack: &mut Operands, at: usize, number_type: NumberType) -> Next
    requires operand { 0 < length stack.old }
    requires room { length stack.old ≤ 64 }
    requires low { at < 65535 }
    ensures { Comes1 (converted Long number_type) at stack.old stack.new result }
{
    let number = stack.pop();
    give(stack, at, convert(NumberType::Long, number_type, number))
}

/// The top operand is taken, and the fragment goes on at an address where it was 0.
fn jump_at_zero(stack: &mut Operands, at: usize, to: u16) -> Next
    requires operand { 0 < length stack.old }
    requires low { at < 65535 }
    ensures { Taken (λ a. result ≡ To (at_zero a to (at + 1))) stack.old stack.new }
{
    if stack.pop() == 0 {
        Next::To(to as usize)
    } else {
        Next::To(at + 1)
    }
}

/// The fragment ends with the top operand.
fn end(stack: &mut Operands) -> Next
    requires operand { 0 < length stack.old }
    ensures { Taken (λ a. result ≡ Ended (Some a)) stack.old stack.new }
{
    Next::Ended(Some(stack.pop()))
}

/// One instruction, of those that fragments have.
fn perform(args: &Cells, env: &Cells, stack: &mut Operands, at: usize, instr: Instr) -> Next
    requires room { HasRoom at (length stack.old) instr }
    requires low { at < 65535 }
    ensures { Does (args.now ++ env.now) at instr stack.old stack.new result }
{
    match instr {
        Instr::Const(number) => give(stack, at, Ok(number)),
        Instr::Field(cells) => field(stack, at, cells),
        Instr::Index { length, stride } => index(stack, at, length, stride),
        Instr::Fetch(_) => fetch(args, env, stack, at),
        Instr::Add(number_type) => arithmetic(stack, at, Operator::Add, number_type),
        Instr::Sub(number_type) => arithmetic(stack, at, Operator::Subtract, number_type),
        Instr::Mul(number_type) => arithmetic(stack, at, Operator::Multiply, number_type),
        Instr::Div(number_type) => arithmetic(stack, at, Operator::Divide, number_type),
        Instr::Rem(number_type) => arithmetic(stack, at, Operator::Remainder, number_type),
        Instr::Neg(number_type) => opposite(stack, at, number_type),
        Instr::Lt => comparison(stack, at, Comparison::Less),
        Instr::Le => comparison(stack, at, Comparison::AtMost),
        Instr::Gt => comparison(stack, at, Comparison::Greater),
        Instr::Ge => comparison(stack, at, Comparison::AtLeast),
        Instr::Eq => comparison(stack, at, Comparison::Equal),
        Instr::Ne => comparison(stack, at, Comparison::Different),
        Instr::Not => not(stack, at),
        Instr::Narrow(number_type) => narrow(stack, at, number_type),
        Instr::Jump(to) => Next::To(to as usize),
        Instr::JumpZero(to) => jump_at_zero(stack, at, to),
        Instr::Yield => end(stack),
        _ => Next::Ended(None),
    }
}

/// The instruction at an address.
fn step(raw: &RawCode, args: &Cells, env: &Cells, stack: &mut Operands, at: usize) -> Next
    requires verified { IsVerified raw.now }
    requires ready { IsReady raw.now (args.now ++ env.now) at stack.old }
    ensures { StepsTo raw.now (args.now ++ env.now) at stack.old stack.new result }
{
    let instr = instr_at(raw, args, env, stack, at);
    perform(args, env, stack, at, instr)
}

/// The value of the fragment that begins at an address; none where it faults.
pub(crate) fn value(raw: &RawCode, entry: u16, args: &Cells, env: &Cells) -> Option<i64>
    requires verified { IsVerified raw.now }
    requires fragment { Contains (fragments raw.now.sites) entry }
    ensures { result ≡ value_of (goes_on raw.now (begins entry (args.now ++ env.now) nothing_left)) }
{
    let mut stack = Operands::new();
    let mut at = entry as usize;
    'instructions: loop {
        match step(raw, args, env, &mut stack, at) {
            Next::To(to) => at = to,
            Next::Ended(value) => return value,
        }
    }
}
