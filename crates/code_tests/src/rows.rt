use crate::building::{answer, code};
use cc_code::{Instr, RawCode, Rule, listing, verify};
use std::alloc::{AllocError, Global};
use std::rt::HostRuntime;
use std::test::Fail;

const HEIGHTS: [u32; 7] = [0, 1, 1, 0, 1, 1, 0];

/// The code of `main() { putchar(72); putchar(105); }` with these instructions at 2 and 6.
fn hello(alloc: Global, second: Instr, last: Instr) -> Result<RawCode, AllocError> {
    let instrs = [
        Instr::Const(72),
        Instr::PutByte,
        second,
        Instr::Const(105),
        Instr::PutByte,
        Instr::Drop(1),
        last,
    ];
    code(alloc, &instrs, &HEIGHTS)
}

#[test]
fn a_listing_has_a_line_for_each_instruction(rt: HostRuntime) -> Result<(), Fail> {
    let raw = hello(rt.alloc(), Instr::Drop(1), Instr::End)?;
    let code = verify(rt.alloc(), raw)?;
    let text = listing(rt.alloc(), &code)?;
    let wanted = "0 Const 72\n1 PutByte\n2 Drop 1\n3 Const 105\n4 PutByte\n5 Drop 1\n6 End\n";
    assert_eq!(rt; text.as_slice(), wanted.as_bytes());
    Ok(())
}

#[test]
fn a_jump_past_the_end_is_refused(rt: HostRuntime) -> Result<(), Fail> {
    let raw = hello(rt.alloc(), Instr::Drop(1), Instr::Jump(9));
    assert_eq!(rt; answer(rt.alloc(), raw)?, Some((6, Rule::Target)));
    Ok(())
}

#[test]
fn a_height_below_what_is_taken_is_refused(rt: HostRuntime) -> Result<(), Fail> {
    let raw = hello(rt.alloc(), Instr::Drop(2), Instr::End);
    assert_eq!(rt; answer(rt.alloc(), raw)?, Some((2, Rule::Height)));
    Ok(())
}
