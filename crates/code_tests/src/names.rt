//! The line of each instruction in a listing. docs/CODE.md names them so too; bench/code_docs.py compares the two.
use crate::building::{code, entry, part, with_function, with_kind, with_site, with_table};
use cc_base::{Bytes, NumberType, Shape};
use cc_code::{Instr, RawCode, listing, verify};
use std::alloc::{AllocError, Global};
use std::rt::HostRuntime;
use std::test::Fail;

/// Puts instructions with their heights at the end of code.
fn put(raw: &mut RawCode, instrs: &[Instr], heights: &[u32]) -> Result<(), AllocError> {
    for instr in instrs {
        raw.instrs.push(*instr)?;
    }
    for height in heights {
        raw.heights.push(*height)?;
    }
    Ok(())
}

/// Numbers and offsets, at 0 to 8.
fn put_cells(raw: &mut RawCode) -> Result<(), AllocError> {
    let instrs = [
        Instr::Const(-9),
        Instr::Zeros(2),
        Instr::Drop(2),
        Instr::Dup,
        Instr::Field(7),
        Instr::Index {
            length: 3,
            stride: 4,
        },
        Instr::Fetch(2),
        Instr::Put(1),
        Instr::Bump {
            number_type: NumberType::Int,
            by: -1,
        },
    ];
    put(raw, &instrs, &[0, 1, 3, 1, 2, 2, 1, 2, 1])
}

/// Values of several cells, at 9 to 13.
fn put_values(raw: &mut RawCode) -> Result<(), AllocError> {
    let instrs = [
        Instr::Zero {
            offset: 5,
            cells: 6,
        },
        Instr::Zeros(2),
        Instr::Part {
            from: 1,
            cells: 3,
            kept: 2,
        },
        Instr::Zeros(1),
        Instr::Pick {
            length: 1,
            stride: 2,
        },
    ];
    put(raw, &instrs, &[1, 1, 3, 2, 3])
}

/// Arithmetic, at 14 to 23.
fn put_arithmetic(raw: &mut RawCode) -> Result<(), AllocError> {
    let instrs = [
        Instr::Add(NumberType::Char),
        Instr::Dup,
        Instr::Sub(NumberType::Int),
        Instr::Dup,
        Instr::Mul(NumberType::Long),
        Instr::Dup,
        Instr::Div(NumberType::Int),
        Instr::Dup,
        Instr::Rem(NumberType::Long),
        Instr::Neg(NumberType::Char),
    ];
    put(raw, &instrs, &[2, 1, 2, 1, 2, 1, 2, 1, 2, 1])
}

/// Comparisons, at 24 to 35.
fn put_comparisons(raw: &mut RawCode) -> Result<(), AllocError> {
    for instr in [
        Instr::Lt,
        Instr::Le,
        Instr::Gt,
        Instr::Ge,
        Instr::Eq,
        Instr::Ne,
    ] {
        put(raw, &[Instr::Dup, instr], &[1, 2])?;
    }
    Ok(())
}

/// Jumps and a call, at 36 to 43.
fn put_jumps(raw: &mut RawCode) -> Result<(), AllocError> {
    let instrs = [
        Instr::Not,
        Instr::Narrow(NumberType::Int),
        Instr::JumpZero(40),
        Instr::Jump(40),
        Instr::Tick,
        Instr::Const(3),
        Instr::Call(0),
        Instr::Drop(1),
    ];
    put(raw, &instrs, &[1, 1, 1, 0, 0, 0, 1, 1])
}

/// Calls of transactions, at 44 to 52.
fn put_transactions(raw: &mut RawCode) -> Result<(), AllocError> {
    let instrs = [
        Instr::Create(1),
        Instr::Ask(0),
        Instr::Drop(1),
        Instr::Const(5),
        Instr::Const(6),
        Instr::AskWithin { trans: 0, late: 51 },
        Instr::Drop(1),
        Instr::Const(7),
        Instr::Send(1),
    ];
    put(raw, &instrs, &[0, 1, 1, 0, 1, 2, 1, 0, 1])
}

/// A select, at 53 to 62.
fn put_select(raw: &mut RawCode) -> Result<(), AllocError> {
    let instrs = [
        Instr::SelBegin,
        Instr::OfferAccept { alt: 2, site: 0 },
        Instr::Const(8),
        Instr::OfferAfter(3),
        Instr::OfferNow(4),
        Instr::OfferEnd(5),
        Instr::SelWait(0),
        Instr::Const(9),
        Instr::Wait,
        Instr::Reply(0),
    ];
    put(raw, &instrs, &[0, 0, 0, 1, 0, 0, 0, 0, 1, 0])
}

/// Input and output, a function and a clause that nothing names, at 63 to 73.
fn put_ends(raw: &mut RawCode) -> Result<(), AllocError> {
    let instrs = [
        Instr::Const(10),
        Instr::PutByte,
        Instr::Drop(1),
        Instr::GetByte,
        Instr::Format(0),
        Instr::Drop(1),
        Instr::End,
        Instr::Const(11),
        Instr::Ret(1),
        Instr::Const(12),
        Instr::Yield,
    ];
    put(raw, &instrs, &[0, 1, 1, 0, 1, 1, 0, 0, 1, 0, 1])
}

/// Transactions: one that gives a cell, and an asynchronous one; a format that takes a number.
fn put_names(alloc: Global, raw: &mut RawCode) -> Result<(), Fail> {
    raw.transactions.push(Shape {
        is_async: false,
        args: 0,
        value: 1,
    })?;
    raw.transactions.push(Shape {
        is_async: true,
        args: 0,
        value: 0,
    })?;
    raw.formats.push(Bytes::from_slice(alloc, b"%d")?)?;
    Ok(())
}

/// Code in which each instruction stands.
fn all_instructions(alloc: Global) -> Result<RawCode, Fail> {
    let mut raw = code(alloc, &[], &[])?;
    put_cells(&mut raw)?;
    put_values(&mut raw)?;
    put_arithmetic(&mut raw)?;
    put_comparisons(&mut raw)?;
    put_jumps(&mut raw)?;
    put_transactions(&mut raw)?;
    put_select(&mut raw)?;
    put_ends(&mut raw)?;
    put_names(alloc, &mut raw)?;
    let raw = with_kind(with_function(raw, part(70, 1, 1))?, part(0, 0, 0))?;
    let raw = with_site(alloc, raw, None)?;
    Ok(with_table(alloc, raw, &[entry(2, Some(0), 60)])?)
}

const FIRST_LINES: &str =
    "0 Const -9\n1 Zeros 2\n2 Drop 2\n3 Dup\n4 Field 7\n5 Index 3 4\n6 Fetch 2\n7 Put 1\n8 Bump int -1\n9 Zero 5 6\n";

const VALUES: &str = "10 Zeros 2\n11 Part 1 3 2\n12 Zeros 1\n13 Pick 1 2\n";

const ARITHMETIC: &str =
    "14 Add char\n15 Dup\n16 Sub int\n17 Dup\n18 Mul long\n19 Dup\n20 Div int\n21 Dup\n22 Rem long\n23 Neg char\n";

const COMPARISONS: &str =
    "24 Dup\n25 Lt\n26 Dup\n27 Le\n28 Dup\n29 Gt\n30 Dup\n31 Ge\n32 Dup\n33 Eq\n34 Dup\n35 Ne\n";

const JUMPS: &str =
    "36 Not\n37 Narrow int\n38 JumpZero 40\n39 Jump 40\n40 Tick\n41 Const 3\n42 Call 0\n43 Drop 1\n";

const TRANSACTIONS: &str =
    "44 Create 1\n45 Ask 0\n46 Drop 1\n47 Const 5\n48 Const 6\n49 AskWithin 0 51\n50 Drop 1\n51 Const 7\n52 Send 1\n";

const SELECT: &str =
    "53 SelBegin\n54 OfferAccept 2 0\n55 Const 8\n56 OfferAfter 3\n57 OfferNow 4\n58 OfferEnd 5\n59 SelWait 0\n60 Const 9\n61 Wait\n62 Reply 0\n";

const ENDS: &str =
    "63 Const 10\n64 PutByte\n65 Drop 1\n66 GetByte\n67 Format 0\n68 Drop 1\n69 End\n70 Const 11\n71 Ret 1\n72 Const 12\n73 Yield\n";

/// The lines, put together.
fn all_lines(alloc: Global) -> Result<Bytes, cc_base::Memory> {
    let mut lines = Bytes::new(alloc);
    for part in [
        FIRST_LINES,
        VALUES,
        ARITHMETIC,
        COMPARISONS,
        JUMPS,
        TRANSACTIONS,
        SELECT,
        ENDS,
    ] {
        lines.append(part.as_bytes())?;
    }
    Ok(lines)
}

#[test]
fn each_instruction_is_listed_by_its_name_and_operands(rt: HostRuntime) -> Result<(), Fail> {
    let code = verify(rt.alloc(), all_instructions(rt.alloc())?)?;
    let text = listing(rt.alloc(), &code)?;
    let wanted = all_lines(rt.alloc())?;
    assert_eq!(rt; text.as_slice(), wanted.as_slice());
    Ok(())
}
