//! Which calls fit a site, and with which rank.
use crate::building::{cells, code, heights, instrs, site, with_site, with_transaction};
use cc_base::NumberType;
use cc_code::{Code, Instr, RawCode, verify};
use cc_vm::fit;
use std::alloc::{AllocError, Global};
use std::rt::HostRuntime;
use std::test::Fail;

/// From address 1 on `10 / x`, and from address 6 on `0 - x`, for the first argument x; before them a `main` that ends.
fn clauses(alloc: Global) -> Result<RawCode, AllocError> {
    let such = [
        Instr::End,
        Instr::Const(10),
        Instr::Const(0),
        Instr::Fetch(1),
        Instr::Div(NumberType::Int),
        Instr::Yield,
    ];
    let by = [
        Instr::Const(0),
        Instr::Const(0),
        Instr::Fetch(1),
        Instr::Sub(NumberType::Int),
        Instr::Yield,
    ];
    let instrs = instrs(alloc, &such, &by)?;
    let heights = heights(alloc, &[0, 0, 1, 2, 2, 1], &[0, 1, 2, 2, 1])?;
    code(alloc, 0, instrs, heights)
}

/// A site with `suchthat (10 / x)` and `by (0 - x)`, one with neither, and one with `suchthat (10 / x)` alone and an environment of
/// two cells. The transaction has one cell.
fn ranked(alloc: Global) -> Result<Code, Fail> {
    let raw = with_transaction(clauses(alloc)?, 1)?;
    let raw = with_site(raw, site(alloc, 0, Some(1), Some(6))?)?;
    let raw = with_site(raw, site(alloc, 0, None, None)?)?;
    let raw = with_site(raw, site(alloc, 2, Some(1), None)?)?;
    Ok(verify(alloc, raw)?)
}

/// The rank of a call with these arguments at a site of that code, in this environment.
fn rank_of(alloc: Global, site: u32, env: &[i64], args: &[i64]) -> Result<Option<i64>, Fail> {
    let code = ranked(alloc)?;
    let env = cells(alloc, env)?;
    let args = cells(alloc, args)?;
    Ok(fit(&code, site, &env, &args))
}

#[test]
fn a_call_has_the_rank_of_its_clauses(rt: HostRuntime) -> Result<(), Fail> {
    assert_eq!(rt; rank_of(rt.alloc(), 0, &[], &[5])?, Some(-5));
    assert_eq!(rt; rank_of(rt.alloc(), 1, &[], &[5])?, Some(0));
    assert_eq!(rt; rank_of(rt.alloc(), 0, &[], &[11])?, None);
    assert_eq!(rt; rank_of(rt.alloc(), 1, &[], &[11])?, Some(0));
    Ok(())
}

#[test]
fn a_fault_in_a_clause_says_no(rt: HostRuntime) -> Result<(), Fail> {
    assert_eq!(rt; rank_of(rt.alloc(), 0, &[], &[0])?, None);
    Ok(())
}

#[test]
fn other_numbers_of_cells_do_not_fit(rt: HostRuntime) -> Result<(), Fail> {
    assert_eq!(rt; rank_of(rt.alloc(), 0, &[], &[])?, None);
    assert_eq!(rt; rank_of(rt.alloc(), 0, &[5], &[5])?, None);
    assert_eq!(rt; rank_of(rt.alloc(), 2, &[], &[5])?, None);
    assert_eq!(rt; rank_of(rt.alloc(), 2, &[7, 8], &[5])?, Some(0));
    Ok(())
}

#[test]
fn no_call_fits_a_site_that_is_not_there(rt: HostRuntime) -> Result<(), Fail> {
    assert_eq!(rt; rank_of(rt.alloc(), 3, &[], &[5])?, None);
    Ok(())
}
