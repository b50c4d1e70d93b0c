//! At which selects control may come to wait, from each address, found in one pass from the last address to the first.

ghost use Rattle.std.specs.List.{AllByRecursion};
ghost use Rattle.std.specs.Prelude.{◌≡◌, ℕ, ◌<◌, get_or, length, slice_get, IfOk, Some};
ghost use Rattle.cc_code.specs.Control.{successors_within};
ghost use Rattle.cc_code.specs.Reach.{IsSmall};
ghost use Rattle.cc_code.specs.Waiting.{Allows, AreSelects, AreWaits, Covers};
ghost use Rattle.cc_code.specs.declared.instr.Instr.TheVariants.{SelWait};
ghost use Rattle.cc_code.specs.declared.waits.Waits.TheVariants as waits;

use crate::code::RawCode;
use crate::instr::Instr;
use crate::rules::instr_at;
use crate::tables::ascending;
use std::alloc::{AllocError, Global};

/// The selects at which control may come to wait within one select, from an address on.
#[derive(Clone, Copy, Debug, Drop)]
pub(crate) enum Waits {
    /// None.
    Never,
    /// Selects of this table alone.
    At(u32),
    /// Any.
    Unknown,
}

/// What is known from an address on; behind the code no select waits.
pub(crate) fn waits_from(known: &Vec<Waits>, address: usize) -> Waits
    ensures { result ≡ get_or known.now.items address waits.Never }
{
    match known.get(address) {
        Some(waits) => *waits,
        None => Waits::Never,
    }
}

/// The selects of two ways together.
fn either(one: Waits, other: Waits) -> Waits
    ensures one { (j : ℕ) → Allows one j → Allows result j }
    ensures other { (j : ℕ) → Allows other j → Allows result j }
{
    match (one, other) {
        (Waits::Never, other) => other,
        (one, Waits::Never) => one,
        (Waits::At(first), Waits::At(second)) => {
            if first == second { one } else { Waits::Unknown }
        }
        _ => Waits::Unknown,
    }
}

/// What is known from an instruction on, given what is known of its successors.
fn waits_at(raw: &RawCode, known: &Vec<Waits>, at: usize, instr: Instr) -> Waits
    requires small { IsSmall raw.now }
    requires address { at < length raw.now.instrs }
    ensures successors { AllByRecursion (Covers known.now.items result) (successors_within raw.now at (Some instr)) }
    ensures wait { (j : ℕ) → instr ≡ SelWait j → Allows result j }
{
    let _ = raw;
    match instr {
        Instr::SelWait(table) => Waits::At(table),
        Instr::SelBegin | Instr::Ret(_) | Instr::Yield | Instr::End => Waits::Never,
        Instr::Jump(to) => waits_from(known, to as usize),
        Instr::JumpZero(to) | Instr::AskWithin { late: to, .. } => {
            either(waits_from(known, to as usize), waits_from(known, at + 1))
        }
        _ => waits_from(known, at + 1),
    }
}

/// For each address what is known from it on. Where control goes back before it waits, nothing is.
pub(crate) fn all_waits(alloc: Global, raw: &RawCode) -> Result<Vec<Waits>, AllocError>
    requires { IsSmall raw.now }
    ensures { IfOk result (λ known. AreWaits raw.now known.items) }
{
    let mut known = vec![in alloc; Waits::Unknown; raw.instrs.len()]?;
    for at in (0..raw.instrs.len()).rev() {
        let waits = waits_at(raw, &known, at, instr_at(raw, at));
        known[at] = waits;
    }
    Ok(known)
}

/// What is known of the selects of code.
#[derive(Drop)]
pub(crate) struct Selects {
    /// For each address at which selects control may come to wait from it on.
    pub waits: Vec<Waits>,
    /// For each table whether its alternatives rise.
    pub ascending: Vec<bool>,
}

impl Selects {
    pub(crate) fn new(alloc: Global, raw: &RawCode) -> Result<Selects, AllocError>
        requires { IsSmall raw.now }
        ensures { IfOk result (λ s. AreSelects raw.now s) }
    {
        let waits = all_waits(alloc, raw)?;
        let ascending = ascending(alloc, raw)?;
        Ok(Selects { waits, ascending })
    }
}
