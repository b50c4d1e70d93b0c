//! Each rule of verification, of an instruction at an address.

ghost use Rattle.std.specs.Prelude.{◌≡◌, ◌↔◌, ◌<◌, IsTrue, Some, length, slice_get};
ghost use Rattle.cc_code.specs.Checked.{AreLeading, AreLevel};
ghost use Rattle.cc_code.specs.Control.{InFunction, InKind, optional};
ghost use Rattle.cc_code.specs.Rules.{AreAddresses, GivesHeights, HasEntries, HasHeight, HasOwnHeight, HasShape, HasTargets, IsAddress, IsFinal, IsOnlyInKinds, IsPlaced, IsPure, NamesWhatIsThere, height_at, rest_at};
ghost use Rattle.cc_code.specs.Reach.{IsSmall};

use crate::code::{RawCode, Site};
use crate::instr::Instr;
use crate::operands::{gives, shape_at};

/// The instruction at an address.
pub(crate) fn instr_at(raw: &RawCode, at: usize) -> Instr
    requires { at < length raw.now.instrs }
    ensures { slice_get raw.now.instrs at ≡ Some result }
{
    raw.instrs.as_slice()[at]
}

/// Whether an instruction stands at the address.
pub(crate) fn is_address(raw: &RawCode, address: u16) -> bool
    ensures { IsTrue result ↔ IsAddress raw.now address }
{
    (address as usize) < raw.instrs.len()
}

fn is_optional_address(raw: &RawCode, address: Option<u16>) -> bool
    ensures { IsTrue result ↔ AreAddresses raw.now (optional address) }
{
    match address {
        Some(address) => is_address(raw, address),
        None => true,
    }
}

/// Whether a site's fragments begin at instructions.
pub(crate) fn has_entries(raw: &RawCode, site: &Site) -> bool
    ensures { IsTrue result ↔ HasEntries raw.now site.now }
{
    is_optional_address(raw, site.such) && is_optional_address(raw, site.by)
}

/// Whether where it jumps, and what it names leads, are instructions.
pub(crate) fn has_targets(raw: &RawCode, leading: &Vec<bool>, instr: Instr) -> bool
    requires { AreLeading raw.now leading.now.items }
    ensures { IsTrue result ↔ HasTargets raw.now instr }
{
    match instr {
        Instr::Jump(to) | Instr::JumpZero(to) | Instr::AskWithin { late: to, .. } => {
            is_address(raw, to)
        }
        Instr::Call(function) => match raw.functions.get(function as usize) {
            Some(part) => is_address(raw, part.entry),
            None => true,
        },
        Instr::Create(kind) => match raw.kinds.get(kind as usize) {
            Some(part) => is_address(raw, part.entry),
            None => true,
        },
        Instr::OfferAccept { site, .. } => match raw.sites.get(site as usize) {
            Some(site) => has_entries(raw, site),
            None => true,
        },
        Instr::SelWait(table) => match leading.get(table as usize) {
            Some(leads) => *leads,
            None => true,
        },
        _ => true,
    }
}

/// Whether the transaction is there, and its calls are asynchronous or not.
fn has_shape(raw: &RawCode, trans: u32, is_async: bool) -> bool
    ensures { IsTrue result ↔ HasShape raw.now trans is_async }
{
    (trans as usize) < raw.transactions.len() && shape_at(raw, trans).is_async == is_async
}

/// Whether what it names is there, and of its kind.
pub(crate) fn names_what_is_there(raw: &RawCode, instr: Instr) -> bool
    ensures { IsTrue result ↔ NamesWhatIsThere raw.now instr }
{
    match instr {
        Instr::Call(function) => (function as usize) < raw.functions.len(),
        Instr::Create(kind) => (kind as usize) < raw.kinds.len(),
        Instr::Ask(trans) | Instr::AskWithin { trans, .. } => has_shape(raw, trans, false),
        Instr::Send(trans) => has_shape(raw, trans, true),
        Instr::OfferAccept { site, .. } => match raw.sites.get(site as usize) {
            Some(site) => (site.trans as usize) < raw.transactions.len(),
            None => false,
        },
        Instr::SelWait(table) => (table as usize) < raw.tables.len(),
        Instr::Format(format) => (format as usize) < raw.formats.len(),
        _ => true,
    }
}

/// The height before an instruction.
pub(crate) fn height_at(raw: &RawCode, at: usize) -> u64
    ensures height { result ≡ height_at raw.now at }
    ensures small { result < 4294967296 }
{
    match raw.heights.get(at) {
        Some(height) => u64::from(*height),
        None => 0,
    }
}

/// Whether the instruction there, if there is one, has this height.
pub(crate) fn has_height(raw: &RawCode, height: u64, at: usize) -> bool
    ensures { IsTrue result ↔ HasHeight raw.now height at }
{
    at >= raw.instrs.len() || height_at(raw, at) == height
}

/// Whether the successors have the heights that it leaves, given which tables lead to heights of 0 alone.
pub(crate) fn gives_heights(
    raw: &RawCode,
    level: &Vec<bool>,
    at: usize,
    instr: Instr,
    rest: u64,
) -> bool
    requires small { IsSmall raw.now }
    requires level { AreLevel raw.now level.now.items }
    requires there { at < length raw.now.instrs }
    requires rest { rest ≡ rest_at raw.now at instr }
    requires low { rest < 4294967296 }
    requires own { HasOwnHeight raw.now at instr }
    ensures { IsTrue result ↔ GivesHeights raw.now at instr }
{
    let given = gives(raw, instr);
    match instr {
        Instr::Ret(_) | Instr::Yield | Instr::End => true,
        Instr::Jump(to) => has_height(raw, rest, to as usize),
        Instr::JumpZero(to) => has_height(raw, rest, to as usize) && has_height(raw, rest, at + 1),
        Instr::AskWithin { late, .. } => {
            has_height(raw, rest, late as usize) && has_height(raw, rest + given, at + 1)
        }
        Instr::SelWait(table) => match level.get(table as usize) {
            Some(level) => *level,
            None => true,
        },
        _ => has_height(raw, rest + given, at + 1),
    }
}

/// Whether nothing falls through it.
pub(crate) fn is_final(instr: Instr) -> bool
    ensures { IsTrue result ↔ IsFinal instr }
{
    matches!(
        instr,
        Instr::Jump(_) | Instr::Ret(_) | Instr::Yield | Instr::End
    )
}

/// Whether the instruction at an address may stand in a pure fragment.
pub(crate) fn is_pure(at: usize, instr: Instr) -> bool
    ensures { IsTrue result ↔ IsPure at instr }
{
    match instr {
        Instr::Const(_)
        | Instr::Field(_)
        | Instr::Index { .. }
        | Instr::Add(_)
        | Instr::Sub(_)
        | Instr::Mul(_)
        | Instr::Div(_)
        | Instr::Rem(_)
        | Instr::Neg(_)
        | Instr::Lt
        | Instr::Le
        | Instr::Gt
        | Instr::Ge
        | Instr::Eq
        | Instr::Ne
        | Instr::Not
        | Instr::Narrow(_)
        | Instr::Yield => true,
        Instr::Fetch(cells) => cells == 1,
        Instr::Jump(to) | Instr::JumpZero(to) => at < to as usize,
        _ => false,
    }
}

/// Whether only the body of a kind may hold it.
fn is_only_in_kinds(instr: Instr) -> bool
    ensures { IsTrue result ↔ IsOnlyInKinds instr }
{
    matches!(
        instr,
        Instr::SelBegin
            | Instr::OfferAccept { .. }
            | Instr::OfferAfter(_)
            | Instr::OfferNow(_)
            | Instr::OfferEnd(_)
            | Instr::SelWait(_)
            | Instr::Reply(_)
            | Instr::End
    )
}

/// Whether it stands in no part where it may not.
pub(crate) fn is_placed(
    raw: &RawCode,
    in_function: bool,
    in_kind: bool,
    at: usize,
    instr: Instr,
) -> bool
    requires function { IsTrue in_function ↔ InFunction raw.now at }
    requires kind { IsTrue in_kind ↔ InKind raw.now at }
    ensures { IsTrue result ↔ IsPlaced raw.now at instr }
{
    let _ = raw;
    match instr {
        Instr::Ret(_) => !in_kind,
        Instr::Yield => !in_kind && !in_function,
        _ => !in_function || !is_only_in_kinds(instr),
    }
}
