//! The open alternatives of a process that stands so.
ghost use Rattle.std.specs.Prelude.{◌≡◌, MatchOption, None, Some, is_some};
ghost use Rattle.std.specs.List.{list_all, list_any};
ghost use Rattle.cc_base.specs.Alternatives.{numbered};
ghost use Rattle.cc_rules.specs.Choice.{alternative_deadline, expires_before, is_first_due, is_immediate, is_terminate};
ghost use Rattle.cc_rules.specs.Ends.{is_timed};
ghost use Rattle.cc_rules.specs.State.{open_alternatives};

use crate::timing::{alternative_deadline, expires_before};
use cc_base::{Alt, Alts};
use cc_rules::ProcessStanding;

/// The alternative of this number.
pub(crate) fn alternative_numbered(alts: &Alts, number: u32) -> Option<&Alt>
    ensures { MatchOption result (numbered alts.now number ≡ None) (λ alt. numbered alts.now number ≡ Some alt.now) }
{
    for at in 0..alts.len() {
        let Some(item) = alts.get(at) else {
            return None;
        };
        if item.0 == number {
            return Some(&item.1);
        }
    }
    None
}

/// The open alternative of this number, where the process stands so.
pub(crate) fn open_alternative(standing: &ProcessStanding, number: u32) -> Option<&Alt>
    ensures { MatchOption result (numbered (open_alternatives standing.now) number ≡ None) (λ alt. numbered (open_alternatives standing.now) number ≡ Some alt.now) }
{
    let ProcessStanding::AtSelect { alts, .. } = standing else {
        return None;
    };
    alternative_numbered(alts, number)
}

pub(crate) fn is_immediate(alt: &Alt) -> bool
    ensures { result ≡ is_immediate alt.now }
{
    matches!(alt, Alt::Now)
}

fn is_terminate(alt: &Alt) -> bool
    ensures { result ≡ is_terminate alt.now }
{
    matches!(alt, Alt::Terminate)
}

fn any_immediate(alts: &Alts) -> bool
    ensures { result ≡ list_any (λ a. is_immediate a.1) alts.now }
{
    for at in 0..alts.len() {
        let Some(item) = alts.get(at) else {
            return false;
        };
        if is_immediate(&item.1) {
            return true;
        }
    }
    false
}

/// Whether an immediate alternative is open.
pub(crate) fn some_immediate(standing: &ProcessStanding) -> bool
    ensures { result ≡ list_any (λ a. is_immediate a.1) (open_alternatives standing.now) }
{
    match standing {
        ProcessStanding::AtSelect { alts, .. } => any_immediate(alts),
        _ => false,
    }
}

fn any_terminate(alts: &Alts) -> bool
    ensures { result ≡ list_any (λ a. is_terminate a.1) alts.now }
{
    for at in 0..alts.len() {
        let Some(item) = alts.get(at) else {
            return false;
        };
        if is_terminate(&item.1) {
            return true;
        }
    }
    false
}

/// Whether `terminate` is open.
pub(crate) fn some_terminate(standing: &ProcessStanding) -> bool
    ensures { result ≡ list_any (λ a. is_terminate a.1) (open_alternatives standing.now) }
{
    match standing {
        ProcessStanding::AtSelect { alts, .. } => any_terminate(alts),
        _ => false,
    }
}

fn some_delay(asked: u64, alts: &Alts) -> bool
    ensures { result ≡ list_any (λ a. is_some (alternative_deadline asked a.1)) alts.now }
{
    for at in 0..alts.len() {
        let Some(item) = alts.get(at) else {
            return false;
        };
        if alternative_deadline(asked, &item.1).is_some() {
            return true;
        }
    }
    false
}

/// Whether a deadline stands for a process that stands so.
pub(crate) fn is_timed(standing: &ProcessStanding) -> bool
    ensures { result ≡ is_timed standing.now }
{
    match standing {
        ProcessStanding::AtSelect { alts, asked } => some_delay(*asked, alts),
        ProcessStanding::AtDelay { .. } => true,
        _ => false,
    }
}

// Whether the delay alternative with this deadline expires before each other.
fn expires_first(asked: u64, alts: &Alts, deadline: u64, number: u32) -> bool
    ensures { result ≡ list_all (λ b. expires_before deadline number (alternative_deadline asked b.1) b.0) alts.now }
{
    for at in 0..alts.len() {
        let Some(item) = alts.get(at) else {
            return true;
        };
        if !expires_before(
            deadline,
            number,
            alternative_deadline(asked, &item.1),
            item.0,
        ) {
            return false;
        }
    }
    true
}

/// Whether the alternative is the delay of least deadline, the first written on a tie, and its deadline has come.
pub(crate) fn is_first_due(moment: u64, asked: u64, alts: &Alts, number: u32) -> bool
    ensures { result ≡ is_first_due moment asked alts.now number }
{
    let Some(alt) = alternative_numbered(alts, number) else {
        return false;
    };
    let Some(deadline) = alternative_deadline(asked, alt) else {
        return false;
    };
    deadline <= moment && expires_first(asked, alts, deadline, number)
}
