//! Which call is taken, and who may go on without a call.
ghost use Rattle.std.specs.Prelude.{◌≡◌, false};
ghost use Rattle.std.specs.List.{list_any};
ghost use Rattle.std.specs.Option.{option_map_or};
ghost use Rattle.cc_rules.specs.Choice.{accepts, expires, goes_before, has_eligible, has_immediate, is_acceptable, is_chosen, is_eligible, may_withdraw, rank, takes_at_once};

use crate::alternatives::{is_first_due, is_immediate, open_alternative, some_immediate};
use crate::state::PlainState;
use crate::timing::call_deadline;
use cc_base::{Alt, Alts, Behave};
use cc_rules::{ProcessStanding, TransactionCall};

/// The rank of the call for an alternative of the process; none where it is not eligible.
fn rank<B: Behave>(code: &B, at: usize, alt: &Alt, call: &TransactionCall) -> Option<i64>
    ensures { result ≡ rank (B.means code.now) at alt.now call.now }
{
    match alt {
        Alt::Accept { trans, site, env } => {
            if call.target.0 as usize == at && call.trans == *trans {
                code.fit(*site, env, &call.args)
            } else {
                None
            }
        }
        _ => None,
    }
}

/// Whether the call is eligible, and goes before the other.
fn goes_before<B: Behave>(
    code: &B,
    at: usize,
    alt: &Alt,
    call: &TransactionCall,
    other: &TransactionCall,
) -> bool
    ensures { result ≡ option_map_or (λ k. goes_before k call.now.number.0 (rank (B.means code.now) at alt.now other.now) other.now.number.0) (rank (B.means code.now) at alt.now call.now) false }
{
    let Some(k) = rank(code, at, alt, call) else {
        return false;
    };
    let Some(rank) = rank(code, at, alt, other) else {
        return true;
    };
    k < rank || k <= rank && call.number.0 <= other.number.0
}

/// Whether the call is chosen for the alternative.
fn is_chosen<B: Behave>(
    code: &B,
    at: usize,
    alt: &Alt,
    pending: &[TransactionCall],
    call: &TransactionCall,
) -> bool
    ensures { result ≡ is_chosen (B.means code.now) at alt.now pending.now call.now }
{
    if rank(code, at, alt, call).is_none() {
        return false;
    }
    for other in pending {
        if !goes_before(code, at, alt, call, other) {
            return false;
        }
    }
    true
}

/// Whether some call is eligible for the alternative.
fn some_eligible<B: Behave>(code: &B, at: usize, alt: &Alt, pending: &[TransactionCall]) -> bool
    ensures { result ≡ list_any (is_eligible (B.means code.now) at alt.now) pending.now }
{
    for call in pending {
        if rank(code, at, alt, call).is_some() {
            return true;
        }
    }
    false
}

/// Whether some call is eligible for one of these alternatives of the process.
fn eligible_for<B: Behave>(code: &B, at: usize, alts: &Alts, pending: &[TransactionCall]) -> bool
    ensures { result ≡ list_any (λ a. list_any (is_eligible (B.means code.now) at a.1) pending.now) alts.now }
{
    for i in 0..alts.len() {
        let Some(item) = alts.get(i) else {
            return false;
        };
        if some_eligible(code, at, &item.1, pending) {
            return true;
        }
    }
    false
}

/// Whether some call is eligible for some alternative of the process.
pub(crate) fn has_eligible<B: Behave>(code: &B, state: &PlainState, at: usize) -> bool
    ensures { result ≡ has_eligible (B.means code.now) state.now at }
{
    match state.standing(at) {
        Some(ProcessStanding::AtSelect { alts, .. }) => {
            eligible_for(code, at, alts, state.pending())
        }
        _ => false,
    }
}

/// Whether the process has an open immediate alternative.
pub(crate) fn has_immediate(state: &PlainState, at: usize) -> bool
    ensures { result ≡ has_immediate state.now at }
{
    let Some(standing) = state.standing(at) else {
        return false;
    };
    some_immediate(standing)
}

/// Whether the process may take this call by its alternative of this number.
pub(crate) fn accepts<B: Behave>(
    code: &B,
    state: &PlainState,
    at: usize,
    number: u32,
    call: &TransactionCall,
) -> bool
    ensures { result ≡ accepts (B.means code.now) state.now at number call.now }
{
    let Some(standing) = state.standing(at) else {
        return false;
    };
    let Some(alt) = open_alternative(standing, number) else {
        return false;
    };
    is_chosen(code, at, alt, state.pending(), call)
}

/// Whether the target of this call may take it by a number of one of these alternatives.
fn accepts_by_some<B: Behave>(
    code: &B,
    state: &PlainState,
    alts: &Alts,
    call: &TransactionCall,
) -> bool
    ensures { result ≡ list_any (λ a. accepts (B.means code.now) state.now call.now.target.0 a.0 call.now) alts.now }
{
    for i in 0..alts.len() {
        let Some(item) = alts.get(i) else {
            return false;
        };
        if accepts(code, state, call.target.0 as usize, item.0, call) {
            return true;
        }
    }
    false
}

/// Whether the target of this call may take it.
pub(crate) fn is_acceptable<B: Behave>(code: &B, state: &PlainState, call: &TransactionCall) -> bool
    ensures { result ≡ is_acceptable (B.means code.now) state.now call.now }
{
    match state.standing(call.target.0 as usize) {
        Some(ProcessStanding::AtSelect { alts, .. }) => accepts_by_some(code, state, alts, call),
        _ => false,
    }
}

/// Whether the process may take its immediate alternative of this number.
pub(crate) fn takes_at_once<B: Behave>(code: &B, state: &PlainState, at: usize, number: u32) -> bool
    ensures { result ≡ takes_at_once (B.means code.now) state.now at number }
{
    let Some(standing) = state.standing(at) else {
        return false;
    };
    let Some(alt) = open_alternative(standing, number) else {
        return false;
    };
    is_immediate(alt) && !has_eligible(code, state, at)
}

/// Whether the process has waited long enough, by its delay alternative of this number, or at a delay by 0.
pub(crate) fn expires<B: Behave>(code: &B, state: &PlainState, at: usize, number: u32) -> bool
    ensures { result ≡ expires (B.means code.now) state.now at number }
{
    match state.standing(at) {
        Some(ProcessStanding::AtSelect { alts, asked }) => {
            is_first_due(state.moment(), *asked, alts, number)
                && !has_eligible(code, state, at)
                && !has_immediate(state, at)
        }
        Some(ProcessStanding::AtDelay { deadline }) => number == 0 && *deadline <= state.moment(),
        _ => false,
    }
}

/// Whether the pending call may be withdrawn.
pub(crate) fn may_withdraw<B: Behave>(code: &B, state: &PlainState, call: &TransactionCall) -> bool
    ensures { result ≡ may_withdraw (B.means code.now) state.now call.now }
{
    match call_deadline(call.waiting) {
        Some(deadline) => deadline <= state.moment() && !is_acceptable(code, state, call),
        None => false,
    }
}
