//! When a run is over, when it ends as a whole, when nothing can go on, and how it stands.
ghost use Rattle.std.specs.Prelude.{◌≡◌, ◌||◌, is_some, map};
ghost use Rattle.cc_rules.specs.Ends.{has_deadline, is_due, is_stuck, is_timed, is_unsettled, waits_at_terminate};
ghost use Rattle.std.specs.List.{list_any};
ghost use Rattle.cc_rules.specs.Choice.{call_deadline, every_process, expires, expiring_numbers, is_acceptable, may_withdraw, some_process, takes_at_once};
ghost use Rattle.cc_rules.specs.State.{is_over, open_alternatives, process_at};

use crate::alternatives::{is_timed, some_terminate};
use crate::choice::{
    expires, has_eligible, has_immediate, is_acceptable, may_withdraw, takes_at_once,
};
use crate::process::PlainProcess;
use crate::state::PlainState;
use crate::timing::call_deadline;
use cc_base::{Alts, Behave};
use cc_rules::{ProcessStanding, TransactionCall};

/// Whether the process waits at `terminate`: it is open, and the process can take neither a call nor an immediate
/// alternative.
pub(crate) fn waits_at_terminate<B: Behave>(code: &B, state: &PlainState, at: usize) -> bool
    ensures { result ≡ waits_at_terminate (B.means code.now) state.now at }
{
    let Some(standing) = state.standing(at) else {
        return false;
    };
    some_terminate(standing) && !has_eligible(code, state, at) && !has_immediate(state, at)
}

// Whether the process is over or waits at `terminate`.
fn may_end<B: Behave>(code: &B, state: &PlainState, at: usize) -> bool
    ensures { result ≡ (is_over (process_at state.now.processes at).standing || waits_at_terminate (B.means code.now) state.now at) }
{
    let Some(standing) = state.standing(at) else {
        return true;
    };
    standing.is_over() || waits_at_terminate(code, state, at)
}

fn all_may_end<B: Behave>(code: &B, state: &PlainState) -> bool
    ensures { result ≡ every_process (λ p. is_over (process_at state.now.processes p).standing || waits_at_terminate (B.means code.now) state.now p) state.now }
{
    for at in 0..state.processes().len() {
        if !may_end(code, state, at) {
            return false;
        }
    }
    true
}

fn some_waits<B: Behave>(code: &B, state: &PlainState) -> bool
    ensures { result ≡ some_process (waits_at_terminate (B.means code.now) state.now) state.now }
{
    for at in 0..state.processes().len() {
        if waits_at_terminate(code, state, at) {
            return true;
        }
    }
    false
}

/// Whether the collective end is due: every process is over or waits at `terminate`, and at least one waits there.
pub(crate) fn is_due<B: Behave>(code: &B, state: &PlainState) -> bool
    ensures { result ≡ is_due (B.means code.now) state.now }
{
    all_may_end(code, state) && some_waits(code, state)
}

fn some_acceptable<B: Behave>(code: &B, state: &PlainState) -> bool
    ensures { result ≡ list_any (is_acceptable (B.means code.now) state.now) state.now.pending }
{
    for call in state.pending() {
        if is_acceptable(code, state, call) {
            return true;
        }
    }
    false
}

fn some_withdrawable<B: Behave>(code: &B, state: &PlainState) -> bool
    ensures { result ≡ list_any (may_withdraw (B.means code.now) state.now) state.now.pending }
{
    for call in state.pending() {
        if may_withdraw(code, state, call) {
            return true;
        }
    }
    false
}

fn takes_some_at_once<B: Behave>(code: &B, state: &PlainState, at: usize, alts: &Alts) -> bool
    ensures { result ≡ list_any (λ a. takes_at_once (B.means code.now) state.now at a.0) alts.now }
{
    for i in 0..alts.len() {
        let Some(item) = alts.get(i) else {
            return false;
        };
        if takes_at_once(code, state, at, item.0) {
            return true;
        }
    }
    false
}

// Whether the process may take an immediate alternative.
fn may_go_at_once<B: Behave>(code: &B, state: &PlainState, at: usize) -> bool
    ensures { result ≡ list_any (λ a. takes_at_once (B.means code.now) state.now at a.0) (open_alternatives (process_at state.now.processes at).standing) }
{
    match state.standing(at) {
        Some(ProcessStanding::AtSelect { alts, .. }) => takes_some_at_once(code, state, at, alts),
        _ => false,
    }
}

fn some_at_once<B: Behave>(code: &B, state: &PlainState) -> bool
    ensures { result ≡ some_process (λ p. list_any (λ a. takes_at_once (B.means code.now) state.now p a.0) (open_alternatives (process_at state.now.processes p).standing)) state.now }
{
    for at in 0..state.processes().len() {
        if may_go_at_once(code, state, at) {
            return true;
        }
    }
    false
}

fn expires_by_some<B: Behave>(code: &B, state: &PlainState, at: usize, alts: &Alts) -> bool
    ensures { result ≡ list_any (expires (B.means code.now) state.now at) (map (λ a. a.0) alts.now) }
{
    for i in 0..alts.len() {
        let Some(item) = alts.get(i) else {
            return false;
        };
        if expires(code, state, at, item.0) {
            return true;
        }
    }
    false
}

// Whether the process has waited long enough.
fn may_expire<B: Behave>(code: &B, state: &PlainState, at: usize) -> bool
    ensures { result ≡ list_any (expires (B.means code.now) state.now at) (expiring_numbers (process_at state.now.processes at).standing) }
{
    match state.standing(at) {
        Some(ProcessStanding::AtSelect { alts, .. }) => expires_by_some(code, state, at, alts),
        Some(ProcessStanding::AtDelay { .. }) => expires(code, state, at, 0),
        _ => false,
    }
}

fn some_expires<B: Behave>(code: &B, state: &PlainState) -> bool
    ensures { result ≡ some_process (λ p. list_any (expires (B.means code.now) state.now p) (expiring_numbers (process_at state.now.processes p).standing)) state.now }
{
    for at in 0..state.processes().len() {
        if may_expire(code, state, at) {
            return true;
        }
    }
    false
}

/// Whether some Accept, Instant, Expire, Withdraw or End is legal.
pub(crate) fn is_unsettled<B: Behave>(code: &B, state: &PlainState) -> bool
    ensures { result ≡ is_unsettled (B.means code.now) state.now }
{
    is_due(code, state)
        || some_acceptable(code, state)
        || some_at_once(code, state)
        || some_expires(code, state)
        || some_withdrawable(code, state)
}

/// Whether a deadline stands: of a process at a select or a delay, or of a pending call.
pub(crate) fn has_deadline(state: &PlainState) -> bool
    ensures { result ≡ has_deadline state.now }
{
    some_timed(state.processes()) || some_call_timed(state.pending())
}

fn some_timed(processes: &[PlainProcess]) -> bool
    ensures { result ≡ list_any (λ q. is_timed q.standing) processes.now }
{
    for process in processes {
        if is_timed(process.standing()) {
            return true;
        }
    }
    false
}

fn some_call_timed(pending: &[TransactionCall]) -> bool
    ensures { result ≡ list_any (λ call. is_some (call_deadline call.waiting)) pending.now }
{
    for call in pending {
        if call_deadline(call.waiting).is_some() {
            return true;
        }
    }
    false
}

/// Whether nothing can go on, now or later.
pub(crate) fn is_stuck<B: Behave>(code: &B, state: &PlainState) -> bool
    ensures { result ≡ is_stuck (B.means code.now) state.now }
{
    !state.is_complete()
        && !state.has_running()
        && !is_unsettled(code, state)
        && !has_deadline(state)
}
