//! What a process can take.
ghost use Rattle.std.specs.Prelude.{◌≡◌, ℕ, false, true, MatchOption, Some};
ghost use Rattle.std.specs.List.{list_any};
ghost use Rattle.std.specs.Option.{option_map_or};
ghost use Rattle.cc_base.specs.Alternatives.{numbered};
ghost use Rattle.cc_kernel.specs.Resting.{CanTake, RestsSo};
ghost use Rattle.cc_kernel.specs.Seats.{seat_at};
ghost use Rattle.cc_rules.specs.Choice.{call_numbered, is_chosen, is_eligible, is_immediate, is_terminate};
ghost use Rattle.cc_rules.specs.declared.process.TransactionCall.{TransactionCall};

use crate::pending::Pending;
use crate::seats::Seats;
use cc_base::{Alt, Alts, Behave, CallId, Pid};
use cc_rules::ProcessStanding;

/// What a process can take.
#[derive(Clone, Copy, Debug, Drop)]
pub enum Taking {
    /// The pending call of this number, by the alternative of this number.
    Call { alt: u32, number: CallId },
    /// The immediate alternative of this number.
    AtOnce { alt: u32 },
}

// An alternative for which a pending call is eligible, by its number, and the call that is chosen for it; none exactly where none
// is eligible for any.
fn best_call<B: Behave>(code: &B, pending: &Pending, pid: Pid, alts: &Alts) -> Option<(u32, CallId)>
    ensures { MatchOption result (list_any (λ a. list_any (is_eligible (B.means code.now) pid.0 a.1) pending.now.items) alts.now ≡ false) (λ r. (call : TransactionCall) × (call_numbered pending.now.items r.1.0 ≡ Some call) × (option_map_or (λ alt. is_chosen (B.means code.now) pid.0 alt pending.now.items call) (numbered alts.now r.0) false ≡ true)) }
{
    for at in 0..alts.len() {
        let Some(item) = alts.get(at) else {
            return None;
        };
        if let Some(number) = pending.best(code, pid, &item.1) {
            return Some((item.0, number));
        }
    }
    None
}

fn is_immediate(alt: &Alt) -> bool
    ensures { result ≡ is_immediate alt.now }
{
    matches!(alt, Alt::Now)
}

fn is_terminate(alt: &Alt) -> bool
    ensures { result ≡ is_terminate alt.now }
{
    matches!(alt, Alt::Terminate)
}

// The number of an immediate alternative; none exactly where there is none.
fn immediate_of(alts: &Alts) -> Option<u32>
    ensures { MatchOption result (list_any (λ a. is_immediate a.1) alts.now ≡ false) (λ i. option_map_or is_immediate (numbered alts.now i) false ≡ true) }
{
    for at in 0..alts.len() {
        let Some(item) = alts.get(at) else {
            return None;
        };
        if is_immediate(&item.1) {
            return Some(item.0);
        }
    }
    None
}

/// Whether `terminate` is one of the alternatives.
pub(crate) fn has_terminate(alts: &Alts) -> bool
    ensures { result ≡ list_any (λ a. is_terminate a.1) alts.now }
{
    for at in 0..alts.len() {
        let Some(item) = alts.get(at) else {
            return false;
        };
        if is_terminate(&item.1) {
            return true;
        }
    }
    false
}

// What the process, which stands so, can take.
fn what_it_takes_so<B: Behave>(
    code: &B,
    standing: &ProcessStanding,
    pending: &Pending,
    pid: Pid,
) -> Option<Taking>
    ensures { MatchOption result (RestsSo (B.means code.now) pid.0 standing.now pending.now.items) (CanTake (B.means code.now) pid.0 standing.now pending.now.items) }
{
    let ProcessStanding::AtSelect { alts, .. } = standing else {
        return None;
    };
    if let Some((alt, number)) = best_call(code, pending, pid, alts) {
        return Some(Taking::Call { alt, number });
    }
    let Some(alt) = immediate_of(alts) else {
        return None;
    };
    Some(Taking::AtOnce { alt })
}

/// What the process can take: a pending call, by the first of its alternatives for which one is eligible; an immediate alternative
/// where no call is eligible. None exactly where it can take nothing.
pub(crate) fn what_it_takes<B: Behave>(
    code: &B,
    seats: &Seats<B::Proc>,
    pending: &Pending,
    pid: Pid,
) -> Option<Taking>
    ensures { MatchOption result (RestsSo (B.means code.now) pid.0 (seat_at seats.now.items pid.0).standing pending.now.items) (CanTake (B.means code.now) pid.0 (seat_at seats.now.items pid.0).standing pending.now.items) }
{
    let Some(standing) = seats.standing(pid.0 as usize) else {
        return None;
    };
    what_it_takes_so(code, standing, pending, pid)
}
