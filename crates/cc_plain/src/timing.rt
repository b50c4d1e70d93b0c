//! Waits and deadlines.
ghost use Rattle.std.specs.Prelude.{◌≡◌};
ghost use Rattle.cc_rules.specs.Choice.{alternative_deadline, call_deadline, expires_before};
ghost use Rattle.cc_rules.specs.Effects.{deadline_after};

use cc_base::Alt;
use cc_rules::Waiting;

/// The deadline of what was asked at this moment, in milliseconds, at most the greatest number of 64 bits.
pub(crate) fn deadline_after(moment: u64, wait: i64) -> u64
    ensures { result ≡ deadline_after moment wait }
{
    if wait < 0 {
        moment
    } else {
        moment.saturating_add(wait as u64)
    }
}

/// The deadline of an alternative of a select that was asked at this moment.
pub(crate) fn alternative_deadline(asked: u64, alt: &Alt) -> Option<u64>
    ensures { result ≡ alternative_deadline asked alt.now }
{
    match alt {
        Alt::After { wait } => Some(deadline_after(asked, *wait)),
        _ => None,
    }
}

/// The deadline of a call.
pub(crate) fn call_deadline(waiting: Waiting) -> Option<u64>
    ensures { result ≡ call_deadline waiting }
{
    match waiting {
        Waiting::Until { deadline, .. } => Some(deadline),
        _ => None,
    }
}

/// Whether the delay alternative `alt` with this deadline is the other one, or expires before it.
pub(crate) fn expires_before(deadline: u64, alt: u32, other: Option<u64>, other_alt: u32) -> bool
    ensures { result ≡ expires_before deadline alt other other_alt }
{
    match other {
        None => true,
        Some(later) => deadline < later || deadline <= later && alt <= other_alt,
    }
}
