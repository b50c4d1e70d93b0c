//! When a process that waits until a moment goes on, and by which number; the deadlines of calls.
ghost use Rattle.std.specs.Prelude.{◌≡◌};
ghost use Rattle.cc_base.specs.Alternatives.{NumbersRise};
ghost use Rattle.cc_kernel.specs.Due.{alternative_due, due_of, earlier, select_due};
ghost use Rattle.cc_kernel.specs.Timed.{deadline_of};
ghost use Rattle.cc_rules.specs.Choice.{alternative_deadline, call_deadline};
ghost use Rattle.cc_rules.specs.Events.{expiry_grant};
ghost use Rattle.cc_rules.specs.declared.process.ProcessStanding.TheVariants.{AtSelect};

use crate::deadlines::deadline_after;
use cc_base::{Alt, Alts, Grant};
use cc_rules::{ProcessStanding, Waiting};

/// A deadline in milliseconds, and the number by which the process expires at it: that of a delay alternative, or 0 at a `delay`.
#[derive(Clone, Copy, Debug, Drop)]
pub struct Due {
    pub deadline: u64,
    pub alt: u32,
}

// The one that comes first, and the first of the two on a tie.
fn earlier(first: Option<Due>, second: Option<Due>) -> Option<Due>
    ensures { result ≡ earlier first second }
{
    match (first, second) {
        (None, other) => other,
        (Some(one), None) => Some(one),
        (Some(one), Some(other)) => {
            if one.deadline <= other.deadline {
                Some(one)
            } else {
                Some(other)
            }
        }
    }
}

// The deadline of an alternative of a select that was asked at this moment.
fn alternative_deadline(asked: u64, alt: &Alt) -> Option<u64>
    ensures { result ≡ alternative_deadline asked alt.now }
{
    match alt {
        Alt::After { wait } => Some(deadline_after(asked, *wait)),
        _ => None,
    }
}

// When a select that was asked at this moment expires by this alternative; none exactly where it is no delay.
fn alternative_due(asked: u64, item: &(u32, Alt)) -> Option<Due>
    ensures { result ≡ alternative_due asked item.now }
{
    let deadline = alternative_deadline(asked, &item.1)?;
    Some(Due {
        deadline,
        alt: item.0,
    })
}

// When a select of these alternatives that was asked at this moment expires, and by which: by the delay alternative of least
// deadline, the first written on a tie.
fn select_due(asked: u64, alts: &Alts) -> Option<Due>
    ensures due { result ≡ select_due asked alts.now }
    ensures rising { NumbersRise alts.now }
{
    let mut first = None;
    for at in 0..alts.len() {
        let Some(item) = alts.get(at) else {
            return first;
        };
        first = earlier(first, alternative_due(asked, item));
    }
    first
}

/// The deadline of a process that waits for one of these alternatives since this moment.
pub(crate) fn select_deadline(asked: u64, alts: &Alts) -> Option<u64>
    ensures deadline { result ≡ deadline_of (AtSelect alts.now asked) }
    ensures rising { NumbersRise alts.now }
{
    let due = select_due(asked, alts)?;
    Some(due.deadline)
}

/// When a process that stands so expires, and by which number; none exactly where it waits for no moment.
pub(crate) fn due_of(standing: &ProcessStanding) -> Option<Due>
    ensures { result ≡ due_of standing.now }
{
    match standing {
        ProcessStanding::AtSelect { alts, asked } => select_due(*asked, alts),
        ProcessStanding::AtDelay { deadline } => Some(Due {
            deadline: *deadline,
            alt: 0,
        }),
        _ => None,
    }
}

/// The deadline of a call; none exactly where nobody waits for its answer until a moment.
pub(crate) fn call_deadline(waiting: Waiting) -> Option<u64>
    ensures { result ≡ call_deadline waiting }
{
    match waiting {
        Waiting::Until { deadline, .. } => Some(deadline),
        _ => None,
    }
}

/// What a process that stands so is granted as it expires by this number.
pub(crate) fn expiry_grant(alt: u32, standing: &ProcessStanding) -> Grant
    ensures { result ≡ expiry_grant alt standing.now }
{
    match standing {
        ProcessStanding::AtDelay { .. } => Grant::Go,
        _ => Grant::Chose { alt },
    }
}
