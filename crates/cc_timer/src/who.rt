ghost use Rattle.std.specs.Prelude.{◌≡◌};
ghost use Rattle.cc_timer.specs.Deadlines.{is_due_before, is_named_before};

use cc_base::{CallId, Pid};

/// Who waits for a moment. Processes go before calls, each by number.
#[derive(Clone, Copy, Debug, Drop, PartialEq, Eq)]
pub enum Who {
    /// A process, at a delay or a select.
    Process(Pid),
    /// A call that is withdrawn then.
    Call(CallId),
}

impl Who {
    fn is_before(self, other: Who) -> bool
        ensures { result ≡ is_named_before self other }
    {
        match (self, other) {
            (Who::Process(one), Who::Process(two)) => one.0 < two.0,
            (Who::Process(_), Who::Call(_)) => true,
            (Who::Call(_), Who::Process(_)) => false,
            (Who::Call(one), Who::Call(two)) => one.0 < two.0,
        }
    }
}

/// Whether the first deadline is due before the second.
#[tactic(auto, unfolding(crate::specs::Deadlines::is_due_before))]
pub(crate) fn is_before(one: (u64, Who), two: (u64, Who)) -> bool
    ensures { result ≡ is_due_before one two }
{
    one.0 < two.0 || one.0 == two.0 && one.1.is_before(two.1)
}
