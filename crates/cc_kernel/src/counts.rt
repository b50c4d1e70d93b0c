ghost use Rattle.std.specs.Prelude.{◌≡◌, ◌+◌, ◌≤◌};
ghost use Rattle.cc_base.specs.Limits.{most_processes};
ghost use Rattle.cc_kernel.specs.Counted.{Covers, HasMoved, may_terminate, one_where};

use crate::choice::has_terminate;
use cc_rules::ProcessStanding;

/// How many processes stand how.
#[derive(Clone, Copy, Debug, Drop)]
pub struct Counts {
    /// How many are running.
    pub running: usize,
    /// How many have ended or were stopped by a fault.
    pub over: usize,
    /// How many were stopped by a fault.
    pub faulted: usize,
    /// How many wait for an alternative where `terminate` is one.
    pub terminating: usize,
}

impl Counts {
    /// Of no process.
    pub(crate) fn new() -> Counts
        ensures { result ≡ record { running = 0; over = 0; faulted = 0; terminating = 0 } }
    {
        Counts {
            running: 0,
            over: 0,
            faulted: 0,
            terminating: 0,
        }
    }

    /// A process that stood so stands so from now on.
    pub(crate) fn change(&mut self, from: &ProcessStanding, to: &ProcessStanding)
        requires { Covers from.now self.old }
        ensures { HasMoved from.now to.now self.old self.new }
    {
        self.running = moved(self.running, from.is_running(), to.is_running());
        self.over = moved(self.over, from.is_over(), to.is_over());
        self.faulted = moved(self.faulted, from.is_faulted(), to.is_faulted());
        self.terminating = moved(self.terminating, may_terminate(from), may_terminate(to));
    }
}

// A count without one that was counted, where one was, and with one that is, where one is.
fn moved(count: usize, was: bool, is: bool) -> usize
    requires counted { one_where was ≤ count }
    requires few { count ≤ most_processes }
    ensures { result + one_where was ≡ count + one_where is }
{
    match (was, is) {
        (true, false) => count - 1,
        (false, true) => count + 1,
        _ => count,
    }
}

/// Whether the process waits for an alternative where `terminate` is one.
pub(crate) fn may_terminate(standing: &ProcessStanding) -> bool
    ensures { result ≡ may_terminate standing.now }
{
    match standing {
        ProcessStanding::AtSelect { alts, .. } => has_terminate(alts),
        _ => false,
    }
}
