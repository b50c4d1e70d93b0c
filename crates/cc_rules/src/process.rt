ghost use Rattle.std.specs.Prelude.{◌≡◌, false, MatchOption};
ghost use Rattle.cc_rules.specs.Effects.{caller_of};
ghost use Rattle.cc_rules.specs.State.{is_faulted, is_over, is_running};
ghost use Rattle.cc_rules.specs.declared.process.ProcessStanding.TheVariants as standing;

use cc_base::{Alts, CallId, Cells, FaultKind, Pid};

/// Where a process stands.
#[derive(Debug, Drop)]
pub enum ProcessStanding {
    /// It may ask.
    Running,
    /// It waits for one of these alternatives, since the moment `asked`.
    AtSelect { alts: Alts, asked: u64 },
    /// It waits until this moment.
    AtDelay { deadline: u64 },
    /// It waits for the answer to this call.
    AtCall { call: CallId },
    /// It has come to its end.
    Ended,
    /// It was stopped by a fault.
    Faulted { kind: FaultKind },
}

impl ProcessStanding {
    /// Whether the process is running: it may ask.
    pub fn is_running(&self) -> bool
        ensures running { result ≡ is_running self.now }
    {
        matches!(self, ProcessStanding::Running)
    }

    /// Whether the process has ended, or was stopped by a fault.
    pub fn is_over(&self) -> bool
        ensures over { result ≡ is_over self.now }
    {
        matches!(
            self,
            ProcessStanding::Ended | ProcessStanding::Faulted { .. }
        )
    }

    /// Whether the process was stopped by a fault.
    pub fn is_faulted(&self) -> bool
        ensures faulted { result ≡ is_faulted self.now }
    {
        matches!(self, ProcessStanding::Faulted { .. })
    }

    /// The fault by which the process was stopped; none exactly where it was not stopped by one.
    pub fn fault(&self) -> Option<FaultKind>
        ensures fault { MatchOption result (is_faulted self.now ≡ false) (λ kind. self.now ≡ standing.Faulted kind) }
    {
        match self {
            ProcessStanding::Faulted { kind } => Some(*kind),
            _ => None,
        }
    }
}

/// Who waits for the answer to a call.
#[derive(Clone, Copy, Debug, Drop, PartialEq, Eq)]
pub enum Waiting {
    /// Nobody: the call is asynchronous.
    Nobody,
    /// Its caller.
    Caller { pid: Pid },
    /// Its caller. The call is withdrawn where it is still pending at the deadline, in milliseconds, and can't be taken.
    Until { pid: Pid, deadline: u64 },
}

impl Waiting {
    /// Who waits for the answer; none exactly where nobody does.
    pub fn caller(self) -> Option<Pid>
        ensures caller { result ≡ caller_of self }
    {
        match self {
            Waiting::Nobody => None,
            Waiting::Caller { pid } => Some(pid),
            Waiting::Until { pid, .. } => Some(pid),
        }
    }
}

/// A transaction call that was asked: it is pending at its target, or being served there.
#[derive(Debug, Drop)]
pub struct TransactionCall {
    pub number: CallId,
    pub target: Pid,
    pub trans: u32,
    pub args: Cells,
    pub waiting: Waiting,
}
