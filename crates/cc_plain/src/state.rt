ghost use Rattle.std.specs.Prelude.{◌≡◌, ◌<◌, ◌≤◌, length, MatchOption, IfOk, None, Some};
ghost use Rattle.cc_rules.specs.Choice.{call_numbered};
ghost use Rattle.cc_rules.specs.Ends.{has_faulted, has_running, is_complete};
ghost use Rattle.cc_rules.specs.State.{first_state, process_at};

use crate::copies::copy_calls;
use crate::process::PlainProcess;
use cc_base::{Bytes, CallId, Cells, Memory};
use cc_rules::{ProcessStanding, TransactionCall};
use std::alloc::Global;
use std::marker::Model;
use std::sync::Arc;

/// A state of the machine.
#[derive(Drop)]
pub struct PlainState {
    pub(crate) alloc: Global,
    pub(crate) processes: Vec<PlainProcess>,
    pub(crate) pending: Vec<TransactionCall>,
    /// The whole input.
    pub(crate) input: Arc<Bytes>,
    /// How much of the input was taken.
    pub(crate) taken: usize,
    pub(crate) moment: u64,
    pub(crate) after_time: bool,
    pub(crate) end_taken: bool,
    pub(crate) drawn: u32,
}

impl Model for PlainState {
    ghost use Rattle.std.specs.Prelude.{drop};
    ghost use Rattle.cc_rules.specs.State.{State};

    ghost Value = { State };

    ghost view = { λ s. record { processes = s.processes.items; pending = s.pending.items; input = drop s.taken s.input.value; moment = s.moment; after_time = s.after_time; end_taken = s.end_taken; drawn = s.drawn } };
}

impl PlainState {
    /// The machine begins with `main` alone.
    pub(crate) fn first(alloc: Global, input: Arc<Bytes>) -> Result<PlainState, Memory>
        ensures { IfOk result (λ s. s ≡ first_state input.value) }
    {
        let mut processes = Vec::new(alloc);
        processes.push(PlainProcess::made(alloc, 0, Cells::new(alloc))?)?;
        Ok(PlainState {
            alloc,
            processes,
            pending: Vec::new(alloc),
            input,
            taken: 0,
            moment: 0,
            after_time: false,
            end_taken: false,
            drawn: 0,
        })
    }

    /// The same state, in memory of its own.
    pub(crate) fn copy(&self) -> Result<PlainState, Memory>
        ensures { IfOk result (λ s. s ≡ self.now) }
    {
        Ok(PlainState {
            alloc: self.alloc,
            processes: copy_processes(self.alloc, self.processes.as_slice())?,
            pending: copy_calls(self.alloc, self.pending.as_slice())?,
            input: Arc::try_clone(&self.input)?,
            taken: self.taken,
            moment: self.moment,
            after_time: self.after_time,
            end_taken: self.end_taken,
            drawn: self.drawn,
        })
    }

    pub(crate) fn alloc(&self) -> Global {
        self.alloc
    }

    pub(crate) fn processes(&self) -> &[PlainProcess]
        ensures { result.now ≡ self.now.processes }
    {
        self.processes.as_slice()
    }

    pub(crate) fn pending(&self) -> &[TransactionCall]
        ensures { result.now ≡ self.now.pending }
    {
        self.pending.as_slice()
    }

    pub(crate) fn moment(&self) -> u64
        ensures { result ≡ self.now.moment }
    {
        self.moment
    }

    pub(crate) fn is_after_time(&self) -> bool
        ensures { result ≡ self.now.after_time }
    {
        self.after_time
    }

    pub(crate) fn drawn(&self) -> u32
        ensures { result ≡ self.now.drawn }
    {
        self.drawn
    }

    /// The process of this number; none exactly where it was never made.
    pub(crate) fn process(&self, at: usize) -> Option<&PlainProcess>
        ensures { MatchOption result (length self.now.processes ≤ at) (λ q. (at < length self.now.processes) × (q.now ≡ process_at self.now.processes at)) }
    {
        if at >= self.processes.len() {
            return None;
        }
        Some(&self.processes[at])
    }

    /// How the process of this number stands; none exactly where it was never made.
    pub(crate) fn standing(&self, at: usize) -> Option<&ProcessStanding>
        ensures { MatchOption result (length self.now.processes ≤ at) (λ standing. (at < length self.now.processes) × (standing.now ≡ (process_at self.now.processes at).standing)) }
    {
        match self.process(at) {
            None => None,
            Some(process) => Some(process.standing()),
        }
    }

    /// The pending call of this number.
    pub(crate) fn call_numbered(&self, number: CallId) -> Option<&TransactionCall>
        ensures { MatchOption result (call_numbered self.now.pending number.0 ≡ None) (λ call. call_numbered self.now.pending number.0 ≡ Some call.now) }
    {
        for call in &self.pending {
            if call.number.0 == number.0 {
                return Some(call);
            }
        }
        None
    }

    /// Whether some process is running.
    pub(crate) fn has_running(&self) -> bool
        ensures { result ≡ has_running self.now }
    {
        self.processes.iter().any(|q| q.standing().is_running())
    }

    /// Whether every process is over.
    pub(crate) fn is_complete(&self) -> bool
        ensures { result ≡ is_complete self.now }
    {
        self.processes.iter().all(|q| q.standing().is_over())
    }

    /// Whether some process was stopped by a fault.
    pub(crate) fn has_faulted(&self) -> bool
        ensures { result ≡ has_faulted self.now }
    {
        self.processes.iter().any(|q| q.standing().is_faulted())
    }
}

fn copy_processes(alloc: Global, processes: &[PlainProcess]) -> Result<Vec<PlainProcess>, Memory>
    ensures { IfOk result (λ qs. qs.items ≡ processes.now) }
{
    let mut copies = Vec::new(alloc);
    for process in processes {
        copies.push(process.copy(alloc)?)?;
    }
    Ok(copies)
}
