//! What the events do to a state.
ghost use Rattle.std.specs.Prelude.{◌≡◌, ◌<◌, ◌++◌, ◌∷◌, [], All, IfOk, OnOk, if◌then◌else◌, length, nat_lt, not};
ghost use Rattle.std.specs.List.{filter};
ghost use Rattle.cc_base.specs.Limits.{most_processes};
ghost use Rattle.cc_base.specs.declared.names.FaultKind.TheVariants.{TooMany};
ghost use Rattle.cc_base.specs.declared.request.Grant.TheVariants.{Byte, Go, Gone, Made};
ghost use Rattle.cc_rules.specs.Effects.{answered, called, each_gets_gone, effect, ended, first_byte, grant_to, is_for, is_there, of_cells, replied, rest_of, waits_for, with_standing};
ghost use Rattle.cc_rules.specs.Ends.{waits_at_terminate};
ghost use Rattle.cc_rules.specs.Events.{accepted, all_ended, withdrawn, without_call};
ghost use Rattle.cc_rules.specs.State.{made, process_at};
ghost use Rattle.cc_rules.specs.declared.process.ProcessStanding.TheVariants.{AtCall, Ended, Faulted};
ghost use Rattle.cc_rules.specs.declared.process.Waiting.TheVariants.{Nobody};

use crate::copies::copy_call;
use crate::ends::waits_at_terminate;
use crate::process::PlainProcess;
use crate::state::PlainState;
use crate::timing::deadline_after;
use cc_base::limits::MOST_PROCESSES;
use cc_base::{Behave, CallId, Cells, FaultKind, Grant, Memory, Pid, Request};
use cc_rules::{ProcessStanding, TransactionCall, Waiting};
use std::alloc::Global;

impl PlainState {
    /// The process goes on with this grant.
    pub(crate) fn grant_to(&mut self, at: usize, grant: Grant) -> Result<(), Memory>
        requires { at < length self.old.processes }
        ensures { OnOk result (self.new ≡ record self.old { processes = grant_to self.old.processes at grant }) }
    {
        self.processes[at].grant(grant)
    }

    /// The process stands so.
    pub(crate) fn wait(&mut self, at: usize, standing: ProcessStanding)
        requires { at < length self.old.processes }
        ensures { self.new ≡ record self.old { processes = with_standing self.old.processes at standing } }
    {
        self.processes[at].wait(standing);
    }

    /// The caller of the call, where one waits, goes on with this grant.
    pub(crate) fn answer(&mut self, call: &TransactionCall, grant: Grant) -> Result<(), Memory>
        ensures { OnOk result (self.new ≡ record self.old { processes = answered self.old.processes call.now grant }) }
    {
        let Some(caller) = call.waiting.caller() else {
            return Ok(());
        };
        let at = caller.0 as usize;
        if self.waits_for(at, call.number) && at < self.processes.len() {
            self.grant_to(at, grant)?;
        }
        Ok(())
    }

    // Whether the process waits for the call of this number.
    fn waits_for(&self, at: usize, number: CallId) -> bool
        ensures { result ≡ waits_for number.0 (process_at self.now.processes at).standing }
    {
        match self.standing(at) {
            Some(ProcessStanding::AtCall { call }) => call.0 == number.0,
            _ => false,
        }
    }

    // The caller of each of these calls, where one waits, goes on with Gone.
    fn each_gets_gone(&mut self, calls: &[TransactionCall]) -> Result<(), Memory>
        ensures { OnOk result (self.new ≡ record self.old { processes = each_gets_gone self.old.processes calls.now }) }
    {
        for call in calls {
            self.answer(call, Grant::Gone)?;
        }
        Ok(())
    }

    // The caller of each of these calls that is for the target, where one waits, goes on with Gone.
    fn gone_at(&mut self, target: usize, calls: &[TransactionCall]) -> Result<(), Memory>
        ensures { OnOk result (self.new ≡ record self.old { processes = each_gets_gone self.old.processes (filter (is_for target) calls.now) }) }
    {
        for call in calls {
            if call.target.0 as usize == target {
                self.answer(call, Grant::Gone)?;
            }
        }
        Ok(())
    }

    // Every call that is pending at the target is removed.
    fn drop_all(&mut self, target: usize)
        ensures { self.new ≡ record self.old { pending = filter (λ call. not (is_for target call)) self.old.pending } }
    {
        keep_others(&mut self.pending, target);
    }

    /// The process is over, as in the state that is given, and whoever waits for it goes on with Gone.
    pub(crate) fn end(
        &mut self,
        before: &PlainState,
        at: usize,
        standing: ProcessStanding,
    ) -> Result<(), Memory>
        requires same { self.old ≡ before.now }
        requires within { at < length self.old.processes }
        ensures { OnOk result (self.new ≡ ended before.now at standing) }
    {
        let Some(process) = before.process(at) else {
            return Ok(());
        };
        self.processes[at].end(standing);
        self.gone_at(at, before.pending())?;
        self.each_gets_gone(process.serving())?;
        self.drop_all(at);
        Ok(())
    }

    // A call is pending with the next number.
    fn add_call(
        &mut self,
        target: Pid,
        trans: u32,
        args: Cells,
        waiting: Waiting,
    ) -> Result<(), Memory>
        requires { self.old.drawn < 4294967295 }
        ensures { OnOk result (self.new ≡ called self.old self.old.processes target trans args waiting) }
    {
        self.pending.push(TransactionCall {
            number: CallId(self.drawn),
            target,
            trans,
            args,
            waiting,
        })?;
        self.drawn += 1;
        Ok(())
    }

    // Whether the process was made, and neither has ended nor was stopped.
    fn is_there(&self, pid: Pid) -> bool
        ensures { result ≡ is_there self.now pid }
    {
        match self.standing(pid.0 as usize) {
            None => false,
            Some(standing) => !standing.is_over(),
        }
    }

    // The process calls, and waits for the answer where the target is there.
    fn call(
        &mut self,
        at: usize,
        target: Pid,
        trans: u32,
        args: Cells,
        waiting: Waiting,
    ) -> Result<(), Memory>
        requires within { at < length self.old.processes }
        requires few { self.old.drawn < 4294967295 }
        ensures { OnOk result (self.new ≡ (if is_there self.old target then called self.old (with_standing self.old.processes at (AtCall (record { 0 = self.old.drawn }))) target trans args waiting else record self.old { processes = grant_to self.old.processes at Gone })) }
    {
        if !self.is_there(target) {
            return self.grant_to(at, Grant::Gone);
        }
        let call = CallId(self.drawn);
        self.wait(at, ProcessStanding::AtCall { call });
        self.add_call(target, trans, args, waiting)
    }

    // The process goes on, and the call is pending where the target is there.
    fn send(&mut self, at: usize, target: Pid, trans: u32, args: Cells) -> Result<(), Memory>
        requires within { at < length self.old.processes }
        requires few { self.old.drawn < 4294967295 }
        ensures { OnOk result (self.new ≡ (if is_there self.old target then called self.old (grant_to self.old.processes at Go) target trans args Nobody else record self.old { processes = grant_to self.old.processes at Go })) }
    {
        let is_there = self.is_there(target);
        self.grant_to(at, Grant::Go)?;
        if is_there {
            self.add_call(target, trans, args, Waiting::Nobody)?;
        }
        Ok(())
    }

    // The process has made another, where there are not too many.
    fn create(
        &mut self,
        before: &PlainState,
        at: usize,
        kind: u32,
        args: Cells,
    ) -> Result<(), Memory>
        requires same { self.old ≡ before.now }
        requires within { at < length self.old.processes }
        ensures { OnOk result (self.new ≡ (if nat_lt (length before.now.processes) most_processes then record before.now { processes = grant_to before.now.processes at (Made (record { 0 = length before.now.processes })) ++ made kind args ∷ [] } else ended before.now at (Faulted TooMany))) }
    {
        let count = self.processes.len();
        if count >= MOST_PROCESSES as usize {
            let kind = FaultKind::TooMany;
            return self.end(before, at, ProcessStanding::Faulted { kind });
        }
        self.grant_to(at, Grant::Made(Pid(count as u32)))?;
        let new = PlainProcess::made(self.alloc, kind, args)?;
        self.processes.push(new)?;
        Ok(())
    }

    // The next byte of the input is taken; none exactly where none is left.
    fn take_byte(&mut self) -> Option<u8>
        ensures byte { result ≡ first_byte self.old.input }
        ensures rest { self.new ≡ record self.old { input = rest_of self.old.input } }
    {
        let byte = self.input.get(self.taken);
        if self.taken < self.input.len() {
            self.taken += 1;
        }
        byte
    }

    // The process takes the next byte of the input.
    fn get(&mut self, at: usize) -> Result<(), Memory>
        requires { at < length self.old.processes }
        ensures { OnOk result (self.new ≡ record self.old { processes = grant_to self.old.processes at (Byte (first_byte self.old.input)); input = rest_of self.old.input }) }
    {
        let byte = self.take_byte();
        self.grant_to(at, Grant::Byte(byte))
    }

    // The process goes on, and answers the innermost call that it serves, where it serves one.
    fn reply<B: Behave>(&mut self, code: &B, at: usize, value: Cells) -> Result<(), Memory>
        requires within { at < length self.old.processes }
        requires known { All (λ call. call.trans < length (B.means code.now).shapes) (process_at self.old.processes at).serving }
        ensures { OnOk result (self.new ≡ replied (B.means code.now) self.old at value) }
    {
        let Some(call) = self.processes[at].reply()? else {
            return Ok(());
        };
        let value = filled(value, code.shape(call.trans).value as usize)?;
        self.answer(&call, Grant::Value(value))
    }

    /// What the process asks is done to a copy of the state that is given.
    pub(crate) fn perform<B: Behave>(
        &mut self,
        code: &B,
        before: &PlainState,
        pid: Pid,
        request: Request,
    ) -> Result<(), Memory>
        requires same { self.old ≡ before.now }
        requires within { pid.0 < length self.old.processes }
        requires few { self.old.drawn < 4294967295 }
        requires known { All (λ call. call.trans < length (B.means code.now).shapes) (process_at self.old.processes pid.0).serving }
        ensures { OnOk result (self.new ≡ effect (B.means code.now) before.now pid request) }
    {
        let at = pid.0 as usize;
        let asked = self.moment;
        match request {
            Request::Pause => self.grant_to(at, Grant::Go),
            Request::Create { kind, args } => self.create(before, at, kind, args),
            Request::Call {
                target,
                trans,
                args,
            } => self.call(at, target, trans, args, Waiting::Caller { pid }),
            Request::TimedCall {
                target,
                trans,
                args,
                wait,
            } => {
                let deadline = deadline_after(asked, wait);
                self.call(at, target, trans, args, Waiting::Until { pid, deadline })
            }
            Request::Send {
                target,
                trans,
                args,
            } => self.send(at, target, trans, args),
            Request::Select { alts } => {
                self.wait(at, ProcessStanding::AtSelect { alts, asked });
                Ok(())
            }
            Request::Delay { wait } => {
                let deadline = deadline_after(asked, wait);
                self.wait(at, ProcessStanding::AtDelay { deadline });
                Ok(())
            }
            Request::Reply { value } => self.reply(code, at, value),
            Request::Print { bytes: _bytes } => self.grant_to(at, Grant::Go),
            Request::Get => self.get(at),
            Request::Done => self.end(before, at, ProcessStanding::Ended),
            Request::Fault { kind } => self.end(before, at, ProcessStanding::Faulted { kind }),
        }
    }

    /// The process serves the call, which it took by this alternative.
    pub(crate) fn accept(
        &mut self,
        at: usize,
        alt: u32,
        call: &TransactionCall,
    ) -> Result<(), Memory>
        requires { at < length self.old.processes }
        ensures { OnOk result (self.new ≡ accepted self.old at alt call.now) }
    {
        self.processes[at].take(alt, copy_call(call)?)?;
        keep_without(&mut self.pending, call);
        Ok(())
    }

    /// The call is removed, and its caller goes on.
    pub(crate) fn withdraw(&mut self, call: &TransactionCall) -> Result<(), Memory>
        ensures { OnOk result (self.new ≡ withdrawn self.old call.now) }
    {
        self.answer(call, Grant::Late)?;
        keep_without(&mut self.pending, call);
        Ok(())
    }

    /// It is this moment now.
    pub(crate) fn set_moment(&mut self, moment: u64)
        ensures { self.new ≡ record self.old { moment = moment } }
    {
        self.moment = moment;
    }

    /// Whether the last event was a Time.
    pub(crate) fn mark(&mut self, after_time: bool)
        ensures { self.new ≡ record self.old { after_time = after_time } }
    {
        self.after_time = after_time;
    }

    /// Whoever waits at `terminate` in the state that is given, of which this is a copy, has ended, and no call is pending.
    pub(crate) fn end_all<B: Behave>(&mut self, code: &B, before: &PlainState) -> Result<(), Memory>
        requires { self.old ≡ before.now }
        ensures { OnOk result (self.new ≡ all_ended (B.means code.now) before.now) }
    {
        self.processes = ended_processes(code, self.alloc, before)?;
        self.pending.clear();
        self.end_taken = true;
        Ok(())
    }
}

// The process, which has ended where it waited at `terminate`.
fn ended_process<B: Behave>(
    code: &B,
    alloc: Global,
    before: &PlainState,
    at: usize,
    process: &PlainProcess,
) -> Result<PlainProcess, Memory>
    ensures { IfOk result (λ q. q ≡ (if waits_at_terminate (B.means code.now) before.now at then record process.now { standing = Ended; serving = [] } else process.now)) }
{
    let mut copy = process.copy(alloc)?;
    if waits_at_terminate(code, before, at) {
        copy.end(ProcessStanding::Ended);
    }
    Ok(copy)
}

// The processes, of which those have ended that waited at `terminate`.
fn ended_processes<B: Behave>(
    code: &B,
    alloc: Global,
    before: &PlainState,
) -> Result<Vec<PlainProcess>, Memory>
    ensures { IfOk result (λ qs. qs.items ≡ (all_ended (B.means code.now) before.now).processes) }
{
    let mut processes = Vec::new(alloc);
    for (at, process) in before.processes().iter().enumerate() {
        processes.push(ended_process(code, alloc, before, at, process)?)?;
    }
    Ok(processes)
}

fn keep_others(pending: &mut Vec<TransactionCall>, target: usize)
    ensures { pending.new.items ≡ filter (λ call. not (is_for target call)) pending.old.items }
{
    pending.retain(|call| call.target.0 as usize != target);
}

fn keep_without(pending: &mut Vec<TransactionCall>, call: &TransactionCall)
    ensures { pending.new.items ≡ without_call pending.old.items call.now }
{
    pending.retain(|other| other.number.0 != call.number.0);
}

/// The cells as this many: cut, or filled with zeros.
fn filled(value: Cells, count: usize) -> Result<Cells, Memory>
    ensures { IfOk result (λ cells. cells ≡ of_cells count value) }
{
    let mut cells = value;
    for _ in 0..count {
        cells.push(0)?;
    }
    cells.cut(count);
    Ok(cells)
}
