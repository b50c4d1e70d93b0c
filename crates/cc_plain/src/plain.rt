ghost use Rattle.std.specs.Prelude.{◌≡◌, ◌<◌, ◌++◌, ◌∷◌, ◌&&◌, [], Err, IfErr, IfOk, IsErrOf, OnOk, false, if◌then◌else◌, length, not, true};
ghost use Rattle.std.specs.Option.{option_map};
ghost use Rattle.cc_rules.specs.Choice.{call_numbered};
ghost use Rattle.cc_rules.specs.Events.{is_legal, next};
ghost use Rattle.cc_rules.specs.Runs.{IsRun, event_bytes, printed, state_after};
ghost use Rattle.cc_rules.specs.Standing.{deadlines, least, standing_of};
ghost use Rattle.cc_rules.specs.declared.event.Standing.TheVariants.{Going, Idle};
ghost use Rattle.cc_rules.specs.Ends.{has_deadline, has_running};
ghost use Rattle.cc_rules.specs.declared.process.TransactionCall.{TransactionCall};

use crate::deadlines::earliest;
use crate::ends::{has_deadline, is_stuck};
use crate::events::{Taken, take, turns_of};
use crate::state::PlainState;
use cc_base::{Behave, Bytes, CallId, Memory, Pid};
use cc_rules::{Event, Journal, Standing};
use std::alloc::Global;
use std::marker::Model;
use std::sync::Arc;

/// Why an event was not taken.
#[derive(Clone, Copy, Debug, Drop, PartialEq, Eq)]
pub enum StepError {
    /// The machine doesn't allow the event where it stands.
    Illegal,
    /// Out of memory: the stepper has stopped.
    Memory,
}

/// The machine on a program and an input, after the events that it took.
#[derive(Drop)]
pub struct Plain<B: Behave> {
    code: Arc<B>,
    input: Arc<Bytes>,
    events: Journal,
    turns: u32,
    state: PlainState,
    printed: Bytes,
    stopped: bool,
}

impl<B: Behave> Model for Plain<B> {
    ghost use Rattle.std.specs.Prelude.{◌≡◌};
    ghost use Rattle.cc_plain.specs.View.{IsAfter, PlainView};

    ghost Value = { PlainView B };

    ghost view = { λ p. record { code = p.code.value; input = p.input.value; events = p.events.items; stopped = p.stopped } };

    ghost invariant = { λ p. IsAfter (B.means p.code.value) p.input.value p.events.items p.turns p.state p.printed };
}

impl<B: Behave> Plain<B> {
    /// The machine with no event yet: `main` alone, which may begin.
    pub fn open(alloc: Global, code: Arc<B>, input: Bytes) -> Result<Plain<B>, Memory>
        ensures code { IfOk result (λ p. p.code ≡ code.value) }
        ensures input { IfOk result (λ p. p.input ≡ input) }
        ensures events { IfOk result (λ p. p.events ≡ []) }
        ensures goes { IfOk result (λ p. p.stopped ≡ false) }
    {
        let input = Arc::new(alloc, input)?;
        let state = PlainState::first(alloc, Arc::try_clone(&input)?)?;
        Ok(Plain {
            code,
            input,
            events: Journal::new(alloc),
            turns: 0,
            state,
            printed: Bytes::new(alloc),
            stopped: false,
        })
    }

    /// Takes the event, where the machine allows it. After Illegal nothing has changed. After Memory the events are as they
    /// were, and every later answer is Memory.
    pub fn step(&mut self, event: &Event) -> Result<(), StepError>
        requires few { length self.old.events < 4294967295 }
        ensures legal { OnOk result (is_legal (B.means self.old.code) (state_after (B.means self.old.code) self.old.input self.old.events) event.now ≡ true) }
        ensures taken { OnOk result (self.new ≡ record self.old { events = self.old.events ++ event.now ∷ [] }) }
        ensures illegal { IsErrOf result StepError.Illegal → is_legal (B.means self.old.code) (state_after (B.means self.old.code) self.old.input self.old.events) event.now ≡ false }
        ensures same { IsErrOf result StepError.Illegal → self.new ≡ self.old }
        ensures memory { IsErrOf result StepError.Memory → self.new ≡ record self.old { stopped = true } }
        ensures stopped { self.old.stopped ≡ true → result ≡ Err StepError.Memory }
    {
        if self.stopped {
            return Err(StepError::Memory);
        }
        match take(&self.code, &self.state, event) {
            Ok(Some(taken)) => self.go_on(event, taken),
            Ok(None) => Err(StepError::Illegal),
            Err(Memory) => Err(self.stop()),
        }
    }

    // The event was taken, which leaves this.
    fn go_on(&mut self, event: &Event, taken: Taken) -> Result<(), StepError>
        requires few { length self.old.events < 4294967295 }
        requires legal { is_legal (B.means self.old.code) (state_after (B.means self.old.code) self.old.input self.old.events) event.now ≡ true }
        requires state { taken.state ≡ next (B.means self.old.code) (state_after (B.means self.old.code) self.old.input self.old.events) event.now }
        requires bytes { taken.bytes ≡ event_bytes (B.means self.old.code) (state_after (B.means self.old.code) self.old.input self.old.events) event.now }
        ensures taken { OnOk result (self.new ≡ record self.old { events = self.old.events ++ event.now ∷ [] }) }
        ensures memory { IfErr result (λ e. (e ≡ StepError.Memory) × (self.new ≡ record self.old { stopped = true })) }
    {
        let Ok(()) = self.events.reserve(1) else {
            return Err(self.stop());
        };
        let Ok(()) = self.printed.append(taken.bytes.as_slice()) else {
            return Err(self.stop());
        };
        self.events.add(*event);
        self.turns += turns_of(event);
        self.state = taken.state;
        Ok(())
    }

    // Memory was out.
    fn stop(&mut self) -> StepError
        ensures error { result ≡ StepError.Memory }
        ensures stopped { self.new ≡ record self.old { stopped = true } }
    {
        self.stopped = true;
        StepError::Memory
    }

    /// Whether it was out of memory, so that every answer is Memory.
    pub fn has_stopped(&self) -> bool
        ensures stopped { result ≡ self.now.stopped }
    {
        self.stopped
    }

    /// The events that it took: a run of the machine.
    pub fn events(&self) -> &Journal
        ensures items { result.now.items ≡ self.now.events }
        ensures runs { IsRun (B.means self.now.code) self.now.input self.now.events }
    {
        &self.events
    }

    /// The bytes that the run printed.
    pub fn printed(&self) -> &Bytes
        ensures bytes { result.now ≡ printed (B.means self.now.code) self.now.input self.now.events }
    {
        &self.printed
    }

    /// How the run stands, of which so many turns are allowed.
    pub fn standing(&self, turns: u32) -> Standing
        ensures standing { result ≡ standing_of (B.means self.now.code) self.now.input self.now.events turns }
    {
        if self.state.is_complete() {
            return Standing::Ended {
                faulted: self.state.has_faulted(),
            };
        }
        if is_stuck(&*self.code, &self.state) {
            return Standing::Stuck;
        }
        if self.turns == turns {
            return Standing::Spent;
        }
        idle_or_going(&self.state)
    }

    /// How many call numbers were drawn so far.
    pub fn drawn(&self) -> u32
        ensures drawn { result ≡ (state_after (B.means self.now.code) self.now.input self.now.events).drawn }
    {
        self.state.drawn()
    }

    /// The target and the transaction of a pending call; none exactly where no call of this number is pending.
    pub fn pending(&self, call: CallId) -> Option<(Pid, u32)>
        ensures call { result ≡ option_map (λ (c : TransactionCall). (c.target, c.trans)) (call_numbered (state_after (B.means self.now.code) self.now.input self.now.events).pending call.0) }
    {
        match self.state.call_numbered(call) {
            Some(found) => Some((found.target, found.trans)),
            None => None,
        }
    }
}

// How a state stands that goes on and has turns left.
fn idle_or_going(state: &PlainState) -> Standing
    ensures { result ≡ (if not (has_running state.now) && has_deadline state.now then Idle (least (deadlines state.now)) else Going) }
{
    if state.has_running() || !has_deadline(state) {
        return Standing::Going;
    }
    match earliest(state) {
        Some(until) => Standing::Idle { until },
        None => Standing::Going,
    }
}
