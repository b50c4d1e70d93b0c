ghost use Rattle.std.specs.Prelude.{◌≡◌, ◌≢◌, ℕ, ◌≤◌, ◌++◌, ◌⊎◌, [], ◌∷◌, false, true, IfOk, IfNone, IfSome, OnErr, OnOk, nat_eq, nat_lt, set};
ghost use Rattle.cc_kernel.specs.Untimed.{AsksNoDeadline};
ghost use Rattle.cc_kernel.specs.Contract.{AllOut, AllStay, AsksNow, IsOutWith, IsPreparedFor, IsReadyWith, Moment, MovesOn, Nothing, OthersStay, OutsRun, SameOuts, SomeRunning, StepsOn, is_out_in, least_of};
ghost use Rattle.cc_kernel.specs.Timed.{resting_standing};
ghost use Rattle.cc_rules.specs.Standing.{IsOver, deadlines, standing_of};
ghost use Rattle.cc_rules.specs.Events.{is_legal, is_time, request_at};
ghost use Rattle.cc_rules.specs.Faulted.{faults_from};
ghost use Rattle.cc_rules.specs.Runs.{IsRun, IsSettledRun, bytes_of, printed, state_after, turns};
ghost use Rattle.cc_rules.specs.declared.event.Event.TheVariants.{Time};
ghost use Rattle.cc_rules.specs.declared.event.Standing.TheVariants.{Going, Idle};

use crate::deadlines::Deadlines;
use crate::faults::list_faults;
use crate::need::Need;
use crate::pending::Pending;
use crate::perform::{perform, roused_by};
use crate::prepare::{make_room, need_of};
use crate::seats::Seats;
use crate::served::Served;
use crate::settle::settle;
use crate::store::Store;
use cc_base::limits::MOST_PROCESSES;
use cc_base::{Behave, Bytes, Cells, Grant, Memory, Pid, Request};
use cc_rules::{Event, Faults, Journal, Standing, Word};
use std::alloc::Global;
use std::marker::Model;
use std::mem;
use std::sync::Arc;

/// A run of a program so far, and the processes that are at rest.
#[derive(Drop)]
pub struct Kernel<B: Behave> {
    alloc: Global,
    code: Arc<B>,
    turns: u32,
    spent: u32,
    journal: Journal,
    store: Store<B::Proc>,
    need: Need<B::Proc>,
    faults: Faults,
}

impl<B: Behave> Model for Kernel<B> {
    ghost use Rattle.std.specs.Prelude.{map};
    ghost use Rattle.cc_kernel.specs.Contract.{KernelView};
    ghost use Rattle.cc_kernel.specs.Invariant.{IsKept, prepared_for};
    ghost use Rattle.cc_kernel.specs.Seats.{is_out};

    ghost Value = { KernelView B };

    ghost view = { λ k. record { code = k.code.value; input = k.store.input; turns = k.turns; journal = k.journal.items; outs = map is_out k.store.seats.items; prepared = prepared_for k.need } };

    ghost invariant = { λ k. IsKept (B.means k.code.value) (B.at k.code.value) k.turns k.spent k.journal.items k.journal.spare k.store k.need k.faults };
}

impl<B: Behave> Kernel<B> {
    /// The program with no event yet. Its first process is ready.
    pub fn open(alloc: Global, code: Arc<B>, input: Bytes, turns: u32) -> Result<Kernel<B>, Memory>
        ensures code { IfOk result (λ k. k.code ≡ code.value) }
        ensures input { IfOk result (λ k. k.input ≡ input) }
        ensures turns { IfOk result (λ k. k.turns ≡ turns) }
        ensures journal { IfOk result (λ k. k.journal ≡ []) }
        ensures outs { IfOk result (λ k. k.outs ≡ false ∷ []) }
        ensures prepared { IfOk result (λ k. k.prepared ≡ Nothing) }
    {
        let process = B::start(&code, alloc, 0, Cells::new(alloc))?;
        let mut seats = Seats::new(alloc);
        seats.reserve_one()?;
        seats.add(process, Grant::Go);
        let mut faults = Faults::new(alloc);
        faults.reserve(MOST_PROCESSES as usize)?;
        Ok(Kernel {
            alloc,
            code,
            turns,
            spent: 0,
            journal: Journal::new(alloc),
            store: Store {
                seats,
                pending: Pending::new(alloc),
                served: Served::new(alloc),
                drawn: 0,
                input,
                taken: 0,
                moment: 0,
                deadlines: Deadlines::new(alloc),
                most: 0,
            },
            need: Need::Nothing,
            faults,
        })
    }

    /// Makes all that the next step needs: that of a process that asks this, or of a Time. After an error the meaning is as
    /// it was.
    pub fn prepare(&mut self, next: Option<&Request>) -> Result<(), Memory>
        requires asks { IfSome next (λ r. AsksNow (B.means self.old.code) self.old.input self.old.journal self.old.outs r.now) }
        ensures request { IfSome next.entry (λ r. OnOk result (IsPreparedFor self.new r.now)) }
        ensures time { IfNone next.entry (OnOk result (self.new.prepared ≡ Moment)) }
        ensures rest { self.new ≡ record self.old { prepared = self.new.prepared } }
        ensures err { OnErr result (self.new ≡ self.old) }
    {
        let need = need_of(&self.code, self.alloc, self.store.most, next)?;
        make_room(&mut self.store, &mut self.journal)?;
        self.need = need;
        Ok(())
    }

    /// The process asks this, and what comes of it is done. Then the machine settles: every call is taken that can be taken,
    /// immediate alternatives are where none can, and the collective end comes where it is due. Gives the bytes of a
    /// Print.
    pub fn commit(&mut self, pid: Pid, process: B::Proc, request: Request) -> Bytes
        requires prepared { IsPreparedFor self.old request }
        requires out { IsOutWith (B.means self.old.code) (B.at self.old.code) self.old.input self.old.journal self.old.outs pid.0 process }
        requires asks { request ≡ request_at (B.means self.old.code) (state_after (B.means self.old.code) self.old.input self.old.journal) pid }
        requires going { standing_of (B.means self.old.code) self.old.input self.old.journal self.old.turns ≡ Going }
        ensures code { self.new.code ≡ self.old.code }
        ensures input { self.new.input ≡ self.old.input }
        ensures turns { self.new.turns ≡ self.old.turns }
        ensures steps { StepsOn self.old.journal self.new.journal pid request }
        ensures within { turns self.new.journal ≤ self.new.turns }
        ensures runs { IsRun (B.means self.new.code) self.new.input self.new.journal }
        ensures settled { IsSettledRun (B.means self.new.code) self.new.input self.new.journal }
        ensures outs { SameOuts self.new.outs (set self.old.outs pid.0 false) }
        ensures prepared { self.new.prepared ≡ Nothing }
        ensures bytes { result ≡ bytes_of request }
        ensures printed { printed (B.means self.new.code) self.new.input self.new.journal ≡ printed (B.means self.old.code) self.old.input self.old.journal ++ bytes_of request }
        ensures others { OthersStay (B.means self.new.code) self.new.input self.old.journal self.new.journal self.old.outs pid }
    {
        let roused = roused_by(pid, &request);
        let word = Word::of(&request);
        let need = mem::replace(&mut self.need, Need::Nothing);
        let bytes = perform(
            &*self.code,
            self.alloc,
            &mut self.store,
            pid,
            process,
            request,
            need,
        );
        self.journal.add(Event::Ask { pid, word });
        self.spent += 1;
        settle(
            &*self.code,
            self.alloc,
            &mut self.store,
            &mut self.journal,
            roused,
        );
        bytes
    }

    /// Takes a process out that is ready, with the grant that it is still to be given. None exactly where each process that
    /// is running is out, or the run goes no further.
    pub fn pick(&mut self) -> Option<(Pid, B::Proc, Grant)>
        ensures none { IfNone result (AllOut (B.means self.old.code) self.old.input self.old.journal self.old.outs ⊎ IsOver (standing_of (B.means self.old.code) self.old.input self.old.journal self.old.turns)) }
        ensures same { IfNone result (self.new ≡ self.old) }
        ensures going { IfSome result (λ r. standing_of (B.means self.old.code) self.old.input self.old.journal self.old.turns ≡ Going) }
        ensures ready { IfSome result (λ r. IsReadyWith (B.means self.old.code) (B.at self.old.code) self.old.input self.old.journal r.0.0 r.1 r.2) }
        ensures was_in { IfSome result (λ r. is_out_in self.old.outs r.0.0 ≡ false) }
        ensures out { IfSome result (λ r. self.new ≡ record self.old { outs = set self.old.outs r.0.0 true }) }
        ensures is_out { IfSome result (λ r. is_out_in self.new.outs r.0.0 ≡ true) }
    {
        if self.spent == self.turns {
            return None;
        }
        let Some((at, process, grant)) = self.store.seats.take_first() else {
            return None;
        };
        Some((Pid(at as u32), process, grant))
    }

    /// It is this moment, in milliseconds, and whoever has waited until it goes on.
    pub fn at_moment(&mut self, moment: u64)
        requires prepared { self.old.prepared ≡ Moment }
        requires legal { is_legal (B.means self.old.code) (state_after (B.means self.old.code) self.old.input self.old.journal) (Time moment) ≡ true }
        requires left { IsOver (standing_of (B.means self.old.code) self.old.input self.old.journal self.old.turns) → ⊥ }
        ensures code { self.new.code ≡ self.old.code }
        ensures input { self.new.input ≡ self.old.input }
        ensures turns { self.new.turns ≡ self.old.turns }
        ensures steps { MovesOn self.old.journal self.new.journal moment }
        ensures within { turns self.new.journal ≤ self.new.turns }
        ensures runs { IsRun (B.means self.new.code) self.new.input self.new.journal }
        ensures settled { IsSettledRun (B.means self.new.code) self.new.input self.new.journal }
        ensures outs { self.new.outs ≡ self.old.outs }
        ensures prepared { self.new.prepared ≡ Nothing }
        ensures printed { printed (B.means self.new.code) self.new.input self.new.journal ≡ printed (B.means self.old.code) self.old.input self.old.journal }
        ensures others { AllStay (B.means self.new.code) self.new.input self.old.journal self.new.journal self.old.outs }
    {
        self.need = Need::Nothing;
        self.store.moment = moment;
        self.journal.add(Event::Time { moment });
        self.spent += 1;
        settle(
            &*self.code,
            self.alloc,
            &mut self.store,
            &mut self.journal,
            None,
        );
    }

    /// The moment, in milliseconds.
    pub fn moment(&self) -> u64
        ensures moment { result ≡ (state_after (B.means self.now.code) self.now.input self.now.journal).moment }
    {
        self.store.moment
    }

    /// The least deadline that stands, in milliseconds; none exactly where none stands.
    pub fn earliest(&self) -> Option<u64>
        ensures earliest { result ≡ least_of (deadlines (state_after (B.means self.now.code) self.now.input self.now.journal)) }
    {
        self.store.deadlines.earliest()
    }

    /// Whether it may be this moment, in milliseconds, by a Time: it is not past, and later than now where a process is running and the
    /// last event was no Time, or a deadline stands where none is running.
    pub fn time_allowed(&self, moment: u64) -> bool
        ensures allowed { result ≡ is_legal (B.means self.now.code) (state_after (B.means self.now.code) self.now.input self.now.journal) (Time moment) }
    {
        if moment < self.store.moment {
            return false;
        }
        if self.store.seats.all_over() {
            return false;
        }
        if !self.store.seats.some_running() {
            return self.store.deadlines.earliest().is_some();
        }
        if moment == self.store.moment {
            return false;
        }
        !self.is_after_time()
    }

    // Whether the last event was a Time.
    fn is_after_time(&self) -> bool
        ensures { result ≡ (state_after (B.means self.now.code) self.now.input self.now.journal).after_time }
    {
        let count = self.journal.len();
        if count == 0 {
            return false;
        }
        match self.journal.get(count - 1) {
            Some(event) => is_time(event),
            None => false,
        }
    }

    /// How the run stands, which is a settled one of at most the allowed turns. It is idle only where a request may have a
    /// deadline.
    pub fn state(&self) -> Standing
        ensures standing { result ≡ standing_of (B.means self.now.code) self.now.input self.now.journal self.now.turns }
        ensures going { result ≡ Going → SomeRunning (B.means self.now.code) self.now.input self.now.journal }
        ensures untimed { AsksNoDeadline (B.means self.now.code) → (until : ℕ) → result ≢ Idle until }
        ensures within { turns self.now.journal ≤ self.now.turns }
        ensures runs { IsRun (B.means self.now.code) self.now.input self.now.journal }
        ensures settled { IsSettledRun (B.means self.now.code) self.now.input self.now.journal }
    {
        if self.store.seats.all_over() {
            return Standing::Ended {
                faulted: self.store.seats.some_faulted(),
            };
        }
        if !self.store.seats.some_running() {
            return self.at_rest();
        }
        if self.spent == self.turns {
            return Standing::Spent;
        }
        Standing::Going
    }

    // How the run stands, where no process is running and not all are over.
    fn at_rest(&self) -> Standing
        ensures { result ≡ resting_standing (nat_eq (turns self.now.journal) self.now.turns) (least_of (deadlines (state_after (B.means self.now.code) self.now.input self.now.journal))) }
    {
        let Some(until) = self.store.deadlines.earliest() else {
            return Standing::Stuck;
        };
        if self.spent == self.turns {
            return Standing::Spent;
        }
        Standing::Idle { until }
    }

    /// Whether a turn is left.
    pub fn has_turn(&self) -> bool
        ensures left { result ≡ nat_lt (turns self.now.journal) self.now.turns }
    {
        self.spent < self.turns
    }

    /// The events so far: a settled run of at most the allowed turns, in which each process that is out is running.
    pub fn journal(&self) -> &Journal
        ensures items { result.now.items ≡ self.now.journal }
        ensures within { turns self.now.journal ≤ self.now.turns }
        ensures runs { IsRun (B.means self.now.code) self.now.input self.now.journal }
        ensures settled { IsSettledRun (B.means self.now.code) self.now.input self.now.journal }
        ensures outs { OutsRun (B.means self.now.code) self.now.input self.now.journal self.now.outs }
    {
        &self.journal
    }

    /// The journal, and the processes that were stopped by a fault with their faults, by number.
    pub fn into_journal(self) -> (Journal, Faults)
        ensures journal { result.0.items ≡ self.journal }
        ensures within { turns result.0.items ≤ self.turns }
        ensures runs { IsRun (B.means self.code) self.input self.journal }
        ensures settled { IsSettledRun (B.means self.code) self.input self.journal }
        ensures faults { result.1.items ≡ faults_from 0 (state_after (B.means self.code) self.input self.journal).processes }
    {
        let mut faults = self.faults;
        list_faults(&self.store.seats, &mut faults);
        (self.journal, faults)
    }
}

fn is_time(event: &Event) -> bool
    ensures { result ≡ is_time event.now }
{
    matches!(event, Event::Time { .. })
}
