ghost use Rattle.std.specs.Prelude.{◌≡◌, [], ◌∷◌, ◌++◌, ◌+◌, ◌<◌, ◌≤◌, length, map, set, ℕ, true, false, OnOk, OnErr, MatchOption, not, if◌then◌else◌};
ghost use Rattle.std.specs.List.{enumerate_from, filter, list_all, list_any};
ghost use Rattle.cc_rules.specs.Effects.{waits_for};
ghost use Rattle.cc_rules.specs.State.{is_faulted, is_over, is_running};
ghost use Rattle.cc_kernel.specs.Seats.{answered_seats, is_ready, seat_at, with_left, with_out, with_ready, with_waiting, woken};
ghost use Rattle.cc_base.specs.Limits.{most_processes};
ghost use Rattle.std.specs.VecDeque.{deque_capacity};
ghost use Rattle.cc_kernel.specs.Counted.{Agrees, IsWaiting, all_may_end, ended_seat, may_terminate};
ghost use Rattle.cc_kernel.specs.declared.seat.Whereabouts.TheVariants.{Ready};
ghost use Rattle.cc_kernel.specs.Due.{due_of};
ghost use Rattle.cc_kernel.specs.Timed.{deadline_of};
ghost use Rattle.cc_rules.specs.Events.{expiry_grant};
ghost use Rattle.cc_rules.specs.declared.process.ProcessStanding.TheVariants.{Ended};

use crate::counts::{Counts, may_terminate};
use crate::due::{Due, due_of, expiry_grant};
use crate::seat::{Seat, Whereabouts};
use crate::served::ServedCall;
use cc_base::{CallId, Grant, Memory, Pid};
use cc_rules::ProcessStanding;
use std::alloc::Global;
use std::collections::VecDeque;
use std::marker::Model;
use std::mem;

/// The seats of the processes, by number, with room for more. Beside them stand how many processes stand how, and the list of
/// those that are ready, in the order in which they became so.
#[derive(Drop)]
pub struct Seats<P> {
    items: Vec<Seat<P>>,
    counts: Counts,
    ready: VecDeque<usize>,
    spare: usize,
}

impl<P> Model for Seats<P> {
    ghost use Rattle.std.specs.Prelude.{vec_capacity};
    ghost use Rattle.std.specs.VecDeque.{deque_capacity};
    ghost use Rattle.cc_kernel.specs.Counted.{AreKept};
    ghost use Rattle.cc_kernel.specs.Lists.{SeatList};

    ghost Value = { SeatList P };

    ghost view = { λ c. record { items = c.items.items; spare = c.spare } };

    ghost invariant = { λ c. AreKept c.items.items c.counts c.ready.items c.spare (vec_capacity c.items) (deque_capacity c.ready) };
}

impl<P: Drop> Seats<P> {
    pub(crate) fn new(alloc: Global) -> Seats<P>
        ensures { result.items ≡ [] }
    {
        Seats {
            items: Vec::new(alloc),
            counts: Counts::new(),
            ready: VecDeque::new(alloc),
            spare: 0,
        }
    }

    pub(crate) fn len(&self) -> usize
        ensures { result ≡ length self.now.items }
    {
        self.items.len()
    }

    /// Makes room for one more. After an error nothing has changed.
    pub(crate) fn reserve_one(&mut self) -> Result<(), Memory>
        ensures items { self.new.items ≡ self.old.items }
        ensures ok { OnOk result (0 < self.new.spare) }
        ensures err { OnErr result (self.new ≡ self.old) }
    {
        if self.spare > 0 {
            return Ok(());
        }
        let wanted = self.items.len() + 1;
        self.items.reserve(1)?;
        self.ready.reserve(wanted - self.ready.len())?;
        self.spare = 1;
        Ok(())
    }

    /// Puts a process at the end, in the room that was made before. It is still to be given this grant.
    pub(crate) fn add(&mut self, process: P, grant: Grant)
        requires room { 0 < self.old.spare }
        requires few { length self.old.items < most_processes }
        ensures { self.new.items ≡ self.old.items ++ with_ready process grant ∷ [] }
    {
        self.counts.running += 1;
        self.ready.push_back_reserved(self.items.len());
        self.items.push_reserved(Seat {
            standing: ProcessStanding::Running,
            whereabouts: Whereabouts::Ready { process, grant },
        });
        self.spare -= 1;
    }

    // Puts a seat in place of one whose process is not ready.
    fn put(&mut self, at: usize, seat: Seat<P>)
        requires within { at < length self.old.items }
        requires idle { is_ready (seat_at self.old.items at) ≡ false }
        requires agrees { Agrees seat.standing seat.whereabouts }
        ensures items { self.new.items ≡ set self.old.items at seat }
        ensures spare { self.new.spare ≡ self.old.spare }
    {
        self.counts.change(&self.items[at].standing, &seat.standing);
        list_where_ready(&mut self.ready, at, &seat);
        self.items[at] = seat;
    }

    pub(crate) fn standing(&self, at: usize) -> Option<&ProcessStanding>
        ensures { MatchOption result (length self.now.items ≤ at) (λ standing. (at < length self.now.items) × (standing.now ≡ (seat_at self.now.items at).standing)) }
    {
        if at >= self.items.len() {
            return None;
        }
        let seat = &self.items[at];
        Some(&seat.standing)
    }

    /// The process is here, and is still to be given this grant.
    pub(crate) fn put_ready(&mut self, at: usize, process: P, grant: Grant)
        requires within { at < length self.old.items }
        requires idle { is_ready (seat_at self.old.items at) ≡ false }
        ensures items { self.new.items ≡ set self.old.items at (with_ready process grant) }
        ensures spare { self.new.spare ≡ self.old.spare }
    {
        let standing = ProcessStanding::Running;
        let whereabouts = Whereabouts::Ready { process, grant };
        self.put(
            at,
            Seat {
                standing,
                whereabouts,
            },
        );
    }

    /// The process is here, and waits.
    pub(crate) fn put_waiting(&mut self, at: usize, process: P, standing: ProcessStanding)
        requires within { at < length self.old.items }
        requires idle { is_ready (seat_at self.old.items at) ≡ false }
        requires waits { IsWaiting standing }
        ensures { self.new.items ≡ set self.old.items at (with_waiting process standing) }
    {
        let whereabouts = Whereabouts::Waits { process };
        self.put(
            at,
            Seat {
                standing,
                whereabouts,
            },
        );
    }

    /// The process is over.
    pub(crate) fn put_left(&mut self, at: usize, standing: ProcessStanding)
        requires within { at < length self.old.items }
        requires idle { is_ready (seat_at self.old.items at) ≡ false }
        requires over { is_over standing ≡ true }
        ensures { self.new.items ≡ set self.old.items at (with_left standing) }
    {
        let whereabouts = Whereabouts::Left;
        self.put(
            at,
            Seat {
                standing,
                whereabouts,
            },
        );
    }

    /// The process, which waits, has ended.
    pub(crate) fn end(&mut self, at: usize)
        requires within { at < length self.old.items }
        requires waits { IsWaiting (seat_at self.old.items at).standing }
        ensures { self.new.items ≡ set self.old.items at (with_left Ended) }
    {
        self.counts
            .change(&self.items[at].standing, &ProcessStanding::Ended);
        self.items[at] = Seat {
            standing: ProcessStanding::Ended,
            whereabouts: Whereabouts::Left,
        };
    }

    /// Takes the process out that has been ready for longest. None exactly where none is ready.
    pub(crate) fn take_first(&mut self) -> Option<(usize, P, Grant)>
        ensures whereabouts { MatchOption result ((self.new ≡ self.old) × ((i : ℕ) → is_ready (seat_at self.old.items i) ≡ false)) (λ r. (r.0 < length self.old.items) × ((seat_at self.old.items r.0).whereabouts ≡ Ready r.1 r.2) × (self.new.items ≡ set self.old.items r.0 (with_out (seat_at self.old.items r.0)))) }
        ensures spare { self.new.spare ≡ self.old.spare }
    {
        let Some(at) = self.ready.pop_front() else {
            return None;
        };
        let seat = &mut self.items[at];
        match mem::replace(&mut seat.whereabouts, Whereabouts::Out) {
            Whereabouts::Ready { process, grant } => Some((at, process, grant)),
            _other => unreachable!(),
        }
    }

    /// The process, which waits, goes on with this grant.
    pub(crate) fn wake(&mut self, at: usize, grant: Grant)
        requires within { at < length self.old.items }
        requires waits { IsWaiting (seat_at self.old.items at).standing }
        ensures { self.new.items ≡ set self.old.items at (woken (seat_at self.old.items at) grant) }
    {
        self.counts
            .change(&self.items[at].standing, &ProcessStanding::Running);
        self.ready.push_back_reserved(at);
        go_on(&mut self.items[at], grant);
    }

    // Whether the process waits for the call of this number.
    fn waits_for(&self, at: usize, number: CallId) -> bool
        ensures { result ≡ waits_for number.0 (seat_at self.now.items at).standing }
    {
        match self.standing(at) {
            Some(ProcessStanding::AtCall { call }) => call.0 == number.0,
            _ => false,
        }
    }

    /// The caller of the call, where one waits, goes on with the grant.
    pub(crate) fn answer(&mut self, call: ServedCall, grant: Grant)
        ensures { self.new.items ≡ answered_seats self.old.items call grant }
    {
        let Some(caller) = call.waiting.caller() else {
            return;
        };
        let at = caller.0 as usize;
        if self.waits_for(at, call.number) && at < self.items.len() {
            self.wake(at, grant);
        }
    }

    /// Whether the process was made, and neither has ended nor was stopped.
    pub(crate) fn is_there(&self, pid: Pid) -> bool
        ensures { result ≡ not (is_over (seat_at self.now.items pid.0).standing) }
    {
        match self.standing(pid.0 as usize) {
            None => false,
            Some(standing) => !standing.is_over(),
        }
    }

    /// When the process expires, and by which number; none exactly where it waits for no moment.
    pub(crate) fn due(&self, at: usize) -> Option<Due>
        ensures { result ≡ due_of (seat_at self.now.items at).standing }
    {
        due_of(self.standing(at)?)
    }

    /// The deadline of the process; none exactly where it waits for no moment.
    pub(crate) fn deadline(&self, at: usize) -> Option<u64>
        ensures { result ≡ deadline_of (seat_at self.now.items at).standing }
    {
        let due = self.due(at)?;
        Some(due.deadline)
    }

    /// What the process is granted as it expires by this number.
    pub(crate) fn expiry_grant(&self, at: usize, alt: u32) -> Grant
        ensures { result ≡ expiry_grant alt (seat_at self.now.items at).standing }
    {
        match self.standing(at) {
            None => Grant::Chose { alt },
            Some(standing) => expiry_grant(alt, standing),
        }
    }

    /// Whether the process waits for an alternative where `terminate` is one.
    pub(crate) fn may_terminate(&self, at: usize) -> bool
        ensures { result ≡ may_terminate (seat_at self.now.items at).standing }
    {
        match self.standing(at) {
            None => false,
            Some(standing) => may_terminate(standing),
        }
    }

    /// The process of this number, where it has `terminate` among its alternatives.
    pub(crate) fn terminating(&self, at: usize) -> Option<Pid>
        ensures { MatchOption result (may_terminate (seat_at self.now.items at).standing ≡ false) (λ pid. (pid.0 ≡ at) × (may_terminate (seat_at self.now.items at).standing ≡ true)) }
    {
        if at < self.items.len() && self.may_terminate(at) {
            return Some(Pid(at as u32));
        }
        None
    }

    /// Whether each process is over or has `terminate` among its alternatives, and one has.
    pub(crate) fn all_may_end(&self) -> bool
        ensures { result ≡ all_may_end self.now.items }
    {
        let all = self.counts.over + self.counts.terminating == self.items.len();
        all && self.counts.terminating > 0
    }

    /// Each process that has `terminate` among its alternatives has ended.
    pub(crate) fn end_terminating(&mut self)
        ensures { self.new.items ≡ map ended_seat (enumerate_from 0 self.old.items) }
    {
        for at in 0..self.len() {
            self.end_where_terminating(at);
        }
    }

    // The process has ended, where it has `terminate` among its alternatives.
    fn end_where_terminating(&mut self, at: usize)
        requires { at < length self.old.items }
        ensures { self.new.items ≡ (if may_terminate (seat_at self.old.items at).standing then set self.old.items at (with_left Ended) else self.old.items) }
    {
        if self.may_terminate(at) {
            self.end(at);
        }
    }

    /// Whether every process is over.
    pub(crate) fn all_over(&self) -> bool
        ensures { result ≡ list_all (λ seat. is_over seat.standing) self.now.items }
    {
        self.counts.over == self.items.len()
    }

    /// Whether some process is running.
    pub(crate) fn some_running(&self) -> bool
        ensures { result ≡ list_any (λ seat. is_running seat.standing) self.now.items }
    {
        self.counts.running > 0
    }

    /// Whether some process was stopped by a fault.
    pub(crate) fn some_faulted(&self) -> bool
        ensures { result ≡ list_any (λ seat. is_faulted seat.standing) self.now.items }
    {
        self.counts.faulted > 0
    }
}

// Puts the process at the end of those that are ready, where it is ready.
fn list_where_ready<P>(ready: &mut VecDeque<usize>, at: usize, seat: &Seat<P>)
    requires { length ready.old.items < deque_capacity ready.old }
    ensures items { ready.new.items ≡ (if is_ready seat.now then ready.old.items ++ at ∷ [] else ready.old.items) }
    ensures capacity { deque_capacity ready.new ≡ deque_capacity ready.old }
{
    if let Whereabouts::Ready { .. } = &seat.whereabouts {
        ready.push_back_reserved(at);
    }
}

// The process, which waits, goes on with this grant.
fn go_on<P: Drop>(seat: &mut Seat<P>, grant: Grant)
    ensures { seat.new ≡ woken seat.old grant }
{
    seat.standing = ProcessStanding::Running;
    match mem::replace(&mut seat.whereabouts, Whereabouts::Out) {
        Whereabouts::Waits { process } => {
            seat.whereabouts = Whereabouts::Ready { process, grant };
        }
        other => {
            seat.whereabouts = other;
        }
    }
}
