//! The machine settles: whoever was roused takes a call, or an immediate alternative where no call is eligible. Then the collective
//! end comes where it is due, and otherwise whoever has waited until its deadline goes on.
ghost use Rattle.std.specs.Prelude.{◌≡◌, ◌+◌, ◌<◌, ◌≤◌, ℕ, false, true, IfNone, IfSome, MatchOption, Some, All, length, map};
ghost use Rattle.cc_kernel.specs.Counted.{IsWaiting, all_may_end};
ghost use Rattle.cc_kernel.specs.Resting.{AllRest, RestBut, RestsAt};
ghost use Rattle.cc_kernel.specs.Seats.{is_out, seat_at};
ghost use Rattle.cc_kernel.specs.Stacks.{AreWithin, served_by};
ghost use Rattle.cc_kernel.specs.Settles.{GoesOn, Settles, TakesOne};
ghost use Rattle.cc_kernel.specs.Due.{due_of};
ghost use Rattle.cc_kernel.specs.Store.{IsState, accepted_contents, contents, ended_contents, expired_contents, withdrawn_contents, woken_contents};
ghost use Rattle.cc_kernel.specs.Timed.{AreDeadlines, DeadlineStands, call_due, stands_in};
ghost use Rattle.cc_kernel.specs.declared.due.Due.{Due};
ghost use Rattle.cc_rules.specs.Choice.{call_numbered};
ghost use Rattle.cc_rules.specs.State.{State};
ghost use Rattle.cc_rules.specs.declared.process.TransactionCall.{TransactionCall};
ghost use Rattle.cc_timer.specs.declared.who.Who.TheVariants as who;

use crate::asks::take_call;
use crate::choice::{Taking, what_it_takes};
use crate::deadlines::Deadlines;
use crate::pending::Pending;
use crate::served::served_call;
use crate::store::Store;
use cc_base::{Behave, CallId, Grant, Pid};
use cc_rules::{Event, Journal};
use cc_timer::Who;
use std::alloc::Global;

// The process, which waits, goes on with this grant, and waits for no deadline any more.
fn wake<P: Drop>(store: &mut Store<P>, pid: Pid, grant: Grant)
    requires within { pid.0 < length store.old.seats.items }
    requires waits { IsWaiting (seat_at store.old.seats.items pid.0).standing }
    requires stands { DeadlineStands store.old.seats.items store.old.deadlines.pairs pid }
    ensures contents { contents store.new ≡ woken_contents (contents store.old) pid grant }
    ensures served { store.new.served ≡ store.old.served }
    ensures most { store.new.most ≡ store.old.most }
{
    let deadline = store.seats.deadline(pid.0 as usize);
    store.deadlines.remove_some(deadline, Who::Process(pid));
    store.seats.wake(pid.0 as usize, grant);
}

// The process takes the pending call of this number by its alternative.
fn accept<B: Behave>(code: &B, store: &mut Store<B::Proc>, pid: Pid, alt: u32, number: CallId)
    requires call { (call : TransactionCall) × (call_numbered store.old.pending.items number.0 ≡ Some call) }
    requires within { pid.0 < length store.old.seats.items }
    requires waits { IsWaiting (seat_at store.old.seats.items pid.0).standing }
    requires timed { AreDeadlines store.old.seats.items store.old.pending.items store.old.deadlines.pairs }
    requires room { 0 < store.old.served.spare }
    requires known { All (λ call. call.trans < length (B.means code.now).shapes) store.old.pending.items }
    ensures contents { (call : TransactionCall) → call_numbered store.old.pending.items number.0 ≡ Some call → contents store.new ≡ accepted_contents (contents store.old) pid alt call }
    ensures input { store.new.input ≡ store.old.input }
    ensures drawn { store.new.drawn ≡ store.old.drawn }
    ensures cells { AreWithin (B.means code.now) store.old.most (served_by store.old.served) → AreWithin (B.means code.now) store.new.most (served_by store.new.served) }
{
    let call = take_call(&mut store.pending, &mut store.deadlines, number);
    let served = served_call(&call);
    let args = call.args;
    wake(store, pid, Grant::Took { alt, args });
    store.served.add(pid, served);
    store.most = store.most.max(code.shape(served.trans).value as usize);
}

// The process takes a call, or an immediate alternative where no call is eligible; none exactly where it can take nothing.
fn take_one<B: Behave>(code: &B, store: &mut Store<B::Proc>, pid: Pid) -> Option<Event>
    requires state { (s : State) × IsState (B.at code.now) s (contents store.old) }
    requires room { 0 < store.old.served.spare }
    requires known { All (λ call. call.trans < length (B.means code.now).shapes) store.old.pending.items }
    ensures none { IfNone result (RestsAt (B.means code.now) (contents store.old) pid.0) }
    ensures same { IfNone result (store.new ≡ store.old) }
    ensures takes { IfSome result (λ e. (s : State) → IsState (B.at code.now) s (contents store.old) → TakesOne (B.means code.now) (B.at code.now) s e (contents store.new)) }
    ensures rest { IfSome result (λ e. RestBut (B.means code.now) (contents store.old) (Some pid) → AllRest (B.means code.now) (contents store.new)) }
    ensures outs { map is_out store.new.seats.items ≡ map is_out store.old.seats.items }
    ensures input { store.new.input ≡ store.old.input }
    ensures drawn { store.new.drawn ≡ store.old.drawn }
    ensures deadlines { length store.new.deadlines.pairs ≤ length store.old.deadlines.pairs }
    ensures cells { AreWithin (B.means code.now) store.old.most (served_by store.old.served) → AreWithin (B.means code.now) store.new.most (served_by store.new.served) }
{
    match what_it_takes(code, &store.seats, &store.pending, pid) {
        None => None,
        Some(Taking::Call { alt, number }) => {
            accept(code, store, pid, alt, number);
            Some(Event::Accept {
                pid,
                alt,
                call: number,
            })
        }
        Some(Taking::AtOnce { alt }) => {
            wake(store, pid, Grant::Chose { alt });
            Some(Event::Instant { pid, alt })
        }
    }
}

// Who was roused takes what he can, and the journal says so.
fn take_roused<B: Behave>(
    code: &B,
    store: &mut Store<B::Proc>,
    journal: &mut Journal,
    roused: Option<Pid>,
)
    requires state { (s : State) × IsState (B.at code.now) s (contents store.old) }
    requires events { 0 < journal.old.spare }
    requires room { 0 < store.old.served.spare }
    requires known { All (λ call. call.trans < length (B.means code.now).shapes) store.old.pending.items }
    requires rest { RestBut (B.means code.now) (contents store.old) roused }
    ensures goes_on { (s : State) → IsState (B.at code.now) s (contents store.old) → GoesOn (B.means code.now) (B.at code.now) s journal.old.items journal.new.items (contents store.new) }
    ensures rest { AllRest (B.means code.now) (contents store.new) }
    ensures spare { journal.old.spare ≤ journal.new.spare + 1 }
    ensures outs { map is_out store.new.seats.items ≡ map is_out store.old.seats.items }
    ensures input { store.new.input ≡ store.old.input }
    ensures drawn { store.new.drawn ≡ store.old.drawn }
    ensures deadlines { length store.new.deadlines.pairs ≤ length store.old.deadlines.pairs }
    ensures cells { AreWithin (B.means code.now) store.old.most (served_by store.old.served) → AreWithin (B.means code.now) store.new.most (served_by store.new.served) }
{
    let Some(pid) = roused else {
        return;
    };
    let Some(event) = take_one(code, store, pid) else {
        return;
    };
    journal.add(event);
}

// The collective end comes.
fn end_all<B: Behave>(code: &B, alloc: Global, store: &mut Store<B::Proc>)
    requires rest { AllRest (B.means code.now) (contents store.old) }
    ensures contents { contents store.new ≡ ended_contents (B.means code.now) (contents store.old) }
    ensures most { store.new.most ≡ store.old.most }
{
    store.served.drop_terminating(&store.seats);
    store.seats.end_terminating();
    store.pending = Pending::new(alloc);
    store.deadlines = Deadlines::new(alloc);
}

// The process has waited until its deadline, and goes on. Gives the number by which it expires.
fn expire<P: Drop>(store: &mut Store<P>, pid: Pid) -> u32
    requires due { (due : Due) × (due_of (seat_at store.old.seats.items pid.0).standing ≡ Some due) }
    requires within { pid.0 < length store.old.seats.items }
    requires waits { IsWaiting (seat_at store.old.seats.items pid.0).standing }
    requires stands { DeadlineStands store.old.seats.items store.old.deadlines.pairs pid }
    ensures number { (due : Due) → due_of (seat_at store.old.seats.items pid.0).standing ≡ Some due → result ≡ due.alt }
    ensures contents { contents store.new ≡ expired_contents (contents store.old) pid result }
    ensures most { store.new.most ≡ store.old.most }
{
    let Some(due) = store.seats.due(pid.0 as usize) else {
        unreachable!()
    };
    let grant = store.seats.expiry_grant(pid.0 as usize, due.alt);
    wake(store, pid, grant);
    due.alt
}

// The pending call of this number is withdrawn, and its caller, where one waits, goes on with Late.
fn withdraw<P: Drop>(store: &mut Store<P>, number: CallId)
    requires call { (call : TransactionCall) × (call_numbered store.old.pending.items number.0 ≡ Some call) }
    requires stands { (moment : ℕ) → call_due store.old.pending.items number.0 ≡ Some moment → stands_in store.old.deadlines.pairs moment (who.Call number) ≡ true }
    ensures contents { (call : TransactionCall) → call_numbered store.old.pending.items number.0 ≡ Some call → contents store.new ≡ withdrawn_contents (contents store.old) call }
    ensures most { store.new.most ≡ store.old.most }
{
    let late = take_call(&mut store.pending, &mut store.deadlines, number);
    store.seats.answer(served_call(&late), Grant::Late);
}

// Whoever has the first deadline goes on, where its moment has come; none exactly where no moment has.
fn expire_one<B: Behave>(code: &B, store: &mut Store<B::Proc>) -> Option<Event>
    requires state { (s : State) × IsState (B.at code.now) s (contents store.old) }
    requires rest { AllRest (B.means code.now) (contents store.old) }
    requires stays { all_may_end store.old.seats.items ≡ false }
    ensures none { IfNone result (All (λ d. store.old.moment < d.0) store.old.deadlines.pairs) }
    ensures same { IfNone result (store.new ≡ store.old) }
    ensures takes { IfSome result (λ e. (s : State) → IsState (B.at code.now) s (contents store.old) → TakesOne (B.means code.now) (B.at code.now) s e (contents store.new)) }
    ensures rest { AllRest (B.means code.now) (contents store.new) }
    ensures fewer { IfSome result (λ e. length store.new.deadlines.pairs + 1 ≤ length store.old.deadlines.pairs) }
    ensures stays { IfSome result (λ e. all_may_end store.new.seats.items ≡ false) }
    ensures outs { map is_out store.new.seats.items ≡ map is_out store.old.seats.items }
    ensures input { store.new.input ≡ store.old.input }
    ensures drawn { store.new.drawn ≡ store.old.drawn }
    ensures cells { AreWithin (B.means code.now) store.old.most (served_by store.old.served) → AreWithin (B.means code.now) store.new.most (served_by store.new.served) }
{
    match store.deadlines.first_due(store.moment) {
        None => None,
        Some(Who::Call(call)) => {
            withdraw(store, call);
            Some(Event::Withdraw { call })
        }
        Some(Who::Process(pid)) => {
            let alt = expire(store, pid);
            Some(Event::Expire { pid, alt })
        }
    }
}

// Whoever has waited until its deadline goes on, and the journal says so.
fn expire_due<B: Behave>(code: &B, store: &mut Store<B::Proc>, journal: &mut Journal)
    requires state { (s : State) × IsState (B.at code.now) s (contents store.old) }
    requires rest { AllRest (B.means code.now) (contents store.old) }
    requires stays { all_may_end store.old.seats.items ≡ false }
    requires events { length store.old.deadlines.pairs ≤ journal.old.spare }
    ensures settles { (s : State) → IsState (B.at code.now) s (contents store.old) → Settles (B.means code.now) (B.at code.now) s journal.old.items journal.new.items (contents store.new) }
    ensures rest { AllRest (B.means code.now) (contents store.new) }
    ensures outs { map is_out store.new.seats.items ≡ map is_out store.old.seats.items }
    ensures input { store.new.input ≡ store.old.input }
    ensures drawn { store.new.drawn ≡ store.old.drawn }
    ensures cells { AreWithin (B.means code.now) store.old.most (served_by store.old.served) → AreWithin (B.means code.now) store.new.most (served_by store.new.served) }
{
    while let Some(event) = expire_one(code, store) {
        journal.add(event);
    }
}

/// The machine settles, and the journal says so. No process but that which was roused can take anything before.
pub(crate) fn settle<B: Behave>(
    code: &B,
    alloc: Global,
    store: &mut Store<B::Proc>,
    journal: &mut Journal,
    roused: Option<Pid>,
)
    requires state { (s : State) × IsState (B.at code.now) s (contents store.old) }
    requires events { 2 + length store.old.deadlines.pairs ≤ journal.old.spare }
    requires room { 0 < store.old.served.spare }
    requires known { All (λ call. call.trans < length (B.means code.now).shapes) store.old.pending.items }
    requires rest { RestBut (B.means code.now) (contents store.old) roused }
    ensures settles { (s : State) → IsState (B.at code.now) s (contents store.old) → Settles (B.means code.now) (B.at code.now) s journal.old.items journal.new.items (contents store.new) }
    ensures rest { AllRest (B.means code.now) (contents store.new) }
    ensures outs { (s : State) → IsState (B.at code.now) s (contents store.old) → map is_out store.new.seats.items ≡ map is_out store.old.seats.items }
    ensures input { store.new.input ≡ store.old.input }
    ensures drawn { store.new.drawn ≡ store.old.drawn }
    ensures cells { AreWithin (B.means code.now) store.old.most (served_by store.old.served) → AreWithin (B.means code.now) store.new.most (served_by store.new.served) }
{
    take_roused(code, store, journal, roused);
    if store.seats.all_may_end() {
        end_all(code, alloc, store);
        journal.add(Event::End);
        return;
    }
    expire_due(code, store, journal);
}
