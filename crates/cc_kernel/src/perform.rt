ghost use Rattle.std.specs.Prelude.{◌≡◌, ◌≢◌, MatchOption, ◌+◌, ◌<◌, ◌≤◌, ◌++◌, ℕ, ℤ, List, All, false, true, length, map, pos, replicate, set};
ghost use Rattle.cc_kernel.specs.Contract.{Answering, Making, IsEnoughFor, SameOuts};
ghost use Rattle.cc_kernel.specs.Invariant.{IsReadyFor, prepared_for};
ghost use Rattle.cc_kernel.specs.Resting.{AllRest, RestBut, roused_by};
ghost use Rattle.cc_kernel.specs.Store.{IsLocated, IsState, contents};
ghost use Rattle.cc_kernel.specs.Seats.{is_out, is_ready, seat_at};
ghost use Rattle.cc_kernel.specs.declared.need.Need.TheVariants as variant;
ghost use Rattle.cc_kernel.specs.Stacks.{AreKnown, AreWithin, served_by};
ghost use Rattle.cc_kernel.specs.Timed.{AreDeadlines};
ghost use Rattle.cc_rules.specs.Effects.{effect, replied};
ghost use Rattle.cc_rules.specs.Runs.{bytes_of};
ghost use Rattle.cc_rules.specs.State.{State, is_running};

use crate::asks;
use crate::deadlines::deadline_after;
use crate::need::Need;
use crate::store::Store;
use cc_base::{Behave, Bytes, Cells, Grant, Pid, Request};
use cc_rules::{ProcessStanding, Waiting};
use std::alloc::Global;

// The process goes on, and the innermost call that it serves, where it serves one, is answered with as much of the value
// as its transaction gives.
fn reply<B: Behave>(
    code: &B,
    store: &mut Store<B::Proc>,
    pid: Pid,
    process: B::Proc,
    mut value: Cells,
)
    requires within { pid.0 < length store.old.seats.items }
    requires idle { is_ready (seat_at store.old.seats.items pid.0) ≡ false }
    requires running { is_running (seat_at store.old.seats.items pid.0).standing ≡ true }
    requires known { AreKnown (B.means code.now) (served_by store.old.served) }
    ensures state { (s : State) (asked : List ℤ) (zeros : ℕ) → value ≡ asked ++ replicate zeros (pos 0) → AreWithin (B.means code.now) zeros (served_by store.old.served) → IsState (B.at code.now) s (contents store.old) → IsLocated (B.at code.now) s pid.0 process → IsState (B.at code.now) (replied (B.means code.now) s pid.0 asked) (contents store.new) }
    ensures input { store.new.input ≡ store.old.input }
    ensures drawn { store.new.drawn ≡ store.old.drawn }
    ensures outs { map is_out store.new.seats.items ≡ set (map is_out store.old.seats.items) pid.0 false }
    ensures room { store.old.served.spare ≤ store.new.served.spare }
    ensures deadlines { length store.new.deadlines.pairs ≤ length store.old.deadlines.pairs + 1 }
    ensures cells { AreWithin (B.means code.now) store.old.most (served_by store.old.served) → AreWithin (B.means code.now) store.new.most (served_by store.new.served) }
    ensures rest { AllRest (B.means code.now) (contents store.old) → AllRest (B.means code.now) (contents store.new) }
{
    store.seats.put_ready(pid.0 as usize, process, Grant::Go);
    let Some(call) = store.served.take_innermost(pid) else {
        return;
    };
    value.cut(code.shape(call.trans).value as usize);
    store.seats.answer(call, Grant::Value(value));
}

// What the process asks is done, with what was made for it.
fn change_store<B: Behave>(
    code: &B,
    store: &mut Store<B::Proc>,
    pid: Pid,
    process: B::Proc,
    request: Request,
    need: Need<B::Proc>,
)
    requires within { pid.0 < length store.old.seats.items }
    requires idle { is_ready (seat_at store.old.seats.items pid.0) ≡ false }
    requires running { is_running (seat_at store.old.seats.items pid.0).standing ≡ true }
    requires calls { 0 < store.old.pending.spare }
    requires seats { 0 < store.old.seats.spare }
    requires deadlines { 0 < store.old.deadlines.spare }
    requires few { store.old.drawn < 4294967295 }
    requires last { All (λ call. call.number.0 < store.old.drawn) store.old.pending.items }
    requires enough { IsEnoughFor (prepared_for need) request }
    requires ready { (events : ℕ) × IsReadyFor (B.means code.now) (B.at code.now) store.old events need }
    requires known { AreKnown (B.means code.now) (served_by store.old.served) }
    requires timed { AreDeadlines store.old.seats.items store.old.pending.items store.old.deadlines.pairs }
    ensures state { (s : State) → IsState (B.at code.now) s (contents store.old) → IsLocated (B.at code.now) s pid.0 process → IsState (B.at code.now) (effect (B.means code.now) s pid request) (contents store.new) }
    ensures input { store.new.input ≡ store.old.input }
    ensures drawn { store.new.drawn ≤ store.old.drawn + 1 }
    ensures outs { SameOuts (map is_out store.new.seats.items) (set (map is_out store.old.seats.items) pid.0 false) }
    ensures room { store.old.served.spare ≤ store.new.served.spare }
    ensures deadlines { length store.new.deadlines.pairs ≤ length store.old.deadlines.pairs + 1 }
    ensures cells { AreWithin (B.means code.now) store.old.most (served_by store.old.served) → AreWithin (B.means code.now) store.new.most (served_by store.new.served) }
    ensures rest { AllRest (B.means code.now) (contents store.old) → RestBut (B.means code.now) (contents store.new) (roused_by pid request) }
{
    match request {
        Request::Print { bytes: _bytes } => asks::go_on(store, pid, process, Grant::Go),
        Request::Pause => asks::go_on(store, pid, process, Grant::Go),
        Request::Create {
            kind: _kind,
            args: _args,
        } => {
            let Some(new) = started(need) else {
                unreachable!()
            };
            asks::create(store, pid, process, new)
        }
        Request::Call {
            target,
            trans,
            args,
        } => {
            let waiting = Waiting::Caller { pid };
            asks::call(store, pid, process, target, trans, args, waiting)
        }
        Request::TimedCall {
            target,
            trans,
            args,
            wait,
        } => {
            let deadline = deadline_after(store.moment, wait);
            let waiting = Waiting::Until { pid, deadline };
            asks::call(store, pid, process, target, trans, args, waiting)
        }
        Request::Send {
            target,
            trans,
            args,
        } => asks::send(store, pid, process, target, trans, args),
        Request::Select { alts } => asks::select(store, pid, process, alts),
        Request::Delay { wait } => asks::delay(store, pid, process, wait),
        Request::Reply { value: _value } => {
            let Some(value) = answer(need) else {
                unreachable!()
            };
            reply(code, store, pid, process, value)
        }
        Request::Get => asks::get(store, pid, process),
        Request::Done => asks::leave(store, pid, ProcessStanding::Ended),
        Request::Fault { kind } => asks::leave(store, pid, ProcessStanding::Faulted { kind }),
    }
}

/// What the process asks is done, with what was made for it. Gives the bytes that are printed.
pub(crate) fn perform<B: Behave>(
    code: &B,
    alloc: Global,
    store: &mut Store<B::Proc>,
    pid: Pid,
    process: B::Proc,
    request: Request,
    need: Need<B::Proc>,
) -> Bytes
    requires within { pid.0 < length store.old.seats.items }
    requires idle { is_ready (seat_at store.old.seats.items pid.0) ≡ false }
    requires running { is_running (seat_at store.old.seats.items pid.0).standing ≡ true }
    requires calls { 0 < store.old.pending.spare }
    requires seats { 0 < store.old.seats.spare }
    requires deadlines { 0 < store.old.deadlines.spare }
    requires few { store.old.drawn < 4294967295 }
    requires last { All (λ call. call.number.0 < store.old.drawn) store.old.pending.items }
    requires enough { IsEnoughFor (prepared_for need) request }
    requires ready { (events : ℕ) × IsReadyFor (B.means code.now) (B.at code.now) store.old events need }
    requires known { AreKnown (B.means code.now) (served_by store.old.served) }
    requires timed { AreDeadlines store.old.seats.items store.old.pending.items store.old.deadlines.pairs }
    ensures state { (s : State) → IsState (B.at code.now) s (contents store.old) → IsLocated (B.at code.now) s pid.0 process → IsState (B.at code.now) (effect (B.means code.now) s pid request) (contents store.new) }
    ensures input { store.new.input ≡ store.old.input }
    ensures drawn { store.new.drawn ≤ store.old.drawn + 1 }
    ensures outs { SameOuts (map is_out store.new.seats.items) (set (map is_out store.old.seats.items) pid.0 false) }
    ensures room { store.old.served.spare ≤ store.new.served.spare }
    ensures deadlines { length store.new.deadlines.pairs ≤ length store.old.deadlines.pairs + 1 }
    ensures cells { AreWithin (B.means code.now) store.old.most (served_by store.old.served) → AreWithin (B.means code.now) store.new.most (served_by store.new.served) }
    ensures rest { AllRest (B.means code.now) (contents store.old) → RestBut (B.means code.now) (contents store.new) (roused_by pid request) }
    ensures bytes { result ≡ bytes_of request }
{
    match request {
        Request::Print { bytes } => {
            asks::go_on(store, pid, process, Grant::Go);
            bytes
        }
        other => {
            change_store(code, store, pid, process, other, need);
            Bytes::new(alloc)
        }
    }
}

// The process that was started for a Create.
fn started<P: Drop>(need: Need<P>) -> Option<P>
    ensures { MatchOption result ((kind : ℕ) (args : List ℤ) → prepared_for need ≢ Making kind args) (λ new. (kind : ℕ) × (args : List ℤ) × (need ≡ variant.Making kind args new)) }
{
    match need {
        Need::Making {
            kind: _kind,
            args: _args,
            process,
        } => Some(process),
        _other => None,
    }
}

// The value that was made for a Reply.
fn answer<P: Drop>(need: Need<P>) -> Option<Cells>
    ensures { MatchOption result ((value : List ℤ) (zeros : ℕ) → prepared_for need ≢ Answering value zeros) (λ value. (zeros : ℕ) × (need ≡ variant.Answering value zeros)) }
{
    match need {
        Need::Answering {
            value,
            zeros: _zeros,
        } => Some(value),
        _other => None,
    }
}

/// Whom what the process asks may let take something that he could not take before: the target of a call, and who waits for an
/// alternative himself.
pub(crate) fn roused_by(pid: Pid, request: &Request) -> Option<Pid>
    ensures { result ≡ roused_by pid request.now }
{
    match request {
        Request::Call { target, .. } => Some(*target),
        Request::TimedCall { target, .. } => Some(*target),
        Request::Send { target, .. } => Some(*target),
        Request::Select { .. } => Some(pid),
        _ => None,
    }
}
