ghost use Rattle.std.specs.Prelude.{◌≡◌, ℕ, ◌+◌, ◌<◌, ◌≤◌, All, Some, false, true, length, map, nat_eq, nat_lt, not, if◌then◌else◌};
ghost use Rattle.std.specs.List.{filter};
ghost use Rattle.cc_kernel.specs.Timed.{AreDeadlines, call_due, stands_in, without_some};
ghost use Rattle.cc_rules.specs.Choice.{call_deadline, call_numbered};
ghost use Rattle.cc_rules.specs.Effects.{is_for};
ghost use Rattle.cc_rules.specs.declared.process.TransactionCall.{TransactionCall};
ghost use Rattle.cc_base.specs.Alternatives.{NumbersRise};
ghost use Rattle.cc_base.specs.declared.names.FaultKind.TheVariants.{TooMany};
ghost use Rattle.cc_base.specs.declared.request.Grant.TheVariants.{Go, Gone};
ghost use Rattle.cc_kernel.specs.Store.{called_contents, delayed_contents, got_byte, left_contents, made_contents, contents, sent_contents, waited, went_on};
ghost use Rattle.cc_kernel.specs.Seats.{answered_seats, gone_seats, is_ready, seat_at, served_call};
ghost use Rattle.cc_kernel.specs.Stacks.{none_served, served_by};
ghost use Rattle.cc_base.specs.Limits.{most_processes};
ghost use Rattle.cc_rules.specs.State.{is_over, is_running};
ghost use Rattle.cc_rules.specs.declared.process.ProcessStanding.TheVariants.{AtSelect, Faulted};
ghost use Rattle.cc_timer.specs.declared.who.Who.TheVariants as who;

use crate::deadlines::{Deadlines, deadline_after};
use crate::due::{call_deadline, select_deadline};
use crate::pending::Pending;
use crate::seats::Seats;
use crate::served::{Served, served_call};
use crate::store::Store;
use cc_base::limits::MOST_PROCESSES;
use cc_base::{Alts, Behave, CallId, Cells, FaultKind, Grant, Pid};
use cc_rules::{ProcessStanding, TransactionCall, Waiting};
use cc_timer::Who;

/// The process goes on with this grant.
pub(crate) fn go_on<P: Drop>(store: &mut Store<P>, pid: Pid, process: P, grant: Grant)
    requires within { pid.0 < length store.old.seats.items }
    requires idle { is_ready (seat_at store.old.seats.items pid.0) ≡ false }
    ensures contents { contents store.new ≡ went_on (contents store.old) pid.0 process grant }
    ensures room { store.old.served.spare ≤ store.new.served.spare }
    ensures most { store.new.most ≡ store.old.most }
    ensures deadlines { length store.new.deadlines.pairs ≤ length store.old.deadlines.pairs + 1 }
{
    store.seats.put_ready(pid.0 as usize, process, grant);
}

/// The process waits for one of these alternatives, until the first of their deadlines where they have one.
pub(crate) fn select<P: Drop>(store: &mut Store<P>, pid: Pid, process: P, alts: Alts)
    requires within { pid.0 < length store.old.seats.items }
    requires idle { is_ready (seat_at store.old.seats.items pid.0) ≡ false }
    requires room { 0 < store.old.deadlines.spare }
    ensures contents { contents store.new ≡ waited (contents store.old) pid process (AtSelect alts store.old.moment) }
    ensures rising { NumbersRise alts }
    ensures room { store.old.served.spare ≤ store.new.served.spare }
    ensures most { store.new.most ≡ store.old.most }
    ensures deadlines { length store.new.deadlines.pairs ≤ length store.old.deadlines.pairs + 1 }
{
    let deadline = select_deadline(store.moment, &alts);
    let standing = ProcessStanding::AtSelect {
        alts,
        asked: store.moment,
    };
    store.seats.put_waiting(pid.0 as usize, process, standing);
    store.deadlines.add_some(deadline, Who::Process(pid));
}

/// The process waits for so many milliseconds.
pub(crate) fn delay<P: Drop>(store: &mut Store<P>, pid: Pid, process: P, wait: i64)
    requires within { pid.0 < length store.old.seats.items }
    requires idle { is_ready (seat_at store.old.seats.items pid.0) ≡ false }
    requires room { 0 < store.old.deadlines.spare }
    ensures contents { contents store.new ≡ delayed_contents (contents store.old) pid process wait }
    ensures room { store.old.served.spare ≤ store.new.served.spare }
    ensures most { store.new.most ≡ store.old.most }
    ensures deadlines { length store.new.deadlines.pairs ≤ length store.old.deadlines.pairs + 1 }
{
    let deadline = deadline_after(store.moment, wait);
    let standing = ProcessStanding::AtDelay { deadline };
    store.seats.put_waiting(pid.0 as usize, process, standing);
    store.deadlines.add(deadline, Who::Process(pid));
}

/// The process takes the next byte of the input.
pub(crate) fn get<P: Drop>(store: &mut Store<P>, pid: Pid, process: P)
    requires within { pid.0 < length store.old.seats.items }
    requires idle { is_ready (seat_at store.old.seats.items pid.0) ≡ false }
    ensures contents { contents store.new ≡ got_byte (contents store.old) pid.0 process }
    ensures room { store.old.served.spare ≤ store.new.served.spare }
    ensures most { store.new.most ≡ store.old.most }
    ensures deadlines { length store.new.deadlines.pairs ≤ length store.old.deadlines.pairs + 1 }
{
    let byte = store.input.get(store.taken);
    store
        .seats
        .put_ready(pid.0 as usize, process, Grant::Byte(byte));
    if store.taken < store.input.len() {
        store.taken += 1;
    }
}

/// The process calls, and waits for the answer where the target is there: until the deadline, where there is one.
pub(crate) fn call<P: Drop>(
    store: &mut Store<P>,
    pid: Pid,
    process: P,
    target: Pid,
    trans: u32,
    args: Cells,
    waiting: Waiting,
)
    requires within { pid.0 < length store.old.seats.items }
    requires idle { is_ready (seat_at store.old.seats.items pid.0) ≡ false }
    requires room { 0 < store.old.pending.spare }
    requires due { 0 < store.old.deadlines.spare }
    requires few { store.old.drawn < 4294967295 }
    requires last { All (λ call. call.number.0 < store.old.drawn) store.old.pending.items }
    ensures contents { contents store.new ≡ (if is_over (seat_at store.old.seats.items target.0).standing then went_on (contents store.old) pid.0 process Gone else called_contents (contents store.old) pid process target trans args waiting) }
    ensures room { store.old.served.spare ≤ store.new.served.spare }
    ensures most { store.new.most ≡ store.old.most }
    ensures deadlines { length store.new.deadlines.pairs ≤ length store.old.deadlines.pairs + 1 }
{
    if !store.seats.is_there(target) {
        store.seats.put_ready(pid.0 as usize, process, Grant::Gone);
        return;
    }
    let number = CallId(store.drawn);
    store.seats.put_waiting(
        pid.0 as usize,
        process,
        ProcessStanding::AtCall { call: number },
    );
    store
        .deadlines
        .add_some(call_deadline(waiting), Who::Call(number));
    store.pending.add(TransactionCall {
        number,
        target,
        trans,
        args,
        waiting,
    });
    store.drawn += 1;
}

/// The process goes on, and the call, for which nobody waits, is pending where the target is there.
pub(crate) fn send<P: Drop>(
    store: &mut Store<P>,
    pid: Pid,
    process: P,
    target: Pid,
    trans: u32,
    args: Cells,
)
    requires within { pid.0 < length store.old.seats.items }
    requires idle { is_ready (seat_at store.old.seats.items pid.0) ≡ false }
    requires room { 0 < store.old.pending.spare }
    requires few { store.old.drawn < 4294967295 }
    requires last { All (λ call. call.number.0 < store.old.drawn) store.old.pending.items }
    ensures contents { contents store.new ≡ (if is_over (seat_at store.old.seats.items target.0).standing then went_on (contents store.old) pid.0 process Go else sent_contents (contents store.old) pid process target trans args) }
    ensures room { store.old.served.spare ≤ store.new.served.spare }
    ensures most { store.new.most ≡ store.old.most }
    ensures deadlines { length store.new.deadlines.pairs ≤ length store.old.deadlines.pairs + 1 }
{
    let is_there = store.seats.is_there(target);
    store.seats.put_ready(pid.0 as usize, process, Grant::Go);
    if !is_there {
        return;
    }
    store.pending.add(TransactionCall {
        number: CallId(store.drawn),
        target,
        trans,
        args,
        waiting: Waiting::Nobody,
    });
    store.drawn += 1;
}

/// The process is over, and whoever waits for it goes on.
pub(crate) fn leave<P: Drop>(store: &mut Store<P>, pid: Pid, standing: ProcessStanding)
    requires within { pid.0 < length store.old.seats.items }
    requires idle { is_ready (seat_at store.old.seats.items pid.0) ≡ false }
    requires over { is_over standing ≡ true }
    requires running { is_running (seat_at store.old.seats.items pid.0).standing ≡ true }
    requires timed { AreDeadlines store.old.seats.items store.old.pending.items store.old.deadlines.pairs }
    ensures contents { contents store.new ≡ left_contents (contents store.old) pid.0 standing store.new.deadlines.pairs }
    ensures timed { AreDeadlines store.new.seats.items store.new.pending.items store.new.deadlines.pairs }
    ensures room { store.old.served.spare ≤ store.new.served.spare }
    ensures most { store.new.most ≡ store.old.most }
    ensures deadlines { length store.new.deadlines.pairs ≤ length store.old.deadlines.pairs + 1 }
{
    store.seats.put_left(pid.0 as usize, standing);
    drop_calls(
        &mut store.seats,
        &mut store.pending,
        &mut store.deadlines,
        pid,
    );
    drop_served(&mut store.seats, &mut store.served, pid);
}

// Every call that is pending at the target is dropped, and its caller, where one waits, goes on with Gone.
fn drop_calls<P: Drop>(
    seats: &mut Seats<P>,
    pending: &mut Pending,
    deadlines: &mut Deadlines,
    target: Pid,
)
    requires { AreDeadlines seats.old.items pending.old.items deadlines.old.pairs }
    ensures seats { seats.new.items ≡ gone_seats seats.old.items (map served_call (filter (is_for target.0) pending.old.items)) }
    ensures pending { pending.new.items ≡ filter (λ call. not (is_for target.0 call)) pending.old.items }
    ensures timed { AreDeadlines seats.new.items pending.new.items deadlines.new.pairs }
    ensures fewer { length deadlines.new.pairs ≤ length deadlines.old.pairs }
{
    while let Some(number) = pending.first_at(target) {
        drop_call(seats, pending, deadlines, number);
    }
}

// The pending call of this number is dropped, and its caller, where one waits, goes on with Gone.
fn drop_call<P: Drop>(
    seats: &mut Seats<P>,
    pending: &mut Pending,
    deadlines: &mut Deadlines,
    number: CallId,
)
    requires call { (call : TransactionCall) × (call_numbered pending.old.items number.0 ≡ Some call) }
    requires timed { AreDeadlines seats.old.items pending.old.items deadlines.old.pairs }
    ensures seats { (call : TransactionCall) → call_numbered pending.old.items number.0 ≡ Some call → seats.new.items ≡ answered_seats seats.old.items (served_call call) Gone }
    ensures pending { pending.new.items ≡ filter (λ call. not (nat_eq call.number.0 number.0)) pending.old.items }
    ensures timed { AreDeadlines seats.new.items pending.new.items deadlines.new.pairs }
    ensures fewer { length deadlines.new.pairs ≤ length deadlines.old.pairs }
{
    let call = take_call(pending, deadlines, number);
    seats.answer(served_call(&call), Grant::Gone);
}

/// Takes out the pending call of this number, and its deadline where it has one.
pub(crate) fn take_call(
    pending: &mut Pending,
    deadlines: &mut Deadlines,
    number: CallId,
) -> TransactionCall
    requires call { (call : TransactionCall) × (call_numbered pending.old.items number.0 ≡ Some call) }
    requires stands { (moment : ℕ) → call_due pending.old.items number.0 ≡ Some moment → stands_in deadlines.old.pairs moment (who.Call number) ≡ true }
    ensures call { call_numbered pending.old.items number.0 ≡ Some result }
    ensures pending { pending.new.items ≡ filter (λ call. not (nat_eq call.number.0 number.0)) pending.old.items }
    ensures deadlines { deadlines.new.pairs ≡ without_some (call_deadline result.waiting) (who.Call number) deadlines.old.pairs }
{
    let Some(call) = pending.take(number) else {
        unreachable!()
    };
    deadlines.remove_some(call_deadline(call.waiting), Who::Call(number));
    call
}

// Every call that the process serves is dropped, and its caller, where one waits, goes on with Gone.
fn drop_served<P: Drop>(seats: &mut Seats<P>, served: &mut Served, server: Pid)
    ensures seats { seats.new.items ≡ gone_seats seats.old.items (served_by served.old server.0) }
    ensures served { served_by served.new ≡ none_served (served_by served.old) server.0 }
    ensures room { served.old.spare ≤ served.new.spare }
{
    while let Some(call) = served.take_innermost(server) {
        seats.answer(call, Grant::Gone);
    }
}

/// The process has made another, where there are not too many.
pub(crate) fn create<P: Drop>(store: &mut Store<P>, pid: Pid, process: P, new: P)
    requires within { pid.0 < length store.old.seats.items }
    requires idle { is_ready (seat_at store.old.seats.items pid.0) ≡ false }
    requires running { is_running (seat_at store.old.seats.items pid.0).standing ≡ true }
    requires timed { AreDeadlines store.old.seats.items store.old.pending.items store.old.deadlines.pairs }
    requires room { 0 < store.old.seats.spare }
    ensures contents { contents store.new ≡ (if nat_lt (length store.old.seats.items) most_processes then made_contents (contents store.old) pid.0 process new else left_contents (contents store.old) pid.0 (Faulted TooMany) store.new.deadlines.pairs) }
    ensures timed { AreDeadlines store.new.seats.items store.new.pending.items store.new.deadlines.pairs }
    ensures room { store.old.served.spare ≤ store.new.served.spare }
    ensures most { store.new.most ≡ store.old.most }
    ensures deadlines { length store.new.deadlines.pairs ≤ length store.old.deadlines.pairs + 1 }
{
    let count = store.seats.len();
    if count >= MOST_PROCESSES as usize {
        leave(
            store,
            pid,
            ProcessStanding::Faulted {
                kind: FaultKind::TooMany,
            },
        );
        return;
    }
    store
        .seats
        .put_ready(pid.0 as usize, process, Grant::Made(Pid(count as u32)));
    store.seats.add(new, Grant::Go);
}
