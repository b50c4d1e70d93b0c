ghost use Rattle.std.specs.Prelude.{◌≡◌, ◌++◌, [], None, Some, IfSome, MatchBool};
ghost use mathlib.Core.List.{IsPrefix};
ghost use Rattle.cc_desk.specs.Lists.{Has};
ghost use Rattle.std.specs.Thread.{IsSync};

use crate::tray::{MemSink, Sink, Tray};
use cc_desk::{Desk, DeskSeat};
use std::alloc::Global;
use std::sync::Wait;
use std::thread::{Threads, join};

/// One hold of the desk: it adds an event, if there is memory.
pub fn step<K: Sink, W: Wait>(
    rt: &W,
    desk: &Desk<Tray<K>>,
    seat: &mut DeskSeat<Tray<K>>,
    event: u64,
) -> bool
    requires here { seat.old.desk ≡ desk.now }
    requires free { (seat.old.turn ≡ None) × (seat.old.out ≡ None) }
    ensures free { (seat.new.turn ≡ None) × (seat.new.out ≡ None) × (seat.new.desk ≡ desk.now) × (seat.new.root ≡ seat.old.root) }
    ensures seen { IsPrefix seat.old.seen seat.new.seen }
{
    let mut tray = desk.enter(rt, seat);
    let added = tray.add(event).is_ok();
    desk.leave(seat, tray);
    added
}

/// One hold of the desk that changes nothing.
pub fn keep<W: Wait>(rt: &W, desk: &Desk<Tray<MemSink>>, seat: &mut DeskSeat<Tray<MemSink>>)
    requires here { seat.old.desk ≡ desk.now }
    requires free { (seat.old.turn ≡ None) × (seat.old.out ≡ None) }
    ensures free { (seat.new.turn ≡ None) × (seat.new.out ≡ None) × (seat.new.desk ≡ desk.now) }
{
    let tray = desk.enter(rt, seat);
    desk.leave(seat, tray);
}

/// So many holds of the desk that change nothing.
pub fn keep_often<W: Wait>(
    rt: &W,
    desk: &Desk<Tray<MemSink>>,
    mut seat: DeskSeat<Tray<MemSink>>,
    holds: u32,
) -> DeskSeat<Tray<MemSink>>
    requires here { seat.desk ≡ desk.now }
    requires free { (seat.turn ≡ None) × (seat.out ≡ None) }
    ensures free { (result.turn ≡ None) × (result.out ≡ None) × (result.desk ≡ desk.now) }
{
    for _ in 0..holds {
        keep(rt, desk, &mut seat);
    }
    seat
}

/// As many threads as there are workers hold the desk so often each, and change nothing.
pub fn keep_together<R: Threads + Wait + Sync>(
    rt: &R,
    desk: &Desk<Tray<MemSink>>,
    mut seat: DeskSeat<Tray<MemSink>>,
    workers: u32,
    holds: u32,
) -> DeskSeat<Tray<MemSink>>
    requires here { seat.desk ≡ desk.now }
    requires free { (seat.turn ≡ None) × (seat.out ≡ None) }
    ensures free { (result.turn ≡ None) × (result.out ≡ None) × (result.desk ≡ desk.now) }
{
    if workers <= 1 {
        return keep_often(rt, desk, seat, holds);
    }
    let other = desk.seat(&mut seat);
    let half = workers / 2;
    let rest = workers - half;
    let (mut one, two) = join(
        rt,
        || -> DeskSeat<Tray<MemSink>>
            requires { IsSync R.row × (seat.desk ≡ desk.now) × (seat.turn ≡ None) × (seat.out ≡ None) }
            ensures { (result.turn ≡ None) × (result.out ≡ None) × (result.desk ≡ desk.entry.now) }
        { keep_together(rt, desk, seat, half, holds) },
        || -> DeskSeat<Tray<MemSink>>
            requires { IsSync R.row × (other.desk ≡ desk.now) × (other.turn ≡ None) × (other.out ≡ None) }
            ensures { (result.turn ≡ None) × (result.out ≡ None) × (result.desk ≡ desk.entry.now) }
        { keep_together(rt, desk, other, rest, holds) },
    );
    desk.join(&mut one, two);
    one
}

/// One hold of the desk that counts the events.
pub fn count<W: Wait>(
    rt: &W,
    desk: &Desk<Tray<MemSink>>,
    seat: &mut DeskSeat<Tray<MemSink>>,
) -> usize
    requires here { seat.old.desk ≡ desk.now }
    requires free { (seat.old.turn ≡ None) × (seat.old.out ≡ None) }
{
    let tray = desk.enter(rt, seat);
    let events = tray.len();
    desk.leave(seat, tray);
    events
}

/// A second seat is made, both have the turn once, they are joined, and the desk is closed.
pub fn in_turn<W: Wait>(
    rt: &W,
    desk: Desk<Tray<MemSink>>,
    mut first: DeskSeat<Tray<MemSink>>,
) -> Tray<MemSink>
    requires here { first.desk ≡ desk }
    requires free { (first.turn ≡ None) × (first.out ≡ None) }
{
    let mut second = desk.seat(&mut first);
    keep(rt, &desk, &mut first);
    keep(rt, &desk, &mut second);
    desk.join(&mut first, second);
    desk.close(rt, first)
}

/// Opens a desk on a tray, adds an event, and closes it.
pub fn one_event<K: Sink, W: Wait>(
    rt: &W,
    alloc: Global,
    tray: Tray<K>,
    event: u64,
) -> Option<Tray<K>>
    requires { (tray.journal ≡ []) × (tray.outs ≡ []) }
{
    let (desk, mut seat) = match Desk::open(alloc, tray) {
        Ok(both) => both,
        Err(_) => return None,
    };
    step(rt, &desk, &mut seat, event);
    Some(desk.close(rt, seat))
}

/// A seat by value, for a thread of its own.
fn step_as<K: Sink, W: Wait>(
    rt: &W,
    desk: &Desk<Tray<K>>,
    mut seat: DeskSeat<Tray<K>>,
    event: u64,
) -> DeskSeat<Tray<K>>
    requires here { seat.desk ≡ desk.now }
    requires free { (seat.turn ≡ None) × (seat.out ≡ None) }
    ensures free { (result.turn ≡ None) × (result.out ≡ None) × (result.desk ≡ desk.now) × (result.root ≡ seat.root) }
    ensures seen { IsPrefix seat.seen result.seen }
{
    step(rt, desk, &mut seat, event);
    seat
}

/// Two threads add an event each. What comes back is what the tray may have become.
pub fn by_two<K: Sink + Send, R: Threads + Wait + Sync>(
    rt: &R,
    alloc: Global,
    tray: Tray<K>,
    first: u64,
    second: u64,
) -> Option<Tray<K>>
    requires outs { tray.outs ≡ [] }
    requires fresh { tray.journal ≡ [] }
    ensures { IfSome result (λ t. K.content t.sink ≡ K.content tray.sink ++ t.journal) }
{
    let (desk, mut seat) = match Desk::open(alloc, tray) {
        Ok(both) => both,
        Err(_) => return None,
    };
    let one = desk.seat(&mut seat);
    let two = desk.seat(&mut seat);
    let shared = &desk;
    let (one, two) = join(
        rt,
        || -> DeskSeat<Tray<K>>
            requires { (one.desk ≡ shared.now) × (one.turn ≡ None) × (one.out ≡ None) }
            ensures { (result.turn ≡ None) × (result.out ≡ None) × (result.desk ≡ shared.entry.now) × (result.root ≡ one.root) }
        { step_as(rt, shared, one, first) },
        || -> DeskSeat<Tray<K>>
            requires { (two.desk ≡ shared.now) × (two.turn ≡ None) × (two.out ≡ None) }
            ensures { (result.turn ≡ None) × (result.out ≡ None) × (result.desk ≡ shared.entry.now) × (result.root ≡ two.root) }
        { step_as(rt, shared, two, second) },
    );
    desk.join(&mut seat, one);
    desk.join(&mut seat, two);
    Some(desk.close(rt, seat))
}

/// Hands a process out, if it is not out already and there is memory. The seat has it out then.
pub fn hand_out<K: Sink, W: Wait>(
    rt: &W,
    desk: &Desk<Tray<K>>,
    seat: &mut DeskSeat<Tray<K>>,
    pid: u32,
    grants: u64,
) -> bool
    requires here { seat.old.desk ≡ desk.now }
    requires free { (seat.old.turn ≡ None) × (seat.old.out ≡ None) }
    ensures out { MatchBool result (seat.new.out ≡ Some (pid, grants)) (seat.new.out ≡ None) }
    ensures stays { (seat.new.turn ≡ None) × (seat.new.desk ≡ desk.now) }
{
    let mut tray = desk.enter(rt, seat);
    let given = tray.send_out(pid, grants);
    desk.leave(seat, tray);
    given
}

/// Takes back what the seat has out. It is there, with its grants, whatever others did meanwhile.
pub fn hand_in<K: Sink, W: Wait>(
    rt: &W,
    desk: &Desk<Tray<K>>,
    seat: &mut DeskSeat<Tray<K>>,
    pid: u32,
    grants: u64,
) -> Tray<K>
    requires here { seat.old.desk ≡ desk.now }
    requires free { (seat.old.turn ≡ None) × (seat.old.out ≡ Some (pid, grants)) }
    ensures { Has result.outs (pid, grants) }
{
    desk.enter(rt, seat)
}

/// As many threads as there are workers add an event each. The seat that comes back has seen what they saw.
pub fn spread<K: Sink + Send, R: Threads + Wait + Sync>(
    rt: &R,
    desk: &Desk<Tray<K>>,
    mut seat: DeskSeat<Tray<K>>,
    workers: u32,
) -> DeskSeat<Tray<K>>
    requires here { seat.desk ≡ desk.now }
    requires free { (seat.turn ≡ None) × (seat.out ≡ None) }
    ensures free { (result.turn ≡ None) × (result.out ≡ None) × (result.desk ≡ desk.now) × (result.root ≡ seat.root) }
    ensures seen { IsPrefix seat.seen result.seen }
{
    if workers <= 1 {
        return step_as(rt, desk, seat, 7);
    }
    let other = desk.seat(&mut seat);
    let half = workers / 2;
    let rest = workers - half;
    let (mut one, two) = join(
        rt,
        || -> DeskSeat<Tray<K>>
            requires { IsSync R.row × (seat.desk ≡ desk.now) × (seat.turn ≡ None) × (seat.out ≡ None) }
            ensures { (result.turn ≡ None) × (result.out ≡ None) × (result.desk ≡ desk.entry.now) × (result.root ≡ seat.root) × IsPrefix seat.seen result.seen }
        { spread(rt, desk, seat, half) },
        || -> DeskSeat<Tray<K>>
            requires { IsSync R.row × (other.desk ≡ desk.now) × (other.turn ≡ None) × (other.out ≡ None) }
            ensures { (result.turn ≡ None) × (result.out ≡ None) × (result.desk ≡ desk.entry.now) × (result.root ≡ other.root) }
        { spread(rt, desk, other, rest) },
    );
    desk.join(&mut one, two);
    one
}
