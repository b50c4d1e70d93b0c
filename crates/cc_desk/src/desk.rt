//! The desk and its seats.
ghost use Rattle.std.specs.Prelude.{◌≡◌, [], Some, None, IfOk, IfErr, IsSomeAnd};
ghost use Rattle.cc_desk.specs.Entry.{entry};
ghost use Rattle.cc_desk.specs.Lists.{IsSwapped, HasOut, longer};
ghost use Rattle.cc_desk.specs.Seated.{fresh};
ghost use mathlib.Core.List.{IsPrefix};

use crate::held::Held;
use crate::law::{CompareSeen, DeskRule, GiveBack, JoinedSeats, SecondSeat, TakeTurn};
use crate::view::View;
use atomic_table::{Refused, Seat, Table};
use std::alloc::{AllocFailed, Global};
use std::marker::Model;
use std::snapshot::Snapshot;
use std::sync::Wait;
use std::thread;

/// Memory ran out. The value comes back.
#[derive(Drop)]
pub struct Back<T>(pub T);

/// A lock round one value, of which each seat knows what it has seen. A clause sees a desk as what tells it from other desks.
#[derive(Drop)]
pub struct Desk<T: Held> {
    table: Table<Option<T>, View<T::Root, T::Event, T::Grants>, Snapshot<T>, DeskRule<T>, Global>,
}

impl<T: Held> Model for Desk<T> {
    ghost use Rattle.std.specs.Prelude.{◌≡◌};
    ghost use Rattle.atomic_table.specs.Seated.{TableId, table_id_coded};

    ghost Value = { TableId };

    ghost coded = { table_id_coded };

    ghost view = { λ d. d.table.shared.table_id };

    ghost invariant = { λ d. (d.table.shared.table_id.words ≡ 1) × (d.table.shared.table_id.slots ≡ 1) };
}

/// A place at a desk: what its user has seen of the value, what it has out, and whether it has the turn. It has no bytes.
/// A seat that is dropped with a process out leaves that process out for good.
#[derive(Drop)]
pub struct DeskSeat<T: Held> {
    seat: Seat<Option<T>, View<T::Root, T::Event, T::Grants>>,
}

impl<T: Held> Model for DeskSeat<T> {
    ghost use Rattle.std.specs.Prelude.{◌≡◌, ◌≢◌, None};
    ghost use Rattle.cc_desk.specs.Seated.{Seated, coded_seated};
    ghost use Rattle.cc_desk.specs.Rule.{carried};

    ghost Value = { Seated T.Root T.Event T.Grants };

    ghost coded = { coded_seated T.Root.code T.Event.code T.Grants.code };

    ghost view = { λ s. record { desk = s.seat.table_id; root = s.seat.me.0.root; seen = s.seat.me.0.seen; out = s.seat.me.0.out; turn = s.seat.me.0.entry } };

    ghost invariant = { λ s. (s.seat.me.0.root ≢ None) × (s.seat.me.1 ≡ carried s.seat.me.0.entry) };
}

impl<T: Held> Desk<T> {
    /// A desk with this value, of which nothing is out, and its first seat, which has seen the value's events. Only this call
    /// takes memory. Where there is none, the value comes back.
    pub fn open(alloc: Global, value: T) -> Result<(Desk<T>, DeskSeat<T>), Back<T>>
        requires outs { T.outs value ≡ [] }
        requires since { T.since value (T.start value) }
        ensures seat { IfOk result (λ r. r.1 ≡ fresh r.0 (Some (T.start value)) (T.events value)) }
        ensures back { IfErr result (λ b. b.0 ≡ value) }
    {
        let about = Snapshot::of(&value);
        let mut slots = Vec::new(alloc);
        match slots.push(Some(value)) {
            Ok(()) => {}
            Err(AllocFailed { value: Some(value) }) => return Err(Back(value)),
            Err(_) => unreachable!(),
        }
        match Table::new(alloc, &[0], slots, &about) {
            Ok((table, seat)) => Ok((Desk { table }, DeskSeat { seat })),
            Err(Refused { mut slots }) => match slots.pop() {
                Some(Some(value)) => Err(Back(value)),
                _ => unreachable!(),
            },
        }
    }

    /// A second seat, which has seen as much. It has nothing out, and not the turn.
    pub fn seat(&self, from: &mut DeskSeat<T>) -> DeskSeat<T>
        requires { from.old.desk ≡ self.now }
        ensures same { from.new ≡ from.old }
        ensures new { result ≡ fresh self.now from.old.root from.old.seen }
    {
        let seat = self.table.shared.split_seat::<SecondSeat>(&mut from.seat);
        DeskSeat { seat }
    }

    /// Waits for the turn, and gives the value. Its events begin with those that the seat had seen, and what the seat has out
    /// stands in it unchanged. It need not return: another seat may keep the turn.
    pub fn enter<W: Wait>(&self, rt: &W, seat: &mut DeskSeat<T>) -> T
        requires here { seat.old.desk ≡ self.now }
        requires free { seat.old.turn ≡ None }
        ensures turn { seat.new ≡ record seat.old { turn = Some (entry (T.events result) (T.outs result)) } }
        ensures since { IsSomeAnd seat.old.root (T.since result) }
        ensures seen { IsPrefix seat.old.seen (T.events result) }
        ensures out { HasOut (T.outs result) seat.old.out }
    {
        let shared = &self.table.shared;
        for _ in rt.forever() {
            let found = shared.compare_exchange::<TakeTurn<T>>(&mut seat.seat, 0, 0, 1);
            if found == 0 {
                match shared.exchange(&mut seat.seat, 0, None) {
                    Some(value) => return value,
                    None => unreachable!(),
                }
            }
            thread::yield_now();
        }
        unreachable!()
    }

    /// Gives the value and the turn back. The value's events go on from those at entry, and of what was out only the seat's own
    /// process has left; at most one other has come in, and that is what the seat has out from now on.
    pub fn leave(&self, seat: &mut DeskSeat<T>, value: T)
        requires here { seat.old.desk ≡ self.now }
        requires since { IsSomeAnd seat.old.root (T.since value) }
        requires step { IsSomeAnd seat.old.turn (λ e. IsPrefix e.events (T.events value) × (more : _) × IsSwapped e.outs seat.old.out (T.outs value) more) }
        ensures left { seat.new ≡ record seat.old { seen = T.events value; out = seat.new.out; turn = None } }
        ensures out { IsSomeAnd seat.old.turn (λ e. (more : _) → IsSwapped e.outs seat.old.out (T.outs value) more → seat.new.out ≡ more) }
    {
        let shared = &self.table.shared;
        match shared.exchange(&mut seat.seat, 0, Some(value)) {
            Some(_) => unreachable!(),
            None => {}
        }
        shared.store::<GiveBack<T>>(&mut seat.seat, 0, 0);
    }

    /// Joins a seat, which has nothing out, into another. What the other has seen is then the longer of both lists.
    pub fn join(&self, into: &mut DeskSeat<T>, seat: DeskSeat<T>)
        requires here { (into.old.desk ≡ self.now) × (seat.desk ≡ self.now) }
        requires free { (into.old.turn ≡ None) × (seat.turn ≡ None) × (seat.out ≡ None) }
        ensures seen { into.new ≡ record into.old { seen = longer into.old.seen seat.seen } }
        ensures begins { IsPrefix into.old.seen into.new.seen × IsPrefix seat.seen into.new.seen }
    {
        let shared = &self.table.shared;
        let DeskSeat { seat } = seat;
        shared.join_seat::<JoinedSeats>(&mut into.seat, seat);
        shared.load::<CompareSeen<T>>(&mut into.seat, 0);
    }

    /// Waits for the turn a last time, and keeps the value. It need not return: another seat may keep the turn.
    pub fn close<W: Wait>(self, rt: &W, mut seat: DeskSeat<T>) -> T
        requires here { seat.desk ≡ self }
        requires free { (seat.turn ≡ None) × (seat.out ≡ None) }
        ensures since { IsSomeAnd seat.root (T.since result) }
        ensures seen { IsPrefix seat.seen (T.events result) }
    {
        self.enter(rt, &mut seat)
    }
}
