//! The rule of the table, and what each step moves and tells.
//!
//! | step | what it moves | the view that changes |
//! |---|---|---|
//! | a second seat | nothing; it loads the turn word | the new one: the same root and events seen, nothing out |
//! | one seat joins another | nothing; it loads the turn word | the one has the longer list of events seen, the other nothing |
//! | the look after a join | nothing; it loads the turn word | none; it shows that the two lists begin one list |
//! | an exchange that takes the turn | the word from 0 to 1, and the slot with the value to the seat | the seat's: what the value has |
//! | an exchange that finds the turn taken | nothing | none |
//! | taking the value out of the slot, and laying it in | the value, in the slot that the seat holds | none |
//! | the store that gives the turn back | the word from 1 to 0, and the slot with the value back | the seat's: the value's events, and its one entry |
ghost use Rattle.cc_desk.specs.Rule.{ComparedSeen, GaveBack, IsKept, TookTurn, joined_view, new_view, second_view, spent};
ghost use Rattle.std.specs.Prelude.{Some};

use crate::held::Held;
use crate::view::View;
use atomic_table::{Join, Play, Split, TableRule};
use std::marker::PhantomData;
use std::snapshot::Snapshot;

/// The rule of the table of a desk.
pub struct DeskRule<T> {
    of: PhantomData<T>,
}

impl<T: Held> TableRule<Option<T>, View<T::Root, T::Event, T::Grants>, Snapshot<T>>
    for DeskRule<T> {
    ghost holds = { λ key. IsKept T.events T.outs T.since (T.start key.value) };

    ghost first = { λ key. new_view (Some (T.start key.value)) (T.events key.value) };
}

/// The exchange that takes the turn where it is free.
pub(crate) struct TakeTurn<T> {
    of: PhantomData<T>,
}

impl<T: Held> Play<Option<T>, View<T::Root, T::Event, T::Grants>> for TakeTurn<T> {
    ghost then = { TookTurn T.events T.outs T.since };
}

/// The store that gives the turn back.
pub(crate) struct GiveBack<T> {
    of: PhantomData<T>,
}

impl<T: Held> Play<Option<T>, View<T::Root, T::Event, T::Grants>> for GiveBack<T> {
    ghost then = { GaveBack T.events T.outs T.since };
}

/// The look at the turn word after a join.
pub(crate) struct CompareSeen<T> {
    of: PhantomData<T>,
}

impl<T: Held> Play<Option<T>, View<T::Root, T::Event, T::Grants>> for CompareSeen<T> {
    ghost then = { ComparedSeen T.events T.outs T.since };
}

/// A second seat is made from a seat.
pub(crate) struct SecondSeat;

impl<R, E, G> Split<View<R, E, G>> for SecondSeat {
    ghost left = { λ v. v };

    ghost right = { second_view };
}

/// A seat is joined into another.
pub(crate) struct JoinedSeats;

impl<R, E, G> Join<View<R, E, G>> for JoinedSeats {
    ghost both = { joined_view };

    ghost spent = { spent };
}
