//! What a seat knows. No value of this type is made, and it has no bytes.
ghost use Rattle.std.specs.Prelude.{ℕ, List, Option};
ghost use Rattle.std.specs.Coded.{coded_option};
ghost use base.Stored.{Coded, coded×, coded_ℕ, coded_list};
ghost use base.Fml.{ftrue};
ghost use Rattle.cc_desk.specs.Entry.{Entry, coded_entry};

use std::marker::{Model, PhantomData};

/// What a seat knows of the value.
pub struct View<R, E, G> {
    marker: PhantomData<(R, E, G)>,
    /// The root of the value; none where the seat was joined into another.
    pub ghost root: { Option R } by { coded_option R.code },
    /// The events seen.
    pub ghost seen: { List E } by { coded_list E.code },
    /// The shorter of two lists of events seen, after a join.
    pub ghost also_seen: { List E } by { coded_list E.code },
    /// The process that the seat has out.
    pub ghost out: { Option (ℕ × G) } by { coded_option (coded× coded_ℕ G.code) },
    /// What the value had when the seat took the turn, while it has the turn.
    pub ghost entry: { Option (Entry E G) } by { coded_option (coded_entry E.code G.code) },
}

impl<R, E, G> Model for View<R, E, G> {
    ghost also_owns = { λ _. ftrue };
}
