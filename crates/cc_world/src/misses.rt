ghost use Rattle.std.specs.Prelude.{◌≡◌, ◌<◌, [], ◌∷◌, ◌++◌, OnOk};

use crate::fault::ShelfCall;
use cc_base::{Bytes, Memory};
use std::alloc::Global;
use std::marker::Model;

/// The calls of a shelf that failed, the first one first, with room for more.
#[derive(Drop)]
pub(crate) struct Misses {
    items: Vec<(Bytes, ShelfCall)>,
}

impl Model for Misses {
    ghost use Rattle.std.specs.Prelude.{ℕ, ◌-◌, vec_capacity, vec_len};
    ghost use Rattle.cc_world.specs.Misses.{Noted};

    ghost Value = { Noted };

    ghost view = { λ m. record { items = m.items.items; spare = vec_capacity m.items - vec_len m.items } };
}

impl Misses {
    pub fn new(alloc: Global) -> Misses
        ensures { result.items ≡ [] }
    {
        Misses {
            items: Vec::new(alloc),
        }
    }

    /// Makes room for one more.
    pub fn reserve(&mut self) -> Result<(), Memory>
        ensures items { self.new.items ≡ self.old.items }
        ensures room { OnOk result (0 < self.new.spare) }
    {
        self.items.reserve(1)?;
        Ok(())
    }

    /// Puts a failed call at the end, where there is room.
    pub fn add(&mut self, name: Bytes, call: ShelfCall)
        requires { 0 < self.old.spare }
        ensures { self.new.items ≡ self.old.items ++ (name, call) ∷ [] }
    {
        match self.items.push((name, call)) {
            Ok(()) => {}
            Err(_) => unreachable!(),
        }
    }
}
