ghost use Rattle.std.specs.Prelude.{◌≡◌, ◌+◌, ◌<◌, ◌≤◌, [], ◌∷◌, ◌++◌, length, slice_get, None, Some, MatchOption, OnOk, OnErr};

use crate::event::Event;
use cc_base::Memory;
use std::alloc::Global;
use std::marker::Model;

/// The events of a run, in their order, with room for more. It keeps its allocator.
#[derive(Debug, Drop)]
pub struct Journal {
    items: Vec<Event>,
}

impl Model for Journal {
    ghost use Rattle.std.specs.Prelude.{◌-◌, vec_len, vec_capacity};
    ghost use Rattle.cc_rules.specs.Lists.{EventList};

    ghost Value = { EventList };

    ghost view = { λ j. record { items = j.items.items; spare = vec_capacity j.items - vec_len j.items } };
}

impl Journal {
    /// The empty journal, with no room.
    pub fn new(alloc: Global) -> Journal
        ensures items { result.items ≡ [] }
        ensures spare { result.spare ≡ 0 }
    {
        Journal {
            items: Vec::new(alloc),
        }
    }

    pub fn len(&self) -> usize
        ensures len { result ≡ length self.now.items }
    {
        self.items.len()
    }

    /// The event at this index, from 0; none exactly past the end.
    pub fn get(&self, at: usize) -> Option<&Event>
        ensures item { MatchOption result (slice_get self.now.items at ≡ None) (λ e. slice_get self.now.items at ≡ Some e.now) }
    {
        self.items.get(at)
    }

    /// Puts the event at the end. After an error nothing has changed.
    pub fn push(&mut self, event: Event) -> Result<(), Memory>
        ensures ok { OnOk result (self.new.items ≡ self.old.items ++ event ∷ []) }
        ensures err { OnErr result (self.new ≡ self.old) }
    {
        self.reserve(1)?;
        self.items.push_reserved(event);
        Ok(())
    }

    /// Makes room for at least this many more events. After an error nothing has changed.
    pub fn reserve(&mut self, more: usize) -> Result<(), Memory>
        ensures items { self.new.items ≡ self.old.items }
        ensures ok { OnOk result (more ≤ self.new.spare) }
        ensures err { OnErr result (self.new ≡ self.old) }
    {
        self.items.reserve(more)?;
        Ok(())
    }

    /// Puts the event at the end, in the room that was made before, of which it uses at most one.
    pub fn add(&mut self, event: Event)
        requires { 0 < self.old.spare }
        ensures items { self.new.items ≡ self.old.items ++ event ∷ [] }
        ensures spare { self.old.spare ≤ self.new.spare + 1 }
    {
        self.items.push_reserved(event);
    }
}
