ghost use Rattle.std.specs.Prelude.{◌≤◌};

use cc_base::Memory;
use cc_timer::{Timers, Who};
use std::alloc::Global;

/// Deadlines, and for how many more there is room.
#[derive(Drop)]
pub struct Due {
    timers: Timers,
    room: usize,
    ghost in_room: { room ≤ timers.spare },
}

impl Due {
    pub fn new(alloc: Global) -> Due {
        Due {
            timers: Timers::new(alloc),
            room: 0,
        }
    }

    /// Makes room for at least this many more.
    pub fn reserve(&mut self, more: usize) -> Result<(), Memory> {
        self.timers.reserve(more)?;
        self.room = self.room.max(more);
        Ok(())
    }

    /// Adds the deadline, where there is room for it.
    pub fn add(&mut self, moment: u64, who: Who) {
        if self.room > 0 {
            self.timers.add(moment, who);
            self.room -= 1;
        }
    }

    pub fn remove(&mut self, moment: u64, who: Who) {
        self.timers.remove(moment, who);
    }

    pub fn first_due(&self, now: u64) -> Option<Who> {
        self.timers.first_due(now)
    }

    pub fn earliest(&self) -> Option<u64> {
        self.timers.earliest()
    }
}
