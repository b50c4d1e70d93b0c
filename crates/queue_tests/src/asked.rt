ghost use Rattle.std.specs.Prelude.{◌≡◌, ◌<◌, ◌≤◌, All};

use crate::by_first::ByFirst;
use cc_base::{CallId, Cells, Memory, Pid};
use cc_queue::Queues;
use std::alloc::Global;

/// Pending calls that are numbered as they are asked, and for how many more there is room.
#[derive(Drop)]
pub struct Asked {
    queues: Queues,
    next: u32,
    room: usize,
    ghost below: { All (λ c. c.number.0 < next) queues.calls },
    ghost in_room: { room ≤ queues.spare },
}

impl Asked {
    pub fn new(alloc: Global, room: usize) -> Result<Asked, Memory> {
        let mut queues = Queues::new(alloc);
        queues.reserve(room)?;
        Ok(Asked {
            queues,
            next: 0,
            room,
        })
    }

    /// Makes room for at least this many more.
    pub fn reserve(&mut self, more: usize) -> Result<(), Memory> {
        self.queues.reserve(more)?;
        self.room = self.room.max(more);
        Ok(())
    }

    /// Asks the next call, where there is room for it and a number.
    pub fn ask(&mut self, target: u32, trans: u32, args: Cells) {
        if self.room > 0 && self.next < u32::MAX {
            self.queues.add(CallId(self.next), Pid(target), trans, args);
            self.next += 1;
            self.room -= 1;
        }
    }

    /// The number of the call that is taken by the first cell of its arguments.
    pub fn best(&self, env: &Cells, target: u32, trans: u32) -> Option<u32> {
        let found = self.queues.best(&ByFirst, Pid(target), trans, 1, env)?;
        Some(found.0)
    }

    /// Takes the call of this number out, and gives its arguments.
    pub fn take(&mut self, number: u32) -> Option<Cells> {
        self.queues.remove(CallId(number))
    }

    /// Removes every call of the target.
    pub fn drop_all(&mut self, target: u32) {
        self.queues.drop_all(Pid(target));
    }
}
