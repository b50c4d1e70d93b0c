ghost use Rattle.std.specs.Prelude.{◌≡◌, ◌+◌, ◌<◌, ◌≤◌, ◌≢◌, [], ◌∷◌, ◌++◌, length, slice_get, All, None, Some, MatchOption, OnOk, OnErr, nat_lt};
ghost use Rattle.std.specs.List.{prefix_len};
ghost use Rattle.cc_rules.specs.Lists.{PidsRise, with_fault};

use cc_base::{FaultKind, Memory, Pid};
use std::alloc::Global;
use std::marker::Model;

/// The processes that were stopped by a fault, by number, with room for more. It keeps its allocator.
#[derive(Debug, Drop)]
pub struct Faults {
    items: Vec<(Pid, FaultKind)>,
}

impl Model for Faults {
    ghost use Rattle.std.specs.Prelude.{◌-◌, vec_len, vec_capacity};
    ghost use Rattle.cc_rules.specs.Lists.{FaultList, PidsRise};

    ghost Value = { FaultList };

    ghost view = { λ f. record { items = f.items.items; spare = vec_capacity f.items - vec_len f.items } };

    ghost invariant = { λ f. PidsRise f.items.items };
}

impl Faults {
    /// The empty list, with no room.
    pub fn new(alloc: Global) -> Faults
        ensures items { result.items ≡ [] }
        ensures spare { result.spare ≡ 0 }
    {
        Faults {
            items: Vec::new(alloc),
        }
    }

    pub fn len(&self) -> usize
        ensures len { result ≡ length self.now.items }
        ensures rising { PidsRise self.now.items }
    {
        self.items.len()
    }

    /// The process and its fault at this index, from 0; none exactly past the end.
    pub fn get(&self, at: usize) -> Option<&(Pid, FaultKind)>
        ensures item { MatchOption result (slice_get self.now.items at ≡ None) (λ f. slice_get self.now.items at ≡ Some f.now) }
    {
        self.items.get(at)
    }

    /// Puts a process of greater number at the end. After an error nothing has changed.
    pub fn push(&mut self, item: (Pid, FaultKind)) -> Result<(), Memory>
        requires { All (λ f. f.0.0 < item.0.0) self.old.items }
        ensures ok { OnOk result (self.new.items ≡ self.old.items ++ item ∷ []) }
        ensures err { OnErr result (self.new ≡ self.old) }
    {
        self.reserve(1)?;
        self.items.push_reserved(item);
        Ok(())
    }

    /// Makes room for at least this many more. After an error nothing has changed.
    pub fn reserve(&mut self, more: usize) -> Result<(), Memory>
        ensures items { self.new.items ≡ self.old.items }
        ensures ok { OnOk result (more ≤ self.new.spare) }
        ensures err { OnErr result (self.new ≡ self.old) }
    {
        self.items.reserve(more)?;
        Ok(())
    }

    /// Puts a process that is not there yet at its place by number, in the room that was made before, of which it uses at
    /// most one.
    pub fn add(&mut self, item: (Pid, FaultKind))
        requires room { 0 < self.old.spare }
        requires absent { All (λ f. f.0.0 ≢ item.0.0) self.old.items }
        ensures items { self.new.items ≡ with_fault self.old.items item }
        ensures spare { self.old.spare ≤ self.new.spare + 1 }
    {
        let at = self.place_of(item.0);
        match self.items.insert(at, item) {
            Ok(()) => {}
            Err(_) => unreachable!(),
        }
    }

    /// How many processes of smaller number there are.
    fn place_of(&self, pid: Pid) -> usize
        ensures { result ≡ prefix_len (λ f. nat_lt f.0.0 pid.0) self.now.items }
    {
        self.items.iter().take_while(|f| f.0.0 < pid.0).count()
    }
}
