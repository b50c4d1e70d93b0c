ghost use Rattle.std.specs.Prelude.{◌≡◌, MatchBool, ℕ, List, [], ◌∷◌, ◌++◌, IfOk, IfErr, OnErr, OnOk};
ghost use Rattle.cc_desk.specs.Lists.{Apart};

use crate::start::Start;
use cc_desk::Held;
use std::alloc::{AllocError, Global};
use std::marker::Model;

/// Takes numbers, each at the end of what it holds.
pub trait Sink: Drop {
    ghost content: { Self → List ℕ };

    fn put(&mut self, x: u64) -> Result<(), AllocError>
        ensures ok { OnOk result (content self.new ≡ content self.old ++ x ∷ []) }
        ensures err { OnErr result (self.new ≡ self.old) };
}

/// A sink, the events that were printed to it, and what is out.
#[derive(Drop)]
pub struct Tray<K: Sink> {
    sink: K,
    journal: Vec<u64>,
    outs: Vec<(u32, u64)>,
}

impl<K: Sink> Model for Tray<K> {
    ghost use Rattle.desk_tests.specs.Seen.{Seen, coded_seen};
    ghost use Rattle.cc_desk.specs.Lists.{Apart};

    ghost Value = { Seen K };

    ghost coded = { coded_seen K.code };

    ghost view = { λ t. record { sink = t.sink; journal = t.journal.items; outs = t.outs.items } };

    ghost invariant = { λ t. Apart t.outs.items };
}

impl<K: Sink> Held for Tray<K> {
    type Root = Start;

    type Event = u64;

    type Grants = u64;

    ghost start = { λ t. record { marker = record {}; content = K.content t.sink } };

    ghost events = { λ t. t.journal };

    ghost outs = { λ t. t.outs };

    ghost since = { λ t root. (K.content t.sink ≡ root.content ++ t.journal) × Apart t.outs };

    ghost outs_apart = { λ t root h. h.1 };
}

impl<K: Sink> Tray<K> {
    pub fn new(alloc: Global, sink: K) -> Tray<K>
        ensures { (result.sink ≡ sink) × (result.journal ≡ []) × (result.outs ≡ []) }
    {
        Tray {
            sink,
            journal: Vec::new(alloc),
            outs: Vec::new(alloc),
        }
    }

    /// Adds an event, and prints it.
    pub fn add(&mut self, event: u64) -> Result<(), AllocError>
        ensures ok { OnOk result ((self.new.journal ≡ self.old.journal ++ event ∷ []) × (K.content self.new.sink ≡ K.content self.old.sink ++ event ∷ [])) }
        ensures err { OnErr result ((self.new.journal ≡ self.old.journal) × (self.new.sink ≡ self.old.sink)) }
        ensures outs { self.new.outs ≡ self.old.outs }
        ensures since { (root : _) → ⟦<Tray<K> as Held>⟧.since self.old root → ⟦<Tray<K> as Held>⟧.since self.new root }
    {
        self.journal.reserve(1)?;
        self.sink.put(event)?;
        self.journal.push_reserved(event);
        Ok(())
    }

    /// Sends a process out, unless one is out, or there is no memory.
    pub fn send_out(&mut self, pid: u32, grants: u64) -> bool
        ensures outs { MatchBool result (self.new.outs ≡ self.old.outs ++ (pid, grants) ∷ []) (self.new.outs ≡ self.old.outs) }
        ensures rest { (self.new.journal ≡ self.old.journal) × (self.new.sink ≡ self.old.sink) }
        ensures apart { Apart self.new.outs }
    {
        let outs = &mut self.outs;
        if outs.len() > 0 || outs.reserve(1).is_err() {
            return false;
        }
        outs.push_reserved((pid, grants));
        true
    }

    /// Drops the events. A tray that did this may not go back to its desk.
    pub fn forget(&mut self)
        ensures { (self.new.journal ≡ []) × (self.new.sink ≡ self.old.sink) × (self.new.outs ≡ self.old.outs) }
    {
        self.journal.clear();
    }

    pub fn len(&self) -> usize {
        self.journal.len()
    }
}

/// A sink in memory.
#[derive(Drop)]
pub struct MemSink {
    items: Vec<u64>,
}

impl Model for MemSink {
    ghost Value = { List ℕ };

    ghost view = { λ s. s.items.items };
}

impl MemSink {
    pub fn new(alloc: Global) -> MemSink
        ensures { result ≡ [] }
    {
        MemSink {
            items: Vec::new(alloc),
        }
    }
}

impl Tray<MemSink> {
    /// Drops what the sink holds. A tray that did this may not go back to its desk.
    pub fn empty_sink(&mut self)
        ensures { (self.new.sink ≡ []) × (self.new.journal ≡ self.old.journal) × (self.new.outs ≡ self.old.outs) }
    {
        self.sink.items.clear();
    }
}

impl Sink for MemSink {
    ghost content = { λ s. s };

    fn put(&mut self, x: u64) -> Result<(), AllocError> {
        self.items.push(x)?;
        Ok(())
    }
}
