ghost use Rattle.std.specs.Prelude.{◌≡◌, ℕ, [], ◌-◌, ◌<◌, ◌≤◌, All, IfNone, IfSome, MatchOption, OnErr, OnOk, max, vec_len};
ghost use Rattle.cc_timer.specs.Deadlines.{with_deadline, without_deadline, AreInOrder, IsFirst};
ghost use Rattle.cc_timer.specs.declared.who.Who.{Who};

use crate::tree::{Fork, Tree};
use crate::who::Who;
use cc_base::{Memory, Pid};
use std::alloc::Global;
use std::marker::Model;
use std::mem;

/// The deadlines that stand, an ordered set of a moment in milliseconds and who waits for it, and for how many more there is
/// room. It keeps its allocator.
#[derive(Drop)]
pub struct Timers {
    tree: Tree,
    nodes: Vec<Box<Fork>>,
    spare: usize,
}

impl Model for Timers {
    ghost use Rattle.std.specs.Prelude.{◌≤◌, vec_len};
    ghost use Rattle.cc_timer.specs.Deadlines.{Deadlines, AreInOrder};

    ghost Value = { Deadlines };

    ghost view = { λ t. record { pairs = t.tree; spare = t.spare } };

    ghost invariant = { λ t. AreInOrder t.tree × (t.spare ≤ vec_len t.nodes) };
}

impl Timers {
    /// No deadline, and no room.
    pub fn new(alloc: Global) -> Timers
        ensures { result ≡ record { pairs = []; spare = 0 } }
    {
        Timers {
            tree: Tree::new(),
            nodes: Vec::new(alloc),
            spare: 0,
        }
    }

    /// Makes room for at least this many more. After an error nothing has changed.
    pub fn reserve(&mut self, more: usize) -> Result<(), Memory>
        ensures room { OnOk result (self.new ≡ record self.old { spare = max more self.old.spare }) }
        ensures unchanged { OnErr result (self.new ≡ self.old) }
    {
        fill(&mut self.nodes, more)?;
        self.spare = self.spare.max(more);
        Ok(())
    }

    /// Adds the deadline, and takes up one place of the room.
    pub fn add(&mut self, moment: u64, who: Who)
        requires { 0 < self.old.spare }
        ensures { self.new ≡ record { pairs = with_deadline (moment, who) self.old.pairs; spare = self.old.spare - 1 } }
    {
        let Some(mut node) = self.nodes.pop() else {
            unreachable!()
        };
        self.spare -= 1;
        node.deadline = (moment, who);
        self.tree = mem::replace(&mut self.tree, Tree::new()).insert(node);
    }

    /// Takes the deadline out, where it is there. Nothing else changes.
    pub fn remove(&mut self, moment: u64, who: Who)
        ensures { self.new ≡ record self.old { pairs = without_deadline (moment, who) self.old.pairs } }
    {
        self.tree = mem::replace(&mut self.tree, Tree::new()).remove((moment, who));
    }

    /// Who waits for the first deadline, where its moment has come; none exactly where no moment has.
    pub fn first_due(&self, now: u64) -> Option<Who>
        ensures none { IfNone result (All (λ d. now < d.0) self.now.pairs) }
        ensures first { IfSome result (λ who. (moment : ℕ) × (moment ≤ now) × IsFirst (moment, who) self.now.pairs) }
    {
        match self.tree.first() {
            Some((moment, who)) if moment <= now => Some(who),
            _ => None,
        }
    }

    /// The earliest moment; none exactly where no deadline stands.
    pub fn earliest(&self) -> Option<u64>
        ensures { MatchOption result (self.now.pairs ≡ []) (λ moment. (who : Who) × IsFirst (moment, who) self.now.pairs) }
    {
        let (moment, _who) = self.tree.first()?;
        Some(moment)
    }
}

// Makes nodes until there are as many as this.
fn fill(nodes: &mut Vec<Box<Fork>>, count: usize) -> Result<(), Memory>
    ensures more { vec_len nodes.old ≤ vec_len nodes.new }
    ensures enough { OnOk result (count ≤ vec_len nodes.new) }
{
    let alloc = *nodes.allocator();
    for _ in nodes.len()..count {
        nodes.push(Box::new(alloc, blank())?)?;
    }
    Ok(())
}

// A node for a deadline to come.
fn blank() -> Fork {
    Fork {
        left: Tree::new(),
        deadline: (0, Who::Process(Pid(0))),
        height: 1,
        right: Tree::new(),
    }
}
