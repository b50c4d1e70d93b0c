ghost use Rattle.std.specs.Prelude.{◌≡◌, ℕ, ℤ, [], ◌∷◌, ◌++◌, ◌-◌, ◌<◌, ◌≤◌, None, Some, All, Contains, IfNone, IfSome, MatchOption, OnErr, OnOk, filter, max, nat_eq, not, false, true};
ghost use Rattle.std.specs.HashMap.{spare};
ghost use Rattle.std.specs.Option.{option_map};
ghost use Rattle.slab.specs.Slab.{HasRoomFor};
ghost use Rattle.cc_queue.specs.Chains.{is_lane};
ghost use Rattle.cc_queue.specs.Room.{HasMore, HasMoreIn};
ghost use Rattle.cc_queue.specs.Calls.{AreRising, call_numbered, pending_call};
ghost use Rattle.cc_queue.specs.Choice.{better, is_chosen, rank};
ghost use Rattle.cc_queue.specs.declared.call.PendingCall.{PendingCall};

use crate::call::PendingCall;
use crate::chains::{AllEnds, first, link, unlink};
use crate::node::{Chain, Neighbours, Node};
use cc_base::{Behave, CallId, Cells, Memory, Pid};
use slab::Slab;
use std::alloc::Global;
use std::collections::HashMap;
use std::marker::Model;

/// The pending calls in the order asked, which is that of their numbers, and for how many more there is room. It keeps its
/// allocator.
#[derive(Drop)]
pub struct Queues {
    nodes: Slab<Node>,
    slots: HashMap<u32, usize>,
    transactions: AllEnds,
    targets: AllEnds,
    spare: usize,
}

impl Model for Queues {
    ghost use Rattle.cc_queue.specs.Calls.{CallList};

    ghost Value = { CallList };

    ghost use Rattle.cc_queue.specs.Kept.{in_order, held_calls, AreKept};
    ghost use Rattle.cc_queue.specs.Chains.{ends_at};
    ghost use Rattle.std.specs.HashMap.{get, spare as left_in};
    ghost use Rattle.std.specs.Prelude.{nat_eq};

    ghost view = { λ q. record { calls = in_order (held_calls q.nodes.slots); spare = q.spare } };

    ghost invariant = { λ q. AreKept q.nodes (get nat_eq q.slots) (ends_at q.transactions) (ends_at q.targets) q.spare (left_in q.slots) (left_in q.transactions) (left_in q.targets) };
}

impl Queues {
    /// No call, and no room.
    pub fn new(alloc: Global) -> Queues
        ensures { result ≡ record { calls = []; spare = 0 } }
    {
        Queues {
            nodes: Slab::new(alloc),
            slots: HashMap::new(alloc),
            transactions: HashMap::new(alloc),
            targets: HashMap::new(alloc),
            spare: 0,
        }
    }

    /// The calls stand in the order of their numbers, and no two have one number. This is a law: it looks at the calls, which are
    /// kept so, and does nothing.
    pub fn numbers_rise(&self)
        ensures rising { AreRising self.now.calls }
    {
        let _kept = &self.nodes;
    }

    /// Makes room for at least this many more. After an error nothing has changed.
    pub fn reserve(&mut self, more: usize) -> Result<(), Memory>
        ensures room { OnOk result (self.new ≡ record self.old { spare = max more self.old.spare }) }
        ensures unchanged { OnErr result (self.new ≡ self.old) }
    {
        let wanted = self.spare.max(more);
        make_room(
            &mut self.nodes,
            &mut self.slots,
            &mut self.transactions,
            &mut self.targets,
            wanted,
        )?;
        self.spare = wanted;
        Ok(())
    }

    /// Adds a call, the last of all, and takes up one place of the room.
    pub fn add(&mut self, call: CallId, target: Pid, trans: u32, args: Cells)
        requires room { 0 < self.old.spare }
        requires last { All (λ c. c.number.0 < call.0) self.old.calls }
        ensures { self.new ≡ record { calls = self.old.calls ++ pending_call call target trans args ∷ []; spare = self.old.spare - 1 } }
    {
        let number = call.0;
        let node = Node {
            call: PendingCall {
                number: call,
                target,
                trans,
                args,
            },
            of_transaction: Neighbours::none(),
            of_target: Neighbours::none(),
        };
        let slot = self.nodes.insert_reserved(node);
        let _ = self.slots.insert(number, slot);
        self.spare -= 1;
        let lane = Chain::Transaction.lane(target, trans);
        link(
            &mut self.nodes,
            &mut self.transactions,
            Chain::Transaction,
            lane,
            slot,
        );
        let lane = Chain::Target.lane(target, trans);
        link(
            &mut self.nodes,
            &mut self.targets,
            Chain::Target,
            lane,
            slot,
        );
    }

    /// The call at this target of this transaction that an accept at this site takes in this environment: that of the least
    /// rank, and of these the one that was asked first. None exactly where no call fits.
    pub fn best<B: Behave>(
        &self,
        code: &B,
        target: Pid,
        trans: u32,
        site: u32,
        env: &Cells,
    ) -> Option<CallId>
        ensures none { IfNone result (All (λ c. rank (B.means code.now) target.0 trans site env.now c ≡ None) self.now.calls) }
        ensures chosen { IfSome result (λ number. (c : PendingCall) × Contains self.now.calls c × (c.number ≡ number) × (is_chosen (B.means code.now) target.0 trans site env.now self.now.calls c ≡ true)) }
        ensures found { IfSome result (λ number. (c : PendingCall) × (call_numbered self.now.calls number.0 ≡ Some c) × (c.number ≡ number) × (is_chosen (B.means code.now) target.0 trans site env.now self.now.calls c ≡ true)) }
    {
        let mut best = None;
        let mut at = first(&self.transactions, Chain::Transaction.lane(target, trans));
        while let Some(slot) = at {
            let node = &self.nodes[slot];
            let call = &node.call;
            best = better(best, call.number, code.fit(site, env, &call.args));
            at = node.neighbours(Chain::Transaction).after;
        }
        let Some((number, _rank)) = best else {
            return None;
        };
        Some(number)
    }

    /// Takes the call out and gives it; none exactly where it is not there. All other calls stay.
    pub fn take(&mut self, call: CallId) -> Option<PendingCall>
        ensures call { result ≡ call_numbered self.old.calls call.0 }
        ensures others { self.new ≡ record self.old { calls = filter (λ c. not (nat_eq c.number.0 call.0)) self.old.calls } }
    {
        let Some(slot) = self.slots.remove(&call.0) else {
            return None;
        };
        let asked = &self.nodes[slot].call;
        let (target, trans) = (asked.target, asked.trans);
        let lane = Chain::Transaction.lane(target, trans);
        unlink(
            &mut self.nodes,
            &mut self.transactions,
            Chain::Transaction,
            lane,
            slot,
        );
        let lane = Chain::Target.lane(target, trans);
        unlink(
            &mut self.nodes,
            &mut self.targets,
            Chain::Target,
            lane,
            slot,
        );
        let node = self.nodes.remove(slot);
        Some(node.call)
    }

    /// Takes the call out and gives its arguments; none exactly where it is not there. All other calls stay.
    pub fn remove(&mut self, call: CallId) -> Option<Cells>
        ensures args { result ≡ option_map (λ c. c.args) (call_numbered self.old.calls call.0) }
        ensures others { self.new ≡ record self.old { calls = filter (λ c. not (nat_eq c.number.0 call.0)) self.old.calls } }
    {
        let Some(taken) = self.take(call) else {
            return None;
        };
        Some(taken.args)
    }

    /// Removes every call of the target. All other calls stay.
    pub fn drop_all(&mut self, target: Pid)
        ensures { self.new ≡ record self.old { calls = filter (λ c. not (nat_eq c.target.0 target.0)) self.old.calls } }
    {
        while let Some(call) = self.first_at(target) {
            self.drop_call(call);
        }
    }

    fn drop_call(&mut self, call: CallId)
        ensures { self.new ≡ record self.old { calls = filter (λ c. not (nat_eq c.number.0 call.0)) self.old.calls } }
    {
        let _args = self.remove(call);
    }

    /// The first call of the target in the order asked; none exactly where it has none.
    pub fn first_at(&self, target: Pid) -> Option<CallId>
        ensures only { IfSome result (λ number. (c : PendingCall) → Contains self.now.calls c → c.number.0 ≡ number.0 → c.target.0 ≡ target.0) }
        ensures call { MatchOption result (All (λ c. nat_eq c.target.0 target.0 ≡ false) self.now.calls) (λ number. (c : PendingCall) × Contains self.now.calls c × (c.number ≡ number) × (c.target ≡ target)) }
        ensures others { IfSome result (λ number. filter (λ d. not (nat_eq d.target.0 target.0)) (filter (λ d. not (nat_eq d.number.0 number.0)) self.now.calls) ≡ filter (λ d. not (nat_eq d.target.0 target.0)) self.now.calls) }
        ensures first { IfSome result (λ number. (c : PendingCall) × (call_numbered self.now.calls number.0 ≡ Some c) × (c.number ≡ number) × (filter (λ d. nat_eq d.target.0 target.0) self.now.calls ≡ c ∷ filter (λ d. nat_eq d.target.0 target.0) (filter (λ d. not (nat_eq d.number.0 number.0)) self.now.calls))) }
    {
        let Some(slot) = first(&self.targets, Chain::Target.lane(target, 0)) else {
            return None;
        };
        Some(self.nodes[slot].call.number)
    }
}

// Makes room for this many calls in each. Nothing else changes, also after an error.
fn make_room(
    nodes: &mut Slab<Node>,
    slots: &mut HashMap<u32, usize>,
    transactions: &mut AllEnds,
    targets: &mut AllEnds,
    wanted: usize,
) -> Result<(), Memory>
    ensures nodes { HasMore nodes.old nodes.new }
    ensures slots { HasMoreIn nat_eq slots.old slots.new }
    ensures transactions { HasMoreIn is_lane transactions.old transactions.new }
    ensures targets { HasMoreIn is_lane targets.old targets.new }
    ensures room { OnOk result (HasRoomFor nodes.new wanted × (wanted ≤ spare slots.new) × (wanted ≤ spare transactions.new) × (wanted ≤ spare targets.new)) }
{
    nodes.reserve(wanted)?;
    slots.reserve(wanted)?;
    transactions.reserve(wanted)?;
    targets.reserve(wanted)?;
    Ok(())
}

// The better of the best call so far and one that was asked later: that of the least rank, the earlier on a tie.
fn better(best: Option<(CallId, i64)>, number: CallId, rank: Option<i64>) -> Option<(CallId, i64)>
    ensures { result ≡ better best number rank }
{
    let Some(rank) = rank else {
        return best;
    };
    match best {
        Some((_, least)) if least <= rank => best,
        _ => Some((number, rank)),
    }
}
