// The chains of one kind: a map from each chain's key to its ends, and the links of the nodes. Each chain has its calls by
// rising number.
ghost use Rattle.std.specs.Prelude.{◌≡◌, ℕ, ◌+◌, ◌^◌, ◌<◌, ◌≤◌, ◌&&◌, None, Some, if◌then◌else◌};
ghost use Rattle.std.specs.HashMap.{spare};
ghost use Rattle.std.specs.Option.{option_map};
ghost use Rattle.cc_queue.specs.Chains.{but, ends_at, first_moved, has_last, is_end, is_lane, is_slot, last_moved, links, with_after, with_before, IsChained, IsWritten, Link, Standing};

use crate::node::{Chain, Neighbours, Node};
use slab::Slab;
use std::collections::HashMap;

/// The first and the last call of a chain, by their slots.
#[derive(Clone, Copy, Drop)]
pub(crate) struct Ends {
    pub(crate) first: usize,
    pub(crate) last: usize,
}

/// The ends of each chain of a kind that has calls.
pub(crate) type AllEnds = HashMap<(u32, u32), Ends>;

fn set_before(nodes: &mut Slab<Node>, chain: Chain, slot: usize, before: Option<usize>)
    ensures { IsWritten chain slot (with_before before) nodes.old nodes.new }
{
    if let Some(node) = nodes.get_mut(slot) {
        node.set_before(chain, before);
    }
}

fn set_after(nodes: &mut Slab<Node>, chain: Chain, slot: usize, after: Option<usize>)
    ensures { IsWritten chain slot (with_after after) nodes.old nodes.new }
{
    if let Some(node) = nodes.get_mut(slot) {
        node.set_after(chain, after);
    }
}

// Makes the slot the last of the chain, and answers the one that was.
fn put_last(ends: &mut AllEnds, lane: (u32, u32), slot: usize) -> Option<usize>
    requires { 0 < spare ends.old }
    ensures was { result ≡ option_map (λ e. e.last) (ends_at ends.old lane) }
    ensures ends { (q : ℕ × ℕ) → ends_at ends.new q ≡ (if is_lane lane q then Some (has_last slot (ends_at ends.old lane)) else ends_at ends.old q) }
    ensures spare { spare ends.old ≤ spare ends.new + 1 }
{
    if let Some(here) = ends.get_mut(&lane) {
        let last = here.last;
        here.last = slot;
        return Some(last);
    }
    let alone = Ends {
        first: slot,
        last: slot,
    };
    let _ = ends.insert(lane, alone);
    None
}

// Makes the slot the first of the chain, which is over where there is none.
fn set_first(ends: &mut AllEnds, lane: (u32, u32), first: Option<usize>)
    ensures ends { (q : ℕ × ℕ) → ends_at ends.new q ≡ (if is_lane lane q then first_moved first (ends_at ends.old lane) else ends_at ends.old q) }
    ensures spare { spare ends.old ≤ spare ends.new }
{
    let Some(first) = first else {
        ends.remove(&lane);
        return;
    };
    if let Some(here) = ends.get_mut(&lane) {
        here.first = first;
    }
}

// Makes the slot the last of the chain, which is over where there is none.
fn set_last(ends: &mut AllEnds, lane: (u32, u32), last: Option<usize>)
    ensures ends { (q : ℕ × ℕ) → ends_at ends.new q ≡ (if is_lane lane q then last_moved last (ends_at ends.old lane) else ends_at ends.old q) }
    ensures spare { spare ends.old ≤ spare ends.new }
{
    let Some(last) = last else {
        ends.remove(&lane);
        return;
    };
    if let Some(here) = ends.get_mut(&lane) {
        here.last = last;
    }
}

/// The first call of the chain, by its slot.
pub(crate) fn first(ends: &AllEnds, lane: (u32, u32)) -> Option<usize>
    ensures { result ≡ option_map (λ e. e.first) (ends_at ends.now lane) }
{
    ends.get(&lane).map(|here| here.first)
}

// Puts the slot after the call that was last, where there is one.
fn put_after(nodes: &mut Slab<Node>, chain: Chain, last: Option<usize>, slot: usize)
    ensures written { (t : ℕ) → links chain nodes.new t ≡ (if is_slot last t then option_map (with_after (Some slot)) (links chain nodes.old t) else links chain nodes.old t) }
    ensures standing { Standing chain nodes.old nodes.new }
{
    if let Some(last) = last {
        set_after(nodes, chain, last, Some(slot));
    }
}

/// Puts a node that is in no chain of this kind yet, and whose number is above all others, at the end of its chain.
pub(crate) fn link(
    nodes: &mut Slab<Node>,
    ends: &mut AllEnds,
    chain: Chain,
    lane: (u32, u32),
    slot: usize,
)
    requires room { 0 < spare ends.old }
    requires others { IsChained (but slot (links chain nodes.old)) (ends_at ends.old) }
    requires node { (x : Link) × (links chain nodes.old slot ≡ Some x) × (x.lane ≡ lane) × (x.after ≡ None) × (x.number < 2 ^ 32) × ((t : ℕ) (y : Link) → but slot (links chain nodes.old) t ≡ Some y → y.number < x.number) }
    ensures chained { IsChained (links chain nodes.new) (ends_at ends.new) }
    ensures standing { Standing chain nodes.old nodes.new }
    ensures spare { spare ends.old ≤ spare ends.new + 1 }
{
    let last = put_last(ends, lane, slot);
    put_after(nodes, chain, last, slot);
    set_before(nodes, chain, slot, last);
}

// Gives the call before a call that goes, or the chain where there is none, the call after it.
fn mend_before(
    nodes: &mut Slab<Node>,
    ends: &mut AllEnds,
    chain: Chain,
    lane: (u32, u32),
    gone: Neighbours,
)
    ensures written { (t : ℕ) → links chain nodes.new t ≡ (if is_slot gone.before t then option_map (with_after gone.after) (links chain nodes.old t) else links chain nodes.old t) }
    ensures standing { Standing chain nodes.old nodes.new }
    ensures ends { (q : ℕ × ℕ) → ends_at ends.new q ≡ (if is_end gone.before && is_lane lane q then first_moved gone.after (ends_at ends.old lane) else ends_at ends.old q) }
    ensures spare { spare ends.old ≤ spare ends.new }
{
    match gone.before {
        Some(before) => set_after(nodes, chain, before, gone.after),
        None => set_first(ends, lane, gone.after),
    }
}

// Gives the call after a call that goes, or the chain where there is none, the call before it.
fn mend_after(
    nodes: &mut Slab<Node>,
    ends: &mut AllEnds,
    chain: Chain,
    lane: (u32, u32),
    gone: Neighbours,
)
    ensures written { (t : ℕ) → links chain nodes.new t ≡ (if is_slot gone.after t then option_map (with_before gone.before) (links chain nodes.old t) else links chain nodes.old t) }
    ensures standing { Standing chain nodes.old nodes.new }
    ensures ends { (q : ℕ × ℕ) → ends_at ends.new q ≡ (if is_end gone.after && is_lane lane q then last_moved gone.before (ends_at ends.old lane) else ends_at ends.old q) }
    ensures spare { spare ends.old ≤ spare ends.new }
{
    match gone.after {
        Some(after) => set_before(nodes, chain, after, gone.before),
        None => set_last(ends, lane, gone.before),
    }
}

/// Takes a node out of its chain of this kind. The node's own links stay as they are.
pub(crate) fn unlink(
    nodes: &mut Slab<Node>,
    ends: &mut AllEnds,
    chain: Chain,
    lane: (u32, u32),
    slot: usize,
)
    requires chained { IsChained (links chain nodes.old) (ends_at ends.old) }
    requires node { (x : Link) × (links chain nodes.old slot ≡ Some x) × (x.lane ≡ lane) }
    ensures others { IsChained (but slot (links chain nodes.new)) (ends_at ends.new) }
    ensures standing { Standing chain nodes.old nodes.new }
    ensures spare { spare ends.old ≤ spare ends.new }
{
    let Some(node) = nodes.get(slot) else {
        return;
    };
    let gone = node.neighbours(chain);
    mend_before(nodes, ends, chain, lane, gone);
    mend_after(nodes, ends, chain, lane, gone);
}
