ghost use Rattle.std.specs.Prelude.{◌≡◌, [], ◌+◌, ◌<◌, ◌≤◌, OnErr, OnOk, IfOk, MatchOption, None, Some, true, false, ℕ, if◌then◌else◌, nat_eq};
ghost use Rattle.std.specs.HashMap.{get, spare};
ghost use Rattle.std.specs.Option.{option_map};
ghost use Rattle.cc_kernel.specs.Counted.{may_terminate};
ghost use Rattle.cc_kernel.specs.Seats.{seat_at, served_call};
ghost use Rattle.cc_kernel.specs.Stacks.{IsInnermost, depth_of, is_place, none_served, one_more, served_by};

use crate::seats::Seats;
use cc_base::{CallId, Memory, Pid};
use cc_rules::{TransactionCall, Waiting};
use std::alloc::Global;
use std::collections::HashMap;
use std::marker::Model;

/// A call without its target and its arguments: what has to be known of it to answer it.
#[derive(Clone, Copy, Debug, Drop, PartialEq, Eq)]
pub struct ServedCall {
    pub number: CallId,
    pub trans: u32,
    pub waiting: Waiting,
}

/// The call without its target and its arguments.
pub(crate) fn served_call(call: &TransactionCall) -> ServedCall
    ensures { result ≡ served_call call.now }
{
    ServedCall {
        number: call.number,
        trans: call.trans,
        waiting: call.waiting,
    }
}

/// The calls that each process serves, as a stack in the order accepted, with room for more.
#[derive(Drop)]
pub struct Served {
    // each call, by the process that serves it and how many calls it serves around that one
    calls: HashMap<(u32, u32), ServedCall>,
    // how many calls a process serves, where it has served one
    depths: HashMap<u32, u32>,
    // no process has served more calls at once
    deepest: u32,
    spare: u32,
}

impl Model for Served {
    ghost use Rattle.std.specs.Prelude.{nat_eq};
    ghost use Rattle.std.specs.HashMap.{get, spare as left_in};
    ghost use Rattle.cc_kernel.specs.Lists.{ServedCalls};
    ghost use Rattle.cc_kernel.specs.Stacks.{AreStacked, is_place};

    ghost Value = { ServedCalls };

    ghost view = { λ c. record { calls = c.calls.entries; depths = c.depths.entries; spare = c.spare } };

    ghost invariant = { λ c. AreStacked (get is_place c.calls) (get nat_eq c.depths) c.deepest c.spare (left_in c.calls) (left_in c.depths) };
}

impl Served {
    pub(crate) fn new(alloc: Global) -> Served
        ensures { served_by result ≡ (λ p. []) }
    {
        Served {
            calls: HashMap::new(alloc),
            depths: HashMap::new(alloc),
            deepest: 0,
            spare: 0,
        }
    }

    /// Makes room for one more. After an error nothing has changed.
    pub(crate) fn reserve_one(&mut self) -> Result<(), Memory>
        ensures by { served_by self.new ≡ served_by self.old }
        ensures ok { OnOk result (0 < self.new.spare) }
        ensures spare { self.old.spare ≤ self.new.spare }
    {
        if self.spare > 0 {
            return Ok(());
        }
        if self.deepest == u32::MAX {
            return Err(Memory);
        }
        make_room(&mut self.calls, &mut self.depths)?;
        self.spare = 1;
        Ok(())
    }

    /// The process serves this call within the others that it serves. This takes one place of the room that was made before.
    pub(crate) fn add(&mut self, server: Pid, call: ServedCall)
        requires { 0 < self.old.spare }
        ensures by { served_by self.new ≡ one_more (served_by self.old) server.0 call }
    {
        let depth = depth_at(&self.depths, server.0);
        put_call(&mut self.calls, server.0, depth, call);
        put_depth(&mut self.depths, server.0, depth + 1);
        self.deepest = self.deepest.max(depth + 1);
        self.spare -= 1;
    }

    /// Takes out the innermost call that the process serves, which is the one accepted last.
    pub(crate) fn take_innermost(&mut self, server: Pid) -> Option<ServedCall>
        ensures spare { self.old.spare ≤ self.new.spare }
        ensures call { MatchOption result ((self.new ≡ self.old) × (served_by self.old server.0 ≡ [])) (λ call. IsInnermost server.0 call (served_by self.old) (served_by self.new)) }
    {
        let depth = depth_at(&self.depths, server.0);
        if depth == 0 {
            return None;
        }
        let Some(call) = take_call(&mut self.calls, server.0, depth - 1) else {
            unreachable!()
        };
        set_depth(&mut self.depths, server.0, depth - 1);
        Some(call)
    }

    /// The process serves no call any more.
    pub(crate) fn drop_all(&mut self, server: Pid)
        ensures by { served_by self.new ≡ none_served (served_by self.old) server.0 }
        ensures spare { self.old.spare ≤ self.new.spare }
    {
        while let Some(_call) = self.take_innermost(server) {}
    }

    /// No process that has `terminate` among its alternatives serves a call any more.
    pub(crate) fn drop_terminating<P: Drop>(&mut self, seats: &Seats<P>)
        ensures { served_by self.new ≡ (λ p. if may_terminate (seat_at seats.now.items p).standing then [] else served_by self.old p) }
    {
        for at in 0..seats.len() {
            self.drop_where_terminating(seats, at);
        }
    }

    // The process serves no call any more, where it has `terminate` among its alternatives.
    fn drop_where_terminating<P: Drop>(&mut self, seats: &Seats<P>, at: usize)
        ensures { served_by self.new ≡ (if may_terminate (seat_at seats.now.items at).standing then none_served (served_by self.old) at else served_by self.old) }
    {
        if let Some(pid) = seats.terminating(at) {
            self.drop_all(pid);
        }
    }
}

// Makes room for one more in each. Nothing else changes, also after an error.
fn make_room(
    calls: &mut HashMap<(u32, u32), ServedCall>,
    depths: &mut HashMap<u32, u32>,
) -> Result<(), Memory>
    ensures calls { (q : ℕ × ℕ) → get is_place calls.new q ≡ get is_place calls.old q }
    ensures depths { (p : ℕ) → get nat_eq depths.new p ≡ get nat_eq depths.old p }
    ensures more { (spare calls.old ≤ spare calls.new) × (spare depths.old ≤ spare depths.new) }
    ensures ok { OnOk result ((1 ≤ spare calls.new) × (1 ≤ spare depths.new)) }
{
    calls.reserve(1)?;
    depths.reserve(1)?;
    Ok(())
}

// How many calls the process serves.
fn depth_at(depths: &HashMap<u32, u32>, server: u32) -> u32
    ensures { result ≡ depth_of (get nat_eq depths.now server) }
{
    match depths.get(&server) {
        Some(depth) => *depth,
        None => 0,
    }
}

// The process serves so many calls from now on.
fn put_depth(depths: &mut HashMap<u32, u32>, server: u32, depth: u32)
    requires { 0 < spare depths.old }
    ensures at { (p : ℕ) → get nat_eq depths.new p ≡ (if nat_eq server p then Some depth else get nat_eq depths.old p) }
    ensures spare { spare depths.old ≤ spare depths.new + 1 }
{
    let _ = depths.insert(server, depth);
}

// The process serves so many calls from now on, where it has served one before.
fn set_depth(depths: &mut HashMap<u32, u32>, server: u32, depth: u32)
    ensures at { (p : ℕ) → get nat_eq depths.new p ≡ (if nat_eq server p then option_map (λ d. depth) (get nat_eq depths.old p) else get nat_eq depths.old p) }
    ensures spare { spare depths.old ≤ spare depths.new }
{
    if let Some(here) = depths.get_mut(&server) {
        *here = depth;
    }
}

// The process serves this call, and so many around it.
fn put_call(calls: &mut HashMap<(u32, u32), ServedCall>, server: u32, around: u32, call: ServedCall)
    requires { 0 < spare calls.old }
    ensures at { (q : ℕ × ℕ) → get is_place calls.new q ≡ (if is_place (server, around) q then Some call else get is_place calls.old q) }
    ensures spare { spare calls.old ≤ spare calls.new + 1 }
{
    let _ = calls.insert((server, around), call);
}

// Takes out the call that the process serves with so many around it.
fn take_call(
    calls: &mut HashMap<(u32, u32), ServedCall>,
    server: u32,
    around: u32,
) -> Option<ServedCall>
    ensures call { result ≡ get is_place calls.old (server, around) }
    ensures at { (q : ℕ × ℕ) → get is_place calls.new q ≡ (if is_place (server, around) q then None else get is_place calls.old q) }
    ensures spare { spare calls.old ≤ spare calls.new }
{
    calls.remove(&(server, around))
}
