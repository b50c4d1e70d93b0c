//! The pending calls, in queues. Who waits for the answer of each stands beside them.
ghost use Rattle.std.specs.Prelude.{◌≡◌, ℕ, [], ◌∷◌, ◌++◌, ◌+◌, ◌-◌, ◌<◌, ◌≤◌, None, Some, All, IfSome, MatchOption, OnErr, OnOk, false, true, if◌then◌else◌, nat_eq, not};
ghost use Rattle.std.specs.HashMap.{get, spare};
ghost use Rattle.std.specs.List.{filter, list_any};
ghost use Rattle.cc_kernel.specs.Asked.{who_waits};
ghost use Rattle.cc_rules.specs.Choice.{call_numbered, is_chosen, is_eligible};
ghost use Rattle.cc_rules.specs.Effects.{is_for};
ghost use Rattle.cc_rules.specs.declared.process.TransactionCall.{TransactionCall};

use cc_base::{Alt, Behave, CallId, Memory, Pid};
use cc_queue::Queues;
use cc_rules::{TransactionCall, Waiting};
use std::alloc::Global;
use std::collections::HashMap;
use std::marker::Model;

/// The pending calls in the order asked, which is that of their numbers, with room for more.
#[derive(Drop)]
pub struct Pending {
    queues: Queues,
    // who waits for the answer of each, by its number
    waiters: HashMap<u32, Waiting>,
}

impl Model for Pending {
    ghost use Rattle.std.specs.Prelude.{◌≤◌, map, nat_eq};
    ghost use Rattle.std.specs.HashMap.{get, spare as left_in};
    ghost use Rattle.cc_kernel.specs.Asked.{asked_call};
    ghost use Rattle.cc_kernel.specs.Lists.{CallList};

    ghost Value = { CallList };

    ghost view = { λ p. record { items = map (asked_call (get nat_eq p.waiters)) p.queues.calls; spare = p.queues.spare } };

    ghost invariant = { λ p. (p.queues.spare ≤ left_in p.waiters) × (p.queues.spare ≤ 1) };
}

impl Pending {
    pub(crate) fn new(alloc: Global) -> Pending
        ensures { result.items ≡ [] }
    {
        Pending {
            queues: Queues::new(alloc),
            waiters: HashMap::new(alloc),
        }
    }

    /// Makes room for one more. After an error nothing has changed.
    pub(crate) fn reserve_one(&mut self) -> Result<(), Memory>
        ensures items { self.new.items ≡ self.old.items }
        ensures ok { OnOk result (0 < self.new.spare) }
        ensures err { OnErr result (self.new ≡ self.old) }
    {
        make_room(&mut self.waiters)?;
        self.queues.reserve(1)
    }

    /// Puts the call at the end, in the room that was made before.
    pub(crate) fn add(&mut self, call: TransactionCall)
        requires room { 0 < self.old.spare }
        requires last { All (λ c. c.number.0 < call.number.0) self.old.items }
        ensures { self.new.items ≡ self.old.items ++ call ∷ [] }
    {
        note(&mut self.waiters, call.number.0, call.waiting);
        self.queues
            .add(call.number, call.target, call.trans, call.args);
    }

    /// Takes the call of this number out; none exactly where it is not there. All other calls stay.
    pub(crate) fn take(&mut self, number: CallId) -> Option<TransactionCall>
        ensures call { result ≡ call_numbered self.old.items number.0 }
        ensures others { self.new ≡ record self.old { items = filter (λ call. not (nat_eq call.number.0 number.0)) self.old.items } }
    {
        let Some(call) = self.queues.take(number) else {
            return None;
        };
        let waiting = forget(&mut self.waiters, number.0);
        Some(TransactionCall {
            number: call.number,
            target: call.target,
            trans: call.trans,
            args: call.args,
            waiting,
        })
    }

    /// The first call of the target; none exactly where it has none.
    pub(crate) fn first_at(&self, target: Pid) -> Option<CallId>
        ensures first { MatchOption result (filter (is_for target.0) self.now.items ≡ []) (λ number. (call : TransactionCall) × (call_numbered self.now.items number.0 ≡ Some call) × (filter (is_for target.0) self.now.items ≡ call ∷ filter (is_for target.0) (filter (λ other. not (nat_eq other.number.0 number.0)) self.now.items))) }
        ensures others { IfSome result (λ number. filter (λ call. not (is_for target.0 call)) (filter (λ other. not (nat_eq other.number.0 number.0)) self.now.items) ≡ filter (λ call. not (is_for target.0 call)) self.now.items) }
    {
        self.queues.first_at(target)
    }

    /// The call that is chosen for the alternative of this process; none exactly where none is eligible.
    pub(crate) fn best<B: Behave>(&self, code: &B, pid: Pid, alt: &Alt) -> Option<CallId>
        ensures { MatchOption result (list_any (is_eligible (B.means code.now) pid.0 alt.now) self.now.items ≡ false) (λ number. (call : TransactionCall) × (call_numbered self.now.items number.0 ≡ Some call) × (is_chosen (B.means code.now) pid.0 alt.now self.now.items call ≡ true)) }
    {
        match alt {
            Alt::Accept { trans, site, env } => self.queues.best(code, pid, *trans, *site, env),
            _ => None,
        }
    }
}

// Makes room for one more. Nothing else changes, also after an error.
fn make_room(waiters: &mut HashMap<u32, Waiting>) -> Result<(), Memory>
    ensures at { (n : ℕ) → get nat_eq waiters.new n ≡ get nat_eq waiters.old n }
    ensures more { spare waiters.old ≤ spare waiters.new }
    ensures ok { OnOk result (1 ≤ spare waiters.new) }
{
    waiters.reserve(1)?;
    Ok(())
}

// Tells who waits for the call of this number.
fn note(waiters: &mut HashMap<u32, Waiting>, number: u32, waiting: Waiting)
    requires { 0 < spare waiters.old }
    ensures at { (n : ℕ) → get nat_eq waiters.new n ≡ (if nat_eq number n then Some waiting else get nat_eq waiters.old n) }
    ensures spare { spare waiters.old ≤ spare waiters.new + 1 }
{
    let _ = waiters.insert(number, waiting);
}

// Gives who waits for the call of this number, and tells it no more.
fn forget(waiters: &mut HashMap<u32, Waiting>, number: u32) -> Waiting
    ensures waiting { result ≡ who_waits (get nat_eq waiters.old number) }
    ensures at { (n : ℕ) → get nat_eq waiters.new n ≡ (if nat_eq number n then None else get nat_eq waiters.old n) }
    ensures spare { spare waiters.old ≤ spare waiters.new }
{
    match waiters.remove(&number) {
        Some(waiting) => waiting,
        None => Waiting::Nobody,
    }
}
