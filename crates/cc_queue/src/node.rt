// A pending call with its neighbours in the two chains in which it stands.
ghost use Rattle.std.specs.Prelude.{◌≡◌};
ghost use Rattle.cc_queue.specs.Chains.{lane_of, link_of, other_chain, with_after, with_before};

use crate::call::PendingCall;
use cc_base::Pid;

/// A chain in which a call stands.
#[derive(Clone, Copy, Drop)]
pub(crate) enum Chain {
    /// The calls of its target and its transaction.
    Transaction,
    /// All calls of its target.
    Target,
}

/// The neighbours in a chain, by their slots.
#[derive(Clone, Copy, Drop)]
pub(crate) struct Neighbours {
    pub(crate) before: Option<usize>,
    pub(crate) after: Option<usize>,
}

#[derive(Drop)]
pub(crate) struct Node {
    pub(crate) call: PendingCall,
    pub(crate) of_transaction: Neighbours,
    pub(crate) of_target: Neighbours,
}

impl Chain {
    // The key of the chain of this kind in which the calls of this target and transaction stand.
    pub(crate) fn lane(self, target: Pid, trans: u32) -> (u32, u32)
        ensures { result ≡ lane_of self target.0 trans }
    {
        match self {
            Chain::Transaction => (target.0, trans),
            Chain::Target => (target.0, 0),
        }
    }
}

impl Neighbours {
    // Those of a call that is in no chain yet.
    pub(crate) fn none() -> Neighbours
        ensures { result ≡ record { before = None; after = None } }
    {
        Neighbours {
            before: None,
            after: None,
        }
    }
}

impl Node {
    pub(crate) fn neighbours(&self, chain: Chain) -> Neighbours
        ensures before { result.before ≡ (link_of chain self.now).before }
        ensures after { result.after ≡ (link_of chain self.now).after }
    {
        match chain {
            Chain::Transaction => self.of_transaction,
            Chain::Target => self.of_target,
        }
    }

    pub(crate) fn set_before(&mut self, chain: Chain, before: Option<usize>)
        ensures link { link_of chain self.new ≡ with_before before (link_of chain self.old) }
        ensures other { link_of (other_chain chain) self.new ≡ link_of (other_chain chain) self.old }
        ensures call { self.new.call ≡ self.old.call }
    {
        match chain {
            Chain::Transaction => self.of_transaction.before = before,
            Chain::Target => self.of_target.before = before,
        }
    }

    pub(crate) fn set_after(&mut self, chain: Chain, after: Option<usize>)
        ensures link { link_of chain self.new ≡ with_after after (link_of chain self.old) }
        ensures other { link_of (other_chain chain) self.new ≡ link_of (other_chain chain) self.old }
        ensures call { self.new.call ≡ self.old.call }
    {
        match chain {
            Chain::Transaction => self.of_transaction.after = after,
            Chain::Target => self.of_target.after = after,
        }
    }
}
