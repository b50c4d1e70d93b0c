//! The calls that wait to be accepted, so kept that asking, choosing and removing one costs the same whether sixteen processes
//! wait or four thousand.
//!
//! [`Queues`] is seen as the list of the pending calls in the order asked. It keeps them in a slab. The calls of each target
//! and transaction stand in a chain of their own, each with the one before it and the one after it, and so do all calls of
//! each target; the ends of a chain, and the slot of a call, are found by hashing. So `add` and `remove` take constant time,
//! `best` walks the calls of one target and transaction alone, and `drop_all` takes the target's calls alone.
//!
//! Room is made beforehand by `reserve`, and no other call takes memory.
#![tactic(auto)]

mod call;
mod chains;
mod node;
mod queues;

pub use call::PendingCall;
pub use queues::Queues;
