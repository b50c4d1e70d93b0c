//! Tests of the pending calls and of the deadlines. They stand apart from the libraries, since a crate with tests is proved
//! twice.
//!
//! [`Asked`] and [`Due`] keep what their crates want of a caller, so that tests and measurements call what they like.
#![tactic(auto)]

mod asked;
mod by_first;
mod due;
#[cfg(test)]
mod queues;
#[cfg(test)]
mod timers;

pub use asked::Asked;
pub use due::Due;
