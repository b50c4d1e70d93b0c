//! The deadlines of a run: who waits until which moment.
//!
//! [`Timers`] is an ordered set of pairs of a moment, in milliseconds, and [`Who`] waits for it. The pair that is due first
//! is the least: that of the earliest moment, and at one moment processes go before calls, each by number.
//!
//! Room is made beforehand by `reserve`, so that no other call takes memory. `add`, `remove` and the least pair take time with
//! the logarithm of the number of pairs, which no clause says.
#![tactic(auto)]

mod timers;
mod tree;
mod who;

pub use timers::Timers;
pub use who::Who;
