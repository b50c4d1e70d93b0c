//! The types that every layer speaks of: cells and bytes, what a process asks of the rendezvous machine, and what it
//! is granted.
//!
//! A value is kept as cells, 64-bit signed numbers. A process asks with a [`Request`] and goes on with a [`Grant`].
//! Processes and calls are numbered from 0 in the order in which they were made.
#![tactic(auto)]

mod alternatives;
pub mod arithmetic;
mod behave;
mod cells;
pub mod limits;
mod memory;
mod names;
mod numbers;
mod request;

pub use alternatives::{Alt, Alts};
pub use behave::Behave;
pub use cells::{Bytes, Cells};
pub use memory::Memory;
pub use names::{CallId, FaultKind, Pid, Place, Shape};
pub use numbers::{Comparison, NumberType, Operator};
pub use request::{Grant, Request};
