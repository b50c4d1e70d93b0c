//! Runs a program on the kernel: processes take turns, and what they print goes to a sink.
//!
//! [`drive`] does so with one worker and without a clock. Whatever stops a run, its journal is a settled run of the
//! rendezvous machine, and what the sink took is what that journal prints, or a first part of it (`specs/Driven`).
#![tactic(auto)]

mod driven;
mod driving;

pub use driven::{Driven, Stop};
pub use driving::drive;
