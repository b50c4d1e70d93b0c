//! The outside world: where bytes come from and go to, files, and clocks.
//!
//! [`Source`], [`Sink`], [`Shelf`] and [`Clock`] are traits, so that everything above them is proved for any outside
//! at all. Their ghost members say what an object holds, where it tells that, and their calls say what becomes of it.
//! An object counts its faults: a call answers [`IoFault::Failed`] only where that count rose, so a fault that is
//! reported further up has a cause here.
#![tactic(auto)]

mod calls;
mod clock;
mod fault;
mod mem_shelf;
mod memory;
mod misses;
mod moments;
mod script_clock;
mod shelf;
mod sink;
mod source;
mod step_clock;
mod streams;
mod system;

pub use clock::Clock;
pub use fault::{IoFault, ShelfCall};
pub use mem_shelf::MemShelf;
pub use memory::{MemSink, MemSource};
pub use moments::Moments;
pub use script_clock::ScriptClock;
pub use shelf::Shelf;
pub use sink::{Sink, write_all};
pub use source::Source;
pub use step_clock::StepClock;
pub use streams::{StdSink, StdSource};
pub use system::{DirShelf, RealClock};
