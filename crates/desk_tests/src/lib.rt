//! Tests of the desk, with a small value for it to hold: a tray, which has a sink, a journal and a list of what is out. They
//! stand apart from the library, since a crate with tests is proved twice.
#![tactic(auto)]

mod start;
#[cfg(test)]
mod tests;
mod tray;
mod work;

pub use start::Start;
pub use tray::{MemSink, Sink, Tray};
pub use work::{
    by_two, count, hand_in, hand_out, in_turn, keep, keep_often, keep_together, one_event, spread,
    step,
};
