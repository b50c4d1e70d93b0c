//! What is visible at each point of a text, and what its declarations say.
//!
//! [`Visible`] is seen as the `Scope` of cc_faults' specs.
#![tactic(auto)]

mod announced;
mod bodies;
mod enumerations;
mod functions;
mod heads;
mod heads_so_far;
mod known;
mod leaves;
mod lengths;
mod lists;
mod lookups;
mod names;
mod outcomes;
mod seen;
mod sites;
mod structures;
mod sums;
mod types;
mod visible;
mod written;

pub use announced::at_start;
pub use bodies::names_once;
pub use functions::Tables;
pub use known::{Known, text_of};
pub use names::Hidden;
pub use seen::Seen;
pub use visible::Visible;
