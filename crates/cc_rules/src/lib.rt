//! The rendezvous machine: its events, what its processes and calls are, and the journal of a run.
//!
//! Processes ask, and the machine decides when calls and processes meet. What a state is, when an event is legal and
//! what it does stand in `specs/`: `State`, `Effects`, `Choice`, `Ends`, `Events`, `Runs`, `Standing`, `Stops`. What holds
//! of every run is said by the functions without a body that this crate makes public, over `Sound`, `Accepted` and `Alike`.
#![tactic(auto)]

mod event;
mod faults;
mod journal;
mod laws;
mod process;

pub use event::{Event, Standing, Word};
pub use faults::Faults;
pub use journal::Journal;
pub use laws::{
    accepts_are_chosen, alike_programs_are_so_both_ways, alike_programs_run_alike,
    alike_programs_stand_alike, calls_are_taken_once, complete_and_stuck_are_final, running_stays,
    runs_go_on, settles_by_test, settling_is_quiet, sound_runs, the_end_is_last,
};
pub use process::{ProcessStanding, TransactionCall, Waiting};
