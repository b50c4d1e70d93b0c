//! The rendezvous machine over plain lists: it takes one event after the other, and refuses each that the machine doesn't
//! allow where it stands.
//!
//! The definitions of the machine (`State`, `Effects`, `Choice`, `Ends` and `Events` in the specs of cc_rules) are total
//! functions over lists. Here they stand as a program over lists, one function for each definition, and each has its
//! definition as its contract. [`Plain`] is the machine in the state after the events that it took.
//!
//! What is kept (`PlainState`) is the state of the machine itself: the processes with all their grants, the pending calls and
//! the rest, seen as the `State` of the definitions. An event is done to a copy, which takes the place of the old state when all
//! memory has been taken. What a process asks is found by starting it anew and giving it all its grants. So a step costs as
//! much as the whole state and all grants: this is the machine to compare others with, and not one to run programs on.
#![tactic(auto)]

mod alternatives;
mod change;
mod choice;
mod copies;
mod deadlines;
mod ends;
mod events;
mod plain;
mod process;
mod requests;
mod state;
mod timing;

pub use plain::{Plain, StepError};
