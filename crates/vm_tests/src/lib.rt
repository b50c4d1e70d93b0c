//! Tests of the stack machine. They stand apart from the library, since a crate with tests is proved twice.
//!
//! [`building`] and [`driving`] are for other crates of tests, too, and [`asks_again`] is for bench/machine.py.
#![tactic(auto)]

mod again;
pub mod building;
pub mod driving;
#[cfg(test)]
mod meetings;
#[cfg(test)]
mod programs;
#[cfg(test)]
mod ranks;
#[cfg(test)]
mod requests;
#[cfg(test)]
mod table;

pub use again::asks_again;
