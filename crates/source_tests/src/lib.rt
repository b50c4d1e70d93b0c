//! Tests of the typed tree and of what it means. They stand apart from the libraries, since a crate with tests is proved twice.
//!
//! [`trees`] is for other crates of tests, too.
#![tactic(auto)]

#[cfg(test)]
mod builders;
#[cfg(test)]
mod phrases;
#[cfg(test)]
mod programs;
#[cfg(test)]
mod straight;
#[cfg(test)]
mod structures;
pub mod trees;
