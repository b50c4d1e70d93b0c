//! What is found of a text without a fault is typed: expressions, clauses of accepts, statements, and the whole program.
#![tactic(auto)]

mod examples;
mod laws;

pub use laws::{clauses_are_pure, expressions_are_typed, programs_are_typed, statements_are_typed};
