//! The checker of names and types: what is found of a text, as the definition in cc_faults says it.
//!
//! Each function that judges a phrase has two clauses: `value` says what is answered, and `noted` that the first of its faults is noted.
#![tactic(auto)]

mod accepts;
mod checker;
mod expressions;
mod functions;
mod items;
mod locals;
mod made;
mod progress;
mod scene;
mod sites;
mod specifications;
mod statements;

pub use checker::Checker;
pub use scene::Scene;
