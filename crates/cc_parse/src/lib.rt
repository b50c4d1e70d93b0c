//! The parser: from the tokens of a text to its tree.
#![tactic(auto)]

mod accepts;
mod blocks;
mod controls;
mod declarations;
mod fors;
mod jumps;
mod locals;
mod nesting;
mod parsing;
mod selects;
mod sources;
mod statements;

pub use cc_grammar::{ParseError, Tree};
pub use parsing::parse;
