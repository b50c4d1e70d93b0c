//! Tests of the text of journals. They stand apart from the library, since a crate with tests is proved twice.
#![tactic(auto)]

#[cfg(test)]
mod lines;
