//! Tests of code and its verification. They stand apart from the library, since a crate with tests is proved twice.
#![tactic(auto)]

#[cfg(test)]
mod building;
#[cfg(test)]
mod names;
#[cfg(test)]
mod rows;
#[cfg(test)]
mod rules;
