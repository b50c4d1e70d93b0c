//! Tests of the base types, of arithmetic and of the outside world. They stand apart from the libraries, since a crate with tests
//! is proved twice.
#![tactic(auto)]

#[cfg(test)]
mod arithmetic;
#[cfg(test)]
mod base;
#[cfg(test)]
mod edges;
#[cfg(test)]
mod world;
