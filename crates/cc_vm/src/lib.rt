//! The stack machine, which does what code means.
//!
//! [`fit`] says which rank a call has at an accept site. It evaluates the fragments of the site's clauses on a fixed stack of 64
//! cells, and takes no memory. [`Image`] is code as a program, and [`Vm`] a process of it, which runs from each grant up to what it
//! asks next.
#![tactic(auto)]

mod arms;
mod asks;
mod calls;
mod clauses;
mod fragment;
mod going;
mod growth;
mod lists;
mod machine;
mod marks;
mod moves;
mod offers;
mod operands;
mod pauses;
mod phase;
mod prints;
mod ranks;
mod registers;
mod resumes;
mod room;
mod selects;
mod starts;
mod variables;
mod vm;

pub use ranks::fit;
pub use vm::{Image, Vm};
