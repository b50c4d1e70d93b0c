//! Tests of the rendezvous machine, the kernel and one worker: worked programs against the definitions, and runs of programs
//! that follow a table.
#![tactic(auto)]

#[cfg(test)]
mod delays;
#[cfg(test)]
mod judged;
#[cfg(test)]
mod kernel;
#[cfg(test)]
mod lists;
mod ring;
#[cfg(test)]
mod rows;
mod tables;
#[cfg(test)]
mod timed;
mod waiting;
mod worked;

pub use ring::{Member, Phase, Ring, Stage, run_ring};
pub use tables::{Script, Step};
pub use waiting::run_waiting;
