//! The rows of the table of faults as functions, and what is made of parts without a fault.
//!
//! A row takes what was answered of its part, notes a fault where there is one, and answers what is known behind it. A part that isn't
//! good is handed on, and nothing is noted of it; so a caller need not ask whether a part was good.
#![tactic(auto)]

pub mod accepts;
pub mod around;
pub mod calls;
pub mod fields;
pub mod found;
pub mod given;
pub mod made;
pub mod phrases;
pub mod places;
pub mod rows;
pub mod statements;
pub mod sums;
pub mod values;
