//! What a typed program means: what each process asks after its grants, and which calls fit an accept.
//!
//! A [`Program`] is made of parts that are typed (`cc_typed`). Its meaning stands in `specs/`: `Meaning` for its phrases
//! and `Programs` for the whole. The evaluator gives that meaning on cells for straight programs, which `Straight` tells.
#![tactic(auto)]

mod cells;
mod checks;
mod early;
mod ending;
mod evaluator;
mod grants;
mod laws;
mod plain;
mod program;
mod run;
mod statements;

pub use cc_typed::{
    AcceptPart, Alternative, Argument, ChainStep, Change, Choice, Compared, Comparison, DataType,
    ElementType, Expression, Field, Function, Kind, Location, NumberType, Operation, Operator,
    PartStep, ProgramParts, Site, Statement, Structure, Transaction,
};
pub use early::{Early, EarlyProcess};
pub use grants::Grants;
pub use laws::{
    straight_expressions_give_values_of_their_types, worked_programs_ask_as_the_language_says,
};
pub use program::Program;
