//! The typed tree of a text, and when it is typed.
//!
//! [`ProgramParts`] are the parts of a program, whose names are numbers and whose types are written in the tree. What a
//! value and its cells are stands in `specs/`: `Layout`, `Values`, `Table`; when the parts are typed in `Typed`, which
//! [`typed_program`] decides.
#![tactic(auto)]

mod accepts;
mod clauses;
mod formats;
mod known;
mod laws;
mod parts;
mod tree;
mod typed;
mod typed_programs;
mod typed_statements;
mod types;

pub use cc_base::{Comparison, NumberType, Operator};
pub use clauses::{Own, note_variables};
pub use formats::numbers_taken;
pub use laws::{
    cells_and_values, cells_and_values_in_order, parts_of_cells, parts_of_types, paths_go_on,
    stored_values, tables_keep_layouts, types_are_the_same,
};
pub use parts::ProgramParts;
pub use tree::{
    AcceptPart, Alternative, Argument, ChainStep, Change, Choice, Compared, Expression, Function,
    Kind, Location, Operation, PartStep, Site, Statement, Transaction,
};
pub use typed_programs::typed_program;
pub use types::{DataType, ElementType, Field, Structure, cells_in, part_offset};
