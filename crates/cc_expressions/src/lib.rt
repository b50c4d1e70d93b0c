//! What readers of tokens are made of, and the readers of expressions.
#![tactic(auto)]

mod cursor;
mod expressions;
mod leaves;
mod nesting;
mod operands;
mod rows;
mod simple;
mod starts;

pub use cursor::{CHARACTER, Cursor, NAME, NUMBER, STRING, Stop, key, sign};
pub use leaves::{before, character_length, format, identifier, number_length};
pub use nesting::{assign, refused};
pub use operands::Operands;
pub use simple::Simple;
pub use starts::{
    begins_assign, begins_control, begins_entry, begins_item, begins_jump, begins_statement,
    begins_type,
};
