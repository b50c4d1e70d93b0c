//! The numbers of a text's names, and its plain tree.
//!
//! `specs/Names` says what the numbers of names are, `specs/Mentions` which names and which formats a text has, in the order of the text,
//! and `specs/Plains` what the plain tree of a text is. None has a rule of the language in it.
#![tactic(auto)]

mod code_mentions;
mod item_mentions;
mod laws;
mod mentions;
mod phrases;
mod statements;
mod strings;
mod text;
mod written;

pub use laws::{first_fault_of_a_text, numbers_tell_names};
pub use text::plain;
