//! A journal as text, both ways.
//!
//! [`write_journal`] gives the text of a journal, [`read_journal`] the journal of a text, or the number of the first line
//! that is no event's. `specs/Text.antt` says what the text of an event is: its name, then what it says, each after one
//! space, and a newline. Numbers are decimal without leading zeros. A text is that of one journal at most, and the empty
//! text is that of the empty journal. `specs/Reading.antt` is the way in which the code reads a line.
//!
//! # Input safety
//!
//! Any bytes may be read. A text is read once from its front, in time that grows with its length; nothing recurses, and
//! nothing of it is copied. What is made takes memory for the events that were read before the first bad line.
#![tactic(auto)]

mod fault;
mod laws;
mod names;
mod numbers;
mod reading;
mod writing;

pub use fault::TraceError;
pub use laws::{different_texts, each_text_is_read, lines_end_at_newlines, one_bad_line};
pub use reading::read_journal;
pub use writing::write_journal;
