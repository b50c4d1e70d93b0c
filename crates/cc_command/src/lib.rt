//! The command: the words that it takes, what the text means that it reads, the run, and the status and the report that tell
//! how it ended.
//!
//! [`command_one`] is all that the program does, over any shelf, input, output and clock: its contract is the theorem of
//! the whole. [`run_host`] is the program, over those of the system. Any text may be given to it. One of more than [`MOST_TEXT_BYTES`] bytes is refused before it is read.
#![tactic(auto)]

mod cause;
mod command;
mod form;
mod host;
mod laws;
mod program;
mod report;
mod running;
mod status;
mod text;
mod text_fault;
mod words;

pub use cause::{Cause, Ending};
pub use command::{Finished, command_one};
pub use host::run_host;
pub use laws::{no_faulty_program, one_fault, one_program};
pub use report::{report_out_of_memory, write_report};
pub use text::{MOST_TEXT_BYTES, read_program};
pub use text_fault::{ReadError, TextFault, TextFaultKind};
pub use words::{Words, words_given};
