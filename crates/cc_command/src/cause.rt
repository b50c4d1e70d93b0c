use crate::text_fault::TextFault;
use cc_rules::Faults;

/// Why the command did not do what was asked, or not all of it.
#[derive(Clone, Copy, Debug, Drop, PartialEq, Eq)]
pub enum Cause {
    /// The words are not those of a command.
    Usage,
    /// The text has a fault.
    Text(TextFault),
    /// The file could not be read.
    Shelf,
    /// The output failed.
    Write,
    /// It was out of memory.
    Memory,
}

/// How a run ended that went as far as it goes.
#[derive(Debug, Drop)]
pub enum Ending {
    /// Every process has ended, none by a fault.
    Well,
    /// Every process has ended, these by a fault.
    Faulted(Faults),
    /// No process can ever go on.
    Stuck,
    /// The allowed turns are used up.
    Spent,
}
