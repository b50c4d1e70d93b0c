use crate::tree::{Function, Kind, Site, Transaction};
use crate::types::Structure;
use cc_base::Bytes;
use sqlite_items::Items;

/// The parts of a program, of which nothing is known.
#[derive(Drop)]
pub struct ProgramParts {
    /// In the order of declaration: each names earlier ones only.
    pub structures: Items<Structure>,
    /// `main` first, and then the process types as written.
    pub kinds: Items<Kind>,
    pub functions: Items<Function>,
    pub transactions: Items<Transaction>,
    /// Each stands in one accept of the bodies.
    pub sites: Items<Site>,
    pub formats: Items<Bytes>,
}
