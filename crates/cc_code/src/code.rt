use crate::instr::Instr;
use cc_base::{Bytes, Shape};
use sqlite_items::Items;

/// A function, or the body of a kind of process.
#[derive(Clone, Copy, Debug, Drop)]
pub struct Part {
    /// The address at which it begins.
    pub entry: u16,
    /// How many cells its arguments have. They stand first among its variable cells.
    pub args: u32,
    /// How many variable cells it has, the arguments among them.
    pub cells: u64,
    /// How many cells its value has.
    pub value: u32,
}

/// Cells of a variable that an environment takes.
#[derive(Clone, Copy, Debug, Drop)]
pub struct EnvironmentPart {
    pub offset: u64,
    pub cells: u32,
}

/// An accept site.
#[derive(Debug, Drop)]
pub struct Site {
    /// The transaction that it accepts.
    pub trans: u32,
    /// The offset at which the arguments of the call that was taken are stored.
    pub into: u64,
    /// The cells of its environment, in order.
    pub env: Items<EnvironmentPart>,
    /// Where the fragment of `suchthat` begins.
    pub such: Option<u16>,
    /// Where the fragment of `by` begins.
    pub by: Option<u16>,
}

/// Where a `select` goes on once an alternative was taken.
#[derive(Clone, Copy, Debug, Drop)]
pub struct TableEntry {
    /// The alternative's number, as written.
    pub alt: u32,
    /// The site of an accept; none for a delay, an immediate alternative and the collective end.
    pub site: Option<u32>,
    pub address: u16,
}

/// Code of which nothing is known.
#[derive(Drop)]
pub struct RawCode {
    pub instrs: Items<Instr>,
    /// For each instruction, how many cells the operand stack of its part has before it.
    pub heights: Items<u32>,
    pub functions: Items<Part>,
    /// The kinds of processes, `main` first.
    pub kinds: Items<Part>,
    pub transactions: Items<Shape>,
    pub sites: Items<Site>,
    /// For each `select` the entries of its alternatives.
    pub tables: Items<Items<TableEntry>>,
    pub formats: Items<Bytes>,
}
