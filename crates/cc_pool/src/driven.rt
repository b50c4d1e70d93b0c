use cc_rules::{Faults, Journal, Standing};

/// Why a run went no further.
#[derive(Clone, Copy, Debug, Drop, PartialEq, Eq)]
pub enum Stop {
    /// It came to its end, or is stuck, or has used up its turns.
    Over,
    /// The sink failed.
    Write,
    /// It was out of memory.
    Memory,
}

/// What a run leaves.
#[derive(Drop)]
pub struct Driven<K> {
    /// The sink, which took what the run prints, or a first part of it.
    pub out: K,
    /// The events of the run.
    pub journal: Journal,
    /// The processes that were stopped by a fault, by number.
    pub faults: Faults,
    /// How the run stands.
    pub standing: Standing,
    /// Why it went no further.
    pub stop: Stop,
}
