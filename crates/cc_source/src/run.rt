ghost use Rattle.std.specs.Prelude.{◌≡◌};
ghost use Rattle.cc_source.specs.declared.run.Unfinished.TheVariants as unfinished;

use cc_base::{Grant, Memory, Request};
use sqlite_items::Items;
use std::alloc::AllocError;

/// Why an evaluation is unfinished.
#[derive(Drop)]
pub(crate) enum Unfinished {
    /// It has asked, and no grant was left.
    Asked(Request),
    /// It is out of memory.
    Memory,
}

impl From<AllocError> for Unfinished {
    ghost from_gives = { λ _ e. e ≡ unfinished.Memory };

    fn from(_error: AllocError) -> Unfinished {
        Unfinished::Memory
    }
}

impl From<Memory> for Unfinished {
    ghost from_gives = { λ _ e. e ≡ unfinished.Memory };

    fn from(_error: Memory) -> Unfinished {
        Unfinished::Memory
    }
}

/// Where an evaluation stands: the cells of each variable, and the grants and ticks that are left.
#[derive(Drop)]
pub(crate) struct Run<'g> {
    pub scope: Items<Items<i64>>,
    pub grants: &'g [Grant],
    pub ticks: u32,
}
