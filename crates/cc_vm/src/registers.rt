use cc_base::FaultKind;

/// Where the machine stands in its lists of cells. The operands of the part that runs stand in a stack of cells, from `bottom` up to
/// before `top`; its variable cells in another list, from `first` up to before `end`.
#[derive(Clone, Copy, Debug, Drop)]
pub(crate) struct Registers {
    /// The address of the next instruction.
    pub at: usize,
    pub bottom: usize,
    pub top: usize,
    pub first: usize,
    pub end: usize,
    /// How many calls are active.
    pub calls: usize,
    /// The ticks that are left.
    pub ticks: u32,
    /// The instructions since the last grant or tick.
    pub count: u32,
}

/// A call that is active: where it goes back, and where the caller's operands and variable cells begin.
#[derive(Clone, Copy, Debug, Drop)]
pub(crate) struct Frame {
    pub back: usize,
    pub bottom: usize,
    pub first: usize,
}

/// Why the machine stopped before it went on.
#[derive(Clone, Copy, Debug, Drop)]
pub(crate) enum Stop {
    Fault(FaultKind),
    /// The next instruction is none that the loop performs: it asks, opens an alternative or ends.
    Other,
    /// There is no room for the call that is next.
    Room,
}
