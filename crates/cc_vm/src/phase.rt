use cc_base::FaultKind;

/// What the next grant finds.
#[derive(Clone, Copy, Debug, Drop)]
pub(crate) enum Phase {
    /// It is the first, and the process begins.
    Begins,
    /// It is the first, and the process is at fault.
    Faulty(FaultKind),
    /// It answers what was asked.
    Waits,
}
