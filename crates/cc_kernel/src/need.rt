use cc_base::Cells;

/// For what the kernel is prepared, and what was made for it.
#[derive(Drop)]
pub enum Need<P> {
    /// Nothing.
    Nothing,
    /// A request that neither makes a process nor answers a call.
    Step,
    /// A Create of this kind with these arguments, for which this process was started.
    Making { kind: u32, args: Cells, process: P },
    /// A Reply: its value with so many zeros at its end.
    Answering { value: Cells, zeros: usize },
    /// A Time.
    Moment,
}
