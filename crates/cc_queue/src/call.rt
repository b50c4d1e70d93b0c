use cc_base::{CallId, Cells, Pid};

/// A call that waits to be accepted.
#[derive(Debug, Drop)]
pub struct PendingCall {
    pub number: CallId,
    pub target: Pid,
    pub trans: u32,
    pub args: Cells,
}
