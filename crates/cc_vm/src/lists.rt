//! What the machine keeps of a process.

use crate::registers::{Frame, Registers};

/// The operands of all parts of a process and their variable cells, the calls that are active, and where the part that runs stands.
/// The lists may be longer than what stands in them.
#[derive(Drop)]
pub(crate) struct Lists {
    pub stack: Vec<i64>,
    pub cells: Vec<i64>,
    pub frames: Vec<Frame>,
    pub registers: Registers,
}
