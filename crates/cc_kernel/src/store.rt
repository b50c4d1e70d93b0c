use crate::deadlines::Deadlines;
use crate::pending::Pending;
use crate::seats::Seats;
use crate::served::Served;
use cc_base::Bytes;

/// What the kernel keeps of the state that the machine is in.
#[derive(Drop)]
pub struct Store<P> {
    pub seats: Seats<P>,
    pub pending: Pending,
    pub served: Served,
    /// How many call numbers were drawn.
    pub drawn: u32,
    /// The whole input.
    pub input: Bytes,
    /// How much of the input was taken.
    pub taken: usize,
    /// The moment, in milliseconds.
    pub moment: u64,
    pub deadlines: Deadlines,
    /// The most cells that the value of a call has which a process took so far.
    pub most: usize,
}
