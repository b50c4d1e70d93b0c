use std::alloc::{AllocError, AllocFailed};

/// Out of memory: a growth was refused.
#[derive(Clone, Copy, Debug, Drop, PartialEq, Eq)]
pub struct Memory;

impl From<AllocError> for Memory {
    fn from(_error: AllocError) -> Memory {
        Memory
    }
}

impl<T> From<AllocFailed<T>> for Memory
where
    T: Drop,
{
    fn from(_error: AllocFailed<T>) -> Memory {
        Memory
    }
}
