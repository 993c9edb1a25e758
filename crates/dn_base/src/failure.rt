use std::alloc::{AllocError, AllocFailed};

/// A call of a device failed. It moved no bytes.
#[derive(Clone, Copy, PartialEq, Eq)]
pub struct Failed;

/// There wasn't enough memory. Borrowed values are as before the call, unless the call says otherwise.
#[derive(Clone, Copy, Debug, PartialEq, Eq)]
pub struct Memory;

impl From<AllocError> for Memory {
    fn from(_error: AllocError) -> Memory {
        Memory
    }
}

impl<T: Drop> From<AllocFailed<T>> for Memory {
    fn from(_error: AllocFailed<T>) -> Memory {
        Memory
    }
}
