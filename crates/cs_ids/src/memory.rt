// Want of memory, the one answer that any call may give for no other cause.
use std::alloc::{AllocError, AllocFailed};

/// Want of memory. A call that answers so leaves its value as before, unless it says otherwise.
#[derive(Clone, Copy, PartialEq, Eq, Debug)]
pub struct Memory;

impl From<AllocError> for Memory {
    fn from(_: AllocError) -> Self {
        Memory
    }
}

impl<T: Drop> From<AllocFailed<T>> for Memory {
    fn from(_: AllocFailed<T>) -> Self {
        Memory
    }
}
