use std::alloc::{AllocError, AllocFailed};
use thiserror::Error;

/// Want of memory. It is an error of its own everywhere: no call answers it for another cause, and
/// no other cause is answered by it.
#[derive(Clone, Copy, Debug, PartialEq, Eq, Error)]
#[error("out of memory")]
pub struct Memory;

impl From<AllocError> for Memory {
    fn from(_refused: AllocError) -> Memory {
        Memory
    }
}

impl<T: Drop> From<AllocFailed<T>> for Memory {
    fn from(_refused: AllocFailed<T>) -> Memory {
        Memory
    }
}
