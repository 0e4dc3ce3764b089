//! The errors of failed allocations.

use std::alloc::{AllocError, AllocFailed};

/// An allocation failed.
#[derive(Debug, Clone, Copy, PartialEq, Eq)]
pub struct NoMemory;

/// An allocation failed at a byte of a run.
#[derive(Debug, Clone, Copy, PartialEq, Eq)]
pub struct NoMemoryAt {
    /// The number of bytes of the run that were pushed before that byte.
    pub taken: usize,
}

impl From<AllocError> for NoMemory {
    fn from(_refused: AllocError) -> NoMemory {
        NoMemory
    }
}

impl<T: Drop> From<AllocFailed<T>> for NoMemory {
    fn from(_refused: AllocFailed<T>) -> NoMemory {
        NoMemory
    }
}
