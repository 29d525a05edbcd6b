//! Why a tree isn't written.
use std::alloc::{AllocError, AllocFailed};

/// There is no memory left, or a number of the tree doesn't fit its field.
#[derive(Debug, Clone, Copy, PartialEq, Eq, Drop)]
pub struct Memory;

impl From<AllocError> for Memory {
    fn from(_: AllocError) -> Memory {
        Memory
    }
}

impl<T: Drop> From<AllocFailed<T>> for Memory {
    fn from(_: AllocFailed<T>) -> Memory {
        Memory
    }
}
