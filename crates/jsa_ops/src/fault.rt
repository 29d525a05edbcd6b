use std::alloc::{AllocError, AllocFailed};

/// Why no instruction stands at a place.
#[derive(Debug, Clone, Copy, PartialEq, Eq, Drop)]
pub enum OpFault {
    /// This byte stands there, or behind wide, and names no instruction there (JVMS 6.5, wide).
    BadOpcode(u8),
    /// The operands pass the end of the code.
    Cut,
    /// A tableswitch has low above high, or a lookupswitch a negative count or keys that don't ascend (JVMS 4.9.1).
    BadOperand,
}

/// There is no memory left.
#[derive(Debug, Clone, Copy, PartialEq, Eq, Drop)]
pub struct Memory;

impl From<AllocError> for Memory {
    fn from(_: AllocError) -> Memory {
        Memory
    }
}

impl<T: Drop> From<AllocFailed<T>> for Memory {
    fn from(_: AllocFailed<T>) -> Memory {
        Memory
    }
}
