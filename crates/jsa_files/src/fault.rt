//! Why a call of a store or of a sink was refused.
ghost use Rattle.std.specs.Prelude.{◌≡◌};
ghost use Rattle.jsa_files.specs.declared.fault.FilesFault.TheVariants as files;
ghost use Rattle.jsa_files.specs.declared.fault.SinkFault.TheVariants as sink;

use std::alloc::{AllocError, AllocFailed};

/// Why a call of a store of files was refused.
#[derive(Clone, Copy, Debug, PartialEq, Eq)]
pub enum FilesFault {
    /// The outside refused, and the store has counted that.
    Failed,
    /// The file has this size in bytes, which is above `MAX_FILE`.
    TooLarge(u64),
    /// The list has this many names, which are too many.
    TooMany(u64),
    /// Memory ran out. It is no fault of the outside, so no count rises.
    Memory,
}

/// Why a sink didn't take all of the bytes.
#[derive(Clone, Copy, Debug, PartialEq, Eq)]
pub enum SinkFault {
    /// The outside refused, and the sink has counted that.
    Failed,
    /// Memory ran out. It is no fault of the outside, so no count rises.
    Memory,
}

impl From<AllocError> for FilesFault {
    ghost from_gives = { λ _ e. e ≡ files.Memory };

    fn from(_: AllocError) -> FilesFault {
        FilesFault::Memory
    }
}

impl<T: Drop> From<AllocFailed<T>> for FilesFault {
    ghost from_gives = { λ _ e. e ≡ files.Memory };

    fn from(_: AllocFailed<T>) -> FilesFault {
        FilesFault::Memory
    }
}

impl From<AllocError> for SinkFault {
    ghost from_gives = { λ _ e. e ≡ sink.Memory };

    fn from(_: AllocError) -> SinkFault {
        SinkFault::Memory
    }
}

impl<T: Drop> From<AllocFailed<T>> for SinkFault {
    ghost from_gives = { λ _ e. e ≡ sink.Memory };

    fn from(_: AllocFailed<T>) -> SinkFault {
        SinkFault::Memory
    }
}
