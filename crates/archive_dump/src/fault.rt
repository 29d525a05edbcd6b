//! Why no archive was written.
ghost use Rattle.std.specs.Prelude.{◌≡◌};
ghost use Rattle.archive_dump.specs.declared.fault.DumpFault.TheVariants.{Memory};

use std::alloc::AllocError;

/// Why no archive was written.
#[derive(Clone, Copy, Debug, PartialEq, Eq)]
pub enum DumpFault {
    /// There are more than `MAX_CLASSES` classes.
    TooMany,
    /// The archive would have more than `MAX_ARCHIVE` bytes.
    TooLarge,
    /// Memory ran out.
    Memory,
}

impl From<AllocError> for DumpFault {
    ghost from_gives = { λ _ e. e ≡ Memory };

    fn from(_: AllocError) -> DumpFault {
        DumpFault::Memory
    }
}
