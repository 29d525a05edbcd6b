//! Why bytes were refused.
ghost use Rattle.std.specs.Prelude.{◌≡◌};
ghost use Rattle.class_tree.specs.declared.fault.FormatFault.TheVariants.{Memory};

use std::alloc::{AllocError, AllocFailed};

/// Why no class file was read.
#[derive(Clone, Copy, Debug, PartialEq, Eq)]
pub enum FormatFault {
    /// The bytes spell no class file.
    NotClass,
    /// The version is none of those that are read: the minor and the major version (JVMS 4.1).
    Version(u16, u16),
    /// Memory ran out.
    Memory,
}

impl From<AllocError> for FormatFault {
    ghost from_gives = { λ _ e. e ≡ Memory };

    fn from(_: AllocError) -> FormatFault {
        FormatFault::Memory
    }
}

impl<T: Drop> From<AllocFailed<T>> for FormatFault {
    ghost from_gives = { λ _ e. e ≡ Memory };

    fn from(_: AllocFailed<T>) -> FormatFault {
        FormatFault::Memory
    }
}
