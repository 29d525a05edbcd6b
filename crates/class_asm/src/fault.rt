ghost use Rattle.std.specs.Prelude.{◌≡◌};
ghost use Rattle.class_asm.specs.declared.fault.AsmFault.TheVariants.{Memory};

use std::alloc::{AllocError, AllocFailed};

/// Why a text stands for no classes.
#[derive(Debug, Clone, Copy, PartialEq, Eq, Drop)]
pub enum AsmFault {
    /// This line is the first outside the grammar, counted from 1. Where an `end` is missing at the end of the text it is
    /// the line after the last.
    Line(u32),
    /// There is no memory left.
    Memory,
}

impl From<AllocError> for AsmFault {
    ghost from_gives = { λ _ e. e ≡ Memory };

    fn from(_: AllocError) -> AsmFault {
        AsmFault::Memory
    }
}

impl<T: Drop> From<AllocFailed<T>> for AsmFault {
    ghost from_gives = { λ _ e. e ≡ Memory };

    fn from(_: AllocFailed<T>) -> AsmFault {
        AsmFault::Memory
    }
}
