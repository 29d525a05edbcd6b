//! Why bytes were refused.
ghost use Rattle.std.specs.Prelude.{◌≡◌};
ghost use Rattle.first_form.specs.declared.fault.FormFault.TheVariants.{Memory};

use std::alloc::{AllocError, AllocFailed};

/// Why no program was read.
#[derive(Clone, Copy, Debug, PartialEq, Eq)]
pub enum FormFault {
    /// The bytes aren't a class of the first form.
    NotFirstForm,
    /// Memory ran out.
    Memory,
}

impl From<AllocError> for FormFault {
    ghost from_gives = { λ _ e. e ≡ Memory };

    fn from(_: AllocError) -> FormFault {
        FormFault::Memory
    }
}

impl<T: Drop> From<AllocFailed<T>> for FormFault {
    ghost from_gives = { λ _ e. e ≡ Memory };

    fn from(_: AllocFailed<T>) -> FormFault {
        FormFault::Memory
    }
}
