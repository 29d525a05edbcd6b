//! Why there are no frames.
ghost use Rattle.std.specs.Prelude.{◌≡◌};
ghost use Rattle.verify_rules.specs.declared.fault.VerifyFault.TheVariants.{Memory};

use std::alloc::AllocError;

/// Why a code has no frames.
#[derive(Clone, Copy, Debug, PartialEq, Eq)]
pub enum VerifyFault {
    /// Its StackMapTable is none, or a frame of it isn't within its locals and stack (JVMS 4.7.4, 4.10.1.4).
    Bad,
    /// Memory ran out.
    Memory,
}

impl From<AllocError> for VerifyFault {
    ghost from_gives = { λ _ e. e ≡ Memory };

    fn from(_error: AllocError) -> Self {
        VerifyFault::Memory
    }
}
