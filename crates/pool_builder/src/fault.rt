//! Why an index isn't answered.
ghost use Rattle.std.specs.Prelude.{◌≡◌};
ghost use Rattle.pool_builder.specs.declared.fault.PoolFault.TheVariants as faults;

use std::alloc::{AllocError, AllocFailed};

/// Why an index isn't answered.
#[derive(Debug, Clone, Copy, PartialEq, Eq, Drop)]
pub enum PoolFault {
    /// A text has more than 65,535 bytes (JVMS 4.4.7), or the pool has too few indices left: its last is 65,534 (JVMS 4.1).
    NoRoom,
    /// There is no memory left.
    Memory,
}

impl From<AllocError> for PoolFault {
    ghost from_gives = { λ _ e. e ≡ faults.Memory };

    fn from(_: AllocError) -> PoolFault {
        PoolFault::Memory
    }
}

impl<T: Drop> From<AllocFailed<T>> for PoolFault {
    ghost from_gives = { λ _ e. e ≡ faults.Memory };

    fn from(_: AllocFailed<T>) -> PoolFault {
        PoolFault::Memory
    }
}
