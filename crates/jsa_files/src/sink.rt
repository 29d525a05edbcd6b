//! A sink of bytes.
ghost use Rattle.std.specs.Prelude.{ℕ, List, Option, IsErrOf};
ghost use Rattle.jsa_files.specs.Sinks.{Takes};
ghost use Rattle.jsa_files.specs.Causes.{CountsSinkFailure};

use crate::fault::SinkFault;
use std::alloc::Global;

/// A sink of bytes.
///
/// Contracts speak of three things that no code need hold. An implementer says what they are for its
/// type, and owes each clause at every call: so it counts each failure of the outside in the call
/// that answers it, and counts nothing else.
pub trait Sink {
    /// All the bytes that the sink took, in order, where it tells them, and else `None`. No call
    /// changes whether it tells.
    ghost taken: { Self → Option (List ℕ) };

    /// How many puts have failed. It never falls, and may stand still at 2^64 - 1.
    ghost faults: { Self → ℕ };

    /// Whether a put may fail from here on. Where none may, none ever will.
    ghost can_fail: { Self → Type 0 };

    /// Takes the bytes. After `Ok` all of them were appended to what the sink took, and after a fault a
    /// front of them was, which may be none or all.
    ///
    /// - `Failed` comes only from a sink that can fail, and only where the count of faults rose: it is
    ///   greater than before, or at 2^64 - 1. After every other answer it is as before.
    /// - `Memory` comes where memory ran out.
    fn put(&mut self, alloc: Global, bytes: &[u8]) -> Result<(), SinkFault>
        ensures taken { Takes (taken self.old) (taken self.new) bytes.now result }
        ensures failed { IsErrOf result SinkFault.Failed → can_fail self.old }
        ensures stays { can_fail self.new → can_fail self.old }
        ensures cause { CountsSinkFailure (faults self.old) (faults self.new) result };
}
