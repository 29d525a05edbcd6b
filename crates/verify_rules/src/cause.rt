//! Why an instruction isn't typed.
use std::alloc::AllocError;

/// Why an instruction isn't typed (JVMS 4.9, 4.10.1).
#[derive(Clone, Copy, Debug, PartialEq, Eq)]
pub enum Cause {
    /// No instruction is decoded, or it is none that is accepted; its local, its pool entry or another written operand isn't
    /// what it takes.
    Written,
    /// The operand stack holds too few items, or an instruction would split a long or a double.
    Operands,
    /// An operand, a local or an item of a frame has another type.
    Mismatch,
    /// The result has no room on the operand stack.
    Room,
    /// A target, or the place behind an instruction that doesn't go on to it, has no frame.
    NoFrame,
    /// The stacks of two frames differ in length.
    Length,
    /// `this` is still without a constructor.
    Unfinished,
    /// The code ends behind it.
    End,
}

/// Why a test stopped.
#[derive(Clone, Copy, Debug, PartialEq, Eq)]
pub enum Stop {
    /// What is tested isn't typed.
    Fault(Cause),
    /// Memory ran out.
    Memory,
}

impl From<AllocError> for Stop {
    ghost use Rattle.std.specs.Prelude.{◌≡◌};
    ghost use Rattle.verify_rules.specs.declared.cause.Stop.TheVariants.{Memory};

    ghost from_gives = { λ _ e. e ≡ Memory };

    fn from(_error: AllocError) -> Self {
        Stop::Memory
    }
}
