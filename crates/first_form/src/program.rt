//! What is run of a class of the first form.

use sqlite_items::Items;

/// The greatest length of a method's code, in bytes (JVMS 4.7.3).
pub const MAX_CODE: usize = 65_535;

/// An instruction of `main`, by what it does (JVMS 6.5). A local is its index, and an amount is signed.
#[derive(Clone, Copy, Debug, PartialEq, Eq)]
pub enum Instruction {
    /// Does nothing: `nop`.
    Nop,
    /// Pushes the number: `iconst_<n>`, `bipush`, `sipush`, and `ldc` and `ldc_w` of an Integer.
    Push(i32),
    /// Pushes the int in the local: `iload` and `iload_<n>`.
    Load(u8),
    /// Takes a number and stores it in the local: `istore` and `istore_<n>`.
    Store(u8),
    /// Takes a number: `pop`.
    Pop,
    /// Pushes the top again: `dup`.
    Dup,
    /// Takes two numbers and pushes their sum: `iadd`.
    Add,
    /// Takes two numbers and pushes the lower one less the top: `isub`.
    Subtract,
    /// Takes two numbers and pushes their product: `imul`.
    Multiply,
    /// Takes a number and pushes 0 less it: `ineg`.
    Negate,
    /// Takes a distance and a number and pushes the number shifted to the left: `ishl`.
    ShiftLeft,
    /// Takes a distance and a number and pushes the number shifted to the right with its sign: `ishr`.
    ShiftRight,
    /// Takes a distance and a number and pushes the number shifted to the right with zeros: `iushr`.
    LogicalShiftRight,
    /// Takes two numbers and pushes the bits that both have: `iand`.
    And,
    /// Takes two numbers and pushes the bits that one or both have: `ior`.
    Or,
    /// Takes two numbers and pushes the bits that one alone has: `ixor`.
    Xor,
    /// Adds the amount to the int in the local: `iinc`.
    Increment(u8, i8),
    /// Takes a number and pushes its low 8 bits with their sign: `i2b`.
    ToByte,
    /// Takes a number and pushes its low 16 bits without a sign: `i2c`.
    ToChar,
    /// Takes a number and pushes its low 16 bits with their sign: `i2s`.
    ToShort,
    /// Takes a number and calls the native method `put` with it: `invokestatic`.
    Put,
    /// Leaves `main`: `return`.
    Return,
}

/// The code of `main`.
#[derive(Debug, Drop)]
pub struct Program {
    /// `max_stack`: how many numbers the operand stack may hold.
    pub max_stack: u16,
    /// `max_locals`: how many local variables there are.
    pub max_locals: u16,
    /// The instructions in the order of the code.
    pub instructions: Items<Instruction>,
}
