/// An instruction, by the form of its operands (JVMS 6.5). The first field of each variant is the opcode byte.
///
/// Contracts see it as the `Instruction` of the same form, whose bytes of a switch are a list.
#[derive(Debug, Clone, Copy, Drop)]
pub enum Instr<'a> {
    /// No operand.
    Plain(u8),
    /// bipush, with its value.
    Byte(u8, i8),
    /// sipush, with its value.
    Short(u8, i16),
    /// ldc, ldc_w or ldc2_w, with a pool index.
    Constant(u8, u16),
    /// A load, a store or ret, with a local.
    Local(u8, u16),
    /// iinc, with a local and the amount.
    Iinc(u8, u16, i16),
    /// wide, with the opcode behind it (a load, a store or ret) and a local.
    Wide(u8, u8, u16),
    /// wide before iinc, with a local and the amount.
    WideIinc(u8, u16, i16),
    /// A branch, goto or jsr, with its distance in bytes from the opcode.
    Branch(u8, i32),
    /// A field instruction, invokevirtual, invokespecial or invokestatic, with a pool index.
    Member(u8, u16),
    /// invokeinterface, with a pool index and the two bytes behind it.
    Interface(u8, u16, u8, u8),
    /// invokedynamic, with a pool index and the two bytes behind it.
    Dynamic(u8, u16, u8, u8),
    /// new, anewarray, checkcast or instanceof, with a pool index.
    ClassOf(u8, u16),
    /// newarray, with the code of its element type.
    NewArray(u8, u8),
    /// multianewarray, with a pool index and the number of dimensions.
    MultiArray(u8, u16, u8),
    /// tableswitch, with the default distance, low, high, and the bytes of the distances, four for each number from low
    /// to high.
    TableSwitch(u8, i32, i32, i32, &'a [u8]),
    /// lookupswitch, with the default distance and the bytes of the pairs: four of a key and four of its distance, by
    /// ascending keys.
    LookupSwitch(u8, i32, &'a [u8]),
}
