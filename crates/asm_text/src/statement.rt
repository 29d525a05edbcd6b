//! What a line of assembler text says. Names, descriptors, texts and labels are bytes in modified UTF-8 (JVMS 4.4.7).

use sqlite_items::Items;

/// What a line says.
#[derive(Drop)]
pub enum Statement {
    /// Nothing: the line is empty or a comment.
    Blank,
    /// `class FLAGS NAME SUPER INTERFACE ..`
    Class(ClassLine),
    /// `version N`
    Version(u16),
    /// `field FLAGS NAME DESC`, and a value where one is given.
    Field(FieldLine),
    /// `method FLAGS NAME DESC`
    Method(MethodLine),
    /// `code STACK LOCALS`
    Code(CodeLine),
    /// `LABEL:`
    Label(Items<u8>),
    /// A mnemonic with its operands.
    Operation(Operation),
    /// `catch FROM TO HANDLER CLASS`
    Catch(CatchLine),
    /// `frame LABEL LOCAL .. | ITEM ..`
    Frame(FrameLine),
    /// `end`
    End,
}

/// A class with its direct superclass, if it has one, and its direct superinterfaces.
#[derive(Debug, Drop)]
pub struct ClassLine {
    pub flags: u16,
    pub name: Items<u8>,
    pub sup: Option<Items<u8>>,
    pub interfaces: Items<Items<u8>>,
}

/// A field, with the value of its ConstantValue where it has one.
#[derive(Debug, Drop)]
pub struct FieldLine {
    pub flags: u16,
    pub name: Items<u8>,
    pub desc: Items<u8>,
    pub value: Option<Constant>,
}

/// A method.
#[derive(Debug, Drop)]
pub struct MethodLine {
    pub flags: u16,
    pub name: Items<u8>,
    pub desc: Items<u8>,
}

/// `max_stack` and `max_locals` of a code (JVMS 4.7.3).
#[derive(Debug, Clone, Copy, PartialEq, Eq)]
pub struct CodeLine {
    pub stack: u16,
    pub locals: u16,
}

/// A row of an exception table, its places by their labels. Without a class it catches everything.
#[derive(Debug, Drop)]
pub struct CatchLine {
    pub from: Items<u8>,
    pub to: Items<u8>,
    pub handler: Items<u8>,
    pub class: Option<Items<u8>>,
}

/// A stack map frame at a label (JVMS 4.7.4): the types of its locals and of its operand stack, the deepest first.
#[derive(Debug, Drop)]
pub struct FrameLine {
    pub label: Items<u8>,
    pub locals: Items<FrameType>,
    pub stack: Items<FrameType>,
}

/// A verification type (JVMS 4.7.4).
#[derive(Debug, Drop)]
pub enum FrameType {
    Top,
    Integer,
    Float,
    Double,
    Long,
    Null,
    UninitializedThis,
    /// A class, or an array by its descriptor.
    Object(Items<u8>),
    /// What the `new` at a label makes.
    Uninitialized(Items<u8>),
}

/// A constant of the pool (JVMS 4.4).
#[derive(Debug, Drop)]
pub enum Constant {
    Integer(i32),
    Long(i64),
    Text(Items<u8>),
    /// A class, or an array by its descriptor.
    Class(Items<u8>),
}

/// A field, a method of a class or a method of an interface.
#[derive(Debug, Clone, Copy, PartialEq, Eq)]
pub enum MemberKind {
    Field,
    Method,
    InterfaceMethod,
}

/// A member by its class, its name and its descriptor.
#[derive(Debug, Drop)]
pub struct MemberName {
    pub class: Items<u8>,
    pub name: Items<u8>,
    pub desc: Items<u8>,
}

/// An instruction whose targets are labels and whose constants are not in a pool yet. The first field of each variant is
/// the opcode byte (JVMS 6.5).
#[derive(Drop)]
pub enum Operation {
    /// No operand.
    Plain(u8),
    /// bipush, with its value.
    Byte(u8, i8),
    /// sipush, with its value.
    Short(u8, i16),
    /// ldc, ldc_w or ldc2_w.
    Load(u8, Constant),
    /// A load, a store or ret, with a local.
    Local(u8, u16),
    /// iinc, with a local and the amount.
    Iinc(u8, u16, i16),
    /// A branch, goto, goto_w, jsr or jsr_w, with its label.
    Branch(u8, Items<u8>),
    /// A field instruction, invokevirtual, invokespecial or invokestatic.
    Member(u8, MemberKind, MemberName),
    /// invokeinterface, with the slots that the object and the arguments take.
    Interface(u8, MemberName, u8),
    /// new, anewarray, checkcast or instanceof, with a class, or an array by its descriptor.
    ClassOf(u8, Items<u8>),
    /// newarray, with the code of its element type.
    NewArray(u8, u8),
    /// multianewarray, with a class, or an array by its descriptor, and the number of dimensions.
    MultiArray(u8, Items<u8>, u8),
    /// tableswitch, with the lowest key, the default label and the labels of the keys from the lowest on.
    TableSwitch(u8, i32, Items<u8>, Items<Items<u8>>),
    /// lookupswitch, with the default label and its cases in the order in which they are written.
    LookupSwitch(u8, Items<u8>, Items<SwitchCase>),
}

/// A key of a lookupswitch with its label.
#[derive(Debug, Drop)]
pub struct SwitchCase {
    pub key: i32,
    pub label: Items<u8>,
}
