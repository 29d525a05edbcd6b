//! Verification types and frames (JVMS 4.10.1.2, 4.10.1.4).
use crate::stack::TypeStack;
use sqlite_items::Items;

/// A verification type (JVMS 4.10.1.2).
#[derive(Debug, Drop)]
pub enum VType {
    /// Nothing that can be used.
    Top,
    /// A boolean, byte, short, char or int.
    Integer,
    Float,
    Double,
    Long,
    Null,
    /// `this` in a constructor, before another constructor was called on it.
    UninitializedThis,
    /// A class or an interface by its name, or an array by its descriptor.
    Object(Items<u8>),
    /// An object without `<init>`, by the place of the `new` that made it.
    Uninitialized(u32),
}

/// An object on which no constructor was called yet, and of which a frame may hold several copies.
#[derive(Clone, Copy, Debug, PartialEq, Eq)]
pub enum Unfinished {
    /// The one that the `new` at this place made.
    MadeAt(u32),
    /// `this`.
    ThisObject,
}

/// The types before an instruction (JVMS 4.10.1.4).
#[derive(Debug, Drop)]
pub struct Frame {
    /// One for each slot, `max_locals` in all. The second slot of a long or a double is `Top`.
    pub locals: Items<VType>,
    /// The operand stack. Contracts see it with its top first.
    pub stack: TypeStack,
    /// Whether no constructor was called on `this` yet.
    pub this_uninit: bool,
}
