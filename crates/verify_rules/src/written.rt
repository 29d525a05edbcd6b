//! A StackMapTable as it is written (JVMS 4.7.4).
use sqlite_items::Items;

/// A verification type as it is written.
#[derive(Clone, Copy, Debug, PartialEq, Eq)]
pub enum WrittenType {
    Top,
    Integer,
    Float,
    Double,
    Long,
    Null,
    UninitializedThis,
    /// The index of a Class.
    Object(u16),
    /// The place of a `new`.
    Uninitialized(u16),
}

/// What a frame changes of the one before it.
#[derive(Debug, Drop)]
pub enum Change {
    /// The same locals, and no stack.
    Same,
    /// The same locals, and one item on the stack.
    SameItem(WrittenType),
    /// So many locals fewer at the end, and no stack.
    Chop(u8),
    /// These locals more at the end, and no stack.
    Append(Items<WrittenType>),
    /// All locals and the whole stack, the deepest item first.
    Full(Items<WrittenType>, Items<WrittenType>),
}

/// A frame as it is written.
#[derive(Debug, Drop)]
pub struct WrittenFrame {
    /// The byte that says what the frame changes.
    pub kind: u8,
    /// How far it stands behind the frame before it, less one; the place of the first frame.
    pub delta: u16,
    pub change: Change,
}
