//! The types that descriptors spell.

/// The type of a field (JVMS 4.3.2).
#[derive(Clone, Copy, Debug)]
pub enum FieldType<'a> {
    Byte,
    Char,
    Double,
    Float,
    Int,
    Long,
    Short,
    Boolean,
    /// A class or an interface, by its internal name.
    Class(&'a [u8]),
    /// The number of dimensions, 1 to 255, and the descriptor of the element, which is no array.
    Array(u8, &'a [u8]),
}
