//! Types by the letters of instructions.

/// The letter of a load, a store, an array element or a return (JVMS 2.11.1): i, l, f, d or a.
#[derive(Clone, Copy, Debug, PartialEq, Eq)]
pub enum Letter {
    Int,
    Long,
    Float,
    Double,
    Reference,
}
