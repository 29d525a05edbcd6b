//! What the verification of a class finds.
use crate::ask::Ask;
use sqlite_items::Items;

/// The place of a fault.
#[derive(Clone, Copy, Debug, PartialEq, Eq)]
pub struct Place {
    /// The number of the method, from 0 on in the order of the class file.
    pub method: u32,
    /// The place in its code, in bytes.
    pub pc: u32,
}

/// The questions that verification asks, in their order, and the first fault.
#[derive(Debug, Drop)]
pub struct Checked {
    /// Those before the fault, where there is one.
    pub asks: Items<Ask>,
    pub fault: Option<Place>,
}
