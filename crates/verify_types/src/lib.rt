//! The frames that a StackMapTable declares, and where the instructions of a code begin (JVMS 4.7.4, 4.9.1, 4.10.1.4).
#![tactic(auto)]

mod frames;
mod places;
mod reading;

pub use frames::{filled, frames_of};
pub use places::Places;
pub use reading::tables_are_spelled;
