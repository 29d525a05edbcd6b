//! The start of a run.
use crate::facts::ClassId;

/// How the start of a run ended.
#[derive(Clone, Copy, Debug, PartialEq, Eq)]
pub enum Start {
    /// The class with this number, from 1 on, is the first of the required classes that is wanting.
    NoBoot(u32),
    /// The main class doesn't load.
    NoMain,
    /// The main class is loaded.
    Ready(ClassId),
}
