//! How a run over a home ends.
use jsa_base::Quantity;

/// How a run over a home ended.
#[derive(Clone, Copy, Debug, PartialEq, Eq)]
pub enum HomeEnd {
    /// `main` returned, and the class list was written where one was asked for.
    Exit,
    /// The class with this number, from 1 on, is the first of the required classes that is wanting.
    NoBoot(u32),
    /// The main class doesn't load.
    NoMain,
    /// As many turns were made as the limit, and `main` hasn't returned.
    Stopped,
    /// The main class is none that can be run yet.
    Unsupported,
    /// A file could not be read.
    Read,
    /// The output of the program or the class list could not be written.
    Write,
    /// The quantity is the first that passes its limit, which is the number.
    Limit(Quantity, u64),
    /// Memory ran out.
    Memory,
}
