//! Why a home wasn't made.
use jsa_files::FilesFault;

/// Why a home wasn't made, or not all of it.
#[derive(Clone, Copy, Debug, PartialEq, Eq)]
pub enum HomeFault {
    /// This line of the text is the first outside the grammar, counted from 1. Where an `end` is missing at the end of the
    /// text it is the line after the last. Nothing was written.
    Line(u32),
    /// The store answered a write so.
    Files(FilesFault),
    /// Memory ran out.
    Memory,
}
