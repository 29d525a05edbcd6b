//! The quantities that have limits.

/// A quantity with a limit, which an answer names where it is passed.
#[derive(Clone, Copy, Debug, PartialEq, Eq)]
pub enum Quantity {
    /// The size of a file that is read, in bytes.
    FileSize,
    /// The number of class files that are listed, over all folders of a command.
    Names,
    /// The number of classes in an archive.
    Classes,
    /// The size of an archive that is written, in bytes.
    ArchiveSize,
    /// The number of classes that are loaded in one run.
    Loaded,
}
