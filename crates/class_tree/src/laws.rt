//! What the spelling of class files and their reading say of each other. A call of one of these does nothing: its
//! contract is a fact for callers.
ghost use Rattle.class_tree.specs.Spells.{OneTree, TreesAreSpelled, VersionsAreWritten, OtherVersionsHaveNoTree, CodesAreSpelled};

/// Bytes spell one class tree at most.
pub fn one_tree()
    ensures { OneTree }
{}

/// A tree is read of bytes exactly where they spell it.
pub fn trees_are_spelled()
    ensures { TreesAreSpelled }
{}

/// A version is read of bytes exactly where they begin with the magic number and this version.
pub fn versions_are_written()
    ensures { VersionsAreWritten }
{}

/// Bytes of another version than those that are read spell no tree.
pub fn other_versions_have_no_tree()
    ensures { OtherVersionsHaveNoTree }
{}

/// The content of a Code attribute is read as those parts whose text it is.
pub fn codes_are_spelled()
    ensures { CodesAreSpelled }
{}
