//! What holds of the definitions: each function does nothing, and its contract is the law.
ghost use Rattle.class_asm.specs.Laws.{SizesStand, LabelsStand, LinesDecode, NeedsAreBuilt, PoolsAreBuilt, ClassesHavePaths};

/// An operation takes as many bytes as are counted for it where the places of labels are.
pub fn sizes_stand()
    ensures { SizesStand }
{}

/// A label stands where the code behind it begins, from the first line of a code to its last.
pub fn labels_stand()
    ensures { LabelsStand }
{}

/// What a line of an instruction adds to a code is the spelling of that instruction, and decodes to it, whatever comes behind
/// it, where the keys of a lookupswitch ascend.
pub fn lines_decode()
    ensures { LinesDecode }
{}

/// What the constant or the member of a line needs leaves a pool with each entry once, and the parts of an entry before it.
pub fn needs_are_built()
    ensures { NeedsAreBuilt }
{}

/// Each tree of a text has a pool with each entry once, and the parts of an entry before it.
pub fn pools_are_built()
    ensures { PoolsAreBuilt }
{}

/// Each tree of a text has a name, and its file a path in each folder.
pub fn classes_have_paths()
    ensures { ClassesHavePaths }
{}
