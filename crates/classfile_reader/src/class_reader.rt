//! Reads class files (JVMS 4).
ghost use Rattle.std.specs.Prelude.{◌≡◌, ℕ, Ok, Err};
ghost use Rattle.jsa_base.specs.Reading.{IsBytes};
ghost use Rattle.class_tree.specs.declared.fault.FormatFault.TheVariants.{NotClass, Version};
ghost use Rattle.class_tree.specs.declared.tree.ClassTree.{ClassTree};
ghost use Rattle.class_tree.specs.ClassReading.{version_at};
ghost use Rattle.class_tree.specs.Spells.{Spells, IsOtherVersion, HasNoTree, is_read_version, tree_behind};
ghost use Rattle.classfile_reader.specs.PartAnswers.{Builds, AnswersVersion};
ghost use Rattle.classfile_reader.specs.ClassAnswers.{ClassAnswers, HasNoOtherVersion, IsUnlessMemory};

use crate::class_reading::{version, whole_parts};
use crate::tree_building::tree;
use class_tree::{ClassTree, FormatFault, is_well_formed};
use jsa_base::Cursor;
use std::alloc::Global;

fn is_read_version(minor: u16, major: u16) -> bool
    ensures { result ≡ is_read_version minor major }
{
    minor == 0 && 50 <= major && major <= 52
}

// The tree behind a version of this major number.
#[tactic(auto, unfolding(class_tree::specs::Spells::tree_behind))]
fn tree_behind(alloc: Global, major: u16, cursor: &mut Cursor<'_>) -> Result<ClassTree, FormatFault>
    ensures { Builds (λ t. t) result (tree_behind major cursor.old) }
{
    let parts = whole_parts(alloc, cursor)?;
    let tree = tree(alloc, major, parts)?;
    if !is_well_formed(alloc, &tree)? {
        return Err(FormatFault::NotClass);
    }
    Ok(tree)
}

fn read(alloc: Global, bytes: &[u8]) -> Result<ClassTree, FormatFault>
    ensures { AnswersVersion result (version_at bytes.now) }
{
    let mut cursor = Cursor::new(bytes);
    let Some((minor, major)) = version(&mut cursor) else {
        return Err(FormatFault::NotClass);
    };
    if !is_read_version(minor, major) {
        return Err(FormatFault::Version(minor, major));
    }
    tree_behind(alloc, major, &mut cursor)
}

fn are_bytes(bytes: &[u8])
    ensures { IsBytes bytes.now }
{
    Cursor::new(bytes).are_bytes();
}

/// The tree of a class file (JVMS 4): what its bytes spell, with the constant pool and the code as they are written.
/// Attributes other than the Code of a method, the StackMapTable of a Code and the ConstantValue of a static field are
/// skipped.
///
/// # Errors
///
/// `Version` comes exactly where the magic number and a version other than 50.0, 51.0 and 52.0 (JVMS 4.1) stand in
/// front, whatever stands behind them. Where they don't, `NotClass` comes exactly where the bytes spell no tree: where
/// they are cut or begin with another magic number, a byte follows the last attribute, the constant pool isn't one (JVMS
/// 4.4), an attribute has no name, one that is read is there twice or isn't as it is to be written (JVMS 4.7), or the
/// class, a field or a method breaks a rule of form (JVMS 4.1, 4.5, 4.6, 4.7.3). `Memory` comes where memory runs out.
pub fn read_class(alloc: Global, bytes: &[u8]) -> Result<ClassTree, FormatFault>
    // What is answered is so.
    ensures causes { ClassAnswers bytes.now result }
    // What the bytes spell is read, unless memory runs out.
    ensures only { (tree : ClassTree) → Spells bytes.now tree → IsUnlessMemory (Ok tree) result }
    // Another version is answered, unless memory runs out.
    ensures version { (minor major : ℕ) → IsOtherVersion bytes.now minor major → IsUnlessMemory (Err (Version minor major)) result }
    // Where there is neither, that is answered, unless memory runs out.
    ensures none { HasNoTree bytes.now → HasNoOtherVersion bytes.now → IsUnlessMemory (Err NotClass) result }
{
    are_bytes(bytes);
    read(alloc, bytes)
}
