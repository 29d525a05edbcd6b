//! Makes a home: the class files of the boot library, and the list of their names.
ghost use Rattle.std.specs.Prelude.{◌≡◌, [], ◌∷◌, ◌++◌, ◌<◌, ◌-◌, ◌^◌, IfOk, OnOk, IsErrOf, length, codes};
ghost use Rattle.std.specs.String.{string_bytes};
ghost use Rattle.jsa_files.specs.declared.fault.FilesFault.TheVariants as files_fault;
ghost use Rattle.boot_library.specs.declared.fault.HomeFault.TheVariants as home;
ghost use Rattle.jsa_files.specs.Told.{contents_told, reads_told};
ghost use Rattle.class_folder.specs.ClassFiles.{files_of, file_at, WritesFiles, CountsWrites};
ghost use Rattle.boot_library.specs.Home as spec;

use crate::fault::HomeFault;
use class_asm::{AsmFault, assemble};
use class_folder::{write_classes, write_file};
use class_tree::ClassTree;
use jsa_files::{Files, FilesFault};
use std::alloc::{AllocError, Global};

// Adds the line of a class to the list.
fn push_name(list: &mut Vec<u8>, tree: &ClassTree) -> Result<(), AllocError>
    ensures { OnOk result (list.new.items ≡ list.old.items ++ spec.line_of_tree tree.now) }
{
    let Some(name) = tree.pool.class_name(tree.this) else {
        return Ok(());
    };
    list.extend_from_slice(name)?;
    list.push(b'\n')?;
    Ok(())
}

// The list of the names of classes.
fn names_text(alloc: Global, trees: &[ClassTree]) -> Result<Vec<u8>, AllocError>
    ensures { IfOk result (λ list. list.items ≡ spec.names_text trees.now) }
{
    let mut list = Vec::new(alloc);
    let mut rest = trees;
    loop {
        let [tree, more @ ..] = rest else {
            return Ok(list);
        };
        push_name(&mut list, tree)?;
        rest = more;
    }
}

// A path below a folder.
fn below(alloc: Global, dir: &str, name: &str) -> Result<String, AllocError>
    ensures { IfOk result (λ path. string_bytes path ≡ dir.now ++ name.now) }
{
    let mut path = String::from_str(alloc, dir)?;
    path.push_str(name)?;
    Ok(path)
}

// Writes the files of classes to a folder, and then a list to a path.
fn write_all<F: Files>(
    alloc: Global,
    folder: &str,
    trees: &[ClassTree],
    path: &str,
    list: &[u8],
    files: &mut F,
) -> Result<(), FilesFault>
    ensures writes { WritesFiles (contents_told (F.store files.old)) (contents_told (F.store files.new)) (F.write_faults files.old, F.write_faults files.new) (files_of folder.now trees.now ++ file_at path.now list.now ∷ []) result }
    ensures write_fault { CountsWrites (F.write_faults files.old) (F.write_faults files.new) result }
    ensures reads { reads_told (F.store files.new) ≡ reads_told (F.store files.old) }
    ensures read_faults { F.read_faults files.new ≡ F.read_faults files.old }
    ensures write_can_fail { IsErrOf result files_fault.Failed → F.can_fail files.old }
    ensures files_stay { F.can_fail files.new → F.can_fail files.old }
{
    match write_classes(alloc, folder, trees, files) {
        Ok(()) => write_file(alloc, path, list, files),
        Err(fault) => Err(fault),
    }
}

// Writes the files of a home.
fn write_trees<F: Files>(
    alloc: Global,
    dir: &str,
    trees: &[ClassTree],
    files: &mut F,
) -> Result<(), FilesFault>
    ensures writes { WritesFiles (contents_told (F.store files.old)) (contents_told (F.store files.new)) (F.write_faults files.old, F.write_faults files.new) (spec.home_files dir.now trees.now) result }
    ensures write_fault { CountsWrites (F.write_faults files.old) (F.write_faults files.new) result }
    ensures reads { reads_told (F.store files.new) ≡ reads_told (F.store files.old) }
    ensures read_faults { F.read_faults files.new ≡ F.read_faults files.old }
    ensures write_can_fail { IsErrOf result files_fault.Failed → F.can_fail files.old }
    ensures files_stay { F.can_fail files.new → F.can_fail files.old }
{
    let Ok(list) = names_text(alloc, trees) else {
        return Err(FilesFault::Memory);
    };
    let Ok(folder) = below(alloc, dir, "/boot") else {
        return Err(FilesFault::Memory);
    };
    let Ok(path) = below(alloc, dir, "/classlist") else {
        return Err(FilesFault::Memory);
    };
    write_all(
        alloc,
        folder.as_str(),
        trees,
        path.as_str(),
        list.as_slice(),
        files,
    )
}

/// Makes a home of the classes of an assembler text: the file of each class is written to `DIR/boot/NAME.class`, in the
/// order of the text, and then the list of their names to `DIR/classlist`, a line each. Nothing is written before the text
/// was assembled. The text has fewer than 2^32 - 1 bytes, so that its lines have numbers.
///
/// - `Line`: this line of the text is the first outside the grammar, and nothing was written.
/// - `Files`: the store answered a write so. The files before it were written.
/// - `Memory`: memory ran out. The first of the files may have been written.
pub fn write_home<F: Files>(
    alloc: Global,
    dir: &str,
    text: &str,
    files: &mut F,
) -> Result<(), HomeFault>
    requires { length text.now < 2 ^ 32 - 1 }
    ensures answer { spec.HomeAnswers (contents_told (F.store files.old)) (contents_told (F.store files.new)) (F.write_faults files.old, F.write_faults files.new) dir.now text.now result }
    ensures write_fault { spec.CountsWrites (F.write_faults files.old) (F.write_faults files.new) result }
    ensures reads { reads_told (F.store files.new) ≡ reads_told (F.store files.old) }
    ensures read_faults { F.read_faults files.new ≡ F.read_faults files.old }
    ensures write_can_fail { IsErrOf result (home.Files files_fault.Failed) → F.can_fail files.old }
    ensures files_stay { F.can_fail files.new → F.can_fail files.old }
{
    match assemble(alloc, text.as_bytes()) {
        Ok(trees) => match write_trees(alloc, dir, trees.as_slice(), files) {
            Ok(()) => Ok(()),
            Err(fault) => Err(HomeFault::Files(fault)),
        },
        Err(AsmFault::Line(number)) => Err(HomeFault::Line(number)),
        Err(AsmFault::Memory) => Err(HomeFault::Memory),
    }
}
