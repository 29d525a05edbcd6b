//! Writes the files of classes into a folder of a store.
ghost use Rattle.std.specs.Prelude.{◌≡◌, ◌∷◌, [], IfOk, IsErrOf};
ghost use Rattle.std.specs.Option.{option_map};
ghost use Rattle.std.specs.String.{string_bytes};
ghost use Rattle.jsa_files.specs.declared.fault.FilesFault.TheVariants as faults;
ghost use Rattle.class_tree.specs.Encoded.{encoded};
ghost use Rattle.jsa_files.specs.Told.{contents_told, reads_told};
ghost use Rattle.class_folder.specs.ClassFiles.{file_at, path_of_tree, files_of, WritesFiles, CountsWrites};

use class_encoder::encode;
use class_tree::ClassTree;
use jsa_files::{Files, FilesFault};
use jsa_names::path_of;
use std::alloc::{AllocError, Global};

// The path of a class's file in the folder.
fn path_of_tree(alloc: Global, folder: &str, tree: &ClassTree) -> Result<Option<String>, AllocError>
    ensures { IfOk result (λ path. option_map string_bytes path ≡ path_of_tree folder.now tree.now) }
{
    match tree.pool.class_name(tree.this) {
        Some(name) => path_of(alloc, folder, name),
        None => Ok(None),
    }
}

/// Writes a file. After an `Err` its path may hold a front of the bytes.
///
/// - `Failed`: the store's write failed.
/// - `Memory`: memory ran out, and the path holds what it held.
pub fn write_file<F: Files>(
    alloc: Global,
    path: &str,
    bytes: &[u8],
    files: &mut F,
) -> Result<(), FilesFault>
    ensures writes { WritesFiles (contents_told (F.store files.old)) (contents_told (F.store files.new)) (F.write_faults files.old, F.write_faults files.new) (file_at path.now bytes.now ∷ []) result }
    ensures write_fault { CountsWrites (F.write_faults files.old) (F.write_faults files.new) result }
    ensures reads { reads_told (F.store files.new) ≡ reads_told (F.store files.old) }
    ensures read_faults { F.read_faults files.new ≡ F.read_faults files.old }
    ensures write_can_fail { IsErrOf result faults.Failed → F.can_fail files.old }
    ensures files_stay { F.can_fail files.new → F.can_fail files.old }
{
    match files.write(alloc, path, bytes) {
        Ok(()) => Ok(()),
        Err(FilesFault::Failed) => Err(FilesFault::Failed),
        Err(FilesFault::TooLarge(_)) => unreachable!(),
        Err(FilesFault::TooMany(_)) => unreachable!(),
        Err(FilesFault::Memory) => Err(FilesFault::Memory),
    }
}

// Writes the file of a class to a path.
fn write_encoded<F: Files>(
    alloc: Global,
    path: &str,
    tree: &ClassTree,
    files: &mut F,
) -> Result<(), FilesFault>
    ensures writes { WritesFiles (contents_told (F.store files.old)) (contents_told (F.store files.new)) (F.write_faults files.old, F.write_faults files.new) (file_at path.now (encoded tree.now) ∷ []) result }
    ensures write_fault { CountsWrites (F.write_faults files.old) (F.write_faults files.new) result }
    ensures reads { reads_told (F.store files.new) ≡ reads_told (F.store files.old) }
    ensures read_faults { F.read_faults files.new ≡ F.read_faults files.old }
    ensures write_can_fail { IsErrOf result faults.Failed → F.can_fail files.old }
    ensures files_stay { F.can_fail files.new → F.can_fail files.old }
{
    match encode(alloc, tree) {
        Ok(bytes) => write_file(alloc, path, bytes.as_slice(), files),
        Err(_) => Err(FilesFault::Memory),
    }
}

// Writes the file of a class, where its name has a path.
fn write_class<F: Files>(
    alloc: Global,
    folder: &str,
    tree: &ClassTree,
    files: &mut F,
) -> Result<(), FilesFault>
    ensures writes { WritesFiles (contents_told (F.store files.old)) (contents_told (F.store files.new)) (F.write_faults files.old, F.write_faults files.new) (files_of folder.now (tree.now ∷ [])) result }
    ensures write_fault { CountsWrites (F.write_faults files.old) (F.write_faults files.new) result }
    ensures reads { reads_told (F.store files.new) ≡ reads_told (F.store files.old) }
    ensures read_faults { F.read_faults files.new ≡ F.read_faults files.old }
    ensures write_can_fail { IsErrOf result faults.Failed → F.can_fail files.old }
    ensures files_stay { F.can_fail files.new → F.can_fail files.old }
{
    match path_of_tree(alloc, folder, tree) {
        Ok(Some(path)) => write_encoded(alloc, path.as_str(), tree, files),
        Ok(None) => Ok(()),
        Err(_) => Err(FilesFault::Memory),
    }
}

/// Writes the file of each class to `FOLDER/NAME.class`, in their order, up to the first that can't be written. A class
/// whose name has no path has no file.
///
/// - `Failed`: the store's write of a file failed. The files before it were written, and its path may hold a front of its
///   bytes.
/// - `Memory`: memory ran out. The first of the files may have been written.
pub fn write_classes<F: Files>(
    alloc: Global,
    folder: &str,
    trees: &[ClassTree],
    files: &mut F,
) -> Result<(), FilesFault>
    ensures writes { WritesFiles (contents_told (F.store files.old)) (contents_told (F.store files.new)) (F.write_faults files.old, F.write_faults files.new) (files_of folder.now trees.now) result }
    ensures write_fault { CountsWrites (F.write_faults files.old) (F.write_faults files.new) result }
    ensures reads { reads_told (F.store files.new) ≡ reads_told (F.store files.old) }
    ensures read_faults { F.read_faults files.new ≡ F.read_faults files.old }
    ensures write_can_fail { IsErrOf result faults.Failed → F.can_fail files.old }
    ensures files_stay { F.can_fail files.new → F.can_fail files.old }
{
    let mut rest = trees;
    loop {
        let [tree, more @ ..] = rest else {
            return Ok(());
        };
        match write_class(alloc, folder, tree, files) {
            Ok(()) => rest = more,
            Err(fault) => return Err(fault),
        }
    }
}
