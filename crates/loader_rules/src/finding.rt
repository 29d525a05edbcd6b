//! The search for the file of a class.
ghost use Rattle.std.specs.Prelude.{◌≡◌, ◌≤◌, ◌+◌, ◌^◌, ◌++◌, ◌∷◌, [], length, IfOk, IsErrOf};
ghost use Rattle.std.specs.String.{string_bytes};
ghost use Rattle.jsa_files.specs.Causes.{CountsFailure};
ghost use Rattle.loader_rules.specs.declared.loader.Loader.TheVariants as loaders;
ghost use Rattle.loader_rules.specs.Finding.{numbered, folders_of, files_of, is_java, last_asked};
ghost use Rattle.loader_rules.specs.Outcomes.{FindsAsTold, FindsSmall, IsAmong, store_after_find};
ghost use Rattle.loader_rules.specs.Searching.{Searches, files_at};

use crate::loader::{Found, Loader, Paths};
use jsa_files::{Files, FilesFault, Names};
use jsa_names::path_of;
use std::alloc::{AllocError, Global};

/// The file of the class of this name that the loader `from` finds: the first file `FOLDER/NAME.class` in the boot
/// folders, then the platform folders where `from` is `Platform` or `App`, then the application folders where `from` is
/// `App`. For a name that begins with `java/` only the boot folders are asked. `None` comes exactly where none of these
/// files is there, and so for a name that `path_of` finds nowhere.
///
/// The folders are asked one by one, up to the first that has the file. The store's reads grow by the path of the found
/// file alone, its contents stay.
///
/// - `Failed` comes only from a store that can fail, and only where the count of read faults rose: it is greater than
///   before, or at 2^64 - 1. After every other answer it is as before. The count of write faults always is.
/// - `TooLarge(size)` comes where the file is above `MAX_FILE` bytes, and only there; `size` is its whole size. No later
///   folder is then asked.
/// - `TooMany` never comes.
/// - `Memory` comes where memory ran out.
pub fn find<F: Files>(
    alloc: Global,
    paths: &Paths,
    files: &mut F,
    name: &[u8],
    from: Loader,
) -> Result<Option<Found>, FilesFault>
    ensures answer { FindsAsTold (F.store files.old) paths.now from name.now result }
    ensures among { IsAmong (files_of paths.now from name.now) result }
    ensures size { FindsSmall result }
    ensures store { F.store files.new ≡ store_after_find (F.store files.old) paths.now from name.now result }
    ensures cause { CountsFailure (F.read_faults files.old) (F.read_faults files.new) result }
    ensures failed { IsErrOf result FilesFault.Failed → F.can_fail files.old }
    ensures stays { F.can_fail files.new → F.can_fail files.old }
    ensures writes { F.write_faults files.new ≡ F.write_faults files.old }
{
    match path_of(alloc, "", name) {
        Ok(Some(tail)) => find_up_to(alloc, paths, &tail, files, last_asked(from, name)),
        Ok(None) => Ok(None),
        Err(_) => Err(FilesFault::Memory),
    }
}

fn is_java(name: &[u8]) -> bool
    ensures { result ≡ is_java name.now }
{
    name.starts_with(b"java/")
}

// The loader whose folders are asked last.
fn last_asked(from: Loader, name: &[u8]) -> Loader
    ensures { result ≡ last_asked from name.now }
{
    if is_java(name) {
        return Loader::Boot;
    }
    from
}

// In the folders of the loaders up to the last that is asked.
fn find_up_to<F: Files>(
    alloc: Global,
    paths: &Paths,
    tail: &str,
    files: &mut F,
    last: Loader,
) -> Result<Option<Found>, FilesFault>
    ensures searches { Searches (F.store files.old) (F.store files.new) (files_at tail.now (folders_of paths.now last)) result }
    ensures size { FindsSmall result }
    ensures cause { CountsFailure (F.read_faults files.old) (F.read_faults files.new) result }
    ensures failed { IsErrOf result FilesFault.Failed → F.can_fail files.old }
    ensures stays { F.can_fail files.new → F.can_fail files.old }
    ensures writes { F.write_faults files.new ≡ F.write_faults files.old }
{
    match last {
        Loader::Boot => find_boot(alloc, paths, tail, files),
        Loader::Platform => find_platform(alloc, paths, tail, files),
        Loader::App => find_app(alloc, paths, tail, files),
    }
}

// In the boot folders.
fn find_boot<F: Files>(
    alloc: Global,
    paths: &Paths,
    tail: &str,
    files: &mut F,
) -> Result<Option<Found>, FilesFault>
    ensures searches { Searches (F.store files.old) (F.store files.new) (files_at tail.now (folders_of paths.now loaders.Boot)) result }
    ensures size { FindsSmall result }
    ensures cause { CountsFailure (F.read_faults files.old) (F.read_faults files.new) result }
    ensures failed { IsErrOf result FilesFault.Failed → F.can_fail files.old }
    ensures stays { F.can_fail files.new → F.can_fail files.old }
    ensures writes { F.write_faults files.new ≡ F.write_faults files.old }
{
    find_in(alloc, Loader::Boot, 0, &paths.boot, tail, files)
}

// In the boot folders, then in the platform folders.
fn find_platform<F: Files>(
    alloc: Global,
    paths: &Paths,
    tail: &str,
    files: &mut F,
) -> Result<Option<Found>, FilesFault>
    ensures searches { Searches (F.store files.old) (F.store files.new) (files_at tail.now (folders_of paths.now loaders.Platform)) result }
    ensures size { FindsSmall result }
    ensures cause { CountsFailure (F.read_faults files.old) (F.read_faults files.new) result }
    ensures failed { IsErrOf result FilesFault.Failed → F.can_fail files.old }
    ensures stays { F.can_fail files.new → F.can_fail files.old }
    ensures writes { F.write_faults files.new ≡ F.write_faults files.old }
{
    match find_boot(alloc, paths, tail, files) {
        Ok(None) => find_in(alloc, Loader::Platform, 1, &paths.platform, tail, files),
        Ok(Some(found)) => Ok(Some(found)),
        Err(fault) => Err(fault),
    }
}

// In the boot folders, the platform folders, then the application folders.
fn find_app<F: Files>(
    alloc: Global,
    paths: &Paths,
    tail: &str,
    files: &mut F,
) -> Result<Option<Found>, FilesFault>
    ensures searches { Searches (F.store files.old) (F.store files.new) (files_at tail.now (folders_of paths.now loaders.App)) result }
    ensures size { FindsSmall result }
    ensures cause { CountsFailure (F.read_faults files.old) (F.read_faults files.new) result }
    ensures failed { IsErrOf result FilesFault.Failed → F.can_fail files.old }
    ensures stays { F.can_fail files.new → F.can_fail files.old }
    ensures writes { F.write_faults files.new ≡ F.write_faults files.old }
{
    match find_platform(alloc, paths, tail, files) {
        Ok(None) => find_in(alloc, Loader::App, 2, &paths.app, tail, files),
        Ok(Some(found)) => Ok(Some(found)),
        Err(fault) => Err(fault),
    }
}

// In the folders of one loader, which have the numbers from `first` on.
fn find_in<F: Files>(
    alloc: Global,
    loader: Loader,
    first: u32,
    folders: &Names,
    tail: &str,
    files: &mut F,
) -> Result<Option<Found>, FilesFault>
    requires { first + length folders.now ≤ 2 ^ 32 }
    ensures searches { Searches (F.store files.old) (F.store files.new) (files_at tail.now (numbered loader first folders.now)) result }
    ensures size { FindsSmall result }
    ensures cause { CountsFailure (F.read_faults files.old) (F.read_faults files.new) result }
    ensures failed { IsErrOf result FilesFault.Failed → F.can_fail files.old }
    ensures stays { F.can_fail files.new → F.can_fail files.old }
    ensures writes { F.write_faults files.new ≡ F.write_faults files.old }
{
    for k in 0..folders.len() {
        let Ok(path) = joined(alloc, folders.at(k), tail) else {
            return Err(FilesFault::Memory);
        };
        match read_at(alloc, loader, first + k, &path, files) {
            Ok(None) => {}
            Ok(Some(found)) => return Ok(Some(found)),
            Err(fault) => return Err(fault),
        }
    }
    Ok(None)
}

fn joined(alloc: Global, folder: &str, tail: &str) -> Result<String, AllocError>
    ensures { IfOk result (λ path. string_bytes path ≡ folder.now ++ tail.now) }
{
    let mut path = String::from_str(alloc, folder)?;
    path.push_str(tail)?;
    Ok(path)
}

// The file at one path.
fn read_at<F: Files>(
    alloc: Global,
    loader: Loader,
    folder: u32,
    path: &str,
    files: &mut F,
) -> Result<Option<Found>, FilesFault>
    ensures searches { Searches (F.store files.old) (F.store files.new)
        (record { loader = loader; folder = folder; path = path.now } ∷ []) result }
    ensures size { FindsSmall result }
    ensures cause { CountsFailure (F.read_faults files.old) (F.read_faults files.new) result }
    ensures failed { IsErrOf result FilesFault.Failed → F.can_fail files.old }
    ensures stays { F.can_fail files.new → F.can_fail files.old }
    ensures writes { F.write_faults files.new ≡ F.write_faults files.old }
{
    match files.read(alloc, path) {
        Ok(Some(bytes)) => Ok(Some(Found {
            loader,
            folder,
            bytes,
        })),
        Ok(None) => Ok(None),
        Err(fault) => Err(fault),
    }
}
