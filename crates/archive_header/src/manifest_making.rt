//! Makes the manifest of a store.
ghost use Rattle.std.specs.Prelude.{◌≡◌, ◌≤◌, ◌+◌, ◌++◌, ◌∷◌, [], length, map, IfOk, IfErr, IsErrOf, OnOk, IsTrue};
ghost use Rattle.std.specs.List.{filter_map};
ghost use Rattle.std.specs.Option.{IfSome, option_to_list, option_or};
ghost use Rattle.std.specs.String.{string_bytes};
ghost use Rattle.std.specs.Str.{is_utf8};
ghost use Rattle.jsa_files.specs.Causes.{CountsFailure};
ghost use Rattle.jsa_files.specs.Listing.{Ascend, class_names};
ghost use Rattle.archive_header.specs.Manifests as spec;
ghost use Rattle.archive_header.specs.Making.{Answers, IsAbove, IsListed, Adds, HaveNames, IsMade, AddsFolder, AreMade, names_from};

use crate::folders::{Folder, Folders, ListedFile};
use crate::manifest_type::Manifest;
use jsa_files::{Files, FilesFault, MAX_NAMES, Names, Stamp};
use loader_rules::Paths;
use sqlite_items::Items;
use std::alloc::{AllocError, Global};

/// The manifest of a store: the folders of each loader, and for each its path as it was written and the ascending list
/// of its class files, each with its name from the folder on, its size in bytes and its SHA-256 (FIPS 180-4).
///
/// Folder by folder, in the order boot, platform, application, each is listed, then the names of the folders so far are
/// counted, then its files are digested in their order. A file that is gone when it is digested is left out. The store
/// stays as it is, and no bytes are handed out.
///
/// # Errors
///
/// The first that is met. `TooMany` with the number of a folder's names where they are more than 262,144, or with the
/// number of all names up to and with those of a folder where these are; `TooLarge` with the size of a file of more than
/// 67,108,864 bytes; `Failed` where a call of the store answers that, and only there; `Memory` where memory runs out.
pub fn manifest<F: Files>(
    alloc: Global,
    paths: &Paths,
    files: &mut F,
) -> Result<Manifest, FilesFault>
    ensures answer { spec.MakesAsTold (F.store files.old) paths.now result }
    ensures small { spec.MakesSmall result }
    ensures paths { IfOk result (λ m. spec.lists_of m ≡ paths.now) }
    ensures store { F.store files.new ≡ F.store files.old }
    ensures cause { CountsFailure (F.read_faults files.old) (F.read_faults files.new) result }
    ensures failed { IsErrOf result FilesFault.Failed → F.can_fail files.old }
    ensures stays { F.can_fail files.new → F.can_fail files.old }
    ensures writes { F.write_faults files.new ≡ F.write_faults files.old }
{
    let mut count = 0;
    let boot = match one_folder(alloc, &paths.boot, &mut count, files) {
        Ok(folder) => folder,
        Err(fault) => return Err(fault),
    };
    let platform = match one_folder(alloc, &paths.platform, &mut count, files) {
        Ok(folder) => folder,
        Err(fault) => return Err(leave(boot, fault)),
    };
    let app = match some_folders(alloc, &paths.app, &mut count, files) {
        Ok(folders) => folders,
        Err(fault) => return Err(leave(boot, leave(platform, fault))),
    };
    Ok(Manifest::new(Folders {
        boot,
        platform,
        app,
    }))
}

// Lets go of a folder, and hands on a fault.
fn leave(_folder: Option<Folder>, fault: FilesFault) -> FilesFault
    ensures { result ≡ fault }
{
    fault
}

// The folder of a loader that has one at most.
fn one_folder<F: Files>(
    alloc: Global,
    paths: &Names,
    count: &mut u32,
    files: &mut F,
) -> Result<Option<Folder>, FilesFault>
    requires one { length paths.now ≤ 1 }
    requires before { count.old ≤ MAX_NAMES }
    ensures answer { Answers (F.store files.old) (λ c. spec.limit_from c count.old paths.now)
        (λ c folder. (folder ≡ spec.one_now c paths.now) × (count.new ≡ names_from c count.old paths.now)) result }
    ensures made { IfOk result (λ folder. AreMade paths.now count.old count.new (option_to_list folder)) }
    ensures few { OnOk result (count.new ≤ MAX_NAMES) }
    ensures fault { IfErr result IsAbove }
    ensures store { F.store files.new ≡ F.store files.old }
    ensures cause { CountsFailure (F.read_faults files.old) (F.read_faults files.new) result }
    ensures failed { IsErrOf result FilesFault.Failed → F.can_fail files.old }
    ensures stays { F.can_fail files.new → F.can_fail files.old }
    ensures writes { F.write_faults files.new ≡ F.write_faults files.old }
{
    match some_folders(alloc, paths, count, files) {
        Ok(folders) => Ok(one_of(folders)),
        Err(fault) => Err(fault),
    }
}

fn one_of(folders: Items<Folder>) -> Option<Folder>
    requires { length folders ≤ 1 }
    ensures { option_to_list result ≡ folders }
{
    let mut folders = folders;
    folders.pop()
}

// The folders of these paths, where there are so many names in those before them.
fn some_folders<F: Files>(
    alloc: Global,
    paths: &Names,
    count: &mut u32,
    files: &mut F,
) -> Result<Items<Folder>, FilesFault>
    requires { count.old ≤ MAX_NAMES }
    ensures answer { Answers (F.store files.old) (λ c. spec.limit_from c count.old paths.now)
        (λ c folders. (folders ≡ map (spec.folder_now c) paths.now) × (count.new ≡ names_from c count.old paths.now)) result }
    ensures made { IfOk result (λ folders. AreMade paths.now count.old count.new folders) }
    ensures few { OnOk result (count.new ≤ MAX_NAMES) }
    ensures fault { IfErr result IsAbove }
    ensures store { F.store files.new ≡ F.store files.old }
    ensures cause { CountsFailure (F.read_faults files.old) (F.read_faults files.new) result }
    ensures failed { IsErrOf result FilesFault.Failed → F.can_fail files.old }
    ensures stays { F.can_fail files.new → F.can_fail files.old }
    ensures writes { F.write_faults files.new ≡ F.write_faults files.old }
{
    let mut folders = Items::new(alloc);
    for k in 0..paths.len() {
        match push_folder(alloc, paths.at(k), count, &mut folders, files) {
            Ok(()) => {}
            Err(fault) => return Err(fault),
        }
    }
    Ok(folders)
}

fn push_folder<F: Files>(
    alloc: Global,
    path: &str,
    count: &mut u32,
    folders: &mut Items<Folder>,
    files: &mut F,
) -> Result<(), FilesFault>
    requires { count.old ≤ MAX_NAMES }
    ensures answer { Answers (F.store files.old) (λ c. spec.limit_of c count.old path.now (class_names c path.now))
        (λ c _. (folders.new ≡ folders.old ++ spec.folder_now c path.now ∷ []) × (count.new ≡ spec.names_to c count.old path.now)) result }
    ensures made { OnOk result (AddsFolder path.now count.old count.new folders.old folders.new) }
    ensures few { OnOk result (count.new ≤ MAX_NAMES) }
    ensures fault { IfErr result IsAbove }
    ensures store { F.store files.new ≡ F.store files.old }
    ensures cause { CountsFailure (F.read_faults files.old) (F.read_faults files.new) result }
    ensures failed { IsErrOf result FilesFault.Failed → F.can_fail files.old }
    ensures stays { F.can_fail files.new → F.can_fail files.old }
    ensures writes { F.write_faults files.new ≡ F.write_faults files.old }
{
    match listed_folder(alloc, path, count, files) {
        Ok(folder) => {
            let Ok(()) = folders.push(folder) else {
                return Err(FilesFault::Memory);
            };
            Ok(())
        }
        Err(fault) => Err(fault),
    }
}

// The folder of this path, where there are so many names in those before it.
fn listed_folder<F: Files>(
    alloc: Global,
    path: &str,
    count: &mut u32,
    files: &mut F,
) -> Result<Folder, FilesFault>
    requires { count.old ≤ MAX_NAMES }
    ensures answer { Answers (F.store files.old) (λ c. spec.limit_of c count.old path.now (class_names c path.now))
        (λ c folder. (folder ≡ spec.folder_now c path.now) × (count.new ≡ spec.names_to c count.old path.now)) result }
    ensures made { IfOk result (λ folder. IsMade path.now count.old count.new folder) }
    ensures few { OnOk result (count.new ≤ MAX_NAMES) }
    ensures fault { IfErr result IsAbove }
    ensures store { F.store files.new ≡ F.store files.old }
    ensures cause { CountsFailure (F.read_faults files.old) (F.read_faults files.new) result }
    ensures failed { IsErrOf result FilesFault.Failed → F.can_fail files.old }
    ensures stays { F.can_fail files.new → F.can_fail files.old }
    ensures writes { F.write_faults files.new ≡ F.write_faults files.old }
{
    match files.list(alloc, path) {
        Ok(names) => counted_folder(alloc, path, &names, count, files),
        Err(fault) => Err(fault),
    }
}

// The folder of this path and of these names.
fn counted_folder<F: Files>(
    alloc: Global,
    path: &str,
    names: &Names,
    count: &mut u32,
    files: &mut F,
) -> Result<Folder, FilesFault>
    requires order { Ascend names.now }
    requires number { length names.now ≤ MAX_NAMES }
    requires before { count.old ≤ MAX_NAMES }
    ensures answer { Answers (F.store files.old) (λ c. option_or (spec.too_many (count.old + length names.now)) (spec.first_large c path.now names.now))
        (λ c folder. folder ≡ record { path = path.now; files = filter_map (spec.listed_at c path.now) names.now }) result }
    ensures count { OnOk result (count.new ≡ count.old + length names.now) }
    ensures made { IfOk result (λ folder. IsMade path.now count.old count.new folder) }
    ensures few { OnOk result (count.new ≤ MAX_NAMES) }
    ensures fault { IfErr result IsAbove }
    ensures store { F.store files.new ≡ F.store files.old }
    ensures cause { CountsFailure (F.read_faults files.old) (F.read_faults files.new) result }
    ensures failed { IsErrOf result FilesFault.Failed → F.can_fail files.old }
    ensures stays { F.can_fail files.new → F.can_fail files.old }
    ensures writes { F.write_faults files.new ≡ F.write_faults files.old }
{
    *count += names.len();
    if *count as usize > MAX_NAMES {
        return Err(FilesFault::TooMany(*count as u64));
    }
    match listed_files(alloc, path, names, files) {
        Ok(listed) => {
            let Ok(folder) = with_files(alloc, path, listed) else {
                return Err(FilesFault::Memory);
            };
            Ok(folder)
        }
        Err(fault) => Err(fault),
    }
}

fn with_files(alloc: Global, path: &str, files: Items<ListedFile>) -> Result<Folder, AllocError>
    ensures value { IfOk result (λ folder. folder ≡ record { path = path.now; files = files }) }
    ensures text { OnOk result (IsTrue (is_utf8 path.now)) }
{
    let path = Items::from_slice(alloc, path.as_bytes())?;
    Ok(Folder { path, files })
}

// The files of these names in a folder.
fn listed_files<F: Files>(
    alloc: Global,
    folder: &str,
    names: &Names,
    files: &mut F,
) -> Result<Items<ListedFile>, FilesFault>
    ensures answer { Answers (F.store files.old) (λ c. spec.first_large c folder.now names.now)
        (λ c listed. listed ≡ filter_map (spec.listed_at c folder.now) names.now) result }
    ensures names { IfOk result (λ listed. HaveNames listed names.now) }
    ensures fault { IfErr result IsAbove }
    ensures store { F.store files.new ≡ F.store files.old }
    ensures cause { CountsFailure (F.read_faults files.old) (F.read_faults files.new) result }
    ensures failed { IsErrOf result FilesFault.Failed → F.can_fail files.old }
    ensures stays { F.can_fail files.new → F.can_fail files.old }
    ensures writes { F.write_faults files.new ≡ F.write_faults files.old }
{
    let mut listed = Items::new(alloc);
    for k in 0..names.len() {
        match push_listed(alloc, folder, names.at(k), &mut listed, files) {
            Ok(()) => {}
            Err(fault) => return Err(fault),
        }
    }
    Ok(listed)
}

fn push_listed<F: Files>(
    alloc: Global,
    folder: &str,
    name: &str,
    listed: &mut Items<ListedFile>,
    files: &mut F,
) -> Result<(), FilesFault>
    ensures answer { Answers (F.store files.old) (λ c. spec.large_at c folder.now name.now)
        (λ c _. listed.new ≡ listed.old ++ option_to_list (spec.listed_at c folder.now name.now)) result }
    ensures adds { OnOk result (Adds name.now listed.old listed.new) }
    ensures fault { IfErr result IsAbove }
    ensures store { F.store files.new ≡ F.store files.old }
    ensures cause { CountsFailure (F.read_faults files.old) (F.read_faults files.new) result }
    ensures failed { IsErrOf result FilesFault.Failed → F.can_fail files.old }
    ensures stays { F.can_fail files.new → F.can_fail files.old }
    ensures writes { F.write_faults files.new ≡ F.write_faults files.old }
{
    match listed_file(alloc, folder, name, files) {
        Ok(Some(file)) => {
            let Ok(()) = listed.push(file) else {
                return Err(FilesFault::Memory);
            };
            Ok(())
        }
        Ok(None) => Ok(()),
        Err(fault) => Err(fault),
    }
}

// The file of a name in a folder. None where it isn't there.
fn listed_file<F: Files>(
    alloc: Global,
    folder: &str,
    name: &str,
    files: &mut F,
) -> Result<Option<ListedFile>, FilesFault>
    ensures answer { Answers (F.store files.old) (λ c. spec.large_at c folder.now name.now)
        (λ c file. file ≡ spec.listed_at c folder.now name.now) result }
    ensures listed { IfOk result (λ file. IfSome file (IsListed name.now)) }
    ensures fault { IfErr result IsAbove }
    ensures store { F.store files.new ≡ F.store files.old }
    ensures cause { CountsFailure (F.read_faults files.old) (F.read_faults files.new) result }
    ensures failed { IsErrOf result FilesFault.Failed → F.can_fail files.old }
    ensures stays { F.can_fail files.new → F.can_fail files.old }
    ensures writes { F.write_faults files.new ≡ F.write_faults files.old }
{
    let Ok(path) = path_in(alloc, folder, name) else {
        return Err(FilesFault::Memory);
    };
    match files.digest(alloc, &path) {
        Ok(Some(stamp)) => {
            let Ok(file) = stamped(alloc, name, stamp) else {
                return Err(FilesFault::Memory);
            };
            Ok(Some(file))
        }
        Ok(None) => Ok(None),
        Err(fault) => Err(fault),
    }
}

fn path_in(alloc: Global, folder: &str, name: &str) -> Result<String, AllocError>
    ensures { IfOk result (λ path. string_bytes path ≡ spec.path_in folder.now name.now) }
{
    let mut path = String::from_str(alloc, folder)?;
    path.push_str("/")?;
    path.push_str(name)?;
    Ok(path)
}

fn stamped(alloc: Global, name: &str, stamp: Stamp) -> Result<ListedFile, AllocError>
    ensures value { IfOk result (λ file. file ≡ record { name = name.now; size = stamp.size; sha256 = stamp.sha256 }) }
    ensures text { OnOk result (IsTrue (is_utf8 name.now)) }
{
    let name = Items::from_slice(alloc, name.as_bytes())?;
    let sha256 = stamp.sha256;
    Ok(ListedFile {
        name,
        size: stamp.size,
        sha256,
    })
}
