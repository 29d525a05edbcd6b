//! The folders that a manifest lists, and whether their lists are such.
ghost use Rattle.std.specs.Prelude.{◌≡◌};
ghost use Rattle.std.specs.List.{list_all};
ghost use Rattle.std.specs.Option.{option_copied};
ghost use Rattle.std.specs.Str.{is_utf8};
ghost use Rattle.archive_header.specs.Folders as spec;

use sqlite_items::{Items, at};

/// A class file of a folder.
#[derive(Debug, Drop)]
pub struct ListedFile {
    /// Its path from the folder on, in UTF-8.
    pub name: Items<u8>,
    /// Its size in bytes.
    pub size: u64,
    /// The SHA-256 of its bytes.
    pub sha256: [u8; 32],
}

/// A folder with its class files.
#[derive(Debug, Drop)]
pub struct Folder {
    /// Its path as it was written, in UTF-8.
    pub path: Items<u8>,
    /// The files, in ascending order of the bytes of their names.
    pub files: Items<ListedFile>,
}

/// The folders in which classes are looked for. Their numbers are 0 for boot, 1 for platform, and for application those
/// from 2 on.
#[derive(Debug, Drop)]
pub struct Folders {
    pub boot: Option<Folder>,
    pub platform: Option<Folder>,
    pub app: Items<Folder>,
}

/// The folder of a number.
pub(crate) fn folder_of(folders: &Folders, number: u32) -> Option<&Folder>
    ensures { option_copied result ≡ spec.folder_of folders.now number }
{
    if number == 0 {
        return folders.boot.as_ref();
    }
    if number == 1 {
        return folders.platform.as_ref();
    }
    at(folders.app.as_slice(), number as usize - 2)
}

fn is_text(bytes: &[u8]) -> bool
    ensures { result ≡ is_utf8 bytes.now }
{
    match std::str::from_utf8(bytes) {
        Ok(_) => true,
        Err(_) => false,
    }
}

fn has_text_name(file: &ListedFile) -> bool
    ensures { result ≡ spec.has_text_name file.now }
{
    is_text(file.name.as_slice())
}

fn have_text_names(files: &[ListedFile]) -> bool
    ensures { result ≡ list_all spec.has_text_name files.now }
{
    files.iter().all(has_text_name)
}

fn is_below(first: &[u8], second: &[u8]) -> bool
    ensures { result ≡ spec.is_below first.now second.now }
{
    first.cmp(second).is_lt()
}

fn is_before(file: &ListedFile, files: &[ListedFile]) -> bool
    ensures { result ≡ spec.is_before file.now files.now }
{
    let [next, ..] = files else {
        return true;
    };
    is_below(file.name.as_slice(), next.name.as_slice())
}

fn ascends(files: &[ListedFile]) -> bool
    ensures { result ≡ spec.ascends files.now }
{
    let mut rest = files;
    loop {
        let [first, more @ ..] = rest else {
            return true;
        };
        if !is_before(first, more) {
            return false;
        }
        rest = more;
    }
}

fn is_folder(folder: &Folder) -> bool
    ensures { result ≡ spec.is_folder folder.now }
{
    let files = folder.files.as_slice();
    is_text(folder.path.as_slice())
        && files.len() < 0x1_0000_0000
        && have_text_names(files)
        && ascends(files)
}

fn is_folder_or_none(folder: &Option<Folder>) -> bool
    ensures { result ≡ spec.is_folder_or_none folder.now }
{
    match folder {
        None => true,
        Some(folder) => is_folder(folder),
    }
}

fn are_all_folders(folders: &[Folder]) -> bool
    ensures { result ≡ list_all spec.is_folder folders.now }
{
    folders.iter().all(is_folder)
}

/// Whether a manifest may list these folders: the paths and names are UTF-8, the names of each folder ascend strictly by
/// their bytes, each folder's number and each file's place is one of 32 bits.
pub fn are_folders(folders: &Folders) -> bool
    ensures { result ≡ spec.are_folders folders.now }
{
    is_folder_or_none(&folders.boot)
        && is_folder_or_none(&folders.platform)
        && folders.app.len() < 0xffff_ffff
        && are_all_folders(folders.app.as_slice())
}
