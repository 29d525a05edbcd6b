//! Writes the folders of a manifest.
ghost use Rattle.std.specs.Prelude.{◌≡◌, ◌<◌, ◌^◌, ◌++◌, length, IsTrue, OnOk};
ghost use Rattle.std.specs.List.{flat_map, list_all, AllByRecursion};
ghost use Rattle.archive_header.specs.Folders as lists;
ghost use Rattle.archive_header.specs.ManifestBytes as spec;

use crate::folders::{Folder, Folders, ListedFile};
use jsa_base::{Cursor, put_low_text, put_low_u4, put_low_u8};
use std::alloc::AllocError;

fn has_short_name(file: &ListedFile) -> bool
    ensures { result ≡ spec.has_short_name file.now }
{
    file.name.len() < 0x1_0000_0000
}

fn have_short_names(files: &[ListedFile]) -> bool
    ensures { result ≡ list_all spec.has_short_name files.now }
{
    files.iter().all(has_short_name)
}

fn has_short_texts(folder: &Folder) -> bool
    ensures { result ≡ spec.has_short_texts folder.now }
{
    folder.path.len() < 0x1_0000_0000 && have_short_names(folder.files.as_slice())
}

fn has_short_texts_or_none(folder: &Option<Folder>) -> bool
    ensures { result ≡ spec.has_short_texts_or_none folder.now }
{
    match folder {
        None => true,
        Some(folder) => has_short_texts(folder),
    }
}

fn all_have_short_texts(folders: &[Folder]) -> bool
    ensures { result ≡ list_all spec.has_short_texts folders.now }
{
    folders.iter().all(has_short_texts)
}

/// Whether each path and each name has fewer than 2^32 bytes.
pub(crate) fn have_short_texts(folders: &Folders) -> bool
    ensures { result ≡ spec.have_short_texts folders.now }
{
    has_short_texts_or_none(&folders.boot)
        && has_short_texts_or_none(&folders.platform)
        && all_have_short_texts(folders.app.as_slice())
}

fn number_fits(number: u64)
    ensures { number < 2 ^ 64 }
{}

fn digest_fits(digest: &[u8; 32])
    ensures { spec.IsDigest digest.now }
{
    Cursor::new(digest).are_bytes();
}

// What the types of the fields say of a file whose name is short.
fn fits(file: &ListedFile)
    requires { spec.HasShortName file.now }
    ensures { spec.FitsFile file.now }
{
    Cursor::new(file.name.as_slice()).are_bytes();
    number_fits(file.size);
    digest_fits(&file.sha256);
}

fn push_file(bytes: &mut Vec<u8>, file: &ListedFile) -> Result<(), AllocError>
    requires { spec.HasShortName file.now }
    ensures written { OnOk result (bytes.new.items ≡ bytes.old.items ++ spec.file_bytes file.now) }
    ensures fits { spec.FitsFile file.now }
{
    fits(file);
    put_low_text(bytes, file.name.as_slice())?;
    put_low_u8(bytes, file.size)?;
    bytes.extend_from_slice(&file.sha256)
}

fn push_files(bytes: &mut Vec<u8>, files: &[ListedFile]) -> Result<(), AllocError>
    requires { AllByRecursion spec.HasShortName files.now }
    ensures written { OnOk result (bytes.new.items ≡ bytes.old.items ++ flat_map spec.file_bytes files.now) }
    ensures fits { OnOk result (AllByRecursion spec.FitsFile files.now) }
{
    let mut rest = files;
    loop {
        let [file, more @ ..] = rest else {
            return Ok(());
        };
        push_file(bytes, file)?;
        rest = more;
    }
}

fn push_folder(bytes: &mut Vec<u8>, folder: &Folder) -> Result<(), AllocError>
    requires short { spec.HasShortTexts folder.now }
    requires few { length folder.now.files < 2 ^ 32 }
    ensures written { OnOk result (bytes.new.items ≡ bytes.old.items ++ spec.folder_bytes folder.now) }
    ensures fits { OnOk result (spec.FitsFolder folder.now) }
{
    let path = folder.path.as_slice();
    let files = folder.files.as_slice();
    Cursor::new(path).are_bytes();
    put_low_text(bytes, path)?;
    put_low_u4(bytes, files.len() as u32)?;
    push_files(bytes, files)
}

fn push_some(bytes: &mut Vec<u8>, folders: &[Folder]) -> Result<(), AllocError>
    requires short { AllByRecursion spec.HasShortTexts folders.now }
    requires few { AllByRecursion spec.HasFewFiles folders.now }
    ensures written { OnOk result (bytes.new.items ≡ bytes.old.items ++ flat_map spec.folder_bytes folders.now) }
    ensures fits { OnOk result (AllByRecursion spec.FitsFolder folders.now) }
{
    let mut rest = folders;
    loop {
        let [folder, more @ ..] = rest else {
            return Ok(());
        };
        push_folder(bytes, folder)?;
        rest = more;
    }
}

fn push_one_or_none(bytes: &mut Vec<u8>, folder: &Option<Folder>) -> Result<(), AllocError>
    requires short { AllByRecursion spec.HasShortTexts (spec.one_or_none folder.now) }
    requires few { AllByRecursion spec.HasFewFiles (spec.one_or_none folder.now) }
    ensures written { OnOk result (bytes.new.items ≡ bytes.old.items ++ flat_map spec.folder_bytes (spec.one_or_none folder.now)) }
    ensures fits { OnOk result (AllByRecursion spec.FitsFolder (spec.one_or_none folder.now)) }
{
    match folder {
        None => Ok(()),
        Some(folder) => push_folder(bytes, folder),
    }
}

fn count(folder: &Option<Folder>) -> u32
    ensures { result ≡ length (spec.one_or_none folder.now) }
{
    match folder {
        None => 0,
        Some(_) => 1,
    }
}

fn push_counts(bytes: &mut Vec<u8>, folders: &Folders) -> Result<(), AllocError>
    requires { length folders.now.app < 2 ^ 32 }
    ensures { OnOk result (bytes.new.items ≡ bytes.old.items ++ spec.counts folders.now) }
{
    put_low_u4(bytes, count(&folders.boot))?;
    put_low_u4(bytes, count(&folders.platform))?;
    put_low_u4(bytes, folders.app.len() as u32)
}

/// The numbers of folders, and the folders, without the zeros behind them.
pub(crate) fn push_folders(bytes: &mut Vec<u8>, folders: &Folders) -> Result<(), AllocError>
    requires short { spec.HaveShortTexts folders.now }
    requires listed { IsTrue (lists.are_folders folders.now) }
    ensures written { OnOk result (bytes.new.items ≡ bytes.old.items ++ spec.unpadded folders.now) }
    ensures fits { OnOk result (spec.FitsFolders folders.now) }
{
    push_counts(bytes, folders)?;
    push_one_or_none(bytes, &folders.boot)?;
    push_one_or_none(bytes, &folders.platform)?;
    push_some(bytes, folders.app.as_slice())
}

/// Zeros to a multiple of 8, fewer than 8 of them.
pub(crate) fn push_padding(bytes: &mut Vec<u8>) -> Result<(), AllocError>
    ensures { OnOk result (bytes.new.items ≡ bytes.old.items ++ spec.padding (length bytes.old.items)) }
{
    let fill = (8 - bytes.len() % 8) % 8;
    bytes.extend_from_slice(&[0; 8][..fill])
}
