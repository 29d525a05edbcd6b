//! Reads a manifest from left to right.
ghost use Rattle.std.specs.Prelude.{◌≡◌, List, ℕ, Some, IfOk, ◌%◌};
ghost use Rattle.std.specs.List.{list_all};
ghost use Rattle.std.specs.Option.{OnSome};
ghost use Rattle.jsa_base.specs.Reading.{bytes_at, times};
ghost use Rattle.jsa_base.specs.LowFirst.{low_u4_at, low_u8_at, low_text_at, low_counted_at};
ghost use Rattle.archive_header.specs.ManifestBytes as spec;
ghost use Rattle.archive_header.specs.Outcomes.{Gives, Yields};
ghost use Rattle.archive_header.specs.declared.manifest_reading.Unread.TheVariants.{Memory};

use crate::folders::{Folder, Folders, ListedFile, are_folders};
use jsa_base::Cursor;
use sqlite_items::Items;
use std::alloc::{AllocError, AllocFailed, Global};

/// Why no manifest was read.
#[derive(Clone, Copy, Debug)]
pub(crate) enum Unread {
    /// The bytes are those of no manifest.
    NotManifest,
    /// Memory ran out.
    Memory,
}

impl From<AllocError> for Unread {
    ghost from_gives = { λ _ e. e ≡ Memory };

    fn from(_: AllocError) -> Unread {
        Unread::Memory
    }
}

impl<T: Drop> From<AllocFailed<T>> for Unread {
    ghost from_gives = { λ _ e. e ≡ Memory };

    fn from(_: AllocFailed<T>) -> Unread {
        Unread::Memory
    }
}

fn low_u4(cursor: &mut Cursor<'_>) -> Result<u32, Unread>
    ensures { Gives result cursor.new (low_u4_at cursor.old) }
{
    cursor.low_u4().ok_or(Unread::NotManifest)
}

fn low_u8(cursor: &mut Cursor<'_>) -> Result<u64, Unread>
    ensures { Gives result cursor.new (low_u8_at cursor.old) }
{
    cursor.low_u8().ok_or(Unread::NotManifest)
}

fn bytes(alloc: Global, n: usize, cursor: &mut Cursor<'_>) -> Result<Items<u8>, Unread>
    ensures { Gives result cursor.new (bytes_at n cursor.old) }
{
    match cursor.bytes(n) {
        None => Err(Unread::NotManifest),
        Some(bytes) => Ok(Items::from_slice(alloc, bytes)?),
    }
}

#[tactic(auto, unfolding(jsa_base::specs::LowFirst::low_text_at))]
fn text(alloc: Global, cursor: &mut Cursor<'_>) -> Result<Items<u8>, Unread>
    ensures { Gives result cursor.new (low_text_at cursor.old) }
{
    let size = low_u4(cursor)?;
    bytes(alloc, size as usize, cursor)
}

fn digest(cursor: &mut Cursor<'_>) -> Result<[u8; 32], Unread>
    ensures { Gives result cursor.new (bytes_at 32 cursor.old) }
{
    match cursor.bytes(32) {
        None => Err(Unread::NotManifest),
        Some(bytes) => {
            let mut digest = [0; 32];
            digest.copy_from_slice(bytes);
            Ok(digest)
        }
    }
}

#[tactic(auto, unfolding(crate::specs::ManifestBytes::file_at))]
fn file(alloc: Global, cursor: &mut Cursor<'_>) -> Result<ListedFile, Unread>
    ensures { Gives result cursor.new (spec.file_at cursor.old) }
{
    let name = text(alloc, cursor)?;
    let size = low_u8(cursor)?;
    let sha256 = digest(cursor)?;
    Ok(ListedFile { name, size, sha256 })
}

#[tactic(auto, using(jsa_base::proofs::Loops::goes_on, crate::proofs::Loop::ends, jsa_base::proofs::Loops::is_done))]
fn some_files(
    alloc: Global,
    count: u32,
    cursor: &mut Cursor<'_>,
) -> Result<Items<ListedFile>, Unread>
    ensures { Gives result cursor.new (times spec.file_at count cursor.old) }
{
    let mut files = Items::new(alloc);
    for _ in 0..count {
        files.push(file(alloc, cursor)?)?;
    }
    Ok(files)
}

fn files(alloc: Global, cursor: &mut Cursor<'_>) -> Result<Items<ListedFile>, Unread>
    ensures { Gives result cursor.new (low_counted_at spec.file_at cursor.old) }
{
    let count = low_u4(cursor)?;
    some_files(alloc, count, cursor)
}

#[tactic(auto, unfolding(crate::specs::ManifestBytes::folder_at))]
fn folder(alloc: Global, cursor: &mut Cursor<'_>) -> Result<Folder, Unread>
    ensures { Gives result cursor.new (spec.folder_at cursor.old) }
{
    let path = text(alloc, cursor)?;
    let files = files(alloc, cursor)?;
    Ok(Folder { path, files })
}

#[tactic(auto, unfolding(crate::specs::ManifestBytes::one_or_none_at))]
fn one_or_none(alloc: Global, count: u32, cursor: &mut Cursor<'_>) -> Result<Option<Folder>, Unread>
    ensures { Gives result cursor.new (spec.one_or_none_at count cursor.old) }
{
    if count == 0 {
        return Ok(None);
    }
    if count == 1 {
        return Ok(Some(folder(alloc, cursor)?));
    }
    Err(Unread::NotManifest)
}

#[tactic(auto, using(jsa_base::proofs::Loops::goes_on, crate::proofs::Loop::ends, jsa_base::proofs::Loops::is_done))]
fn some_folders(alloc: Global, count: u32, cursor: &mut Cursor<'_>) -> Result<Items<Folder>, Unread>
    ensures { Gives result cursor.new (times spec.folder_at count cursor.old) }
{
    let mut folders = Items::new(alloc);
    for _ in 0..count {
        folders.push(folder(alloc, cursor)?)?;
    }
    Ok(folders)
}

// Lets go of a folder, and hands on why nothing is read.
fn leave(_folder: Option<Folder>, unread: Unread) -> Unread
    ensures { result ≡ unread }
{
    unread
}

#[tactic(auto, unfolding(crate::specs::ManifestBytes::folders_at))]
fn folders(alloc: Global, cursor: &mut Cursor<'_>) -> Result<Folders, Unread>
    ensures { Gives result cursor.new (spec.folders_at cursor.old) }
{
    let boots = low_u4(cursor)?;
    let platforms = low_u4(cursor)?;
    let apps = low_u4(cursor)?;
    let boot = one_or_none(alloc, boots, cursor)?;
    let platform = match one_or_none(alloc, platforms, cursor) {
        Ok(platform) => platform,
        Err(unread) => return Err(leave(boot, unread)),
    };
    match some_folders(alloc, apps, cursor) {
        Ok(app) => Ok(Folders {
            boot,
            platform,
            app,
        }),
        Err(unread) => Err(leave(boot, leave(platform, unread))),
    }
}

fn are_zeros(rest: &[u8]) -> bool
    ensures { result ≡ list_all spec.is_zero rest.now }
{
    rest.iter().all(|b| *b == 0)
}

// Whether what is left fills the manifest, of so many bytes in all.
fn is_padding(size: usize, rest: &[u8]) -> bool
    ensures { result ≡ spec.is_padding size rest.now }
{
    size % 8 == 0 && rest.len() < 8 && are_zeros(rest)
}

/// The folders of a manifest, of whose bytes none are left.
#[tactic(auto, unfolding(crate::specs::ManifestBytes::manifest_of))]
pub(crate) fn whole_manifest(alloc: Global, bytes: &[u8]) -> Result<Folders, Unread>
    ensures { Yields result (spec.manifest_of bytes.now) }
{
    let mut cursor = Cursor::new(bytes);
    let folders = folders(alloc, &mut cursor)?;
    if !is_padding(bytes.len(), cursor.rest()) || !are_folders(&folders) {
        return Err(Unread::NotManifest);
    }
    Ok(folders)
}
