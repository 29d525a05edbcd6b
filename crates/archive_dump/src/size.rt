//! How many bytes an archive has, before it is made.
ghost use Rattle.std.specs.Prelude.{◌≡◌, ◌+◌, ◌++◌, length, nat_lt};
ghost use Rattle.std.specs.List.{flat_map};
ghost use Rattle.jsa_base.specs.LowFirst.{low_text, low_counted};
ghost use Rattle.archive_header.specs.ManifestBytes as manifests;
ghost use Rattle.archive_dump.specs.Room.{left_of};

use crate::dump::MAX_ARCHIVE;
use archive_header::{Folder, Folders, ListedFile};

// What is left of a room of so many bytes behind others. None where those don't fit.
#[tactic(auto, unfolding(crate::specs::Room::left_of))]
fn behind(room: u64, size: u64) -> Option<u64>
    ensures { result ≡ left_of room size }
{
    room.checked_sub(size)
}

fn behind_text(room: u64, text: &[u8]) -> Option<u64>
    ensures { result ≡ left_of room (length (low_text text.now)) }
{
    let Some(room) = behind(room, 4) else {
        return None;
    };
    behind(room, text.len() as u64)
}

fn digest_size(digest: [u8; 32]) -> u64
    ensures size { result ≡ length digest }
    ensures number { result ≡ 32 }
{
    32
}

fn behind_file(room: u64, file: &ListedFile) -> Option<u64>
    ensures { result ≡ left_of room (length (manifests.file_bytes file.now)) }
{
    let Some(room) = behind_text(room, file.name.as_slice()) else {
        return None;
    };
    behind(room, 8 + digest_size(file.sha256))
}

fn behind_files(room: u64, files: &[ListedFile]) -> Option<u64>
    ensures { result ≡ left_of room (length (flat_map manifests.file_bytes files.now)) }
{
    let mut room = room;
    let mut rest = files;
    loop {
        let [file, more @ ..] = rest else {
            return Some(room);
        };
        let Some(left) = behind_file(room, file) else {
            return None;
        };
        room = left;
        rest = more;
    }
}

fn behind_counted(room: u64, files: &[ListedFile]) -> Option<u64>
    ensures { result ≡ left_of room (length (low_counted manifests.file_bytes files.now)) }
{
    let Some(room) = behind(room, 4) else {
        return None;
    };
    behind_files(room, files)
}

fn behind_folder(room: u64, folder: &Folder) -> Option<u64>
    ensures { result ≡ left_of room (length (manifests.folder_bytes folder.now)) }
{
    let Some(room) = behind_text(room, folder.path.as_slice()) else {
        return None;
    };
    behind_counted(room, folder.files.as_slice())
}

fn behind_some(room: u64, folders: &[Folder]) -> Option<u64>
    ensures { result ≡ left_of room (length (flat_map manifests.folder_bytes folders.now)) }
{
    let mut room = room;
    let mut rest = folders;
    loop {
        let [folder, more @ ..] = rest else {
            return Some(room);
        };
        let Some(left) = behind_folder(room, folder) else {
            return None;
        };
        room = left;
        rest = more;
    }
}

fn behind_one_or_none(room: u64, folder: &Option<Folder>) -> Option<u64>
    ensures { result ≡ left_of room (length (flat_map manifests.folder_bytes (manifests.one_or_none folder.now))) }
{
    match folder {
        None => Some(room),
        Some(folder) => behind_folder(room, folder),
    }
}

fn behind_others(room: u64, folders: &Folders) -> Option<u64>
    ensures { result ≡ left_of room (length (flat_map manifests.folder_bytes (manifests.one_or_none folders.now.platform) ++ flat_map manifests.folder_bytes folders.now.app)) }
{
    let Some(room) = behind_one_or_none(room, &folders.platform) else {
        return None;
    };
    behind_some(room, folders.app.as_slice())
}

fn behind_all(room: u64, folders: &Folders) -> Option<u64>
    ensures { result ≡ left_of room (length (flat_map manifests.folder_bytes (manifests.all_folders folders.now))) }
{
    let Some(room) = behind_one_or_none(room, &folders.boot) else {
        return None;
    };
    behind_others(room, folders)
}

fn behind_unpadded(room: u64, folders: &Folders) -> Option<u64>
    ensures { result ≡ left_of room (length (manifests.unpadded folders.now)) }
{
    let Some(room) = behind(room, 12) else {
        return None;
    };
    behind_all(room, folders)
}

fn behind_manifest(room: u64, folders: &Folders) -> Option<u64>
    ensures { result ≡ left_of room (length (manifests.manifest_bytes folders.now)) }
{
    let Some(left) = behind_unpadded(room, folders) else {
        return None;
    };
    behind(left, (8 - (room - left) % 8) % 8)
}

fn behind_body(room: u64, ro_size: u64, folders: &Folders) -> Option<u64>
    ensures { result ≡ left_of room (ro_size + length (manifests.manifest_bytes folders.now)) }
{
    let Some(room) = behind(room, ro_size) else {
        return None;
    };
    behind_manifest(room, folders)
}

fn behind_archive(room: u64, ro_size: u64, folders: &Folders) -> Option<u64>
    ensures { result ≡ left_of room (256 + (ro_size + length (manifests.manifest_bytes folders.now))) }
{
    let Some(room) = behind(room, 256) else {
        return None;
    };
    behind_body(room, ro_size, folders)
}

/// Whether a header, classes of so many bytes and the manifest of these folders are more bytes than an archive may have.
pub(crate) fn is_too_large(ro_size: u64, folders: &Folders) -> bool
    ensures { result ≡ nat_lt MAX_ARCHIVE (256 + (ro_size + length (manifests.manifest_bytes folders.now))) }
{
    behind_archive(MAX_ARCHIVE, ro_size, folders).is_none()
}
