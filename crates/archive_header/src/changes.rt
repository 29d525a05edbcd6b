//! Which folder changed since a manifest was made.
ghost use Rattle.std.specs.Prelude.{◌≡◌, ◌<◌, ◌+◌, length};
ghost use Rattle.std.specs.Cmp.Lexicographic.{pointwise};
ghost use Rattle.archive_header.specs.Folders as lists;
ghost use Rattle.archive_header.specs.Changes as spec;

use crate::folders::{Folder, Folders, ListedFile};
use crate::manifest_type::Manifest;

fn is_same_file(kept: &ListedFile, now: &ListedFile) -> bool
    ensures { result ≡ spec.is_same_file kept.now now.now }
{
    kept.name.as_slice() == now.name.as_slice()
        && kept.size == now.size
        && kept.sha256 == now.sha256
}

fn are_same_files(kept: &[ListedFile], now: &[ListedFile]) -> bool
    ensures { result ≡ pointwise spec.is_same_file kept.now now.now }
{
    let mut kept = kept;
    let mut now = now;
    loop {
        let [first, more @ ..] = kept else {
            return now.len() == 0;
        };
        let [first_now, more_now @ ..] = now else {
            return false;
        };
        if !is_same_file(first, first_now) {
            return false;
        }
        kept = more;
        now = more_now;
    }
}

fn is_same_folder(kept: &Folder, now: &Folder) -> bool
    ensures { result ≡ spec.is_same_folder kept.now now.now }
{
    kept.path.as_slice() == now.path.as_slice()
        && are_same_files(kept.files.as_slice(), now.files.as_slice())
}

fn is_same_option(kept: &Option<Folder>, now: &Option<Folder>) -> bool
    ensures { result ≡ spec.is_same_option kept.now now.now }
{
    match (kept, now) {
        (None, None) => true,
        (None, Some(_)) => false,
        (Some(_), None) => false,
        (Some(kept), Some(now)) => is_same_folder(kept, now),
    }
}

// How many folders at the front are the same, up to the first that isn't. None where all that were kept are.
fn first_other(kept: &[Folder], now: &[Folder]) -> Option<usize>
    ensures { result ≡ spec.first_other kept.now now.now }
{
    let mut place = 0;
    let mut kept = kept;
    let mut now = now;
    loop {
        let [first, more @ ..] = kept else {
            return None;
        };
        let [first_now, more_now @ ..] = now else {
            return Some(place);
        };
        if !is_same_folder(first, first_now) {
            return Some(place);
        }
        place += 1;
        kept = more;
        now = more_now;
    }
}

fn first_changed_of(kept: &Folders, now: &Folders) -> Option<u32>
    requires { length kept.now.app < 0xffff_ffff }
    ensures { lists.IsFirstChanged kept.now now.now result }
{
    if !is_same_option(&kept.boot, &now.boot) {
        return Some(0);
    }
    if !is_same_option(&kept.platform, &now.platform) {
        return Some(1);
    }
    match first_other(kept.app.as_slice(), now.app.as_slice()) {
        Some(place) => Some(place as u32 + 2),
        None => None,
    }
}

/// The least number of a folder that was kept and is absent now or has another path or another list of files, or of a
/// boot or platform folder that is there now and wasn't kept. The boot and platform folders are compared whole, and of
/// the application folders those that were kept. This takes no memory.
pub fn first_changed(kept: &Manifest, now: &Manifest) -> Option<u32>
    ensures { lists.IsFirstChanged kept.now now.now result }
{
    first_changed_of(kept.folders(), now.folders())
}
