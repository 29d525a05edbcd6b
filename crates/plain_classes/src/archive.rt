//! What the bytes of a plain archive are.
ghost use Rattle.std.specs.Prelude.{◌≡◌};
ghost use Rattle.plain_classes.specs.Archives as spec;

use archive_header::Folders;

/// Whether there is one application folder, and no boot or platform folder.
pub fn has_one_folder(folders: &Folders) -> bool
    ensures { result ≡ spec.has_one_folder folders.now }
{
    folders.boot.is_none() && folders.platform.is_none() && folders.app.len() == 1
}

/// Bytes are the plain archive of one list of classes and of the folders of one manifest at most. This does nothing: its
/// contract is a fact for callers.
pub fn one_archive()
    ensures { spec.OneArchive }
{}
