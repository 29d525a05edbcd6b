//! Reads the parts of a plain archive, the classes and the manifest.
ghost use Rattle.std.specs.Prelude.{◌≡◌, ℕ, List, Some, IfOk};
ghost use Rattle.std.specs.Option.{IfSome};
ghost use Rattle.archive_header.specs.declared.folders.Folders.{Folders};
ghost use Rattle.plain_classes.specs.declared.class.PlainClass.{PlainClass};
ghost use Rattle.plain_classes.specs.Outcomes.{Tells};
ghost use Rattle.archive_mapper.specs.Parts as spec;

use archive_header::{Manifest, read_manifest};
use plain_classes::{PlainClass, are_distinct, are_named, has_one_folder, read_classes};
use sqlite_items::Items;
use std::alloc::{AllocError, Global};

// Whether the names are distinct, and each is the one inside its class.
fn are_records(alloc: Global, classes: &[PlainClass]) -> Result<bool, AllocError>
    ensures { IfOk result (λ good. Tells good (spec.AreRecords classes.now)) }
{
    let distinct = are_distinct(alloc, classes)?;
    if !distinct {
        return Ok(false);
    }
    are_named(alloc, classes)
}

/// The classes that the bytes are, so many of them. `None` exactly where they are no such classes: where the bytes are
/// cut or something stands behind the last class, a name stands twice, or one isn't the name inside its class.
pub(crate) fn classes_in(
    alloc: Global,
    bytes: &[u8],
    count: u64,
) -> Result<Option<Items<PlainClass>>, AllocError>
    ensures found { IfOk result (λ read. IfSome read (λ classes. spec.AreClasses bytes.now count classes)) }
    ensures only { (classes : List PlainClass) → spec.AreClasses bytes.now count classes → IfOk result (λ read. read ≡ Some classes) }
{
    let Some(classes) = read_classes(alloc, bytes, count)? else {
        return Ok(None);
    };
    let good = are_records(alloc, classes.as_slice())?;
    if !good {
        return Ok(None);
    }
    Ok(Some(classes))
}

/// The manifest that the bytes are, with one application folder and no other. `None` exactly where they are no such
/// manifest.
pub(crate) fn manifest_in(alloc: Global, bytes: &[u8]) -> Result<Option<Manifest>, AllocError>
    ensures found { IfOk result (λ read. IfSome read (λ kept. spec.IsPlainManifest bytes.now kept)) }
    ensures only { (kept : Folders) → spec.IsPlainManifest bytes.now kept → IfOk result (λ read. read ≡ Some kept) }
{
    let Some(kept) = read_manifest(alloc, bytes)? else {
        return Ok(None);
    };
    if !has_one_folder(kept.folders()) {
        return Ok(None);
    }
    Ok(Some(kept))
}
