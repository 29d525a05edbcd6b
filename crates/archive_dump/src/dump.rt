//! Writes an archive of classes.
ghost use Rattle.std.specs.Prelude.{◌≡◌, ◌≤◌, ◌<◌, length, IsTrue, IfOk};
ghost use Rattle.archive_header.specs.ManifestBytes as manifests;
ghost use Rattle.plain_classes.specs.Records as records;
ghost use Rattle.archive_dump.specs.Dumping as spec;

use crate::fault::DumpFault;
use crate::layout::laid_out;
use crate::size::is_too_large;
use archive_header::{Manifest, write_manifest};
use plain_classes::{PlainClass, classes_size, have_short_texts, write_classes};
use std::alloc::Global;

/// How many classes an archive may have.
pub const MAX_CLASSES: usize = 65_535;

/// How many bytes an archive may have.
pub const MAX_ARCHIVE: u64 = 67_108_864;

fn dump_few(
    alloc: Global,
    classes: &[PlainClass],
    manifest: &Manifest,
) -> Result<Vec<u8>, DumpFault>
    requires few { length classes.now ≤ MAX_CLASSES }
    requires classes { IsTrue (records.have_short_texts classes.now) }
    requires manifest { IsTrue (manifests.have_short_texts manifest.now) }
    ensures { spec.Dumps classes.now manifest.now result }
{
    if is_too_large(classes_size(classes), manifest.folders()) {
        return Err(DumpFault::TooLarge);
    }
    let ro = write_classes(alloc, classes)?;
    let manifest = write_manifest(alloc, manifest)?;
    Ok(laid_out(alloc, &ro, &manifest, classes.len() as u64)?)
}

/// The bytes of the archive of these classes, in this order, and of this manifest: a header, the classes, the manifest.
///
/// # Errors
///
/// The first of these that holds: `TooMany` exactly where there are more than `MAX_CLASSES` classes, `TooLarge` exactly
/// where the archive would have more than `MAX_ARCHIVE` bytes. `Memory` where memory runs out.
#[tactic(auto, using(crate::proofs::LongTexts::long_class, crate::proofs::LongTexts::long_manifest))]
pub fn dump_static(
    alloc: Global,
    classes: &[PlainClass],
    manifest: &Manifest,
) -> Result<Vec<u8>, DumpFault>
    ensures { spec.Dumps classes.now manifest.now result }
{
    if classes.len() > MAX_CLASSES {
        return Err(DumpFault::TooMany);
    }
    if !have_short_texts(classes) || !manifest.has_short_texts() {
        return Err(DumpFault::TooLarge);
    }
    dump_few(alloc, classes, manifest)
}

/// What is written is an archive, where each class has its own name inside, no name stands twice, and the manifest has one
/// application folder and no other. This does nothing: its contract is a fact for callers.
pub fn dumps_are_archives()
    ensures { spec.DumpsAreArchives }
{}
