//! Maps a plain archive.
ghost use Rattle.std.specs.Prelude.{◌≡◌, Ok};
ghost use Rattle.std.specs.Option.{option_copied};
ghost use Rattle.archive_mapper.specs.Fronts.{front_of};
ghost use Rattle.archive_mapper.specs.Mapping.{Maps, HasChange};

use crate::front::{body, front};
use crate::parts::{classes_in, manifest_in};
use crate::plain::is_plain;
use archive_header::{Header, Manifest, Refuse, first_changed};
use plain_classes::PlainClass;
use sqlite_items::Items;
use std::alloc::Global;

// The first folder that changed, where it is known what there is now.
fn change(kept: &Manifest, now: Option<&Manifest>) -> Option<u32>
    ensures { HasChange kept.now (option_copied now.entry) result }
{
    match now {
        Some(now) => first_changed(kept, now),
        None => None,
    }
}

// The same of a manifest that isn't kept any longer.
fn change_from(kept: Manifest, now: Option<&Manifest>) -> Option<u32>
    ensures { HasChange kept (option_copied now.entry) result }
{
    change(&kept, now)
}

// Maps an archive whose digests and whose layer are right.
fn map_parts(
    alloc: Global,
    bytes: &[u8],
    header: &Header,
    now: Option<&Manifest>,
) -> Result<Items<PlainClass>, Refuse>
    requires { front_of bytes.now ≡ Ok header.now }
    ensures { Maps bytes.now (option_copied now.entry) result }
{
    if !is_plain(bytes, header) {
        return Err(Refuse::Malformed);
    }
    let (classes, manifest) = body(bytes).split_at(header.ro_size as usize);
    let Ok(classes) = classes_in(alloc, classes, header.classes) else {
        return Err(Refuse::Memory);
    };
    let Some(classes) = classes else {
        return Err(Refuse::Malformed);
    };
    let Ok(kept) = manifest_in(alloc, manifest) else {
        return Err(Refuse::Memory);
    };
    let Some(kept) = kept else {
        return Err(Refuse::Malformed);
    };
    match change_from(kept, now) {
        Some(number) => Err(Refuse::Path(number)),
        None => Ok(classes),
    }
}

/// The classes of the plain archive that the bytes are, in their order. `now` is the manifest of the folders that there
/// are now; where it is `None`, the manifest of the archive is compared with none.
///
/// # Errors
///
/// The first of these that holds: `Short`, `Magic`, `Version` and the header's `Digest` as `read_header` gives them;
/// `Digest` with the digest that the header keeps of the bytes behind it and the one that they have, where the two
/// differ; `Layer` with the identity that is kept of an archive below and 32 zeros, where the two differ; `Malformed`
/// where no classes and folders have these bytes as their archive; `Path` with the number of the first folder that
/// changed, as `first_changed` gives it. `Memory` comes where memory runs out, and `Base` never.
pub fn map(alloc: Global, bytes: &[u8], now: Option<&Manifest>) -> Result<Items<PlainClass>, Refuse>
    ensures { Maps bytes.now (option_copied now.entry) result }
{
    match front(bytes) {
        Ok(header) => map_parts(alloc, bytes, &header, now),
        Err(refuse) => Err(refuse),
    }
}
