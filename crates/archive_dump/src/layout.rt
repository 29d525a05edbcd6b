//! Where the parts of an archive stand.
ghost use Rattle.std.specs.Prelude.{◌≡◌, ◌++◌, IfOk};
ghost use Rattle.sha2.specs.Sha256.{sha256};
ghost use Rattle.archive_header.specs.Header.{header_bytes, FitsHeader};
ghost use Rattle.plain_classes.specs.Archives.{header_for};

use archive_header::{FORMAT, Header, write_header};
use sha2::{Digest, Sha256};
use std::alloc::{AllocError, Global};

/// The address at which an archive asks to stand.
const BASE: u64 = 0x8_0000_0000;

fn digest_of(ro: &[u8], manifest: &[u8]) -> [u8; 32]
    ensures { result ≡ sha256 (ro.now ++ manifest.now) }
{
    let mut hasher = Sha256::new();
    hasher.update(ro);
    hasher.update(manifest);
    hasher.finalize()
}

fn header_for(ro: &[u8], manifest: &[u8], classes: u64) -> Header
    ensures { result ≡ header_for ro.now manifest.now classes }
{
    Header {
        format: FORMAT,
        base: BASE,
        rw_size: 0,
        ro_size: ro.len() as u64,
        bitmap_size: 0,
        manifest_size: manifest.len() as u64,
        classes,
        root: 0,
        lower: [0; 32],
        body_digest: digest_of(ro, manifest),
    }
}

/// The parts, of so many classes, behind their header.
pub(crate) fn laid_out(
    alloc: Global,
    ro: &[u8],
    manifest: &[u8],
    classes: u64,
) -> Result<Vec<u8>, AllocError>
    ensures bytes { IfOk result (λ bytes. bytes.items ≡ header_bytes (header_for ro.now manifest.now classes) ++ (ro.now ++ manifest.now)) }
    ensures fits { FitsHeader (header_for ro.now manifest.now classes) }
{
    let header = write_header(&header_for(ro, manifest, classes));
    let mut bytes = Vec::new(alloc);
    bytes.extend_from_slice(&header)?;
    bytes.extend_from_slice(ro)?;
    bytes.extend_from_slice(manifest)?;
    Ok(bytes)
}
