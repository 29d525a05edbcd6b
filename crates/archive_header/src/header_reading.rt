//! Reads the header of an archive.
ghost use Rattle.std.specs.Prelude.{◌≡◌, ◌+◌, ◌≤◌, length};
ghost use Rattle.std.specs.Str.{bytes_eq};
ghost use Rattle.archive_header.specs.Header as spec;

use crate::header::{FORMAT, Header, MAGIC};
use crate::refuse::Refuse;
use byteorder::{ByteOrder, LittleEndian};
use sha2::{Digest, Sha256};

fn number_u4(bytes: &[u8], place: usize) -> u32
    requires { place + 4 ≤ length bytes.now }
    ensures { result ≡ spec.number (spec.field place 4 bytes.now) }
{
    LittleEndian::read_u32(&bytes[place..place + 4])
}

fn number_u8(bytes: &[u8], place: usize) -> u64
    requires { place + 8 ≤ length bytes.now }
    ensures { result ≡ spec.number (spec.field place 8 bytes.now) }
{
    LittleEndian::read_u64(&bytes[place..place + 8])
}

fn digest_at(bytes: &[u8], place: usize) -> [u8; 32]
    requires { place + 32 ≤ length bytes.now }
    ensures { result ≡ spec.field place 32 bytes.now }
{
    let mut digest = [0; 32];
    digest.copy_from_slice(&bytes[place..place + 32]);
    digest
}

fn has_magic(bytes: &[u8]) -> bool
    requires { 256 ≤ length bytes.now }
    ensures { result ≡ bytes_eq (spec.field 0 8 bytes.now) spec.magic }
{
    &bytes[..8] == MAGIC.as_slice()
}

// The digest of the bytes before the header's own.
fn found_digest(bytes: &[u8]) -> [u8; 32]
    requires { 256 ≤ length bytes.now }
    ensures { result ≡ spec.found_digest bytes.now }
{
    Sha256::digest(&bytes[..224])
}

#[tactic(auto, unfolding(crate::specs::Header::header_in))]
fn header_in(bytes: &[u8]) -> Header
    requires { 256 ≤ length bytes.now }
    ensures { result ≡ spec.header_in bytes.now }
{
    Header {
        format: number_u4(bytes, 8),
        base: number_u8(bytes, 16),
        rw_size: number_u8(bytes, 24),
        ro_size: number_u8(bytes, 32),
        bitmap_size: number_u8(bytes, 40),
        manifest_size: number_u8(bytes, 48),
        classes: number_u8(bytes, 56),
        root: number_u8(bytes, 64),
        lower: digest_at(bytes, 72),
        body_digest: digest_at(bytes, 104),
    }
}

/// The header that the bytes begin with. This takes no memory, and looks neither at the bytes that are written as 0 nor
/// at those behind the header.
///
/// # Errors
///
/// The first of these that holds: `Short` where there are fewer than 256 bytes, `Magic` where the first eight aren't
/// those of an archive, `Version` with the number found where the format isn't `FORMAT`, `Digest` with the digest at
/// place 224 and that of the 224 bytes before it where the two differ. No other error comes.
#[tactic(auto, unfolding(crate::specs::Header::header_of))]
pub fn read_header(bytes: &[u8]) -> Result<Header, Refuse>
    ensures { result ≡ spec.header_of bytes.now }
{
    if bytes.len() < 256 {
        return Err(Refuse::Short);
    }
    if !has_magic(bytes) {
        return Err(Refuse::Magic);
    }
    let format = number_u4(bytes, 8);
    if format != FORMAT {
        return Err(Refuse::Version(format));
    }
    let kept = digest_at(bytes, 224);
    let found = found_digest(bytes);
    if kept != found {
        return Err(Refuse::Digest { kept, found });
    }
    Ok(header_in(bytes))
}
