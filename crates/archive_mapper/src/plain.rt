//! Whether a header is that of a plain archive, and its regions make up the file.
ghost use Rattle.std.specs.Prelude.{◌≡◌, ◌≤◌, length};
ghost use Rattle.archive_header.specs.Header.{FitsHeader};
ghost use Rattle.archive_mapper.specs.Fronts as spec;

use archive_header::{Header, write_header};

// The address at which each plain archive asks to stand.
const BASE: u64 = 0x8_0000_0000;

#[tactic(auto, unfolding(crate::specs::Fronts::has_plain_numbers))]
fn has_plain_numbers(header: &Header) -> bool
    ensures { result ≡ spec.has_plain_numbers header.now }
{
    header.base == BASE && header.rw_size == 0 && header.bitmap_size == 0 && header.root == 0
}

#[tactic(auto, unfolding(crate::specs::Fronts::has_whole_regions))]
fn has_whole_regions(bytes: &[u8], header: &Header) -> bool
    requires { 256 ≤ length bytes.now }
    ensures { result ≡ spec.has_whole_regions bytes.now header.now }
{
    let size = bytes.len() as u64 - 256;
    header.ro_size <= size && header.manifest_size == size - header.ro_size
}

// Where the header has no field its bytes are 0.
#[tactic(auto, unfolding(crate::specs::Fronts::has_its_bytes))]
fn has_its_bytes(bytes: &[u8], header: &Header) -> bool
    requires { 256 ≤ length bytes.now }
    ensures same { result ≡ spec.has_its_bytes bytes.now header.now }
    ensures fits { FitsHeader header.now }
{
    let written = write_header(header);
    &bytes[..256] == written.as_slice()
}

/// Whether the header of these bytes is that of a plain archive, and its regions make up the bytes behind it.
#[tactic(auto, unfolding(crate::specs::Fronts::is_plain))]
pub(crate) fn is_plain(bytes: &[u8], header: &Header) -> bool
    requires { 256 ≤ length bytes.now }
    ensures plain { result ≡ spec.is_plain bytes.now header.now }
    ensures fits { FitsHeader header.now }
{
    has_its_bytes(bytes, header) && has_plain_numbers(header) && has_whole_regions(bytes, header)
}
