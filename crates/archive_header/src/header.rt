//! The header of an archive, and the bytes that it is written as.
ghost use Rattle.std.specs.Prelude.{◌≡◌, ◌++◌, length};
ghost use Rattle.archive_header.specs.Header as spec;

use crate::block::Block;
use jsa_base::{low_u4, low_u8};
use sha2::{Digest, Sha256};

/// The number of the format that is written and read.
pub const FORMAT: u32 = 0;

/// What the header of an archive says. Sizes are in bytes.
#[derive(Clone, Copy, Debug, PartialEq, Eq)]
pub struct Header {
    /// The number of the format.
    pub format: u32,
    /// The address at which the archive asks to stand.
    pub base: u64,
    /// The sizes of the parts behind the header, in their order.
    pub rw_size: u64,
    pub ro_size: u64,
    pub bitmap_size: u64,
    pub manifest_size: u64,
    /// How many classes the archive holds.
    pub classes: u64,
    /// The address of its first record, where it stands at the base that it asks for.
    pub root: u64,
    /// The identity of the archive below, 0 in each byte where there is none.
    pub lower: [u8; 32],
    /// The SHA-256 of all bytes behind the header.
    pub body_digest: [u8; 32],
}

/// The 256 bytes of a header, with its own digest at the end, which is the archive's identity. Bytes that no field has
/// are 0.
pub fn write_header(header: &Header) -> [u8; 256]
    ensures bytes { result ≡ spec.header_bytes header.now }
    ensures fits { spec.FitsHeader header.now }
{
    fits(*header);
    let mut block = Block::new();
    block.push(&MAGIC);
    push_numbers(header, &mut block);
    block.push(&header.lower);
    block.push(&header.body_digest);
    block.push(&[0; 88]);
    let digest = Sha256::digest(block.bytes());
    block.push(&digest);
    block.whole()
}

/// What an archive begins with.
pub(crate) const MAGIC: [u8; 8] = [0x4a, 0x53, 0x41, 0x43, 0x44, 0x53, 0x0d, 0x0a];

// What the types of the fields say.
fn fits(header: Header)
    ensures { spec.FitsHeader header }
{}

// The numbers of the header, from place 8 on.
fn push_numbers(header: &Header, block: &mut Block)
    requires { length block.old ≡ 8 }
    ensures { block.new ≡ block.old ++ spec.numbers header.now }
{
    block.push(&low_u4(header.format));
    block.push(&low_u4(0));
    block.push(&low_u8(header.base));
    block.push(&low_u8(header.rw_size));
    block.push(&low_u8(header.ro_size));
    block.push(&low_u8(header.bitmap_size));
    block.push(&low_u8(header.manifest_size));
    block.push(&low_u8(header.classes));
    block.push(&low_u8(header.root));
}

/// What is written is read again, whatever stands behind it, where its format is the one that is read. This does
/// nothing: its contract is a fact for callers.
pub fn headers_are_read_again()
    ensures { spec.HeadersAreReadAgain }
{}
