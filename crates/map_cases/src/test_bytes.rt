// Archives for the tests. Their bytes are written as words: a byte as its number, `4:` and `8:` a number in so many bytes,
// `text:` a text behind its length, `class:` a class as an archive holds it, `NAME` or `NAME=INSIDE` where the name inside its
// file is another, `digest:` a byte 32 times, and `fill` zeros to a multiple of 8.
use archive_header::{FORMAT, Header, write_header};
use sha2::{Digest, Sha256};
use std::alloc::{AllocError, Global};

// A class file whose `main` puts 40 + 2, up to the length of its name, and behind the name.
const FRONT: [u8; 11] = [202, 254, 186, 190, 0, 0, 0, 52, 0, 12, 1];

const BACK: [u8; 143] = [
    7, 0, 1, 1, 0, 16, 106, 97, 118, 97, 47, 108, 97, 110, 103, 47, 79, 98, 106, 101, 99, 116, 7,
    0, 3, 1, 0, 4, 109, 97, 105, 110, 1, 0, 22, 40, 91, 76, 106, 97, 118, 97, 47, 108, 97, 110,
    103, 47, 83, 116, 114, 105, 110, 103, 59, 41, 86, 1, 0, 4, 67, 111, 100, 101, 1, 0, 3, 112,
    117, 116, 1, 0, 4, 40, 73, 41, 86, 12, 0, 8, 0, 9, 10, 0, 2, 0, 10, 0, 33, 0, 2, 0, 4, 0, 0, 0,
    0, 0, 2, 0, 9, 0, 5, 0, 6, 0, 1, 0, 7, 0, 0, 0, 20, 0, 2, 0, 1, 0, 0, 0, 8, 16, 40, 5, 96, 184,
    0, 11, 177, 0, 0, 0, 0, 1, 9, 0, 8, 0, 9, 0, 0, 0, 0,
];

fn push_inside(bytes: &mut Vec<u8>, name: &str) -> Result<(), AllocError> {
    bytes.extend_from_slice(&u16::try_from(name.len()).unwrap_or(0).to_be_bytes())?;
    bytes.extend_from_slice(name.as_bytes())?;
    bytes.extend_from_slice(&BACK)
}

/// The bytes of a class of the first form with this name inside.
pub fn class_file(alloc: Global, name: &str) -> Result<Vec<u8>, AllocError> {
    let mut bytes = Vec::from_slice(alloc, &FRONT)?;
    push_inside(&mut bytes, name)?;
    Ok(bytes)
}

// ---- words

fn is_part(kind: &str, part: &str) -> bool {
    match kind {
        "class" | "text" => true,
        "digest" => part.parse::<u8>().is_ok(),
        "4" => part.parse::<u32>().is_ok(),
        "8" => part.parse::<u64>().is_ok(),
        _ => false,
    }
}

fn is_word(word: &str) -> bool {
    match word.split_once(':') {
        Some((kind, part)) => is_part(kind, part),
        None => word == "fill" || word.parse::<u8>().is_ok(),
    }
}

/// Whether each word can be read.
pub fn are_words(words: &str) -> bool {
    words.split_whitespace().all(is_word)
}

fn small(text: &str) -> u8 {
    text.parse::<u8>().unwrap_or(0)
}

fn push_u4(bytes: &mut Vec<u8>, number: u32) -> Result<(), AllocError> {
    bytes.extend_from_slice(&number.to_le_bytes())
}

fn push_text(bytes: &mut Vec<u8>, text: &[u8]) -> Result<(), AllocError> {
    push_u4(bytes, u32::try_from(text.len()).unwrap_or(0))?;
    bytes.extend_from_slice(text)
}

fn push_class(alloc: Global, bytes: &mut Vec<u8>, names: &str) -> Result<(), AllocError> {
    let (name, inside) = names.split_once('=').unwrap_or((names, names));
    let file = class_file(alloc, inside)?;
    push_text(bytes, name.as_bytes())?;
    push_text(bytes, file.as_slice())
}

fn push_part(alloc: Global, bytes: &mut Vec<u8>, kind: &str, part: &str) -> Result<(), AllocError> {
    match kind {
        "class" => push_class(alloc, bytes, part),
        "text" => push_text(bytes, part.as_bytes()),
        "digest" => bytes.extend_from_slice(&[small(part); 32]),
        "4" => push_u4(bytes, part.parse::<u32>().unwrap_or(0)),
        _ => bytes.extend_from_slice(&part.parse::<u64>().unwrap_or(0).to_le_bytes()),
    }
}

fn push_fill(bytes: &mut Vec<u8>) -> Result<(), AllocError> {
    let fill = (8 - bytes.len() % 8) % 8;
    bytes.extend_from_slice(&[0; 8][..fill])
}

fn push_single(bytes: &mut Vec<u8>, word: &str) -> Result<(), AllocError> {
    if word == "fill" {
        return push_fill(bytes);
    }
    bytes.extend_from_slice(&[small(word)])
}

fn push_word(alloc: Global, bytes: &mut Vec<u8>, word: &str) -> Result<(), AllocError> {
    match word.split_once(':') {
        Some((kind, part)) => push_part(alloc, bytes, kind, part),
        None => push_single(bytes, word),
    }
}

/// The bytes of words that can be read.
pub fn bytes_of(alloc: Global, words: &str) -> Result<Vec<u8>, AllocError> {
    let mut bytes = Vec::new(alloc);
    for word in words.split_whitespace() {
        push_word(alloc, &mut bytes, word)?;
    }
    Ok(bytes)
}

// ---- archives

// The digest of two pieces, one behind the other.
fn digest_of(ro: &[u8], manifest: &[u8]) -> [u8; 32] {
    let mut hasher = Sha256::new();
    hasher.update(ro);
    hasher.update(manifest);
    hasher.finalize()
}

/// The header of an archive of so many classes with these bytes.
pub fn header_for(ro: &[u8], manifest: &[u8], classes: u64) -> Header {
    Header {
        format: FORMAT,
        base: 0x8_0000_0000,
        rw_size: 0,
        ro_size: ro.len() as u64,
        bitmap_size: 0,
        manifest_size: manifest.len() as u64,
        classes,
        root: 0,
        lower: [0; 32],
        body_digest: digest_of(ro, manifest),
    }
}

// The header with another number in a field.
fn with_number(mut header: Header, field: &str, number: u64) -> Header {
    match field {
        "base" => header.base = number,
        "rw" => header.rw_size = number,
        "ro" => header.ro_size = number,
        "bitmap" => header.bitmap_size = number,
        "manifest" => header.manifest_size = number,
        "root" => header.root = number,
        "lower" => header.lower = [1; 32],
        "body" => header.body_digest = [1; 32],
        _ => header.classes = number,
    }
    header
}

// Whether a change of a header can be read: none, or a field and its number.
fn is_change(change: &str) -> bool {
    match change.split_once('=') {
        None => change.is_empty(),
        Some((_, number)) => number.parse::<u64>().is_ok(),
    }
}

fn with_change(header: Header, change: &str) -> Header {
    match change.split_once('=') {
        None => header,
        Some((field, number)) => with_number(header, field, number.parse::<u64>().unwrap_or(0)),
    }
}

// The header, the classes and the manifest.
fn joined(
    alloc: Global,
    header: &Header,
    ro: &[u8],
    manifest: &[u8],
) -> Result<Vec<u8>, AllocError> {
    let mut bytes = Vec::from_slice(alloc, &write_header(header))?;
    bytes.extend_from_slice(ro)?;
    bytes.extend_from_slice(manifest)?;
    Ok(bytes)
}

/// The archive of so many classes with these bytes, and a change of its header.
pub fn archive_with(
    alloc: Global,
    classes: u64,
    change: &str,
    ro: &[u8],
    manifest: &[u8],
) -> Result<Vec<u8>, AllocError> {
    let header = with_change(header_for(ro, manifest, classes), change);
    joined(alloc, &header, ro, manifest)
}

/// Whether an archive can be made of these words.
pub fn can_be_made(change: &str, ro: &str, manifest: &str) -> bool {
    is_change(change) && are_words(ro) && are_words(manifest)
}

/// An archive of so many classes: a change of its header, the bytes of its classes and of its manifest, as words.
pub fn archive_of(
    alloc: Global,
    classes: u64,
    change: &str,
    ro: &str,
    manifest: &str,
) -> Result<Vec<u8>, AllocError> {
    let ro = bytes_of(alloc, ro)?;
    let manifest = bytes_of(alloc, manifest)?;
    archive_with(alloc, classes, change, ro.as_slice(), manifest.as_slice())
}
