// Headers: the bytes of one, and each refusal at its edge.
use crate::rows::{compare, first_word, number, parts, say_number};
use crate::test_bytes::{are_words, bytes_of};
use archive_header::{FORMAT, Header, Refuse, headers_are_read_again, read_header, write_header};
use sha2::{Digest, Sha256};
use std::alloc::{AllocError, Global};
use std::test::Fail;

const HEADER: Header = Header {
    format: FORMAT,
    base: 0x8_0000_0000,
    rw_size: 0x0807_0605_0403_0201,
    ro_size: 2,
    bitmap_size: 3,
    manifest_size: 4,
    classes: 5,
    root: 6,
    lower: [7; 32],
    body_digest: [8; 32],
};

fn digest_of(bytes: &[u8; 256]) -> [u8; 32] {
    Sha256::digest(&bytes[..224])
}

fn kept_in(bytes: &[u8; 256]) -> [u8; 32] {
    let mut kept = [0; 32];
    kept.copy_from_slice(&bytes[224..]);
    kept
}

// The header with other bits in a byte.
fn altered(place: usize, bits: u8) -> [u8; 256] {
    let mut bytes = write_header(&HEADER);
    if place < 256 {
        bytes[place] ^= bits;
    }
    bytes
}

// The header with the highest bit of a byte changed, and the digest of the first 224 bytes behind them.
fn changed(place: usize) -> [u8; 256] {
    let mut bytes = altered(place, 0x80);
    let digest = digest_of(&bytes);
    bytes[224..].copy_from_slice(&digest);
    bytes
}

// Both digests must be those of the bytes.
fn digest_word(bytes: &[u8; 256], kept: &[u8; 32], found: &[u8; 32]) -> &'static str {
    if *kept == kept_in(bytes) && *found == digest_of(bytes) {
        "digest"
    } else {
        "other digests"
    }
}

fn refuse_word(bytes: &[u8; 256], refuse: &Refuse) -> &'static str {
    match refuse {
        Refuse::Short => "short",
        Refuse::Magic => "magic",
        Refuse::Version(_) => "version ",
        Refuse::Digest { kept, found } => digest_word(bytes, kept, found),
        _ => "another refusal",
    }
}

// Another header must be written as these bytes again.
fn header_word(bytes: &[u8; 256], header: &Header) -> &'static str {
    if *header == HEADER {
        return "the header";
    }
    if write_header(header) == *bytes {
        "another header"
    } else {
        "written otherwise"
    }
}

fn say_refuse(
    alloc: Global,
    bytes: &[u8; 256],
    refuse: &Refuse,
    said: &mut String,
) -> Result<(), AllocError> {
    said.push_str(refuse_word(bytes, refuse))?;
    match refuse {
        Refuse::Version(found) => say_number(alloc, u64::from(*found), said),
        _ => Ok(()),
    }
}

// What reading answers of the bytes, or of a front of them.
fn say_answer(
    alloc: Global,
    bytes: &[u8; 256],
    answer: &Result<Header, Refuse>,
    said: &mut String,
) -> Result<(), AllocError> {
    match answer {
        Ok(header) => said.push_str(header_word(bytes, header)),
        Err(refuse) => say_refuse(alloc, bytes, refuse, said),
    }
}

fn say_read(alloc: Global, bytes: &[u8; 256], said: &mut String) -> Result<(), AllocError> {
    say_answer(alloc, bytes, &read_header(bytes), said)
}

fn say_cut(alloc: Global, size: usize, said: &mut String) -> Result<(), AllocError> {
    let bytes = write_header(&HEADER);
    if 256 < size {
        return said.push_str("no front");
    }
    say_answer(alloc, &bytes, &read_header(&bytes[..size]), said)
}

// The bytes that another program gives of the header, the last 32 as the SHA-256 of those before them.
static BYTES: &str =
    "74 83 65 67 68 83 13 10 4:0 4:0 8:34359738368 8:578437695752307201 8:2 8:3 8:4 8:5 8:6
    digest:7 digest:8 digest:0 digest:0 8:0 8:0 8:0
    112 172 110 86 177 45 19 138 168 45 205 241 108 35 89 152 205 65 146 184 86 61 76 23 32 157 153 21 100 32 180 215";

fn bytes_word(bytes: &[u8]) -> &'static str {
    if bytes == write_header(&HEADER).as_slice() {
        "the written bytes"
    } else {
        "other bytes"
    }
}

fn say_same(alloc: Global, bytes: &[u8], said: &mut String) -> Result<(), AllocError> {
    said.push_str(bytes_word(bytes))?;
    said.push_str(", ")?;
    say_answer(alloc, &write_header(&HEADER), &read_header(bytes), said)
}

fn say_bytes(alloc: Global, said: &mut String) -> Result<(), AllocError> {
    if !are_words(BYTES) {
        return said.push_str("no words");
    }
    let bytes = bytes_of(alloc, BYTES)?;
    say_same(alloc, bytes.as_slice(), said)
}

fn say_longer(alloc: Global, said: &mut String) -> Result<(), AllocError> {
    let bytes = write_header(&HEADER);
    let mut longer = Vec::from_slice(alloc, &bytes)?;
    longer.extend_from_slice(&[9])?;
    say_answer(alloc, &bytes, &read_header(longer.as_slice()), said)
}

// The header with this format.
fn say_format(alloc: Global, format: &str, said: &mut String) -> Result<(), AllocError> {
    let Ok(format) = format.parse::<u32>() else {
        return said.push_str("no format");
    };
    let mut other = HEADER;
    other.format = format;
    say_read(alloc, &write_header(&other), said)
}

// The header with 1 as the byte at place 8, and this byte as the first.
fn say_both(alloc: Global, first: &str, said: &mut String) -> Result<(), AllocError> {
    let Ok(first) = first.parse::<u8>() else {
        return said.push_str("no byte");
    };
    let mut bytes = write_header(&HEADER);
    bytes[8] = 1;
    bytes[0] = first;
    say_read(alloc, &bytes, said)
}

fn say_zeros(alloc: Global, said: &mut String) -> Result<(), AllocError> {
    say_answer(alloc, &[0; 256], &read_header(&[0; 255]), said)
}

// A call with a number of its own.
fn say_single(alloc: Global, verb: &str, words: &str, said: &mut String) -> Result<(), AllocError> {
    match verb {
        "bytes" => say_bytes(alloc, said),
        "longer" => say_longer(alloc, said),
        "format" => say_format(alloc, words, said),
        "both" => say_both(alloc, words, said),
        "255-zeros" => say_zeros(alloc, said),
        _ => said.push_str("no call"),
    }
}

// A call at a place of the header.
fn say_place(alloc: Global, verb: &str, place: usize, said: &mut String) -> Result<(), AllocError> {
    if 256 < place {
        return said.push_str("no place");
    }
    match verb {
        "altered" => say_read(alloc, &altered(place, 1), said),
        "changed" => say_read(alloc, &changed(place), said),
        _ => say_cut(alloc, place, said),
    }
}

fn try_place(
    alloc: Global,
    row: &str,
    verb: &str,
    place: usize,
    wrong: &mut String,
) -> Result<(), AllocError> {
    let mut said = String::new(alloc);
    say_place(alloc, verb, place, &mut said)?;
    compare(row, said.as_str(), wrong)
}

// The answer must be the same at each place from the first to the last.
fn try_places(
    alloc: Global,
    row: &str,
    verb: &str,
    places: &str,
    wrong: &mut String,
) -> Result<(), AllocError> {
    let (first, last) = places.split_once(" to ").unwrap_or((places, places));
    let (first, last) = (number(first), number(last));
    if last < first || 256 < last {
        return compare(row, "no places", wrong);
    }
    for place in first..=last {
        try_place(alloc, row, verb, place, wrong)?;
    }
    Ok(())
}

fn try_single(
    alloc: Global,
    row: &str,
    verb: &str,
    words: &str,
    wrong: &mut String,
) -> Result<(), AllocError> {
    let mut said = String::new(alloc);
    say_single(alloc, verb, words, &mut said)?;
    compare(row, said.as_str(), wrong)
}

fn try_row(alloc: Global, row: &str, wrong: &mut String) -> Result<(), AllocError> {
    let (call, _) = parts(row);
    let (verb, words) = first_word(call);
    match verb {
        "altered" | "changed" | "cut" => try_places(alloc, row, verb, words, wrong),
        _ => try_single(alloc, row, verb, words, wrong),
    }
}

fn wrong_rows(alloc: Global, rows: &str) -> Result<String, AllocError> {
    let mut wrong = String::new(alloc);
    for row in rows.lines() {
        try_row(alloc, row, &mut wrong)?;
    }
    Ok(wrong)
}

// The fields at their places; what is cut is short; each field is read from its place, and what no field has isn't looked
// at; each altered byte is refused; and the first refusal comes.
static ROWS: &str = "bytes = the written bytes, the header
cut 0 to 255 = short
cut 256 = the header
longer = the header
changed 12 = the header
changed 16 to 135 = another header
changed 136 to 223 = the header
altered 0 to 7 = magic
altered 8 = version 1
altered 9 = version 256
altered 10 = version 65536
altered 11 = version 16777216
altered 12 to 255 = digest
both 74 = version 1
both 0 = magic
255-zeros = short
format 0 = the header
format 67305985 = version 67305985";

#[test]
fn headers_are_written_and_read_at_their_places_and_refused_at_each_edge(
    rt: HostRuntime,
) -> Result<(), Fail> {
    headers_are_read_again();
    assert_eq!(rt; wrong_rows(rt.alloc(), ROWS)?.as_str(), "");
    Ok(())
}
