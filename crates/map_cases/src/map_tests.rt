// What no contract says of mapping: that an archive is mapped where memory suffices, and each refusal at its edge.
use crate::classes::{say_classes, written_word};
use crate::test_bytes::{archive_of, are_words, bytes_of, can_be_made, header_for};
use crate::words::{map_word, refused_word};
use archive_header::{read_manifest, write_header};
use archive_mapper::{archives_are_mapped, maps_as_one};
use sha2::{Digest, Sha256};
use std::alloc::{AllocError, Global};
use std::test::Fail;
use test_rows::{compare, first_word, parts};

/// A folder `d` with the file of the class `Main`.
pub static FOLDER: &str = "4:0 4:0 4:1 text:d 4:1 text:Main.class 8:160 digest:1 fill";

// A folder `d` without files, which is `D` in the rows.
static NO_FILES: &str = "4:0 4:0 4:1 text:d 4:0 fill";

fn manifest_words(manifest: &str) -> &str {
    if manifest == "D" { NO_FILES } else { manifest }
}

fn cut(text: &str) -> (&str, &str) {
    text.split_once(';').unwrap_or((text, ""))
}

// The answer to an archive: what is shown, its number of classes, the change of its header, its classes and its manifest.
fn archive_word(alloc: Global, words: &str) -> Result<&'static str, AllocError> {
    let (_shown, rest) = cut(words);
    let (classes, rest) = cut(rest);
    let (change, rest) = cut(rest);
    let (ro, manifest) = cut(rest);
    match classes.parse::<u64>() {
        Ok(classes) => made_word(alloc, classes, change, ro, manifest_words(manifest)),
        Err(_) => Ok("no number"),
    }
}

fn made_word(
    alloc: Global,
    classes: u64,
    change: &str,
    ro: &str,
    manifest: &str,
) -> Result<&'static str, AllocError> {
    if !can_be_made(change, ro, manifest) {
        return Ok("no archive");
    }
    let bytes = archive_of(alloc, classes, change, ro, manifest)?;
    Ok(map_word(alloc, bytes.as_slice(), None))
}

fn whole(alloc: Global) -> Result<Vec<u8>, AllocError> {
    archive_of(alloc, 1, "", "class:Main", FOLDER)
}

// The answer to an archive of `FOLDER`, where this is there now.
fn now_word(alloc: Global, words: &str) -> Result<&'static str, AllocError> {
    if !are_words(words) {
        return Ok("no words");
    }
    let now = bytes_of(alloc, words)?;
    let Some(now) = read_manifest(alloc, now.as_slice())? else {
        return Ok("no manifest");
    };
    let bytes = whole(alloc)?;
    Ok(map_word(alloc, bytes.as_slice(), Some(&now)))
}

// ---- places

fn cut_word(alloc: Global, size: usize) -> Result<&'static str, AllocError> {
    let bytes = archive_of(alloc, 0, "", "", NO_FILES)?;
    match bytes.as_slice().get(..size) {
        Some(front) => Ok(map_word(alloc, front, None)),
        None => Ok("no place"),
    }
}

fn altered_word(alloc: Global, place: usize) -> Result<&'static str, AllocError> {
    let mut bytes = whole(alloc)?;
    if place >= bytes.len() {
        return Ok("no place");
    }
    bytes[place] ^= 1;
    Ok(map_word(alloc, bytes.as_slice(), None))
}

fn digest_of(header: &[u8; 256]) -> [u8; 32] {
    Sha256::digest(&header[..224])
}

// The header of no classes and a manifest with another byte, and the digest of its first 224 behind them.
fn altered_header(manifest: &[u8], place: usize) -> [u8; 256] {
    let mut header = write_header(&header_for(&[], manifest, 0));
    if place < 224 {
        header[place] ^= 1;
    }
    let digest = digest_of(&header);
    header[224..].copy_from_slice(&digest);
    header
}

fn header_word(alloc: Global, place: usize) -> Result<&'static str, AllocError> {
    let manifest = bytes_of(alloc, NO_FILES)?;
    let mut bytes = Vec::from_slice(alloc, &altered_header(manifest.as_slice(), place))?;
    bytes.extend_from_slice(manifest.as_slice())?;
    Ok(map_word(alloc, bytes.as_slice(), None))
}

fn place_word(alloc: Global, verb: &str, place: usize) -> Result<&'static str, AllocError> {
    match verb {
        "cut" => cut_word(alloc, place),
        "altered" => altered_word(alloc, place),
        _ => header_word(alloc, place),
    }
}

// A place, and the largest number where it can't be read.
fn number(text: &str) -> usize {
    text.parse::<usize>().unwrap_or(usize::MAX)
}

// The answer must be the same at each place from the first to the last.
fn try_places(
    alloc: Global,
    row: &str,
    verb: &str,
    places: &str,
    wrong: &mut String,
) -> Result<(), AllocError> {
    let (first, last) = places.split_once(" to ").unwrap_or((places, places));
    let (first, last) = (number(first), number(last));
    if last < first || 1000 < last {
        return compare(row, "no places", wrong);
    }
    for place in first..=last {
        compare(row, place_word(alloc, verb, place)?, wrong)?;
    }
    Ok(())
}

// ---- the numbers of a refusal

fn digest_word(alloc: Global) -> Result<&'static str, AllocError> {
    let manifest = bytes_of(alloc, NO_FILES)?;
    let found = Sha256::digest(manifest.as_slice());
    let bytes = archive_of(alloc, 0, "body=1", "", NO_FILES)?;
    Ok(refused_word(alloc, bytes.as_slice(), &[1; 32], &found))
}

fn layer_word(alloc: Global) -> Result<&'static str, AllocError> {
    let bytes = archive_of(alloc, 0, "lower=1", "", NO_FILES)?;
    Ok(refused_word(alloc, bytes.as_slice(), &[1; 32], &[0; 32]))
}

// ---- rows

fn word_of(alloc: Global, verb: &str, words: &str) -> Result<&'static str, AllocError> {
    match verb {
        "archive" => archive_word(alloc, words),
        "now" => now_word(alloc, words),
        "digests" => digest_word(alloc),
        "layers" => layer_word(alloc),
        "written" => written_word(alloc),
        _ => Ok("no call"),
    }
}

fn say(alloc: Global, verb: &str, words: &str, said: &mut String) -> Result<(), AllocError> {
    if verb == "classes" {
        return say_classes(alloc, words, said);
    }
    said.push_str(word_of(alloc, verb, words)?)
}

fn try_single(
    alloc: Global,
    row: &str,
    verb: &str,
    words: &str,
    wrong: &mut String,
) -> Result<(), AllocError> {
    let mut said = String::new(alloc);
    say(alloc, verb, words, &mut said)?;
    compare(row, said.as_str(), wrong)
}

fn try_row(alloc: Global, row: &str, wrong: &mut String) -> Result<(), AllocError> {
    let (call, _) = parts(row);
    let (verb, words) = first_word(call);
    match verb {
        "cut" | "altered" | "header" => try_places(alloc, row, verb, words, wrong),
        _ => try_single(alloc, row, verb, words, wrong),
    }
}

fn wrong_rows(alloc: Global, rows: &str) -> Result<String, AllocError> {
    let mut wrong = String::new(alloc);
    for row in rows.lines() {
        try_row(alloc, row, &mut wrong)?;
    }
    Ok(wrong)
}

// What is mapped; fronts, and what has a byte altered; bytes of a header that no field has; the numbers of refusals; archives
// with what is shown, their number of classes, the change of their header, their classes and their manifest; and what there is
// now, where `FOLDER` was kept.
static ROWS: &str = "classes class:Main class:p/K = Main as its file, p/K as its file, 
written = again
cut 0 to 255 = short
cut 256 to 279 = digest
cut 280 = mapped
cut 281 = no place
altered 0 to 7 = magic
altered 8 to 11 = version
altered 12 to 507 = digest
altered 508 = no place
header 12 to 15 = malformed
header 136 to 223 = malformed
digests = as they are
layers = as they are
archive no class;0;;;D = mapped
archive a class;1;;class:Main;D = mapped
archive two classes;2;;class:Main class:p/K;D = mapped
archive a longer folder;1;;class:Main;4:0 4:0 4:1 text:d/e 4:2 text:K 8:1 digest:1 text:L 8:2 digest:2 fill = mapped
archive another digest of the body;1;body=1;class:Main;D = digest
archive another identity below;1;lower=1;class:Main;D = layer
archive another identity below no classes;1;lower=1;; = layer
archive another base;1;base=34359738369;class:Main;D = malformed
archive no base;1;base=0;class:Main;D = malformed
archive a size of rw;1;rw=1;class:Main;D = malformed
archive a size of ro one above;1;ro=173;class:Main;D = malformed
archive a size of ro one below;1;ro=171;class:Main;D = malformed
archive a size of ro above all;1;ro=18446744073709551615;class:Main;D = malformed
archive a size of a bitmap;1;bitmap=1;class:Main;D = malformed
archive a size of the manifest one above;1;manifest=25;class:Main;D = malformed
archive a size of the manifest one below;1;manifest=23;class:Main;D = malformed
archive a size of the manifest above all;1;manifest=18446744073709551615;class:Main;D = malformed
archive a root;1;root=34359738624;class:Main;D = malformed
archive a class more;2;;class:Main;D = malformed
archive a class fewer;0;;class:Main;D = malformed
archive as many classes as there can be;18446744073709551615;;class:Main;D = malformed
archive a byte behind the classes;1;;class:Main 0;D = malformed
archive a name alone;1;;text:Main;D = malformed
archive a cut length;1;;text:Main 0 0 0;D = malformed
archive a class that is cut;1;;text:Main 4:1;D = malformed
archive a class of no bytes;1;;text:Main text:;D = malformed
archive a class outside the first form;1;;text:Main text:Main;D = malformed
archive another name inside;1;;class:Main=Mains;D = malformed
archive a longer name inside;1;;class:Mai=Main;D = malformed
archive a name with a dot;1;;class:p.K;D = malformed
archive a name twice;2;;class:Main class:Main;D = malformed
archive a name twice that are no neighbours;3;;class:Main class:p/K class:Main;D = malformed
archive no manifest;1;;class:Main; = malformed
archive a folder too few;0;;;4:0 4:0 4:1 fill = malformed
archive no folder;1;;class:Main;4:0 4:0 4:0 fill = malformed
archive two folders;1;;class:Main;4:0 4:0 4:2 text:d 4:0 text:e 4:0 fill = malformed
archive a boot folder;1;;class:Main;4:1 4:0 4:1 text:b 4:0 text:d 4:0 fill = malformed
archive a boot folder alone;1;;class:Main;4:1 4:0 4:0 text:b 4:0 fill = malformed
archive a platform folder;1;;class:Main;4:0 4:1 4:1 text:b 4:0 text:d 4:0 fill = malformed
archive a file too few;1;;class:Main;4:0 4:0 4:1 text:d 4:0 text:K 8:1 digest:1 fill = malformed
archive a file too many;1;;class:Main;4:0 4:0 4:1 text:d 4:2 text:K 8:1 digest:1 fill = malformed
archive a path that is too short;1;;class:Main;4:0 4:0 4:1 4:2 100 101 102 4:0 fill = malformed
archive a path that is too long;1;;class:Main;4:0 4:0 4:1 4:9 100 4:0 fill = malformed
archive a name that is too short;1;;class:Main;4:0 4:0 4:1 text:d 4:1 4:1 75 76 8:1 digest:1 fill = malformed
archive a name that is too long;1;;class:Main;4:0 4:0 4:1 text:d 4:1 4:200 75 8:1 digest:1 fill = malformed
archive names that fall;1;;class:Main;4:0 4:0 4:1 text:d 4:2 text:L 8:1 digest:1 text:K 8:1 digest:1 fill = malformed
archive a path that is no text;1;;class:Main;4:0 4:0 4:1 4:1 255 4:0 fill = malformed
archive a name that is no text;1;;class:Main;4:0 4:0 4:1 text:d 4:1 4:1 255 8:1 digest:1 fill = malformed
archive zeros too few;0;;;4:0 4:0 4:1 text:d 4:0 0 0 = malformed
archive zeros too many;0;;;4:0 4:0 4:1 text:d 4:0 fill 8:0 = malformed
archive a one for a zero;0;;;4:0 4:0 4:1 text:d 4:0 0 0 1 = malformed
archive a folder with its file;1;;class:Main;4:0 4:0 4:1 text:d 4:1 text:Main.class 8:160 digest:1 fill = mapped
now 4:0 4:0 4:1 text:d 4:1 text:Main.class 8:160 digest:1 fill = mapped
now 4:0 4:0 4:2 text:d 4:1 text:Main.class 8:160 digest:1 text:e 4:0 fill = mapped
now 4:0 4:0 4:1 text:e 4:1 text:Main.class 8:160 digest:1 fill = path 2
now 4:0 4:0 4:1 text:d 4:2 text:L.class 8:1 digest:1 text:Main.class 8:160 digest:1 fill = path 2
now 4:0 4:0 4:1 text:d 4:0 fill = path 2
now 4:0 4:0 4:1 text:d 4:1 text:Main.class 8:161 digest:1 fill = path 2
now 4:0 4:0 4:1 text:d 4:1 text:Main.class 8:160 digest:2 fill = path 2
now 4:0 4:0 4:1 text:d 4:1 text:Mail.class 8:160 digest:1 fill = path 2
now 4:0 4:0 4:0 fill = path 2
now 4:1 4:0 4:1 text:b 4:0 text:d 4:1 text:Main.class 8:160 digest:1 fill = path 0
now 4:0 4:1 4:1 text:b 4:0 text:d 4:1 text:Main.class 8:160 digest:1 fill = path 1";

#[test]
fn archives_are_mapped_or_refused_at_each_edge(rt: HostRuntime) -> Result<(), Fail> {
    maps_as_one();
    archives_are_mapped();
    assert_eq!(rt; wrong_rows(rt.alloc(), ROWS)?.as_str(), "");
    Ok(())
}
