// Manifests: the bytes of some, what stands at their places, and which folder changed.
use crate::rows::{compare, first_word, parts, say_number};
use crate::test_bytes::{are_words, bytes_of};
use archive_header::{
    ListedFile, Manifest, first_changed, one_manifest, read_manifest, write_manifest,
};
use std::alloc::{AllocError, Global};
use std::test::Fail;

fn written_word(
    alloc: Global,
    manifest: &Manifest,
    bytes: &[u8],
) -> Result<&'static str, AllocError> {
    if !manifest.has_short_texts() {
        return Ok("of long texts");
    }
    let again = write_manifest(alloc, manifest)?;
    if again.as_slice() == bytes {
        Ok("written so")
    } else {
        Ok("written otherwise")
    }
}

// Whether a manifest is read of the bytes, and written as them again.
fn read_word(alloc: Global, bytes: &[u8]) -> Result<&'static str, AllocError> {
    let Some(manifest) = read_manifest(alloc, bytes)? else {
        return Ok("none");
    };
    written_word(alloc, &manifest, bytes)
}

fn read_words(alloc: Global, words: &str) -> Result<&'static str, AllocError> {
    if !are_words(words) {
        return Ok("no words");
    }
    let bytes = bytes_of(alloc, words)?;
    read_word(alloc, bytes.as_slice())
}

// How many of the bytes' proper fronts are no manifests.
fn unread_fronts(alloc: Global, bytes: &[u8]) -> Result<u64, AllocError> {
    let mut count = 0u64;
    for size in 0..bytes.len() {
        if read_word(alloc, &bytes[..size])? == "none" {
            count = count.saturating_add(1);
        }
    }
    Ok(count)
}

fn say_fronts(alloc: Global, words: &str, said: &mut String) -> Result<(), AllocError> {
    let bytes = bytes_of(alloc, words)?;
    say_number(alloc, unread_fronts(alloc, bytes.as_slice())?, said)
}

fn say_found(alloc: Global, found: Option<u32>, said: &mut String) -> Result<(), AllocError> {
    match found {
        Some(number) => say_number(alloc, u64::from(number), said),
        None => said.push_str("none"),
    }
}

// The size of a file, and the byte that its digest has in each place.
fn say_file(alloc: Global, file: &ListedFile, said: &mut String) -> Result<(), AllocError> {
    if file.sha256 != [file.sha256[31]; 32] {
        return said.push_str("mixed");
    }
    say_number(alloc, file.size, said)?;
    said.push_str(" ")?;
    say_number(alloc, u64::from(file.sha256[31]), said)
}

// The last file of the first application folder.
fn say_last(alloc: Global, manifest: &Manifest, said: &mut String) -> Result<(), AllocError> {
    let Some(folder) = manifest.folders().app.as_slice().first() else {
        return said.push_str("no folder");
    };
    match folder.files.as_slice().last() {
        Some(file) => say_file(alloc, file, said),
        None => said.push_str("no file"),
    }
}

fn say_entry(
    alloc: Global,
    manifest: &Manifest,
    words: &str,
    said: &mut String,
) -> Result<(), AllocError> {
    let (folder, name) = first_word(words);
    match folder.parse::<u32>() {
        Ok(folder) => say_found(alloc, manifest.entry_of(folder, name), said),
        Err(_) => said.push_str("no number"),
    }
}

fn path_of<'a>(manifest: &'a Manifest, word: &str) -> &'a str {
    match word.parse::<u32>() {
        Ok(folder) => manifest.path(folder).unwrap_or("none"),
        Err(_) => "no number",
    }
}

fn file_of<'a>(manifest: &'a Manifest, words: &str) -> &'a str {
    let (folder, entry) = first_word(words);
    let Ok(folder) = folder.parse::<u32>() else {
        return "no number";
    };
    match entry.parse::<u32>() {
        Ok(entry) => manifest.file(folder, entry).unwrap_or("none"),
        Err(_) => "no number",
    }
}

// A call of a manifest.
fn say_of(
    alloc: Global,
    manifest: &Manifest,
    call: &str,
    said: &mut String,
) -> Result<(), AllocError> {
    let (verb, words) = first_word(call);
    match verb {
        "path" => said.push_str(path_of(manifest, words)),
        "file" => said.push_str(file_of(manifest, words)),
        "entry" => say_entry(alloc, manifest, words, said),
        "last" => say_last(alloc, manifest, said),
        _ => said.push_str("no call"),
    }
}

fn read(alloc: Global, words: &str) -> Result<Option<Manifest>, AllocError> {
    if !are_words(words) {
        return Ok(None);
    }
    let bytes = bytes_of(alloc, words)?;
    read_manifest(alloc, bytes.as_slice())
}

static ONE: &str = "1 0 0 0 0 0 0 0 0 0 0 0 1 0 0 0 97 0 0 0 0 0 0 0";

static TWO: &str = "4:0 4:0 4:2
    text:a 4:2 text:K.class 8:1 digest:1 text:L.class 8:72623859790382856 digest:2
    text:b/c 4:2 text:p/K.class 8:3 digest:3 text:p/M.class 8:4 digest:4 fill";

fn say_in(alloc: Global, bytes: &str, call: &str, said: &mut String) -> Result<(), AllocError> {
    let Some(manifest) = read(alloc, bytes)? else {
        return said.push_str("no manifest");
    };
    say_of(alloc, &manifest, call, said)
}

// The first folder that changed between two manifests.
fn say_changed(alloc: Global, words: &str, said: &mut String) -> Result<(), AllocError> {
    let (kept, now) = words.split_once(" | ").unwrap_or((words, "no"));
    let Some(kept) = read(alloc, kept)? else {
        return said.push_str("nothing kept");
    };
    say_change(alloc, &kept, now, said)
}

fn say_change(
    alloc: Global,
    kept: &Manifest,
    now: &str,
    said: &mut String,
) -> Result<(), AllocError> {
    let Some(now) = read(alloc, now)? else {
        return said.push_str("nothing now");
    };
    say_found(alloc, first_changed(kept, &now), said)
}

// The words of the bytes stand behind what they show.
fn shown_word(alloc: Global, words: &str) -> Result<&'static str, AllocError> {
    match words.split_once(';') {
        Some((_, words)) => read_words(alloc, words),
        None => Ok("no bytes"),
    }
}

// What is read of the manifest of one folder, and of that of two folders.
fn read_call(alloc: Global, verb: &str, words: &str) -> Result<&'static str, AllocError> {
    match verb {
        "read" => shown_word(alloc, words),
        "read-one" => read_words(alloc, ONE),
        "read-two" => read_words(alloc, TWO),
        _ => Ok("no call"),
    }
}

fn say_word(word: Result<&'static str, AllocError>, said: &mut String) -> Result<(), AllocError> {
    said.push_str(word?)
}

fn say(alloc: Global, call: &str, said: &mut String) -> Result<(), AllocError> {
    let (verb, words) = first_word(call);
    match verb {
        "one" => say_in(alloc, ONE, words, said),
        "two" => say_in(alloc, TWO, words, said),
        "changed" => say_changed(alloc, words, said),
        "fronts-of-two" => say_fronts(alloc, TWO, said),
        _ => say_word(read_call(alloc, verb, words), said),
    }
}

fn try_row(alloc: Global, row: &str, wrong: &mut String) -> Result<(), AllocError> {
    let (call, _) = parts(row);
    let mut said = String::new(alloc);
    say(alloc, call, &mut said)?;
    compare(row, said.as_str(), wrong)
}

fn wrong_rows(alloc: Global, rows: &str) -> Result<String, AllocError> {
    let mut wrong = String::new(alloc);
    for row in rows.lines() {
        try_row(alloc, row, &mut wrong)?;
    }
    Ok(wrong)
}

// One folder without files, and two folders of two files each; manifests and what is none, behind what each shows; and what was
// kept, what is there now, and the number of the first folder that changed.
static ROWS: &str = "read-one = written so
read a byte more; 1 0 0 0 0 0 0 0 0 0 0 0 1 0 0 0 97 0 0 0 0 0 0 0 0 = none
one path 0 = a
one file 0 0 = none
one path 1 = none
one path 2 = none
read-two = written so
two last = 72623859790382856 2
fronts-of-two = 240
two path 0 = none
two file 0 0 = none
two path 1 = none
two file 1 0 = none
two path 2 = a
two file 2 0 = K.class
two entry 2 K.class = 0
two file 2 1 = L.class
two entry 2 L.class = 1
two file 2 2 = none
two path 3 = b/c
two file 3 0 = p/K.class
two entry 3 p/K.class = 0
two file 3 1 = p/M.class
two entry 3 p/M.class = 1
two file 3 2 = none
two path 4 = none
two file 4 0 = none
two path 4294967295 = none
two file 4294967295 4294967295 = none
two entry 2 p/M.class = none
two entry 2 K = none
two entry 2  = none
two entry 2 J.class = none
two entry 2 Kz.class = none
two entry 2 M.class = none
two entry 2 K.class  = none
two entry 0 K.class = none
two entry 4 K.class = none
read no folder; 4:0 4:0 4:0 fill = written so
read one of each; 4:1 4:1 4:1 text:a 4:0 text:b 4:0 text:c 4:0 fill = written so
read two folders of one path; 4:0 4:0 4:2 text:a 4:0 text:a 4:0 fill = written so
read an empty path and an empty name; 4:0 4:0 4:1 text: 4:1 text: 8:0 digest:0 fill = written so
read a name before a longer one; 4:0 4:0 4:1 text:a 4:2 text:K 8:1 digest:1 text:KL 8:1 digest:1 fill = written so
read names by their bytes; 4:0 4:0 4:1 text:a 4:2 text:Z 8:1 digest:1 text:a 8:1 digest:1 fill = written so
read a name in two bytes; 4:1 4:0 4:0 text:\u{e9} 4:1 text:\u{e9} 8:1 digest:1 fill = written so
read a size of eight bytes; 4:1 4:0 4:0 text:a 4:1 text:K 8:18446744073709551615 digest:255 fill = written so
read no bytes; = none
read no zeros; 4:0 4:0 4:0 = none
read eight zeros; 4:0 4:0 4:1 text:abcd 4:0 fill 0 0 0 0 0 0 0 0 = none
read a one for a zero; 4:0 4:0 4:0 0 0 0 1 = none
read a one for the first zero; 4:0 4:0 4:0 1 0 0 0 = none
read two boot folders; 4:2 4:0 4:0 text:a 4:0 text:b 4:0 fill = none
read two platform folders; 4:0 4:2 4:0 text:a 4:0 text:b 4:0 fill = none
read a folder that is not there; 4:0 4:0 4:1 fill = none
read a file that is not there; 4:0 4:0 4:1 text:a 4:1 fill = none
read more folders than there are bytes; 4:0 4:0 4:4294967295 text:a 4:0 fill = none
read names that fall; 4:0 4:0 4:1 text:a 4:2 text:L 8:1 digest:1 text:K 8:1 digest:1 fill = none
read two equal names; 4:0 4:0 4:1 text:a 4:2 text:K 8:1 digest:1 text:K 8:2 digest:2 fill = none
read a name behind a longer one; 4:0 4:0 4:1 text:a 4:2 text:KL 8:1 digest:1 text:K 8:1 digest:1 fill = none
read names that fall in a boot folder; 4:1 4:0 4:0 text:a 4:2 text:L 8:1 digest:1 text:K 8:1 digest:1 fill = none
read names that fall in a platform folder; 4:0 4:1 4:0 text:a 4:2 text:L 8:1 digest:1 text:K 8:1 digest:1 fill = none
read names that fall in the last folder; 4:0 4:0 4:2 text:a 4:0 text:b 4:2 text:L 8:1 digest:1 text:K 8:1 digest:1 fill = none
read a path that is no text; 4:1 4:0 4:0 4:1 255 4:0 fill = none
read a name that is no text; 4:1 4:0 4:0 text:a 4:1 4:1 128 8:1 digest:1 fill = none
read a size with the high byte first; 0 0 0 1 4:0 4:0 0 0 0 1 97 4:0 fill = none
changed 4:0 4:0 4:0 fill | 4:0 4:0 4:0 fill = none
changed 4:1 4:1 4:1 text:a 4:0 text:b 4:0 text:c 4:0 fill | 4:1 4:1 4:1 text:a 4:0 text:b 4:0 text:c 4:0 fill = none
changed 4:1 4:0 4:0 text:a 4:0 fill | 4:0 4:0 4:0 fill = 0
changed 4:0 4:0 4:0 fill | 4:1 4:0 4:0 text:a 4:0 fill = 0
changed 4:1 4:0 4:0 text:a 4:0 fill | 4:1 4:0 4:0 text:b 4:0 fill = 0
changed 4:0 4:1 4:0 text:a 4:0 fill | 4:0 4:0 4:0 fill = 1
changed 4:0 4:0 4:0 fill | 4:0 4:1 4:0 text:a 4:0 fill = 1
changed 4:1 4:1 4:0 text:a 4:0 text:b 4:0 fill | 4:0 4:0 4:0 fill = 0
changed 4:1 4:1 4:1 text:a 4:0 text:b 4:0 text:c 4:0 fill | 4:1 4:1 4:1 text:a 4:0 text:d 4:0 text:d 4:0 fill = 1
changed 4:0 4:0 4:1 text:a 4:0 fill | 4:0 4:0 4:0 fill = 2
changed 4:0 4:0 4:1 text:a 4:0 fill | 4:0 4:0 4:2 text:a 4:0 text:b 4:0 fill = none
changed 4:0 4:0 4:0 fill | 4:0 4:0 4:2 text:a 4:0 text:b 4:0 fill = none
changed 4:0 4:0 4:2 text:a 4:0 text:b 4:0 fill | 4:0 4:0 4:2 text:a 4:0 text:c 4:0 fill = 3
changed 4:0 4:0 4:2 text:a 4:0 text:b 4:0 fill | 4:0 4:0 4:2 text:b 4:0 text:a 4:0 fill = 2
changed 4:0 4:0 4:2 text:a 4:0 text:b 4:0 fill | 4:0 4:0 4:1 text:a 4:0 fill = 3
changed 4:0 4:0 4:1 text:a 4:1 text:K 8:1 digest:1 fill | 4:0 4:0 4:1 text:a 4:1 text:K 8:1 digest:1 fill = none
changed 4:0 4:0 4:1 text:a 4:1 text:K 8:1 digest:1 fill | 4:0 4:0 4:1 text:a 4:1 text:K 8:2 digest:1 fill = 2
changed 4:0 4:0 4:1 text:a 4:1 text:K 8:1 digest:1 fill | 4:0 4:0 4:1 text:a 4:1 text:K 8:1 digest:2 fill = 2
changed 4:0 4:0 4:1 text:a 4:1 text:K 8:1 digest:1 fill | 4:0 4:0 4:1 text:a 4:1 text:L 8:1 digest:1 fill = 2
changed 4:0 4:0 4:1 text:a 4:1 text:K 8:1 digest:1 fill | 4:0 4:0 4:1 text:a 4:0 fill = 2
changed 4:0 4:0 4:1 text:a 4:0 fill | 4:0 4:0 4:1 text:a 4:1 text:K 8:1 digest:1 fill = 2
changed 4:1 4:0 4:0 text:a 4:0 fill | 4:1 4:0 4:0 text:a 4:1 text:K 8:1 digest:1 fill = 0
changed 4:0 4:1 4:0 text:a 4:0 fill | 4:0 4:1 4:0 text:a 4:1 text:K 8:1 digest:1 fill = 1";

#[test]
fn manifests_are_read_and_written_and_their_first_change_is_found(
    rt: HostRuntime,
) -> Result<(), Fail> {
    one_manifest();
    assert_eq!(rt; wrong_rows(rt.alloc(), ROWS)?.as_str(), "");
    Ok(())
}
