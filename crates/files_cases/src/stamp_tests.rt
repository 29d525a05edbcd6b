// Digests, and readers that are read to their end or fail before it.
use crate::rows::{compare, first_word, is_digest_of_abc, name_of, parts, say_text, stamp_word};
use crate::sink_rows::kind_of;
use jsa_files::{digest_whole, read_whole, sha256};
use std::alloc::{AllocError, Global};
use std::io;
use std::io::{ErrorKind, Read};
use std::test::Fail;

// A reader that gives its bytes three at a time, and then an error of this kind.
#[derive(Drop)]
struct Broken<'a> {
    bytes: &'a [u8],
    then: ErrorKind,
}

impl Read for Broken<'_> {
    fn read(&mut self, buf: &mut [u8]) -> io::Result<usize> {
        if self.bytes.is_empty() {
            return Err(io::Error::from(self.then));
        }
        let count = buf.len().min(self.bytes.len()).min(3);
        buf[..count].copy_from_slice(&self.bytes[..count]);
        self.bytes = &self.bytes[count..];
        Ok(count)
    }
}

fn broken_word(alloc: Global, then: ErrorKind) -> &'static str {
    let mut reader = Broken {
        bytes: b"abcdefgh",
        then,
    };
    match read_whole(&mut reader, alloc) {
        Ok(_) => "read",
        Err(fault) => name_of(fault),
    }
}

fn say_whole(alloc: Global, text: &str, said: &mut String) -> Result<(), AllocError> {
    let mut whole = text.as_bytes();
    match read_whole(&mut whole, alloc) {
        Ok(bytes) => say_text(bytes.as_slice(), said),
        Err(fault) => said.push_str(name_of(fault)),
    }
}

fn text_word(text: &str) -> &'static str {
    let mut whole = text.as_bytes();
    match digest_whole(&mut whole) {
        Ok(stamp) => stamp_word(&stamp),
        Err(fault) => name_of(fault),
    }
}

// More bytes than one read takes have the digest of them all.
fn long_word() -> &'static str {
    let long = [7u8; 70_000];
    let mut rest: &[u8] = &long;
    match digest_whole(&mut rest) {
        Ok(stamp) => {
            if stamp.size == 70_000 && stamp.sha256 == sha256(&long) {
                "all"
            } else {
                "other"
            }
        }
        Err(fault) => name_of(fault),
    }
}

fn digest_word(text: &str) -> &'static str {
    if is_digest_of_abc(&sha256(text.as_bytes())) {
        "abc"
    } else {
        "other"
    }
}

fn word_of(alloc: Global, verb: &str, word: &str) -> &'static str {
    match verb {
        "broken" => broken_word(alloc, kind_of(word)),
        "digest" => text_word(word),
        "long" => long_word(),
        "sha256" => digest_word(word),
        _ => "no call",
    }
}

fn say(alloc: Global, call: &str, said: &mut String) -> Result<(), AllocError> {
    let (verb, word) = first_word(call);
    match verb {
        "read" => say_whole(alloc, word, said),
        _ => said.push_str(word_of(alloc, verb, word)),
    }
}

fn try_row(alloc: Global, row: &str, wrong: &mut String) -> Result<(), AllocError> {
    let (call, _) = parts(row);
    let mut said = String::new(alloc);
    say(alloc, call, &mut said)?;
    compare(row, said.as_str(), wrong)
}

fn wrong_rows(alloc: Global, rows: &str) -> Result<String, AllocError> {
    let mut wrong = String::new(alloc);
    for row in rows.lines() {
        try_row(alloc, row, &mut wrong)?;
    }
    Ok(wrong)
}

static ROWS: &str = "sha256 abc = abc
broken NotFound = failed
broken Interrupted = failed
broken OutOfMemory = memory
read abcdefgh = abcdefgh
digest abc = abc
long = all";

#[test]
fn readers_are_read_and_stamped_to_their_end_and_give_nothing_where_they_fail(
    rt: HostRuntime,
) -> Result<(), Fail> {
    assert_eq!(rt; wrong_rows(rt.alloc(), ROWS)?.as_str(), "");
    Ok(())
}
