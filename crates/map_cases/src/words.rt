// The words of answers.
use archive_header::{Manifest, Refuse};
use archive_mapper::map;
use plain_classes::PlainClass;
use sqlite_items::Items;
use std::alloc::Global;

fn path_word(number: u32) -> &'static str {
    match number {
        0 => "path 0",
        1 => "path 1",
        2 => "path 2",
        _ => "path",
    }
}

fn later_word(refuse: &Refuse) -> &'static str {
    match refuse {
        Refuse::Layer { .. } => "layer",
        Refuse::Malformed => "malformed",
        Refuse::Path(number) => path_word(*number),
        Refuse::Base { .. } => "base",
        Refuse::Memory => "memory",
        _ => "another",
    }
}

fn refuse_word(refuse: &Refuse) -> &'static str {
    match refuse {
        Refuse::Short => "short",
        Refuse::Magic => "magic",
        Refuse::Version(_) => "version",
        Refuse::Digest { .. } => "digest",
        _ => later_word(refuse),
    }
}

fn answer_word(answer: &Result<Items<PlainClass>, Refuse>) -> &'static str {
    match answer {
        Ok(_) => "mapped",
        Err(refuse) => refuse_word(refuse),
    }
}

/// What mapping answers, where this is there now.
pub fn map_word(alloc: Global, bytes: &[u8], now: Option<&Manifest>) -> &'static str {
    answer_word(&map(alloc, bytes, now))
}

fn same_word(is_same: bool) -> &'static str {
    if is_same { "as they are" } else { "others" }
}

// Whether a refusal keeps and finds these digests.
fn digests_word(refuse: &Refuse, a: &[u8; 32], b: &[u8; 32]) -> &'static str {
    match refuse {
        Refuse::Digest { kept, found } => same_word(kept == a && found == b),
        Refuse::Layer { kept, found } => same_word(kept == a && found == b),
        _ => "no digests",
    }
}

/// Whether mapping refuses with these digests, the one that is kept and the one that is found.
pub fn refused_word(
    alloc: Global,
    bytes: &[u8],
    kept: &[u8; 32],
    found: &[u8; 32],
) -> &'static str {
    match &map(alloc, bytes, None) {
        Ok(_) => "mapped",
        Err(refuse) => digests_word(refuse, kept, found),
    }
}
