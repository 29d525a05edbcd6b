// The lines of ends.
use crate::ended::Ended;
use crate::lines::tell;
use crate::looks::say_bytes;
use archive_header::Refuse;
use jsa_base::Quantity;
use jsa_files::MemorySink;
use std::alloc::{AllocError, Global};
use test_rows::first_word;

const DIGEST: Refuse = Refuse::Digest {
    kept: [1; 32],
    found: [2; 32],
};

const LAYER: Refuse = Refuse::Layer {
    kept: [1; 32],
    found: [0; 32],
};

fn refusal(name: &str) -> Option<Refuse> {
    match name {
        "short" => Some(Refuse::Short),
        "magic" => Some(Refuse::Magic),
        "version" => Some(Refuse::Version(7)),
        "digest" => Some(DIGEST),
        "layer" => Some(LAYER),
        "malformed" => Some(Refuse::Malformed),
        "path" => Some(Refuse::Path(2)),
        "base" => Some(Refuse::Base { base: 1, span: 2 }),
        _ => None,
    }
}

fn not_shared(name: &str) -> Option<Ended> {
    match refusal(name) {
        Some(refusal) => Some(Ended::NotShared(refusal)),
        None => None,
    }
}

fn limit_or_refusal(name: &str) -> Option<Ended> {
    match name {
        "names" => Some(Ended::Limit(Quantity::Names, 1)),
        "classes" => Some(Ended::Limit(Quantity::Classes, 2)),
        "archive-size" => Some(Ended::Limit(Quantity::ArchiveSize, 3)),
        "loaded" => Some(Ended::Limit(Quantity::Loaded, 4)),
        "file-size" => Some(Ended::Limit(Quantity::FileSize, 67_108_864)),
        _ => not_shared(name),
    }
}

fn end_of(name: &str) -> Option<Ended> {
    match name {
        "exit" => Some(Ended::Exit(7)),
        "usage" => Some(Ended::Usage),
        "bad-text" => Some(Ended::BadText(4_294_967_295)),
        "no-boot" => Some(Ended::NoBoot),
        "no-main" => Some(Ended::NoMain),
        "stopped" => Some(Ended::Stopped),
        "unsupported" => Some(Ended::Unsupported),
        "read-fault" => Some(Ended::ReadFault),
        "write-fault" => Some(Ended::WriteFault),
        "missing" => Some(Ended::Missing),
        "memory" => Some(Ended::Memory),
        _ => limit_or_refusal(name),
    }
}

// Tells an end, for the subject a/B and 9 turns: nothing where it is given back, whatever is told.
fn told_word(alloc: Global, ended: Ended, err: &mut MemorySink) -> &'static str {
    if tell(alloc, ended, b"a/B", 9, err) == ended {
        ""
    } else {
        "another end "
    }
}

fn say_taken(word: &str, taken: &[u8], said: &mut String) -> Result<(), AllocError> {
    said.push_str(word)?;
    say_bytes(taken, said)
}

fn say_whole(alloc: Global, ended: Ended, said: &mut String) -> Result<(), AllocError> {
    let mut err = MemorySink::new(alloc);
    let word = told_word(alloc, ended, &mut err);
    say_taken(word, err.bytes(), said)
}

// The first put fails behind three bytes.
fn say_cut(alloc: Global, ended: Ended, said: &mut String) -> Result<(), AllocError> {
    let mut err = MemorySink::new(alloc);
    let word = match err.fail(1, 3) {
        Ok(()) => told_word(alloc, ended, &mut err),
        Err(_) => "no plan",
    };
    say_taken(word, err.bytes(), said)
}

fn say_end(alloc: Global, ended: Ended, how: &str, said: &mut String) -> Result<(), AllocError> {
    match how {
        "whole" => say_whole(alloc, ended, said),
        "cut" => say_cut(alloc, ended, said),
        _ => said.push_str("neither whole nor cut"),
    }
}

pub(crate) fn say_line(alloc: Global, words: &str, said: &mut String) -> Result<(), AllocError> {
    let (name, how) = first_word(words);
    match end_of(name) {
        Some(ended) => say_end(alloc, ended, how, said),
        None => said.push_str("no such end"),
    }
}
