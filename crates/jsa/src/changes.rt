// The calls that put something.
use crate::bench::{Bench, new_bench};
use crate::example_classes::{CLASS_A, DIVIDES, PUTS_42_AND_MINUS_1, PUTS_A_SUM, SHIFTS};
use jsa_files::{Files, FilesFault, MAX_FILE, MemoryFiles, MemorySink};
use std::alloc::{AllocError, Global};
use test_rows::first_word;

fn number(text: &str) -> Result<u64, FilesFault> {
    match text.parse::<u64>() {
        Ok(number) => Ok(number),
        Err(_) => Err(FilesFault::Failed),
    }
}

fn byte(text: &str) -> Result<u8, FilesFault> {
    match text.parse::<u8>() {
        Ok(byte) => Ok(byte),
        Err(_) => Err(FilesFault::Failed),
    }
}

fn class_of(name: &str) -> Result<&'static [u8], FilesFault> {
    match name {
        "SUM" => Ok(PUTS_A_SUM.as_slice()),
        "SHIFTS" => Ok(SHIFTS.as_slice()),
        "DIVIDES" => Ok(DIVIDES.as_slice()),
        "COMPILED" => Ok(PUTS_42_AND_MINUS_1.as_slice()),
        "A" => Ok(CLASS_A.as_slice()),
        _ => Err(FilesFault::Failed),
    }
}

fn put_class(files: &mut MemoryFiles, path: &str, name: &str) -> Result<(), FilesFault> {
    let class = class_of(name)?;
    files.with(path, class)
}

fn bytes_of(alloc: Global, text: &str) -> Result<Vec<u8>, AllocError> {
    let mut bytes = Vec::new(alloc);
    for byte in text.as_bytes() {
        bytes.push(match *byte {
            b'~' => b'\n',
            b'^' => b'\r',
            other => other,
        })?;
    }
    Ok(bytes)
}

fn put_text(
    alloc: Global,
    files: &mut MemoryFiles,
    path: &str,
    text: &str,
) -> Result<(), FilesFault> {
    let bytes = bytes_of(alloc, text)?;
    files.with(path, &bytes)
}

fn put_large(
    alloc: Global,
    files: &mut MemoryFiles,
    path: &str,
    more: &str,
) -> Result<(), FilesFault> {
    let more = if more == "1" { 1 } else { 0 };
    let large = vec![in alloc; 0u8; MAX_FILE + more]?;
    files.with(path, &large)
}

fn push_bytes(numbers: &str, new: &mut Vec<u8>) -> Result<(), FilesFault> {
    for number in numbers.split_whitespace() {
        new.push(byte(number)?)?;
    }
    Ok(())
}

// Adds what stands before an edit's place and its new bytes, and answers the place behind what goes.
fn push_edit(old: &[u8], place: usize, edit: &str, new: &mut Vec<u8>) -> Result<usize, FilesFault> {
    let (at, edit) = first_word(edit);
    let (cut, bytes) = first_word(edit);
    let at = number(at)? as usize;
    let cut = number(cut)? as usize;
    if !(place <= at && at <= old.len() && cut <= old.len() - at) {
        return Err(FilesFault::Failed);
    }
    new.extend_from_slice(&old[place..at])?;
    push_bytes(bytes, new)?;
    Ok(at + cut)
}

fn push_edits(old: &[u8], edits: &str, new: &mut Vec<u8>) -> Result<(), FilesFault> {
    let mut place = 0;
    for edit in edits.split("; ") {
        place = push_edit(old, place, edit, new)?;
    }
    if place > old.len() {
        return Err(FilesFault::Failed);
    }
    Ok(new.extend_from_slice(&old[place..])?)
}

fn edited(alloc: Global, old: &[u8], edits: &str) -> Result<Vec<u8>, FilesFault> {
    let mut new = Vec::new(alloc);
    push_edits(old, edits, &mut new)?;
    Ok(new)
}

fn read(alloc: Global, files: &mut MemoryFiles, path: &str) -> Result<Vec<u8>, FilesFault> {
    match files.read(alloc, path) {
        Ok(Some(bytes)) => Ok(bytes),
        _ => Err(FilesFault::Failed),
    }
}

fn read_edited(
    alloc: Global,
    files: &mut MemoryFiles,
    path: &str,
    edits: &str,
) -> Result<Vec<u8>, FilesFault> {
    let old = read(alloc, files, path)?;
    edited(alloc, &old, edits)
}

fn edit(alloc: Global, files: &mut MemoryFiles, path: &str, edits: &str) -> Result<(), FilesFault> {
    let new = read_edited(alloc, files, path, edits)?;
    files.with(path, &new)
}

fn keep(alloc: Global, files: &mut MemoryFiles, path: &str) -> Result<(), FilesFault> {
    let bytes = read(alloc, files, path)?;
    *files = MemoryFiles::new(alloc);
    files.with(path, &bytes)
}

fn fail_call(files: &mut MemoryFiles, call: &str, kept: &str) -> Result<(), FilesFault> {
    let call = number(call)?;
    let kept = number(kept)?;
    files.fail(call, kept)
}

fn change_files(
    alloc: Global,
    files: &mut MemoryFiles,
    verb: &str,
    words: &str,
) -> Result<(), FilesFault> {
    let (first, more) = first_word(words);
    match verb {
        "put" => put_class(files, first, more),
        "text" => put_text(alloc, files, first, more),
        "large" => put_large(alloc, files, first, more),
        "edit" => edit(alloc, files, first, more),
        "keep" => keep(alloc, files, first),
        "fail" => fail_call(files, first, more),
        _ => Err(FilesFault::Failed),
    }
}

fn fail_put(sink: &mut MemorySink, words: &str) -> Result<(), FilesFault> {
    let (put, kept) = first_word(words);
    let put = number(put)?;
    let kept = number(kept)?;
    match sink.fail(put, kept) {
        Ok(()) => Ok(()),
        Err(_) => Err(FilesFault::Memory),
    }
}

fn renew(alloc: Global, bench: &mut Bench) -> Result<(), FilesFault> {
    *bench = new_bench(alloc);
    Ok(())
}

fn change(alloc: Global, bench: &mut Bench, verb: &str, words: &str) -> Result<(), FilesFault> {
    match verb {
        "new" => renew(alloc, bench),
        "out" => fail_put(&mut bench.out, words),
        "err" => fail_put(&mut bench.err, words),
        _ => change_files(alloc, &mut bench.files, verb, words),
    }
}

// Nothing, or that something could not be put.
pub(crate) fn change_word(
    alloc: Global,
    bench: &mut Bench,
    verb: &str,
    words: &str,
) -> &'static str {
    match change(alloc, bench, verb, words) {
        Ok(()) => "",
        Err(_) => "no such call",
    }
}
