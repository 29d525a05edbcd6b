// Rows `CALL = ANSWER` of calls of a store, one after the other. A line that begins with `#` says what the rows below it
// show, and begins a new store.
use crate::count_tests::after_a_planned_failure;
use jsa_files::{Files, FilesFault, MAX_FILE, MemoryFiles, Names, Stamp};
use std::alloc::{AllocError, Global};

// the SHA-256 of `abc`, from FIPS 180-4's examples
const ABC: [u8; 32] = [
    0xba, 0x78, 0x16, 0xbf, 0x8f, 0x01, 0xcf, 0xea, 0x41, 0x41, 0x40, 0xde, 0x5d, 0xae, 0x22, 0x23,
    0xb0, 0x03, 0x61, 0xa3, 0x96, 0x17, 0x7a, 0x9c, 0xb4, 0x10, 0xff, 0x61, 0xf2, 0x00, 0x15, 0xad,
];

fn read<F: Files>(alloc: Global, files: &mut F, path: &str) -> Result<Option<Vec<u8>>, FilesFault> {
    files.read(alloc, path)
}

fn digest<F: Files>(alloc: Global, files: &mut F, path: &str) -> Result<Option<Stamp>, FilesFault> {
    files.digest(alloc, path)
}

fn list<F: Files>(alloc: Global, files: &mut F, folder: &str) -> Result<Names, FilesFault> {
    files.list(alloc, folder)
}

fn write<F: Files>(
    alloc: Global,
    files: &mut F,
    path: &str,
    bytes: &[u8],
) -> Result<(), FilesFault> {
    files.write(alloc, path, bytes)
}

// Files that are too large have 70,000 bytes too many in the tests.
pub fn name_of(fault: FilesFault) -> &'static str {
    match fault {
        FilesFault::Failed => "failed",
        FilesFault::Memory => "memory",
        FilesFault::TooMany(_) => "many",
        FilesFault::TooLarge(size) => {
            if size == MAX_FILE as u64 + 70_000 {
                "large"
            } else {
                "of another size"
            }
        }
    }
}

fn told(answer: Result<(), FilesFault>) -> &'static str {
    match answer {
        Ok(()) => "done",
        Err(fault) => name_of(fault),
    }
}

pub fn is_digest_of_abc(digest: &[u8; 32]) -> bool {
    *digest == ABC
}

pub fn stamp_word(stamp: &Stamp) -> &'static str {
    if stamp.size == 3 && is_digest_of_abc(&stamp.sha256) {
        "abc"
    } else {
        "other"
    }
}

fn digest_word<F: Files>(alloc: Global, files: &mut F, path: &str) -> &'static str {
    match digest(alloc, files, path) {
        Ok(Some(stamp)) => stamp_word(&stamp),
        Ok(None) => "none",
        Err(fault) => name_of(fault),
    }
}

pub fn say_text(bytes: &[u8], said: &mut String) -> Result<(), AllocError> {
    said.push_str(str::from_utf8(bytes).unwrap_or("no text"))
}

fn say_read<F: Files>(
    alloc: Global,
    files: &mut F,
    path: &str,
    said: &mut String,
) -> Result<(), AllocError> {
    match read(alloc, files, path) {
        Ok(Some(bytes)) => say_text(bytes.as_slice(), said),
        Ok(None) => said.push_str("none"),
        Err(fault) => said.push_str(name_of(fault)),
    }
}

// One more word of an answer.
fn say_word(word: &str, said: &mut String) -> Result<(), AllocError> {
    if !said.is_empty() {
        said.push_str(" ")?;
    }
    said.push_str(word)
}

fn say_names(names: &Names, said: &mut String) -> Result<(), AllocError> {
    for k in 0..names.len() {
        say_word(names.at(k), said)?;
    }
    Ok(())
}

fn say_list<F: Files>(
    alloc: Global,
    files: &mut F,
    path: &str,
    said: &mut String,
) -> Result<(), AllocError> {
    match list(alloc, files, path) {
        Ok(names) => say_names(&names, said),
        Err(fault) => said.push_str(name_of(fault)),
    }
}

fn store_word<F: Files>(alloc: Global, files: &mut F, verb: &str, words: &str) -> &'static str {
    let (path, text) = first_word(words);
    match verb {
        "write" => told(write(alloc, files, path, text.as_bytes())),
        "digest" => digest_word(alloc, files, path),
        _ => "no call",
    }
}

// A call that each store has.
pub fn say_store<F: Files>(
    alloc: Global,
    files: &mut F,
    verb: &str,
    words: &str,
    said: &mut String,
) -> Result<(), AllocError> {
    match verb {
        "read" => say_read(alloc, files, words, said),
        "list" => say_list(alloc, files, words, said),
        _ => said.push_str(store_word(alloc, files, verb, words)),
    }
}

fn say_reads(files: &MemoryFiles, said: &mut String) -> Result<(), AllocError> {
    for path in files.reads() {
        say_word(path.as_str(), said)?;
    }
    Ok(())
}

fn two_names(alloc: Global) -> Result<Names, AllocError> {
    let mut names = Names::new(alloc);
    names.push("b")?;
    names.push("a")?;
    Ok(names)
}

fn say_two_names(alloc: Global, said: &mut String) -> Result<(), AllocError> {
    let names = two_names(alloc)?;
    say_names(&names, said)
}

pub fn number(text: &str) -> u64 {
    text.parse::<u64>().unwrap_or(0)
}

// Puts a store after a failure that was planned in the place of this one.
fn failed_word(alloc: Global, files: &mut MemoryFiles) -> &'static str {
    match after_a_planned_failure(alloc) {
        Ok(failed) => {
            *files = failed;
            "done"
        }
        Err(fault) => name_of(fault),
    }
}

fn memory_word(alloc: Global, files: &mut MemoryFiles, verb: &str, words: &str) -> &'static str {
    let (path, text) = first_word(words);
    match verb {
        "with" => told(files.with(path, text.as_bytes())),
        "fail" => told(files.fail(number(path), number(text))),
        _ => failed_word(alloc, files),
    }
}

fn say(
    alloc: Global,
    files: &mut MemoryFiles,
    call: &str,
    said: &mut String,
) -> Result<(), AllocError> {
    let (verb, words) = first_word(call);
    match verb {
        "with" | "fail" | "after-a-failure" => {
            said.push_str(memory_word(alloc, files, verb, words))
        }
        "reads" => say_reads(files, said),
        "no-names" => say_names(&Names::new(alloc), said),
        "two-names" => say_two_names(alloc, said),
        _ => say_store(alloc, files, verb, words, said),
    }
}

// The first word, and what stands behind its space.
pub fn first_word(text: &str) -> (&str, &str) {
    text.split_once(' ').unwrap_or((text, ""))
}

// The call of a row, and the answer that is wanted.
pub fn parts(row: &str) -> (&str, &str) {
    let (call, wanted) = row.split_once(" =").unwrap_or((row, " no answer"));
    (call, wanted.strip_prefix(' ').unwrap_or(""))
}

fn tell(row: &str, said: &str, wrong: &mut String) -> Result<(), AllocError> {
    wrong.push_str(row)?;
    wrong.push_str(" but ")?;
    wrong.push_str(said)?;
    wrong.push_str("\n")
}

// Tells a row that is wrong, with what was said.
pub fn compare(row: &str, said: &str, wrong: &mut String) -> Result<(), AllocError> {
    let (_, wanted) = parts(row);
    if said == wanted {
        return Ok(());
    }
    tell(row, said, wrong)
}

fn try_call(
    alloc: Global,
    files: &mut MemoryFiles,
    row: &str,
    wrong: &mut String,
) -> Result<(), AllocError> {
    let (call, _) = parts(row);
    let mut said = String::new(alloc);
    say(alloc, files, call, &mut said)?;
    compare(row, said.as_str(), wrong)
}

fn try_row(
    alloc: Global,
    files: &mut MemoryFiles,
    row: &str,
    wrong: &mut String,
) -> Result<(), AllocError> {
    if row.starts_with('#') {
        *files = MemoryFiles::new(alloc);
        return Ok(());
    }
    try_call(alloc, files, row, wrong)
}

fn try_rows(alloc: Global, rows: &str, wrong: &mut String) -> Result<(), AllocError> {
    let mut files = MemoryFiles::new(alloc);
    for row in rows.lines() {
        try_row(alloc, &mut files, row, wrong)?;
    }
    Ok(())
}

// The rows that are wrong.
pub fn wrong_rows(alloc: Global, rows: &str) -> Result<String, AllocError> {
    let mut wrong = String::new(alloc);
    try_rows(alloc, rows, &mut wrong)?;
    Ok(wrong)
}
