// The store and the sinks of a row, and the commands over them.
use crate::command::run_command;
use crate::ended::status;
use crate::looks::say_bytes;
use jsa_files::{MemoryFiles, MemorySink};
use std::alloc::{AllocError, Global};
use std::mem;
use test_rows::say_number;

#[derive(Drop)]
pub(crate) struct Bench {
    pub(crate) files: MemoryFiles,
    pub(crate) out: MemorySink,
    pub(crate) err: MemorySink,
}

pub(crate) fn new_bench(alloc: Global) -> Bench {
    Bench {
        files: MemoryFiles::new(alloc),
        out: MemorySink::new(alloc),
        err: MemorySink::new(alloc),
    }
}

// The words of a command, and those of the names of some. No text is no word.
fn line_of(words: &str) -> &str {
    match words {
        "@dump" => {
            "-Xshare:dump -XX:SharedClassListFile=list.txt -XX:SharedArchiveFile=a.jsa -cp app"
        }
        "@on" => "-Xshare:on -XX:SharedArchiveFile=a.jsa -cp app Main",
        "@from" => "-XX:SharedArchiveFile=a.jsa -cp app Main",
        "@auto" => "-Xshare:auto -XX:SharedArchiveFile=none -cp app Main",
        "@8" => "-Xshare:auto -XX:SharedArchiveFile=none -cp app --steps=8 Main",
        "@9" => "-Xshare:auto -XX:SharedArchiveFile=none -cp app --steps=9 Main",
        other => other,
    }
}

fn push_word(alloc: Global, word: &str, words: &mut Vec<String>) -> Result<(), AllocError> {
    let word = String::from_str(alloc, word)?;
    Ok(words.push(word)?)
}

fn words_of(alloc: Global, line: &str) -> Result<Vec<String>, AllocError> {
    let mut words = Vec::new(alloc);
    if line.is_empty() {
        return Ok(words);
    }
    for word in line.split(' ') {
        push_word(alloc, word, &mut words)?;
    }
    Ok(words)
}

// Does a command: its status.
fn run(alloc: Global, bench: &mut Bench, words: &[String]) -> u8 {
    let files = mem::replace(&mut bench.files, MemoryFiles::new(alloc));
    let (ended, files) = run_command(alloc, words, files, &mut bench.out, &mut bench.err);
    bench.files = files;
    status(ended)
}

fn run_line(alloc: Global, bench: &mut Bench, line: &str) -> Result<u8, AllocError> {
    let words = words_of(alloc, line)?;
    Ok(run(alloc, bench, &words))
}

// Says a status, what out took and what err took.
fn say_ended(
    alloc: Global,
    status: u8,
    out: &[u8],
    err: &[u8],
    said: &mut String,
) -> Result<(), AllocError> {
    say_number(alloc, u64::from(status), said)?;
    said.push_str("|")?;
    say_bytes(out, said)?;
    said.push_str("|")?;
    say_bytes(err, said)
}

// Does a command and says how it ended. The next one has new sinks.
pub(crate) fn say_run(
    alloc: Global,
    bench: &mut Bench,
    words: &str,
    said: &mut String,
) -> Result<(), AllocError> {
    let status = run_line(alloc, bench, line_of(words))?;
    say_ended(alloc, status, bench.out.bytes(), bench.err.bytes(), said)?;
    bench.out = MemorySink::new(alloc);
    bench.err = MemorySink::new(alloc);
    Ok(())
}
