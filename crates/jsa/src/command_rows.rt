//! Rows `CALLS = ANSWER` over a store and two sinks in memory. A row has one call, or several with ` & ` between two of them,
//! and its answer is what they say, one behind the other. In texts and answers `~` is an end of a line and `^` a carriage
//! return. Calls that prepare say nothing:
//!
//!     new WHAT                  a new store, and what the rows show
//!     put PATH CLASS            puts a class: SUM, SHIFTS, DIVIDES, COMPILED or A
//!     text PATH TEXT            puts a text
//!     edit PATH EDITS           edits what is at a path. The edits come by ascending places, with `; ` between two: a place, how
//!                               many bytes go there, and the bytes that come in their stead
//!     large PATH N              puts as many zeros as a file may have, and N more
//!     keep PATH                 a new store with what is at this path
//!     fail CALL N               this call of the store fails, behind N bytes of what it writes
//!     out PUT N, err PUT N      this put of the next command fails, behind N bytes
//!
//! And these answer:
//!
//!     run WORDS                 a command: its status, what out took and what err took
//!     reads                     the paths whose bytes were handed out
//!     size PATH, file PATH      how many bytes are there, or which
//!     same PATH PATH            whether two paths hold the same bytes, of which there is one at least
//!     count FOLDER              how many class files are below a folder
//!     line END whole, .. cut    the line of an end for the subject a/B and 9 turns, or its front where the put fails behind three
//!                               bytes; either way the end is given back
use crate::bench::{Bench, new_bench, say_run};
use crate::changes::change_word;
use crate::end_rows::say_line;
use crate::looks::{look, say_reads};
use std::alloc::{AllocError, Global};
use test_rows::{first_word, tell};

// The calls of a row, and the answer that is wanted.
fn parts(row: &str) -> (&str, &str) {
    row.split_once(" = ").unwrap_or((row, ""))
}

fn say(alloc: Global, bench: &mut Bench, call: &str, said: &mut String) -> Result<(), AllocError> {
    let (verb, words) = first_word(call);
    match verb {
        "run" => say_run(alloc, bench, words, said),
        "reads" => say_reads(alloc, &bench.files, said),
        "line" => say_line(alloc, words, said),
        "size" | "file" | "count" | "same" => look(alloc, &mut bench.files, verb, words, said),
        _ => said.push_str(change_word(alloc, bench, verb, words)),
    }
}

fn say_calls(
    alloc: Global,
    bench: &mut Bench,
    calls: &str,
    said: &mut String,
) -> Result<(), AllocError> {
    for call in calls.split(" & ") {
        say(alloc, bench, call, said)?;
    }
    Ok(())
}

fn compare(row: &str, said: &str, wrong: &mut String) -> Result<(), AllocError> {
    let (_, wanted) = parts(row);
    if said == wanted {
        return Ok(());
    }
    tell(row, said, wrong)
}

fn try_row(
    alloc: Global,
    bench: &mut Bench,
    row: &str,
    wrong: &mut String,
) -> Result<(), AllocError> {
    let (calls, _) = parts(row);
    let mut said = String::new(alloc);
    say_calls(alloc, bench, calls, &mut said)?;
    compare(row, said.as_str(), wrong)
}

fn try_rows(
    alloc: Global,
    bench: &mut Bench,
    rows: &str,
    wrong: &mut String,
) -> Result<(), AllocError> {
    for row in rows.lines() {
        try_row(alloc, bench, row, wrong)?;
    }
    Ok(())
}

fn try_text(alloc: Global, rows: &str, wrong: &mut String) -> Result<(), AllocError> {
    let mut bench = new_bench(alloc);
    try_rows(alloc, &mut bench, rows, wrong)
}

/// The rows of texts that are wrong, a line each, with what was answered.
pub(crate) fn wrong_rows(alloc: Global, texts: &[&str]) -> Result<String, AllocError> {
    let mut wrong = String::new(alloc);
    for rows in texts {
        try_text(alloc, rows, &mut wrong)?;
    }
    Ok(wrong)
}

/// Says what calls answer over a new store.
pub(crate) fn say_anew(alloc: Global, calls: &str, said: &mut String) -> Result<(), AllocError> {
    let mut bench = new_bench(alloc);
    say_calls(alloc, &mut bench, calls, said)
}
