// Rows `CALL = ANSWER` of puts, into sinks in memory and over writers of std. A line that begins with `#` says what the rows
// below it show, and begins a new sink in memory.
use crate::rows::{compare, first_word, number, parts, say_text};
use jsa_files::{MemorySink, Sink, SinkFault, StdSink};
use std::alloc::{AllocError, Global};
use std::io;
use std::io::{ErrorKind, Write};

fn put<S: Sink>(alloc: Global, sink: &mut S, bytes: &[u8]) -> Result<(), SinkFault> {
    sink.put(alloc, bytes)
}

fn told(answer: Result<(), SinkFault>) -> &'static str {
    match answer {
        Ok(()) => "done",
        Err(SinkFault::Failed) => "failed",
        Err(SinkFault::Memory) => "memory",
    }
}

// A writer that takes so many bytes at a time, and gives an error of this kind once it has no room.
#[derive(Drop)]
struct Narrow {
    taken: Vec<u8>,
    step: usize,
    room: usize,
    then: ErrorKind,
}

impl Write for Narrow {
    fn write(&mut self, buf: &[u8]) -> io::Result<usize> {
        if self.room == 0 {
            return Err(io::Error::from(self.then));
        }
        let count = buf.len().min(self.step).min(self.room);
        self.taken.extend_from_slice(&buf[..count])?;
        self.room -= count;
        Ok(count)
    }

    fn flush(&mut self) -> io::Result<()> {
        if self.room == 0 {
            return Err(io::Error::from(self.then));
        }
        Ok(())
    }
}

pub fn kind_of(word: &str) -> ErrorKind {
    match word {
        "BrokenPipe" => ErrorKind::BrokenPipe,
        "Interrupted" => ErrorKind::Interrupted,
        "NotFound" => ErrorKind::NotFound,
        "OutOfMemory" => ErrorKind::OutOfMemory,
        _ => ErrorKind::Other,
    }
}

// The answer, and behind it what was taken.
fn say_taken(answer: &str, bytes: &[u8], said: &mut String) -> Result<(), AllocError> {
    said.push_str(answer)?;
    if bytes.is_empty() {
        return Ok(());
    }
    said.push_str(" ")?;
    say_text(bytes, said)
}

// What a put of `abcdefgh` answers.
fn put_narrow(alloc: Global, writer: &mut Narrow) -> &'static str {
    let mut sink = StdSink::new(writer);
    told(put(alloc, &mut sink, b"abcdefgh"))
}

fn say_narrow(alloc: Global, words: &str, said: &mut String) -> Result<(), AllocError> {
    let (step, words) = first_word(words);
    let (room, kind) = first_word(words);
    let mut writer = Narrow {
        taken: Vec::new(alloc),
        step: number(step) as usize,
        room: number(room) as usize,
        then: kind_of(kind),
    };
    let answer = put_narrow(alloc, &mut writer);
    say_taken(answer, writer.taken.as_slice(), said)
}

// Puts each of the texts between commas.
fn put_each(alloc: Global, texts: &str, bytes: &mut Vec<u8>) -> Result<(), SinkFault> {
    let mut sink = StdSink::new(bytes);
    for text in texts.split(',') {
        put(alloc, &mut sink, text.as_bytes())?;
    }
    Ok(())
}

fn say_whole(alloc: Global, texts: &str, said: &mut String) -> Result<(), AllocError> {
    let mut bytes = Vec::new(alloc);
    let answer = put_each(alloc, texts, &mut bytes);
    say_taken(told(answer), bytes.as_slice(), said)
}

fn memory_word(alloc: Global, sink: &mut MemorySink, verb: &str, words: &str) -> &'static str {
    let (call, kept) = first_word(words);
    match verb {
        "put" => told(put(alloc, sink, words.as_bytes())),
        "fail" => told(sink.fail(number(call), number(kept))),
        _ => "no call",
    }
}

fn say(
    alloc: Global,
    sink: &mut MemorySink,
    call: &str,
    said: &mut String,
) -> Result<(), AllocError> {
    let (verb, words) = first_word(call);
    match verb {
        "bytes" => say_text(sink.bytes(), said),
        "narrow" => say_narrow(alloc, words, said),
        "std" => say_whole(alloc, words, said),
        _ => said.push_str(memory_word(alloc, sink, verb, words)),
    }
}

fn try_call(
    alloc: Global,
    sink: &mut MemorySink,
    row: &str,
    wrong: &mut String,
) -> Result<(), AllocError> {
    let (call, _) = parts(row);
    let mut said = String::new(alloc);
    say(alloc, sink, call, &mut said)?;
    compare(row, said.as_str(), wrong)
}

fn try_row(
    alloc: Global,
    sink: &mut MemorySink,
    row: &str,
    wrong: &mut String,
) -> Result<(), AllocError> {
    if row.starts_with('#') {
        *sink = MemorySink::new(alloc);
        return Ok(());
    }
    try_call(alloc, sink, row, wrong)
}

fn try_rows(alloc: Global, rows: &str, wrong: &mut String) -> Result<(), AllocError> {
    let mut sink = MemorySink::new(alloc);
    for row in rows.lines() {
        try_row(alloc, &mut sink, row, wrong)?;
    }
    Ok(())
}

// The rows that are wrong.
pub fn wrong_rows(alloc: Global, rows: &str) -> Result<String, AllocError> {
    let mut wrong = String::new(alloc);
    try_rows(alloc, rows, &mut wrong)?;
    Ok(wrong)
}
