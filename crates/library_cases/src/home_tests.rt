// A home in a store in memory: that it is made where memory suffices, and what is left where a call fails. A row is a call,
// and behind ` = ` what it answers; rows behind an empty line are calls of another store. In them `~` ends a line.
use boot_library::{HomeFault, boot_text, write_home};
use jsa_files::{Files, FilesFault, MemoryFiles};
use std::alloc::{AllocError, Global};

// Adds to what is said. Where memory runs out the text is short, and its row wrong.
fn put(said: &mut String, text: &str) {
    let _kept = said.push_str(text);
}

fn say_number(alloc: Global, said: &mut String, front: &str, number: usize) {
    put(said, front);
    if let Ok(text) = format!(in alloc; "{number}") {
        put(said, text.as_str());
    }
}

fn say_home(alloc: Global, said: &mut String, text: &str, files: &mut MemoryFiles) {
    if text.len() > 1_000_000 {
        return;
    }
    match write_home(alloc, "h", text, files) {
        Ok(()) => put(said, "done"),
        Err(HomeFault::Line(line)) => say_number(alloc, said, "line ", line as usize),
        Err(HomeFault::Files(FilesFault::Failed)) => put(said, "failed"),
        Err(_) => put(said, "another fault"),
    }
}

// The home of a text in which `~` ends a line.
fn say_lines(alloc: Global, said: &mut String, words: &str, files: &mut MemoryFiles) {
    if let Ok(text) = words.replace(alloc, "~", "\n") {
        say_home(alloc, said, text.as_str(), files);
    }
}

// The number of class files below a folder.
fn say_count(alloc: Global, said: &mut String, folder: &str, files: &mut MemoryFiles) {
    if let Ok(names) = files.list(alloc, folder) {
        say_number(alloc, said, "", names.len() as usize);
    }
}

fn say_text(alloc: Global, said: &mut String, text: &str) {
    if let Ok(text) = text.replace(alloc, "\n", "~") {
        put(said, text.as_str());
    }
}

fn yes_word(is_so: bool) -> &'static str {
    if is_so { "yes" } else { "no" }
}

// The first eight bytes of a class file, in hexadecimal.
fn say_front(alloc: Global, said: &mut String, bytes: &[u8]) {
    for byte in bytes.get(..8).unwrap_or(&[]) {
        if let Ok(text) = format!(in alloc; "{byte:02x}") {
            put(said, text.as_str());
        }
    }
}

fn has_part(alloc: Global, verb: &str, text: &str, words: &str) -> bool {
    match words.replace(alloc, "~", "\n") {
        Ok(part) => match verb {
            "begins" => text.starts_with(part.as_str()),
            _ => text.ends_with(part.as_str()),
        },
        Err(_) => false,
    }
}

// What is asked of a file with this content.
fn say_content(alloc: Global, said: &mut String, verb: &str, content: &[u8], words: &str) {
    let text = str::from_utf8(content).unwrap_or("no text");
    match verb {
        "front" => say_front(alloc, said, content),
        "lines" => say_number(alloc, said, "", text.lines().count()),
        "text" => say_text(alloc, said, text),
        _ => put(said, yes_word(has_part(alloc, verb, text, words))),
    }
}

fn say_file(alloc: Global, said: &mut String, verb: &str, words: &str, files: &mut MemoryFiles) {
    let (path, words) = words.split_once(' ').unwrap_or((words, ""));
    match files.read(alloc, path) {
        Ok(Some(content)) => say_content(alloc, said, verb, content.as_slice(), words),
        _ => put(said, "not read"),
    }
}

// A call that fails behind so many bytes.
fn planned_word(words: &str, files: &mut MemoryFiles) -> &'static str {
    let (call, kept) = words.split_once(' ').unwrap_or((words, ""));
    let call = call.parse::<u64>().unwrap_or(0);
    match files.fail(call, kept.parse::<u64>().unwrap_or(0)) {
        Ok(()) => "planned",
        Err(_) => "memory",
    }
}

// What one call answers.
fn say(alloc: Global, said: &mut String, call: &str, files: &mut MemoryFiles) {
    let (verb, words) = call.split_once(' ').unwrap_or((call, ""));
    match verb {
        "boot" => say_home(alloc, said, boot_text(), files),
        "home" => say_lines(alloc, said, words, files),
        "count" => say_count(alloc, said, words, files),
        "fail" => put(said, planned_word(words, files)),
        _ => say_file(alloc, said, verb, words, files),
    }
}

fn put_wrong(wrong: &mut String, row: &str, said: &str) -> Result<(), AllocError> {
    wrong.push_str(row)?;
    wrong.push_str(" but ")?;
    wrong.push_str(said)
}

fn put_row(
    alloc: Global,
    wrong: &mut String,
    row: &str,
    files: &mut MemoryFiles,
) -> Result<(), AllocError> {
    let (call, wanted) = row.split_once(" = ").unwrap_or((row, "no answer"));
    let mut said = String::new(alloc);
    say(alloc, &mut said, call, files);
    if said.as_str() == wanted {
        return Ok(());
    }
    put_wrong(wrong, row, said.as_str())
}

// The rows that are wrong, of calls of one new store.
fn put_rows(alloc: Global, wrong: &mut String, rows: &str) -> Result<(), AllocError> {
    let mut files = MemoryFiles::new(alloc);
    for row in rows.lines() {
        put_row(alloc, wrong, row, &mut files)?;
    }
    Ok(())
}

fn wrong_rows(alloc: Global, rows: &str) -> Result<String, AllocError> {
    let mut wrong = String::new(alloc);
    for part in rows.split("\n\n") {
        put_rows(alloc, &mut wrong, part)?;
    }
    Ok(wrong)
}

#[test]
fn the_home_of_the_boot_library(rt: HostRuntime) -> Result<(), AllocError> {
    let rows = "boot = done
count h = 54
count h/boot/java = 53
lines h/classlist = 54
begins h/classlist java/lang/Object~java/io/Serializable~java/lang/Cloneable~ = yes
ends h/classlist ~java/lang/UnsupportedOperationException~jsa/Out~ = yes
front h/boot/java/lang/String.class = cafebabe00000034";
    assert_eq!(rt; wrong_rows(rt.alloc(), rows)?.as_str(), "");
    Ok(())
}

#[test]
fn what_a_failed_call_leaves_and_the_line_that_is_told(rt: HostRuntime) -> Result<(), AllocError> {
    let rows = "fail 1 3 = planned
home class 0x0021 A java/lang/Object~class 0x0021 p/B A~ = failed
count h/boot = 1

fail 2 3 = planned
home class 0x0021 A java/lang/Object~class 0x0021 p/B A~ = failed
count h/boot = 2

fail 3 3 = planned
home class 0x0021 A java/lang/Object~class 0x0021 p/B A~ = failed
count h/boot = 2

home class 0x0021 A java/lang/Object~class B~ = line 2
count h = 0
home class 0x0021 A java/lang/Object~class 0x0021 p/B A~ = done
text h/classlist = A~p/B~";
    assert_eq!(rt; wrong_rows(rt.alloc(), rows)?.as_str(), "");
    Ok(())
}
