// What no contract says: that a class is read where memory suffices. And classes on both sides of each rule.
use crate::test_classes::{CHANGED, CLASSES, HELLO, POOL};
use class_tree::{ClassTree, CodeTree, FormatFault, MethodTree, PoolEntry};
use classfile_reader::read_class;
use std::alloc::{AllocError, Global};
use std::test::Fail;
use test_rows::tell_wrong;

// What is read of the bytes: `yes`, `no` or the version.
fn say(alloc: Global, said: &mut String, bytes: &[u8]) -> Result<(), AllocError> {
    match read_class(alloc, bytes) {
        Ok(_) => said.push_str("yes"),
        Err(FormatFault::NotClass) => said.push_str("no"),
        Err(FormatFault::Memory) => said.push_str("memory"),
        Err(FormatFault::Version(minor, major)) => {
            said.push_str(format!(in alloc; "{minor}.{major}")?.as_str())
        }
    }
}

// The least class: A under java/lang/Object.
const UNIT: [u8; 53] = [
    202, 254, 186, 190, 0, 0, 0, 52, 0, 5, 1, 0, 1, 65, 7, 0, 1, 1, 0, 16, 106, 97, 118, 97, 47,
    108, 97, 110, 103, 47, 79, 98, 106, 101, 99, 116, 7, 0, 3, 0, 33, 0, 2, 0, 4, 0, 0, 0, 0, 0, 0,
    0, 0,
];

// ---- the least class

fn push_entry(alloc: Global, shown: &mut String, entry: &PoolEntry) -> Result<(), AllocError> {
    match entry {
        PoolEntry::Unusable => shown.push_str("; unusable"),
        PoolEntry::Class(name) => shown.push_str(format!(in alloc; "; class {name}")?.as_str()),
        PoolEntry::Utf8(text) => {
            shown.push_str("; utf8 ")?;
            shown.push_str(str::from_utf8(text.as_slice()).unwrap_or("?"))
        }
        _ => shown.push_str("; another"),
    }
}

fn say_tree(alloc: Global, shown: &mut String, tree: &ClassTree) -> Result<(), AllocError> {
    let head = format!(in alloc; "{} {} {} {}", tree.major, tree.flags, tree.this, tree.sup)?;
    shown.push_str(head.as_str())?;
    for entry in tree.pool.entries() {
        push_entry(alloc, shown, entry)?;
    }
    let members = (tree.fields.len(), tree.methods.len());
    let counts = format!(in alloc; "; {} {members:?}", tree.interfaces.len())?;
    shown.push_str(counts.as_str())
}

fn push_read(alloc: Global, shown: &mut String, bytes: &[u8]) -> Result<(), AllocError> {
    match read_class(alloc, bytes) {
        Ok(tree) => say_tree(alloc, shown, &tree),
        Err(_) => shown.push_str("no class"),
    }
}

// ---- a compiled class

fn is_used(entry: &PoolEntry) -> bool {
    !matches!(entry, PoolEntry::Unusable)
}

fn push_sizes(alloc: Global, counts: &mut String, code: &CodeTree) -> Result<(), AllocError> {
    let sizes = (code.bytes.len(), code.stack, code.locals);
    counts.push_str(format!(in alloc; " {sizes:?}")?.as_str())
}

// The version, the indices in use, and the sizes of each method's code, stack and locals.
fn push_counts(alloc: Global, counts: &mut String, tree: &ClassTree) -> Result<(), AllocError> {
    let used = tree.pool.entries().iter().filter(|e| is_used(e)).count();
    counts.push_str(format!(in alloc; "{} {used}", tree.major)?.as_str())?;
    for method in tree.methods.as_slice() {
        if let Some(code) = &method.code {
            push_sizes(alloc, counts, code)?;
        }
    }
    Ok(())
}

fn push_counts_read(alloc: Global, counts: &mut String, bytes: &[u8]) -> Result<(), AllocError> {
    match read_class(alloc, bytes) {
        Ok(tree) => push_counts(alloc, counts, &tree),
        Err(_) => counts.push_str("no class"),
    }
}

// A letter for what is read of the bytes.
fn letter_of(alloc: Global, bytes: &[u8]) -> &'static str {
    match read_class(alloc, bytes) {
        Ok(_) => "y",
        Err(FormatFault::NotClass) => "n",
        Err(FormatFault::Version(_, _)) => "v",
        Err(FormatFault::Memory) => "memory",
    }
}

fn changed(byte: u8, way: usize) -> u8 {
    match way {
        0 => 0,
        1 => 1,
        2 => 255,
        _ => byte.wrapping_add(1),
    }
}

// The letters of HELLO where each byte in turn is another.
fn say_letters(alloc: Global, said: &mut String, way: usize) -> Result<(), AllocError> {
    for place in 0..HELLO.len() {
        let mut bytes = HELLO;
        bytes[place] = changed(bytes[place], way);
        said.push_str(letter_of(alloc, &bytes))?;
    }
    Ok(())
}

// The sizes of the fronts that are something else than no class.
fn say_fronts(alloc: Global, said: &mut String, bytes: &[u8]) -> Result<(), AllocError> {
    for size in 0..bytes.len() {
        if letter_of(alloc, &bytes[..size]) != "n" {
            said.push_str(format!(in alloc; "{size} ")?.as_str())?;
        }
    }
    Ok(())
}

// ---- the table

// The index of the entry with this name, and 65,535 where there is none.
fn index_of(name: &str) -> u16 {
    for (place, line) in POOL.lines().enumerate() {
        if line.split(' ').next() == Some(name) {
            return u16::try_from(place).unwrap_or(0).saturating_add(1);
        }
    }
    u16::MAX
}

// The parts of a text stand between bars.
fn push_parts(text: &mut Vec<u8>, parts: &str) -> Result<(), AllocError> {
    for part in parts.split('|') {
        let (count, part) = part.split_once('*').unwrap_or(("1", part));
        for _ in 0..count.parse::<u16>().unwrap_or(0) {
            text.extend_from_slice(part.as_bytes())?;
        }
    }
    Ok(())
}

// An entry of a text.
fn push_text(bytes: &mut Vec<u8>, text: &[u8]) -> Result<(), AllocError> {
    let size = u16::try_from(text.len()).unwrap_or(u16::MAX);
    bytes.push(1)?;
    bytes.extend_from_slice(&size.to_be_bytes())?;
    bytes.extend_from_slice(text)
}

fn push_text_of(alloc: Global, bytes: &mut Vec<u8>, parts: &str) -> Result<(), AllocError> {
    let mut text = Vec::new(alloc);
    push_parts(&mut text, parts)?;
    push_text(bytes, &text)
}

// A number of one, two or four bytes.
fn push_number(bytes: &mut Vec<u8>, digits: &str) -> Result<(), AllocError> {
    let number = u32::from_str_radix(digits, 16).unwrap_or(u32::MAX);
    match digits.len() {
        2 => bytes.extend_from_slice(&number.to_be_bytes()[3..]),
        4 => bytes.extend_from_slice(&number.to_be_bytes()[2..]),
        _ => bytes.extend_from_slice(&number.to_be_bytes()),
    }
}

fn push_word(alloc: Global, bytes: &mut Vec<u8>, word: &str) -> Result<(), AllocError> {
    if let Some(name) = word.strip_prefix("#") {
        return bytes.extend_from_slice(&index_of(name).to_be_bytes());
    }
    match word.strip_prefix("utf8:") {
        Some(parts) => push_text_of(alloc, bytes, parts),
        None => push_number(bytes, word),
    }
}

fn push_words(alloc: Global, bytes: &mut Vec<u8>, words: &str) -> Result<(), AllocError> {
    for word in words.split_whitespace() {
        push_word(alloc, bytes, word)?;
    }
    Ok(())
}

// The count of the pool, which is one more than the greatest index, and its entries.
fn push_pool(alloc: Global, bytes: &mut Vec<u8>) -> Result<(), AllocError> {
    let count = u16::try_from(POOL.lines().count()).unwrap_or(0);
    bytes.extend_from_slice(&count.saturating_add(1).to_be_bytes())?;
    for line in POOL.lines() {
        let (_, words) = line.split_once(' ').unwrap_or((line, ""));
        push_words(alloc, bytes, words)?;
    }
    Ok(())
}

// The class of a line's words.
fn push_class(alloc: Global, bytes: &mut Vec<u8>, words: &str) -> Result<(), AllocError> {
    let (version, behind) = words.split_once(' ').unwrap_or((words, ""));
    bytes.extend_from_slice(&[0xca, 0xfe, 0xba, 0xbe])?;
    push_words(alloc, bytes, version)?;
    push_pool(alloc, bytes)?;
    push_words(alloc, bytes, behind)
}

// ---- each part of a member

// A static field with a constant, and a method with a handler, frames and an attribute that is skipped.
static MEMBERS: &str = "00000034 0021 #cA #cObject 0001 #cB 0001
0019 #f #I 0002 #Other 00000001 ff #ConstantValue 00000002 #int 0001
0009 #m #()V 0001 #Code 00000027 0003 0004 00000002 00 b1 0001 0000 0001 0001 #cB
0002 #StackMapTable 00000003 0a 0b 0c #Other 00000002 01 02 0000";

// ---- as many as there can be

// UNIT up to its count, the count, and its four entries.
fn push_count(bytes: &mut Vec<u8>, count: u16) -> Result<(), AllocError> {
    bytes.extend_from_slice(&UNIT[..8])?;
    bytes.extend_from_slice(&count.to_be_bytes())?;
    bytes.extend_from_slice(&UNIT[10..39])
}

fn push_integers(bytes: &mut Vec<u8>) -> Result<(), AllocError> {
    push_count(bytes, 65_535)?;
    for _ in 0..65_530u16 {
        bytes.extend_from_slice(&[3, 0, 0, 0, 7])?;
    }
    bytes.extend_from_slice(&UNIT[39..])
}

// How many entries and how many methods are read.
fn say_sizes(alloc: Global, said: &mut String, bytes: &[u8]) -> Result<(), AllocError> {
    match read_class(alloc, bytes) {
        Ok(tree) => {
            let sizes = (tree.pool.entries().len(), tree.methods.len());
            said.push_str(format!(in alloc; "{sizes:?}")?.as_str())
        }
        Err(_) => said.push_str("no class"),
    }
}

// Two letters, others for each number.
fn letters(number: u8) -> (u8, u8) {
    (b'A' + number / 16, b'A' + number % 16)
}

// Names of two letters from index 5 on, and descriptors with such a class as their result from 261 on.
fn push_texts(bytes: &mut Vec<u8>) -> Result<(), AllocError> {
    for number in 0..=255u8 {
        let (a, b) = letters(number);
        bytes.extend_from_slice(&[1, 0, 2, a, b])?;
    }
    for number in 0..=255u8 {
        let (a, b) = letters(number);
        bytes.extend_from_slice(&[1, 0, 6, b'(', b')', b'L', a, b, b';'])?;
    }
    Ok(())
}

// A native method with no attributes.
fn push_method(bytes: &mut Vec<u8>, name: u8, desc: u8) -> Result<(), AllocError> {
    bytes.extend_from_slice(&[1, 8])?;
    bytes.extend_from_slice(&(5 + u16::from(name)).to_be_bytes())?;
    bytes.extend_from_slice(&(261 + u16::from(desc)).to_be_bytes())?;
    bytes.extend_from_slice(&[0, 0])
}

fn push_methods(bytes: &mut Vec<u8>) -> Result<(), AllocError> {
    for name in 0..=255u8 {
        for desc in 0..=255u8 {
            if name != 255 || desc != 255 {
                push_method(bytes, name, desc)?;
            }
        }
    }
    Ok(())
}

fn push_full_class(bytes: &mut Vec<u8>) -> Result<(), AllocError> {
    push_count(bytes, 517)?;
    push_texts(bytes)?;
    bytes.extend_from_slice(&[0, 33, 0, 2, 0, 4, 0, 0, 0, 0, 255, 255])?;
    push_methods(bytes)?;
    bytes.extend_from_slice(&[0, 0])
}

// A code of so many bytes, all of them return, and what stands behind it in a class.
fn push_code(bytes: &mut Vec<u8>, size: u32) -> Result<(), AllocError> {
    bytes.extend_from_slice(&size.saturating_add(12).to_be_bytes())?;
    bytes.extend_from_slice(&[0, 0, 0, 0])?;
    bytes.extend_from_slice(&size.to_be_bytes())?;
    for _ in 0..size {
        bytes.push(177)?;
    }
    bytes.extend_from_slice(&[0, 0, 0, 0, 0, 0])
}

static WITH_CODE: &str = "00000034 0021 #cA #cObject 0000 0000 0001 0009 #m #()V 0001 #Code";

// ---- rows

// Of the members: all that is kept.
fn say_members(alloc: Global, said: &mut String, bytes: &[u8]) -> Result<(), AllocError> {
    match read_class(alloc, bytes) {
        Ok(tree) => {
            let fields = tree.fields.as_slice();
            let methods = tree.methods.as_slice();
            said.push_str(format!(in alloc; "{fields:?} {methods:?}")?.as_str())
        }
        Err(_) => said.push_str("no class"),
    }
}

fn push_with_code(alloc: Global, bytes: &mut Vec<u8>, size: &str) -> Result<(), AllocError> {
    push_class(alloc, bytes, WITH_CODE)?;
    push_code(bytes, size.parse::<u32>().unwrap_or(0))
}

fn push_version_53(bytes: &mut Vec<u8>) -> Result<(), AllocError> {
    bytes.extend_from_slice(&UNIT[..7])?;
    bytes.push(0x35)?;
    bytes.extend_from_slice(&UNIT[8..])
}

fn push_made(
    alloc: Global,
    bytes: &mut Vec<u8>,
    verb: &str,
    words: &str,
) -> Result<(), AllocError> {
    match verb {
        "members" => push_class(alloc, bytes, MEMBERS),
        "entries" => push_integers(bytes),
        "methods" => push_full_class(bytes),
        "code" => push_with_code(alloc, bytes, words),
        "version" => push_version_53(bytes),
        _ => push_class(alloc, bytes, words),
    }
}

// What is said of bytes that are made of the words.
fn say_made(alloc: Global, said: &mut String, verb: &str, words: &str) -> Result<(), AllocError> {
    let mut bytes = Vec::new(alloc);
    push_made(alloc, &mut bytes, verb, words)?;
    match verb {
        "members" => say_members(alloc, said, &bytes),
        "entries" | "methods" => say_sizes(alloc, said, &bytes),
        _ => say(alloc, said, &bytes),
    }
}

fn say_call(alloc: Global, said: &mut String, call: &str) -> Result<(), AllocError> {
    let (verb, words) = call.split_once(' ').unwrap_or((call, ""));
    match call {
        "least class" => push_read(alloc, said, &UNIT),
        "fronts of the least class" => say_fronts(alloc, said, &UNIT),
        "compiled class" => push_counts_read(alloc, said, &HELLO),
        "fronts of the compiled class" => say_fronts(alloc, said, &HELLO),
        "bytes that are 0" => say_letters(alloc, said, 0),
        "bytes that are 1" => say_letters(alloc, said, 1),
        "bytes that are 255" => say_letters(alloc, said, 2),
        "bytes that are one more" => say_letters(alloc, said, 3),
        _ => say_made(alloc, said, verb, words),
    }
}

fn try_call(
    alloc: Global,
    wrong: &mut String,
    row: &str,
    call: &str,
    wanted: &str,
) -> Result<(), AllocError> {
    let mut said = String::new(alloc);
    say_call(alloc, &mut said, call)?;
    tell_wrong(wrong, row, said.as_str(), wanted)
}

// A row is `CALL = ANSWER`, or a line of the table.
fn try_row(alloc: Global, wrong: &mut String, row: &str) -> Result<(), AllocError> {
    if let Some((call, wanted)) = row.split_once(" = ") {
        return try_call(alloc, wrong, row, call, wanted);
    }
    let (shown, _) = row.split_once(' ').unwrap_or((row, ""));
    let (_, words) = row.split_once(";").unwrap_or((row, ""));
    try_call(alloc, wrong, row, words, shown)
}

fn wrong_rows(alloc: Global, rows: &str) -> Result<String, AllocError> {
    let mut wrong = String::new(alloc);
    for row in rows.lines() {
        try_row(alloc, &mut wrong, row)?;
    }
    Ok(wrong)
}

// Of the least class the version, the flags, the class and its superclass, the entries of the pool, and how many interfaces,
// fields and methods there are; of the compiled class the version, the indices in use, and the sizes of each method's code,
// stack and locals; of fronts those that are something else than no class.
static ROWS: &str =
    "least class = 52 33 2 4; unusable; utf8 A; class 1; utf8 java/lang/Object; class 3; 0 (0, 0)
fronts of the least class = 
version = 0.53
compiled class = 52 27 (5, 1, 1) (9, 2, 1)
fronts of the compiled class = 
members = [FieldTree { flags: 25, name: 12, desc: 29, value: 46 }] [MethodTree { flags: 9, name: 11, desc: 13, code: Some(CodeTree { stack: 3, locals: 4, bytes: Items { items: [0, 177] }, handlers: Items { items: [Handler { start: 0, end: 1, handler: 1, catch: 6 }] }, map: Some(Items { items: [10, 11, 12] }) }) }]
entries = (65535, 0)
methods = (517, 65535)
code 65535 = yes
code 65536 = no";

#[test]
fn classes_are_read_whole(rt: HostRuntime) -> Result<(), Fail> {
    assert_eq!(rt; wrong_rows(rt.alloc(), ROWS)?.as_str(), "");
    Ok(())
}

#[test]
fn each_byte_of_a_compiled_class_counts(rt: HostRuntime) -> Result<(), Fail> {
    assert_eq!(rt; wrong_rows(rt.alloc(), CHANGED)?.as_str(), "");
    Ok(())
}

#[test]
fn each_line_of_the_table_holds(rt: HostRuntime) -> Result<(), Fail> {
    assert_eq!(rt; wrong_rows(rt.alloc(), CLASSES)?.as_str(), "");
    Ok(())
}
