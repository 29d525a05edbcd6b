// What no contract says: that a pool is read where memory suffices. And pools on both sides of each rule.
use crate::test_pools::POOLS;
use class_tree::{FormatFault, PoolEntry, one_pool, read_pool};
use jsa_base::Cursor;
use std::alloc::{AllocError, Global};
use std::test::Fail;
use test_rows::tell_wrong;

// Entries of each kind, and behind the pool two bytes.
const EACH_KIND: [u8; 97] = [
    0, 22, 1, 0, 1, 75, 7, 0, 1, 1, 0, 1, 102, 1, 0, 1, 73, 12, 0, 3, 0, 4, 9, 0, 2, 0, 5, 1, 0, 1,
    109, 1, 0, 3, 40, 41, 86, 12, 0, 7, 0, 8, 10, 0, 2, 0, 9, 11, 0, 2, 0, 9, 3, 1, 2, 3, 4, 4, 5,
    6, 7, 8, 5, 1, 2, 3, 4, 5, 6, 7, 8, 6, 9, 10, 11, 12, 13, 14, 15, 16, 8, 0, 3, 15, 6, 0, 10,
    16, 0, 8, 18, 1, 2, 0, 5, 170, 187,
];

// What reading a pool answers.
fn answer_of(alloc: Global, bytes: &[u8]) -> &'static str {
    let mut cursor = Cursor::new(bytes);
    match read_pool(alloc, &mut cursor) {
        Ok(_) => "yes",
        Err(FormatFault::NotClass) => "no",
        Err(FormatFault::Version(_, _)) => "version",
        Err(FormatFault::Memory) => "memory",
    }
}

// The entries by their lines: the tag, 0 for an unusable index, then the length of the text, the number or the indices.
// Last stands how many bytes are left.
static KINDS: &str = "0 0 0
1 1 0
7 1 0
1 1 0
1 1 0
12 3 4
9 2 5
1 1 0
1 3 0
12 7 8
10 2 9
11 2 9
3 16909060 0
4 84281096 0
5 72623859790382856 0
0 0 0
6 651345242494996240 0
0 0 0
8 3 0
15 6 10
16 8 0
18 258 5
2";

// The numbers of an entry's line.
fn numbers_of(entry: &PoolEntry) -> (u8, u64, u16) {
    match entry {
        PoolEntry::Unusable => (0, 0, 0),
        PoolEntry::Utf8(text) => (1, text.len() as u64, 0),
        PoolEntry::Integer(bits) => (3, u64::from(*bits), 0),
        PoolEntry::Float(bits) => (4, u64::from(*bits), 0),
        PoolEntry::Long(bits) => (5, *bits, 0),
        PoolEntry::Double(bits) => (6, *bits, 0),
        PoolEntry::Class(name) => (7, u64::from(*name), 0),
        PoolEntry::Str(string) => (8, u64::from(*string), 0),
        PoolEntry::Fieldref(class, member) => (9, u64::from(*class), *member),
        PoolEntry::Methodref(class, member) => (10, u64::from(*class), *member),
        PoolEntry::InterfaceMethodref(class, member) => (11, u64::from(*class), *member),
        PoolEntry::NameAndType(name, desc) => (12, u64::from(*name), *desc),
        PoolEntry::MethodHandle(kind, member) => (15, u64::from(*kind), *member),
        PoolEntry::MethodType(desc) => (16, u64::from(*desc), 0),
        PoolEntry::InvokeDynamic(bootstrap, member) => (18, u64::from(*bootstrap), *member),
    }
}

fn push_lines(
    alloc: Global,
    lines: &mut String,
    entries: &[PoolEntry],
    left: usize,
) -> Result<(), AllocError> {
    for entry in entries {
        let (tag, first, second) = numbers_of(entry);
        let line = format!(in alloc; "{tag} {first} {second}\n")?;
        lines.push_str(line.as_str())?;
    }
    lines.push_str(format!(in alloc; "{left}")?.as_str())
}

fn push_pool(alloc: Global, lines: &mut String, bytes: &[u8]) -> Result<(), AllocError> {
    let mut cursor = Cursor::new(bytes);
    match read_pool(alloc, &mut cursor) {
        Ok(pool) => push_lines(alloc, lines, pool.entries(), cursor.left()),
        Err(_) => lines.push_str("no pool"),
    }
}

#[test]
fn each_kind_of_entry_is_read(rt: HostRuntime) -> Result<(), Fail> {
    let mut lines = String::new(rt.alloc());
    push_pool(rt.alloc(), &mut lines, &EACH_KIND)?;
    assert_eq!(rt; lines.as_str(), KINDS);
    one_pool();
    Ok(())
}

// The sizes of the fronts that aren't refused.
fn wrong_fronts(alloc: Global) -> Result<String, AllocError> {
    let mut wrong = String::new(alloc);
    for size in 0..EACH_KIND.len() - 2 {
        let row = format!(in alloc; "{size}")?;
        let said = answer_of(alloc, &EACH_KIND[..size]);
        tell_wrong(&mut wrong, row.as_str(), said, "no")?;
    }
    Ok(wrong)
}

#[test]
fn a_cut_pool_is_refused(rt: HostRuntime) -> Result<(), Fail> {
    assert_eq!(rt; wrong_fronts(rt.alloc())?.as_str(), "");
    Ok(())
}

// A count or a byte.
fn number(word: &str) -> u16 {
    word.parse::<u16>().unwrap_or(u16::MAX)
}

// The parts of a text stand between bars, a part `N*T` being T so many times.
fn push_parts(text: &mut Vec<u8>, parts: &str) -> Result<(), AllocError> {
    for part in parts.split('|') {
        let (count, part) = part.split_once('*').unwrap_or(("1", part));
        for _ in 0..number(count) {
            text.extend_from_slice(part.as_bytes())?;
        }
    }
    Ok(())
}

fn push_text(bytes: &mut Vec<u8>, text: &[u8]) -> Result<(), AllocError> {
    let size = u16::try_from(text.len()).unwrap_or(u16::MAX);
    bytes.push(1)?;
    bytes.extend_from_slice(&size.to_be_bytes())?;
    bytes.extend_from_slice(text)
}

fn push_word(alloc: Global, bytes: &mut Vec<u8>, word: &str) -> Result<(), AllocError> {
    let Some(parts) = word.strip_prefix("utf8:") else {
        return bytes.extend_from_slice(&number(word).to_be_bytes()[1..]);
    };
    let mut text = Vec::new(alloc);
    push_parts(&mut text, parts)?;
    push_text(bytes, &text)
}

// A count and the words behind it.
fn push_words(alloc: Global, bytes: &mut Vec<u8>, words: &str) -> Result<(), AllocError> {
    let (count, words) = words.split_once(' ').unwrap_or((words, ""));
    bytes.extend_from_slice(&number(count).to_be_bytes())?;
    for word in words.split_whitespace() {
        push_word(alloc, bytes, word)?;
    }
    Ok(())
}

fn try_row(alloc: Global, wrong: &mut String, row: &str) -> Result<(), AllocError> {
    let (shown, words) = row.split_once("; ").unwrap_or((row, ""));
    let (wanted, _) = shown.split_once(' ').unwrap_or((row, ""));
    let mut bytes = Vec::new(alloc);
    push_words(alloc, &mut bytes, words)?;
    tell_wrong(wrong, row, answer_of(alloc, &bytes), wanted)
}

fn wrong_rows(alloc: Global, rows: &str) -> Result<String, AllocError> {
    let mut wrong = String::new(alloc);
    for row in rows.lines() {
        try_row(alloc, &mut wrong, row)?;
    }
    Ok(wrong)
}

#[test]
fn each_line_of_the_table_holds(rt: HostRuntime) -> Result<(), Fail> {
    assert_eq!(rt; wrong_rows(rt.alloc(), POOLS)?.as_str(), "");
    Ok(())
}

// A text of 65,535 bytes at index 1, and so many Classes that name it.
fn push_one_text(bytes: &mut Vec<u8>) -> Result<(), AllocError> {
    bytes.extend_from_slice(&[255, 255, 1, 255, 255])?;
    for _ in 0..65_535 {
        bytes.push(b'K')?;
    }
    for _ in 0..65_533 {
        bytes.extend_from_slice(&[7, 0, 1])?;
    }
    Ok(())
}

// How many entries are read, and 0 where there is no pool.
fn count_of(alloc: Global, bytes: &[u8]) -> usize {
    let mut cursor = Cursor::new(bytes);
    match read_pool(alloc, &mut cursor) {
        Ok(pool) => pool.entries().len(),
        Err(_) => 0,
    }
}

// Each text is looked at once, so this takes no longer than its bytes are many.
#[test]
fn all_entries_may_name_one_text(rt: HostRuntime) -> Result<(), Fail> {
    let mut bytes = Vec::new(rt.alloc());
    push_one_text(&mut bytes)?;
    assert_eq!(rt; count_of(rt.alloc(), &bytes), 65_535);
    Ok(())
}
