use class_tree::PoolEntry;
use pool_builder::{PoolBuilder, PoolFault, pools_are_built, pools_grow};
use sqlite_items::Items;
use std::alloc::{AllocError, Global};

// What is needed of a new pool, and the index that is answered.
static NEEDS: &str = "class A = 2
class java/lang/Object = 4
field A f I = 8
method B m ()V = 14
interface B m ()V = 15
method B m ()V = 14
integer -2 = 16
integer -2 = 16
long -1 = 17
string A = 19
class A = 2
class [I = 21
utf8 A = 1
long 4294967294 = 22
integer 5 = 24
float 4294967294 = 25
double 18446744073709551615 = 26
float 4294967294 = 25
double 18446744073709551615 = 26
name_and_type m ()V = 13
name_and_type f m = 28
";

// The entries that this makes, by their tags, each with its text, its number or its indices. An unusable one has tag 0.
static ENTRIES: &str = "0 0 0
1 A
7 1 0
1 java/lang/Object
7 3 0
1 f
1 I
12 5 6
9 2 7
1 B
7 9 0
1 m
1 ()V
12 11 12
10 10 13
11 10 13
3 4294967294 0
5 18446744073709551615 0
0 0 0
8 1 0
1 [I
7 20 0
5 4294967294 0
0 0 0
3 5 0
4 4294967294 0
6 18446744073709551615 0
0 0 0
12 5 11
";

// What is needed of a pool with one index left: a text is put in, though the class that it is for has no room.
static LAST_NEEDS: &str = "long 7 = no
double 7 = no
class K = no
utf8 K = 65534
integer 7 = no
float 7 = no
string K = no
name_and_type K K = no
field K K K = no
utf8 aa = 24930
";

// What is needed of a new pool, for texts of so many bytes.
static LONG_NEEDS: &str = "bytes 65535 = 1
bytes 65536 = no
";

// ---- what is needed

// The first word, and what stands behind its blank.
fn first_word(words: &str) -> (&str, &str) {
    words.split_once(' ').unwrap_or((words, ""))
}

// The index of a member: its class, its name and its descriptor.
fn member(
    alloc: Global,
    pool: &mut PoolBuilder,
    kind: &str,
    words: &str,
) -> Result<u16, PoolFault> {
    let (class, rest) = first_word(words);
    let (name, desc) = first_word(rest);
    let class = class.as_bytes();
    let name = name.as_bytes();
    let desc = desc.as_bytes();
    match kind {
        "field" => pool.field(alloc, class, name, desc),
        "method" => pool.method(alloc, class, name, desc),
        _ => pool.interface_method(alloc, class, name, desc),
    }
}

// The index of a number.
fn number(alloc: Global, pool: &mut PoolBuilder, kind: &str, text: &str) -> Result<u16, PoolFault> {
    match kind {
        "integer" => pool.integer(alloc, text.parse::<i32>().unwrap_or(0)),
        "float" => pool.float(alloc, text.parse::<u32>().unwrap_or(0)),
        "long" => pool.long(alloc, text.parse::<i64>().unwrap_or(0)),
        _ => pool.double(alloc, text.parse::<u64>().unwrap_or(0)),
    }
}

// The index of what is made of one text or two.
fn named(alloc: Global, pool: &mut PoolBuilder, kind: &str, text: &str) -> Result<u16, PoolFault> {
    match kind {
        "utf8" => pool.utf8(alloc, text.as_bytes()),
        "bytes" => pool.utf8(alloc, long_text(alloc, text).as_slice()),
        "class" => pool.class(alloc, text.as_bytes()),
        "string" => pool.string(alloc, text.as_bytes()),
        _ => {
            let (name, desc) = first_word(text);
            pool.name_and_type(alloc, name.as_bytes(), desc.as_bytes())
        }
    }
}

// A text of so many bytes.
fn long_text(alloc: Global, count: &str) -> Items<u8> {
    let mut text = Items::new(alloc);
    for _ in 0..count.parse::<u32>().unwrap_or(0) {
        let _kept = text.push(b'x');
    }
    text
}

fn need(alloc: Global, pool: &mut PoolBuilder, call: &str) -> Result<u16, PoolFault> {
    let (word, rest) = first_word(call);
    match word {
        "field" | "method" | "interface" => member(alloc, pool, word, rest),
        "integer" | "float" | "long" | "double" => number(alloc, pool, word, rest),
        _ => named(alloc, pool, word, rest),
    }
}

// ---- what is said

// Adds to what is said. Where memory runs out the text is short, and its row wrong.
fn put(said: &mut String, text: &str) {
    let _kept = said.push_str(text);
}

fn say_index(alloc: Global, said: &mut String, index: u16) {
    if let Ok(text) = format!(in alloc; "{index}") {
        put(said, text.as_str());
    }
}

fn say_need(alloc: Global, said: &mut String, pool: &mut PoolBuilder, call: &str) {
    match need(alloc, pool, call) {
        Ok(index) => say_index(alloc, said, index),
        Err(PoolFault::NoRoom) => put(said, "no"),
        Err(PoolFault::Memory) => put(said, "memory"),
    }
}

// The tag of an entry with its number or its indices.
fn numbers_of(entry: &PoolEntry) -> (u8, u64, u16) {
    match entry {
        PoolEntry::Integer(bits) => (3, u64::from(*bits), 0),
        PoolEntry::Float(bits) => (4, u64::from(*bits), 0),
        PoolEntry::Long(bits) => (5, *bits, 0),
        PoolEntry::Double(bits) => (6, *bits, 0),
        PoolEntry::Class(name) => (7, u64::from(*name), 0),
        PoolEntry::Str(string) => (8, u64::from(*string), 0),
        PoolEntry::Fieldref(class, member) => (9, u64::from(*class), *member),
        PoolEntry::Methodref(class, member) => (10, u64::from(*class), *member),
        PoolEntry::InterfaceMethodref(class, member) => (11, u64::from(*class), *member),
        PoolEntry::NameAndType(name, desc) => (12, u64::from(*name), *desc),
        _ => (0, 0, 0),
    }
}

fn say_numbers(alloc: Global, said: &mut String, entry: &PoolEntry) {
    let (tag, first, second) = numbers_of(entry);
    if let Ok(text) = format!(in alloc; "{tag} {first} {second}") {
        put(said, text.as_str());
    }
}

fn say_entry(alloc: Global, said: &mut String, entry: &PoolEntry) {
    match entry {
        PoolEntry::Utf8(text) => {
            put(said, "1 ");
            put(said, str::from_utf8(text.as_slice()).unwrap_or("no text"));
        }
        _ => say_numbers(alloc, said, entry),
    }
}

// ---- what is wrong

fn put_wrong(wrong: &mut String, row: &str, said: &str) -> Result<(), AllocError> {
    wrong.push_str(row)?;
    wrong.push_str(" but ")?;
    wrong.push_str(said)
}

// Notes a row, a need of the pool, that isn't answered as wanted.
fn put_need(
    alloc: Global,
    wrong: &mut String,
    pool: &mut PoolBuilder,
    row: &str,
) -> Result<(), AllocError> {
    let (call, wanted) = row.split_once(" = ").unwrap_or((row, "no answer"));
    let mut said = String::new(alloc);
    say_need(alloc, &mut said, pool, call);
    if said.as_str() == wanted {
        return Ok(());
    }
    put_wrong(wrong, row, said.as_str())
}

fn put_needs(
    alloc: Global,
    wrong: &mut String,
    pool: &mut PoolBuilder,
    rows: &str,
) -> Result<(), AllocError> {
    for row in rows.lines() {
        put_need(alloc, wrong, pool, row)?;
    }
    Ok(())
}

// Notes an entry that isn't the wanted one.
fn put_entry(
    alloc: Global,
    wrong: &mut String,
    entry: &PoolEntry,
    wanted: &str,
) -> Result<(), AllocError> {
    let mut said = String::new(alloc);
    say_entry(alloc, &mut said, entry);
    if said.as_str() == wanted {
        return Ok(());
    }
    put_wrong(wrong, wanted, said.as_str())
}

fn put_entries(
    alloc: Global,
    wrong: &mut String,
    entries: &[PoolEntry],
    rows: &str,
) -> Result<(), AllocError> {
    for (entry, row) in entries.iter().zip(rows.lines()) {
        put_entry(alloc, wrong, entry, row)?;
    }
    Ok(())
}

fn put_count(wrong: &mut String, count: usize, wanted: usize) -> Result<(), AllocError> {
    if count == wanted {
        return Ok(());
    }
    wrong.push_str("another number of entries")
}

// What is wrong of a pool where this is needed: its answers, its first entries, and their number.
fn put_pool(
    alloc: Global,
    wrong: &mut String,
    mut pool: PoolBuilder,
    needs: &str,
    entries: &str,
    count: usize,
) -> Result<(), AllocError> {
    put_needs(alloc, wrong, &mut pool, needs)?;
    let pool = pool.into_pool();
    put_count(wrong, pool.entries().len(), count)?;
    put_entries(alloc, wrong, pool.entries(), entries)
}

fn wrong_rows(
    alloc: Global,
    pool: PoolBuilder,
    needs: &str,
    entries: &str,
    count: usize,
) -> Result<String, AllocError> {
    let mut wrong = String::new(alloc);
    put_pool(alloc, &mut wrong, pool, needs, entries, count)?;
    Ok(wrong)
}

#[test]
fn parts_stand_first_and_equal_entries_are_shared(rt: HostRuntime) -> Result<(), PoolFault> {
    let pool = PoolBuilder::new(rt.alloc())?;
    let wrong = wrong_rows(rt.alloc(), pool, NEEDS, ENTRIES, 29)?;
    assert_eq!(rt; wrong.as_str(), "");
    Ok(())
}

// A pool with one index left. Its texts are the numbers from 0 on in two bytes, so that `aa`, 0x6161, has index 0x6162.
fn full_but_one(alloc: Global) -> Result<PoolBuilder, PoolFault> {
    let mut pool = PoolBuilder::new(alloc)?;
    for n in 0..65_533_u16 {
        pool.utf8(alloc, &n.to_be_bytes())?;
    }
    Ok(pool)
}

#[test]
fn a_pool_has_at_most_65535_indices(rt: HostRuntime) -> Result<(), PoolFault> {
    let pool = full_but_one(rt.alloc())?;
    let wrong = wrong_rows(rt.alloc(), pool, LAST_NEEDS, "", 65_535)?;
    assert_eq!(rt; wrong.as_str(), "");
    Ok(())
}

#[test]
fn a_text_has_at_most_65535_bytes(rt: HostRuntime) -> Result<(), PoolFault> {
    let pool = PoolBuilder::new(rt.alloc())?;
    let wrong = wrong_rows(rt.alloc(), pool, LONG_NEEDS, "", 2)?;
    assert_eq!(rt; wrong.as_str(), "");
    Ok(())
}

#[test]
fn the_laws_stand(_rt: HostRuntime) {
    pools_grow();
    pools_are_built();
}
