// Trees on both sides of each rule, and one whose methods all have one long name.
use class_tree::{ClassTree, FieldTree, MethodTree, Pool, PoolEntry, has_distinct_parts};
use sqlite_items::Items;
use std::alloc::{AllocError, Global};
use std::test::Fail;
use test_rows::tell_wrong;

// A line says whether all parts are distinct and what it shows. Behind semicolons it gives the entries from index 1 on,
// a number for the Class of a name and any other word for a Utf8, then the interfaces, the fields and the methods, each
// member with its name and its descriptor.
static TREES: &str = "yes nothing twice; a b I J 1 2; 5 6; 1 3 1 4 2 3; 1 3 1 4 2 3
yes nothing at all; a; ; ;
yes a field and a method alike; a I; ; 1 2; 1 2
yes one name with two descriptors; a I J; ; 1 2 1 3; 1 2 1 3
yes one descriptor of two names; a b I; ; 1 3 2 3; 1 3 2 3
yes a name that is the other's descriptor; a b; ; 1 2 2 1; 1 2 2 1
yes a name that begins the other; a ab I; ; 1 3 2 3; 1 3 2 3
yes two members whose name is no text; a 1 I; ; 2 3 2 3; 2 3 2 3
yes two members whose descriptor is behind the pool; a; ; 1 9 1 9; 1 9 1 9
yes two interfaces that are no Class; a; 1 1; ;
yes two interfaces whose name is no text; a 1 2; 3 3; ;
no two fields alike; a I; ; 1 2 1 2; 1 2
no two methods alike; a V; ; 1 2; 1 2 1 2
no the last field like the first; a b I; ; 1 3 2 3 1 3;
no the last method like the first; a b I; ; ; 1 3 2 3 1 3
no two fields whose names have one text; a a I; ; 1 3 2 3;
no two methods whose names have one text; b a a I; ; ; 2 4 3 4
no two fields whose descriptors have one text; a I I; ; 1 2 1 3;
no two methods whose descriptors have one text; a I I; ; ; 1 2 1 3
no one interface twice; a 1; 2 2; ;
no two Classes of one name; a 1 1; 2 3; ;
no two Classes whose names have one text; a 1 a 3; 2 4; ;
no the last interface like the first; a b 1 2 1; 3 4 5; ;";

fn number(word: &str) -> u16 {
    word.parse::<u16>().unwrap_or(u16::MAX)
}

fn entry_of(alloc: Global, word: &str) -> Result<PoolEntry, AllocError> {
    match word.parse::<u16>() {
        Ok(name) => Ok(PoolEntry::Class(name)),
        Err(_) => Ok(PoolEntry::Utf8(Items::from_slice(alloc, word.as_bytes())?)),
    }
}

fn pool_of(alloc: Global, words: &str) -> Result<Pool, AllocError> {
    let mut entries = Items::new(alloc);
    entries.push(PoolEntry::Unusable)?;
    for word in words.split_whitespace() {
        entries.push(entry_of(alloc, word)?)?;
    }
    Ok(Pool::new(entries))
}

fn push_interfaces(interfaces: &mut Items<u16>, words: &str) -> Result<(), AllocError> {
    for word in words.split_whitespace() {
        interfaces.push(number(word))?;
    }
    Ok(())
}

// Each field is two words.
fn push_fields(fields: &mut Items<FieldTree>, words: &str) -> Result<(), AllocError> {
    let mut begun = None;
    for word in words.split_whitespace() {
        let Some(name) = begun else {
            begun = Some(number(word));
            continue;
        };
        begun = None;
        fields.push(FieldTree {
            flags: 0,
            name,
            desc: number(word),
            value: 0,
        })?;
    }
    Ok(())
}

fn push_method(methods: &mut Items<MethodTree>, name: u16, desc: u16) -> Result<(), AllocError> {
    Ok(methods.push(MethodTree {
        flags: 0,
        name,
        desc,
        code: None,
    })?)
}

// Each method is two words.
fn push_methods(methods: &mut Items<MethodTree>, words: &str) -> Result<(), AllocError> {
    let mut begun = None;
    for word in words.split_whitespace() {
        let Some(name) = begun else {
            begun = Some(number(word));
            continue;
        };
        begun = None;
        push_method(methods, name, number(word))?;
    }
    Ok(())
}

// A tree of a pool alone.
fn tree_with(alloc: Global, pool: Pool) -> ClassTree {
    ClassTree {
        major: 52,
        flags: 0,
        pool,
        this: 0,
        sup: 0,
        interfaces: Items::new(alloc),
        fields: Items::new(alloc),
        methods: Items::new(alloc),
    }
}

fn push_members(tree: &mut ClassTree, parts: &str) -> Result<(), AllocError> {
    let (interfaces, parts) = parts.split_once(';').unwrap_or((parts, ""));
    let (fields, methods) = parts.split_once(';').unwrap_or((parts, ""));
    push_interfaces(&mut tree.interfaces, interfaces)?;
    push_fields(&mut tree.fields, fields)?;
    push_methods(&mut tree.methods, methods)
}

fn word_of(alloc: Global, tree: &ClassTree) -> &'static str {
    match has_distinct_parts(alloc, tree) {
        Ok(true) => "yes",
        Ok(false) => "no",
        Err(_) => "memory",
    }
}

fn answer_of(alloc: Global, parts: &str) -> Result<&'static str, AllocError> {
    let (pool, parts) = parts.split_once(';').unwrap_or((parts, ""));
    let mut tree = tree_with(alloc, pool_of(alloc, pool)?);
    push_members(&mut tree, parts)?;
    Ok(word_of(alloc, &tree))
}

fn try_row(alloc: Global, wrong: &mut String, row: &str) -> Result<(), AllocError> {
    let (shown, parts) = row.split_once(';').unwrap_or((row, ""));
    let (wanted, _) = shown.split_once(' ').unwrap_or((row, ""));
    tell_wrong(wrong, row, answer_of(alloc, parts)?, wanted)
}

fn wrong_rows(alloc: Global, rows: &str) -> Result<String, AllocError> {
    let mut wrong = String::new(alloc);
    for row in rows.lines() {
        try_row(alloc, &mut wrong, row)?;
    }
    Ok(wrong)
}

#[test]
fn each_line_of_the_table_holds(rt: HostRuntime) -> Result<(), Fail> {
    assert_eq!(rt; wrong_rows(rt.alloc(), TREES)?.as_str(), "");
    Ok(())
}

// At index 0 a name of 65,535 bytes, and 20,000 other texts.
fn push_long_name(alloc: Global, entries: &mut Items<PoolEntry>) -> Result<(), AllocError> {
    let mut name = Items::new(alloc);
    for _ in 0..65_535 {
        name.push(b'm')?;
    }
    entries.push(PoolEntry::Utf8(name))?;
    for desc in 1..=20_000u16 {
        let text = Items::from_slice(alloc, &desc.to_be_bytes())?;
        entries.push(PoolEntry::Utf8(text))?;
    }
    Ok(())
}

fn push_long_methods(methods: &mut Items<MethodTree>) -> Result<(), AllocError> {
    for desc in 1..=20_000u16 {
        push_method(methods, 0, desc)?;
    }
    Ok(())
}

fn answer_of_long_name(alloc: Global) -> Result<&'static str, AllocError> {
    let mut entries = Items::new(alloc);
    push_long_name(alloc, &mut entries)?;
    let mut tree = tree_with(alloc, Pool::new(entries));
    push_long_methods(&mut tree.methods)?;
    Ok(word_of(alloc, &tree))
}

// Its text is looked at once, so this takes no longer than the methods are many.
#[test]
fn all_methods_may_have_one_long_name(rt: HostRuntime) -> Result<(), Fail> {
    assert_eq!(rt; answer_of_long_name(rt.alloc())?, "yes");
    Ok(())
}
