// Classes whose methods have no code: what they must not override, and each law once.
use crate::test_rows::wrong_rows;
use crate::{
    check_class, frames_stand, methods_are_refused, questions_are_in_order,
    some_classes_ask_nothing,
};
use class_tree::{ClassTree, MethodTree, Pool, PoolEntry};
use loader_rules::Loader;
use sqlite_items::Items;
use std::alloc::{AllocError, Global};
use verify_rules::{Checked, Member, Place, Superclass};

fn text(alloc: Global, text: &[u8]) -> Result<PoolEntry, AllocError> {
    Ok(PoolEntry::Utf8(Items::from_slice(alloc, text)?))
}

// The class p/A, which declares m()V with these flags, and no code of it.
fn lower(alloc: Global, flags: u16) -> Result<ClassTree, AllocError> {
    let mut entries = Items::new(alloc);
    entries.push(PoolEntry::Unusable)?;
    entries.push(text(alloc, b"p/A")?)?;
    entries.push(PoolEntry::Class(1))?;
    entries.push(text(alloc, b"m")?)?;
    entries.push(text(alloc, b"()V")?)?;
    let mut methods = Items::new(alloc);
    methods.push(MethodTree {
        flags,
        name: 3,
        desc: 4,
        code: None,
    })?;
    Ok(ClassTree {
        major: 52,
        flags: 0x0421,
        pool: Pool::new(entries),
        this: 2,
        sup: 0,
        interfaces: Items::new(alloc),
        fields: Items::new(alloc),
        methods,
    })
}

// A class of a name with these flags, which declares m()V with those of the method.
fn upper(
    alloc: Global,
    name: &[u8],
    flags: u16,
    method: u16,
) -> Result<Superclass<'_>, AllocError> {
    let mut methods = Items::new(alloc);
    methods.push(Member {
        name: b"m",
        desc: b"()V",
        flags: method,
    })?;
    Ok(Superclass {
        name,
        loader: Loader::App,
        flags,
        fields: Items::new(alloc),
        methods,
    })
}

// What is found: a fault at the very beginning or none, without a question.
fn found_word(checked: &Checked) -> &'static str {
    if checked.asks.len() > 0 {
        return "asks";
    }
    match checked.fault {
        Some(Place { method: 0, pc: 0 }) => "fault",
        Some(_) => "elsewhere",
        None => "sound",
    }
}

fn flags_of(word: &str) -> u16 {
    u16::from_str_radix(word, 16).unwrap_or(0)
}

// A class by its name, its flags and those of its method.
fn upper_of(alloc: Global, words: &str) -> Result<Superclass<'_>, AllocError> {
    let (name, both) = words.split_once(' ').unwrap_or((words, ""));
    let (flags, method) = both.split_once(' ').unwrap_or((both, ""));
    upper(alloc, name.as_bytes(), flags_of(flags), flags_of(method))
}

fn supers_of(alloc: Global, words: &str) -> Result<Vec<Superclass<'_>>, AllocError> {
    let mut all = Vec::new(alloc);
    for class in words.split(';') {
        all.push(upper_of(alloc, class)?)?;
    }
    Ok(all)
}

fn say_checked(
    alloc: Global,
    said: &mut String,
    tree: &ClassTree,
    supers: &[Superclass<'_>],
) -> Result<(), AllocError> {
    let checked = check_class(alloc, tree, Loader::App, supers)?;
    said.push_str(found_word(&checked))
}

/// Whether p/A breaks what is final: the flags of its m, and its superclasses.
pub(crate) fn say_breaks(alloc: Global, said: &mut String, words: &str) -> Result<(), AllocError> {
    let (flags, supers) = words.split_once(';').unwrap_or((words, ""));
    let tree = lower(alloc, flags_of(flags))?;
    let supers = supers_of(alloc, supers)?;
    say_checked(alloc, said, &tree, supers.as_slice())
}

#[test]
fn a_superclass_is_not_final(rt: HostRuntime) -> Result<(), AllocError> {
    let rows = "0401;p/B 0021 0002 = sound
0401;p/B 0031 0002 = fault";
    assert_eq!(rt; wrong_rows(rt.alloc(), "breaks", rows)?.as_str(), "");
    Ok(())
}

#[test]
fn a_final_method_is_not_overridden(rt: HostRuntime) -> Result<(), AllocError> {
    let rows = "0401;q/B 0021 0011;q/C 0021 0001 = fault
0401;q/B 0021 0001;q/C 0021 0014 = fault
0401;p/B 0021 0012;p/C 0021 0002 = sound
0402;p/B 0021 0011;p/C 0021 0001 = sound";
    assert_eq!(rt; wrong_rows(rt.alloc(), "breaks", rows)?.as_str(), "");
    Ok(())
}

#[test]
fn a_method_of_a_package_is_overridden_in_it(rt: HostRuntime) -> Result<(), AllocError> {
    let rows = "0401;p/B 0021 0010;p/C 0021 0000 = fault
0401;q/B 0021 0010;q/C 0021 0000 = sound
0401;q/B 0021 0004;q/C 0021 0010 = fault
0401;q/B 0021 0002;q/C 0021 0010 = sound";
    assert_eq!(rt; wrong_rows(rt.alloc(), "breaks", rows)?.as_str(), "");
    Ok(())
}

#[test]
fn the_laws_stand(_rt: HostRuntime) {
    questions_are_in_order();
    methods_are_refused();
    frames_stand();
    some_classes_ask_nothing();
}
