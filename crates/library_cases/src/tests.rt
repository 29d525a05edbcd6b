// What no contract says: that the text has the classes and the members that programs may ask for, by a table that was
// written from their specification, and that a constant of a class is the one that Java has.
use crate::test_table::MEMBERS;
use boot_library::boot_text;
use class_asm::{AsmFault, assemble};
use class_tree::{ClassTree, FieldTree, MethodTree, Pool, PoolEntry};
use std::alloc::{AllocError, Global};

fn trees(alloc: Global) -> Result<Vec<ClassTree>, AsmFault> {
    let text = boot_text().as_bytes();
    if text.len() > 1_000_000 {
        return Err(AsmFault::Memory);
    }
    assemble(alloc, text)
}

// ---- what is said

// Adds to what is said. Where memory runs out the text is short, and found to differ.
fn put(said: &mut String, text: &str) {
    let _kept = said.push_str(text);
}

fn text_at<'a>(pool: &'a Pool, index: u16) -> &'a str {
    match pool.text(index) {
        Some(text) => str::from_utf8(text).unwrap_or("no text"),
        None => "no text",
    }
}

// The name of a class; 0 is none.
fn class_at<'a>(pool: &'a Pool, index: u16) -> &'a str {
    match pool.class_name(index) {
        Some(text) => str::from_utf8(text).unwrap_or("no text"),
        None => "-",
    }
}

fn say_flags(alloc: Global, said: &mut String, word: &str, flags: u16) {
    put(said, word);
    if let Ok(text) = format!(in alloc; " 0x{flags:04x} ") {
        put(said, text.as_str());
    }
}

// The line of a class: its flags, its name, its superclass and its superinterfaces. Its version is 52.
fn say_class(alloc: Global, said: &mut String, tree: &ClassTree) {
    say_flags(
        alloc,
        said,
        if tree.major == 52 { "class" } else { "version" },
        tree.flags,
    );
    put(said, class_at(&tree.pool, tree.this));
    put(said, " ");
    put(said, class_at(&tree.pool, tree.sup));
    for interface in tree.interfaces.as_slice() {
        put(said, " ");
        put(said, class_at(&tree.pool, *interface));
    }
    put(said, "\n");
}

fn say_name(said: &mut String, pool: &Pool, name: u16, desc: u16) {
    put(said, text_at(pool, name));
    put(said, " ");
    put(said, text_at(pool, desc));
    put(said, "\n");
}

fn say_fields(alloc: Global, said: &mut String, tree: &ClassTree) {
    for field in tree.fields.as_slice() {
        say_flags(alloc, said, "field", field.flags);
        say_name(said, &tree.pool, field.name, field.desc);
    }
}

// The line of a method. One that is neither public nor protected is a helper, and has none.
fn say_method(alloc: Global, said: &mut String, pool: &Pool, method: &MethodTree) {
    if method.flags & 0x0005 == 0 && text_at(pool, method.name) != "<clinit>" {
        return;
    }
    say_flags(alloc, said, "method", method.flags);
    say_name(said, pool, method.name, method.desc);
}

fn say_methods(alloc: Global, said: &mut String, tree: &ClassTree) {
    for method in tree.methods.as_slice() {
        say_method(alloc, said, &tree.pool, method);
    }
}

fn say_trees(alloc: Global, said: &mut String, trees: &[ClassTree]) {
    for tree in trees {
        say_class(alloc, said, tree);
        say_fields(alloc, said, tree);
        say_methods(alloc, said, tree);
    }
}

// ---- what is wanted

// A line of the table, with those of a throwable written out.
fn want_line(wanted: &mut String, line: &str) {
    if let Some(throwable) = line.strip_prefix("throwable ") {
        put(wanted, "class ");
        put(wanted, throwable);
        put(wanted, "\nmethod 0x0001 <init> ()V");
        put(wanted, "\nmethod 0x0001 <init> (Ljava/lang/String;)V\n");
    } else if !line.is_empty() {
        put(wanted, line);
        put(wanted, "\n");
    }
}

fn wanted_text(alloc: Global) -> String {
    let mut wanted = String::new(alloc);
    for line in MEMBERS.lines() {
        want_line(&mut wanted, line);
    }
    wanted
}

fn put_wrong(wrong: &mut String, row: &str, said: &str) -> Result<(), AllocError> {
    wrong.push_str(row)?;
    wrong.push_str(" but ")?;
    wrong.push_str(said)
}

// The lines that differ.
fn put_lines(wrong: &mut String, said: &str, wanted: &str) -> Result<(), AllocError> {
    for (found, line) in said.lines().zip(wanted.lines()) {
        if found != line {
            put_wrong(wrong, line, found)?;
        }
    }
    Ok(())
}

fn put_sizes(wrong: &mut String, said: &str, wanted: &str, count: usize) -> Result<(), AllocError> {
    if said.len() == wanted.len() && count == 54 {
        return Ok(());
    }
    wrong.push_str("another number of classes or members")
}

fn put_differences(
    alloc: Global,
    wrong: &mut String,
    trees: &[ClassTree],
) -> Result<(), AllocError> {
    let wanted = wanted_text(alloc);
    let mut said = String::new(alloc);
    say_trees(alloc, &mut said, trees);
    put_lines(wrong, said.as_str(), wanted.as_str())?;
    put_sizes(wrong, said.as_str(), wanted.as_str(), trees.len())
}

fn wrong_members(alloc: Global) -> Result<String, AsmFault> {
    let trees = trees(alloc)?;
    let mut wrong = String::new(alloc);
    put_differences(alloc, &mut wrong, trees.as_slice())?;
    Ok(wrong)
}

#[test]
fn the_classes_have_the_members_that_are_specified(rt: HostRuntime) -> Result<(), AsmFault> {
    assert_eq!(rt; wrong_members(rt.alloc())?.as_str(), "");
    Ok(())
}

// Whether an interface's, abstract or native method has no code, and another one has.
fn has_its_code(method: &MethodTree) -> bool {
    method.code.is_none() == (method.flags & 0x0500 != 0)
}

// The bits of a constant, or 0.
fn bits(pool: &Pool, field: &FieldTree) -> u64 {
    match pool.entries().get(usize::from(field.value)) {
        Some(PoolEntry::Integer(bits)) => u64::from(*bits),
        Some(PoolEntry::Long(bits)) => *bits,
        _ => 0,
    }
}

fn say_bits(alloc: Global, said: &mut String, bits: u64) {
    if let Ok(text) = format!(in alloc; "{bits:x} ") {
        put(said, text.as_str());
    }
}

fn say_constants(alloc: Global, said: &mut String, tree: &ClassTree) {
    for field in tree.fields.as_slice() {
        if field.value != 0 {
            say_bits(alloc, said, bits(&tree.pool, field));
        }
    }
}

// The name of each method that has no code and is to have some, or the other way round.
fn say_codes(said: &mut String, tree: &ClassTree) {
    for method in tree.methods.as_slice() {
        if !has_its_code(method) {
            put(said, text_at(&tree.pool, method.name));
        }
    }
}

fn said_of_all(alloc: Global) -> Result<String, AsmFault> {
    let mut said = String::new(alloc);
    for tree in trees(alloc)?.as_slice() {
        say_codes(&mut said, tree);
        say_constants(alloc, &mut said, tree);
    }
    Ok(said)
}

#[test]
fn what_has_code_and_what_a_constant_is(rt: HostRuntime) -> Result<(), AsmFault> {
    let wanted = "80000000 7fffffff 8000000000000000 7fffffffffffffff ";
    assert_eq!(rt; said_of_all(rt.alloc())?.as_str(), wanted);
    Ok(())
}
