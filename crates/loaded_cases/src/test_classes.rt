// Classes for tests, put in line by line, each behind the tests that `push` asks for.
ghost use Rattle.std.specs.Prelude.{◌≡◌, ◌<◌, IsTrue, true, false, length};
ghost use Rattle.std.specs.List.{AllByRecursion, filter_map};
ghost use Rattle.std.specs.Option.{IfSome};
ghost use Rattle.class_tree.specs.WellFormed.{class_name};
ghost use Rattle.class_record.specs.declared.fault.TheConstants.{MAX_LOADED};
ghost use Rattle.class_record.specs.Facts.{names_of};
ghost use Rattle.class_record.specs.Loading.{is_among};
ghost use Rattle.class_tree.specs.ClassNames as class_names;
ghost use Rattle.class_record.specs.Trees.{HasShortLists, bases_of};
ghost use Rattle.loaded_classes.specs.Slots.{IsShortCode};

use class_record::{Classes, MAX_LOADED};
use class_tree::{ClassTree, CodeTree, FieldTree, Handler, MethodTree, Pool, PoolEntry};
use loaded_classes::LoadedClasses;
use loader_rules::Loader;
use sqlite_items::Items;
use std::alloc::{AllocError, Global};

// ---- what `push` asks for

fn is_named(classes: &LoadedClasses, name: &[u8]) -> bool
    ensures { IsTrue result → is_among name.now (names_of classes.now.classes) ≡ true }
{
    match classes.find_loaded(name) {
        Some(_) => true,
        None => false,
    }
}

fn is_loaded(classes: &LoadedClasses, pool: &Pool, index: u16) -> bool
    ensures { IsTrue result → IfSome (class_name pool.now index) (λ name. is_among name (names_of classes.now.classes) ≡ true) }
{
    match pool.class_name(index) {
        Some(name) => is_named(classes, name),
        None => true,
    }
}

fn are_loaded(classes: &LoadedClasses, pool: &Pool, indices: &[u16]) -> bool
    ensures { IsTrue result → AllByRecursion (λ name. is_among name (names_of classes.now.classes) ≡ true) (filter_map (class_name pool.now) indices.now) }
{
    let mut rest = indices;
    loop {
        let [index, more @ ..] = rest else {
            return true;
        };
        if !is_loaded(classes, pool, *index) {
            return false;
        }
        rest = more;
    }
}

fn has_loaded_bases(classes: &LoadedClasses, tree: &ClassTree) -> bool
    ensures { IsTrue result → AllByRecursion (λ base. is_among base.name (names_of classes.now.classes) ≡ true) (bases_of tree.now) }
{
    is_loaded(classes, &tree.pool, tree.sup)
        && are_loaded(classes, &tree.pool, tree.interfaces.as_slice())
}

fn is_short(method: &MethodTree) -> bool
    ensures { IsTrue result → IsShortCode method.now }
{
    match &method.code {
        Some(code) => code.bytes.len() < 65_536,
        None => true,
    }
}

fn are_short(methods: &[MethodTree]) -> bool
    ensures { IsTrue result → AllByRecursion IsShortCode methods.now }
{
    let mut rest = methods;
    loop {
        let [method, more @ ..] = rest else {
            return true;
        };
        if !is_short(method) {
            return false;
        }
        rest = more;
    }
}

fn has_short_lists(tree: &ClassTree) -> bool
    ensures { IsTrue result → HasShortLists tree.now }
{
    tree.pool.entries().len() < 65_536
        && tree.interfaces.len() < 65_536
        && tree.fields.len() < 65_536
        && tree.methods.len() < 65_536
        && are_short(tree.methods.as_slice())
}

fn may_push(classes: &LoadedClasses, tree: &ClassTree) -> bool
    ensures fresh { IsTrue result → is_among (class_names.own_name tree.now) (names_of classes.now.classes) ≡ false }
    ensures bases { IsTrue result → AllByRecursion (λ base. is_among base.name (names_of classes.now.classes) ≡ true) (bases_of tree.now) }
    ensures short { IsTrue result → HasShortLists tree.now }
    ensures few { IsTrue result → length classes.now.classes < MAX_LOADED }
{
    classes.find_loaded(tree.own_name()).is_none()
        && has_loaded_bases(classes, tree)
        && has_short_lists(tree)
        && classes.count() < MAX_LOADED
}

// One that can't be put in is left out.
fn push(
    classes: &mut LoadedClasses,
    loader: Loader,
    folder: u32,
    tree: ClassTree,
) -> Result<(), AllocError> {
    if !may_push(classes, &tree) {
        return Ok(());
    }
    match classes.push(loader, folder, tree) {
        Ok(_) => Ok(()),
        Err(_) => Err(AllocError),
    }
}

// ---- lines

fn number(word: &str) -> u16 {
    word.parse::<u16>().unwrap_or(u16::MAX)
}

fn entry_of(alloc: Global, word: &str) -> Result<PoolEntry, AllocError> {
    match word.parse::<u16>() {
        Ok(name) => Ok(PoolEntry::Class(name)),
        Err(_) => Ok(PoolEntry::Utf8(Items::from_slice(alloc, word.as_bytes())?)),
    }
}

fn pool_of(alloc: Global, words: &str) -> Result<Pool, AllocError> {
    let mut entries = Items::new(alloc);
    entries.push(PoolEntry::Unusable)?;
    for word in words.split_whitespace() {
        entries.push(entry_of(alloc, word)?)?;
    }
    Ok(Pool::new(entries))
}

fn push_numbers(numbers: &mut Items<u16>, words: &str) -> Result<(), AllocError> {
    for word in words.split_whitespace() {
        numbers.push(number(word))?;
    }
    Ok(())
}

fn push_fields(fields: &mut Items<FieldTree>, numbers: &[u16]) -> Result<(), AllocError> {
    for parts in numbers.chunks_exact(4) {
        fields.push(FieldTree {
            flags: parts[0],
            name: parts[1],
            desc: parts[2],
            value: parts[3],
        })?;
    }
    Ok(())
}

// A row of the exception table of a code with these limits.
fn handlers_of(alloc: Global, stack: u16, locals: u16) -> Result<Items<Handler>, AllocError> {
    let mut handlers = Items::new(alloc);
    handlers.push(Handler {
        start: 0,
        end: 1,
        handler: stack,
        catch: locals,
    })?;
    Ok(handlers)
}

// A code of one `return`.
fn code(alloc: Global, stack: u16, locals: u16) -> Result<CodeTree, AllocError> {
    let bytes = Items::from_slice(alloc, &[0xb1])?;
    Ok(CodeTree {
        stack,
        locals,
        bytes,
        handlers: handlers_of(alloc, stack, locals)?,
        map: None,
    })
}

// An abstract method has no code.
fn code_of(
    alloc: Global,
    flags: u16,
    stack: u16,
    locals: u16,
) -> Result<Option<CodeTree>, AllocError> {
    if flags & 0x0400 != 0 {
        return Ok(None);
    }
    Ok(Some(code(alloc, stack, locals)?))
}

fn push_methods(
    alloc: Global,
    methods: &mut Items<MethodTree>,
    numbers: &[u16],
) -> Result<(), AllocError> {
    for parts in numbers.chunks_exact(5) {
        methods.push(MethodTree {
            flags: parts[0],
            name: parts[1],
            desc: parts[2],
            code: code_of(alloc, parts[0], parts[3], parts[4])?,
        })?;
    }
    Ok(())
}

// A class without members. It has index 2, and its superclass index 4, where there is one.
fn tree_with(alloc: Global, flags: &str, pool: Pool) -> ClassTree {
    ClassTree {
        major: 52,
        flags: number(flags),
        pool,
        this: 2,
        sup: 4,
        interfaces: Items::new(alloc),
        fields: Items::new(alloc),
        methods: Items::new(alloc),
    }
}

fn push_members(alloc: Global, tree: &mut ClassTree, parts: &str) -> Result<(), AllocError> {
    let (interfaces, parts) = parts.split_once(';').unwrap_or((parts, ""));
    let (fields, methods) = parts.split_once(';').unwrap_or((parts, ""));
    push_numbers(&mut tree.interfaces, interfaces)?;
    let mut numbers = Items::new(alloc);
    push_numbers(&mut numbers, fields)?;
    push_fields(&mut tree.fields, numbers.as_slice())?;
    let mut numbers = Items::new(alloc);
    push_numbers(&mut numbers, methods)?;
    push_methods(alloc, &mut tree.methods, numbers.as_slice())
}

fn tree_of(alloc: Global, flags: &str, parts: &str) -> Result<ClassTree, AllocError> {
    let (pool, parts) = parts.split_once(';').unwrap_or((parts, ""));
    let mut tree = tree_with(alloc, flags, pool_of(alloc, pool)?);
    push_members(alloc, &mut tree, parts)?;
    Ok(tree)
}

fn loader_of(word: &str) -> Loader {
    match word {
        "boot" => Loader::Boot,
        "platform" => Loader::Platform,
        _ => Loader::App,
    }
}

fn push_line(alloc: Global, classes: &mut LoadedClasses, line: &str) -> Result<(), AllocError> {
    let (head, parts) = line.split_once(';').unwrap_or((line, ""));
    let (loader, head) = head.split_once(' ').unwrap_or((head, ""));
    let (folder, flags) = head.split_once(' ').unwrap_or((head, ""));
    let folder = u32::from(number(folder));
    push(
        classes,
        loader_of(loader),
        folder,
        tree_of(alloc, flags, parts)?,
    )
}

/// Puts in the classes of these lines, in their order. A line gives the loader, the folder and the flags of a class, and
/// behind semicolons the entries of its pool from index 1 on, a number for the Class of a name and any other word for a
/// Utf8, then its interfaces, its fields with flags, name, descriptor and value, and its methods with flags, name,
/// descriptor, stack and locals.
pub(crate) fn push_lines(
    alloc: Global,
    classes: &mut LoadedClasses,
    lines: &str,
) -> Result<(), AllocError> {
    for line in lines.lines() {
        push_line(alloc, classes, line)?;
    }
    Ok(())
}
