// What no world of the table shows: limits, faults, deep hierarchies, and the facts of classes.
ghost use Rattle.std.specs.Prelude.{◌≡◌, ◌<◌, length};

use crate::files::{classes_of, put_file, put_files};
use crate::worlds::say_load;
use class_linker::Fresh;
use class_record::{ClassId, Classes, PoolFact};
use jsa_files::{FilesFault, MAX_FILE, MemoryFiles};
use loader_rules::Loader;
use std::alloc::{AllocError, Global};
use std::test::Fail;
use test_rows::tell_wrong;

// ---- what is said of a loaded class

fn loader_word(loader: Loader) -> &'static str {
    match loader {
        Loader::Boot => "boot",
        Loader::Platform => "platform",
        Loader::App => "app",
    }
}

fn found_word(is_some: bool) -> &'static str {
    if is_some { "some" } else { "none" }
}

// The name, the flags, the loader, the superclass, the archive and the folder, and the two sizes.
fn say_head<C: Classes>(
    alloc: Global,
    said: &mut String,
    classes: &C,
    id: ClassId,
) -> Result<(), AllocError>
    requires { id.0 < length (C.classes classes.now) }
{
    said.push_str(str::from_utf8(classes.name(id)).unwrap_or("?"))?;
    let flags = classes.flags(id);
    let loader = loader_word(classes.loader(id));
    let sup = match classes.super_of(id) {
        Some(sup) => sup.0,
        None => u32::MAX,
    };
    let archive = found_word(classes.source(id).archive.is_some());
    let folder = classes.source(id).folder;
    let sizes = classes.sizes(id);
    let head = format!(in alloc; " {flags} {loader} {sup} {archive} {folder} {sizes:?}")?;
    said.push_str(head.as_str())
}

// Whether there is a first superinterface, direct or not, a first field, a first method, and a first row of its handlers.
fn say_firsts<C: Classes>(
    alloc: Global,
    said: &mut String,
    classes: &C,
    id: ClassId,
) -> Result<(), AllocError>
    requires { id.0 < length (C.classes classes.now) }
{
    let interface = found_word(classes.interface(id, 0).is_some());
    let superinterface = found_word(classes.superinterface(id, 0).is_some());
    let field = found_word(classes.field(id, 0).is_some());
    let method = found_word(classes.method(id, 0).is_some());
    let handler = found_word(classes.handler(id, 0, 0).is_some());
    let firsts = format!(in alloc; "{interface} {superinterface} {field} {method} {handler}")?;
    said.push_str(firsts.as_str())
}

// The cache words at 1, 2 and 5.
fn say_words<C: Classes>(
    alloc: Global,
    said: &mut String,
    classes: &C,
    id: ClassId,
) -> Result<(), AllocError>
    requires { id.0 < length (C.classes classes.now) }
{
    let words = (
        classes.cache(id, 1),
        classes.cache(id, 2),
        classes.cache(id, 5),
    );
    said.push_str(format!(in alloc; "{words:?}")?.as_str())
}

// Sets the cache word of a Class entry.
fn set<C: Classes>(classes: &mut C, id: ClassId, k: u16, value: u64) -> bool
    requires { id.0 < length (C.classes classes.old) }
    ensures { C.classes classes.new ≡ C.classes classes.old }
{
    match classes.pool(id, k) {
        PoolFact::Class(_) => classes.set_cache(id, k, value),
        _ => return false,
    }
    true
}

fn link_word<C: Classes>(classes: &mut C, id: ClassId) -> &'static str
    requires { id.0 < length (C.classes classes.old) }
{
    match classes.link(id) {
        Ok(None) => "linked",
        Ok(Some(_)) => "a throwable",
        Err(_) => "a fault",
    }
}

// The name of the class in its tree.
fn tree_word<'a>(fresh: &'a Fresh<MemoryFiles>, name: &str) -> &'a str {
    let Some(id) = fresh.find_loaded(name.as_bytes()) else {
        return "none";
    };
    let tree = fresh.tree(id);
    match tree.pool.class_name(tree.this) {
        Some(name) => str::from_utf8(name).unwrap_or("?"),
        None => "no name",
    }
}

fn say_fact(
    alloc: Global,
    said: &mut String,
    fresh: &Fresh<MemoryFiles>,
    verb: &str,
    name: &str,
) -> Result<(), AllocError> {
    let Some(id) = fresh.find_loaded(name.as_bytes()) else {
        return said.push_str("none");
    };
    match verb {
        "head" => say_head(alloc, said, fresh, id),
        "firsts" => say_firsts(alloc, said, fresh, id),
        "words" => say_words(alloc, said, fresh, id),
        _ => said.push_str("some"),
    }
}

// `set` is of the entry 2 and the value 7.
fn done_word(fresh: &mut Fresh<MemoryFiles>, verb: &str, name: &str) -> &'static str {
    let Some(id) = fresh.find_loaded(name.as_bytes()) else {
        return "none";
    };
    if verb == "link" {
        return link_word(fresh, id);
    }
    if set(fresh, id, 2, 7) {
        "set"
    } else {
        "not set"
    }
}

fn say(
    alloc: Global,
    said: &mut String,
    fresh: &mut Fresh<MemoryFiles>,
    call: &str,
) -> Result<(), AllocError> {
    let (verb, name) = call.split_once(' ').unwrap_or((call, ""));
    match verb {
        "load" => say_load(alloc, said, fresh, name),
        "count" => said.push_str(format!(in alloc; "{}", fresh.count())?.as_str()),
        "tree" => said.push_str(tree_word(fresh, name)),
        "link" | "set" => said.push_str(done_word(fresh, verb, name)),
        _ => say_fact(alloc, said, fresh, verb, name),
    }
}

// ---- rows

fn try_row(
    alloc: Global,
    wrong: &mut String,
    fresh: &mut Fresh<MemoryFiles>,
    row: &str,
) -> Result<(), AllocError> {
    let (call, wanted) = row.split_once(" = ").unwrap_or((row, ""));
    let mut said = String::new(alloc);
    say(alloc, &mut said, fresh, call)?;
    tell_wrong(wrong, row, said.as_str(), wanted)
}

fn try_rows(
    alloc: Global,
    wrong: &mut String,
    fresh: &mut Fresh<MemoryFiles>,
    rows: &str,
) -> Result<(), AllocError> {
    for row in rows.lines() {
        try_row(alloc, wrong, fresh, row)?;
    }
    Ok(())
}

fn try_reads(
    alloc: Global,
    wrong: &mut String,
    files: &MemoryFiles,
    wanted: &str,
) -> Result<(), AllocError> {
    let said = format!(in alloc; "{} reads", files.reads().len())?;
    tell_wrong(wrong, "reads", said.as_str(), wanted)
}

// The rows `CALL = ANSWER` that are wrong over a store. The first row is how many files were read in the end.
fn try_store(
    alloc: Global,
    wrong: &mut String,
    files: MemoryFiles,
    rows: &str,
) -> Result<(), FilesFault> {
    let (reads, rows) = rows.split_once('\n').unwrap_or((rows, ""));
    let mut fresh = classes_of(alloc, files)?;
    let tried = try_rows(alloc, wrong, &mut fresh, rows);
    let files = fresh.into_files();
    tried?;
    Ok(try_reads(alloc, wrong, &files, reads)?)
}

fn wrong_rows(alloc: Global, files: MemoryFiles, rows: &str) -> Result<String, FilesFault> {
    let mut wrong = String::new(alloc);
    try_store(alloc, &mut wrong, files, rows)?;
    Ok(wrong)
}

// ---- limits and faults

fn too_large(alloc: Global) -> Result<MemoryFiles, FilesFault> {
    let mut files = MemoryFiles::new(alloc);
    put_files(alloc, &mut files, "")?;
    let large = vec![in alloc; 0u8; MAX_FILE + 1]?;
    files.with("x/A.class", &large)?;
    Ok(files)
}

#[test]
fn a_class_file_that_is_too_large_is_a_limit(rt: HostRuntime) -> Result<(), Fail> {
    let rows = "0 reads
load A app = a file above 67108864
count = 0";
    let files = too_large(rt.alloc())?;
    assert_eq!(rt; wrong_rows(rt.alloc(), files, rows)?.as_str(), "");
    Ok(())
}

fn failing(alloc: Global) -> Result<MemoryFiles, FilesFault> {
    let mut files = MemoryFiles::new(alloc);
    put_files(alloc, &mut files, "x/A class A B; x/B class B O")?;
    files.fail(6, 0)?;
    Ok(files)
}

// The sixth call of the store is the read of B's file. What was read before isn't read again.
#[test]
fn after_a_failed_read_the_load_goes_on_where_it_was(rt: HostRuntime) -> Result<(), Fail> {
    let rows = "3 reads
load A app = a failed read
count = 0
load A app = 2";
    let files = failing(rt.alloc())?;
    assert_eq!(rt; wrong_rows(rt.alloc(), files, rows)?.as_str(), "");
    Ok(())
}

// The class with the number k + 1, which extends that with the number k.
fn put_next(alloc: Global, files: &mut MemoryFiles, k: u32) -> Result<(), FilesFault> {
    let next = k.saturating_add(1);
    let text = format!(in alloc; "x/C{next} class C{next} C{k}")?;
    put_file(alloc, files, text.as_str())
}

// A class C0 that extends java/lang/Object, and each next one, up to C with the number `last`, the one before it.
fn chain(alloc: Global, last: u32) -> Result<MemoryFiles, FilesFault> {
    let mut files = MemoryFiles::new(alloc);
    put_files(alloc, &mut files, "x/C0 class C0 O")?;
    for k in 0..last {
        put_next(alloc, &mut files, k)?;
    }
    Ok(files)
}

#[test]
fn no_hierarchy_is_too_deep(rt: HostRuntime) -> Result<(), Fail> {
    let rows = "4002 reads
load C4000 app = 4001";
    let files = chain(rt.alloc(), 4_000)?;
    assert_eq!(rt; wrong_rows(rt.alloc(), files, rows)?.as_str(), "");
    Ok(())
}

// ---- facts

// A platform class `A` and its superclass `B`, in the same folder.
fn two_classes(alloc: Global) -> Result<MemoryFiles, FilesFault> {
    let mut files = MemoryFiles::new(alloc);
    put_files(alloc, &mut files, "p/A class A B; p/B class B O")?;
    Ok(files)
}

#[test]
fn a_loaded_class_has_the_facts_of_its_file(rt: HostRuntime) -> Result<(), Fail> {
    let rows = "3 reads
load A app = 2
find C = none
find A = some
head A = A 33 platform 1 none 1 (0, 0)
firsts A = none none none none none
tree A = A";
    let files = two_classes(rt.alloc())?;
    assert_eq!(rt; wrong_rows(rt.alloc(), files, rows)?.as_str(), "");
    Ok(())
}

#[test]
fn a_loaded_class_is_linked_and_keeps_its_cache_words(rt: HostRuntime) -> Result<(), Fail> {
    let rows = "3 reads
load A platform = 2
set A = set
words A = (0, 7, 0)
link A = linked
load A boot = NoClassDefFoundError";
    let files = two_classes(rt.alloc())?;
    assert_eq!(rt; wrong_rows(rt.alloc(), files, rows)?.as_str(), "");
    Ok(())
}
