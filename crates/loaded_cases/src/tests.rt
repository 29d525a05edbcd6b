// That calls succeed, and what they answer for classes on each side of a rule.
ghost use Rattle.std.specs.Prelude.{◌≡◌, ◌<◌, length};

use crate::test_classes::push_lines;
use class_record::{ClassId, Classes, FieldFact, JavaFault, MethodFact, PoolFact};
use class_tree::Handler;
use loaded_classes::LoadedClasses;
use loader_rules::Loader;
use std::alloc::{AllocError, Global};
use std::test::Fail;

static CLASSES: &str = "boot 0 33;java/lang/Object 1; ; ;
boot 0 1537;I 1 java/lang/Object 3; ; ;
platform 1 1537;J 1 java/lang/Object 3 I 5; 6; ;
app 2 1537;K 1 java/lang/Object 3 I 5; 6; ;
app 2 33;A 1 java/lang/Object 3 J 5 K 7 x I s m ()V; 6 8; 2 9 10 0 8 11 10 7 2 10 10 0; 1 12 13 2 1 1025 9 13 0 0
app 3 1537;M 1 java/lang/Object 3; ; ;
app 4 32;B 1 A 3 M 5 z J; 6; 8 7 8 0 0 7 8 0;";

fn put(text: &mut String, word: &[u8]) -> Result<(), AllocError> {
    text.push_str(str::from_utf8(word).unwrap_or("?"))?;
    text.push_str(" ")
}

fn loader_word(loader: Loader) -> &'static str {
    match loader {
        Loader::Boot => "Boot",
        Loader::Platform => "Platform",
        Loader::App => "App",
    }
}

fn put_head<C: Classes>(
    text: &mut String,
    alloc: Global,
    classes: &C,
    id: ClassId,
) -> Result<(), AllocError>
    requires { id.0 < length (C.classes classes.now) }
{
    put(text, classes.name(id))?;
    let flags = classes.flags(id);
    let folder = classes.source(id).folder;
    let head = format!(in alloc; "{flags} {} {folder} ", loader_word(classes.loader(id)))?;
    text.push_str(head.as_str())
}

fn put_bases<C: Classes>(text: &mut String, classes: &C, id: ClassId) -> Result<(), AllocError>
    requires { id.0 < length (C.classes classes.now) }
{
    if let Some(sup) = classes.super_of(id) {
        put(text, classes.name(sup))?;
    }
    text.push_str(", ")?;
    for k in 0..3 {
        if let Some(found) = classes.interface(id, k) {
            put(text, classes.name(found))?;
        }
    }
    text.push_str(", ")
}

fn put_superinterfaces<C: Classes>(
    text: &mut String,
    classes: &C,
    id: ClassId,
) -> Result<(), AllocError>
    requires { id.0 < length (C.classes classes.now) }
{
    for k in 0..6 {
        if let Some(found) = classes.superinterface(id, k) {
            put(text, classes.name(found))?;
        }
    }
    text.push_str(", ")
}

fn put_field(text: &mut String, alloc: Global, field: FieldFact<'_>) -> Result<(), AllocError> {
    put(text, field.name)?;
    put(text, field.desc)?;
    let numbers = format!(in alloc; "{} {} {} ", field.flags, field.slot, field.value)?;
    text.push_str(numbers.as_str())
}

fn put_fields<C: Classes>(
    text: &mut String,
    alloc: Global,
    classes: &C,
    id: ClassId,
) -> Result<(), AllocError>
    requires { id.0 < length (C.classes classes.now) }
{
    for k in 0..4 {
        if let Some(field) = classes.field(id, k) {
            put_field(text, alloc, field)?;
        }
    }
    text.push_str(", ")
}

fn put_method(text: &mut String, alloc: Global, method: MethodFact<'_>) -> Result<(), AllocError> {
    put(text, method.name)?;
    put(text, method.desc)?;
    let size = method.code.len();
    let limits = (method.stack, method.locals);
    let numbers = format!(in alloc; "{} {} {} {size} ", method.flags, limits.0, limits.1)?;
    text.push_str(numbers.as_str())
}

fn put_handler(text: &mut String, alloc: Global, row: Handler) -> Result<(), AllocError> {
    let row = format!(in alloc; "{} {} ", row.handler, row.catch)?;
    text.push_str(row.as_str())
}

fn put_methods<C: Classes>(
    text: &mut String,
    alloc: Global,
    classes: &C,
    id: ClassId,
) -> Result<(), AllocError>
    requires { id.0 < length (C.classes classes.now) }
{
    for k in 0..3 {
        if let Some(method) = classes.method(id, k) {
            put_method(text, alloc, method)?;
        }
        if let Some(row) = classes.handler(id, k, 0) {
            put_handler(text, alloc, row)?;
        }
    }
    text.push_str(", ")
}

// Its fields, each with descriptor, flags, slot and value, its methods, each with descriptor, flags, stack, locals, length
// of code and the handler and the type of the first row, and its sizes.
fn put_members<C: Classes>(
    text: &mut String,
    alloc: Global,
    classes: &C,
    id: ClassId,
) -> Result<(), AllocError>
    requires { id.0 < length (C.classes classes.now) }
{
    put_fields(text, alloc, classes, id)?;
    put_methods(text, alloc, classes, id)?;
    let (instance_size, static_size) = classes.sizes(id);
    let sizes = format!(in alloc; "{instance_size} {static_size} .")?;
    text.push_str(sizes.as_str())
}

// The name, flags, loader and folder of a class, its superclass, its direct superinterfaces, all of them, and its members.
fn put_facts<C: Classes>(
    text: &mut String,
    alloc: Global,
    classes: &C,
    id: ClassId,
) -> Result<(), AllocError>
    requires { id.0 < length (C.classes classes.now) }
{
    put_head(text, alloc, classes, id)?;
    put_bases(text, classes, id)?;
    put_superinterfaces(text, classes, id)?;
    put_members(text, alloc, classes, id)
}

fn say_facts(
    said: &mut String,
    alloc: Global,
    classes: &LoadedClasses,
    id: u16,
) -> Result<(), AllocError> {
    if u32::from(id) < classes.count() {
        return put_facts(said, alloc, classes, ClassId(u32::from(id)));
    }
    said.push_str("no class")
}

// ---- calls by the names of classes

fn number(word: &str) -> u16 {
    word.parse::<u16>().unwrap_or(u16::MAX)
}

// Which of the entries that are looked for stands there.
fn entry_at<C: Classes>(classes: &C, id: ClassId, k: u16) -> &'static str
    requires { id.0 < length (C.classes classes.now) }
{
    match classes.pool(id, k) {
        PoolFact::Utf8(b"x") => "Utf8 x",
        PoolFact::Class(b"J") => "Class J",
        PoolFact::Unusable => "unusable",
        _ => "another",
    }
}

fn say_found(
    said: &mut String,
    alloc: Global,
    classes: &mut LoadedClasses,
    name: &str,
    from: Loader,
) -> Result<(), AllocError> {
    match classes.load(name.as_bytes(), from) {
        Ok(Ok(id)) => said.push_str(format!(in alloc; "{}", id.0)?.as_str()),
        Ok(Err(JavaFault::NoClassDefFoundError)) => said.push_str("not found"),
        _ => said.push_str("another"),
    }
}

fn say_load(
    said: &mut String,
    alloc: Global,
    classes: &mut LoadedClasses,
    name: &str,
    from: &str,
) -> Result<(), AllocError> {
    match from {
        "boot" => say_found(said, alloc, classes, name, Loader::Boot),
        "platform" => say_found(said, alloc, classes, name, Loader::Platform),
        _ => say_found(said, alloc, classes, name, Loader::App),
    }
}

fn set<C: Classes>(classes: &mut C, id: ClassId, k: u16, value: u64) -> bool
    requires { id.0 < length (C.classes classes.old) }
    ensures { C.classes classes.new ≡ C.classes classes.old }
{
    match classes.pool(id, k) {
        PoolFact::Utf8(_) => classes.set_cache(id, k, value),
        _ => return false,
    }
    true
}

// Sets the cache word at 1.
fn set_word(classes: &mut LoadedClasses, name: &str, value: &str) -> &'static str {
    let value = value.parse::<u64>().unwrap_or(1);
    match classes.find_loaded(name.as_bytes()) {
        Some(id) => {
            if set(classes, id, 1, value) {
                "set"
            } else {
                "not set"
            }
        }
        None => "no class",
    }
}

fn link_word(classes: &mut LoadedClasses, name: &str) -> &'static str {
    let Some(id) = classes.find_loaded(name.as_bytes()) else {
        return "no class";
    };
    match classes.link(id) {
        Ok(None) => "linked",
        _ => "not linked",
    }
}

fn say_word(
    said: &mut String,
    alloc: Global,
    classes: &LoadedClasses,
    name: &str,
    k: u16,
) -> Result<(), AllocError> {
    match classes.find_loaded(name.as_bytes()) {
        Some(id) => said.push_str(format!(in alloc; "{}", classes.cache(id, k))?.as_str()),
        None => said.push_str("no class"),
    }
}

fn entry_word(classes: &LoadedClasses, name: &str, k: u16) -> &'static str {
    match classes.find_loaded(name.as_bytes()) {
        Some(id) => entry_at(classes, id, k),
        None => "no class",
    }
}

fn say(
    said: &mut String,
    alloc: Global,
    classes: &mut LoadedClasses,
    call: &str,
) -> Result<(), AllocError> {
    let (verb, words) = call.split_once(' ').unwrap_or((call, ""));
    let (name, more) = words.split_once(' ').unwrap_or((words, ""));
    match verb {
        "facts" => say_facts(said, alloc, classes, number(name)),
        "load" => say_load(said, alloc, classes, name, more),
        "set" => said.push_str(set_word(classes, name, more)),
        "link" => said.push_str(link_word(classes, name)),
        "word" => say_word(said, alloc, classes, name, number(more)),
        _ => said.push_str(entry_word(classes, name, number(more))),
    }
}

fn try_row(
    wrong: &mut String,
    alloc: Global,
    classes: &mut LoadedClasses,
    row: &str,
) -> Result<(), AllocError> {
    let (call, wanted) = row.split_once(" = ").unwrap_or((row, ""));
    let mut said = String::new(alloc);
    say(&mut said, alloc, classes, call)?;
    if said.as_str() != wanted {
        wrong.push_str(row)?;
        wrong.push_str(" but ")?;
        wrong.push_str(said.as_str())?;
    }
    Ok(())
}

fn try_rows(
    wrong: &mut String,
    alloc: Global,
    classes: &mut LoadedClasses,
    rows: &str,
) -> Result<(), AllocError> {
    for row in rows.lines() {
        try_row(wrong, alloc, classes, row)?;
    }
    Ok(())
}

fn try_classes(wrong: &mut String, alloc: Global, rows: &str) -> Result<(), AllocError> {
    let mut classes = LoadedClasses::new(alloc);
    push_lines(alloc, &mut classes, CLASSES)?;
    try_rows(wrong, alloc, &mut classes, rows)
}

// The rows `CALL = ANSWER` that are wrong.
fn wrong_rows(alloc: Global, rows: &str) -> Result<String, AllocError> {
    let mut wrong = String::new(alloc);
    try_classes(&mut wrong, alloc, rows)?;
    Ok(wrong)
}

#[test]
fn each_class_has_its_facts_and_is_found_by_its_loaders(rt: HostRuntime) -> Result<(), Fail> {
    let rows = "facts 0 = java/lang/Object 33 Boot 0 , , , , , 0 0 .
facts 1 = I 1537 Boot 0 java/lang/Object , , , , , 0 0 .
facts 2 = J 1537 Platform 1 java/lang/Object , I , I , , , 0 0 .
facts 3 = K 1537 App 2 java/lang/Object , I , I , , , 0 0 .
facts 4 = A 33 App 2 java/lang/Object , J K , I J K , x I 2 0 0 s I 8 0 7 I I 2 1 0 , m ()V 1 2 1 1 2 1 x ()V 1025 0 0 0 , 2 1 .
facts 5 = M 1537 App 3 java/lang/Object , , , , , 0 0 .
facts 6 = B 32 App 4 A , M , I J K M , z J 8 0 0 z J 0 2 0 , , 3 1 .
entry A 9 = Utf8 x
entry A 6 = Class J
entry A 0 = unusable
entry A 14 = unusable
load A app = 4
load A platform = not found
load J platform = 2
load J boot = not found
load C app = not found";
    assert_eq!(rt; wrong_rows(rt.alloc(), rows)?.as_str(), "");
    Ok(())
}

#[test]
fn cache_words_are_kept(rt: HostRuntime) -> Result<(), Fail> {
    let rows = "set A 5 = set
set B 18446744073709551615 = set
word A 1 = 5
word B 1 = 18446744073709551615
word A 2 = 0
link A = linked";
    assert_eq!(rt; wrong_rows(rt.alloc(), rows)?.as_str(), "");
    Ok(())
}
