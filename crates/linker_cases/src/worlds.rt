// Loading over small worlds: what each load answers, which classes are loaded, and which files were read.
use crate::files::{classes_of, put_files, whole};
use class_linker::Fresh;
use class_record::{ClassId, Classes, ClassesFault, JavaFault};
use jsa_base::Quantity;
use jsa_files::{FilesFault, MemoryFiles};
use loader_rules::Loader;
use std::alloc::{AllocError, Global};
use std::test::Fail;
use test_rows::tell_wrong;

fn loader(word: &str) -> Loader {
    match word {
        "boot" => Loader::Boot,
        "platform" => Loader::Platform,
        _ => Loader::App,
    }
}

// The name of a throwable without its package.
fn simple(fault: JavaFault) -> &'static str {
    fault.name().strip_prefix("java/lang/").unwrap_or("")
}

fn say_fault(alloc: Global, said: &mut String, fault: ClassesFault) -> Result<(), AllocError> {
    match fault {
        ClassesFault::Read => said.push_str("a failed read"),
        ClassesFault::Memory => said.push_str("memory"),
        ClassesFault::Limit(Quantity::FileSize, limit) => {
            said.push_str(format!(in alloc; "a file above {limit}")?.as_str())
        }
        ClassesFault::Limit(_, _) => said.push_str("another limit"),
    }
}

/// Loads a class that is written as its name and a loader, and says its number, the throwable or the fault.
pub fn say_load(
    alloc: Global,
    said: &mut String,
    fresh: &mut Fresh<MemoryFiles>,
    load: &str,
) -> Result<(), AllocError> {
    let (name, from) = load.split_once(' ').unwrap_or((load, ""));
    match fresh.load(whole(name).as_bytes(), loader(from)) {
        Ok(Ok(id)) => said.push_str(format!(in alloc; "{}", id.0)?.as_str()),
        Ok(Err(fault)) => said.push_str(simple(fault)),
        Err(fault) => say_fault(alloc, said, fault),
    }
}

// A blank and a name, of which the rows have `O` for java/lang/Object.
fn say_name(said: &mut String, name: &str) -> Result<(), AllocError> {
    said.push_str(" ")?;
    said.push_str(if name == "java/lang/Object" {
        "O"
    } else {
        name
    })
}

// The answers of the loads, and the classes in load order.
fn say_loads(
    alloc: Global,
    said: &mut String,
    fresh: &mut Fresh<MemoryFiles>,
    loads: &str,
) -> Result<(), AllocError> {
    for load in loads.split("; ") {
        said.push_str(" ")?;
        say_load(alloc, said, fresh, load)?;
    }
    said.push_str("|")?;
    for k in 0..fresh.count() {
        say_name(said, str::from_utf8(fresh.name(ClassId(k))).unwrap_or("?"))?;
    }
    Ok(())
}

// The path without its end.
fn read_name(path: &str) -> &str {
    if path == "b/java/lang/Object.class" {
        return "b/O";
    }
    path.strip_suffix(".class").unwrap_or(path)
}

fn say_reads(said: &mut String, files: &MemoryFiles) -> Result<(), AllocError> {
    said.push_str("|")?;
    for path in files.reads() {
        said.push_str(" ")?;
        said.push_str(read_name(path.as_str()))?;
    }
    Ok(())
}

// All that is said of the loads over a store, as the last three parts of a row say it.
fn say_world(
    alloc: Global,
    said: &mut String,
    files: MemoryFiles,
    loads: &str,
) -> Result<(), FilesFault> {
    let mut fresh = classes_of(alloc, files)?;
    let loaded = say_loads(alloc, said, &mut fresh, loads);
    let files = fresh.into_files();
    loaded?;
    Ok(say_reads(said, &files)?)
}

fn say_row(alloc: Global, said: &mut String, row: &str) -> Result<(), FilesFault> {
    let (texts, rest) = row.split_once('|').unwrap_or((row, ""));
    let (loads, _) = rest.split_once('|').unwrap_or((rest, ""));
    let mut files = MemoryFiles::new(alloc);
    put_files(alloc, &mut files, texts)?;
    say_world(alloc, said, files, loads)
}

// The class files of a world, each as its path, its kind, the name inside, its superclass and its superinterfaces, beside
// java/lang/Object (here O) in the boot folder; what is loaded, and from which loader; the answers, each the number of the
// class or the throwable; the classes in load order; the files that were read.
static WORLDS: &str = "x/A class A O|A app| 1| O A| x/A b/O
x/A class A B; x/B class B O|A app| 2| O B A| x/A x/B b/O
b/A class A O|A boot| 1| O A| b/A b/O
x/A class A O|A boot| NoClassDefFoundError||
x/A class A O|A platform| NoClassDefFoundError||
p/A class A O|A app| 1| O A| p/A b/O
p/A class A O|A boot| NoClassDefFoundError||
b/A class A O; p/A class A B; x/A class A B|A app| 1| O A| b/A b/O
p/A class A O; x/A class A B|A app| 1| O A| p/A b/O
x/A class A O; y/A class A B|A app| 1| O A| x/A b/O
y/A class A O|A app| 1| O A| y/A b/O
b/A class A B; x/B class B O|A app| NoClassDefFoundError|| b/A
p/A class A B; b/B class B O|A app| 2| O B A| p/A b/B b/O
p/A class A B; x/B class B A|B app| NoClassDefFoundError|| x/B p/A
x/A class A O I J; x/I interface I O; x/J interface J O|A app| 3| O I J A| x/A b/O x/I x/J
x/A class A O I; x/I interface I O J; x/J interface J O|A app| 3| O J I A| x/A b/O x/I x/J
x/A class A O I J; x/I interface I O K; x/J interface J O K; x/K interface K O|A app| 4| O K I J A| x/A b/O x/I x/K x/J
x/A class A B I; x/B class B O I; x/I interface I O|A app| 3| O I B A| x/A x/B b/O x/I
x/A class A B|A app| NoClassDefFoundError|| x/A
x/A class A B I; x/B class B O|A app| NoClassDefFoundError| O B| x/A x/B b/O
x/A class A O I J; x/I interface I O|A app| NoClassDefFoundError| O I| x/A b/O x/I
x/A class A B; x/B class B A|A app| ClassCircularityError|| x/A x/B
x/A class A A|A app| ClassCircularityError|| x/A
x/I interface I O I|I app| ClassCircularityError| O| x/I b/O
x/I interface I O J; x/J interface J O I|I app| ClassCircularityError| O| x/I b/O x/J
x/A class A O I; x/I interface I O J; x/J interface J O I|A app| ClassCircularityError| O| x/A b/O x/I x/J
x/A class A I; x/I interface I O|A app| IncompatibleClassChangeError| O I| x/A x/I b/O
x/A class A O B; x/B class B O|A app| IncompatibleClassChangeError| O B| x/A b/O x/B
x/A class A I J; x/I interface I O|A app| IncompatibleClassChangeError| O I| x/A x/I b/O
x/A class A O B J; x/B class B O; x/J interface J O|A app| IncompatibleClassChangeError| O B| x/A b/O x/B
x/q/A class q/A r/B; x/r/B package r/B O|q/A app| IllegalAccessError| O r/B| x/q/A x/r/B b/O
x/q/A class q/A q/B; x/q/B package q/B O|q/A app| 2| O q/B q/A| x/q/A x/q/B b/O
x/q/A class q/A q/B; y/q/B package q/B O|q/A app| 2| O q/B q/A| x/q/A y/q/B b/O
x/q/A class q/A q/B; b/q/B package q/B O|q/A app| IllegalAccessError| O q/B| x/q/A b/q/B b/O
x/A class A O q/I; x/q/I hidden q/I O|A app| IllegalAccessError| O q/I| x/A b/O x/q/I
x/A class A q/I; x/q/I hidden q/I O|A app| IllegalAccessError| O q/I| x/A x/q/I b/O
x/A class A B; x/B final B O|A app| 2| O B A| x/A x/B b/O
x/A version A O|A app| UnsupportedClassVersionError|| x/A
x/A cut A O|A app| ClassFormatError|| x/A
x/A class B O|A app| NoClassDefFoundError|| x/A
x/A class A B; x/B version B O|A app| UnsupportedClassVersionError|| x/A x/B
x/A class A B; x/B cut B O|A app| ClassFormatError|| x/A x/B
x/A class A B; x/B class C O|A app| NoClassDefFoundError|| x/A x/B
x/A class A O|A app; A app| 1 1| O A| x/A b/O
x/A class A O|A app; A boot| 1 NoClassDefFoundError| O A| x/A b/O
x/A class A O; x/B class B A|A app; B app| 1 2| O A B| x/A b/O x/B
x/A class A O; x/B class B A|B app; A app| 2 1| O A B| x/B x/A b/O
x/A class A B|A app; A app| NoClassDefFoundError NoClassDefFoundError|| x/A
x/A cut A O|A app; A app; A boot| ClassFormatError ClassFormatError NoClassDefFoundError|| x/A
x/A class A B; x/B class B A|A app; B app| ClassCircularityError ClassCircularityError|| x/A x/B
x/A class A O; x/B class B A C|B app; A app; B app| NoClassDefFoundError 1 NoClassDefFoundError| O A| x/B x/A b/O
x/A class A O; x/B class B A C; x/D class D B|D app; A app| NoClassDefFoundError 1| O A| x/D x/B x/A b/O
x/java/lang/Mine class java/lang/Mine O|java/lang/Mine app| NoClassDefFoundError||
b/java/lang/Mine class java/lang/Mine O|java/lang/Mine app| 1| O java/lang/Mine| b/java/lang/Mine b/O
x/A class A O|O app; A app| 0 1| O A| b/O x/A
|A app| NoClassDefFoundError||
|a//b app| NoClassDefFoundError||
|[A app| NoClassDefFoundError||";

fn try_row(alloc: Global, wrong: &mut String, row: &str) -> Result<(), FilesFault> {
    let (_, rest) = row.split_once('|').unwrap_or((row, ""));
    let (_, wanted) = rest.split_once('|').unwrap_or((rest, ""));
    let mut said = String::new(alloc);
    say_row(alloc, &mut said, row)?;
    Ok(tell_wrong(wrong, row, said.as_str(), wanted)?)
}

fn wrong_rows(alloc: Global, rows: &str) -> Result<String, FilesFault> {
    let mut wrong = String::new(alloc);
    for row in rows.lines() {
        try_row(alloc, &mut wrong, row)?;
    }
    Ok(wrong)
}

#[test]
fn each_world_loads_as_the_rules_say(rt: HostRuntime) -> Result<(), Fail> {
    assert_eq!(rt; wrong_rows(rt.alloc(), WORLDS)?.as_str(), "");
    Ok(())
}
