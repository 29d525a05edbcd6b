// What loaders find in small stores, how many folders there may be, and which classes share a package.
use crate::rows::wrong_rows;
use crate::test_bytes::{are_words, bytes_of};
use jsa_files::{FilesFault, MemoryFiles, Names};
use loader_rules::{Found, Loader, Paths, find, same_package};
use std::alloc::{AllocError, Global};
use std::test::Fail;
use test_rows::{first_word, say_number, say_text, word_of};

// The rows have few folders.
fn push_name(names: &mut Names, name: &str) -> Result<(), AllocError> {
    if names.len() < 9 {
        return names.push(name);
    }
    Err(AllocError)
}

fn names(alloc: Global, words: &str) -> Result<Names, AllocError> {
    let mut names = Names::new(alloc);
    for word in words.split_whitespace() {
        push_name(&mut names, word)?;
    }
    Ok(names)
}

// The folders of each loader, between bars.
fn paths_of(alloc: Global, words: &str) -> Result<Option<Paths>, AllocError> {
    let (boot, words) = words.split_once('|').unwrap_or((words, ""));
    let (platform, app) = words.split_once('|').unwrap_or((words, ""));
    let boot = names(alloc, boot)?;
    let platform = names(alloc, platform)?;
    let app = names(alloc, app)?;
    Ok(Paths::new(boot, platform, app))
}

fn say_paths(alloc: Global, words: &str, said: &mut String) -> Result<(), AllocError> {
    let taken = paths_of(alloc, words)?.is_some();
    said.push_str(if taken { "taken" } else { "too many" })
}

fn loader(word: &str) -> Option<Loader> {
    match word {
        "boot" => Some(Loader::Boot),
        "platform" => Some(Loader::Platform),
        "app" => Some(Loader::App),
        _ => None,
    }
}

fn loader_word(loader: Loader) -> &'static str {
    match loader {
        Loader::Boot => "boot ",
        Loader::Platform => "platform ",
        Loader::App => "app ",
    }
}

fn fault_word(fault: FilesFault) -> &'static str {
    match fault {
        FilesFault::Failed => "failed",
        FilesFault::Memory => "memory",
        _ => "another fault",
    }
}

// The loader and the number of the folder that has the file, and what the file holds.
fn say_file(alloc: Global, found: &Found, said: &mut String) -> Result<(), AllocError> {
    said.push_str(loader_word(found.loader))?;
    say_number(alloc, u64::from(found.folder), said)?;
    said.push_str(" ")?;
    say_text(found.bytes.as_slice(), said)
}

fn say_found(
    alloc: Global,
    found: &Result<Option<Found>, FilesFault>,
    said: &mut String,
) -> Result<(), AllocError> {
    match found {
        Ok(Some(found)) => say_file(alloc, found, said),
        Ok(None) => said.push_str("none"),
        Err(fault) => said.push_str(fault_word(*fault)),
    }
}

// Each path holds its own bytes, and the call of this number fails.
fn put_files(files: &mut MemoryFiles, paths: &str, fails: u64) -> Result<(), FilesFault> {
    for path in paths.split_whitespace() {
        files.with(path, path.as_bytes())?;
    }
    files.fail(fails, 0)
}

// Looks for a name from a loader, over one boot, one platform and three application folders.
fn say_find(
    alloc: Global,
    files: &mut MemoryFiles,
    name: &[u8],
    from: Loader,
    said: &mut String,
) -> Result<(), AllocError> {
    let Some(paths) = paths_of(alloc, "b|p|x y z")? else {
        return said.push_str("too many folders");
    };
    say_found(alloc, &find(alloc, &paths, files, name, from), said)
}

fn say_name(
    alloc: Global,
    files: &mut MemoryFiles,
    name: &str,
    from: &str,
    said: &mut String,
) -> Result<(), AllocError> {
    let Some(from) = loader(from) else {
        return said.push_str("no loader");
    };
    if !are_words(name) {
        return said.push_str("no name");
    }
    let name = bytes_of(alloc, name)?;
    say_find(alloc, files, name.as_slice(), from, said)
}

fn say_reads(alloc: Global, files: &MemoryFiles, said: &mut String) -> Result<(), AllocError> {
    said.push_str(", read ")?;
    say_number(alloc, files.reads().len() as u64, said)
}

// A name, a loader and the paths of a store: what is found, and how many files were read.
fn say_search(
    alloc: Global,
    files: &mut MemoryFiles,
    words: &str,
    said: &mut String,
) -> Result<(), AllocError> {
    let (name, words) = words.split_once('|').unwrap_or((words, ""));
    let (from, _) = words.split_once('|').unwrap_or((words, ""));
    say_name(alloc, files, name, from, said)?;
    say_reads(alloc, files, said)
}

// A search in a new store, whose call of this number fails.
fn say_store(alloc: Global, fails: u64, words: &str, said: &mut String) -> Result<(), AllocError> {
    let mut files = MemoryFiles::new(alloc);
    let (_, paths) = words.rsplit_once('|').unwrap_or((words, ""));
    match put_files(&mut files, paths, fails) {
        Ok(()) => say_search(alloc, &mut files, words, said),
        Err(fault) => said.push_str(fault_word(fault)),
    }
}

// Two classes, each as its name and its loader.
fn package_word(words: &str) -> &'static str {
    let (a, words) = first_word(words);
    let (la, words) = first_word(words);
    let (b, lb) = first_word(words);
    match (loader(la), loader(lb)) {
        (Some(la), Some(lb)) => word_of(same_package(a.as_bytes(), la, b.as_bytes(), lb)),
        _ => "no loader",
    }
}

pub fn say(alloc: Global, call: &str, said: &mut String) -> Result<(), AllocError> {
    let (verb, words) = first_word(call);
    match verb {
        "find" => say_store(alloc, 0, words, said),
        "third-fails" => say_store(alloc, 3, words, said),
        "paths" => say_paths(alloc, words, said),
        "package" => said.push_str(package_word(words)),
        _ => said.push_str("no call"),
    }
}

// Each name is found in the first folder that is asked and has it; a name that no path can have (no bytes, bytes that are no
// text, U+0000, half of a pair) nowhere; a failed read ends the search, and the found file alone is read; there is one boot and
// one platform folder at most; a package is one of a loader.
static ROWS: &str = "find Mine|app|y/Mine.class = app 3 y/Mine.class, read 1
find A|boot|b/A.class p/A.class x/A.class = boot 0 b/A.class, read 1
find A|platform|b/A.class p/A.class x/A.class = boot 0 b/A.class, read 1
find A|app|b/A.class p/A.class x/A.class = boot 0 b/A.class, read 1
find A|platform|p/A.class x/A.class = platform 1 p/A.class, read 1
find A|app|p/A.class x/A.class = platform 1 p/A.class, read 1
find A|app|x/A.class y/A.class z/A.class = app 2 x/A.class, read 1
find A|app|y/A.class z/A.class = app 3 y/A.class, read 1
find A|app|z/A.class = app 4 z/A.class, read 1
find q/A|app|A.class x/A.class x/q/A.class = app 2 x/q/A.class, read 1
find java/lang/Mine|app|b/java/lang/Mine.class x/java/lang/Mine.class = boot 0 b/java/lang/Mine.class, read 1
find java/lang/Mine|boot|b/java/lang/Mine.class = boot 0 b/java/lang/Mine.class, read 1
find java|app|x/java.class = app 2 x/java.class, read 1
find javax/A|app|x/javax/A.class = app 2 x/javax/A.class, read 1
find Java/A|platform|p/Java/A.class = platform 1 p/Java/A.class, read 1
find A|app| = none, read 0
find A|app|A.class x/B.class x/A.classes w/A.class = none, read 0
find A|boot|p/A.class x/A.class = none, read 0
find A|platform|x/A.class y/A.class = none, read 0
find java/lang/Mine|app|x/java/lang/Mine.class = none, read 0
find java/lang/Mine|app|p/java/lang/Mine.class y/java/lang/Mine.class = none, read 0
find java/lang/Mine|platform|p/java/lang/Mine.class = none, read 0
find a//b|app|x/a//b.class = none, read 0
find /A|app|x//A.class = none, read 0
find a.b|app|x/a.b.class = none, read 0
find a;b|app|x/a;b.class = none, read 0
find [A|app|x/[A.class = none, read 0
find |app|x/.class = none, read 0
find \\ff|app|x/.class = none, read 0
find \\c0.80|app|x/.class = none, read 0
find \\ed.a0.80|app|x/.class = none, read 0
third-fails A|app|x/A.class y/A.class = failed, read 0
find A|app|y/A.class z/A.class = app 3 y/A.class, read 1
paths x y z|| = too many
paths |x y z| = too many
paths ||x y z = taken
package p/A app p/B app = yes
package A boot B boot = yes
package p/q/A platform p/q/A$B platform = yes
package p/A app p/B platform = no
package A boot A app = no
package p/A app p/q/A app = no
package p/q/A app p/A app = no
package p/A app pq/A app = no
package A app p/A app = no";

#[test]
fn loaders_find_files_in_their_order_and_have_packages_of_their_own(
    rt: HostRuntime,
) -> Result<(), Fail> {
    assert_eq!(rt; wrong_rows(rt.alloc(), "loaders", ROWS)?.as_str(), "");
    Ok(())
}
