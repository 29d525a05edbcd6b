// The manifests of small stores. A line that begins with `#` says what the rows below it show, and begins a new store, which
// holds an empty file.
use crate::rows::{compare, first_word, parts};
use archive_header::{Folder, Folders, ListedFile, Manifest, manifest};
use jsa_files::{FilesFault, MemoryFiles, Names};
use loader_rules::{Loader, Paths};
use std::alloc::{AllocError, Global};
use std::test::Fail;

fn name_of(fault: FilesFault) -> &'static str {
    match fault {
        FilesFault::Failed => "failed",
        FilesFault::Memory => "memory",
        FilesFault::TooMany(_) => "many",
        FilesFault::TooLarge(_) => "large",
    }
}

fn told(answer: Result<(), FilesFault>) -> &'static str {
    match answer {
        Ok(()) => "done",
        Err(fault) => name_of(fault),
    }
}

fn say_text(bytes: &[u8], said: &mut String) -> Result<(), AllocError> {
    said.push_str(str::from_utf8(bytes).unwrap_or("no text"))
}

// The numbers of a file, each behind a blank: its size, and the first and the last byte of its digest.
fn say_numbers(alloc: Global, file: &ListedFile, said: &mut String) -> Result<(), AllocError> {
    let first = file.sha256[0];
    let last = file.sha256[31];
    let text = format!(in alloc; " {} {first} {last}", file.size)?;
    said.push_str(text.as_str())
}

fn say_file(alloc: Global, file: &ListedFile, said: &mut String) -> Result<(), AllocError> {
    said.push_str(" ")?;
    say_text(file.name.as_slice(), said)?;
    say_numbers(alloc, file, said)
}

fn say_files(alloc: Global, files: &[ListedFile], said: &mut String) -> Result<(), AllocError> {
    for file in files {
        say_file(alloc, file, said)?;
    }
    said.push_str(";")
}

fn say_folder(alloc: Global, folder: &Folder, said: &mut String) -> Result<(), AllocError> {
    if !said.is_empty() {
        said.push_str(" ")?;
    }
    say_text(folder.path.as_slice(), said)?;
    say_files(alloc, folder.files.as_slice(), said)
}

fn say_option(alloc: Global, folder: &Option<Folder>, said: &mut String) -> Result<(), AllocError> {
    match folder {
        Some(folder) => say_folder(alloc, folder, said),
        None => Ok(()),
    }
}

// Each folder: its path, and its files.
fn say_folders(alloc: Global, folders: &Folders, said: &mut String) -> Result<(), AllocError> {
    say_option(alloc, &folders.boot, said)?;
    say_option(alloc, &folders.platform, said)?;
    for folder in folders.app.as_slice() {
        say_folder(alloc, folder, said)?;
    }
    Ok(())
}

fn loader_word(loader: Option<Loader>) -> &'static str {
    match loader {
        Some(Loader::Boot) => "boot;",
        Some(Loader::Platform) => "platform;",
        Some(Loader::App) => "app;",
        None => "none;",
    }
}

// The loaders of the folders 0 to 4.
fn say_loaders(manifest: &Manifest, said: &mut String) -> Result<(), AllocError> {
    for folder in 0..5 {
        said.push_str(loader_word(manifest.loader_of(folder)))?;
    }
    Ok(())
}

// The rows have few folders.
fn push_name(names: &mut Names, name: &str) -> Result<(), AllocError> {
    if names.len() < 9 {
        return names.push(name);
    }
    Err(AllocError)
}

fn names(alloc: Global, words: &str) -> Result<Names, AllocError> {
    let mut names = Names::new(alloc);
    for word in words.split_whitespace() {
        push_name(&mut names, word)?;
    }
    Ok(names)
}

// Boot folders, and behind a bar application folders.
fn paths_of(alloc: Global, words: &str) -> Result<Option<Paths>, AllocError> {
    let (boot, app) = words.split_once('|').unwrap_or((words, ""));
    let boot = names(alloc, boot)?;
    let app = names(alloc, app)?;
    Ok(Paths::new(boot, Names::new(alloc), app))
}

fn say_manifest(
    alloc: Global,
    verb: &str,
    manifest: &Manifest,
    said: &mut String,
) -> Result<(), AllocError> {
    match verb {
        "loaders" => say_loaders(manifest, said),
        _ => say_folders(alloc, manifest.folders(), said),
    }
}

fn say_made(
    alloc: Global,
    files: &mut MemoryFiles,
    verb: &str,
    paths: &Paths,
    said: &mut String,
) -> Result<(), AllocError> {
    match manifest(alloc, paths, files) {
        Ok(manifest) => say_manifest(alloc, verb, &manifest, said),
        Err(fault) => said.push_str(name_of(fault)),
    }
}

fn say_paths(
    alloc: Global,
    files: &mut MemoryFiles,
    verb: &str,
    words: &str,
    said: &mut String,
) -> Result<(), AllocError> {
    match paths_of(alloc, words)? {
        Some(paths) => say_made(alloc, files, verb, &paths, said),
        None => said.push_str("too many folders"),
    }
}

fn with(files: &mut MemoryFiles, paths: &str) -> Result<(), FilesFault> {
    for path in paths.split_whitespace() {
        files.with(path, b"abc")?;
    }
    Ok(())
}

fn fail_word(files: &mut MemoryFiles, call: &str) -> &'static str {
    match call.parse::<u64>() {
        Ok(call) => told(files.fail(call, 0)),
        Err(_) => "no call",
    }
}

fn say(
    alloc: Global,
    files: &mut MemoryFiles,
    call: &str,
    said: &mut String,
) -> Result<(), AllocError> {
    let (verb, words) = first_word(call);
    match verb {
        "abc" => said.push_str(told(with(files, words))),
        "fail" => said.push_str(fail_word(files, words)),
        "loaders" | "manifest" => say_paths(alloc, files, verb, words, said),
        _ => said.push_str("no call"),
    }
}

fn try_call(
    alloc: Global,
    files: &mut MemoryFiles,
    row: &str,
    wrong: &mut String,
) -> Result<(), AllocError> {
    let (call, _) = parts(row);
    let mut said = String::new(alloc);
    say(alloc, files, call, &mut said)?;
    compare(row, said.as_str(), wrong)
}

fn renew(
    alloc: Global,
    files: &mut MemoryFiles,
    row: &str,
    wrong: &mut String,
) -> Result<(), AllocError> {
    *files = MemoryFiles::new(alloc);
    match files.with("x/Empty.class", b"") {
        Ok(()) => Ok(()),
        Err(fault) => compare(row, name_of(fault), wrong),
    }
}

fn try_row(
    alloc: Global,
    files: &mut MemoryFiles,
    row: &str,
    wrong: &mut String,
) -> Result<(), AllocError> {
    if row.starts_with('#') {
        return renew(alloc, files, row, wrong);
    }
    try_call(alloc, files, row, wrong)
}

fn try_rows(alloc: Global, rows: &str, wrong: &mut String) -> Result<(), AllocError> {
    let mut files = MemoryFiles::new(alloc);
    for row in rows.lines() {
        try_row(alloc, &mut files, row, wrong)?;
    }
    Ok(())
}

fn wrong_rows(alloc: Global, rows: &str) -> Result<String, AllocError> {
    let mut wrong = String::new(alloc);
    try_rows(alloc, rows, &mut wrong)?;
    Ok(wrong)
}

// The digests of no bytes and of `abc` are those that FIPS 180-4's examples give.
static ROWS: &str = "# each folder is listed with its class files
abc x/p/q/B.class x/p/A.class x/p/A.txt x/A.classes xy/C.class b/java/lang/Object.class z/D.class = done
manifest b|x y = b java/lang/Object.class 3 186 173; x Empty.class 0 227 85 p/A.class 3 186 173 p/q/B.class 3 186 173; y;
# each folder has its loader
loaders b|x y = boot;none;app;app;none;
# a list that fails
fail 1 = done
manifest |x = failed
# a digest that fails
fail 2 = done
manifest |x = failed
# no other call is made
fail 3 = done
manifest |x = x Empty.class 0 227 85;";

#[test]
fn manifests_list_each_folder_with_its_class_files_and_fail_with_the_store(
    rt: HostRuntime,
) -> Result<(), Fail> {
    assert_eq!(rt; wrong_rows(rt.alloc(), ROWS)?.as_str(), "");
    Ok(())
}
