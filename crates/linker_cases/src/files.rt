// Stores of class files that are written as texts. In them `O` stands for java/lang/Object.
use class_linker::Fresh;
use jsa_files::{FilesFault, MemoryFiles, Names};
use loader_rules::Paths;
use std::alloc::{AllocError, Global};

fn one(alloc: Global, folder: &str) -> Result<Names, AllocError> {
    let mut names = Names::new(alloc);
    names.push(folder)?;
    Ok(names)
}

fn two(alloc: Global) -> Result<Names, AllocError> {
    let mut names = Names::new(alloc);
    names.push("x")?;
    names.push("y")?;
    Ok(names)
}

// One boot folder, one platform folder and two application folders.
fn four_folders(alloc: Global) -> Result<Option<Paths>, AllocError> {
    let boot = one(alloc, "b")?;
    let platform = one(alloc, "p")?;
    Ok(Paths::new(boot, platform, two(alloc)?))
}

/// The classes of a store. None is loaded yet.
pub fn classes_of(alloc: Global, files: MemoryFiles) -> Result<Fresh<MemoryFiles>, FilesFault> {
    match four_folders(alloc)? {
        Some(paths) => Ok(Fresh::new(alloc, paths, files)),
        None => Err(FilesFault::Failed),
    }
}

/// The name that a word stands for.
pub fn whole(name: &str) -> &str {
    if name == "O" {
        return "java/lang/Object";
    }
    name
}

fn put_u2(bytes: &mut Vec<u8>, number: u16) -> Result<(), AllocError> {
    bytes.extend_from_slice(&number.to_be_bytes())
}

// A Utf8 and the Class that names it.
fn put_class(bytes: &mut Vec<u8>, index: u16, name: &str) -> Result<(), AllocError> {
    let name = whole(name).as_bytes();
    bytes.push(1)?;
    put_u2(bytes, u16::try_from(name.len()).unwrap_or(u16::MAX))?;
    bytes.extend_from_slice(name)?;
    bytes.push(7)?;
    put_u2(bytes, index)
}

fn flags_of(kind: &str) -> u16 {
    match kind {
        "package" => 0x20,
        "interface" => 0x601,
        "hidden" => 0x600,
        "final" => 0x31,
        _ => 0x21,
    }
}

fn major_of(kind: &str) -> u16 {
    if kind == "version" {
        return 53;
    }
    52
}

fn count_of(words: &str) -> u16 {
    u16::try_from(words.split_whitespace().count()).unwrap_or(u16::MAX)
}

// The count of the pool, and its entries: of the class, its superclass and its superinterfaces.
fn put_pool(
    bytes: &mut Vec<u8>,
    name: &str,
    sup: &str,
    interfaces: &str,
) -> Result<(), AllocError> {
    put_u2(
        bytes,
        count_of(interfaces).saturating_mul(2).saturating_add(5),
    )?;
    put_class(bytes, 1, name)?;
    put_class(bytes, 3, sup)?;
    let mut index = 5u16;
    for interface in interfaces.split_whitespace() {
        put_class(bytes, index, interface)?;
        index = index.saturating_add(2);
    }
    Ok(())
}

// What stands behind the pool.
fn put_rest(
    bytes: &mut Vec<u8>,
    kind: &str,
    sup: &str,
    interfaces: &str,
) -> Result<(), AllocError> {
    put_u2(bytes, flags_of(kind))?;
    put_u2(bytes, 2)?;
    put_u2(bytes, if sup == "-" { 0 } else { 4 })?;
    put_u2(bytes, count_of(interfaces))?;
    let mut index = 6u16;
    for _ in interfaces.split_whitespace() {
        put_u2(bytes, index)?;
        index = index.saturating_add(2);
    }
    bytes.extend_from_slice(&[0, 0, 0, 0, 0, 0])
}

// A class file without members, written as its kind, the name inside, its superclass and its superinterfaces. A class that
// has no superclass has `-` in its place.
fn put_bytes(bytes: &mut Vec<u8>, text: &str) -> Result<(), AllocError> {
    let (kind, rest) = text.split_once(' ').unwrap_or((text, ""));
    let (name, rest) = rest.split_once(' ').unwrap_or((rest, ""));
    let (sup, interfaces) = rest.split_once(' ').unwrap_or((rest, ""));
    bytes.extend_from_slice(&[0xCA, 0xFE, 0xBA, 0xBE, 0, 0])?;
    put_u2(bytes, major_of(kind))?;
    put_pool(bytes, name, sup, interfaces)?;
    put_rest(bytes, kind, sup, interfaces)?;
    if kind == "cut" {
        let _last = bytes.pop();
    }
    Ok(())
}

/// Puts in a class file that is written as its path, its kind, the name inside, its superclass and its superinterfaces.
pub fn put_file(alloc: Global, files: &mut MemoryFiles, text: &str) -> Result<(), FilesFault> {
    let (path, class) = text.split_once(' ').unwrap_or((text, ""));
    let mut bytes = Vec::new(alloc);
    put_bytes(&mut bytes, class)?;
    let path = format!(in alloc; "{path}.class")?;
    files.with(path.as_str(), &bytes)
}

/// Puts in these class files, and java/lang/Object in the boot folder.
pub fn put_files(alloc: Global, files: &mut MemoryFiles, texts: &str) -> Result<(), FilesFault> {
    put_file(alloc, files, "b/java/lang/Object class O -")?;
    for text in texts.split("; ") {
        if !text.is_empty() {
            put_file(alloc, files, text)?;
        }
    }
    Ok(())
}
