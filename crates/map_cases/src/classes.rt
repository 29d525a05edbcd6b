// The classes that are mapped.
use crate::map_tests::FOLDER;
use crate::test_bytes::{archive_of, archive_with, bytes_of, class_file};
use archive_header::{Manifest, read_manifest};
use archive_mapper::map;
use plain_classes::{PlainClass, have_short_texts, write_classes};
use sqlite_items::Items;
use std::alloc::{AllocError, Global};
use test_rows::say_text;

fn file_word(alloc: Global, class: &PlainClass) -> Result<&'static str, AllocError> {
    let name = str::from_utf8(class.name.as_slice()).unwrap_or("no text");
    let file = class_file(alloc, name)?;
    if class.bytes.as_slice() == file.as_slice() {
        Ok(" as its file, ")
    } else {
        Ok(" as another, ")
    }
}

fn say_class(alloc: Global, class: &PlainClass, said: &mut String) -> Result<(), AllocError> {
    say_text(class.name.as_slice(), said)?;
    said.push_str(file_word(alloc, class)?)
}

fn say_each(alloc: Global, classes: &[PlainClass], said: &mut String) -> Result<(), AllocError> {
    for class in classes {
        say_class(alloc, class, said)?;
    }
    Ok(())
}

fn say_mapped(
    alloc: Global,
    bytes: &[u8],
    now: &Manifest,
    said: &mut String,
) -> Result<(), AllocError> {
    match map(alloc, bytes, Some(now)) {
        Ok(classes) => say_each(alloc, classes.as_slice(), said),
        Err(_) => said.push_str("refused"),
    }
}

/// The names that are mapped of an archive of two classes, where its folder is there now, and whether each has its class file.
pub fn say_classes(alloc: Global, words: &str, said: &mut String) -> Result<(), AllocError> {
    let now = bytes_of(alloc, FOLDER)?;
    let Some(now) = read_manifest(alloc, now.as_slice())? else {
        return said.push_str("no manifest");
    };
    let bytes = archive_of(alloc, 2, "", words, FOLDER)?;
    say_mapped(alloc, bytes.as_slice(), &now, said)
}

fn plain_class(alloc: Global, name: &str) -> Result<PlainClass, AllocError> {
    let bytes = class_file(alloc, name)?;
    let bytes = Items::from_vec(bytes);
    Ok(PlainClass {
        name: Items::from_slice(alloc, name.as_bytes())?,
        bytes,
    })
}

fn written(alloc: Global, classes: &[PlainClass]) -> Result<Vec<u8>, AllocError> {
    if have_short_texts(classes) {
        return write_classes(alloc, classes);
    }
    Ok(Vec::new(alloc))
}

fn one_written(alloc: Global) -> Result<Vec<u8>, AllocError> {
    let class = plain_class(alloc, "Main")?;
    written(alloc, &[class])
}

fn again_word(
    alloc: Global,
    classes: &[PlainClass],
    ro: &[u8],
) -> Result<&'static str, AllocError> {
    let again = written(alloc, classes)?;
    if again.len() > 0 && again.as_slice() == ro {
        Ok("again")
    } else {
        Ok("otherwise")
    }
}

fn mapped_word(alloc: Global, bytes: &[u8], ro: &[u8]) -> Result<&'static str, AllocError> {
    match map(alloc, bytes, None) {
        Ok(classes) => again_word(alloc, classes.as_slice(), ro),
        Err(_) => Ok("refused"),
    }
}

/// Whether the classes of an archive whose classes were written are written as those bytes again.
pub fn written_word(alloc: Global) -> Result<&'static str, AllocError> {
    let ro = one_written(alloc)?;
    let manifest = bytes_of(alloc, FOLDER)?;
    let bytes = archive_with(alloc, 1, "", ro.as_slice(), manifest.as_slice())?;
    mapped_word(alloc, bytes.as_slice(), ro.as_slice())
}
