//! The files below a folder of the system.
ghost use Rattle.std.specs.Prelude.{IfErr};
ghost use Rattle.jsa_files.specs.Disk.{IsOfCall};

use crate::disk::{fault_of, missing};
use crate::fault::FilesFault;
use std::alloc::{Allocator, Global};
use std::collections::BTreeMap;
use std::{fs, io};

/// How deep a folder may lie below the one that is listed.
const MAX_NESTED: u32 = 64;

/// A folder that is still to be read, and how deep it lies below the one that is listed.
#[derive(Drop)]
struct Folder {
    path: String,
    nested: u32,
}

/// What a walk has found: the paths of files, and the folders that are still to be read.
#[derive(Drop)]
struct Walk {
    files: BTreeMap<String, ()>,
    folders: Vec<Folder>,
}

/// The paths of the files below the folder, each begun with `FOLDER/`. A folder that isn't there has
/// none. Links are followed, so that a folder may lie in itself: one that lies deeper than
/// `MAX_NESTED` is a fault.
pub(crate) fn files_below<R: std::rt::Files + Alloc>(
    rt: &R,
    alloc: Global,
    folder: &str,
) -> Result<BTreeMap<String, ()>, FilesFault>
    ensures { IfErr result IsOfCall }
{
    let mut walk = Walk {
        files: BTreeMap::new(alloc),
        folders: Vec::new(alloc),
    };
    walk.folders.push(Folder {
        path: String::from_str(alloc, folder)?,
        nested: 0,
    })?;
    for _ in 0..u64::MAX {
        let Some(next) = walk.folders.pop() else {
            return Ok(walk.files);
        };
        read_folder(rt, alloc, &next, &mut walk)?;
    }
    Err(FilesFault::Failed)
}

/// Reads one folder. Where it isn't there, nothing is found.
fn read_folder<R: std::rt::Files + Alloc>(
    rt: &R,
    alloc: Global,
    folder: &Folder,
    walk: &mut Walk,
) -> Result<(), FilesFault>
    ensures { IfErr result IsOfCall }
{
    match fs::read_dir(&rt, folder.path.as_str()) {
        Ok(entries) => {
            for entry in entries {
                let path = path_of(alloc, folder, entry)?;
                add(rt, path, folder.nested, walk)?;
            }
            Ok(())
        }
        Err(e) => skip(e.kind()),
    }
}

/// The path of an entry of the folder.
fn path_of<R: std::rt::Files + Drop, A: Allocator>(
    alloc: Global,
    folder: &Folder,
    entry: io::Result<fs::DirEntry<R, A>>,
) -> Result<String, FilesFault>
    ensures { IfErr result IsOfCall }
{
    match entry {
        Ok(entry) => {
            let mut path = String::from_str(alloc, &folder.path)?;
            path.push_str("/")?;
            path.push_str(entry.file_name())?;
            Ok(path)
        }
        Err(e) => Err(fault_of(e.kind())),
    }
}

/// Adds a file to those that were found, and a folder to those that are still to be read. What is
/// neither, or isn't there any more, is left out.
fn add<R: std::rt::Files>(
    rt: &R,
    path: String,
    nested: u32,
    walk: &mut Walk,
) -> Result<(), FilesFault>
    ensures { IfErr result IsOfCall }
{
    match fs::metadata(rt, path.as_str()) {
        Ok(found) if found.is_dir() => add_folder(path, nested, walk),
        Ok(found) if found.is_file() => {
            walk.files.insert(path, ())?;
            Ok(())
        }
        Ok(_) => Ok(()),
        Err(e) => skip(e.kind()),
    }
}

/// Adds a folder that lies in one that lies so deep.
fn add_folder(path: String, nested: u32, walk: &mut Walk) -> Result<(), FilesFault>
    ensures { IfErr result IsOfCall }
{
    if nested >= MAX_NESTED {
        return Err(FilesFault::Failed);
    }
    walk.folders.push(Folder {
        path,
        nested: nested + 1,
    })?;
    Ok(())
}

/// What isn't there is left out.
fn skip(kind: io::ErrorKind) -> Result<(), FilesFault>
    ensures { IfErr result IsOfCall }
{
    let _none = missing::<()>(kind)?;
    Ok(())
}
