//! Reads the classes that a dump lists.
ghost use Rattle.std.specs.Prelude.{◌≡◌, IfOk, IfErr, IsErrOf};
ghost use Rattle.jsa_files.specs.Told.{contents_told};
ghost use Rattle.jsa.specs.Steps.{texts_of, IsClassIn, HasAtPath, HasAs, GathersAs, subject_at};
ghost use Rattle.jsa.specs.Command.{CountsReads};

use crate::ended::Ended;
use crate::faults::end_of;
use jsa_files::Files;
use jsa_names::path_of;
use plain_classes::{PlainClass, is_named};
use sqlite_items::Items;
use std::alloc::{AllocError, Global};

/// How a dump ended, and the place of the listed name that it is about, where it is about one.
#[derive(Clone, Copy)]
pub(crate) struct DumpEnd {
    pub(crate) ended: Ended,
    pub(crate) place: usize,
}

// The name with its class file.
fn plain_class(alloc: Global, name: &[u8], bytes: Vec<u8>) -> Result<PlainClass, AllocError>
    ensures name { IfOk result (λ class. class.name ≡ name.now) }
    ensures bytes { IfOk result (λ class. class.bytes ≡ bytes.items) }
{
    let name = Items::from_slice(alloc, name)?;
    Ok(PlainClass {
        name,
        bytes: Items::from_vec(bytes),
    })
}

// The class in a file that was found, where it has this name.
fn class_in_file(alloc: Global, name: &[u8], bytes: Vec<u8>) -> Result<PlainClass, Ended>
    ensures { IsClassIn bytes.items name.now result }
{
    match is_named(alloc, bytes.as_slice(), name) {
        Ok(true) => plain_class(alloc, name, bytes).map_err(|_| Ended::Memory),
        Ok(false) => Err(Ended::Unsupported),
        Err(_) => Err(Ended::Memory),
    }
}

// The class in the file at a path.
fn class_at<F: Files>(
    alloc: Global,
    name: &[u8],
    path: &str,
    files: &mut F,
) -> Result<PlainClass, Ended>
    ensures has { HasAtPath (contents_told (F.store files.old)) path.now name.now result }
    ensures contents { contents_told (F.store files.new) ≡ contents_told (F.store files.old) }
    ensures counts { IfOk result (λ class. F.read_faults files.new ≡ F.read_faults files.old) }
    ensures read_fault { IfErr result (λ ended. CountsReads (F.read_faults files.old) (F.read_faults files.new) ended) }
    ensures writes { F.write_faults files.new ≡ F.write_faults files.old }
    ensures read_can_fail { IsErrOf result Ended.ReadFault → F.can_fail files.old }
    ensures files_stay { F.can_fail files.new → F.can_fail files.old }
{
    match files.read(alloc, path) {
        Ok(Some(bytes)) => class_in_file(alloc, name, bytes),
        Ok(None) => Err(Ended::Unsupported),
        Err(fault) => Err(end_of(fault)),
    }
}

// The class of a name in the folder.
fn class_of<F: Files>(
    alloc: Global,
    folder: &str,
    name: &[u8],
    files: &mut F,
) -> Result<PlainClass, Ended>
    ensures has { HasAs (contents_told (F.store files.old)) folder.now name.now result }
    ensures contents { contents_told (F.store files.new) ≡ contents_told (F.store files.old) }
    ensures counts { IfOk result (λ class. F.read_faults files.new ≡ F.read_faults files.old) }
    ensures read_fault { IfErr result (λ ended. CountsReads (F.read_faults files.old) (F.read_faults files.new) ended) }
    ensures writes { F.write_faults files.new ≡ F.write_faults files.old }
    ensures read_can_fail { IsErrOf result Ended.ReadFault → F.can_fail files.old }
    ensures files_stay { F.can_fail files.new → F.can_fail files.old }
{
    match path_of(alloc, folder, name) {
        Ok(Some(path)) => class_at(alloc, name, path.as_str(), files),
        Ok(None) => Err(Ended::Unsupported),
        Err(_) => Err(Ended::Memory),
    }
}

/// The name at a place, or no bytes where there is none.
pub(crate) fn subject_at(names: &[Vec<u8>], place: usize) -> &[u8]
    ensures { result.now ≡ subject_at (texts_of names.now) place }
{
    match names.get(place) {
        Some(name) => name.as_slice(),
        None => b"",
    }
}

/// The classes of the names, in their order: each name's file in the folder, where it has a class with this name inside.
/// The first name for which that doesn't hold ends it: `Unsupported` where there is no such file, or it has no such class,
/// and a fault of the store as `end_of` has it.
pub(crate) fn gather<F: Files>(
    alloc: Global,
    folder: &str,
    names: &[Vec<u8>],
    files: &mut F,
) -> Result<Items<PlainClass>, DumpEnd>
    ensures gathers { GathersAs (contents_told (F.store files.old)) folder.now (texts_of names.now) result }
    ensures contents { contents_told (F.store files.new) ≡ contents_told (F.store files.old) }
    ensures counts { IfOk result (λ classes. F.read_faults files.new ≡ F.read_faults files.old) }
    ensures read_fault { IfErr result (λ stop. CountsReads (F.read_faults files.old) (F.read_faults files.new) stop.ended) }
    ensures writes { F.write_faults files.new ≡ F.write_faults files.old }
    ensures read_can_fail { IfErr result (λ stop. stop.ended ≡ Ended.ReadFault → F.can_fail files.old) }
    ensures files_stay { F.can_fail files.new → F.can_fail files.old }
{
    let mut classes = Items::new(alloc);
    for place in 0..names.len() {
        match class_of(alloc, folder, subject_at(names, place), files) {
            Ok(class) => {
                let Ok(()) = classes.push(class) else {
                    return Err(DumpEnd {
                        ended: Ended::Memory,
                        place,
                    });
                };
            }
            Err(ended) => return Err(DumpEnd { ended, place }),
        }
    }
    Ok(classes)
}
