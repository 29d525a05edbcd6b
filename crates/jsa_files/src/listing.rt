//! Which class files lie below a folder.
ghost use Rattle.std.specs.Prelude.{◌≡◌, ◌<◌, ◌≤◌, ◌^◌, ◌∷◌, ◌++◌, [], length, IfOk, IfErr, OnOk, IsTrue, MatchOption, codes, nat_eq, true, false, drop};
ghost use Rattle.std.specs.Option.{option_map, option_to_list};
ghost use Rattle.std.specs.List.{starts_with, filter_map};
ghost use Rattle.std.specs.String.{string_bytes, string_cmp};
ghost use Rattle.std.specs.BTreeMap.{keys, IsOrdered};
ghost use Rattle.jsa_files.specs.Memory.{paths_of};
ghost use Rattle.jsa_files.specs.Listing.{Lists, ListsFew, Ascend, AllEndInClass, classes_below, name_behind, ends_in_class, IsOfList};

use crate::MAX_NAMES;
use crate::fault::FilesFault;
use crate::names::Names;
use std::alloc::{AllocError, Global};
use std::collections::BTreeMap;

/// The names of the class files that lie below the folder, of a map whose keys are paths.
pub(crate) fn class_names<V>(
    alloc: Global,
    files: &BTreeMap<String, V>,
    folder: &str,
) -> Result<Names, FilesFault>
    ensures answer { Lists (classes_below (paths_of (keys files.now)) folder.now) result }
    ensures number { ListsFew result }
    ensures order { IfOk result Ascend }
    ensures classes { IfOk result AllEndInClass }
    ensures fault { IfErr result IsOfList }
{
    let front = front_of(alloc, folder)?;
    let count = count_behind(files, &front);
    if count > MAX_NAMES {
        return Err(FilesFault::TooMany(count as u64));
    }
    Ok(names_behind(alloc, files, &front)?)
}

/// A law: the paths of a map ascend.
pub(crate) fn ascends<V>(files: &BTreeMap<String, V>)
    ensures { IsOrdered string_cmp files.now }
{
    let _paths = files.keys();
}

/// The folder with the slash that follows it in the paths below it.
fn front_of(alloc: Global, folder: &str) -> Result<String, AllocError>
    ensures { IfOk result (λ front. string_bytes front ≡ folder.now ++ codes "/") }
{
    let mut front = String::from_str(alloc, folder)?;
    front.push_str("/")?;
    Ok(front)
}

/// How many class files have a path that begins with the front.
fn count_behind<V>(files: &BTreeMap<String, V>, front: &str) -> usize
    ensures { result ≡ length (filter_map (name_behind front.now) (paths_of (keys files.now))) }
{
    let mut count = 0;
    for file in files.keys() {
        count += count_one(file, front);
    }
    count
}

/// One for a class file whose path begins with the front, and else none.
fn count_one(path: &str, front: &str) -> usize
    ensures value { result ≡ length (option_to_list (name_behind front.now path.now)) }
    ensures bound { result ≤ 1 }
{
    match name_behind(path, front) {
        Some(_) => 1,
        None => 0,
    }
}

/// The names of the class files whose path begins with the front.
fn names_behind<V>(
    alloc: Global,
    files: &BTreeMap<String, V>,
    front: &str,
) -> Result<Names, AllocError>
    requires { length (filter_map (name_behind front.now) (paths_of (keys files.now))) < 2 ^ 31 }
    ensures names { IfOk result (λ names. names
        ≡ filter_map (name_behind front.now) (paths_of (keys files.now))) }
    ensures order { IfOk result Ascend }
    ensures classes { IfOk result AllEndInClass }
{
    let mut names = Names::new(alloc);
    for path in files.keys() {
        push_behind(&mut names, path, front)?;
    }
    Ok(names)
}

/// Appends the name of a class file whose path begins with the front.
fn push_behind(names: &mut Names, path: &str, front: &str) -> Result<(), AllocError>
    requires { length names.old < 2 ^ 31 }
    ensures { OnOk result (names.new
        ≡ names.old ++ option_to_list (name_behind front.now path.now)) }
{
    match name_behind(path, front) {
        Some(name) => names.push(name),
        None => Ok(()),
    }
}

/// The rest of a path that begins with the front and ends in `.class`.
fn name_behind<'a>(path: &'a str, front: &str) -> Option<&'a str>
    ensures { option_map (λ name. name.now) result ≡ name_behind front.now path.now }
{
    match behind(path, front) {
        Some(name) if ends_in_class(name) => Some(name),
        _ => None,
    }
}

fn ends_in_class(name: &str) -> bool
    ensures { result ≡ ends_in_class name.now }
{
    name.as_bytes().ends_with(b".class")
}

/// The rest of a path that begins with the front.
fn behind<'a>(path: &'a str, front: &str) -> Option<&'a str>
    ensures { MatchOption result (starts_with nat_eq path.now front.now ≡ false)
        (λ rest. (starts_with nat_eq path.now front.now ≡ true)
        × (rest.now ≡ drop (length front.now) path.now)) }
{
    path.strip_prefix(front)
}
