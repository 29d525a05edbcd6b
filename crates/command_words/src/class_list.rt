//! Reads the names of a class list.
ghost use Rattle.std.specs.Prelude.{◌≡◌, IfOk, OnOk, map, ◌++◌, ◌∷◌, []};
ghost use Rattle.std.specs.Option.{option_copied};
ghost use Rattle.command_words.specs.ClassList.{is_comment, before_space, name_of, listed_name, listed_once, added};

use bstr::ByteSlice;
use indexmap::IndexSet;
use std::alloc::{AllocError, Global};

fn is_comment(line: &[u8]) -> bool
    ensures { result ≡ is_comment line.now }
{
    let [first, ..] = line else {
        return false;
    };
    *first == b'#' || *first == b'@'
}

// What stands before the first space of a line.
fn before_space(line: &[u8]) -> &[u8]
    ensures { result.now ≡ before_space line.now }
{
    match line.find_byte(b' ') {
        Some(at) => &line[..at],
        None => line,
    }
}

// The name that a line lists.
fn listed_name(line: &[u8]) -> Option<&[u8]>
    ensures { option_copied result ≡ listed_name line.now }
{
    if is_comment(line) {
        return None;
    }
    let name = before_space(line);
    if name.is_empty() {
        return None;
    }
    Some(name)
}

// Adds the name of a line behind the others, where it is none of them.
fn add_line<'a>(names: &mut IndexSet<&'a [u8]>, line: &'a [u8]) -> Result<(), AllocError>
    ensures { OnOk result (map (λ n. n.now) names.new.keys ≡ added (map (λ n. n.now) names.old.keys) (listed_name line.now)) }
{
    let Some(name) = listed_name(line) else {
        return Ok(());
    };
    match names.insert(name) {
        Ok(_) => Ok(()),
        Err(_) => Err(AllocError),
    }
}

/// The names in a class list, each once, in the order in which they are listed first. The lines end in LF or CR LF; the
/// last may lack its end, and a CR that isn't before LF is part of its line. A line that begins with `#` or `@` is
/// skipped. Every other line is cut at its first space, and one that is then empty is skipped.
pub fn read_list(alloc: Global, bytes: &[u8]) -> Result<Vec<Vec<u8>>, AllocError>
    ensures { IfOk result (λ names. map (λ n. n.items) names.items ≡ listed_once bytes.now) }
{
    let names = distinct_names(alloc, bytes)?;
    owned_names(alloc, &names)
}

// The lines' names, each once.
fn distinct_names<'a>(alloc: Global, bytes: &'a [u8]) -> Result<IndexSet<&'a [u8]>, AllocError>
    ensures { IfOk result (λ names. map (λ n. n.now) names.keys ≡ listed_once bytes.now) }
{
    let mut names = IndexSet::new(alloc);
    for line in bytes.lines() {
        add_line(&mut names, line)?;
    }
    Ok(names)
}

fn push_name(names: &mut Vec<Vec<u8>>, alloc: Global, name: &[u8]) -> Result<(), AllocError>
    ensures { OnOk result (map (λ n. n.items) names.new.items ≡ map (λ n. n.items) names.old.items ++ name.now ∷ []) }
{
    let name = Vec::from_slice(alloc, name)?;
    match names.push(name) {
        Ok(()) => Ok(()),
        Err(_) => Err(AllocError),
    }
}

fn owned_names(alloc: Global, names: &IndexSet<&[u8]>) -> Result<Vec<Vec<u8>>, AllocError>
    ensures { IfOk result (λ own. map (λ n. n.items) own.items ≡ map (λ n. n.now) names.now.keys) }
{
    let mut own = Vec::new(alloc);
    for name in names {
        push_name(&mut own, alloc, name)?;
    }
    Ok(own)
}
