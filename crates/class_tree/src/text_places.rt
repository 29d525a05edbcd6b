//! The texts of a constant pool, so that two of them are compared by two numbers.
ghost use Rattle.std.specs.Prelude.{◌≡◌, IfOk, OnOk, ℕ, List, Some, None, if◌then◌else◌};
ghost use Rattle.std.specs.Option.{option_or};
ghost use Rattle.std.specs.Str.{bytes_eq};
ghost use Rattle.class_tree.specs.Links.{text_in, holds};
ghost use Rattle.class_tree.specs.TextPlaces as spec;

use crate::constant_pool::PoolEntry;
use crate::tested_pool::text_of;
use sqlite_items::at;
use std::alloc::{AllocError, Global};
use std::collections::BTreeMap;
use std::marker::Model;

// The place of a text, which is the next one where the text has none yet.
fn text_place<'a>(
    known: &mut BTreeMap<&'a [u8], usize>,
    text: &'a [u8],
    next: usize,
) -> Result<usize, AllocError>
    ensures place { IfOk result (λ place. Some place ≡ option_or (spec.known_at known.old text.now) (Some next)) }
    ensures known { OnOk result ((t : List ℕ) → spec.known_at known.new t ≡ option_or (spec.known_at known.old t) (if bytes_eq t text.now then Some next else None)) }
{
    if let Some(place) = known.get(text) {
        return Ok(*place);
    }
    match known.insert(text, next) {
        Ok(_) => Ok(next),
        Err(_) => Err(AllocError),
    }
}

// The place of the text of an entry.
fn entry_place<'a>(
    known: &mut BTreeMap<&'a [u8], usize>,
    entry: &'a PoolEntry,
    next: usize,
) -> Result<Option<usize>, AllocError>
    ensures place { IfOk result (λ place. place ≡ spec.place_among (spec.known_at known.old) next (text_in (Some entry.now))) }
    ensures known { OnOk result ((t : List ℕ) → spec.known_at known.new t ≡ option_or (spec.known_at known.old t) (if holds (text_in (Some entry.now)) (bytes_eq t) then Some next else None)) }
{
    let Some(text) = text_of(entry) else {
        return Ok(None);
    };
    match text_place(known, text, next) {
        Ok(place) => Ok(Some(place)),
        Err(_) => Err(AllocError),
    }
}

fn all_places(alloc: Global, entries: &[PoolEntry]) -> Result<Vec<Option<usize>>, AllocError>
    ensures { IfOk result (λ places. places.items ≡ spec.all_places entries.now) }
{
    let mut known = BTreeMap::new(alloc);
    let mut places = Vec::new(alloc);
    let mut rest = entries;
    loop {
        let [entry, more @ ..] = rest else {
            return Ok(places);
        };
        let Ok(place) = entry_place(&mut known, entry, places.len()) else {
            return Err(AllocError);
        };
        let Ok(()) = places.push(place) else {
            return Err(AllocError);
        };
        rest = more;
    }
}

/// The entries of a constant pool, from index 0 on, with the *place* of each text: the index of the first Utf8 that has
/// the same bytes. Two texts are equal exactly where their places are, so however many entries name a text, its bytes
/// are compared once.
///
/// Contracts see it as the list of the entries.
#[derive(Drop)]
pub(crate) struct TextPlaces<'a> {
    entries: &'a [PoolEntry],
    places: Vec<Option<usize>>,
}

impl<'a> Model for TextPlaces<'a> {
    ghost use Rattle.std.specs.Prelude.{◌≡◌, List};
    ghost use Rattle.class_tree.specs.declared.constant_pool.PoolEntry.{PoolEntry};
    ghost use Rattle.class_tree.specs.TextPlaces.{all_places};

    ghost Value = { List PoolEntry };

    ghost view = { λ p. p.entries.now };

    ghost invariant = { λ p. p.places.items ≡ all_places p.entries.now };
}

impl<'a> TextPlaces<'a> {
    pub(crate) fn new(alloc: Global, entries: &'a [PoolEntry]) -> Result<TextPlaces<'a>, AllocError>
        ensures { IfOk result (λ places. places ≡ entries.now) }
    {
        let places = all_places(alloc, entries)?;
        Ok(TextPlaces { entries, places })
    }

    /// The place of the text at an index, and `None` where no Utf8 stands there.
    pub(crate) fn place(&self, index: u16) -> Option<usize>
        ensures { result ≡ spec.place_at self.now index }
    {
        match at(&self.places, index as usize) {
            Some(place) => *place,
            None => None,
        }
    }

    /// The place of the text that the Class at an index names, and `None` where no Class stands there.
    pub(crate) fn class_place(&self, index: u16) -> Option<usize>
        ensures { result ≡ spec.class_key self.now index }
    {
        match at(self.entries, index as usize) {
            Some(PoolEntry::Class(name)) => self.place(*name),
            _ => None,
        }
    }

    /// The places of a name and of a descriptor, where both indices have a text.
    pub(crate) fn member_places(&self, name: u16, desc: u16) -> Option<(usize, usize)>
        ensures { result ≡ spec.member_key self.now (name, desc) }
    {
        let Some(name) = self.place(name) else {
            return None;
        };
        let Some(desc) = self.place(desc) else {
            return None;
        };
        Some((name, desc))
    }
}
