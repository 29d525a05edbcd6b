//! The class files that were read, each of them once.
ghost use Rattle.std.specs.Prelude.{◌≡◌, ◌<◌, ◌++◌, ◌∷◌, [], List, ℕ, Some, None, false, length, slice_get, IfOk, OnOk, OnErr, if◌then◌else◌};
ghost use Rattle.std.specs.Str.{bytes_eq};
ghost use Rattle.std.specs.Option.{option_map};
ghost use Rattle.std.specs.Vec.{vec_len, vec_capacity};
ghost use Rattle.class_record.specs.Loading.{is_among};
ghost use Rattle.class_linker.specs.declared.readings.Held.TheVariants as held;
ghost use Rattle.class_linker.specs.Places.{place_known};
ghost use Rattle.class_linker.specs.Kept.{IsPlaceOf, names_read, with_held};

use class_tree::ClassTree;
use indexmap::IndexMap;
use loader_rules::Loader;
use sqlite_items::Items;
use std::alloc::{AllocError, Global};
use std::marker::Model;
use std::mem::replace;

/// What a class file was read as.
#[derive(Drop)]
pub(crate) enum Held {
    /// As this tree, whose class isn't loaded.
    Tree(ClassTree),
    /// As a tree that the loaded class has now.
    Loaded,
    /// As one of another version than those that are read.
    OtherVersion,
    /// As no class file.
    NotClass,
}

/// A class file that was read.
#[derive(Drop)]
pub(crate) struct Reading {
    /// The name that it was found for.
    pub(crate) name: Items<u8>,
    /// The loader that defines the class.
    pub(crate) loader: Loader,
    /// The number of its folder.
    pub(crate) folder: u32,
    pub(crate) held: Held,
}

fn place_of(places: &IndexMap<Vec<u8>, usize>, name: &[u8]) -> Option<usize>
    ensures { result ≡ place_known places.now name.now }
{
    places.get(name).copied()
}

// Notes the place of a name that has none yet.
fn note(
    places: &mut IndexMap<Vec<u8>, usize>,
    name: Vec<u8>,
    place: usize,
) -> Result<(), AllocError>
    requires { place_known places.old name.items ≡ None }
    ensures ok { OnOk result ((n : List ℕ) → place_known places.new n ≡ (if bytes_eq name.items n then Some place else place_known places.old n)) }
    ensures err { OnErr result ((n : List ℕ) → place_known places.new n ≡ place_known places.old n) }
{
    match places.insert(name, place) {
        Ok(_) => Ok(()),
        Err(_) => Err(AllocError),
    }
}

// Makes room for a reading more, and notes its place last.
fn make_ready(
    alloc: Global,
    list: &mut Vec<Reading>,
    places: &mut IndexMap<Vec<u8>, usize>,
    name: &[u8],
    place: usize,
) -> Result<(), AllocError>
    requires { place_known places.old name.now ≡ None }
    ensures list { list.new.items ≡ list.old.items }
    ensures room { OnOk result (vec_len list.new < vec_capacity list.new) }
    ensures ok { OnOk result ((n : List ℕ) → place_known places.new n ≡ (if bytes_eq name.now n then Some place else place_known places.old n)) }
    ensures err { OnErr result ((n : List ℕ) → place_known places.new n ≡ place_known places.old n) }
{
    list.reserve(1)?;
    let name = Vec::from_slice(alloc, name)?;
    note(places, name, place)
}

// Puts an item at the end, where there is room.
fn put<T: Drop>(list: &mut Vec<T>, item: T)
    requires { vec_len list.old < vec_capacity list.old }
    ensures { list.new.items ≡ list.old.items ++ item ∷ [] }
{
    match list.push(item) {
        Ok(()) => (),
        Err(_) => unreachable!(),
    }
}

/// The class files that were read, in the order of reading, which is that in which their loading began. Each has a name of
/// its own.
///
/// Contracts see them as their list.
#[derive(Drop)]
pub(crate) struct Readings {
    alloc: Global,
    list: Vec<Reading>,
    // The place of a name in the list.
    places: IndexMap<Vec<u8>, usize>,
}

impl Model for Readings {
    ghost use Rattle.std.specs.Prelude.{List};
    ghost use Rattle.class_linker.specs.declared.readings.Reading.{Reading};
    ghost use Rattle.class_linker.specs.Places.{KnowsPlaces};

    ghost Value = { List Reading };

    ghost view = { λ r. r.list.items };

    ghost invariant = { λ r. KnowsPlaces r.places r.list.items };
}

impl Readings {
    pub(crate) fn new(alloc: Global) -> Readings
        ensures { result ≡ [] }
    {
        Readings {
            alloc,
            list: Vec::new(alloc),
            places: IndexMap::new(alloc),
        }
    }

    /// The place of the class file that was read for a name.
    pub(crate) fn find(&self, name: &[u8]) -> Option<usize>
        ensures { IsPlaceOf self.now name.now result }
    {
        place_of(&self.places, name)
    }

    pub(crate) fn at(&self, place: usize) -> &Reading
        requires { place < length self.now }
        ensures { slice_get self.now place ≡ Some result.now }
    {
        &self.list[place]
    }

    /// Adds a class file that was read for a new name, and answers its place.
    pub(crate) fn push(&mut self, reading: Reading) -> Result<usize, AllocError>
        requires { is_among reading.name (names_read self.old) ≡ false }
        ensures ok { IfOk result (λ place. (place ≡ length self.old) × (self.new ≡ self.old ++ reading ∷ [])) }
        ensures err { OnErr result (self.new ≡ self.old) }
    {
        let place = self.list.len();
        let name = reading.name.as_slice();
        make_ready(self.alloc, &mut self.list, &mut self.places, name, place)?;
        put(&mut self.list, reading);
        Ok(place)
    }

    /// Takes the tree that is held at a place for its class, which is loaded then.
    pub(crate) fn take(&mut self, place: usize) -> Held
        requires { place < length self.old }
        ensures taken { option_map (λ r. r.held) (slice_get self.old place) ≡ Some result }
        ensures left { self.new ≡ with_held self.old place held.Loaded }
    {
        let reading = &mut self.list[place];
        replace(&mut reading.held, Held::Loaded)
    }

    /// Gives back what was taken from a place.
    pub(crate) fn put_back(&mut self, place: usize, held: Held)
        requires { place < length self.old }
        ensures { self.new ≡ with_held self.old place held }
    {
        let reading = &mut self.list[place];
        reading.held = held;
    }
}
