//! The classes that a run has loaded.
ghost use Rattle.std.specs.Prelude.{◌≡◌, ◌==◌, ◌<◌, ◌≤◌, ℕ, true, false, if◌then◌else◌, length, Some, slice_get, slice_set};
ghost use Rattle.std.specs.Vec.{vec_len};
ghost use Rattle.class_record.specs.declared.fault.TheConstants.{MAX_LOADED};
ghost use Rattle.class_record.specs.Facts.{names_of, pool_of};
ghost use Rattle.class_record.specs.Ancestors.{newest};
ghost use Rattle.class_record.specs.Built.{AreBuilt};
ghost use Rattle.class_record.specs.Calls.{IsClassNamed};
ghost use Rattle.class_record.specs.Laws.{AreDistinct};
ghost use Rattle.loaded_classes.specs.Table.{ClassTable, empty_table, linked_at, word_at, with_link, with_word, row_at};
ghost use Rattle.loaded_classes.specs.Held.{facts_in, IsHeld, known_at, Finds};

use crate::held::HeldClass;
use class_record::{ClassId, JavaFault, sees};
use class_tree::ClassTree;
use indexmap::IndexMap;
use loader_rules::Loader;
use sqlite_items::{Items, at};
use std::alloc::Global;
use std::marker::Model;

/// The classes that a run has loaded, in load order, by their class files. Each fact of them takes the same time, however
/// many there are.
///
/// As `Classes` it has no files beside: a load finds a class that was put in and that the loader sees, and else ends with
/// `NoClassDefFoundError`. Linking says that a class is linked.
///
/// Contracts see it as a `ClassTable`.
#[derive(Drop)]
pub struct LoadedClasses {
    pub(crate) alloc: Global,
    pub(crate) classes: Vec<HeldClass>,
    pub(crate) linked: Vec<bool>,
    pub(crate) words: Vec<Items<u64>>,
    // The place of each name in the load order.
    pub(crate) places: IndexMap<Vec<u8>, u32>,
}

impl Model for LoadedClasses {
    ghost use Rattle.loaded_classes.specs.Table.{ClassTable};

    ghost Value = { ClassTable };

    ghost use Rattle.loaded_classes.specs.Held.{table_of, AreKept};

    ghost view = { λ s. table_of s.classes.items s.linked.items s.words.items };

    ghost invariant = { λ s. AreKept s.classes.items s.linked.items s.words.items s.places };
}

pub(crate) fn place_of(places: &IndexMap<Vec<u8>, u32>, name: &[u8]) -> Option<u32>
    ensures { result ≡ known_at places.now name.now }
{
    places.get(name).copied()
}

fn word_in(words: &[Items<u64>], id: usize, k: usize) -> u64
    ensures { result ≡ word_at words.now id k }
{
    match at(words, id) {
        Some(words) => at(words.as_slice(), k).copied().unwrap_or(0),
        None => 0,
    }
}

fn set_word_in(words: &mut Vec<Items<u64>>, id: usize, k: usize, value: u64)
    requires id { id < vec_len words.old }
    requires k { k < length (row_at words.old.items id) }
    ensures items { words.new.items ≡ slice_set words.old.items id (slice_set (row_at words.old.items id) k value) }
{
    words[id].set(k, value);
}

impl LoadedClasses {
    /// No class at all.
    pub fn new(alloc: Global) -> LoadedClasses
        ensures { result ≡ empty_table }
    {
        LoadedClasses {
            alloc,
            classes: Vec::new(alloc),
            linked: Vec::new(alloc),
            words: Vec::new(alloc),
            places: IndexMap::new(alloc),
        }
    }

    pub(crate) fn count_held(&self) -> u32
        ensures count { result ≡ length self.now.classes }
        ensures few { length self.now.classes ≤ MAX_LOADED }
        ensures built { AreBuilt (newest self.now.classes) }
        ensures distinct { AreDistinct (names_of self.now.classes) }
        ensures unlinked { (id : ℕ) → length self.now.classes ≤ id → linked_at self.now.linked id ≡ false }
        ensures unset { (id k : ℕ) → length self.now.classes ≤ id → word_at self.now.words id k ≡ 0 }
    {
        self.classes.len() as u32
    }

    // What is held of the class with a number.
    pub(crate) fn class(&self, id: ClassId) -> &HeldClass
        requires { id.0 < length self.now.classes }
        ensures is { slice_get self.now.classes id.0 ≡ Some (facts_in result.now) }
        ensures tree { slice_get self.now.trees id.0 ≡ Some result.now.tree }
        ensures held { IsHeld self.now.classes id.0 result.now }
    {
        &self.classes[id.0 as usize]
    }

    /// The class file of a loaded class, as a tree.
    pub fn tree(&self, id: ClassId) -> &ClassTree
        requires { id.0 < length self.now.classes }
        ensures { slice_get self.now.trees id.0 ≡ Some result.now }
    {
        &self.class(id).tree
    }

    pub(crate) fn named(&self, name: &[u8]) -> Option<ClassId>
        ensures { IsClassNamed self.now.classes name.now result }
    {
        match place_of(&self.places, name) {
            Some(id) => Some(ClassId(id)),
            None => None,
        }
    }

    // The class of this name that a loader sees.
    pub(crate) fn seen(&self, name: &[u8], from: Loader) -> Result<ClassId, JavaFault>
        ensures { Finds self.now.classes from name.now result }
    {
        let Some(id) = place_of(&self.places, name) else {
            return Err(JavaFault::NoClassDefFoundError);
        };
        if sees(from, self.classes[id as usize].loader) {
            Ok(ClassId(id))
        } else {
            Err(JavaFault::NoClassDefFoundError)
        }
    }

    pub(crate) fn is_linked(&self, id: ClassId) -> bool
        ensures { result ≡ linked_at self.now.linked id.0 }
    {
        self.linked.get(id.0 as usize).copied().unwrap_or(false)
    }

    pub(crate) fn word(&self, id: ClassId, k: u16) -> u64
        ensures word { result ≡ word_at self.now.words id.0 k }
        ensures rows { length (row_at self.now.words id.0) ≡ length (pool_of self.now.classes id.0) }
    {
        word_in(self.words.as_slice(), id.0 as usize, usize::from(k))
    }

    /// Notes that a class is linked.
    pub fn mark_linked(&mut self, id: ClassId)
        requires { id.0 < length self.old.classes }
        ensures linked { (k : ℕ) → linked_at self.new.linked k ≡ (if k == id.0 then true else linked_at self.old.linked k) }
        ensures classes { self.new.classes ≡ self.old.classes }
        ensures trees { self.new.trees ≡ self.old.trees }
        ensures words { self.new.words ≡ self.old.words }
    {
        self.note_link(id);
    }

    pub(crate) fn note_link(&mut self, id: ClassId)
        requires { id.0 < length self.old.classes }
        ensures linked { self.new ≡ with_link id.0 self.old }
        ensures within { id.0 < length self.old.linked }
    {
        self.linked[id.0 as usize] = true;
    }

    /// Sets a cache word of a loaded class.
    pub fn set_cache_word(&mut self, id: ClassId, k: u16, value: u64)
        requires loaded { id.0 < length self.old.classes }
        requires within { k < length (pool_of self.old.classes id.0) }
        ensures set { word_at self.new.words id.0 k ≡ value }
        ensures words { (i j : ℕ) → ((i ≡ id.0) × (j ≡ k) → ⊥) → word_at self.new.words i j ≡ word_at self.old.words i j }
        ensures classes { self.new.classes ≡ self.old.classes }
        ensures trees { self.new.trees ≡ self.old.trees }
        ensures linked { self.new.linked ≡ self.old.linked }
    {
        self.set_word(id, k, value);
    }

    pub(crate) fn set_word(&mut self, id: ClassId, k: u16, value: u64)
        requires loaded { id.0 < length self.old.classes }
        requires within { k < length (pool_of self.old.classes id.0) }
        ensures set { self.new ≡ with_word id.0 k value self.old }
        ensures within { id.0 < length self.old.words }
        ensures rows { k < length (row_at self.old.words id.0) }
    {
        set_word_in(&mut self.words, id.0 as usize, usize::from(k), value);
    }
}
