//! Loading a class by its class file.
ghost use Rattle.std.specs.Prelude.{◌≡◌, ◌+◌, ◌<◌, ◌^◌, ◌++◌, ◌∷◌, [], ℕ, List, IfOk, IfErr, OnOk, OnErr, Some, None, length, if◌then◌else◌, replicate, true, false};
ghost use Rattle.std.specs.List.{AllByRecursion};
ghost use Rattle.std.specs.Str.{bytes_eq};
ghost use Rattle.std.specs.Vec.{vec_len, vec_capacity};
ghost use Rattle.class_record.specs.declared.fault.TheConstants.{MAX_LOADED};
ghost use Rattle.class_tree.specs.ClassNames as class_names;
ghost use Rattle.class_record.specs.Trees.{HasShortLists, bases_of};
ghost use Rattle.class_tree.specs.ClassNames.{own_name};
ghost use Rattle.class_record.specs.Facts.{names_of};
ghost use Rattle.class_record.specs.Loading.{is_among};
ghost use Rattle.loaded_classes.specs.Table.{added};
ghost use Rattle.loaded_classes.specs.Held.{known_at};
ghost use Rattle.loaded_classes.specs.Bases.{base_id, size_at};
ghost use Rattle.loaded_classes.specs.Pushing as spec;
ghost use Rattle.loaded_classes.specs.Pushing.{IsLookedUp};

use crate::bases::{base_id, base_ids, size_of_super, superinterfaces};
use crate::held::HeldClass;
use crate::layout::{FieldLayout, layout_of};
use crate::table::LoadedClasses;
use class_record::ClassId;
use class_tree::ClassTree;
use indexmap::IndexMap;
use loader_rules::Loader;
use sqlite_items::Items;
use std::alloc::{AllocError, Global};

/// What is looked up of a class file before its class is loaded.
#[derive(Drop)]
pub(crate) struct LookedUp {
    pub(crate) above: u32,
    pub(crate) sup: Option<u32>,
    pub(crate) interfaces: Items<u32>,
    pub(crate) superinterfaces: Items<u32>,
    pub(crate) layout: FieldLayout,
}

// As many words of 0.
fn new_words(alloc: Global, count: usize) -> Result<Items<u64>, AllocError>
    ensures { IfOk result (λ words. words ≡ replicate count 0) }
{
    let words = vec![in alloc; 0; count]?;
    Ok(Items::from_vec(words))
}

fn look_up(
    alloc: Global,
    classes: &[HeldClass],
    places: &IndexMap<Vec<u8>, u32>,
    tree: &ClassTree,
) -> Result<LookedUp, AllocError>
    requires { size_at classes.now (base_id places.now tree.now.pool tree.now.sup) + length tree.now.fields < 2 ^ 32 }
    ensures { IfOk result (λ up. IsLookedUp classes.now places.now tree.now up) }
{
    let sup = base_id(places, &tree.pool, tree.sup);
    let above = size_of_super(classes, sup);
    let ids = base_ids(alloc, places, &tree.pool, tree.interfaces.as_slice())?;
    let superinterfaces = superinterfaces(alloc, classes, sup, &ids)?;
    let layout = layout_of(alloc, above, tree.fields.as_slice())?;
    Ok(LookedUp {
        above,
        sup,
        interfaces: Items::from_vec(ids),
        superinterfaces,
        layout,
    })
}

fn held_class(loader: Loader, folder: u32, tree: ClassTree, up: LookedUp) -> HeldClass
    ensures { result ≡ spec.held_class loader folder tree up }
{
    let FieldLayout {
        slots,
        instance_size,
        static_size,
    } = up.layout;
    HeldClass {
        loader,
        folder,
        tree,
        above: up.above,
        sup: up.sup,
        interfaces: up.interfaces,
        superinterfaces: up.superinterfaces,
        slots,
        instance_size,
        static_size,
    }
}

// Notes the place of a name that has none yet.
fn note(
    alloc: Global,
    places: &mut IndexMap<Vec<u8>, u32>,
    name: &[u8],
    id: u32,
) -> Result<(), AllocError>
    requires { known_at places.old name.now ≡ None }
    ensures ok { OnOk result ((other : List ℕ) → known_at places.new other ≡ (if bytes_eq name.now other then Some id else known_at places.old other)) }
    ensures err { OnErr result ((other : List ℕ) → known_at places.new other ≡ known_at places.old other) }
{
    let name = Vec::from_slice(alloc, name)?;
    let Ok(_) = places.insert(name, id) else {
        return Err(AllocError);
    };
    Ok(())
}

// Puts an item at the end, where there is room.
fn put<T: Drop>(list: &mut Vec<T>, item: T)
    requires { vec_len list.old < vec_capacity list.old }
    ensures items { list.new.items ≡ list.old.items ++ item ∷ [] }
{
    match list.push(item) {
        Ok(()) => (),
        Err(_) => unreachable!(),
    }
}

// Makes room for one item more.
fn make_room<T: Drop>(list: &mut Vec<T>) -> Result<(), AllocError>
    ensures items { list.new.items ≡ list.old.items }
    ensures room { OnOk result (vec_len list.new < vec_capacity list.new) }
{
    list.reserve(1)
}

// Makes room for one class more.
fn make_rooms(
    classes: &mut Vec<HeldClass>,
    linked: &mut Vec<bool>,
    words: &mut Vec<Items<u64>>,
) -> Result<(), AllocError>
    ensures classes { classes.new.items ≡ classes.old.items }
    ensures linked { linked.new.items ≡ linked.old.items }
    ensures words { words.new.items ≡ words.old.items }
    ensures classes_room { OnOk result (vec_len classes.new < vec_capacity classes.new) }
    ensures linked_room { OnOk result (vec_len linked.new < vec_capacity linked.new) }
    ensures words_room { OnOk result (vec_len words.new < vec_capacity words.new) }
{
    make_room(classes)?;
    make_room(linked)?;
    make_room(words)
}

// Looks up what a new class needs beside its tree, and notes its place last.
fn prepare(
    alloc: Global,
    classes: &[HeldClass],
    places: &mut IndexMap<Vec<u8>, u32>,
    tree: &ClassTree,
    id: u32,
) -> Result<(LookedUp, Items<u64>), AllocError>
    requires room { size_at classes.now (base_id places.old tree.now.pool tree.now.sup) + length tree.now.fields < 2 ^ 32 }
    requires fresh { known_at places.old (class_names.own_name tree.now) ≡ None }
    ensures up { IfOk result (λ made. IsLookedUp classes.now places.old tree.now made.0) }
    ensures words { IfOk result (λ made. made.1 ≡ replicate (length tree.now.pool) 0) }
    ensures ok { OnOk result ((other : List ℕ) → known_at places.new other ≡ (if bytes_eq (class_names.own_name tree.now) other then Some id else known_at places.old other)) }
    ensures err { OnErr result ((other : List ℕ) → known_at places.new other ≡ known_at places.old other) }
{
    let words = new_words(alloc, tree.pool.entries().len())?;
    let up = look_up(alloc, classes, places, tree)?;
    note(alloc, places, tree.own_name(), id)?;
    Ok((up, words))
}

impl LoadedClasses {
    /// Loads the class of a tree, which the loader defines by a file of the folder. What it is based on is loaded, and no
    /// class of its name is.
    ///
    /// # Errors
    ///
    /// The tree comes back where memory runs out, and nothing is loaded.
    pub fn push(
        &mut self,
        loader: Loader,
        folder: u32,
        tree: ClassTree,
    ) -> Result<ClassId, ClassTree>
        requires fresh { is_among (own_name tree) (names_of self.old.classes) ≡ false }
        requires bases { AllByRecursion (λ base. is_among base.name (names_of self.old.classes) ≡ true) (bases_of tree) }
        requires short { HasShortLists tree }
        requires few { length self.old.classes < MAX_LOADED }
        ensures ok { IfOk result (λ id. (id.0 ≡ length self.old.classes) × (self.new ≡ added loader folder tree self.old)) }
        ensures err { IfErr result (λ back. (back ≡ tree) × (self.new ≡ self.old)) }
    {
        let id = self.classes.len() as u32;
        let Ok(()) = make_rooms(&mut self.classes, &mut self.linked, &mut self.words) else {
            return Err(tree);
        };
        // Nothing fails once the name is noted.
        let Ok((up, words)) = prepare(
            self.alloc,
            self.classes.as_slice(),
            &mut self.places,
            &tree,
            id,
        ) else {
            return Err(tree);
        };
        put(&mut self.classes, held_class(loader, folder, tree, up));
        put(&mut self.linked, false);
        put(&mut self.words, words);
        Ok(ClassId(id))
    }
}
