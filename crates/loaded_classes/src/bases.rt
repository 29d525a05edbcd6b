//! What a class is based on, looked up among the classes that are held.
ghost use Rattle.std.specs.Prelude.{◌≡◌, [], ◌∷◌, IfOk, OnOk};
ghost use Rattle.loaded_classes.specs.Bases as spec;
ghost use Rattle.loaded_classes.specs.Bases.{superinterfaces_at, ids_appended, interface_appended, interfaces_appended, superinterface_ids};

use crate::held::HeldClass;
use crate::table::place_of;
use class_tree::Pool;
use indexmap::{IndexMap, IndexSet};
use sqlite_items::{Items, at};
use std::alloc::{AllocError, Global};

// The class that the Class at an index names.
pub(crate) fn base_id(places: &IndexMap<Vec<u8>, u32>, pool: &Pool, index: u16) -> Option<u32>
    ensures { result ≡ spec.base_id places.now pool.now index }
{
    match pool.class_name(index) {
        Some(name) => place_of(places, name),
        None => None,
    }
}

#[tactic(auto, unfolding(crate::specs::Bases::base_ids))]
pub(crate) fn base_ids(
    alloc: Global,
    places: &IndexMap<Vec<u8>, u32>,
    pool: &Pool,
    indices: &[u16],
) -> Result<Vec<u32>, AllocError>
    ensures { IfOk result (λ ids. ids.items ≡ spec.base_ids places.now pool.now indices.now) }
{
    indices
        .iter()
        .filter_map(|index| base_id(places, pool, *index))
        .collect(alloc)
}

// How many instance fields an object of the superclass has.
pub(crate) fn size_of_super(classes: &[HeldClass], sup: Option<u32>) -> u32
    ensures { result ≡ spec.size_at classes.now sup }
{
    let Some(sup) = sup else {
        return 0;
    };
    match at(classes, sup as usize) {
        Some(class) => class.instance_size,
        None => 0,
    }
}

// ---- superinterfaces

fn superinterfaces_of(classes: &[HeldClass], id: u32) -> &[u32]
    ensures { result.now ≡ superinterfaces_at classes.now id }
{
    match at(classes, id as usize) {
        Some(class) => class.superinterfaces.as_slice(),
        None => &[],
    }
}

fn add(seen: &mut IndexSet<u32>, id: u32) -> Result<(), AllocError>
    ensures { OnOk result (seen.new.keys ≡ ids_appended seen.old.keys (id ∷ [])) }
{
    match seen.insert(id) {
        Ok(_) => Ok(()),
        Err(_) => Err(AllocError),
    }
}

fn add_all(seen: &mut IndexSet<u32>, ids: &[u32]) -> Result<(), AllocError>
    ensures { OnOk result (seen.new.keys ≡ ids_appended seen.old.keys ids.now) }
{
    let mut rest = ids;
    loop {
        let [id, more @ ..] = rest else {
            return Ok(());
        };
        let Ok(()) = add(seen, *id) else {
            return Err(AllocError);
        };
        rest = more;
    }
}

// Adds an interface behind its superinterfaces.
fn add_interface(classes: &[HeldClass], seen: &mut IndexSet<u32>, id: u32) -> Result<(), AllocError>
    ensures { OnOk result (seen.new.keys ≡ interface_appended classes.now seen.old.keys id) }
{
    let Ok(()) = add_all(seen, superinterfaces_of(classes, id)) else {
        return Err(AllocError);
    };
    add(seen, id)
}

fn add_interfaces(
    classes: &[HeldClass],
    seen: &mut IndexSet<u32>,
    interfaces: &[u32],
) -> Result<(), AllocError>
    ensures { OnOk result (seen.new.keys ≡ interfaces_appended classes.now seen.old.keys interfaces.now) }
{
    let mut rest = interfaces;
    loop {
        let [id, more @ ..] = rest else {
            return Ok(());
        };
        let Ok(()) = add_interface(classes, seen, *id) else {
            return Err(AllocError);
        };
        rest = more;
    }
}

fn of_super(classes: &[HeldClass], sup: Option<u32>) -> &[u32]
    ensures { result.now ≡ spec.of_super classes.now sup }
{
    match sup {
        Some(sup) => superinterfaces_of(classes, sup),
        None => &[],
    }
}

// The superinterfaces of a class: those of its superclass, then each direct one behind its own, and each once.
pub(crate) fn superinterfaces(
    alloc: Global,
    classes: &[HeldClass],
    sup: Option<u32>,
    interfaces: &[u32],
) -> Result<Items<u32>, AllocError>
    ensures { IfOk result (λ ids. ids ≡ superinterface_ids classes.now sup interfaces.now) }
{
    let mut seen = IndexSet::new(alloc);
    add_all(&mut seen, of_super(classes, sup))?;
    add_interfaces(classes, &mut seen, interfaces)?;
    Items::from_slice(alloc, seen.as_slice())
}
