//! Whether a class has no interface, no field and no method twice (JVMS 4.1, 4.5, 4.6).
ghost use Rattle.std.specs.Prelude.{◌≡◌, ◌||◌, IfOk, OnOk, not, map, Some};
ghost use Rattle.std.specs.BTreeSet.{contains};
ghost use Rattle.class_tree.specs.TextPlaces as spec;
ghost use Rattle.class_tree.specs.WellFormed as well_formed;

use crate::text_places::TextPlaces;
use crate::tree::{ClassTree, FieldTree, MethodTree};
use std::alloc::{AllocError, Global};
use std::collections::BTreeSet;

// Adds a key to those that were seen, and answers whether it is new. What has no key is new each time.
fn add<K: Ord + Copy + Drop>(seen: &mut BTreeSet<K>, key: Option<K>) -> Result<bool, AllocError>
    ensures new { IfOk result (λ is_new. is_new ≡ not (spec.is_known (contains K.cmp seen.old) key)) }
    ensures seen { OnOk result ((k : K) → contains K.cmp seen.new k ≡ (spec.is_same_key K.cmp key (Some k) || contains K.cmp seen.old k)) }
{
    let Some(key) = key else {
        return Ok(true);
    };
    match seen.insert(key) {
        Ok(is_new) => Ok(is_new),
        Err(_) => Err(AllocError),
    }
}

// Whether no two keys are equal.
fn are_distinct<K: Ord + Copy + Drop>(alloc: Global, keys: &[Option<K>]) -> Result<bool, AllocError>
    ensures { IfOk result (λ distinct. distinct ≡ well_formed.are_distinct (spec.is_same_key K.cmp) keys.now) }
{
    let mut seen = BTreeSet::new(alloc);
    let mut rest = keys;
    loop {
        let [key, more @ ..] = rest else {
            return Ok(true);
        };
        let Ok(is_new) = add(&mut seen, *key) else {
            return Err(AllocError);
        };
        if !is_new {
            return Ok(false);
        }
        rest = more;
    }
}

#[tactic(auto, unfolding(crate::specs::TextPlaces::class_keys))]
fn class_keys(
    alloc: Global,
    places: &TextPlaces<'_>,
    classes: &[u16],
) -> Result<Vec<Option<usize>>, AllocError>
    ensures { IfOk result (λ keys. keys.items ≡ spec.class_keys places.now classes.now) }
{
    classes
        .iter()
        .map(|class| places.class_place(*class))
        .collect(alloc)
}

#[tactic(auto, unfolding(crate::specs::TextPlaces::member_keys))]
fn field_keys(
    alloc: Global,
    places: &TextPlaces<'_>,
    fields: &[FieldTree],
) -> Result<Vec<Option<(usize, usize)>>, AllocError>
    ensures { IfOk result (λ keys. keys.items ≡ spec.member_keys places.now well_formed.field_member fields.now) }
{
    fields
        .iter()
        .map(|field| places.member_places(field.name, field.desc))
        .collect(alloc)
}

#[tactic(auto, unfolding(crate::specs::TextPlaces::member_keys))]
fn method_keys(
    alloc: Global,
    places: &TextPlaces<'_>,
    methods: &[MethodTree],
) -> Result<Vec<Option<(usize, usize)>>, AllocError>
    ensures { IfOk result (λ keys. keys.items ≡ spec.member_keys places.now well_formed.method_member methods.now) }
{
    methods
        .iter()
        .map(|method| places.member_places(method.name, method.desc))
        .collect(alloc)
}

// Whether no two name one class.
fn are_distinct_classes(
    alloc: Global,
    places: &TextPlaces<'_>,
    classes: &[u16],
) -> Result<bool, AllocError>
    ensures { IfOk result (λ distinct. distinct ≡ well_formed.are_distinct (well_formed.is_like_class places.now) classes.now) }
{
    let keys = class_keys(alloc, places, classes)?;
    are_distinct(alloc, &keys)
}

// Whether no two have one name and one descriptor.
fn are_distinct_fields(
    alloc: Global,
    places: &TextPlaces<'_>,
    fields: &[FieldTree],
) -> Result<bool, AllocError>
    ensures { IfOk result (λ distinct. distinct ≡ well_formed.are_distinct (well_formed.is_like_member places.now) (map well_formed.field_member fields.now)) }
{
    let keys = field_keys(alloc, places, fields)?;
    are_distinct(alloc, &keys)
}

fn are_distinct_methods(
    alloc: Global,
    places: &TextPlaces<'_>,
    methods: &[MethodTree],
) -> Result<bool, AllocError>
    ensures { IfOk result (λ distinct. distinct ≡ well_formed.are_distinct (well_formed.is_like_member places.now) (map well_formed.method_member methods.now)) }
{
    let keys = method_keys(alloc, places, methods)?;
    are_distinct(alloc, &keys)
}

/// Whether no two superinterfaces name one class (JVMS 4.1), and no two fields, nor two methods, have one name and one
/// descriptor (JVMS 4.5, 4.6). What names no text is like nothing else.
///
/// # Errors
///
/// `AllocError` comes where memory runs out.
#[tactic(auto, unfolding(crate::specs::WellFormed::has_distinct_parts))]
pub fn has_distinct_parts(alloc: Global, tree: &ClassTree) -> Result<bool, AllocError>
    ensures { IfOk result (λ distinct. distinct ≡ well_formed.has_distinct_parts tree.now) }
{
    let places = TextPlaces::new(alloc, tree.pool.entries())?;
    if !are_distinct_classes(alloc, &places, tree.interfaces.as_slice())? {
        return Ok(false);
    }
    if !are_distinct_fields(alloc, &places, tree.fields.as_slice())? {
        return Ok(false);
    }
    are_distinct_methods(alloc, &places, tree.methods.as_slice())
}
