//! Whether a tree is that of a class file (JVMS 4.1, 4.5 to 4.7).
ghost use Rattle.std.specs.Prelude.{◌≡◌, ◌&&◌, IfOk};
ghost use Rattle.std.specs.List.{list_all};
ghost use Rattle.class_tree.specs.WellFormed as well_formed;

use crate::distinct::has_distinct_parts;
use crate::flags::{are_class_flags, is_interface};
use crate::members::{is_field_declaration, is_method_declaration};
use crate::tested_pool::TestedPool;
use crate::tested_tree::TestedTree;
use crate::tree::ClassTree;
use std::alloc::{AllocError, Global};

fn has_its_super(tree: &TestedTree<'_>) -> bool
    ensures { result ≡ well_formed.has_its_super tree.now }
{
    let pool = tree.pool();
    let tree = tree.tree();
    if pool.is_object_class(tree.this) {
        tree.sup == 0
    } else {
        pool.is_plain_class(tree.sup)
    }
}

fn suits_its_kind(tree: &TestedTree<'_>) -> bool
    ensures { result ≡ well_formed.suits_its_kind tree.now }
{
    !is_interface(tree.tree().flags) || tree.pool().is_object_class(tree.tree().sup)
}

fn are_plain_classes(pool: &TestedPool<'_>, classes: &[u16]) -> bool
    ensures { result ≡ list_all (well_formed.is_plain_class pool.now) classes.now }
{
    classes.iter().all(|class| pool.is_plain_class(*class))
}

#[tactic(auto, unfolding(crate::specs::WellFormed::is_class_declaration))]
fn is_class_declaration(tested: &TestedTree<'_>) -> bool
    ensures { result ≡ well_formed.is_class_declaration tested.now }
{
    let pool = tested.pool();
    let tree = tested.tree();
    50 <= tree.major
        && tree.major <= 52
        && are_class_flags(tree.flags)
        && pool.is_plain_class(tree.this)
        && has_its_super(tested)
        && suits_its_kind(tested)
        && are_plain_classes(pool, tree.interfaces.as_slice())
}

fn are_fields(tree: &TestedTree<'_>) -> bool
    ensures { result ≡ list_all (well_formed.is_field_declaration tree.now) tree.now.fields }
{
    let fields = tree.tree().fields.as_slice();
    fields.iter().all(|field| is_field_declaration(tree, field))
}

fn are_methods(tree: &TestedTree<'_>) -> bool
    ensures { result ≡ list_all (well_formed.is_method_declaration tree.now) tree.now.methods }
{
    let methods = tree.tree().methods.as_slice();
    methods
        .iter()
        .all(|method| is_method_declaration(tree, method))
}

#[tactic(auto, unfolding(crate::specs::WellFormed::are_declared))]
fn are_declared(tree: &TestedTree<'_>) -> bool
    ensures { result ≡ well_formed.are_declared tree.now }
{
    are_fields(tree) && are_methods(tree)
}

// Whether all holds of the tree but that no two of its parts are alike.
fn is_declaration(alloc: Global, tree: &ClassTree) -> Result<bool, AllocError>
    ensures { IfOk result (λ declared. declared ≡ (well_formed.is_class_declaration tree.now && well_formed.are_declared tree.now)) }
{
    let tested = TestedTree::new(alloc, tree)?;
    Ok(is_class_declaration(&tested) && are_declared(&tested))
}

/// Whether a tree is that of a class file (JVMS 4.1, 4.5 to 4.7): whether its version is 50 to 52, its access flags may
/// stand together, its names and descriptors are those of a class, a field or a method, it has the superclass, the
/// constants and the code that it is to have, and no two of its interfaces, fields or methods are alike. What the
/// entries of the constant pool say of each other isn't looked at, nor whether each list has few enough items to be
/// written.
///
/// # Errors
///
/// `AllocError` comes where memory runs out.
#[tactic(auto, unfolding(crate::specs::WellFormed::is_well_formed))]
pub fn is_well_formed(alloc: Global, tree: &ClassTree) -> Result<bool, AllocError>
    ensures { IfOk result (λ formed. formed ≡ well_formed.is_well_formed tree.now) }
{
    let is_declared = is_declaration(alloc, tree)?;
    if is_declared {
        has_distinct_parts(alloc, tree)
    } else {
        Ok(false)
    }
}
