//! Writes class files (JVMS 4.1).
ghost use Rattle.std.specs.Prelude.{◌≡◌, ◌++◌, IfOk, OnOk};
ghost use Rattle.jsa_base.specs.Spelling as numbers;
ghost use Rattle.class_tree.specs.ClassFiles as spec;
ghost use Rattle.class_tree.specs.Encoded.{encoded, parts_of, EncodedSpells};

use crate::attribute_names::AttributeNames;
use crate::attributes::put_none;
use crate::fault::Memory;
use crate::members::{put_fields, put_methods};
use crate::numbers::put_indices;
use crate::pool::put_pool;
use class_tree::ClassTree;
use jsa_base::{put_u2, put_u4};
use std::alloc::{AllocError, Global};

// The magic number, and the version (JVMS 4.1).
fn put_version(out: &mut Vec<u8>, major: u16) -> Result<(), AllocError>
    ensures { OnOk result (out.new.items ≡ out.old.items ++ spec.version_text 0 major) }
{
    put_u4(out, 0xCAFE_BABE)?;
    put_u2(out, 0)?;
    put_u2(out, major)
}

// The flags, the class, its superclass and its superinterfaces.
fn put_declaration(out: &mut Vec<u8>, tree: &ClassTree) -> Result<(), Memory>
    ensures { OnOk result (out.new.items ≡ out.old.items ++ (numbers.u2 tree.now.flags ++ (numbers.u2 tree.now.this ++ (numbers.u2 tree.now.sup ++ numbers.counted numbers.u2 tree.now.interfaces)))) }
{
    put_u2(out, tree.flags)?;
    put_u2(out, tree.this)?;
    put_u2(out, tree.sup)?;
    put_indices(out, tree.interfaces.as_slice())
}

// The fields and the methods, and no attribute of the class.
fn put_members(alloc: Global, out: &mut Vec<u8>, tree: &ClassTree) -> Result<(), Memory>
    ensures { OnOk result (out.new.items ≡ out.old.items ++ (numbers.counted spec.member (parts_of tree.now).fields ++ (numbers.counted spec.member (parts_of tree.now).methods ++ numbers.counted spec.attribute (parts_of tree.now).attributes))) }
{
    let names = AttributeNames::new(&tree.pool)?;
    put_fields(out, &names, tree.fields.as_slice())?;
    put_methods(alloc, out, &names, tree.methods.as_slice())?;
    put_none(out)?;
    Ok(())
}

/// The class file of a tree: its parts with the attributes that the tree keeps, `ConstantValue`, `Code` and
/// `StackMapTable`, and no others. Each is named by the first Utf8 of the pool with that name, or by 0 where there is none.
///
/// `Memory` comes where memory runs out, and where a count or a length of the tree doesn't fit its field, as of more than
/// 65,535 methods: such a tree has no class file.
#[tactic(auto, unfolding(class_tree::specs::Encoded::encoded))]
pub fn encode(alloc: Global, tree: &ClassTree) -> Result<Vec<u8>, Memory>
    ensures { IfOk result (λ bytes. bytes.items ≡ encoded tree.now) }
{
    let mut out = Vec::new(alloc);
    put_version(&mut out, tree.major)?;
    put_pool(&mut out, &tree.pool)?;
    put_declaration(&mut out, tree)?;
    put_members(alloc, &mut out, tree)?;
    Ok(out)
}

/// What is written of a tree that some bytes spell spells it.
pub fn encoded_trees_spell()
    ensures { EncodedSpells }
{}
