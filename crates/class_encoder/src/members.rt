//! Appends the fields and the methods of a class (JVMS 4.5, 4.6).
ghost use Rattle.std.specs.Prelude.{◌≡◌, ◌++◌, map, OnOk};
ghost use Rattle.std.specs.List.{flat_map};
ghost use Rattle.jsa_base.specs.Spelling as numbers;
ghost use Rattle.class_tree.specs.ClassFiles as spec;
ghost use Rattle.class_tree.specs.Encoded as trees;

use crate::attribute_names::AttributeNames;
use crate::attributes::{put_code, put_constant};
use crate::fault::Memory;
use crate::numbers::put_count;
use class_tree::{FieldTree, MethodTree};
use jsa_base::put_u2;
use std::alloc::Global;

fn put_field(out: &mut Vec<u8>, names: &AttributeNames<'_>, field: &FieldTree) -> Result<(), Memory>
    ensures { OnOk result (out.new.items ≡ out.old.items ++ spec.member (trees.field_member names.now field.now)) }
{
    put_u2(out, field.flags)?;
    put_u2(out, field.name)?;
    put_u2(out, field.desc)?;
    put_constant(out, names, field.value)
}

fn put_each_field(
    out: &mut Vec<u8>,
    names: &AttributeNames<'_>,
    fields: &[FieldTree],
) -> Result<(), Memory>
    ensures { OnOk result (out.new.items ≡ out.old.items ++ flat_map spec.member (map (trees.field_member names.now) fields.now)) }
{
    let mut rest = fields;
    loop {
        let [field, more @ ..] = rest else {
            return Ok(());
        };
        put_field(out, names, field)?;
        rest = more;
    }
}

pub(crate) fn put_fields(
    out: &mut Vec<u8>,
    names: &AttributeNames<'_>,
    fields: &[FieldTree],
) -> Result<(), Memory>
    ensures { OnOk result (out.new.items ≡ out.old.items ++ numbers.counted spec.member (map (trees.field_member names.now) fields.now)) }
{
    put_count(out, fields.len())?;
    put_each_field(out, names, fields)
}

fn put_method(
    alloc: Global,
    out: &mut Vec<u8>,
    names: &AttributeNames<'_>,
    method: &MethodTree,
) -> Result<(), Memory>
    ensures { OnOk result (out.new.items ≡ out.old.items ++ spec.member (trees.method_member names.now method.now)) }
{
    put_u2(out, method.flags)?;
    put_u2(out, method.name)?;
    put_u2(out, method.desc)?;
    put_code(alloc, out, names, &method.code)
}

fn put_each_method(
    alloc: Global,
    out: &mut Vec<u8>,
    names: &AttributeNames<'_>,
    methods: &[MethodTree],
) -> Result<(), Memory>
    ensures { OnOk result (out.new.items ≡ out.old.items ++ flat_map spec.member (map (trees.method_member names.now) methods.now)) }
{
    let mut rest = methods;
    loop {
        let [method, more @ ..] = rest else {
            return Ok(());
        };
        put_method(alloc, out, names, method)?;
        rest = more;
    }
}

pub(crate) fn put_methods(
    alloc: Global,
    out: &mut Vec<u8>,
    names: &AttributeNames<'_>,
    methods: &[MethodTree],
) -> Result<(), Memory>
    ensures { OnOk result (out.new.items ≡ out.old.items ++ numbers.counted spec.member (map (trees.method_member names.now) methods.now)) }
{
    put_count(out, methods.len())?;
    put_each_method(alloc, out, names, methods)
}
