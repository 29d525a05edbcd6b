//! Appends the attributes that a tree keeps, each list behind its count (JVMS 4.7).
ghost use Rattle.std.specs.Prelude.{◌≡◌, ◌++◌, ◌∷◌, [], IfOk, OnOk};
ghost use Rattle.std.specs.List.{flat_map};
ghost use Rattle.jsa_base.specs.Spelling as numbers;
ghost use Rattle.class_tree.specs.ClassFiles as spec;
ghost use Rattle.class_tree.specs.Encoded as trees;

use crate::attribute_names::AttributeNames;
use crate::fault::Memory;
use crate::numbers::{put_count, put_long_text};
use class_tree::{CodeTree, Handler};
use jsa_base::put_u2;
use sqlite_items::Items;
use std::alloc::{AllocError, Global};

/// No attributes.
pub(crate) fn put_none(out: &mut Vec<u8>) -> Result<(), AllocError>
    ensures { OnOk result (out.new.items ≡ out.old.items ++ numbers.counted spec.attribute []) }
{
    put_u2(out, 0)
}

// One attribute.
fn put_one(out: &mut Vec<u8>, name: u16, content: &[u8]) -> Result<(), Memory>
    ensures { OnOk result (out.new.items ≡ out.old.items ++ numbers.counted spec.attribute (record { name = name; content = content.now } ∷ [])) }
{
    put_u2(out, 1)?;
    put_u2(out, name)?;
    put_long_text(out, content)
}

/// The ConstantValue of a field, where the index of its constant isn't 0 (JVMS 4.7.2).
pub(crate) fn put_constant(
    out: &mut Vec<u8>,
    names: &AttributeNames<'_>,
    value: u16,
) -> Result<(), Memory>
    ensures { OnOk result (out.new.items ≡ out.old.items ++ numbers.counted spec.attribute (trees.constant_attributes names.now value)) }
{
    if value == 0 {
        return Ok(put_none(out)?);
    }
    put_one(out, names.constant_value(), &value.to_be_bytes())
}

fn put_handler(out: &mut Vec<u8>, handler: &Handler) -> Result<(), AllocError>
    ensures { OnOk result (out.new.items ≡ out.old.items ++ spec.handler handler.now) }
{
    put_u2(out, handler.start)?;
    put_u2(out, handler.end)?;
    put_u2(out, handler.handler)?;
    put_u2(out, handler.catch)
}

fn put_each_handler(out: &mut Vec<u8>, handlers: &[Handler]) -> Result<(), AllocError>
    ensures { OnOk result (out.new.items ≡ out.old.items ++ flat_map spec.handler handlers.now) }
{
    let mut rest = handlers;
    loop {
        let [handler, more @ ..] = rest else {
            return Ok(());
        };
        put_handler(out, handler)?;
        rest = more;
    }
}

fn put_handlers(out: &mut Vec<u8>, handlers: &[Handler]) -> Result<(), Memory>
    ensures { OnOk result (out.new.items ≡ out.old.items ++ numbers.counted spec.handler handlers.now) }
{
    put_count(out, handlers.len())?;
    put_each_handler(out, handlers)?;
    Ok(())
}

// The StackMapTable of a code, where it has one (JVMS 4.7.4).
fn put_table(
    out: &mut Vec<u8>,
    names: &AttributeNames<'_>,
    table: &Option<Items<u8>>,
) -> Result<(), Memory>
    ensures { OnOk result (out.new.items ≡ out.old.items ++ numbers.counted spec.attribute (trees.table_attributes names.now table.now)) }
{
    match table {
        None => Ok(put_none(out)?),
        Some(table) => put_one(out, names.stack_map_table(), table.as_slice()),
    }
}

fn put_content(out: &mut Vec<u8>, names: &AttributeNames<'_>, code: &CodeTree) -> Result<(), Memory>
    ensures { OnOk result (out.new.items ≡ out.old.items ++ spec.code_text (trees.code_parts names.now code.now)) }
{
    put_u2(out, code.stack)?;
    put_u2(out, code.locals)?;
    put_long_text(out, code.bytes.as_slice())?;
    put_handlers(out, code.handlers.as_slice())?;
    put_table(out, names, &code.map)
}

// The content of a Code attribute (JVMS 4.7.3). Its length stands before it.
fn content_of(alloc: Global, names: &AttributeNames<'_>, code: &CodeTree) -> Result<Vec<u8>, Memory>
    ensures { IfOk result (λ content. content.items ≡ spec.code_text (trees.code_parts names.now code.now)) }
{
    let mut content = Vec::new(alloc);
    put_content(&mut content, names, code)?;
    Ok(content)
}

/// The Code of a method, where it has any (JVMS 4.7.3).
pub(crate) fn put_code(
    alloc: Global,
    out: &mut Vec<u8>,
    names: &AttributeNames<'_>,
    code: &Option<CodeTree>,
) -> Result<(), Memory>
    ensures { OnOk result (out.new.items ≡ out.old.items ++ numbers.counted spec.attribute (trees.code_attributes names.now code.now)) }
{
    match code {
        None => Ok(put_none(out)?),
        Some(code) => {
            let content = content_of(alloc, names, code)?;
            put_one(out, names.code(), &content)
        }
    }
}
