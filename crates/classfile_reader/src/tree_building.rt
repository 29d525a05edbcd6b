//! Builds the tree of the parts of a class file (JVMS 4.5 to 4.7).
ghost use Rattle.std.specs.Prelude.{◌≡◌, Some};
ghost use Rattle.std.specs.Option.{option_map};
ghost use Rattle.jsa_base.specs.Reading.{u2_at, all_read};
ghost use Rattle.class_tree.specs.Trees as trees;
ghost use Rattle.classfile_reader.specs.PartAnswers.{Builds, BuildsMembers, kept};

use crate::class_parts::{Attribute, ClassParts, CodeParts, Member};
use crate::class_reading::whole_code;
use class_tree::{ClassTree, CodeTree, FieldTree, FormatFault, MethodTree, Pool, is_static};
use jsa_base::Cursor;
use sqlite_items::Items;
use std::alloc::Global;

// Whether each attribute has a name, also where it is skipped.
#[tactic(auto, unfolding(class_tree::specs::Trees::have_names))]
fn have_names(pool: &Pool, attributes: &[Attribute<'_>]) -> bool
    ensures { result ≡ trees.have_names pool.now attributes.now }
{
    attributes
        .iter()
        .all(|attribute| pool.is_utf8(attribute.name))
}

// What is found after one more attribute, which may have the name that is looked for.
fn keep<'a>(
    found: Option<&'a [u8]>,
    is_named: bool,
    content: &'a [u8],
) -> Result<Option<&'a [u8]>, FormatFault>
    ensures { Builds (λ o. option_map (λ c. c.now) o) result (kept (option_map (λ c. c.now) found.entry) is_named content.now) }
{
    if !is_named {
        return Ok(found);
    }
    match found {
        Some(_) => Err(FormatFault::NotClass),
        None => Ok(Some(content)),
    }
}

fn keep_named<'a>(
    pool: &Pool,
    name: &[u8],
    found: Option<&'a [u8]>,
    attribute: &Attribute<'a>,
) -> Result<Option<&'a [u8]>, FormatFault>
    ensures { Builds (λ o. option_map (λ c. c.now) o) result (kept (option_map (λ c. c.now) found.entry) (trees.is_text pool.now attribute.now.name name.now) attribute.now.content) }
{
    let is_named = pool.is_text(attribute.name, name);
    keep(found, is_named, attribute.content)
}

// The content of the attribute with this name, if there is one, and no more than one.
#[tactic(auto, unfolding(class_tree::specs::Trees::content_of))]
fn content_of<'a>(
    pool: &Pool,
    name: &[u8],
    attributes: &[Attribute<'a>],
) -> Result<Option<&'a [u8]>, FormatFault>
    ensures { Builds (λ o. option_map (λ c. c.now) o) result (trees.content_of pool.now name.now attributes.now) }
{
    let mut found = None;
    for attribute in attributes {
        let next = keep_named(pool, name, found, attribute)?;
        found = next;
    }
    Ok(found)
}

fn whole_index(content: &[u8]) -> Result<u16, FormatFault>
    ensures { Builds (λ n. n) result (all_read (u2_at content.now)) }
{
    let mut cursor = Cursor::new(content);
    let Some(index) = cursor.u2() else {
        return Err(FormatFault::NotClass);
    };
    if cursor.left() != 0 {
        return Err(FormatFault::NotClass);
    }
    Ok(index)
}

fn value(content: Option<&[u8]>) -> Result<u16, FormatFault>
    ensures { Builds (λ n. n) result (trees.value_of (option_map (λ c. c.now) content.entry)) }
{
    match content {
        Some(content) => {
            let index = whole_index(content)?;
            if index == 0 {
                return Err(FormatFault::NotClass);
            }
            Ok(index)
        }
        None => Ok(0),
    }
}

// The content of the ConstantValue of a static field. That of another field is skipped.
#[tactic(auto, unfolding(class_tree::specs::Trees::constant_of))]
fn constant<'a>(pool: &Pool, member: &Member<'a>) -> Result<Option<&'a [u8]>, FormatFault>
    ensures { Builds (λ o. option_map (λ c. c.now) o) result (trees.constant_of pool.now member.now) }
{
    if is_static(member.flags) {
        content_of(pool, b"ConstantValue", member.attributes.as_slice())
    } else {
        Ok(None)
    }
}

#[tactic(auto, unfolding(class_tree::specs::Trees::field_of))]
fn field(pool: &Pool, member: &Member<'_>) -> Result<FieldTree, FormatFault>
    ensures { Builds (λ f. f) result (trees.field_of pool.now member.now) }
{
    if !have_names(pool, member.attributes.as_slice()) {
        return Err(FormatFault::NotClass);
    }
    let content = constant(pool, member)?;
    let value = value(content)?;
    Ok(FieldTree {
        flags: member.flags,
        name: member.name,
        desc: member.desc,
        value,
    })
}

fn fields(
    alloc: Global,
    pool: &Pool,
    members: &[Member<'_>],
) -> Result<Items<FieldTree>, FormatFault>
    ensures { Builds (λ xs. xs) result (trees.each (trees.field_of pool.now) members.now) }
{
    let mut fields = Items::new(alloc);
    for member in members {
        let field = field(pool, member)?;
        fields.push(field)?;
    }
    Ok(fields)
}

fn copied(alloc: Global, bytes: Option<&[u8]>) -> Result<Option<Items<u8>>, FormatFault>
    ensures { Builds (λ o. o) result (Some (option_map (λ b. b.now) bytes.entry)) }
{
    match bytes {
        Some(bytes) => Ok(Some(Items::from_slice(alloc, bytes)?)),
        None => Ok(None),
    }
}

#[tactic(auto, unfolding(class_tree::specs::Trees::code_of))]
fn code(alloc: Global, pool: &Pool, content: &[u8]) -> Result<CodeTree, FormatFault>
    ensures { Builds (λ c. c) result (trees.code_of pool.now content.now) }
{
    let CodeParts {
        stack,
        locals,
        bytes,
        handlers,
        attributes,
    } = whole_code(alloc, content)?;
    if !have_names(pool, attributes.as_slice()) {
        return Err(FormatFault::NotClass);
    }
    let table = content_of(pool, b"StackMapTable", attributes.as_slice())?;
    let map = copied(alloc, table)?;
    let bytes = Items::from_slice(alloc, bytes)?;
    Ok(CodeTree {
        stack,
        locals,
        bytes,
        handlers,
        map,
    })
}

fn code_in(
    alloc: Global,
    pool: &Pool,
    content: Option<&[u8]>,
) -> Result<Option<CodeTree>, FormatFault>
    ensures { Builds (λ c. c) result (trees.code_in pool.now (option_map (λ c. c.now) content.entry)) }
{
    match content {
        Some(content) => Ok(Some(code(alloc, pool, content)?)),
        None => Ok(None),
    }
}

#[tactic(auto, unfolding(class_tree::specs::Trees::method_of))]
fn method(alloc: Global, pool: &Pool, member: &Member<'_>) -> Result<MethodTree, FormatFault>
    ensures { Builds (λ m. m) result (trees.method_of pool.now member.now) }
{
    if !have_names(pool, member.attributes.as_slice()) {
        return Err(FormatFault::NotClass);
    }
    let content = content_of(pool, b"Code", member.attributes.as_slice())?;
    let code = code_in(alloc, pool, content)?;
    Ok(MethodTree {
        flags: member.flags,
        name: member.name,
        desc: member.desc,
        code,
    })
}

fn methods(
    alloc: Global,
    pool: &Pool,
    members: &[Member<'_>],
) -> Result<Items<MethodTree>, FormatFault>
    ensures { Builds (λ xs. xs) result (trees.each (trees.method_of pool.now) members.now) }
{
    let mut methods = Items::new(alloc);
    for member in members {
        let method = method(alloc, pool, member)?;
        methods.push(method)?;
    }
    Ok(methods)
}

// The fields and the methods, and a test of the class's attributes.
#[tactic(auto, unfolding(class_tree::specs::Trees::tree_of))]
fn members(
    alloc: Global,
    major: u16,
    parts: &ClassParts<'_>,
) -> Result<(Items<FieldTree>, Items<MethodTree>), FormatFault>
    ensures { BuildsMembers result major parts.now }
{
    if !have_names(&parts.pool, parts.attributes.as_slice()) {
        return Err(FormatFault::NotClass);
    }
    let fields = fields(alloc, &parts.pool, parts.fields.as_slice())?;
    let methods = methods(alloc, &parts.pool, parts.methods.as_slice())?;
    Ok((fields, methods))
}

/// The tree of the parts behind a version of this major number.
///
/// # Errors
///
/// `NotClass` comes where an attribute of the class, of a member or of a Code has no name, an attribute that is read
/// is there twice, or its content isn't as it is to be written. `Memory` comes where memory runs out.
#[tactic(auto, unfolding(class_tree::specs::Trees::tree_of))]
pub(crate) fn tree(
    alloc: Global,
    major: u16,
    parts: ClassParts<'_>,
) -> Result<ClassTree, FormatFault>
    ensures { Builds (λ t. t) result (trees.tree_of major parts.entry) }
{
    let (fields, methods) = members(alloc, major, &parts)?;
    let ClassParts {
        pool,
        flags,
        this,
        sup,
        interfaces,
        fields: _,
        methods: _,
        attributes: _,
    } = parts;
    Ok(ClassTree {
        major,
        flags,
        pool,
        this,
        sup,
        interfaces,
        fields,
        methods,
    })
}
