//! Reads the parts of a class file from left to right (JVMS 4.1, 4.5 to 4.7).
ghost use Rattle.std.specs.Prelude.{◌≡◌, Some, None, MatchOption};
ghost use Rattle.jsa_base.specs.Reading.{u2_at, pair_at, times, counted_at, long_text_at, all_read};
ghost use Rattle.class_tree.specs.Outcomes.{Gives};
ghost use Rattle.class_tree.specs.ClassReading.{attribute_at, member_at, handler_at, code_at, parts_at, version_at};
ghost use Rattle.classfile_reader.specs.PartAnswers.{Shows, Builds};

use crate::class_parts::{Attribute, ClassParts, CodeParts, Member};
use class_tree::{FormatFault, Handler, read_pool};
use jsa_base::Cursor;
use sqlite_items::Items;
use std::alloc::Global;

fn u2(cursor: &mut Cursor<'_>) -> Result<u16, FormatFault>
    ensures { Gives result cursor.new (u2_at cursor.old) }
{
    cursor.u2().ok_or(FormatFault::NotClass)
}

#[tactic(auto, unfolding(jsa_base::specs::Reading::long_text_at))]
fn long_text<'a>(cursor: &mut Cursor<'a>) -> Option<&'a [u8]>
    ensures { MatchOption result (long_text_at cursor.old ≡ None) (λ b. long_text_at cursor.old ≡ Some (b.now, cursor.new)) }
{
    let Some(size) = cursor.u4() else {
        return None;
    };
    cursor.bytes(size as usize)
}

#[tactic(auto, unfolding(class_tree::specs::ClassReading::attribute_at))]
fn attribute<'a>(cursor: &mut Cursor<'a>) -> Result<Attribute<'a>, FormatFault>
    ensures { Gives result cursor.new (attribute_at cursor.old) }
{
    let Some(name) = cursor.u2() else {
        return Err(FormatFault::NotClass);
    };
    let Some(content) = long_text(cursor) else {
        return Err(FormatFault::NotClass);
    };
    Ok(Attribute { name, content })
}

#[tactic(auto, using(jsa_base::proofs::Loops::goes_on, crate::proofs::PartLoops::ends, jsa_base::proofs::Loops::is_done))]
fn some_attributes<'a>(
    alloc: Global,
    count: u16,
    cursor: &mut Cursor<'a>,
) -> Result<Items<Attribute<'a>>, FormatFault>
    ensures { Gives result cursor.new (times attribute_at count cursor.old) }
{
    let mut attributes = Items::new(alloc);
    for _ in 0..count {
        attributes.push(attribute(cursor)?)?;
    }
    Ok(attributes)
}

fn attributes<'a>(
    alloc: Global,
    cursor: &mut Cursor<'a>,
) -> Result<Items<Attribute<'a>>, FormatFault>
    ensures { Gives result cursor.new (counted_at attribute_at cursor.old) }
{
    let Some(count) = cursor.u2() else {
        return Err(FormatFault::NotClass);
    };
    some_attributes(alloc, count, cursor)
}

#[tactic(auto, unfolding(class_tree::specs::ClassReading::member_at))]
fn member<'a>(alloc: Global, cursor: &mut Cursor<'a>) -> Result<Member<'a>, FormatFault>
    ensures { Gives result cursor.new (member_at cursor.old) }
{
    let Some(flags) = cursor.u2() else {
        return Err(FormatFault::NotClass);
    };
    let Some(name) = cursor.u2() else {
        return Err(FormatFault::NotClass);
    };
    let Some(desc) = cursor.u2() else {
        return Err(FormatFault::NotClass);
    };
    let attributes = attributes(alloc, cursor)?;
    Ok(Member {
        flags,
        name,
        desc,
        attributes,
    })
}

#[tactic(auto, using(jsa_base::proofs::Loops::goes_on, crate::proofs::PartLoops::ends, jsa_base::proofs::Loops::is_done))]
fn some_members<'a>(
    alloc: Global,
    count: u16,
    cursor: &mut Cursor<'a>,
) -> Result<Items<Member<'a>>, FormatFault>
    ensures { Gives result cursor.new (times member_at count cursor.old) }
{
    let mut members = Items::new(alloc);
    for _ in 0..count {
        members.push(member(alloc, cursor)?)?;
    }
    Ok(members)
}

fn members<'a>(alloc: Global, cursor: &mut Cursor<'a>) -> Result<Items<Member<'a>>, FormatFault>
    ensures { Gives result cursor.new (counted_at member_at cursor.old) }
{
    let Some(count) = cursor.u2() else {
        return Err(FormatFault::NotClass);
    };
    some_members(alloc, count, cursor)
}

#[tactic(auto, unfolding(class_tree::specs::ClassReading::handler_at))]
fn handler(cursor: &mut Cursor<'_>) -> Result<Handler, FormatFault>
    ensures { Gives result cursor.new (handler_at cursor.old) }
{
    let Some(start) = cursor.u2() else {
        return Err(FormatFault::NotClass);
    };
    let Some(end) = cursor.u2() else {
        return Err(FormatFault::NotClass);
    };
    let Some(handler) = cursor.u2() else {
        return Err(FormatFault::NotClass);
    };
    let Some(catch) = cursor.u2() else {
        return Err(FormatFault::NotClass);
    };
    Ok(Handler {
        start,
        end,
        handler,
        catch,
    })
}

#[tactic(auto, using(jsa_base::proofs::Loops::goes_on, crate::proofs::PartLoops::ends, jsa_base::proofs::Loops::is_done))]
fn some_handlers(
    alloc: Global,
    count: u16,
    cursor: &mut Cursor<'_>,
) -> Result<Items<Handler>, FormatFault>
    ensures { Gives result cursor.new (times handler_at count cursor.old) }
{
    let mut handlers = Items::new(alloc);
    for _ in 0..count {
        handlers.push(handler(cursor)?)?;
    }
    Ok(handlers)
}

fn handlers(alloc: Global, cursor: &mut Cursor<'_>) -> Result<Items<Handler>, FormatFault>
    ensures { Gives result cursor.new (counted_at handler_at cursor.old) }
{
    let Some(count) = cursor.u2() else {
        return Err(FormatFault::NotClass);
    };
    some_handlers(alloc, count, cursor)
}

#[tactic(auto, using(jsa_base::proofs::Loops::goes_on, crate::proofs::PartLoops::ends, jsa_base::proofs::Loops::is_done))]
fn some_indices(
    alloc: Global,
    count: u16,
    cursor: &mut Cursor<'_>,
) -> Result<Items<u16>, FormatFault>
    ensures { Gives result cursor.new (times u2_at count cursor.old) }
{
    let mut indices = Items::new(alloc);
    for _ in 0..count {
        let index = u2(cursor)?;
        indices.push(index)?;
    }
    Ok(indices)
}

fn indices(alloc: Global, cursor: &mut Cursor<'_>) -> Result<Items<u16>, FormatFault>
    ensures { Gives result cursor.new (counted_at u2_at cursor.old) }
{
    let Some(count) = cursor.u2() else {
        return Err(FormatFault::NotClass);
    };
    some_indices(alloc, count, cursor)
}

#[tactic(auto, unfolding(class_tree::specs::ClassReading::code_at))]
fn code<'a>(alloc: Global, cursor: &mut Cursor<'a>) -> Result<CodeParts<'a>, FormatFault>
    ensures { Gives result cursor.new (code_at cursor.old) }
{
    let Some(stack) = cursor.u2() else {
        return Err(FormatFault::NotClass);
    };
    let Some(locals) = cursor.u2() else {
        return Err(FormatFault::NotClass);
    };
    let Some(bytes) = long_text(cursor) else {
        return Err(FormatFault::NotClass);
    };
    let handlers = handlers(alloc, cursor)?;
    let attributes = attributes(alloc, cursor)?;
    Ok(CodeParts {
        stack,
        locals,
        bytes,
        handlers,
        attributes,
    })
}

/// The parts of the content of a Code attribute, with nothing behind them.
pub(crate) fn whole_code<'a>(alloc: Global, content: &'a [u8]) -> Result<CodeParts<'a>, FormatFault>
    ensures { Builds (λ c. c) result (all_read (code_at content.now)) }
{
    let mut inside = Cursor::new(content);
    let parts = code(alloc, &mut inside)?;
    if inside.left() != 0 {
        return Err(FormatFault::NotClass);
    }
    Ok(parts)
}

// The methods and the attributes.
fn last_lists<'a>(
    alloc: Global,
    cursor: &mut Cursor<'a>,
) -> Result<(Items<Member<'a>>, Items<Attribute<'a>>), FormatFault>
    ensures { Gives result cursor.new (pair_at (counted_at member_at) (counted_at attribute_at) cursor.old) }
{
    let methods = members(alloc, cursor)?;
    let attributes = attributes(alloc, cursor)?;
    Ok((methods, attributes))
}

// The superclass, the interfaces and the fields, and what stands behind them.
fn lists<'a>(
    alloc: Global,
    cursor: &mut Cursor<'a>,
) -> Result<
    (
        u16,
        Items<u16>,
        Items<Member<'a>>,
        Items<Member<'a>>,
        Items<Attribute<'a>>,
    ),
    FormatFault,
>
    ensures { Shows (λ l. (l.0, (l.1, (l.2, (l.3, l.4))))) result cursor.new (pair_at u2_at (pair_at (counted_at u2_at) (pair_at (counted_at member_at) (pair_at (counted_at member_at) (counted_at attribute_at)))) cursor.old) }
{
    let Some(sup) = cursor.u2() else {
        return Err(FormatFault::NotClass);
    };
    let interfaces = indices(alloc, cursor)?;
    let fields = members(alloc, cursor)?;
    let (methods, attributes) = last_lists(alloc, cursor)?;
    Ok((sup, interfaces, fields, methods, attributes))
}

#[tactic(auto, unfolding(class_tree::specs::ClassReading::parts_at))]
fn class_parts<'a>(alloc: Global, cursor: &mut Cursor<'a>) -> Result<ClassParts<'a>, FormatFault>
    ensures { Gives result cursor.new (parts_at cursor.old) }
{
    let pool = read_pool(alloc, cursor)?;
    let Some(flags) = cursor.u2() else {
        return Err(FormatFault::NotClass);
    };
    let Some(this) = cursor.u2() else {
        return Err(FormatFault::NotClass);
    };
    match lists(alloc, cursor) {
        Ok((sup, interfaces, fields, methods, attributes)) => Ok(ClassParts {
            pool,
            flags,
            this,
            sup,
            interfaces,
            fields,
            methods,
            attributes,
        }),
        Err(fault) => Err(fault),
    }
}

/// The parts behind the version, with nothing behind them.
pub(crate) fn whole_parts<'a>(
    alloc: Global,
    cursor: &mut Cursor<'a>,
) -> Result<ClassParts<'a>, FormatFault>
    ensures { Builds (λ p. p) result (all_read (parts_at cursor.old)) }
{
    let parts = class_parts(alloc, cursor)?;
    if cursor.left() != 0 {
        return Err(FormatFault::NotClass);
    }
    Ok(parts)
}

fn version_numbers(cursor: &mut Cursor<'_>) -> Option<(u16, u16)>
    ensures { MatchOption result (pair_at u2_at u2_at cursor.old ≡ None) (λ version. pair_at u2_at u2_at cursor.old ≡ Some (version, cursor.new)) }
{
    let Some(minor) = cursor.u2() else {
        return None;
    };
    let Some(major) = cursor.u2() else {
        return None;
    };
    Some((minor, major))
}

/// The minor and the major version, behind the magic number.
#[tactic(auto, unfolding(class_tree::specs::ClassReading::version_at))]
pub(crate) fn version(cursor: &mut Cursor<'_>) -> Option<(u16, u16)>
    ensures { MatchOption result (version_at cursor.old ≡ None) (λ version. version_at cursor.old ≡ Some (version, cursor.new)) }
{
    let Some(magic) = cursor.u4() else {
        return None;
    };
    if magic != 0xCAFE_BABE {
        return None;
    }
    version_numbers(cursor)
}
