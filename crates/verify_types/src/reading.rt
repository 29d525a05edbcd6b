//! Reads a StackMapTable from left to right (JVMS 4.7.4).
ghost use Rattle.std.specs.Prelude.{◌≡◌, ◌<◌, ◌≤◌, length, IfOk};
ghost use Rattle.jsa_base.specs.Reading.{u1_at, u2_at, times, counted_at};
ghost use Rattle.verify_rules.specs.Outcomes.{Gives};
ghost use Rattle.verify_rules.specs.Frames.{Answers, TablesAreSpelled};
ghost use Rattle.verify_rules.specs.Table.{type_by, type_at, item_at, append_at, full_at, far_at, frame_by, frame_at, table_of};

use jsa_base::Cursor;
use sqlite_items::Items;
use std::alloc::Global;
use verify_rules::{Change, VerifyFault, WrittenFrame, WrittenType};

fn u1(cursor: &mut Cursor<'_>) -> Result<u8, VerifyFault>
    ensures { Gives result cursor.new (u1_at cursor.old) }
{
    cursor.u1().ok_or(VerifyFault::Bad)
}

fn u2(cursor: &mut Cursor<'_>) -> Result<u16, VerifyFault>
    ensures { Gives result cursor.new (u2_at cursor.old) }
{
    cursor.u2().ok_or(VerifyFault::Bad)
}

// ---- types

// What stands behind a tag.
#[tactic(auto, unfolding(verify_rules::specs::Table::type_by))]
fn type_behind(tag: u8, cursor: &mut Cursor<'_>) -> Result<WrittenType, VerifyFault>
    ensures { Gives result cursor.new (type_by tag cursor.old) }
{
    match tag {
        0 => Ok(WrittenType::Top),
        1 => Ok(WrittenType::Integer),
        2 => Ok(WrittenType::Float),
        3 => Ok(WrittenType::Double),
        4 => Ok(WrittenType::Long),
        5 => Ok(WrittenType::Null),
        6 => Ok(WrittenType::UninitializedThis),
        7 => Ok(WrittenType::Object(u2(cursor)?)),
        8 => Ok(WrittenType::Uninitialized(u2(cursor)?)),
        _ => Err(VerifyFault::Bad),
    }
}

#[tactic(auto, unfolding(verify_rules::specs::Table::type_at))]
fn one_type(cursor: &mut Cursor<'_>) -> Result<WrittenType, VerifyFault>
    ensures { Gives result cursor.new (type_at cursor.old) }
{
    let tag = u1(cursor)?;
    type_behind(tag, cursor)
}

#[tactic(auto, using(jsa_base::proofs::Loops::goes_on, crate::proofs::ReadLoops::ends, jsa_base::proofs::Loops::is_done))]
fn some_types(
    alloc: Global,
    count: u16,
    cursor: &mut Cursor<'_>,
) -> Result<Items<WrittenType>, VerifyFault>
    ensures { Gives result cursor.new (times type_at count cursor.old) }
{
    let mut types = Items::new(alloc);
    for _ in 0..count {
        types.push(one_type(cursor)?)?;
    }
    Ok(types)
}

fn counted_types(alloc: Global, cursor: &mut Cursor<'_>) -> Result<Items<WrittenType>, VerifyFault>
    ensures { Gives result cursor.new (counted_at type_at cursor.old) }
{
    let count = u2(cursor)?;
    some_types(alloc, count, cursor)
}

// ---- what a frame changes

#[tactic(auto, unfolding(verify_rules::specs::Table::item_at))]
fn item(cursor: &mut Cursor<'_>) -> Result<Change, VerifyFault>
    ensures { Gives result cursor.new (item_at cursor.old) }
{
    let item = one_type(cursor)?;
    Ok(Change::SameItem(item))
}

#[tactic(auto, unfolding(verify_rules::specs::Table::append_at))]
fn append(alloc: Global, count: u16, cursor: &mut Cursor<'_>) -> Result<Change, VerifyFault>
    ensures { Gives result cursor.new (append_at count cursor.old) }
{
    let types = some_types(alloc, count, cursor)?;
    Ok(Change::Append(types))
}

#[tactic(auto, unfolding(verify_rules::specs::Table::full_at))]
fn full(alloc: Global, cursor: &mut Cursor<'_>) -> Result<Change, VerifyFault>
    ensures { Gives result cursor.new (full_at cursor.old) }
{
    let locals = counted_types(alloc, cursor)?;
    let stack = counted_types(alloc, cursor)?;
    Ok(Change::Full(locals, stack))
}

// What stands behind a written delta.
#[tactic(auto, unfolding(verify_rules::specs::Table::far_at))]
fn far(alloc: Global, kind: u8, cursor: &mut Cursor<'_>) -> Result<Change, VerifyFault>
    requires { 247 ≤ kind }
    ensures { Gives result cursor.new (far_at kind cursor.old) }
{
    if kind == 247 {
        return item(cursor);
    }
    if kind < 251 {
        return Ok(Change::Chop(251 - kind));
    }
    if kind == 251 {
        return Ok(Change::Same);
    }
    if kind == 255 {
        return full(alloc, cursor);
    }
    append(alloc, u16::from(kind) - 251, cursor)
}

// ---- frames

// What stands behind a kind.
#[tactic(auto, unfolding(verify_rules::specs::Table::frame_by))]
fn frame_behind(
    alloc: Global,
    kind: u8,
    cursor: &mut Cursor<'_>,
) -> Result<WrittenFrame, VerifyFault>
    ensures { Gives result cursor.new (frame_by kind cursor.old) }
{
    if kind < 64 {
        return Ok(WrittenFrame {
            kind,
            delta: u16::from(kind),
            change: Change::Same,
        });
    }
    if kind < 128 {
        let change = item(cursor)?;
        return Ok(WrittenFrame {
            kind,
            delta: u16::from(kind) - 64,
            change,
        });
    }
    if kind < 247 {
        return Err(VerifyFault::Bad);
    }
    let delta = u2(cursor)?;
    let change = far(alloc, kind, cursor)?;
    Ok(WrittenFrame {
        kind,
        delta,
        change,
    })
}

#[tactic(auto, unfolding(verify_rules::specs::Table::frame_at))]
fn frame(alloc: Global, cursor: &mut Cursor<'_>) -> Result<WrittenFrame, VerifyFault>
    ensures { Gives result cursor.new (frame_at cursor.old) }
{
    let kind = u1(cursor)?;
    frame_behind(alloc, kind, cursor)
}

#[tactic(auto, using(jsa_base::proofs::Loops::goes_on, crate::proofs::ReadLoops::ends, jsa_base::proofs::Loops::is_done))]
fn some_frames(
    alloc: Global,
    count: u16,
    cursor: &mut Cursor<'_>,
) -> Result<Items<WrittenFrame>, VerifyFault>
    ensures { Gives result cursor.new (times frame_at count cursor.old) }
{
    let mut frames = Items::new(alloc);
    for _ in 0..count {
        frames.push(frame(alloc, cursor)?)?;
    }
    Ok(frames)
}

fn counted_frames(
    alloc: Global,
    cursor: &mut Cursor<'_>,
) -> Result<Items<WrittenFrame>, VerifyFault>
    ensures { Gives result cursor.new (counted_at frame_at cursor.old) }
{
    let count = u2(cursor)?;
    some_frames(alloc, count, cursor)
}

/// The frames of a StackMapTable, as they are written (JVMS 4.7.4): at most 65,535.
///
/// # Errors
///
/// `Bad` comes exactly where the bytes are the text of none: where they are cut, a byte follows the last frame, or a frame
/// has a kind or a type a tag that is none. `Memory` comes where memory runs out.
#[tactic(auto, unfolding(verify_rules::specs::Table::table_of))]
pub(crate) fn table_of(alloc: Global, bytes: &[u8]) -> Result<Items<WrittenFrame>, VerifyFault>
    ensures answers { Answers result (table_of bytes.now) }
    ensures few { IfOk result (λ frames. length frames < 65536) }
{
    let mut cursor = Cursor::new(bytes);
    cursor.are_bytes();
    let frames = counted_frames(alloc, &mut cursor)?;
    if cursor.left() != 0 {
        return Err(VerifyFault::Bad);
    }
    Ok(frames)
}

/// A table is read exactly where the bytes are its text. This does nothing: its contract is a fact for callers.
pub fn tables_are_spelled(bytes: &[u8])
    ensures { TablesAreSpelled bytes.now }
{
    Cursor::new(bytes).are_bytes();
}
