//! Reads a constant pool from left to right.
ghost use Rattle.std.specs.Prelude.{◌≡◌, Some, None, MatchOption, true};
ghost use Rattle.jsa_base.specs.Reading.{u1_at, u2_at, u4_at, u8_at, bytes_at, made, pair_at, text_at};
ghost use Rattle.class_tree.specs.Outcomes.{Gives};
ghost use Rattle.class_tree.specs.Reading.{number_entry, wide_entry, text_entry, pair_entry, entry_by, entry_at, slot_at, entries_at, pool_at};
ghost use Rattle.class_tree.specs.declared.constant_pool.PoolEntry.TheVariants as pool;
ghost use Rattle.class_tree.specs.Entries.{is_wide};

use crate::constant_pool::PoolEntry;
use crate::fault::FormatFault;
use jsa_base::Cursor;
use sqlite_items::Items;
use std::alloc::Global;

fn bytes(alloc: Global, n: usize, cursor: &mut Cursor<'_>) -> Result<Items<u8>, FormatFault>
    ensures { Gives result cursor.new (bytes_at n cursor.old) }
{
    match cursor.bytes(n) {
        None => Err(FormatFault::NotClass),
        Some(bytes) => Ok(Items::from_slice(alloc, bytes)?),
    }
}

#[tactic(auto, unfolding(jsa_base::specs::Reading::text_at))]
fn text(alloc: Global, cursor: &mut Cursor<'_>) -> Result<Items<u8>, FormatFault>
    ensures { Gives result cursor.new (text_at cursor.old) }
{
    let Some(size) = cursor.u2() else {
        return Err(FormatFault::NotClass);
    };
    bytes(alloc, usize::from(size), cursor)
}

fn pair(cursor: &mut Cursor<'_>) -> Option<(u16, u16)>
    ensures { MatchOption result (pair_at u2_at u2_at cursor.old ≡ None) (λ p. pair_at u2_at u2_at cursor.old ≡ Some (p, cursor.new)) }
{
    let Some(first) = cursor.u2() else {
        return None;
    };
    let Some(second) = cursor.u2() else {
        return None;
    };
    Some((first, second))
}

// An integer or a float.
fn number(tag: u8, cursor: &mut Cursor<'_>) -> Result<PoolEntry, FormatFault>
    ensures { Gives result cursor.new (made (number_entry tag) u4_at cursor.old) }
{
    let Some(bits) = cursor.u4() else {
        return Err(FormatFault::NotClass);
    };
    if tag == 3 {
        Ok(PoolEntry::Integer(bits))
    } else {
        Ok(PoolEntry::Float(bits))
    }
}

// A long or a double.
fn wide_number(tag: u8, cursor: &mut Cursor<'_>) -> Result<PoolEntry, FormatFault>
    ensures { Gives result cursor.new (made (wide_entry tag) u8_at cursor.old) }
{
    let Some(bits) = cursor.u8() else {
        return Err(FormatFault::NotClass);
    };
    if tag == 5 {
        Ok(PoolEntry::Long(bits))
    } else {
        Ok(PoolEntry::Double(bits))
    }
}

// A class, a string or a method type.
fn of_text(tag: u8, cursor: &mut Cursor<'_>) -> Result<PoolEntry, FormatFault>
    ensures { Gives result cursor.new (made (text_entry tag) u2_at cursor.old) }
{
    let Some(text) = cursor.u2() else {
        return Err(FormatFault::NotClass);
    };
    if tag == 7 {
        Ok(PoolEntry::Class(text))
    } else if tag == 8 {
        Ok(PoolEntry::Str(text))
    } else {
        Ok(PoolEntry::MethodType(text))
    }
}

// An entry of two indices.
fn paired(tag: u8, first: u16, second: u16) -> PoolEntry
    ensures { result ≡ pair_entry tag (first, second) }
{
    if tag == 9 {
        PoolEntry::Fieldref(first, second)
    } else if tag == 10 {
        PoolEntry::Methodref(first, second)
    } else if tag == 11 {
        PoolEntry::InterfaceMethodref(first, second)
    } else if tag == 12 {
        PoolEntry::NameAndType(first, second)
    } else {
        PoolEntry::InvokeDynamic(first, second)
    }
}

fn of_pair(tag: u8, cursor: &mut Cursor<'_>) -> Result<PoolEntry, FormatFault>
    ensures { Gives result cursor.new (made (pair_entry tag) (pair_at u2_at u2_at) cursor.old) }
{
    let Some((first, second)) = pair(cursor) else {
        return Err(FormatFault::NotClass);
    };
    Ok(paired(tag, first, second))
}

fn handle(cursor: &mut Cursor<'_>) -> Result<PoolEntry, FormatFault>
    ensures { Gives result cursor.new (made (λ p. pool.MethodHandle p.0 p.1) (pair_at u1_at u2_at) cursor.old) }
{
    let Some(kind) = cursor.u1() else {
        return Err(FormatFault::NotClass);
    };
    let Some(member) = cursor.u2() else {
        return Err(FormatFault::NotClass);
    };
    Ok(PoolEntry::MethodHandle(kind, member))
}

fn utf8(alloc: Global, cursor: &mut Cursor<'_>) -> Result<PoolEntry, FormatFault>
    ensures { Gives result cursor.new (made pool.Utf8 text_at cursor.old) }
{
    match text(alloc, cursor) {
        Ok(text) => Ok(PoolEntry::Utf8(text)),
        Err(fault) => Err(fault),
    }
}

// What stands behind a tag.
#[tactic(auto, unfolding(crate::specs::Reading::entry_by))]
fn entry_behind(alloc: Global, tag: u8, cursor: &mut Cursor<'_>) -> Result<PoolEntry, FormatFault>
    ensures { Gives result cursor.new (entry_by tag cursor.old) }
{
    match tag {
        1 => utf8(alloc, cursor),
        3 => number(3, cursor),
        4 => number(4, cursor),
        5 => wide_number(5, cursor),
        6 => wide_number(6, cursor),
        7 => of_text(7, cursor),
        8 => of_text(8, cursor),
        9 => of_pair(9, cursor),
        10 => of_pair(10, cursor),
        11 => of_pair(11, cursor),
        12 => of_pair(12, cursor),
        15 => handle(cursor),
        16 => of_text(16, cursor),
        18 => of_pair(18, cursor),
        _ => Err(FormatFault::NotClass),
    }
}

#[tactic(auto, unfolding(crate::specs::Reading::entry_at))]
fn entry(alloc: Global, cursor: &mut Cursor<'_>) -> Result<PoolEntry, FormatFault>
    ensures { Gives result cursor.new (entry_at cursor.old) }
{
    let Some(tag) = cursor.u1() else {
        return Err(FormatFault::NotClass);
    };
    entry_behind(alloc, tag, cursor)
}

fn is_wide(entry: &PoolEntry) -> bool
    ensures { result ≡ is_wide entry.now }
{
    matches!(entry, PoolEntry::Long(_) | PoolEntry::Double(_))
}

// The entry at one index, at which nothing is written where it is unusable.
#[tactic(auto, unfolding(crate::specs::Reading::slot_at))]
fn slot(alloc: Global, unusable: bool, cursor: &mut Cursor<'_>) -> Result<PoolEntry, FormatFault>
    ensures { Gives result cursor.new (slot_at unusable cursor.old) }
{
    if unusable {
        return Ok(PoolEntry::Unusable);
    }
    entry(alloc, cursor)
}

// The entries at so many indices, of which the first is unusable.
fn entries(
    alloc: Global,
    count: u16,
    cursor: &mut Cursor<'_>,
) -> Result<Items<PoolEntry>, FormatFault>
    ensures { Gives result cursor.new (entries_at true count cursor.old) }
{
    let mut entries = Items::new(alloc);
    let mut unusable = true;
    for _ in 0..count {
        let entry = slot(alloc, unusable, cursor)?;
        unusable = is_wide(&entry);
        entries.push(entry)?;
    }
    if unusable {
        return Err(FormatFault::NotClass);
    }
    Ok(entries)
}

/// The constant pool, whatever its entries say of each other.
#[tactic(auto, unfolding(crate::specs::Reading::pool_at))]
pub(crate) fn all_entries(
    alloc: Global,
    cursor: &mut Cursor<'_>,
) -> Result<Items<PoolEntry>, FormatFault>
    ensures { Gives result cursor.new (pool_at cursor.old) }
{
    let Some(count) = cursor.u2() else {
        return Err(FormatFault::NotClass);
    };
    entries(alloc, count, cursor)
}
