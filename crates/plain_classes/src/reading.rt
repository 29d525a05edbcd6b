//! Reads the classes of an archive from left to right.
ghost use Rattle.std.specs.Prelude.{◌≡◌, List, Some, IfOk};
ghost use Rattle.std.specs.Option.{IfSome};
ghost use Rattle.jsa_base.specs.Reading.{bytes_at, times};
ghost use Rattle.jsa_base.specs.LowFirst.{low_u4_at, low_text_at};
ghost use Rattle.plain_classes.specs.declared.class.PlainClass.{PlainClass};
ghost use Rattle.plain_classes.specs.Records as spec;
ghost use Rattle.plain_classes.specs.Outcomes.{Gives, Yields};
ghost use Rattle.plain_classes.specs.declared.reading.Unread.TheVariants.{Memory};

use crate::class::PlainClass;
use jsa_base::Cursor;
use sqlite_items::Items;
use std::alloc::{AllocError, AllocFailed, Global};

/// Why no classes were read.
#[derive(Clone, Copy, Debug)]
pub(crate) enum Unread {
    /// The bytes are those of no such list.
    NotClasses,
    /// Memory ran out.
    Memory,
}

impl From<AllocError> for Unread {
    ghost from_gives = { λ _ e. e ≡ Memory };

    fn from(_: AllocError) -> Unread {
        Unread::Memory
    }
}

impl<T: Drop> From<AllocFailed<T>> for Unread {
    ghost from_gives = { λ _ e. e ≡ Memory };

    fn from(_: AllocFailed<T>) -> Unread {
        Unread::Memory
    }
}

fn low_u4(cursor: &mut Cursor<'_>) -> Result<u32, Unread>
    ensures { Gives result cursor.new (low_u4_at cursor.old) }
{
    cursor.low_u4().ok_or(Unread::NotClasses)
}

fn bytes(alloc: Global, n: usize, cursor: &mut Cursor<'_>) -> Result<Items<u8>, Unread>
    ensures { Gives result cursor.new (bytes_at n cursor.old) }
{
    match cursor.bytes(n) {
        None => Err(Unread::NotClasses),
        Some(bytes) => Ok(Items::from_slice(alloc, bytes)?),
    }
}

#[tactic(auto, unfolding(jsa_base::specs::LowFirst::low_text_at))]
fn text(alloc: Global, cursor: &mut Cursor<'_>) -> Result<Items<u8>, Unread>
    ensures { Gives result cursor.new (low_text_at cursor.old) }
{
    let size = low_u4(cursor)?;
    bytes(alloc, size as usize, cursor)
}

#[tactic(auto, unfolding(crate::specs::Records::class_at))]
fn class(alloc: Global, cursor: &mut Cursor<'_>) -> Result<PlainClass, Unread>
    ensures { Gives result cursor.new (spec.class_at cursor.old) }
{
    let name = text(alloc, cursor)?;
    let bytes = text(alloc, cursor)?;
    Ok(PlainClass { name, bytes })
}

#[tactic(auto, using(jsa_base::proofs::Loops::goes_on, crate::proofs::Loop::ends, jsa_base::proofs::Loops::is_done))]
fn some_classes(
    alloc: Global,
    count: u64,
    cursor: &mut Cursor<'_>,
) -> Result<Items<PlainClass>, Unread>
    ensures { Gives result cursor.new (times spec.class_at count cursor.old) }
{
    let mut classes = Items::new(alloc);
    for _ in 0..count {
        classes.push(class(alloc, cursor)?)?;
    }
    Ok(classes)
}

// The classes, behind which nothing is left.
fn whole_classes(alloc: Global, bytes: &[u8], count: u64) -> Result<Items<PlainClass>, Unread>
    ensures { Yields result (spec.classes_of count bytes.now) }
{
    let mut cursor = Cursor::new(bytes);
    let classes = some_classes(alloc, count, &mut cursor)?;
    if cursor.left() != 0 {
        return Err(Unread::NotClasses);
    }
    Ok(classes)
}

/// The classes, so many of them, that these bytes are. `None` exactly where the bytes are those of no such list: where
/// they are cut, or something stands behind the last class.
pub fn read_classes(
    alloc: Global,
    bytes: &[u8],
    count: u64,
) -> Result<Option<Items<PlainClass>>, AllocError>
    // What is read is written so.
    ensures found { IfOk result (λ read. IfSome read (λ classes. spec.SpellsClasses bytes.now count classes)) }
    // What is written so is read, unless memory runs out.
    ensures only { (classes : List PlainClass) → spec.SpellsClasses bytes.now count classes → IfOk result (λ read. read ≡ Some classes) }
{
    match whole_classes(alloc, bytes, count) {
        Ok(classes) => Ok(Some(classes)),
        Err(Unread::NotClasses) => Ok(None),
        Err(Unread::Memory) => Err(AllocError),
    }
}
