//! Stack map frames (JVMS 4.7.4), each written as a full frame.
ghost use Rattle.std.specs.Prelude.{◌++◌, Some};
ghost use Rattle.jsa_base.specs.Spelling.{u1 as u1_text, u2 as u2_text};
ghost use Rattle.asm_text.specs.Outcome.{Gives, Yields};
ghost use Rattle.class_asm.specs.Frames as spec;

use crate::labels::Labels;
use crate::needs::class_index;
use asm_text::{FrameType, LineFault};
use jsa_base::{put_u1, put_u2};
use pool_builder::PoolBuilder;
use sqlite_items::Items;
use std::alloc::Global;

/// The place of a label. `Outside` comes where it has none, or one above 65,535.
pub fn short_place(labels: &Labels, name: &Items<u8>) -> Result<u16, LineFault>
    ensures { Yields (λ p. p) result (spec.short_place labels.now name.now) }
{
    let Some(place) = labels.place(name.as_slice()) else {
        return Err(LineFault::Outside);
    };
    if place > 65535 {
        return Err(LineFault::Outside);
    }
    Ok(place as u16)
}

// The text of a tag alone.
fn tag(alloc: Global, tag: u8) -> Result<Items<u8>, LineFault>
    ensures { Yields (λ t. t) result (Some (u1_text tag)) }
{
    let mut text = Vec::new(alloc);
    put_u1(&mut text, tag)?;
    Ok(Items::from_vec(text))
}

// The text of a tag with a number.
fn tagged(alloc: Global, tag: u8, n: u16) -> Result<Items<u8>, LineFault>
    ensures { Yields (λ t. t) result (Some (u1_text tag ++ u2_text n)) }
{
    let mut text = Vec::new(alloc);
    put_u1(&mut text, tag)?;
    put_u2(&mut text, n)?;
    Ok(Items::from_vec(text))
}

// The text of a verification type.
#[tactic(auto, unfolding(crate::specs::Frames::type_text))]
fn type_text(
    alloc: Global,
    labels: &Labels,
    kind: &FrameType,
    pool: &mut PoolBuilder,
) -> Result<Items<u8>, LineFault>
    ensures { Gives (λ t. t) result pool.new (spec.type_text labels.now kind.now pool.old) }
{
    match kind {
        FrameType::Top => tag(alloc, 0),
        FrameType::Integer => tag(alloc, 1),
        FrameType::Float => tag(alloc, 2),
        FrameType::Double => tag(alloc, 3),
        FrameType::Long => tag(alloc, 4),
        FrameType::Null => tag(alloc, 5),
        FrameType::UninitializedThis => tag(alloc, 6),
        FrameType::Object(name) => {
            let class = class_index(alloc, name.as_slice(), pool)?;
            tagged(alloc, 7, class)
        }
        FrameType::Uninitialized(label) => {
            let place = short_place(labels, label)?;
            tagged(alloc, 8, place)
        }
    }
}

// The texts of verification types, one after the other.
#[tactic(auto, unfolding(crate::specs::Frames::types_text))]
fn types_text(
    alloc: Global,
    labels: &Labels,
    types: &[FrameType],
    pool: &mut PoolBuilder,
) -> Result<Items<u8>, LineFault>
    ensures { Gives (λ t. t) result pool.new (spec.types_text labels.now types.now pool.old) }
{
    let mut text = Items::new(alloc);
    let mut rest = types;
    loop {
        let [first, more @ ..] = rest else {
            return Ok(text);
        };
        let one = type_text(alloc, labels, first, pool)?;
        text.append(one)?;
        rest = more;
    }
}

// The same behind their number.
#[tactic(auto, unfolding(crate::specs::Frames::counted_types))]
fn counted_types(
    alloc: Global,
    labels: &Labels,
    types: &[FrameType],
    pool: &mut PoolBuilder,
) -> Result<Items<u8>, LineFault>
    ensures { Gives (λ t. t) result pool.new (spec.counted_types labels.now types.now pool.old) }
{
    if types.len() > 65535 {
        return Err(LineFault::Outside);
    }
    let types_text = types_text(alloc, labels, types, pool)?;
    let mut text = Vec::new(alloc);
    put_u2(&mut text, types.len() as u16)?;
    text.extend_from_slice(types_text.as_slice())?;
    Ok(Items::from_vec(text))
}

/// The `offset_delta` of a frame (JVMS 4.7.4): how far behind the frame before it it stands, less one; of the first frame its
/// place. `Outside` comes where it isn't behind the one before it.
pub fn delta(before: Option<u16>, place: u16) -> Result<u16, LineFault>
    ensures { Yields (λ d. d) result (spec.delta before place) }
{
    let Some(before) = before else {
        return Ok(place);
    };
    if before < place {
        Ok(place - before - 1)
    } else {
        Err(LineFault::Outside)
    }
}

/// The text of a full frame, with this `offset_delta`. `Outside` comes where a list has more than 65,535 types, a label has no
/// place or one above 65,535, or the pool has no room for a class.
#[tactic(auto, unfolding(crate::specs::Frames::frame_text))]
pub fn frame_text(
    alloc: Global,
    labels: &Labels,
    offset: u16,
    locals: &[FrameType],
    stack: &[FrameType],
    pool: &mut PoolBuilder,
) -> Result<Items<u8>, LineFault>
    ensures { Gives (λ t. t) result pool.new (spec.frame_text labels.now offset locals.now stack.now pool.old) }
{
    let locals = counted_types(alloc, labels, locals, pool)?;
    let stack = counted_types(alloc, labels, stack, pool)?;
    let mut text = tagged(alloc, 255, offset)?;
    text.append(locals)?;
    text.append(stack)?;
    Ok(text)
}
