//! The frames that a StackMapTable declares (JVMS 4.7.4, 4.10.1.4).
ghost use Rattle.std.specs.Prelude.{◌≡◌, ◌++◌, ◌-◌, ◌<◌, ◌≤◌, ◌^◌, ◌∷◌, [], List, IfOk, OnOk, MatchBool, Some, None, false, if◌then◌else◌, length, replicate, take};
ghost use Rattle.std.specs.List.{flat_map, list_any};
ghost use Rattle.class_tree.specs.WellFormed.{class_name};
ghost use Rattle.verify_rules.specs.declared.types.VType.{VType};
ghost use Rattle.verify_rules.specs.declared.types.VType.TheVariants as types;
ghost use Rattle.verify_rules.specs.Types.{units, is_uninitialized_this};
ghost use Rattle.verify_rules.specs.Places.{is_new};
ghost use Rattle.verify_rules.specs.Frames.{Answers, object_of, type_of, types_of, slots, filled, is_wide, without_seconds, without_tail, written_locals, without_last, shown_after, frame_of, place_after, frames_from, written_in, frames_of};
ghost use Rattle.verify_rules.specs.Steps.{Changes, Leaves, is_top_at, with_less, with_item, with_more, with_all, framed};

use crate::places::Places;
use crate::reading::table_of;
use class_tree::{CodeTree, Pool};
use sqlite_items::Items;
use std::alloc::{AllocError, Global};
use verify_rules::{
    Change, Frame, TypeStack, VType, VerifyFault, WrittenFrame, WrittenType, copied, units_within,
};

// ---- types

fn object(alloc: Global, pool: &Pool, class: u16) -> Result<VType, VerifyFault>
    ensures { Answers result (object_of (class_name pool.now class)) }
{
    match pool.class_name(class) {
        Some(name) => Ok(VType::Object(Items::from_slice(alloc, name)?)),
        None => Err(VerifyFault::Bad),
    }
}

fn uninitialized(places: &Places<'_>, place: u16) -> Result<VType, VerifyFault>
    ensures { Answers result (if is_new places.now place then Some (types.Uninitialized place) else None) }
{
    if places.is_new(u32::from(place)) {
        Ok(VType::Uninitialized(u32::from(place)))
    } else {
        Err(VerifyFault::Bad)
    }
}

fn type_of(
    alloc: Global,
    pool: &Pool,
    places: &Places<'_>,
    t: WrittenType,
) -> Result<VType, VerifyFault>
    ensures { Answers result (type_of pool.now places.now t) }
{
    match t {
        WrittenType::Top => Ok(VType::Top),
        WrittenType::Integer => Ok(VType::Integer),
        WrittenType::Float => Ok(VType::Float),
        WrittenType::Double => Ok(VType::Double),
        WrittenType::Long => Ok(VType::Long),
        WrittenType::Null => Ok(VType::Null),
        WrittenType::UninitializedThis => Ok(VType::UninitializedThis),
        WrittenType::Object(class) => object(alloc, pool, class),
        WrittenType::Uninitialized(place) => uninitialized(places, place),
    }
}

#[tactic(auto, using(crate::proofs::Building::types_done))]
fn types_of(
    alloc: Global,
    pool: &Pool,
    places: &Places<'_>,
    types: &[WrittenType],
) -> Result<Items<VType>, VerifyFault>
    ensures { Answers result (types_of pool.now places.now types.now) }
{
    let mut all = Items::new(alloc);
    for t in types {
        all.push(type_of(alloc, pool, places, *t)?)?;
    }
    Ok(all)
}

// ---- locals by slot, and as they are written

fn is_wide(t: &VType) -> bool
    ensures { result ≡ is_wide t.now }
{
    matches!(t, VType::Double | VType::Long)
}

// Puts the slots of a type at the end.
#[tactic(auto, using(crate::proofs::Building::slots_are))]
fn push_slots(alloc: Global, all: &mut Items<VType>, t: &VType) -> Result<(), AllocError>
    ensures { OnOk result (all.new ≡ all.old ++ slots t.now) }
{
    all.push(copied(alloc, t)?)?;
    if is_wide(t) {
        all.push(VType::Top)?;
    }
    Ok(())
}

#[tactic(auto, using(crate::proofs::Building::slots_on, crate::proofs::Building::slots_done))]
fn all_slots(alloc: Global, types: &[VType]) -> Result<Items<VType>, AllocError>
    ensures { IfOk result (λ all. all ≡ flat_map slots types.now) }
{
    let mut all = Items::new(alloc);
    for t in types {
        push_slots(alloc, &mut all, t)?;
    }
    Ok(all)
}

fn push_tops(all: &mut Items<VType>, count: usize) -> Result<(), AllocError>
    ensures { OnOk result (all.new ≡ all.old ++ replicate count types.Top) }
{
    for _ in 0..count {
        all.push(VType::Top)?;
    }
    Ok(())
}

/// All slots of a method's locals that hold these types: the second slots of longs and doubles, and `Top` up to `room`.
#[tactic(auto, using(crate::proofs::Building::length_flat_slots))]
pub fn filled(alloc: Global, room: u16, types: &[VType]) -> Result<Items<VType>, AllocError>
    requires { units types.now ≤ room }
    ensures { IfOk result (λ all. all ≡ filled room types.now) }
{
    let mut all = all_slots(alloc, types)?;
    let unused = usize::from(room).saturating_sub(all.len());
    push_tops(&mut all, unused)?;
    Ok(all)
}

// Puts the type of a slot at the end, unless the slot is a second one, and says whether the next is.
#[tactic(auto, unfolding(verify_rules::specs::Frames::without_seconds))]
fn push_first(
    alloc: Global,
    kept: &mut Items<VType>,
    is_second: bool,
    t: &VType,
) -> Result<bool, AllocError>
    ensures { (rest : List VType) → IfOk result (λ next. kept.new ++ without_seconds next rest ≡ kept.old ++ without_seconds is_second (t.now ∷ rest)) }
{
    if is_second {
        return Ok(false);
    }
    kept.push(copied(alloc, t)?)?;
    Ok(is_wide(t))
}

#[tactic(auto, using(crate::proofs::Building::seconds_on))]
fn without_seconds(alloc: Global, slots: &[VType]) -> Result<Items<VType>, AllocError>
    ensures { IfOk result (λ kept. kept ≡ without_seconds false slots.now) }
{
    let mut kept = Items::new(alloc);
    let mut is_second = false;
    for t in slots {
        is_second = push_first(alloc, &mut kept, is_second, t)?;
    }
    Ok(kept)
}

fn ends_in_top(types: &[VType]) -> bool
    ensures { result ≡ is_top_at types.now (length types.now - 1) }
{
    matches!(types.last(), Some(VType::Top))
}

// Takes a Top off the end, if there is one.
#[tactic(auto, using(crate::proofs::Building::no_top))]
fn pop_top(types: &mut Items<VType>) -> bool
    ensures tail { without_tail types.new ≡ without_tail types.old }
    ensures done { MatchBool result (length types.new < length types.old) (without_tail types.new ≡ types.new) }
{
    if !ends_in_top(types.as_slice()) {
        return false;
    }
    let _top = types.pop();
    true
}

fn drop_tops(types: &mut Items<VType>)
    ensures { types.new ≡ without_tail types.old }
{
    while pop_top(types) {}
}

fn written_locals(alloc: Global, slots: &[VType]) -> Result<Items<VType>, AllocError>
    ensures { IfOk result (λ types. types ≡ written_locals slots.now) }
{
    let mut types = without_seconds(alloc, slots)?;
    drop_tops(&mut types);
    Ok(types)
}

// ---- a frame after the one before it

fn one_item(alloc: Global, t: VType) -> Result<Items<VType>, AllocError>
    ensures { IfOk result (λ items. items ≡ t ∷ []) }
{
    let mut items = Items::new(alloc);
    items.push(t)?;
    Ok(items)
}

// Takes so many types off the end.
fn pop_all(types: &mut Items<VType>, count: usize)
    ensures { types.new ≡ take (length types.old - count) types.old }
{
    for _ in 0..count {
        let _last = types.pop();
    }
}

fn chopped(alloc: Global, locals: &mut Items<VType>, count: u8) -> Result<Items<VType>, VerifyFault>
    ensures { Changes result locals.new (with_less (without_last count locals.old)) }
{
    if locals.len() < usize::from(count) {
        return Err(VerifyFault::Bad);
    }
    pop_all(locals, usize::from(count));
    Ok(Items::new(alloc))
}

fn same_item(
    alloc: Global,
    pool: &Pool,
    places: &Places<'_>,
    locals: &mut Items<VType>,
    item: WrittenType,
) -> Result<Items<VType>, VerifyFault>
    ensures { Changes result locals.new (with_item locals.old (type_of pool.now places.now item)) }
{
    let t = type_of(alloc, pool, places, item)?;
    Ok(one_item(alloc, t)?)
}

fn appended(
    alloc: Global,
    pool: &Pool,
    places: &Places<'_>,
    locals: &mut Items<VType>,
    more: &[WrittenType],
) -> Result<Items<VType>, VerifyFault>
    ensures { Changes result locals.new (with_more locals.old (types_of pool.now places.now more.now)) }
{
    let types = types_of(alloc, pool, places, more)?;
    locals.append(types)?;
    Ok(Items::new(alloc))
}

fn full(
    alloc: Global,
    pool: &Pool,
    places: &Places<'_>,
    locals: &mut Items<VType>,
    all: &[WrittenType],
    items: &[WrittenType],
) -> Result<Items<VType>, VerifyFault>
    ensures { Changes result locals.new (with_all (types_of pool.now places.now all.now) (types_of pool.now places.now items.now)) }
{
    let types = types_of(alloc, pool, places, all)?;
    *locals = types;
    types_of(alloc, pool, places, items)
}

// Makes the locals of a frame of those of the frame before it, and gives its stack, the deepest first. After an error
// nothing is said of the locals.
fn changed(
    alloc: Global,
    pool: &Pool,
    places: &Places<'_>,
    locals: &mut Items<VType>,
    change: &Change,
) -> Result<Items<VType>, VerifyFault>
    ensures { Changes result locals.new (shown_after pool.now places.now locals.old change.now) }
{
    match change {
        Change::Same => Ok(Items::new(alloc)),
        Change::SameItem(item) => same_item(alloc, pool, places, locals, *item),
        Change::Chop(count) => chopped(alloc, locals, *count),
        Change::Append(more) => appended(alloc, pool, places, locals, more.as_slice()),
        Change::Full(all, items) => full(
            alloc,
            pool,
            places,
            locals,
            all.as_slice(),
            items.as_slice(),
        ),
    }
}

fn has_uninitialized_this(types: &[VType]) -> bool
    ensures { result ≡ list_any is_uninitialized_this types.now }
{
    types.iter().any(|t| matches!(t, VType::UninitializedThis))
}

// The frame of these types, if they are within the code's locals and stack.
fn frame_of(
    alloc: Global,
    code: &CodeTree,
    locals: &[VType],
    stack: Items<VType>,
) -> Result<Frame, VerifyFault>
    ensures { Answers result (frame_of code.now (record { locals = locals.now; stack = stack })) }
{
    if units_within(locals, code.locals).is_none() {
        return Err(VerifyFault::Bad);
    }
    let Some(stack) = TypeStack::within(stack, code.stack) else {
        return Err(VerifyFault::Bad);
    };
    let this_uninit = has_uninitialized_this(locals);
    let locals = filled(alloc, code.locals, locals)?;
    Ok(Frame {
        locals,
        stack,
        this_uninit,
    })
}

// ---- all frames

fn place_after(before: Option<u32>, delta: u16) -> u32
    requires { place_after before delta < 2 ^ 32 }
    ensures { result ≡ place_after before delta }
{
    match before {
        Some(before) => before + u32::from(delta) + 1,
        None => u32::from(delta),
    }
}

// The frame that a change makes of the locals before it, which are then its own.
fn next_frame(
    alloc: Global,
    pool: &Pool,
    places: &Places<'_>,
    code: &CodeTree,
    locals: &mut Items<VType>,
    change: &Change,
) -> Result<Frame, VerifyFault>
    ensures { Leaves result locals.new (framed pool.now places.now code.now locals.old change.now) }
{
    let stack = changed(alloc, pool, places, locals, change)?;
    frame_of(alloc, code, locals.as_slice(), stack)
}

// The frames behind locals that are written so.
fn all_frames(
    alloc: Global,
    pool: &Pool,
    places: &Places<'_>,
    code: &CodeTree,
    mut locals: Items<VType>,
    written: &[WrittenFrame],
) -> Result<Items<(u32, Frame)>, VerifyFault>
    requires same { places.now ≡ code.now.bytes }
    requires few { length written.now < 65536 }
    ensures { Answers result (frames_from pool.now code.now None locals written.now) }
{
    let mut frames = Items::new(alloc);
    let mut before = None;
    for w in written {
        let place = place_after(before, w.delta);
        let frame = next_frame(alloc, pool, places, code, &mut locals, &w.change)?;
        frames.push((place, frame))?;
        before = Some(place);
    }
    Ok(frames)
}

fn written_in(alloc: Global, map: &Option<Items<u8>>) -> Result<Items<WrittenFrame>, VerifyFault>
    ensures answers { Answers result (written_in map.now) }
    ensures few { IfOk result (λ frames. length frames < 65536) }
{
    match map {
        Some(map) => table_of(alloc, map.as_slice()),
        None => Ok(Items::new(alloc)),
    }
}

/// The frames that the StackMapTable of a code declares (JVMS 4.7.4), each with its place; none where the code has no
/// such table. `first` is the frame that the method begins with: the first declared frame changes its locals, and each
/// later one those of the frame before it.
///
/// Places count bytes from the start of the code, and ascend strictly. Locals are by slot, `max_locals` in all: the second
/// slot of a long or a double is `Top`, and so are all slots behind those that the table speaks of.
///
/// # Errors
///
/// `Bad` comes exactly where there are no such frames: where the table is cut or has a byte behind its last frame, a frame
/// has a kind or a type a tag that is none, a frame takes off more locals than there are, an Object names no Class of the
/// pool, an Uninitialized no `new` of the code, or a frame takes more units than `max_locals` or `max_stack`. `Memory`
/// comes where memory runs out.
#[tactic(auto, unfolding(verify_rules::specs::Frames::frames_of))]
pub fn frames_of(
    alloc: Global,
    code: &CodeTree,
    first: &Frame,
    pool: &Pool,
) -> Result<Items<(u32, Frame)>, VerifyFault>
    ensures { Answers result (frames_of pool.now code.now first.now) }
{
    let written = written_in(alloc, &code.map)?;
    let places = Places::new(alloc, code.bytes.as_slice())?;
    let locals = written_locals(alloc, first.locals.as_slice())?;
    all_frames(alloc, pool, &places, code, locals, written.as_slice())
}
