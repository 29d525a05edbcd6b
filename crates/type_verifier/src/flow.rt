//! Where an instruction leads: its targets, its handlers, and the instruction behind it (JVMS 4.10.1.6).
ghost use Rattle.std.specs.Prelude.{◌≡◌, pos, ◌+ℤ◌, length, IfOk};
ghost use Rattle.std.specs.List.{list_any};
ghost use Rattle.std.specs.Option.{option_copied, option_map};
ghost use Rattle.jsa_ops.specs.Instruction.{shown};
ghost use Rattle.verify_rules.specs.Asking.{Checked, Did, each};
ghost use Rattle.verify_rules.specs.Fits.{caught};
ghost use Rattle.verify_rules.specs.Walking.{first_distance, first_pair, kept_before, handled_from, leads_from};
ghost use Rattle.verify_rules.specs.Flow.{place_of, declared_if, fits_some, target_fits, target_distances, distances, pair_distances, holds, caught_class, handled, falls_through, fits_if_declared, is_declared, flows, step};

use crate::declared::Declared;
use crate::env::Env;
use crate::fits::{caught_fits, frame_fits};
use crate::rows::row;
use class_tree::{Handler, Pool};
use jsa_ops::Instr;
use sqlite_items::Items;
use std::alloc::{AllocError, Global};
use verify_rules::{Ask, Cause, Frame, Stop, frame_copied};

// ---- targets

// The place that is so far from another.
fn target(place: u32, distance: i32) -> Option<usize>
    ensures { result ≡ place_of (pos place +ℤ distance) }
{
    let to = i64::from(place) + i64::from(distance);
    if to < 0 {
        return None;
    }
    Some(to as usize)
}

fn fits_some(
    alloc: Global,
    asks: &mut Items<Ask>,
    to: Option<&Frame>,
    f: &Frame,
) -> Result<(), Stop>
    ensures { Checked (fits_some (option_copied to.entry) f.now) asks.old asks.new result }
{
    match to {
        Some(to) => frame_fits(alloc, asks, f, to),
        None => Err(Stop::Fault(Cause::NoFrame)),
    }
}

fn declared_if(declared: &Declared, place: Option<usize>) -> Option<&Frame>
    ensures { option_copied result ≡ declared_if declared.now place }
{
    match place {
        Some(place) => declared.at(place),
        None => None,
    }
}

#[tactic(auto, unfolding(verify_rules::specs::Flow::target_fits))]
fn target_fits(
    alloc: Global,
    asks: &mut Items<Ask>,
    declared: &Declared,
    place: u32,
    f: &Frame,
    distance: i32,
) -> Result<(), Stop>
    ensures { Checked (target_fits declared.now place f.now distance) asks.old asks.new result }
{
    let to = declared_if(declared, target(place, distance));
    fits_some(alloc, asks, to, f)
}

// The distance at the front of some bytes, and the bytes behind it.
fn first_distance(bytes: &[u8]) -> Option<(i32, &[u8])>
    ensures { option_map (λ p. (p.0, p.1.now)) result ≡ first_distance bytes.now }
{
    let [a, b, c, d, more @ ..] = bytes else {
        return None;
    };
    let distance = 16_777_216 * u32::from(*a)
        + 65_536 * u32::from(*b)
        + 256 * u32::from(*c)
        + u32::from(*d);
    Some((distance.cast_signed(), more))
}

// The distance of the pair at the front of some bytes, and the bytes behind it.
fn first_pair(bytes: &[u8]) -> Option<(i32, &[u8])>
    ensures { option_map (λ p. (p.0, p.1.now)) result ≡ first_pair bytes.now }
{
    let [_, _, _, _, a, b, c, d, more @ ..] = bytes else {
        return None;
    };
    let distance = 16_777_216 * u32::from(*a)
        + 65_536 * u32::from(*b)
        + 256 * u32::from(*c)
        + u32::from(*d);
    Some((distance.cast_signed(), more))
}

// The targets whose distances are these bytes.
fn distances_fit(
    alloc: Global,
    asks: &mut Items<Ask>,
    declared: &Declared,
    place: u32,
    f: &Frame,
    bytes: &[u8],
) -> Result<(), Stop>
    ensures { Checked (each (target_fits declared.now place f.now) (distances bytes.now)) asks.old asks.new result }
{
    let mut rest = bytes;
    while let Some((distance, more)) = first_distance(rest) {
        target_fits(alloc, asks, declared, place, f, distance)?;
        rest = more;
    }
    Ok(())
}

// The targets whose distances are in these pairs.
fn pair_distances_fit(
    alloc: Global,
    asks: &mut Items<Ask>,
    declared: &Declared,
    place: u32,
    f: &Frame,
    pairs: &[u8],
) -> Result<(), Stop>
    ensures { Checked (each (target_fits declared.now place f.now) (pair_distances pairs.now)) asks.old asks.new result }
{
    let mut rest = pairs;
    while let Some((distance, more)) = first_pair(rest) {
        target_fits(alloc, asks, declared, place, f, distance)?;
        rest = more;
    }
    Ok(())
}

// All targets of an instruction, a switch's default first.
#[tactic(auto, unfolding(verify_rules::specs::Asking::each))]
fn targets_fit(
    alloc: Global,
    asks: &mut Items<Ask>,
    declared: &Declared,
    place: u32,
    instr: Instr<'_>,
    f: &Frame,
) -> Result<(), Stop>
    ensures { Checked (each (target_fits declared.now place f.now) (target_distances (shown instr.entry))) asks.old asks.new result }
{
    match instr {
        Instr::Branch(_, distance) => {
            target_fits(alloc, asks, declared, place, f, distance)?;
            Ok(())
        }
        Instr::TableSwitch(_, other, _, _, distances) => {
            target_fits(alloc, asks, declared, place, f, other)?;
            distances_fit(alloc, asks, declared, place, f, distances)
        }
        Instr::LookupSwitch(_, other, pairs) => {
            target_fits(alloc, asks, declared, place, f, other)?;
            pair_distances_fit(alloc, asks, declared, place, f, pairs)
        }
        _ => Ok(()),
    }
}

// ---- handlers

fn holds(h: &Handler, place: u32) -> bool
    ensures { result ≡ holds h.now place }
{
    u32::from(h.start) <= place && place < u32::from(h.end)
}

// Whether the range of some handler holds a place.
fn is_guarded(handlers: &[Handler], place: u32) -> bool
    ensures { result ≡ list_any (λ h. holds h place) handlers.now }
{
    handlers.iter().any(|h| holds(h, place))
}

// The name of the class that a handler catches: that of all throwables where it names none.
fn caught_class<'a>(pool: &'a Pool, h: &Handler) -> Option<&'a [u8]>
    ensures { option_copied result ≡ caught_class pool.now h.now }
{
    if h.catch == 0 {
        return Some(b"java/lang/Throwable");
    }
    pool.class_name(h.catch)
}

fn throwable_fits(
    alloc: Global,
    asks: &mut Items<Ask>,
    class: &[u8],
    to: Option<&Frame>,
    f: &Frame,
) -> Result<(), Stop>
    ensures { Checked (fits_some (option_copied to.entry) (caught class.now f.now)) asks.old asks.new result }
{
    match to {
        Some(to) => caught_fits(alloc, asks, class, f, to),
        None => Err(Stop::Fault(Cause::NoFrame)),
    }
}

// The frame before an instruction of a handler's range, with the throwable alone on its stack, to the handler's frame.
#[tactic(auto, unfolding(verify_rules::specs::Flow::handled))]
fn handled(
    alloc: Global,
    asks: &mut Items<Ask>,
    e: &Env<'_>,
    declared: &Declared,
    place: u32,
    f: &Frame,
    h: &Handler,
) -> Result<(), Stop>
    ensures { Checked (handled e.now declared.now place f.now h.now) asks.old asks.new result }
{
    if !holds(h, place) {
        return Ok(());
    }
    let Some(class) = caught_class(&e.tree.pool, h) else {
        return Err(Stop::Fault(Cause::Written));
    };
    let to = declared.at(usize::from(h.handler));
    throwable_fits(alloc, asks, class, to, f)
}

fn all_handled(
    alloc: Global,
    asks: &mut Items<Ask>,
    e: &Env<'_>,
    declared: &Declared,
    place: u32,
    f: &Frame,
    handlers: &[Handler],
) -> Result<(), Stop>
    ensures { Checked (each (handled e.now declared.now place f.now) handlers.now) asks.old asks.new result }
{
    for h in handlers {
        handled(alloc, asks, e, declared, place, f, h)?;
    }
    Ok(())
}

// ---- the instruction behind

fn falls_through(instr: Instr<'_>) -> bool
    ensures { result ≡ falls_through (shown instr.entry) }
{
    match instr {
        Instr::Plain(op) => !(0xac <= op && op <= 0xb1) && op != 0xbf,
        Instr::Branch(op, _) => op != 0xa7 && op != 0xc8,
        Instr::TableSwitch(_, _, _, _, _) => false,
        Instr::LookupSwitch(_, _, _) => false,
        _ => true,
    }
}

fn code_size(e: &Env<'_>) -> usize
    ensures { result ≡ length e.now.code.bytes }
{
    e.code.bytes.len()
}

// To a declared frame, where there is one.
pub(crate) fn fits_if_declared(
    alloc: Global,
    asks: &mut Items<Ask>,
    to: Option<&Frame>,
    f: &Frame,
) -> Result<(), Stop>
    ensures { Checked (fits_if_declared (option_copied to.entry) f.now) asks.old asks.new result }
{
    match to {
        Some(to) => frame_fits(alloc, asks, f, to),
        None => Ok(()),
    }
}

// Behind an instruction that doesn't go on, what stands there has a frame.
fn is_declared(asks: &mut Items<Ask>, to: Option<&Frame>) -> Result<(), Stop>
    ensures { Checked (is_declared (option_copied to.entry)) asks.old asks.new result }
{
    match to {
        Some(_) => Ok(()),
        None => Err(Stop::Fault(Cause::NoFrame)),
    }
}

#[tactic(auto, unfolding(verify_rules::specs::Flow::flows))]
fn flows(
    alloc: Global,
    asks: &mut Items<Ask>,
    declared: &Declared,
    size: usize,
    falls: bool,
    next: u32,
    f: &Frame,
) -> Result<(), Stop>
    ensures { Checked (flows declared.now size falls next f.now) asks.old asks.new result }
{
    let is_within = (next as usize) < size;
    let to = declared.at(next as usize);
    if falls {
        if is_within {
            return fits_if_declared(alloc, asks, to, f);
        }
        return Err(Stop::Fault(Cause::End));
    }
    if is_within {
        return is_declared(asks, to);
    }
    Ok(())
}

// ---- one instruction

// A copy of the frame before an instruction, where the range of some handler holds it.
fn kept_before(
    alloc: Global,
    e: &Env<'_>,
    place: u32,
    f: &Frame,
) -> Result<Option<Frame>, AllocError>
    ensures { IfOk result (λ kept. kept ≡ kept_before e.now place f.now) }
{
    if !is_guarded(e.code.handlers.as_slice(), place) {
        return Ok(None);
    }
    Ok(Some(frame_copied(alloc, f)?))
}

fn handled_from(
    alloc: Global,
    asks: &mut Items<Ask>,
    e: &Env<'_>,
    declared: &Declared,
    place: u32,
    before: Option<&Frame>,
) -> Result<(), Stop>
    ensures { Checked (handled_from e.now declared.now place (option_copied before.entry)) asks.old asks.new result }
{
    match before {
        Some(f) => all_handled(
            alloc,
            asks,
            e,
            declared,
            place,
            f,
            e.code.handlers.as_slice(),
        ),
        None => Ok(()),
    }
}

// Where an instruction leads, from the frame that was kept before it and the frame after it.
#[tactic(auto, unfolding(verify_rules::specs::Walking::leads_from))]
fn leads_from(
    alloc: Global,
    asks: &mut Items<Ask>,
    e: &Env<'_>,
    declared: &Declared,
    place: u32,
    instr: Instr<'_>,
    next: u32,
    before: Option<&Frame>,
    after: &Frame,
) -> Result<(), Stop>
    ensures { Checked (leads_from e.now declared.now (record { place = place; instr = shown instr.entry; next = next }) (option_copied before.entry) after.now) asks.old asks.new result }
{
    targets_fit(alloc, asks, declared, place, instr, after)?;
    handled_from(alloc, asks, e, declared, place, before)?;
    flows(
        alloc,
        asks,
        declared,
        code_size(e),
        falls_through(instr),
        next,
        after,
    )
}

/// Types an instruction in the frame before it, which becomes the frame after it: its operands, its targets, the handlers
/// whose ranges hold it, and the instruction behind it, in this order.
pub(crate) fn step(
    alloc: Global,
    asks: &mut Items<Ask>,
    e: &Env<'_>,
    declared: &Declared,
    place: u32,
    instr: Instr<'_>,
    next: u32,
    frame: &mut Frame,
) -> Result<(), Stop>
    ensures { Did (step e.now declared.now (record { place = place; instr = shown instr.entry; next = next }) frame.old) asks.old asks.new result frame.new }
{
    let before = kept_before(alloc, e, place, frame)?;
    row(alloc, asks, e, place, instr, frame)?;
    leads_from(
        alloc,
        asks,
        e,
        declared,
        place,
        instr,
        next,
        before.as_ref(),
        frame,
    )
}
