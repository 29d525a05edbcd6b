//! A method: the frame that it begins with, what is wrong of it as a whole, and its instructions in their order (JVMS 4.10.1.5,
//! 4.10.1.6).
ghost use Rattle.std.specs.Prelude.{◌≡◌, IfOk, OnOk, Some};
ghost use Rattle.std.specs.List.{list_all};
ghost use Rattle.std.specs.Option.{option_copied};
ghost use Rattle.jsa_ops.specs.Instruction.{shown};
ghost use Rattle.verify_rules.specs.Places.{instructions};
ghost use Rattle.verify_rules.specs.Asking.{Checked, Did, each};
ghost use Rattle.verify_rules.specs.Flow.{declared_at, step};
ghost use Rattle.verify_rules.specs.Walking.{Finds, frames_placed};
ghost use Rattle.verify_rules.specs.Methods.{stand_at_starts, has_frame, is_placed, placed_frames, catches_throwable, catch_test, entered, frame_or, walked, typed_in, typed_from, method_found};

use crate::assigning::object_assign;
use crate::declared::Declared;
use crate::env::Env;
use crate::first_frame::first_frame;
use crate::flow::{fits_if_declared, step};
use class_tree::{Handler, Pool};
use jsa_ops::Instr;
use sqlite_items::Items;
use std::alloc::{AllocError, Global};
use verify_rules::{Ask, Cause, Frame, Stop, VerifyFault, frame_copied};
use verify_types::{Places, frames_of};

// ---- what is wrong of the method as a whole

// Frames stand where instructions begin.
fn stand_at_starts(places: &Places<'_>, frames: &[(u32, Frame)]) -> bool
    ensures { result ≡ stand_at_starts places.now frames.now }
{
    frames.iter().all(|declared| places.is_start(declared.0))
}

fn has_frame(declared: &Declared, place: u16) -> bool
    ensures { result ≡ has_frame (declared_at declared.now place) }
{
    declared.at(usize::from(place)).is_some()
}

// The range of a handler begins and ends where instructions begin, or at the end of the code. The handler begins with one,
// and has a frame.
fn is_placed(places: &Places<'_>, declared: &Declared, h: &Handler) -> bool
    ensures { result ≡ is_placed places.now declared.now h.now }
{
    places.is_start(u32::from(h.start))
        && (places.is_start(u32::from(h.end)) || usize::from(h.end) == places.code().len())
        && places.is_start(u32::from(h.handler))
        && has_frame(declared, h.handler)
}

fn are_placed(places: &Places<'_>, declared: &Declared, handlers: &[Handler]) -> bool
    ensures { result ≡ list_all (is_placed places.now declared.now) handlers.now }
{
    handlers.iter().all(|h| is_placed(places, declared, h))
}

// The frames that are declared, where they and the handlers are placed so.
fn frames_if_placed(
    alloc: Global,
    places: &Places<'_>,
    handlers: &[Handler],
    frames: Items<(u32, Frame)>,
) -> Result<Option<Declared>, AllocError>
    ensures { IfOk result (λ declared. declared ≡ frames_placed places.now handlers.now frames) }
{
    if !stand_at_starts(places, frames.as_slice()) {
        return Ok(None);
    }
    let declared = Declared::new(alloc, frames)?;
    if !are_placed(places, &declared, handlers) {
        return Ok(None);
    }
    Ok(Some(declared))
}

// The frames of a method that has none of these faults.
#[tactic(auto, unfolding(verify_rules::specs::Methods::placed_frames))]
fn placed_frames(
    alloc: Global,
    e: &Env<'_>,
    places: &Places<'_>,
    first: &Frame,
) -> Result<Option<Declared>, AllocError>
    requires { places.now ≡ e.now.code.bytes }
    ensures { IfOk result (λ declared. declared ≡ placed_frames e.now first.now) }
{
    match frames_of(alloc, e.code, first, &e.tree.pool) {
        Ok(frames) => frames_if_placed(alloc, places, e.code.handlers.as_slice(), frames),
        Err(VerifyFault::Bad) => Ok(None),
        Err(VerifyFault::Memory) => Err(AllocError),
    }
}

// ---- before the instructions

fn catches_throwable(alloc: Global, asks: &mut Items<Ask>, class: Option<&[u8]>) -> Result<(), Stop>
    ensures { Checked (catches_throwable (option_copied class.entry)) asks.old asks.new result }
{
    match class {
        Some(class) => object_assign(alloc, asks, class, b"java/lang/Throwable"),
        None => Err(Stop::Fault(Cause::Written)),
    }
}

// The class that a handler names is one of throwables.
fn catch_test(alloc: Global, asks: &mut Items<Ask>, pool: &Pool, h: &Handler) -> Result<(), Stop>
    ensures { Checked (catch_test pool.now h.now) asks.old asks.new result }
{
    if h.catch == 0 {
        return Ok(());
    }
    catches_throwable(alloc, asks, pool.class_name(h.catch))
}

fn all_catch(
    alloc: Global,
    asks: &mut Items<Ask>,
    pool: &Pool,
    handlers: &[Handler],
) -> Result<(), Stop>
    ensures { Checked (each (catch_test pool.now) handlers.now) asks.old asks.new result }
{
    for h in handlers {
        catch_test(alloc, asks, pool, h)?;
    }
    Ok(())
}

// The classes that are caught, in the order of the table; then the first frame to one that is declared at place 0.
#[tactic(auto, unfolding(verify_rules::specs::Methods::entered))]
fn entered(
    alloc: Global,
    asks: &mut Items<Ask>,
    e: &Env<'_>,
    declared: &Declared,
    first: &Frame,
) -> Result<(), Stop>
    ensures { Checked (entered e.now declared.now first.now) asks.old asks.new result }
{
    all_catch(alloc, asks, &e.tree.pool, e.code.handlers.as_slice())?;
    fits_if_declared(alloc, asks, declared.at(0), first)
}

// ---- the instructions

// Makes the frame at a place the one that is declared there, if any is.
fn take_declared(
    alloc: Global,
    declared: &Declared,
    place: u32,
    frame: &mut Frame,
) -> Result<(), AllocError>
    ensures { OnOk result (frame.new ≡ frame_or (declared_at declared.now place) frame.old) }
{
    if let Some(found) = declared.at(place as usize) {
        *frame = frame_copied(alloc, found)?;
    }
    Ok(())
}

// An instruction in the frame that is declared at its place, or else in the one that comes to it.
fn turn(
    alloc: Global,
    asks: &mut Items<Ask>,
    e: &Env<'_>,
    declared: &Declared,
    place: u32,
    instr: Instr<'_>,
    next: u32,
    frame: &mut Frame,
) -> Result<(), Stop>
    ensures { Did (step e.now declared.now (record { place = place; instr = shown instr.entry; next = next }) (frame_or (declared_at declared.now place) frame.old)) asks.old asks.new result frame.new }
{
    take_declared(alloc, declared, place, frame)?;
    step(alloc, asks, e, declared, place, instr, next, frame)
}

// The instructions, from the first on, which this frame comes to, up to the first fault.
fn walked(
    alloc: Global,
    asks: &mut Items<Ask>,
    e: &Env<'_>,
    declared: &Declared,
    places: &Places<'_>,
    first: Frame,
) -> Result<Option<u32>, AllocError>
    ensures { Finds (walked e.now declared.now first (instructions places.now).placed (instructions places.now).bad) asks.old asks.new result }
{
    let mut frame = first;
    for k in 0..places.len() {
        let Some((place, instr, next)) = places.get(k) else {
            unreachable!()
        };
        match turn(alloc, asks, e, declared, place, instr, next, &mut frame) {
            Ok(()) => {}
            Err(Stop::Fault(_)) => return Ok(Some(place)),
            Err(Stop::Memory) => return Err(AllocError),
        }
    }
    Ok(places.bad())
}

// ---- the method

// What is found behind what is asked before the instructions.
fn typed_in(
    alloc: Global,
    asks: &mut Items<Ask>,
    e: &Env<'_>,
    declared: &Declared,
    places: &Places<'_>,
    first: Frame,
) -> Result<Option<u32>, AllocError>
    requires { places.now ≡ e.now.code.bytes }
    ensures { Finds (typed_in e.now first (Some declared.now)) asks.old asks.new result }
{
    match entered(alloc, asks, e, declared, &first) {
        Ok(()) => walked(alloc, asks, e, declared, places, first),
        Err(Stop::Fault(_)) => Ok(Some(0)),
        Err(Stop::Memory) => Err(AllocError),
    }
}

// What is found of a method that begins with a frame, over the places of its instructions.
fn typed_over(
    alloc: Global,
    asks: &mut Items<Ask>,
    e: &Env<'_>,
    places: &Places<'_>,
    first: Frame,
) -> Result<Option<u32>, AllocError>
    requires { places.now ≡ e.now.code.bytes }
    ensures { Finds (typed_from e.now (Some first)) asks.old asks.new result }
{
    match placed_frames(alloc, e, places, &first)? {
        Some(declared) => typed_in(alloc, asks, e, &declared, places, first),
        None => Ok(Some(0)),
    }
}

// What is found of a method that begins with a frame.
fn typed_from(
    alloc: Global,
    asks: &mut Items<Ask>,
    e: &Env<'_>,
    first: Frame,
) -> Result<Option<u32>, AllocError>
    ensures { Finds (typed_from e.now (Some first)) asks.old asks.new result }
{
    let places = Places::new(alloc, e.code.bytes.as_slice())?;
    typed_over(alloc, asks, e, &places, first)
}

/// Types a method: the questions up to the first fault are added, and the place of that is given, if there is one.
#[tactic(auto, unfolding(verify_rules::specs::Methods::method_found))]
pub(crate) fn method_found(
    alloc: Global,
    asks: &mut Items<Ask>,
    e: &Env<'_>,
) -> Result<Option<u32>, AllocError>
    ensures { Finds (method_found e.now) asks.old asks.new result }
{
    if e.code.bytes.len() == 0 {
        return Ok(Some(0));
    }
    match first_frame(alloc, e)? {
        Some(first) => typed_from(alloc, asks, e, first),
        None => Ok(Some(0)),
    }
}
