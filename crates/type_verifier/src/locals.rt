//! Loads, stores and iinc (JVMS 4.10.1.7).
ghost use Rattle.std.specs.Prelude.{◌≡◌, ◌≤◌, ◌<◌, length, slice_get};
ghost use Rattle.verify_rules.specs.Frames.{is_wide};
ghost use Rattle.verify_rules.specs.Causes.{Does};
ghost use Rattle.verify_rules.specs.Locals.{loaded, is_wide_in, cut_before, set_local, last_of, stored, counted};

use crate::letters::{is_of, is_wide_letter, push};
use sqlite_items::Items;
use std::alloc::Global;
use verify_rules::{Cause, Frame, Letter, Stop, VType, copied};

/// Puts the type of a local on top of the stack.
#[tactic(auto, unfolding(verify_rules::specs::Locals::loaded))]
pub(crate) fn loaded(
    alloc: Global,
    room: u16,
    letter: Letter,
    k: u16,
    frame: &mut Frame,
) -> Result<(), Stop>
    ensures { Does (loaded room letter k frame.old) result frame.new }
{
    let Some(t) = frame.locals.get(k as usize) else {
        return Err(Stop::Fault(Cause::Written));
    };
    if !is_of(letter, t) {
        return Err(Stop::Fault(Cause::Mismatch));
    }
    let t = copied(alloc, t)?;
    push(room, t, &mut frame.stack)
}

// Whether a type takes two slots.
fn is_wide(t: &VType) -> bool
    ensures { result ≡ is_wide t.now }
{
    match t {
        VType::Top => false,
        VType::Integer => false,
        VType::Float => false,
        VType::Double => true,
        VType::Long => true,
        VType::Null => false,
        VType::UninitializedThis => false,
        VType::Object(_) => false,
        VType::Uninitialized(_) => false,
    }
}

// Whether a long or a double begins in a local.
fn is_wide_at(locals: &[VType], k: usize) -> bool
    ensures { result ≡ is_wide_in (slice_get locals.now k) }
{
    let Some(t) = locals.get(k) else {
        return false;
    };
    is_wide(t)
}

// A long or a double that begins right before a local loses its second half there.
fn cut_before(locals: &mut Items<VType>, k: u16)
    requires { k ≤ length locals.old }
    ensures { locals.new ≡ cut_before locals.old k }
{
    if k == 0 {
        return;
    }
    if is_wide_at(locals.as_slice(), k as usize - 1) {
        locals.set(k as usize - 1, VType::Top);
    }
}

// A local gets a type. The second slot of a wide one is Top.
#[tactic(auto, unfolding(verify_rules::specs::Locals::set_local))]
fn set_local(locals: &mut Items<VType>, k: u16, t: VType, wide: bool)
    requires { last_of k wide < length locals.old }
    ensures { locals.new ≡ set_local locals.old k t wide }
{
    cut_before(locals, k);
    locals.set(k as usize, t);
    if wide {
        locals.set(k as usize + 1, VType::Top);
    }
}

// The last slot of a local.
fn last_of(k: u16, wide: bool) -> usize
    ensures { result ≡ last_of k wide }
{
    if wide { k as usize + 1 } else { k as usize }
}

/// Takes a type of the letter off the stack and puts it into a local.
#[tactic(auto, unfolding(verify_rules::specs::Locals::stored))]
pub(crate) fn stored(letter: Letter, k: u16, frame: &mut Frame) -> Result<(), Stop>
    ensures { Does (stored letter k frame.old) result frame.new }
{
    let wide = is_wide_letter(letter);
    if last_of(k, wide) >= frame.locals.len() {
        return Err(Stop::Fault(Cause::Written));
    }
    let Some(t) = frame.stack.pop() else {
        return Err(Stop::Fault(Cause::Operands));
    };
    if !is_of(letter, &t) {
        return Err(Stop::Fault(Cause::Mismatch));
    }
    set_local(&mut frame.locals, k, t, wide);
    Ok(())
}

/// Tests that a local holds an int, which iinc changes.
#[tactic(auto, unfolding(verify_rules::specs::Locals::counted))]
pub(crate) fn counted(k: u16, frame: &Frame) -> Result<(), Stop>
    ensures { Does (counted k frame.now) result frame.now }
{
    let Some(t) = frame.locals.get(k as usize) else {
        return Err(Stop::Fault(Cause::Written));
    };
    if is_of(Letter::Int, t) {
        return Ok(());
    }
    Err(Stop::Fault(Cause::Mismatch))
}
