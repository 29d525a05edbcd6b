//! Frames that fit declared ones, and the questions that it takes (JVMS 4.10.1.4).
ghost use Rattle.std.specs.Prelude.{◌≡◌, [], ◌∷◌, ◌||◌, length, not};
ghost use Rattle.verify_rules.specs.declared.types.VType.TheVariants as types;
ghost use Rattle.verify_rules.specs.declared.cause.Cause.TheVariants.{Length, Unfinished};
ghost use Rattle.verify_rules.specs.Asking.{Checked, and_then, test};
ghost use Rattle.verify_rules.specs.Fits.{locals_fit, operands_fit, stacks_fit, frame_fits, caught};

use crate::assigning::{assign, local_assign, name_assign, test};
use sqlite_items::Items;
use std::alloc::Global;
use verify_rules::{Ask, Cause, Frame, Stop, TypeStack, VType, item};

/// Local by local, from 0 on.
#[tactic(auto, unfolding(verify_rules::specs::Fits::locals_fit))]
pub(crate) fn locals_fit(
    alloc: Global,
    asks: &mut Items<Ask>,
    from: &[VType],
    to: &[VType],
) -> Result<(), Stop>
    ensures { Checked (locals_fit from.now to.now) asks.old asks.new result }
{
    let mut from_left = from;
    let mut to_left = to;
    loop {
        let [a, from_more @ ..] = from_left else {
            return test(Cause::Length, to_left.is_empty());
        };
        let [b, to_more @ ..] = to_left else {
            return Err(Stop::Fault(Cause::Length));
        };
        local_assign(alloc, asks, a, b)?;
        from_left = from_more;
        to_left = to_more;
    }
}

// Operands of two stacks of one length, from the deepest on.
#[tactic(auto, unfolding(verify_rules::specs::Fits::operands_fit))]
fn operands_fit(
    alloc: Global,
    asks: &mut Items<Ask>,
    from: &TypeStack,
    to: &TypeStack,
) -> Result<(), Stop>
    requires { length from.now ≡ length to.now }
    ensures { Checked (operands_fit from.now to.now) asks.old asks.new result }
{
    for k in (0..from.len()).rev() {
        assign(alloc, asks, item(from, k), item(to, k))?;
    }
    Ok(())
}

/// Stacks of one length, from the deepest operand on.
#[tactic(auto, unfolding(verify_rules::specs::Fits::stacks_fit))]
pub(crate) fn stacks_fit(
    alloc: Global,
    asks: &mut Items<Ask>,
    from: &TypeStack,
    to: &TypeStack,
) -> Result<(), Stop>
    ensures { Checked (stacks_fit from.now to.now) asks.old asks.new result }
{
    if from.len() != to.len() {
        return Err(Stop::Fault(Cause::Length));
    }
    operands_fit(alloc, asks, from, to)
}

// Where no constructor was called on `this` in the first frame, none was in the second.
fn keeps_unfinished(from: &Frame, to: &Frame) -> Result<(), Stop>
    ensures { Checked (test Unfinished (not from.now.this_uninit || to.now.this_uninit)) [] [] result }
{
    test(Cause::Unfinished, !from.this_uninit || to.this_uninit)
}

/// A frame to a declared one: the locals, the stacks, and whether a constructor was called on `this`.
#[tactic(auto, unfolding(verify_rules::specs::Fits::frame_fits))]
pub(crate) fn frame_fits(
    alloc: Global,
    asks: &mut Items<Ask>,
    from: &Frame,
    to: &Frame,
) -> Result<(), Stop>
    ensures { Checked (frame_fits from.now to.now) asks.old asks.new result }
{
    locals_fit(alloc, asks, from.locals.as_slice(), to.locals.as_slice())?;
    stacks_fit(alloc, asks, &from.stack, &to.stack)?;
    keeps_unfinished(from, to)
}

// A stack with a throwable alone.
#[tactic(auto, unfolding(verify_rules::specs::Fits::stacks_fit, verify_rules::specs::Fits::operands_fit))]
fn throwable_fits(
    alloc: Global,
    asks: &mut Items<Ask>,
    class: &[u8],
    to: &TypeStack,
) -> Result<(), Stop>
    ensures { Checked (stacks_fit (types.Object class.now ∷ []) to.now) asks.old asks.new result }
{
    if to.len() != 1 {
        return Err(Stop::Fault(Cause::Length));
    }
    name_assign(alloc, asks, class, item(to, 0))
}

/// The frame in which a handler of a class begins, to a declared one: that before the instruction, with the throwable alone
/// on the stack (JVMS 4.10.1.6).
#[tactic(auto, unfolding(verify_rules::specs::Fits::frame_fits))]
pub(crate) fn caught_fits(
    alloc: Global,
    asks: &mut Items<Ask>,
    class: &[u8],
    before: &Frame,
    to: &Frame,
) -> Result<(), Stop>
    ensures { Checked (frame_fits (caught class.now before.now) to.now) asks.old asks.new result }
{
    locals_fit(alloc, asks, before.locals.as_slice(), to.locals.as_slice())?;
    throwable_fits(alloc, asks, class, &to.stack)?;
    keeps_unfinished(before, to)
}
