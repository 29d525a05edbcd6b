//! athrow and returns (JVMS 4.10.1.9).
ghost use Rattle.std.specs.Prelude.{◌≡◌, [], Some};
ghost use Rattle.jsa_names.specs.Types.{field_shown};
ghost use Rattle.verify_rules.specs.Asking.{Did};
ghost use Rattle.verify_rules.specs.Calls as calls;
ghost use Rattle.verify_rules.specs.Env.{own_type};

use crate::descriptors::vtype;
use crate::env::Env;
use crate::letters::is_of;
use crate::operands::{object, took};
use jsa_names::FieldType;
use sqlite_items::Items;
use std::alloc::Global;
use verify_rules::{Ask, Cause, Frame, Letter, Stop, TypeStack};

/// athrow.
#[tactic(auto, unfolding(verify_rules::specs::Calls::thrown))]
pub(crate) fn thrown(
    alloc: Global,
    asks: &mut Items<Ask>,
    stack: &mut TypeStack,
) -> Result<(), Stop>
    ensures { Did (calls.thrown stack.old) asks.old asks.new result stack.new }
{
    let throwable = object(alloc, b"java/lang/Throwable")?;
    took(alloc, asks, &[throwable], stack)
}

fn returned(
    alloc: Global,
    asks: &mut Items<Ask>,
    letter: Letter,
    t: &FieldType<'_>,
    stack: &mut TypeStack,
) -> Result<(), Stop>
    ensures { Did (calls.returned_type letter (Some (field_shown t.now)) stack.old) asks.old asks.new result stack.new }
{
    let t = vtype(alloc, t)?;
    if !is_of(letter, &t) {
        return Err(Stop::Fault(Cause::Written));
    }
    took(alloc, asks, &[t], stack)
}

/// ireturn, lreturn, freturn, dreturn and areturn. The method's result has a type of the letter.
#[tactic(auto, unfolding(verify_rules::specs::Calls::return_row))]
pub(crate) fn return_row(
    alloc: Global,
    asks: &mut Items<Ask>,
    e: &Env<'_>,
    letter: Letter,
    stack: &mut TypeStack,
) -> Result<(), Stop>
    ensures { Did (calls.return_row e.now letter stack.old) asks.old asks.new result stack.new }
{
    let Some(m) = e.own_type() else {
        return Err(Stop::Fault(Cause::Written));
    };
    let Some(t) = m.result() else {
        return Err(Stop::Fault(Cause::Written));
    };
    returned(alloc, asks, letter, &t, stack)
}

fn returns_nothing(e: &Env<'_>) -> bool
    ensures { result ≡ calls.returns_nothing (own_type e.now) }
{
    let Some(m) = e.own_type() else {
        return false;
    };
    m.result().is_none()
}

/// return. The method has no result, and a constructor has called another one.
#[tactic(auto, unfolding(verify_rules::specs::Calls::plain_return_row))]
pub(crate) fn plain_return_row(e: &Env<'_>, frame: &Frame) -> Result<(), Stop>
    ensures { Did (calls.plain_return_row e.now frame.now) [] [] result frame.now }
{
    if !returns_nothing(e) {
        return Err(Stop::Fault(Cause::Written));
    }
    if e.is_constructor() && frame.this_uninit {
        return Err(Stop::Fault(Cause::Unfinished));
    }
    Ok(())
}
