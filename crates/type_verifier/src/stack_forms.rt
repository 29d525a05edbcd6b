//! pop, dup and swap forms (JVMS 4.10.1.9). They move whole types: a long or a double is never split.
ghost use Rattle.std.specs.Prelude.{◌≡◌, ◌++◌, [], ◌∷◌, IfOk};
ghost use Rattle.verify_rules.specs.Types.{is_top};
ghost use Rattle.verify_rules.specs.declared.types.VType.{VType};
ghost use Rattle.verify_rules.specs.Causes.{Does};
ghost use Rattle.verify_rules.specs.StackForms.{is_one, one_unit, two_units, put, stack_form};
ghost use Rattle.verify_rules.specs.StackSteps as steps;
ghost use Rattle.verify_rules.specs.StackSteps.{Cuts};

use crate::letters::push;
use std::alloc::{AllocError, Global};
use std::marker::Model;
use verify_rules::{Cause, Stop, TypeStack, VType, copied, size};

// Types that a form moves together: one, or two of one unit. Contracts see their list, the upper one first.
#[derive(Drop)]
struct Units {
    upper: VType,
    lower: Option<VType>,
}

impl Model for Units {
    ghost use Rattle.std.specs.Prelude.{List, ◌∷◌};
    ghost use Rattle.std.specs.Option.{option_to_list};
    ghost use Rattle.verify_rules.specs.declared.types.VType.{VType};

    ghost Value = { List VType };

    ghost view = { λ u. u.upper ∷ option_to_list u.lower };
}

impl Units {
    fn one(t: VType) -> Units
        ensures { result ≡ t ∷ [] }
    {
        Units {
            upper: t,
            lower: None,
        }
    }

    fn two(upper: VType, lower: VType) -> Units
        ensures { result ≡ upper ∷ lower ∷ [] }
    {
        Units {
            upper,
            lower: Some(lower),
        }
    }

    // Types of one's own.
    fn copied(&self, alloc: Global) -> Result<Units, AllocError>
        ensures { IfOk result (λ r. r ≡ self.now) }
    {
        let upper = copied(alloc, &self.upper)?;
        match &self.lower {
            Some(lower) => Ok(Units::two(upper, copied(alloc, lower)?)),
            None => Ok(Units::one(upper)),
        }
    }

    // Puts the types on top.
    fn put(self, room: u16, stack: &mut TypeStack) -> Result<(), Stop>
        ensures { Does (put room self stack.old) result stack.new }
    {
        let Units { upper, lower } = self;
        match lower {
            Some(lower) => put_two(room, upper, lower, stack),
            None => put_one(room, upper, stack),
        }
    }
}

// Puts a type.
#[tactic(auto, using(crate::proofs::Moved::one_put))]
fn put_one(room: u16, t: VType, stack: &mut TypeStack) -> Result<(), Stop>
    ensures { Does (put room (t ∷ []) stack.old) result stack.new }
{
    push(room, t, stack)
}

// Puts a type, and then another on top of it.
#[tactic(auto, unfolding(verify_rules::specs::StackSteps::push_both))]
fn push_both(room: u16, upper: VType, lower: VType, stack: &mut TypeStack) -> Result<(), Stop>
    ensures { Does (steps.push_both room upper lower stack.old) result stack.new }
{
    push(room, lower, stack)?;
    push(room, upper, stack)
}

// Puts two types, for which there is room together.
#[tactic(auto, using(crate::proofs::Moved::two_put))]
fn put_two(room: u16, upper: VType, lower: VType, stack: &mut TypeStack) -> Result<(), Stop>
    ensures { Does (put room (upper ∷ lower ∷ []) stack.old) result stack.new }
{
    push_both(room, upper, lower, stack)
}

fn is_top(t: &VType) -> bool
    ensures { result ≡ is_top t.now }
{
    matches!(t, VType::Top)
}

// Whether a type takes one unit, and is not Top.
fn is_one(t: &VType) -> bool
    ensures { result ≡ is_one t.now }
{
    size(t) == 1 && !is_top(t)
}

// Takes a type of one unit.
fn one_type(stack: &mut TypeStack) -> Result<VType, Stop>
    ensures { Cuts (λ t. t ∷ []) (one_unit stack.old) result stack.new }
{
    let Some(t) = stack.pop() else {
        return Err(Stop::Fault(Cause::Operands));
    };
    if is_one(&t) {
        return Ok(t);
    }
    Err(Stop::Fault(Cause::Operands))
}

// Takes one unit.
fn one_unit(stack: &mut TypeStack) -> Result<Units, Stop>
    ensures { Cuts (λ u. u) (one_unit stack.old) result stack.new }
{
    let t = one_type(stack)?;
    Ok(Units::one(t))
}

// Takes two units: a type of two, or two of one.
fn two_units(stack: &mut TypeStack) -> Result<Units, Stop>
    ensures { Cuts (λ u. u) (two_units stack.old) result stack.new }
{
    let Some(t) = stack.pop() else {
        return Err(Stop::Fault(Cause::Operands));
    };
    if is_one(&t) {
        let lower = one_type(stack)?;
        return Ok(Units::two(t, lower));
    }
    if size(&t) == 2 {
        return Ok(Units::one(t));
    }
    Err(Stop::Fault(Cause::Operands))
}

// Puts types, and then others on top of them.
#[tactic(auto, unfolding(verify_rules::specs::StackSteps::put_both))]
fn put_in_turn(room: u16, upper: Units, lower: Units, stack: &mut TypeStack) -> Result<(), Stop>
    ensures { Does (steps.put_both room upper lower stack.old) result stack.new }
{
    lower.put(room, stack)?;
    upper.put(room, stack)
}

// Puts types on top of others, for all of which there is room together.
#[tactic(auto, using(crate::proofs::Moved::both_put))]
fn put_both(room: u16, upper: Units, lower: Units, stack: &mut TypeStack) -> Result<(), Stop>
    ensures { Does (put room (upper ++ lower) stack.old) result stack.new }
{
    put_in_turn(room, upper, lower, stack)
}

// Puts the types twice.
fn doubled(alloc: Global, room: u16, units: Units, stack: &mut TypeStack) -> Result<(), Stop>
    ensures { Does (put room (units ++ units) stack.old) result stack.new }
{
    let copy = units.copied(alloc)?;
    put_both(room, units, copy, stack)
}

// Puts a copy, and then the lower types and the upper ones on top of it.
#[tactic(auto, unfolding(verify_rules::specs::StackSteps::put_both))]
fn slip_in_turn(
    room: u16,
    upper: Units,
    lower: Units,
    copy: Units,
    stack: &mut TypeStack,
) -> Result<(), Stop>
    ensures { Does (steps.put_both room (upper ++ lower) copy stack.old) result stack.new }
{
    copy.put(room, stack)?;
    put_both(room, upper, lower, stack)
}

// Puts the upper types once more below the lower ones.
#[tactic(auto, using(crate::proofs::Moved::three_put))]
fn slipped(
    alloc: Global,
    room: u16,
    upper: Units,
    lower: Units,
    stack: &mut TypeStack,
) -> Result<(), Stop>
    ensures { Does (put room (upper ++ (lower ++ upper)) stack.old) result stack.new }
{
    let copy = upper.copied(alloc)?;
    slip_in_turn(room, upper, lower, copy, stack)
}

fn pop(stack: &mut TypeStack) -> Result<(), Stop>
    ensures { Does (steps.pop stack.old) result stack.new }
{
    let _units = one_unit(stack)?;
    Ok(())
}

fn pop2(stack: &mut TypeStack) -> Result<(), Stop>
    ensures { Does (steps.pop2 stack.old) result stack.new }
{
    let _units = two_units(stack)?;
    Ok(())
}

fn dup(alloc: Global, room: u16, stack: &mut TypeStack) -> Result<(), Stop>
    ensures { Does (steps.dup room stack.old) result stack.new }
{
    let units = one_unit(stack)?;
    doubled(alloc, room, units, stack)
}

fn dup_x1(alloc: Global, room: u16, stack: &mut TypeStack) -> Result<(), Stop>
    ensures { Does (steps.dup_x1 room stack.old) result stack.new }
{
    let upper = one_unit(stack)?;
    let lower = one_unit(stack)?;
    slipped(alloc, room, upper, lower, stack)
}

fn dup_x2(alloc: Global, room: u16, stack: &mut TypeStack) -> Result<(), Stop>
    ensures { Does (steps.dup_x2 room stack.old) result stack.new }
{
    let upper = one_unit(stack)?;
    let lower = two_units(stack)?;
    slipped(alloc, room, upper, lower, stack)
}

fn dup2(alloc: Global, room: u16, stack: &mut TypeStack) -> Result<(), Stop>
    ensures { Does (steps.dup2 room stack.old) result stack.new }
{
    let units = two_units(stack)?;
    doubled(alloc, room, units, stack)
}

fn dup2_x1(alloc: Global, room: u16, stack: &mut TypeStack) -> Result<(), Stop>
    ensures { Does (steps.dup2_x1 room stack.old) result stack.new }
{
    let upper = two_units(stack)?;
    let lower = one_unit(stack)?;
    slipped(alloc, room, upper, lower, stack)
}

fn dup2_x2(alloc: Global, room: u16, stack: &mut TypeStack) -> Result<(), Stop>
    ensures { Does (steps.dup2_x2 room stack.old) result stack.new }
{
    let upper = two_units(stack)?;
    let lower = two_units(stack)?;
    slipped(alloc, room, upper, lower, stack)
}

fn swap(room: u16, stack: &mut TypeStack) -> Result<(), Stop>
    ensures { Does (steps.swap room stack.old) result stack.new }
{
    let upper = one_unit(stack)?;
    let lower = one_unit(stack)?;
    put_both(room, lower, upper, stack)
}

/// Does what a form of the operand stack does, from pop on to swap.
#[tactic(auto, unfolding(verify_rules::specs::StackForms::stack_form))]
pub(crate) fn stack_form(
    alloc: Global,
    room: u16,
    op: u8,
    stack: &mut TypeStack,
) -> Result<(), Stop>
    ensures { Does (stack_form room op stack.old) result stack.new }
{
    match op {
        0x57 => pop(stack),
        0x58 => pop2(stack),
        0x59 => dup(alloc, room, stack),
        0x5a => dup_x1(alloc, room, stack),
        0x5b => dup_x2(alloc, room, stack),
        0x5c => dup2(alloc, room, stack),
        0x5d => dup2_x1(alloc, room, stack),
        0x5e => dup2_x2(alloc, room, stack),
        0x5f => swap(room, stack),
        _ => Err(Stop::Fault(Cause::Written)),
    }
}
