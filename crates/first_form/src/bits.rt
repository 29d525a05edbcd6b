//! The rows of shifts, of bits and of conversions: the operands are taken, and the result is pushed.
ghost use Rattle.std.specs.Prelude.{◌≡◌, ℤ, List, Option, IfOk};
ghost use Rattle.first_form.specs.declared.program.Instruction.TheVariants as instruction;
ghost use Rattle.first_form.specs.Machine.{row, low_bits, logical_shift_right};
ghost use Rattle.first_form.specs.Does.{Does};

use crate::rows::Did;
use crate::stack::Stack;
use std::alloc::AllocError;

// A shift's distance is the low five bits of the top.
#[tactic(auto, unfolding(crate::specs::Machine::row), using(crate::proofs::NoRows::no_shift_left))]
pub(crate) fn shift_left(stack: &mut Stack<i32>) -> Result<Did, AllocError>
    ensures { (locals : List (Option ℤ)) → IfOk result (λ did. Does (row instruction.ShiftLeft locals stack.old) did locals locals stack.old stack.new) }
{
    let Some((b, a)) = stack.pop_two() else {
        return Ok(Did::NoRow);
    };
    stack.push(a.wrapping_shl(b.cast_unsigned()))?;
    Ok(Did::Next)
}

#[tactic(auto, unfolding(crate::specs::Machine::row), using(crate::proofs::NoRows::no_shift_right))]
pub(crate) fn shift_right(stack: &mut Stack<i32>) -> Result<Did, AllocError>
    ensures { (locals : List (Option ℤ)) → IfOk result (λ did. Does (row instruction.ShiftRight locals stack.old) did locals locals stack.old stack.new) }
{
    let Some((b, a)) = stack.pop_two() else {
        return Ok(Did::NoRow);
    };
    stack.push(a.wrapping_shr(b.cast_unsigned()))?;
    Ok(Did::Next)
}

#[tactic(auto, unfolding(crate::specs::Machine::row), using(crate::proofs::NoRows::no_logical_shift_right))]
pub(crate) fn logical_shift_right(stack: &mut Stack<i32>) -> Result<Did, AllocError>
    ensures { (locals : List (Option ℤ)) → IfOk result (λ did. Does (row instruction.LogicalShiftRight locals stack.old) did locals locals stack.old stack.new) }
{
    let Some((b, a)) = stack.pop_two() else {
        return Ok(Did::NoRow);
    };
    stack.push(shifted_with_zeros(a, b))?;
    Ok(Did::Next)
}

// The number shifted to the right with zeros, by the low five bits of the distance.
fn shifted_with_zeros(n: i32, distance: i32) -> i32
    ensures { result ≡ logical_shift_right n (low_bits 5 distance) }
{
    let bits = n.cast_unsigned().wrapping_shr(distance.cast_unsigned());
    bits.cast_signed()
}

#[tactic(auto, unfolding(crate::specs::Machine::row), using(crate::proofs::NoRows::no_and))]
pub(crate) fn and(stack: &mut Stack<i32>) -> Result<Did, AllocError>
    ensures { (locals : List (Option ℤ)) → IfOk result (λ did. Does (row instruction.And locals stack.old) did locals locals stack.old stack.new) }
{
    let Some((b, a)) = stack.pop_two() else {
        return Ok(Did::NoRow);
    };
    stack.push(a & b)?;
    Ok(Did::Next)
}

#[tactic(auto, unfolding(crate::specs::Machine::row), using(crate::proofs::NoRows::no_or))]
pub(crate) fn or(stack: &mut Stack<i32>) -> Result<Did, AllocError>
    ensures { (locals : List (Option ℤ)) → IfOk result (λ did. Does (row instruction.Or locals stack.old) did locals locals stack.old stack.new) }
{
    let Some((b, a)) = stack.pop_two() else {
        return Ok(Did::NoRow);
    };
    stack.push(a | b)?;
    Ok(Did::Next)
}

#[tactic(auto, unfolding(crate::specs::Machine::row), using(crate::proofs::NoRows::no_xor))]
pub(crate) fn xor(stack: &mut Stack<i32>) -> Result<Did, AllocError>
    ensures { (locals : List (Option ℤ)) → IfOk result (λ did. Does (row instruction.Xor locals stack.old) did locals locals stack.old stack.new) }
{
    let Some((b, a)) = stack.pop_two() else {
        return Ok(Did::NoRow);
    };
    stack.push(a ^ b)?;
    Ok(Did::Next)
}

#[tactic(auto, unfolding(crate::specs::Machine::row))]
pub(crate) fn to_byte(stack: &mut Stack<i32>) -> Result<Did, AllocError>
    ensures { (locals : List (Option ℤ)) → IfOk result (λ did. Does (row instruction.ToByte locals stack.old) did locals locals stack.old stack.new) }
{
    let Some(n) = stack.pop() else {
        return Ok(Did::NoRow);
    };
    stack.push(i32::from(low_byte(n).cast_signed()))?;
    Ok(Did::Next)
}

#[tactic(auto, unfolding(crate::specs::Machine::row))]
pub(crate) fn to_char(stack: &mut Stack<i32>) -> Result<Did, AllocError>
    ensures { (locals : List (Option ℤ)) → IfOk result (λ did. Does (row instruction.ToChar locals stack.old) did locals locals stack.old stack.new) }
{
    let Some(n) = stack.pop() else {
        return Ok(Did::NoRow);
    };
    stack.push(i32::from(low_short(n)))?;
    Ok(Did::Next)
}

#[tactic(auto, unfolding(crate::specs::Machine::row))]
pub(crate) fn to_short(stack: &mut Stack<i32>) -> Result<Did, AllocError>
    ensures { (locals : List (Option ℤ)) → IfOk result (λ did. Does (row instruction.ToShort locals stack.old) did locals locals stack.old stack.new) }
{
    let Some(n) = stack.pop() else {
        return Ok(Did::NoRow);
    };
    stack.push(i32::from(low_short(n).cast_signed()))?;
    Ok(Did::Next)
}

// The low 8 bits.
fn low_byte(n: i32) -> u8
    ensures { result ≡ low_bits 8 n }
{
    (n.cast_unsigned() % 256) as u8
}

// The low 16 bits.
fn low_short(n: i32) -> u16
    ensures { result ≡ low_bits 16 n }
{
    (n.cast_unsigned() % 65536) as u16
}
