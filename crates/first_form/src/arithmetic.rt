//! The rows of arithmetic: the operands are taken, and the result is pushed.
ghost use Rattle.std.specs.Prelude.{ℤ, List, Option, IfOk};
ghost use Rattle.first_form.specs.declared.program.Instruction.TheVariants as instruction;
ghost use Rattle.first_form.specs.Machine.{row};
ghost use Rattle.first_form.specs.Does.{Does};

use crate::rows::Did;
use crate::stack::Stack;
use std::alloc::AllocError;

#[tactic(auto, unfolding(crate::specs::Machine::row), using(crate::proofs::NoRows::no_add))]
pub(crate) fn add(stack: &mut Stack<i32>) -> Result<Did, AllocError>
    ensures { (locals : List (Option ℤ)) → IfOk result (λ did. Does (row instruction.Add locals stack.old) did locals locals stack.old stack.new) }
{
    let Some((b, a)) = stack.pop_two() else {
        return Ok(Did::NoRow);
    };
    stack.push(a.wrapping_add(b))?;
    Ok(Did::Next)
}

#[tactic(auto, unfolding(crate::specs::Machine::row), using(crate::proofs::NoRows::no_subtract))]
pub(crate) fn subtract(stack: &mut Stack<i32>) -> Result<Did, AllocError>
    ensures { (locals : List (Option ℤ)) → IfOk result (λ did. Does (row instruction.Subtract locals stack.old) did locals locals stack.old stack.new) }
{
    let Some((b, a)) = stack.pop_two() else {
        return Ok(Did::NoRow);
    };
    stack.push(a.wrapping_sub(b))?;
    Ok(Did::Next)
}

#[tactic(auto, unfolding(crate::specs::Machine::row), using(crate::proofs::NoRows::no_multiply))]
pub(crate) fn multiply(stack: &mut Stack<i32>) -> Result<Did, AllocError>
    ensures { (locals : List (Option ℤ)) → IfOk result (λ did. Does (row instruction.Multiply locals stack.old) did locals locals stack.old stack.new) }
{
    let Some((b, a)) = stack.pop_two() else {
        return Ok(Did::NoRow);
    };
    stack.push(a.wrapping_mul(b))?;
    Ok(Did::Next)
}

#[tactic(auto, unfolding(crate::specs::Machine::row))]
pub(crate) fn negate(stack: &mut Stack<i32>) -> Result<Did, AllocError>
    ensures { (locals : List (Option ℤ)) → IfOk result (λ did. Does (row instruction.Negate locals stack.old) did locals locals stack.old stack.new) }
{
    let Some(n) = stack.pop() else {
        return Ok(Did::NoRow);
    };
    stack.push(n.wrapping_neg())?;
    Ok(Did::Next)
}
