//! The rows that push a constant, take or copy the top, put a number or return.
ghost use Rattle.std.specs.Prelude.{ℤ, List, Option, IfOk};
ghost use Rattle.first_form.specs.declared.program.Instruction.TheVariants as instruction;
ghost use Rattle.first_form.specs.Machine.{row};
ghost use Rattle.first_form.specs.Does.{Does};

use crate::rows::Did;
use crate::stack::Stack;
use std::alloc::AllocError;

#[tactic(auto, unfolding(crate::specs::Machine::row))]
pub(crate) fn nop() -> Did
    ensures { (locals : List (Option ℤ)) (stack : List ℤ) → Does (row instruction.Nop locals stack) result locals locals stack stack }
{
    Did::Next
}

#[tactic(auto, unfolding(crate::specs::Machine::row))]
pub(crate) fn push(n: i32, stack: &mut Stack<i32>) -> Result<Did, AllocError>
    ensures { (locals : List (Option ℤ)) → IfOk result (λ did. Does (row (instruction.Push n) locals stack.old) did locals locals stack.old stack.new) }
{
    stack.push(n)?;
    Ok(Did::Next)
}

#[tactic(auto, unfolding(crate::specs::Machine::row))]
pub(crate) fn pop(stack: &mut Stack<i32>) -> Did
    ensures { (locals : List (Option ℤ)) → Does (row instruction.Pop locals stack.old) result locals locals stack.old stack.new }
{
    let Some(_) = stack.pop() else {
        return Did::NoRow;
    };
    Did::Next
}

#[tactic(auto, unfolding(crate::specs::Machine::row))]
pub(crate) fn dup(stack: &mut Stack<i32>) -> Result<Did, AllocError>
    ensures { (locals : List (Option ℤ)) → IfOk result (λ did. Does (row instruction.Dup locals stack.old) did locals locals stack.old stack.new) }
{
    let Some(n) = stack.pop() else {
        return Ok(Did::NoRow);
    };
    stack.push(n)?;
    stack.push(n)?;
    Ok(Did::Next)
}

#[tactic(auto, unfolding(crate::specs::Machine::row))]
pub(crate) fn put(stack: &mut Stack<i32>) -> Did
    ensures { (locals : List (Option ℤ)) → Does (row instruction.Put locals stack.old) result locals locals stack.old stack.new }
{
    match stack.pop() {
        Some(n) => Did::Puts(n),
        None => Did::NoRow,
    }
}

#[tactic(auto, unfolding(crate::specs::Machine::row))]
pub(crate) fn return_from_main() -> Did
    ensures { (locals : List (Option ℤ)) (stack : List ℤ) → Does (row instruction.Return locals stack) result locals locals stack stack }
{
    Did::Returns
}
