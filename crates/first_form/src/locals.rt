//! The rows of local variables.
ghost use Rattle.std.specs.Prelude.{◌≡◌, ◌<◌, ℤ, List, length, IfOk, OnSome};
ghost use Rattle.first_form.specs.declared.program.Instruction.TheVariants as instruction;
ghost use Rattle.first_form.specs.Machine.{row, int_in};
ghost use Rattle.first_form.specs.Does.{Does};

use crate::rows::Did;
use crate::stack::Stack;
use sqlite_items::{Items, at};
use std::alloc::AllocError;

// The int in a local variable.
fn int_in(locals: &[Option<i32>], local: u8) -> Option<i32>
    ensures int { result ≡ int_in locals.now local }
    ensures within { OnSome result (local < length locals.now) }
{
    match at(locals, usize::from(local)) {
        Some(int) => *int,
        None => None,
    }
}

#[tactic(auto, unfolding(crate::specs::Machine::row))]
pub(crate) fn load(
    local: u8,
    locals: &[Option<i32>],
    stack: &mut Stack<i32>,
) -> Result<Did, AllocError>
    ensures { IfOk result (λ did. Does (row (instruction.Load local) locals.now stack.old) did locals.now locals.now stack.old stack.new) }
{
    let Some(n) = int_in(locals, local) else {
        return Ok(Did::NoRow);
    };
    stack.push(n)?;
    Ok(Did::Next)
}

#[tactic(auto, unfolding(crate::specs::Machine::row), using(crate::proofs::NoRows::no_local))]
pub(crate) fn store(local: u8, locals: &mut Items<Option<i32>>, stack: &mut Stack<i32>) -> Did
    ensures { Does (row (instruction.Store local) locals.old stack.old) result locals.old locals.new stack.old stack.new }
{
    if locals.len() <= usize::from(local) {
        return Did::NoRow;
    }
    let Some(n) = stack.pop() else {
        return Did::NoRow;
    };
    locals.set(usize::from(local), Some(n));
    Did::Next
}

#[tactic(auto, unfolding(crate::specs::Machine::row))]
pub(crate) fn increment(local: u8, amount: i8, locals: &mut Items<Option<i32>>) -> Did
    ensures { (stack : List ℤ) → Does (row (instruction.Increment local amount) locals.old stack) result locals.old locals.new stack stack }
{
    let Some(n) = int_in(locals.as_slice(), local) else {
        return Did::NoRow;
    };
    let sum = n.wrapping_add(i32::from(amount));
    locals.set(usize::from(local), Some(sum));
    Did::Next
}
