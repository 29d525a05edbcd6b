//! What each instruction does with the local variables and the operand stack.
ghost use Rattle.std.specs.Prelude.{IfOk};
ghost use Rattle.first_form.specs.Machine.{row};
ghost use Rattle.first_form.specs.Does.{Does};

use crate::arithmetic::{add, multiply, negate, subtract};
use crate::bits::{
    and, logical_shift_right, or, shift_left, shift_right, to_byte, to_char, to_short, xor,
};
use crate::locals::{increment, load, store};
use crate::plain::{dup, nop, pop, push, put, return_from_main};
use crate::program::Instruction;
use crate::stack::Stack;
use sqlite_items::Items;
use std::alloc::AllocError;

/// What an instruction did.
#[derive(Clone, Copy, Debug, PartialEq, Eq)]
pub(crate) enum Did {
    /// The next instruction follows.
    Next,
    /// It put the number, and the next instruction follows.
    Puts(i32),
    /// It returned from `main`.
    Returns,
    /// It lacks an operand or its local, and the locals and the stack are as before.
    NoRow,
}

/// Does the row of an instruction on the local variables and the operand stack.
pub(crate) fn do_row(
    instruction: Instruction,
    locals: &mut Items<Option<i32>>,
    stack: &mut Stack<i32>,
) -> Result<Did, AllocError>
    ensures { IfOk result (λ did. Does (row instruction locals.old stack.old) did locals.old locals.new stack.old stack.new) }
{
    match instruction {
        Instruction::Nop => Ok(nop()),
        Instruction::Push(n) => push(n, stack),
        Instruction::Load(local) => load(local, locals.as_slice(), stack),
        Instruction::Store(local) => Ok(store(local, locals, stack)),
        Instruction::Pop => Ok(pop(stack)),
        Instruction::Dup => dup(stack),
        Instruction::Add => add(stack),
        Instruction::Subtract => subtract(stack),
        Instruction::Multiply => multiply(stack),
        Instruction::Negate => negate(stack),
        Instruction::ShiftLeft => shift_left(stack),
        Instruction::ShiftRight => shift_right(stack),
        Instruction::LogicalShiftRight => logical_shift_right(stack),
        Instruction::And => and(stack),
        Instruction::Or => or(stack),
        Instruction::Xor => xor(stack),
        Instruction::Increment(local, amount) => Ok(increment(local, amount, locals)),
        Instruction::ToByte => to_byte(stack),
        Instruction::ToChar => to_char(stack),
        Instruction::ToShort => to_short(stack),
        Instruction::Put => Ok(put(stack)),
        Instruction::Return => Ok(return_from_main()),
    }
}
