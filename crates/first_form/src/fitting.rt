//! Tests that each instruction finds its operands, its room and its local (JVMS 4.9.2, 4.10).
ghost use Rattle.std.specs.Prelude.{◌≡◌, true, false, length, replicate, IfOk, IsOkUnless, MatchOption};
ghost use Rattle.first_form.specs.Program as program;

use crate::fault::FormFault;
use crate::program::Instruction;
use sqlite_items::{Items, at};
use std::alloc::Global;

// How many numbers an instruction takes from the operand stack, and how many it puts there after that.
#[tactic(auto, unfolding(crate::specs::Program::moves))]
fn moves(instruction: Instruction) -> (u8, u8)
    ensures { result ≡ program.moves instruction }
{
    match instruction {
        Instruction::Nop | Instruction::Increment(_, _) | Instruction::Return => (0, 0),
        Instruction::Push(_) | Instruction::Load(_) => (0, 1),
        Instruction::Store(_) | Instruction::Pop | Instruction::Put => (1, 0),
        Instruction::Dup => (1, 2),
        Instruction::Negate | Instruction::ToByte | Instruction::ToChar | Instruction::ToShort => (
            1, 1,
        ),
        Instruction::Add
        | Instruction::Subtract
        | Instruction::Multiply
        | Instruction::ShiftLeft
        | Instruction::ShiftRight
        | Instruction::LogicalShiftRight
        | Instruction::And
        | Instruction::Or
        | Instruction::Xor => (2, 1),
    }
}

// The depth of the stack after an instruction, where it finds its operands and its room.
fn depth_after(room: u16, depth: u16, instruction: Instruction) -> Option<u16>
    ensures { MatchOption result (program.finds_room room depth instruction ≡ false)
        (λ after. (program.finds_room room depth instruction ≡ true) × (after ≡ program.depth_after depth instruction)) }
{
    let (takes, puts) = moves(instruction);
    if depth < u16::from(takes) {
        return None;
    }
    let after = u32::from(depth - u16::from(takes)) + u32::from(puts);
    if u32::from(room) < after {
        return None;
    }
    Some(after as u16)
}

// Whether an int was stored in a local.
fn is_stored(stored: &[bool], local: u8) -> bool
    ensures { result ≡ program.is_stored stored.now local }
{
    match at(stored, usize::from(local)) {
        Some(stored) => *stored,
        None => false,
    }
}

#[tactic(auto, unfolding(crate::specs::Program::finds_local))]
fn finds_local(stored: &[bool], instruction: Instruction) -> bool
    ensures { result ≡ program.finds_local stored.now instruction }
{
    match instruction {
        Instruction::Load(local) => is_stored(stored, local),
        Instruction::Increment(local, _) => is_stored(stored, local),
        Instruction::Store(local) => usize::from(local) < stored.len(),
        _ => true,
    }
}

// Notes the local in which an instruction stores an int.
#[tactic(auto, unfolding(crate::specs::Program::finds_local, crate::specs::Program::stored_after))]
fn note(instruction: Instruction, stored: &mut Items<bool>)
    requires { program.finds_local stored.old instruction ≡ true }
    ensures { stored.new ≡ program.stored_after stored.old instruction }
{
    match instruction {
        Instruction::Store(local) => stored.set(usize::from(local), true),
        _ => {}
    }
}

fn is_return(instruction: Instruction) -> bool
    ensures { result ≡ program.is_return instruction }
{
    match instruction {
        Instruction::Return => true,
        _ => false,
    }
}

// The instructions fit from an empty stack and these locals on.
#[tactic(auto, unfolding(crate::specs::Program::fits))]
fn all_fit(room: u16, stored: &mut Items<bool>, instructions: &[Instruction]) -> bool
    ensures { result ≡ program.fits room 0 stored.old instructions.now }
{
    let mut depth = 0u16;
    for (place, instruction) in instructions.iter().enumerate() {
        if is_return(*instruction) {
            return place + 1 == instructions.len();
        }
        let Some(after) = depth_after(room, depth, *instruction) else {
            return false;
        };
        if !finds_local(stored.as_slice(), *instruction) {
            return false;
        }
        note(*instruction, stored);
        depth = after;
    }
    false
}

/// Whether each instruction finds its operands, its room and its local, and the last one alone returns. At first the stack
/// is empty, and no int is stored in any of so many locals.
pub(crate) fn fits(
    alloc: Global,
    room: u16,
    locals: u16,
    instructions: &[Instruction],
) -> Result<bool, FormFault>
    ensures fit { IfOk result (λ fit. fit ≡ program.fits room 0 (replicate locals false) instructions.now) }
    ensures cause { IsOkUnless result FormFault.Memory }
{
    let mut stored = Items::from_vec(vec![in alloc; false; usize::from(locals)]?);
    Ok(all_fit(room, &mut stored, instructions))
}
