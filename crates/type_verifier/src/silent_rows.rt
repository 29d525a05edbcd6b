//! The typing rows that ask nothing (JVMS 4.10.1.9), by their opcodes.
ghost use Rattle.std.specs.Prelude.{◌≡◌, Some, None};
ghost use Rattle.std.specs.Option.{option_copied};
ghost use Rattle.verify_rules.specs.Causes.{Does};
ghost use Rattle.verify_rules.specs.Letters.{over, moved, effect};
ghost use Rattle.verify_rules.specs.Arrays.{array_made, primitive_array, arrays_made};
ghost use Rattle.verify_rules.specs.Rows.{effect_row, array_loaded, array_stored, silent_row, local_row, branch_row, over_class, class_row, int_put, int_taken};

use crate::arrays::{
    array_made, array_over, element_loaded, element_stored, length_taken, reference_loaded,
    reference_stored,
};
use crate::env::Env;
use crate::letters::{effect_of, letter_of, moved};
use crate::locals::{loaded, stored};
use crate::objects::{cast, monitored, new_made, tested};
use crate::stack_forms::stack_form;
use std::alloc::Global;
use verify_rules::{Cause, Effect, Frame, Letter, Stop, TypeStack};

// ---- opcodes without operands

/// The row of an opcode that takes and puts types of fixed letters, where it is one.
fn effect_row(room: u16, e: Option<Effect>, frame: &mut Frame) -> Result<(), Stop>
    ensures { Does (effect_row room e frame.old) result frame.new }
{
    match e {
        Some(e) => moved(room, e, &mut frame.stack),
        None => Err(Stop::Fault(Cause::Written)),
    }
}

/// The rows of iaload to saload, by the kind of the elements: 4 is aaload.
fn array_loaded(alloc: Global, room: u16, kind: u8, stack: &mut TypeStack) -> Result<(), Stop>
    ensures { Does (array_loaded room kind stack.old) result stack.new }
{
    if kind == 4 {
        return reference_loaded(alloc, room, stack);
    }
    element_loaded(room, kind, stack)
}

/// The rows of iastore to sastore, by the kind of the elements: 4 is aastore.
fn array_stored(kind: u8, stack: &mut TypeStack) -> Result<(), Stop>
    ensures { Does (array_stored kind stack.old) result stack.new }
{
    if kind == 4 {
        return reference_stored(stack);
    }
    element_stored(kind, stack)
}

/// The row of an opcode without operands that asks nothing. Each test has the last opcode of its run.
#[tactic(auto, unfolding(verify_rules::specs::Rows::silent_row))]
pub(crate) fn silent_row(alloc: Global, room: u16, op: u8, frame: &mut Frame) -> Result<(), Stop>
    ensures { Does (silent_row room op frame.old) result frame.new }
{
    if op <= 0x0f {
        return effect_row(room, effect_of(op), frame);
    }
    // iload_0 to aload_3
    if op <= 0x2d {
        let at = op.saturating_sub(0x1a);
        return loaded(alloc, room, letter_of(at / 4), u16::from(at % 4), frame);
    }
    if op <= 0x35 {
        return array_loaded(alloc, room, op - 0x2e, &mut frame.stack);
    }
    // istore_0 to astore_3
    if op <= 0x4e {
        let at = op.saturating_sub(0x3b);
        return stored(letter_of(at / 4), u16::from(at % 4), frame);
    }
    if op <= 0x56 {
        return array_stored(op - 0x4f, &mut frame.stack);
    }
    if op <= 0x5f {
        return stack_form(alloc, room, op, &mut frame.stack);
    }
    if op <= 0x98 {
        return effect_row(room, effect_of(op), frame);
    }
    if op == 0xbe {
        return length_taken(room, &mut frame.stack);
    }
    // monitorenter, monitorexit
    if op == 0xc2 {
        return monitored(&mut frame.stack);
    }
    if op == 0xc3 {
        return monitored(&mut frame.stack);
    }
    Err(Stop::Fault(Cause::Written))
}

// ---- opcodes with operands

/// The row of a load or a store of a local that is written behind the opcode. ret isn't accepted.
#[tactic(auto, unfolding(verify_rules::specs::Rows::local_row))]
pub(crate) fn local_row(
    alloc: Global,
    room: u16,
    op: u8,
    k: u16,
    frame: &mut Frame,
) -> Result<(), Stop>
    ensures { Does (local_row room op k frame.old) result frame.new }
{
    // iload to aload
    if op <= 0x19 {
        return loaded(alloc, room, letter_of(op.saturating_sub(0x15)), k, frame);
    }
    // istore to astore
    if op <= 0x3a {
        return stored(letter_of(op.saturating_sub(0x36)), k, frame);
    }
    Err(Stop::Fault(Cause::Written))
}

/// Takes one or two types of these letters.
fn taken(top: Letter, below: Option<Letter>, stack: &mut TypeStack) -> Result<(), Stop>
    ensures { Does (moved 0 (effect (Some top) below None) stack.old) result stack.new }
{
    let e = Effect {
        top: Some(top),
        below,
        puts: None,
    };
    moved(0, e, stack)
}

/// What a branch takes (JVMS 6.5): one int, two ints, two references, nothing (goto, goto_w), one reference. jsr and jsr_w
/// aren't accepted.
#[tactic(auto, unfolding(verify_rules::specs::Rows::branch_row))]
pub(crate) fn branch_row(op: u8, stack: &mut TypeStack) -> Result<(), Stop>
    ensures { Does (branch_row op stack.old) result stack.new }
{
    if op <= 0x9e {
        return taken(Letter::Int, None, stack);
    }
    if op <= 0xa4 {
        return taken(Letter::Int, Some(Letter::Int), stack);
    }
    if op <= 0xa6 {
        return taken(Letter::Reference, Some(Letter::Reference), stack);
    }
    if op == 0xa7 {
        return Ok(());
    }
    if op == 0xa8 {
        return Err(Stop::Fault(Cause::Written));
    }
    if op <= 0xc7 {
        return taken(Letter::Reference, None, stack);
    }
    if op == 0xc8 {
        return Ok(());
    }
    Err(Stop::Fault(Cause::Written))
}

/// The row of anewarray.
fn array_over_made(
    alloc: Global,
    room: u16,
    name: Option<&[u8]>,
    stack: &mut TypeStack,
) -> Result<(), Stop>
    ensures { Does (array_made room (over_class (option_copied name.entry)) stack.old) result stack.new }
{
    let Some(name) = name else {
        return Err(Stop::Fault(Cause::Written));
    };
    let name = array_over(alloc, name)?;
    array_made(room, name, stack)
}

/// The row of an opcode with the index of a class: new, anewarray, checkcast and instanceof. The place is that of the
/// instruction in the code.
#[tactic(auto, unfolding(verify_rules::specs::Rows::class_row))]
pub(crate) fn class_row(
    alloc: Global,
    e: &Env<'_>,
    place: u32,
    op: u8,
    k: u16,
    frame: &mut Frame,
) -> Result<(), Stop>
    ensures { Does (class_row e.now place op k frame.old) result frame.new }
{
    let room = e.code.stack;
    let pool = &e.tree.pool;
    if op == 0xbb {
        return new_made(alloc, room, pool, place, k, frame);
    }
    if op == 0xbd {
        return array_over_made(alloc, room, pool.class_name(k), &mut frame.stack);
    }
    if op == 0xc0 {
        return cast(alloc, room, pool, k, &mut frame.stack);
    }
    tested(room, pool, k, &mut frame.stack)
}

/// Puts an int: the row of bipush and sipush.
pub(crate) fn int_put(room: u16, frame: &mut Frame) -> Result<(), Stop>
    ensures { Does (int_put room frame.old) result frame.new }
{
    let e = Effect {
        top: None,
        below: None,
        puts: Some(Letter::Int),
    };
    moved(room, e, &mut frame.stack)
}

/// Takes an int: the row of tableswitch and lookupswitch.
pub(crate) fn int_taken(frame: &mut Frame) -> Result<(), Stop>
    ensures { Does (int_taken frame.old) result frame.new }
{
    taken(Letter::Int, None, &mut frame.stack)
}
