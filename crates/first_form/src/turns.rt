//! One turn of the machine.
ghost use Rattle.std.specs.Prelude.{◌≡◌, ◌<◌, ℕ, List, None, IfOk, OnOk, slice_get};
ghost use Rattle.first_form.specs.Machine.{row_at, entry_turn, code_turn, turn_of};
ghost use Rattle.first_form.specs.Does.{out_after, state_of, state_with};

use crate::machine::{ClassState, CodeFrame, End, EntryTurn, Frame, Machine};
use crate::program::Program;
use crate::rows::{Did, do_row};
use std::alloc::{AllocError, Global};

/// What a turn did beside the change of the machine.
#[derive(Clone, Copy, Debug, PartialEq, Eq)]
pub(crate) struct Turned {
    /// The number that the turn puts.
    pub put: Option<i32>,
    pub end: Option<End>,
}

const NOTHING: Turned = Turned {
    put: None,
    end: None,
};

const STUCK: Turned = Turned {
    put: None,
    end: Some(End::Stuck),
};

const EXIT: Turned = Turned {
    put: None,
    end: Some(End::Exit),
};

/// One turn, but for its count and what it puts.
pub(crate) fn turn(
    alloc: Global,
    program: &Program,
    machine: &mut Machine,
) -> Result<Turned, AllocError>
    // Whatever was put before, the machine and what the turn did are those of the definition's state.
    ensures state { (out : List ℕ) → IfOk result (λ turned.
        turn_of program.now (state_of machine.old out None) machine.old.frames
        ≡ state_of machine.new (out_after out turned.put) turned.end) }
    ensures turns { OnOk result (machine.new.turns ≡ machine.old.turns) }
{
    match machine.frames.pop() {
        None => Ok(STUCK),
        Some(Frame::Entry(turn)) => turn_entry(alloc, program.max_locals, turn, machine),
        Some(Frame::Initialise) => {
            machine.class = ClassState::Initialised;
            Ok(NOTHING)
        }
        Some(Frame::Code(frame)) => turn_code(program, frame, machine),
    }
}

// A turn of the entry frame, which was taken off.
fn turn_entry(
    alloc: Global,
    max_locals: u16,
    turn: EntryTurn,
    machine: &mut Machine,
) -> Result<Turned, AllocError>
    ensures state { (out : List ℕ) → IfOk result (λ turned.
        entry_turn max_locals (state_with (Frame.Entry turn) machine.old out) turn machine.old.frames
        ≡ state_of machine.new (out_after out turned.put) turned.end) }
    ensures turns { OnOk result (machine.new.turns ≡ machine.old.turns) }
{
    match turn {
        EntryTurn::First => {
            machine.frames.push(Frame::Entry(EntryTurn::Second))?;
            machine.frames.push(Frame::Initialise)?;
            machine.class = ClassState::UnderWay;
            Ok(NOTHING)
        }
        EntryTurn::Second => {
            let frame = CodeFrame::new(alloc, max_locals)?;
            machine.frames.push(Frame::Entry(EntryTurn::Third))?;
            machine.frames.push(Frame::Code(frame))?;
            Ok(NOTHING)
        }
        EntryTurn::Third => {
            machine.frames.push(Frame::Entry(EntryTurn::Third))?;
            Ok(EXIT)
        }
    }
}

// A turn of a code frame, which was taken off.
fn turn_code(
    program: &Program,
    mut frame: CodeFrame,
    machine: &mut Machine,
) -> Result<Turned, AllocError>
    ensures state { (out : List ℕ) → IfOk result (λ turned.
        code_turn (state_with (Frame.Code frame) machine.old out) frame machine.old.frames
        (row_at (slice_get program.now.instructions frame.place) frame.locals frame.stack)
        ≡ state_of machine.new (out_after out turned.put) turned.end) }
    ensures turns { OnOk result (machine.new.turns ≡ machine.old.turns) }
{
    let count = program.instructions.len();
    let Some(instruction) = program.instructions.get(frame.place) else {
        machine.frames.push(Frame::Code(frame))?;
        return Ok(STUCK);
    };
    prove!(frame.place < count);
    let put = match do_row(*instruction, &mut frame.locals, &mut frame.stack)? {
        Did::Next => None,
        Did::Puts(n) => Some(n),
        Did::Returns => return Ok(NOTHING),
        Did::NoRow => {
            machine.frames.push(Frame::Code(frame))?;
            return Ok(STUCK);
        }
    };
    frame.place += 1;
    machine.frames.push(Frame::Code(frame))?;
    Ok(Turned { put, end: None })
}
