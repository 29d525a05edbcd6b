//! The machine's state.
ghost use Rattle.std.specs.Prelude.{◌≡◌, IfOk};

use crate::stack::Stack;
use sqlite_items::Items;
use std::alloc::{AllocError, Global};

/// The next turn of the entry frame.
#[derive(Clone, Copy, Debug, PartialEq, Eq)]
pub enum EntryTurn {
    /// Begins the initialisation of the main class.
    First,
    /// Calls `main`.
    Second,
    /// Ends the run.
    Third,
}

/// The frame of a call of `main`.
#[derive(Debug, Drop)]
pub struct CodeFrame {
    /// The index of the next instruction among the program's instructions.
    pub place: usize,
    /// The local variables: the int in each, if one was stored in it.
    pub locals: Items<Option<i32>>,
    /// The operand stack.
    pub stack: Stack<i32>,
}

impl CodeFrame {
    ghost use Rattle.first_form.specs.Machine.{frame_of};

    /// The frame at the call of `main`. The only error is that no memory is left.
    pub fn new(alloc: Global, max_locals: u16) -> Result<CodeFrame, AllocError>
        ensures { IfOk result (λ f. f ≡ frame_of max_locals) }
    {
        let locals = vec![in alloc; None; usize::from(max_locals)]?;
        Ok(CodeFrame {
            place: 0,
            locals: Items::from_vec(locals),
            stack: Stack::new(alloc),
        })
    }
}

/// A frame of the machine (JVMS 2.6).
#[derive(Debug, Drop)]
pub enum Frame {
    /// The bottom frame.
    Entry(EntryTurn),
    /// The initialisation of the main class (JVMS 5.5).
    Initialise,
    /// A call of `main`.
    Code(CodeFrame),
}

/// How far the initialisation of the main class has come (JVMS 5.5).
#[derive(Clone, Copy, Debug, PartialEq, Eq)]
pub enum ClassState {
    Linked,
    UnderWay,
    Initialised,
}

/// How a run ended.
#[derive(Clone, Copy, Debug, PartialEq, Eq)]
pub enum End {
    /// `main` returned.
    Exit,
    /// No row is written for the state.
    Stuck,
}

/// The machine without what it put and its end.
#[derive(Debug, Drop)]
pub struct Machine {
    /// The current frame is on top.
    pub frames: Stack<Frame>,
    /// The state of the main class.
    pub class: ClassState,
    /// How many turns were made.
    pub turns: u64,
}

impl Machine {
    ghost use Rattle.first_form.specs.Machine.{IsNew};

    /// The machine before its first turn. The only error is that no memory is left.
    pub fn new(alloc: Global) -> Result<Machine, AllocError>
        ensures { IfOk result IsNew }
    {
        let mut frames = Stack::new(alloc);
        frames.push(Frame::Entry(EntryTurn::First))?;
        Ok(Machine {
            frames,
            class: ClassState::Linked,
            turns: 0,
        })
    }
}
