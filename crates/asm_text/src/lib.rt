//! The lines of an assembler text, and what each says.
#![tactic(auto)]

mod fault;
mod grammar;
mod laws;
mod mnemonics;
mod numbers;
mod operations;
mod quoted;
mod statement;
mod text;
mod tokens;
mod words;

pub use fault::LineFault;
pub use laws::{lines_are_cut, tokens_are_cut};
pub use statement::{
    CatchLine, ClassLine, CodeLine, Constant, FieldLine, FrameLine, FrameType, MemberKind,
    MemberName, MethodLine, Operation, Statement, SwitchCase,
};
pub use text::statements;
