//! The first form of a class: what it is, the program of its `main` and its name, read from a class file's bytes or its
//! tree, and the machine that runs it. JVMS n is section n of the Java Virtual Machine Specification, SE 8.
#![tactic(auto)]

mod arithmetic;
mod bits;
mod class_run;
mod fault;
mod fitting;
mod form;
mod instructions;
mod laws;
mod locals;
mod machine;
mod name_reading;
mod plain;
mod program;
mod program_reading;
mod rows;
mod running;
mod stack;
mod turns;

pub use class_run::{RunEnd, one_run, run_bytes, run_tree};
pub use fault::FormFault;
pub use laws::{a_fitting_program_exits, no_class_is_stuck};
pub use machine::{ClassState, CodeFrame, End, EntryTurn, Frame, Machine};
pub use name_reading::{each_class_is_named, one_name, read_name};
pub use program::{Instruction, MAX_CODE, Program};
pub use program_reading::{one_program, read_program, tree_program};
pub use running::{RunFault, run};
pub use stack::Stack;
