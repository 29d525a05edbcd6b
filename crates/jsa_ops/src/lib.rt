//! The instruction set of the Java virtual machine (JVMS 6.5 and 7): one table of opcodes, what stands at a place of a
//! code, where a switch goes on, and how an instruction is written.
#![tactic(auto)]

mod fault;
mod form;
mod instr;
mod keys;
mod laws;
mod reading;
mod support;
mod switches;
mod table;
mod writing;

pub use fault::{Memory, OpFault};
pub use form::{Form, form_of};
pub use instr::Instr;
pub use laws::{answers_are_exact, behind_is_unread, cut_goes_on};
pub use reading::decode;
pub use support::is_unsupported;
pub use switches::{distance_at, distance_for, each_key_goes_on, first_distance, first_pair};
pub use writing::write;
