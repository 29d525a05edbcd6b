//! The verifier's cases: methods that it accepts or refuses, with the questions that it asks, written by hand from the
//! rules of JVMS 4.10.1.
#![tactic(auto)]

mod arrays_table;
mod base_text;
mod calls_table;
mod changes;
mod cutting;
mod frames_table;
mod handlers_table;
mod locals_table;
mod objects_table;
mod order_table;
mod stack_table;
mod supers;
mod supers_table;
mod table;
mod types_table;

pub use cutting::{Case, CaseFault, cases, tree_of};
pub use supers::{bases, supers_of};

#[cfg(test)]
mod tests;
