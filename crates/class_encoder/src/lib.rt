//! Writes class files (JVMS 4.1).
#![tactic(auto)]

mod attribute_names;
mod attributes;
mod encoding;
mod fault;
mod members;
mod numbers;
mod pool;

pub use encoding::{encode, encoded_trees_spell};
pub use fault::Memory;
pub use pool::put_entry;
