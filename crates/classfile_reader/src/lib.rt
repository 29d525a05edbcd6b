//! Reads class files as trees (JVMS 4).
#![tactic(auto)]

mod class_parts;
mod class_reader;
mod class_reading;
mod tree_building;

pub use class_reader::read_class;
