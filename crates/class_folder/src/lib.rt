//! Writes classes into a folder of a store: a class file for each, where its name has one.
#![tactic(auto)]

mod class_files;

pub use class_files::{write_classes, write_file};
