//! What no clause of the crates that read, build and write says: lines of the assembler on both sides of each rule, pools that
//! grow, and the bytes of small class files.
#![tactic(auto)]

#[cfg(test)]
mod builder_tests;
#[cfg(test)]
mod encoder_tests;
#[cfg(test)]
mod text_table;
#[cfg(test)]
mod text_tests;
