//! What no clause of `jsa_ops` says: that the table of opcodes is the standard's, by another program's reading of a code with
//! each instruction, and that calls succeed where memory suffices.
#![tactic(auto)]

#[cfg(test)]
mod code_tests;
#[cfg(test)]
mod listing;
#[cfg(test)]
mod rows;
#[cfg(test)]
mod switch_tests;
#[cfg(test)]
mod test_bytes;
#[cfg(test)]
mod test_code;
