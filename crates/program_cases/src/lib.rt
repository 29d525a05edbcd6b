//! The cases of classes of the first form, and of their programs.
#![tactic(auto)]

#[cfg(test)]
mod program_tests;
