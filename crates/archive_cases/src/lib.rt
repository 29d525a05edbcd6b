//! The tests of archives: the classes of one, and its bytes.
#![tactic(auto)]

#[cfg(test)]
mod dump_tests;
#[cfg(test)]
mod plain_tests;
