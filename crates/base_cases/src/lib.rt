//! What no clause of `jsa_names` and `loader_rules` says: that calls succeed where memory suffices, and that their definitions
//! are the standard's, by rows on both sides of each rule.
#![tactic(auto)]

#[cfg(test)]
mod array_tests;
#[cfg(test)]
mod loader_tests;
#[cfg(test)]
mod mutf8_tests;
#[cfg(test)]
mod name_table;
#[cfg(test)]
mod name_tests;
#[cfg(test)]
mod parameter_tests;
#[cfg(test)]
mod rows;
#[cfg(test)]
mod test_bytes;
