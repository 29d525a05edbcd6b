//! What no clause of `jsa_files` says: that calls succeed, what std's files, readers and writers do, and which error of
//! theirs is which answer.
#![tactic(auto)]

#[cfg(test)]
mod count_tests;
#[cfg(test)]
mod disk_tests;
#[cfg(test)]
mod memory_tests;
#[cfg(test)]
mod rows;
#[cfg(test)]
mod sink_rows;
#[cfg(test)]
mod sink_tests;
#[cfg(test)]
mod stamp_tests;
