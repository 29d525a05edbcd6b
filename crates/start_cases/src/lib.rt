//! The cases of the start of a run: the names of the required classes and of throwables, and which classes a loader sees.
#![tactic(auto)]

#[cfg(test)]
mod record_tests;
#[cfg(test)]
mod start_tests;
