//! Runs a main class over a home: the required classes and those of the program are loaded from their files.
#![tactic(auto)]

mod end;
mod listing;
mod paths;
mod running;
mod tree_run;

pub use end::HomeEnd;
pub use running::run_home;
