//! Loads and links classes from their files (JVMS 5.3, 5.4).
#![tactic(auto)]

mod completing;
mod entering;
mod fresh;
mod library;
mod loading;
mod readings;
mod under_way;

pub use fresh::Fresh;
