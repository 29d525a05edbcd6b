//! The start of a run: the required classes are loaded and linked, and then the main class is loaded.
#![tactic(auto)]

mod asked;
mod class_list;
mod fetching;
mod required;
mod starting;

pub use class_list::load_list;
pub use required::required_name;
pub use starting::start_run;
