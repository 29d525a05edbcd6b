//! The classes that a run has loaded, held by their class files, with all that is known of them at hand (JVMS 5.3).
#![tactic(auto)]

mod bases;
mod classes;
mod held;
mod layout;
mod pushing;
mod reading;
mod table;

pub use table::LoadedClasses;
