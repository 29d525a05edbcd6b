//! The boot library: the classes that every run over a home begins with, and some more, as an assembler text.
#![tactic(auto)]

mod builders;
mod classes;
mod errors;
mod exceptions;
mod fault;
mod further;
mod home;
mod numbers;
mod objects;
mod streams;
mod strings;
mod text;
mod values;

pub use fault::HomeFault;
pub use home::write_home;
pub use text::boot_text;
