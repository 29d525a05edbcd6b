//! Which folders a class loader asks for a class, which file it finds, and which classes share a run-time package.
#![tactic(auto)]

mod finding;
mod loader;
mod packages;

pub use finding::find;
pub use loader::{Found, Loader, Paths};
pub use packages::same_package;
