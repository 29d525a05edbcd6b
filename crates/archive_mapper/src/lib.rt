//! Maps a plain archive: tests its bytes, and gives its classes or why it is refused.
#![tactic(auto)]

mod front;
mod laws;
mod mapping;
mod parts;
mod plain;

pub use laws::{archives_are_mapped, maps_as_one};
pub use mapping::map;
