//! Writes classes and a manifest as an archive.
#![tactic(auto)]

mod dump;
mod fault;
mod layout;
mod size;

pub use dump::{MAX_ARCHIVE, MAX_CLASSES, dump_static, dumps_are_archives};
pub use fault::DumpFault;
