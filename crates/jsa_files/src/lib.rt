//! The outside as traits: a store of files and a sink of bytes, each with a meaning and counts of
//! faults.
//!
//! Code above is generic over [`Files`] and [`Sink`]. It can't raise their counts, so a contract by
//! which it answers a fault of reading or writing only where a count rose lets it never give up by
//! itself. [`MemoryFiles`] and [`MemorySink`] tell what they hold, and fail exactly where that was
//! planned; [`DiskFiles`] and [`StdSink`] are over std and tell nothing.
#![tactic(auto)]

mod disk;
mod disk_listing;
mod fault;
mod files;
mod listing;
mod memory;
mod memory_sink;
mod names;
mod plan;
mod sink;
mod stamp;
mod std_sink;

pub use disk::{DiskFiles, digest_whole, read_whole};
pub use fault::{FilesFault, SinkFault};
pub use files::Files;
pub use memory::MemoryFiles;
pub use memory_sink::MemorySink;
pub use names::Names;
pub use sink::Sink;
pub use stamp::{Stamp, sha256};
pub use std_sink::StdSink;

/// The greatest size of a file that is handed out, in bytes.
pub const MAX_FILE: usize = 67_108_864;

/// The greatest number of names that a listing hands out.
pub const MAX_NAMES: usize = 262_144;
