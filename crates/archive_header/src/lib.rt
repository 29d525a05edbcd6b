//! The header and the manifest of an archive of classes: their bytes, written and read.
#![tactic(auto)]

mod block;
mod changes;
mod folders;
mod header;
mod header_reading;
mod manifest_making;
mod manifest_reading;
mod manifest_type;
mod manifest_writing;
mod refuse;

pub use changes::first_changed;
pub use folders::{Folder, Folders, ListedFile, are_folders};
pub use header::{FORMAT, Header, headers_are_read_again, write_header};
pub use header_reading::read_header;
pub use manifest_making::manifest;
pub use manifest_type::{Manifest, one_manifest, read_manifest, write_manifest};
pub use refuse::Refuse;
