//! The classes of a plain archive: their bytes, written and read, and which names they have.
#![tactic(auto)]

mod archive;
mod class;
mod names;
mod reading;
mod writing;

pub use archive::{has_one_folder, one_archive};
pub use class::{PlainClass, class_in, classes_size, have_short_texts};
pub use names::{are_distinct, are_named, is_named};
pub use reading::read_classes;
pub use writing::write_classes;
