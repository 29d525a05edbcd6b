//! The words of the command line: what each command is asked for; and the names in a class list.
#![tactic(auto)]

mod class_list;
mod home_words;
mod requests;
mod words;

pub use class_list::read_list;
pub use requests::{AsmWords, Command, DumpWords, HomeRun, MAX_FOLDERS, RunWords, STEPS, Share};
pub use words::{class_path, read_words};
