//! Assembler texts as class trees.
#![tactic(auto)]

mod class_draft;
mod code_draft;
mod fault;
mod frames;
mod labels;
mod laws;
mod needs;
mod place;
mod resolving;
mod text;

pub use fault::AsmFault;
pub use laws::{
    classes_have_paths, labels_stand, lines_decode, needs_are_built, pools_are_built, sizes_stand,
};
pub use text::assemble;
