//! Verification by type checking (JVMS 4.10.1): the questions that it asks of other classes, and the first fault.
#![tactic(auto)]

mod arrays;
mod assigning;
#[cfg(test)]
mod assigning_tests;
mod calls;
mod classes;
#[cfg(test)]
mod classes_tests;
mod constructors;
mod declared;
mod descriptors;
mod env;
mod fields;
mod first_frame;
mod fits;
#[cfg(test)]
mod fits_tests;
mod flow;
mod laws;
mod letters;
mod locals;
mod members;
mod methods;
mod objects;
mod operands;
mod returns;
mod rows;
mod silent_rows;
#[cfg(test)]
mod silent_rows_tests;
mod stack_forms;
#[cfg(test)]
mod stack_forms_tests;
#[cfg(test)]
mod test_rows;

pub use classes::check_class;
pub use laws::{
    frames_stand, methods_are_refused, questions_are_in_order, some_classes_ask_nothing,
};
