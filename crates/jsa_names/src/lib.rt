//! Names and descriptors of class files: whether bytes are modified UTF-8, the name of a class, a field or a method,
//! what a descriptor says, and where the file of a class stands in a folder.
#![tactic(auto)]

mod arrays;
mod descriptors;
mod methods;
mod mutf8;
mod names;
mod parameters;
mod paths;
mod texts;
mod types;

pub use arrays::{
    array_over, array_types_are_named, arrays_have_components, class_of, component_name,
    component_of, dimensions, element_name, is_array, primitive_array,
};
pub use descriptors::{field_type, field_types_are_spelled};
pub use methods::{MethodType, method_type, method_types_are_spelled};
pub use mutf8::{modified, put_unit};
pub use names::{is_class_name, is_member_name, is_method_name};
pub use parameters::Parameters;
pub use paths::path_of;
pub use texts::{is_mutf8, texts_are_spelled, utf16};
pub use types::FieldType;
