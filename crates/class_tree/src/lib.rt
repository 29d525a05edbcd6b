//! Class files as trees: which bytes spell which tree, and the reading of their constant pool (JVMS 4.1 to 4.7).
#![tactic(auto)]

mod constant_pool;
mod distinct;
mod fault;
mod flags;
mod laws;
mod links;
mod members;
mod pool_reading;
mod reading;
mod tested_pool;
mod tested_tree;
mod text_kinds;
mod text_places;
mod tree;
mod well_formed;

pub use constant_pool::{Pool, PoolEntry};
pub use distinct::has_distinct_parts;
pub use fault::FormatFault;
pub use flags::{
    ACC_ABSTRACT, ACC_ANNOTATION, ACC_FINAL, ACC_INTERFACE, ACC_NATIVE, ACC_PRIVATE, ACC_PROTECTED,
    ACC_PUBLIC, ACC_STATIC, ACC_STRICT, ACC_SUPER, ACC_SYNCHRONIZED, ACC_VOLATILE, is_abstract,
    is_final, is_interface, is_native, is_private, is_protected, is_public, is_static,
    is_synchronized, is_volatile,
};
pub use laws::{
    codes_are_spelled, one_tree, other_versions_have_no_tree, trees_are_spelled,
    versions_are_written,
};
pub use pool_reading::{one_pool, read_pool};
pub use text_kinds::{
    is_class_or_array, is_clinit, is_declared_name, is_field_type, is_init, is_method_type,
    returns_void,
};
pub use tree::{ClassTree, CodeTree, FieldTree, Handler, MethodTree};
pub use well_formed::is_well_formed;
