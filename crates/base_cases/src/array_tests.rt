// Arrays by what names them: a name that is found is told as it stands, and a descriptor by the type that it spells.
use crate::name_tests::say_type;
use jsa_names::{
    array_over, array_types_are_named, arrays_have_components, class_of, component_name,
    component_of, dimensions, element_name, field_type, is_array, primitive_array,
};
use sqlite_items::Items;
use std::alloc::{AllocError, Global};
use test_rows::{say_number, say_text, word_of};

fn say_name(name: Option<&[u8]>, said: &mut String) -> Result<(), AllocError> {
    match name {
        Some(name) => say_text(name, said),
        None => said.push_str("none"),
    }
}

fn say_descriptor(
    alloc: Global,
    descriptor: Option<&[u8]>,
    said: &mut String,
) -> Result<(), AllocError> {
    match descriptor {
        Some(descriptor) => say_type(alloc, &field_type(descriptor), said),
        None => said.push_str("no descriptor"),
    }
}

fn say_made(alloc: Global, made: &Option<Items<u8>>, said: &mut String) -> Result<(), AllocError> {
    match made {
        Some(name) => say_type(alloc, &field_type(name.as_slice()), said),
        None => said.push_str("no descriptor"),
    }
}

fn say_over(alloc: Global, name: &[u8], said: &mut String) -> Result<(), AllocError> {
    let made = array_over(alloc, name)?;
    say_made(alloc, &made, said)
}

fn say_primitive(alloc: Global, letter: &[u8], said: &mut String) -> Result<(), AllocError> {
    let [letter] = letter else {
        return said.push_str("no letter");
    };
    say_descriptor(alloc, primitive_array(*letter), said)
}

/// What is asked of a name.
pub fn say(alloc: Global, part: &str, name: &[u8], said: &mut String) -> Result<(), AllocError> {
    arrays_have_components(name);
    array_types_are_named(name);
    match part {
        "is" => said.push_str(word_of(is_array(name))),
        "dimensions" => say_number(alloc, dimensions(name) as u64, said),
        "component" => say_descriptor(alloc, component_of(name), said),
        "component-name" => say_name(component_name(name), said),
        "element-name" => say_name(element_name(name), said),
        "class" => say_name(class_of(name), said),
        "over" => say_over(alloc, name, said),
        "of" => say_primitive(alloc, name, said),
        _ => said.push_str("no such part"),
    }
}
