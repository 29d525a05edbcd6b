// The parameters of a method one after the other.
use crate::name_tests::say_type;
use jsa_names::{MethodType, method_type};
use std::alloc::{AllocError, Global};
use test_rows::say_number;

fn say_each(alloc: Global, read: &MethodType<'_>, said: &mut String) -> Result<(), AllocError> {
    for parameter in read.params() {
        say_type(alloc, &Some(parameter), said)?;
        said.push_str(",")?;
    }
    said.push_str("end")
}

fn say_all(
    alloc: Global,
    part: &str,
    read: &MethodType<'_>,
    said: &mut String,
) -> Result<(), AllocError> {
    match part {
        "number" => say_number(alloc, read.params().count() as u64, said),
        _ => say_each(alloc, read, said),
    }
}

/// How many there are, or each by its type and a comma, and the end.
pub fn say(alloc: Global, part: &str, bytes: &[u8], said: &mut String) -> Result<(), AllocError> {
    match method_type(bytes) {
        Some(read) => say_all(alloc, part, &read, said),
        None => said.push_str("no method type"),
    }
}
