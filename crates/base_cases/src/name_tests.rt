// Names and descriptors on both sides of each rule.
use crate::name_table::ROWS;
use crate::rows::wrong_rows;
use crate::test_bytes::{are_words, bytes_of};
use crate::{array_tests, mutf8_tests, parameter_tests};
use jsa_names::{
    FieldType, MethodType, field_type, field_types_are_spelled, is_class_name, is_member_name,
    is_method_name, is_mutf8, method_type, method_types_are_spelled, path_of, texts_are_spelled,
    utf16,
};
use std::alloc::{AllocError, Global};
use std::test::Fail;
use test_rows::{first_word, say_number, say_text, word_of};

// The letter of a type that is no class and no array.
fn letter(read: &FieldType<'_>) -> &'static str {
    match read {
        FieldType::Byte => "B",
        FieldType::Char => "C",
        FieldType::Double => "D",
        FieldType::Float => "F",
        FieldType::Int => "I",
        FieldType::Long => "J",
        FieldType::Short => "S",
        FieldType::Boolean => "Z",
        _ => "no letter",
    }
}

fn push_class(bytes: &mut Vec<u8>, name: &[u8]) -> Result<(), AllocError> {
    bytes.extend_from_slice(b"L")?;
    bytes.extend_from_slice(name)?;
    bytes.extend_from_slice(b";")
}

fn push_array(bytes: &mut Vec<u8>, depth: u8, element: &[u8]) -> Result<(), AllocError> {
    for _ in 0..depth {
        bytes.extend_from_slice(b"[")?;
    }
    bytes.extend_from_slice(element)
}

fn push_type(bytes: &mut Vec<u8>, read: &FieldType<'_>) -> Result<(), AllocError> {
    match read {
        FieldType::Class(name) => push_class(bytes, name),
        FieldType::Array(depth, element) => push_array(bytes, *depth, element),
        _ => bytes.extend_from_slice(letter(read).as_bytes()),
    }
}

fn push_parameters(bytes: &mut Vec<u8>, read: &MethodType<'_>) -> Result<(), AllocError> {
    for k in 0..256 {
        let Some(parameter) = read.param(k) else {
            return Ok(());
        };
        push_type(bytes, &parameter)?;
    }
    Ok(())
}

fn push_result(bytes: &mut Vec<u8>, read: &MethodType<'_>) -> Result<(), AllocError> {
    match read.result() {
        Some(result) => push_type(bytes, &result),
        None => bytes.extend_from_slice(b"V"),
    }
}

fn push_method(bytes: &mut Vec<u8>, read: &MethodType<'_>) -> Result<(), AllocError> {
    bytes.extend_from_slice(b"(")?;
    push_parameters(bytes, read)?;
    bytes.extend_from_slice(b")")?;
    push_result(bytes, read)
}

// `yes` where the type that was read is spelled as the bytes.
fn spelled_word(again: &[u8], bytes: &[u8]) -> &'static str {
    if again == bytes {
        "yes"
    } else {
        "spelled otherwise"
    }
}

fn field_word(alloc: Global, bytes: &[u8]) -> Result<&'static str, AllocError> {
    let Some(read) = field_type(bytes) else {
        return Ok("no");
    };
    let mut again = Vec::new(alloc);
    push_type(&mut again, &read)?;
    Ok(spelled_word(again.as_slice(), bytes))
}

fn method_word(alloc: Global, bytes: &[u8]) -> Result<&'static str, AllocError> {
    let Some(read) = method_type(bytes) else {
        return Ok("no");
    };
    if 255 < read.slots() {
        return Ok("of too many slots");
    }
    let mut again = Vec::new(alloc);
    push_method(&mut again, &read)?;
    Ok(spelled_word(again.as_slice(), bytes))
}

fn path_word(alloc: Global, bytes: &[u8]) -> Result<&'static str, AllocError> {
    match path_of(alloc, "a", bytes)? {
        Some(_) => Ok("yes"),
        None => Ok("no"),
    }
}

fn name_word(test: &str, bytes: &[u8]) -> &'static str {
    let passes = match test {
        "is-text" => is_mutf8(bytes),
        "is-class" => is_class_name(bytes),
        "is-member" => is_member_name(bytes),
        "is-named" => is_method_name(bytes),
        _ => return "no such test",
    };
    word_of(passes)
}

fn test_word(alloc: Global, test: &str, bytes: &[u8]) -> Result<&'static str, AllocError> {
    match test {
        "is-field" => field_word(alloc, bytes),
        "is-method" => method_word(alloc, bytes),
        "is-path" => path_word(alloc, bytes),
        _ => Ok(name_word(test, bytes)),
    }
}

fn found_word(alloc: Global, test: &str, words: &str) -> Result<&'static str, AllocError> {
    if !are_words(words) {
        return Ok("no bytes");
    }
    let bytes = bytes_of(alloc, words)?;
    test_word(alloc, test, bytes.as_slice())
}

fn say_array(
    alloc: Global,
    depth: u8,
    element: &[u8],
    said: &mut String,
) -> Result<(), AllocError> {
    let text = format!(in alloc; "array {depth} ")?;
    said.push_str(text.as_str())?;
    say_text(element, said)
}

fn say_class(name: &[u8], said: &mut String) -> Result<(), AllocError> {
    said.push_str("class ")?;
    say_text(name, said)
}

// The type that was read.
pub fn say_type(
    alloc: Global,
    read: &Option<FieldType<'_>>,
    said: &mut String,
) -> Result<(), AllocError> {
    match read {
        None => said.push_str("none"),
        Some(FieldType::Array(depth, element)) => say_array(alloc, *depth, element, said),
        Some(FieldType::Class(name)) => say_class(name, said),
        Some(read) => said.push_str(letter(read)),
    }
}

// The parameter at a place.
fn say_parameter(
    alloc: Global,
    read: &MethodType<'_>,
    place: &str,
    said: &mut String,
) -> Result<(), AllocError> {
    match place.parse::<u32>() {
        Ok(place) => say_type(alloc, &read.param(place), said),
        Err(_) => said.push_str("no place"),
    }
}

fn say_method(
    alloc: Global,
    part: &str,
    bytes: &[u8],
    said: &mut String,
) -> Result<(), AllocError> {
    let Some(read) = method_type(bytes) else {
        return said.push_str("no method type");
    };
    match part {
        "slots" => say_number(alloc, u64::from(read.slots()), said),
        "result" => say_type(alloc, &read.result(), said),
        place => say_parameter(alloc, &read, place, said),
    }
}

fn say_unit(alloc: Global, unit: u16, said: &mut String) -> Result<(), AllocError> {
    let text = format!(in alloc; "{unit:x};")?;
    said.push_str(text.as_str())
}

fn say_each_unit(alloc: Global, units: &[u16], said: &mut String) -> Result<(), AllocError> {
    for unit in units {
        say_unit(alloc, *unit, said)?;
    }
    Ok(())
}

fn say_units(alloc: Global, bytes: &[u8], said: &mut String) -> Result<(), AllocError> {
    if !is_mutf8(bytes) {
        return said.push_str("no text");
    }
    let units = utf16(alloc, bytes)?;
    say_each_unit(alloc, units.as_slice(), said)
}

fn say_path(
    alloc: Global,
    folder: &str,
    bytes: &[u8],
    said: &mut String,
) -> Result<(), AllocError> {
    match path_of(alloc, folder, bytes)? {
        Some(path) => said.push_str(path.as_str()),
        None => said.push_str("none"),
    }
}

fn say_part(
    alloc: Global,
    verb: &str,
    part: &str,
    bytes: &[u8],
    said: &mut String,
) -> Result<(), AllocError> {
    match verb {
        "method" => say_method(alloc, part, bytes, said),
        "field" => say_type(alloc, &field_type(bytes), said),
        "units" => say_units(alloc, bytes, said),
        "path" => say_path(alloc, part, bytes, said),
        "array" => array_tests::say(alloc, part, bytes, said),
        "parameters" => parameter_tests::say(alloc, part, bytes, said),
        _ => said.push_str("no such verb"),
    }
}

// What is asked, and the words of the bytes.
fn say_parts(alloc: Global, verb: &str, words: &str, said: &mut String) -> Result<(), AllocError> {
    let (part, words) = first_word(words);
    if !are_words(words) {
        return said.push_str("no bytes");
    }
    let bytes = bytes_of(alloc, words)?;
    say_part(alloc, verb, part, bytes.as_slice(), said)
}

fn say_word(word: Result<&'static str, AllocError>, said: &mut String) -> Result<(), AllocError> {
    said.push_str(word?)
}

pub fn say(alloc: Global, call: &str, said: &mut String) -> Result<(), AllocError> {
    let (verb, words) = first_word(call);
    match verb {
        "method" | "field" | "units" | "path" | "array" | "parameters" => {
            say_parts(alloc, verb, words, said)
        }
        "modified" => mutf8_tests::say_text(alloc, words, said),
        "unit" => mutf8_tests::say_unit(alloc, words, said),
        _ => say_word(found_word(alloc, verb, words), said),
    }
}

#[test]
fn names_descriptors_texts_and_paths_are_told(rt: HostRuntime) -> Result<(), Fail> {
    method_types_are_spelled(b"(IJ[Ljava/lang/String;)V");
    field_types_are_spelled(b"Lp/K;");
    texts_are_spelled(b"A\xC0\x80\xDF\xBF\xE0\xA0\x80\xED\xA0\xBD\xEF\xBF\xBF");
    assert_eq!(rt; wrong_rows(rt.alloc(), "names", ROWS)?.as_str(), "");
    Ok(())
}
