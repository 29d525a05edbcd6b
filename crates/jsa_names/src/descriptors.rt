//! Descriptors of fields (JVMS 4.3.2).
ghost use Rattle.std.specs.Prelude.{◌≡◌, ◌↔◌, ◌<◌, ◌≤◌, length, position, IfSome};
ghost use Rattle.std.specs.Option.{option_map};
ghost use Rattle.jsa_names.specs.Types.{JavaType, field_shown, base_type, is_semicolon, class_type_of, element_type_of, is_no_bracket, field_type_of, begins_class, type_length, type_at, spelling, Fits};

use crate::names::is_class_name;
use crate::types::FieldType;

#[tactic(auto, unfolding(crate::specs::Types::base_type))]
fn base_type(b: u8) -> Option<FieldType<'static>>
    ensures { option_map field_shown result ≡ base_type b }
{
    match b {
        b'B' => Some(FieldType::Byte),
        b'C' => Some(FieldType::Char),
        b'D' => Some(FieldType::Double),
        b'F' => Some(FieldType::Float),
        b'I' => Some(FieldType::Int),
        b'J' => Some(FieldType::Long),
        b'S' => Some(FieldType::Short),
        b'Z' => Some(FieldType::Boolean),
        _ => None,
    }
}

fn semicolon(bytes: &[u8]) -> Option<usize>
    ensures found { result ≡ position is_semicolon bytes.now }
    ensures within { IfSome result (λ n. n < length bytes.now) }
{
    bytes.iter().position(|b| *b == b';')
}

// The class whose name and a semicolon these bytes are.
#[tactic(auto, unfolding(crate::specs::Types::class_type_of))]
fn class_type(bytes: &[u8]) -> Option<FieldType<'_>>
    ensures { option_map field_shown result ≡ class_type_of bytes.now }
{
    let Some(n) = semicolon(bytes) else {
        return None;
    };
    let (name, _) = bytes.split_at(n);
    if n + 1 == bytes.len() && is_class_name(name) {
        Some(FieldType::Class(name))
    } else {
        None
    }
}

#[tactic(auto, unfolding(crate::specs::Types::element_type_of))]
fn element_type(bytes: &[u8]) -> Option<FieldType<'_>>
    ensures { option_map field_shown result ≡ element_type_of bytes.now }
{
    let [b, rest @ ..] = bytes else {
        return None;
    };
    if *b == b'L' {
        class_type(rest)
    } else if rest.is_empty() {
        base_type(*b)
    } else {
        None
    }
}

fn brackets(bytes: &[u8]) -> Option<usize>
    ensures found { result ≡ position is_no_bracket bytes.now }
    ensures within { IfSome result (λ n. n < length bytes.now) }
{
    bytes.iter().position(|b| *b != b'[')
}

/// The type that a field descriptor spells: a base type, or a class by its name, behind up to 255 brackets
/// (JVMS 4.3.2). `None` exactly where the bytes are no field descriptor.
#[tactic(auto, unfolding(crate::specs::Types::field_type_of))]
pub fn field_type<'a>(bytes: &'a [u8]) -> Option<FieldType<'a>>
    ensures { option_map field_shown result ≡ field_type_of bytes.now }
{
    let Some(depth) = brackets(bytes) else {
        return None;
    };
    let (_, element) = bytes.split_at(depth);
    let Some(element_type) = element_type(element) else {
        return None;
    };
    if depth == 0 {
        Some(element_type)
    } else if depth <= 255 {
        Some(FieldType::Array(depth as u8, element))
    } else {
        None
    }
}

fn begins_class(bytes: &[u8]) -> bool
    ensures { result ≡ begins_class bytes.now }
{
    let [b, ..] = bytes else {
        return false;
    };
    *b == b'L'
}

// How many bytes a descriptor at the front takes.
#[tactic(auto, unfolding(crate::specs::Types::type_length))]
fn type_length(bytes: &[u8]) -> Option<usize>
    ensures found { result ≡ type_length bytes.now }
    ensures within { IfSome result (λ n. n ≤ length bytes.now) }
{
    let Some(depth) = brackets(bytes) else {
        return None;
    };
    let (_, element) = bytes.split_at(depth);
    if !begins_class(element) {
        return Some(depth + 1);
    }
    let Some(n) = semicolon(bytes) else {
        return None;
    };
    Some(n + 1)
}

// The type at the front, and the bytes behind its descriptor.
#[tactic(auto, unfolding(crate::specs::Types::type_at))]
pub(crate) fn first_type(bytes: &[u8]) -> Option<(FieldType<'_>, &[u8])>
    ensures { option_map (λ x. (field_shown x.0, x.1.now)) result ≡ type_at bytes.now }
{
    let Some(n) = type_length(bytes) else {
        return None;
    };
    let (front, rest) = bytes.split_at(n);
    let Some(first) = field_type(front) else {
        return None;
    };
    Some((first, rest))
}

/// Bytes are read as a type exactly where the type has its parts in range and is spelled so. This does nothing: its
/// contract is a fact for callers.
pub fn field_types_are_spelled(bytes: &[u8])
    ensures { (type : JavaType) → field_type_of bytes.now ≡ Some type ↔ ((bytes.now ≡ spelling type) × Fits type) }
{}
