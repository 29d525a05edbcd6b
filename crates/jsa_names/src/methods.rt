//! Descriptors of methods (JVMS 4.3.3).
ghost use Rattle.std.specs.Prelude.{◌≡◌, ◌↔◌, ◌≤◌, true, false, MatchOption, slice_get, length};
ghost use Rattle.std.specs.Option.{option_map};
ghost use Rattle.jsa_names.specs.Types.{JavaMethod, field_shown, front_types, few_types, slots_of_type, slots_of, behind_byte, result_of, field_type_of, method_type_of, method_spelling, FitsMethod};

use crate::descriptors::{field_type, first_type};
use crate::parameters::Parameters;
use crate::types::FieldType;
use std::marker::Model;

/// The type of a method. Contracts see it as the list of its parameters' types and its result.
#[derive(Debug, Drop)]
pub struct MethodType<'a> {
    // The bytes behind the opening parenthesis.
    parameters: &'a [u8],
    // The bytes behind the closing one.
    result: &'a [u8],
    slots: u32,
}

impl<'a> Model for MethodType<'a> {
    ghost use Rattle.std.specs.Prelude.{◌≡◌, ◌≤◌};
    ghost use Rattle.jsa_names.specs.Types.{JavaMethod, front_types, slots_of, field_type_of};

    ghost Value = { JavaMethod };

    ghost view = { λ m. record { parameters = front_types m.parameters.now; result = field_type_of m.result.now } };

    ghost invariant = { λ m. (m.slots ≡ slots_of (front_types m.parameters.now)) × (m.slots ≤ 255) };
}

fn slots_of_type(parameter: &FieldType<'_>) -> u32
    ensures { result ≡ slots_of_type (field_shown parameter.now) }
{
    match parameter {
        FieldType::Long | FieldType::Double => 2,
        _ => 1,
    }
}

// The slots of the types at the front, where they are at most 255, and the bytes behind the types.
fn parameter_slots(bytes: &[u8]) -> Option<(u32, &[u8])>
    ensures { MatchOption result (few_types bytes.now ≡ None) (λ x.
        (few_types bytes.now ≡ Some (front_types bytes.now, x.1.now))
        × (x.0 ≡ slots_of (front_types bytes.now)) × (x.0 ≤ 255)) }
{
    let mut slots = 0;
    let mut rest = bytes;
    while let Some((first, after)) = first_type(rest) {
        slots += slots_of_type(&first);
        if slots > 255 {
            return None;
        }
        rest = after;
    }
    Some((slots, rest))
}

fn behind_byte(b: u8, bytes: &[u8]) -> Option<&[u8]>
    ensures { option_map (λ rest. rest.now) result ≡ behind_byte b bytes.now }
{
    let [first, rest @ ..] = bytes else {
        return None;
    };
    if *first == b { Some(rest) } else { None }
}

// Whether the bytes are `V` or a field descriptor.
#[tactic(auto, unfolding(crate::specs::Types::result_of))]
fn is_result(bytes: &[u8]) -> bool
    ensures some { result ≡ true → result_of bytes.now ≡ Some (field_type_of bytes.now) }
    ensures none { result ≡ false → result_of bytes.now ≡ None }
{
    bytes == b"V".as_slice() || field_type(bytes).is_some()
}

/// The type that a method descriptor spells: the parameters between parentheses, and a result behind them, which is
/// `V` or a field descriptor (JVMS 4.3.3). `None` exactly where the bytes are no method descriptor; one whose
/// parameters take more than 255 slots is none.
#[tactic(auto, unfolding(crate::specs::Types::method_type_of))]
pub fn method_type<'a>(bytes: &'a [u8]) -> Option<MethodType<'a>>
    ensures { result ≡ method_type_of bytes.now }
{
    let Some(parameters) = behind_byte(b'(', bytes) else {
        return None;
    };
    let Some((slots, behind)) = parameter_slots(parameters) else {
        return None;
    };
    let Some(result) = behind_byte(b')', behind) else {
        return None;
    };
    if !is_result(result) {
        return None;
    }
    Some(MethodType {
        parameters,
        result,
        slots,
    })
}

// The type at place `k` of those at the front.
fn nth_type(bytes: &[u8], k: u32) -> Option<FieldType<'_>>
    ensures { option_map field_shown result ≡ slice_get (front_types bytes.now) k }
{
    let mut rest = bytes;
    for _ in 0..k {
        let Some((_, after)) = first_type(rest) else {
            return None;
        };
        rest = after;
    }
    let Some((found, _)) = first_type(rest) else {
        return None;
    };
    Some(found)
}

impl<'a> MethodType<'a> {
    /// How many slots the parameters take: two for each long or double, one for each other. `this` is not counted.
    pub fn slots(&self) -> u32
        ensures slots { result ≡ slots_of self.now.parameters }
        ensures few { result ≤ 255 }
    {
        self.slots
    }

    /// The type of the parameter at place `k`, from 0. `None` exactly where there are no more than `k` parameters.
    pub fn param(&self, k: u32) -> Option<FieldType<'a>>
        ensures { option_map field_shown result ≡ slice_get self.now.parameters k }
    {
        nth_type(self.parameters, k)
    }

    /// The types of the parameters, from the first on: at most 255 (JVMS 4.3.3).
    pub fn params(&self) -> Parameters<'a>
        ensures types { result ≡ self.now.parameters }
        ensures few { length self.now.parameters ≤ 255 }
    {
        Parameters {
            rest: self.parameters,
        }
    }

    /// The type of the result. `None` exactly where it is `V`.
    pub fn result(&self) -> Option<FieldType<'a>>
        ensures { option_map field_shown result ≡ self.now.result }
    {
        field_type(self.result)
    }
}

/// Bytes are read as the type of a method exactly where its types have their parts in range, its parameters take at
/// most 255 slots and it is spelled so. This does nothing: its contract is a fact for callers.
pub fn method_types_are_spelled(bytes: &[u8])
    ensures { (m : JavaMethod) → method_type_of bytes.now ≡ Some m ↔ ((bytes.now ≡ method_spelling m) × FitsMethod m) }
{}
