//! Modified UTF-8 (JVMS 4.4.7).
ghost use Rattle.std.specs.Prelude.{◌≡◌, ◌↔◌, ◌<◌, length, IfOk, IfSome, List, ℕ, true};
ghost use Rattle.std.specs.Option.{option_map};
ghost use Rattle.jsa_names.specs.Texts.{is_one, is_two, is_three, two_unit, three_unit, unit_at, is_mutf8, units_of, text_spelling, AreUnits};

use std::alloc::{AllocError, Global};

fn is_one(a: u8) -> bool
    ensures { result ≡ is_one a }
{
    0x01 <= a && a <= 0x7F
}

fn is_two(a: u8, b: u8) -> bool
    ensures { result ≡ is_two a b }
{
    (a == 0xC0 && b == 0x80) || (0xC2 <= a && a <= 0xDF && 0x80 <= b && b <= 0xBF)
}

fn is_three(a: u8, b: u8, c: u8) -> bool
    ensures { result ≡ is_three a b c }
{
    ((a == 0xE0 && 0xA0 <= b && b <= 0xBF) || (0xE1 <= a && a <= 0xEF && 0x80 <= b && b <= 0xBF))
        && 0x80 <= c
        && c <= 0xBF
}

fn two_unit(a: u8, b: u8) -> u16
    ensures { result ≡ two_unit a b }
{
    u16::from(a % 32) * 64 + u16::from(b % 64)
}

fn three_unit(a: u8, b: u8, c: u8) -> u16
    ensures { result ≡ three_unit a b c }
{
    u16::from(a % 16) * 4096 + u16::from(b % 64) * 64 + u16::from(c % 64)
}

// The unit that the form at the front spells, and the bytes behind the form.
fn first_unit(bytes: &[u8]) -> Option<(u16, &[u8])>
    ensures { option_map (λ x. (x.0, x.1.now)) result ≡ unit_at bytes.now }
{
    let [a, rest @ ..] = bytes else {
        return None;
    };
    if is_one(*a) {
        return Some((u16::from(*a), rest));
    }
    let [b, rest @ ..] = rest else {
        return None;
    };
    if is_two(*a, *b) {
        return Some((two_unit(*a, *b), rest));
    }
    let [c, rest @ ..] = rest else {
        return None;
    };
    if is_three(*a, *b, *c) {
        Some((three_unit(*a, *b, *c), rest))
    } else {
        None
    }
}

/// Whether the bytes are modified UTF-8: forms of one, two or three bytes in shortest form, U+0000 in two bytes, and
/// surrogates singly, as other units are (JVMS 4.4.7).
pub fn is_mutf8(bytes: &[u8]) -> bool
    ensures { result ≡ is_mutf8 bytes.now }
{
    let mut rest = bytes;
    while let Some((_, after)) = first_unit(rest) {
        rest = after;
    }
    rest.is_empty()
}

/// The units of UTF-16 that modified UTF-8 spells, one a form.
pub fn utf16(alloc: Global, bytes: &[u8]) -> Result<Vec<u16>, AllocError>
    requires { is_mutf8 bytes.now ≡ true }
    ensures { IfOk result (λ units. units_of bytes.now ≡ Some units.items) }
{
    let mut units = Vec::new(alloc);
    let mut rest = bytes;
    while let Some((unit, after)) = first_unit(rest) {
        units.push(unit)?;
        rest = after;
    }
    Ok(units)
}

/// Bytes are read as units exactly where the units are spelled so. This does nothing: its contract is a fact for
/// callers.
pub fn texts_are_spelled(bytes: &[u8])
    ensures { (units : List ℕ) → units_of bytes.now ≡ Some units ↔ ((bytes.now ≡ text_spelling units) × AreUnits units) }
{}
