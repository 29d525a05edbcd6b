//! What a token may be.
ghost use Rattle.std.specs.Prelude.{◌≡◌, ◌≤◌, ◌<◌, ◌^◌, IfOk, is_some};
ghost use Rattle.std.specs.List.{list_all};
ghost use Rattle.jsa_names.specs.Paths.{text_of};
ghost use Rattle.asm_text.specs.Outcome.{Yields};
ghost use Rattle.asm_text.specs.Words.{is_word, is_class_word, is_path_word, is_operand_word, are_field_words, takes_few, are_method_words, are_call_words, are_member_words, member_name, integer_within, int_constant, long_constant, text_constant, value_of};

use crate::fault::LineFault;
use crate::numbers::integer;
use crate::quoted::quoted;
use crate::statement::{Constant, MemberKind, MemberName};
use class_tree::{
    is_class_or_array, is_declared_name, is_field_type, is_init, is_method_type, is_static,
    returns_void,
};
use jsa_names::{is_class_name, is_member_name, is_method_name, method_type, path_of};
use sqlite_items::Items;
use std::alloc::{AllocError, Global};

pub(crate) fn is_word(token: &[u8]) -> bool
    ensures { result ≡ is_word token.now }
{
    let [b, ..] = token else {
        return false;
    };
    *b != b'"'
}

pub(crate) fn are_words(tokens: &[Items<u8>]) -> bool
    ensures { result ≡ list_all is_word tokens.now }
{
    tokens.iter().all(|token| is_word(token.as_slice()))
}

pub(crate) fn is_class_word(token: &[u8]) -> bool
    ensures { result ≡ is_class_word token.now }
{
    is_word(token) && is_class_name(token)
}

pub(crate) fn are_class_words(tokens: &[Items<u8>]) -> bool
    ensures { result ≡ list_all is_class_word tokens.now }
{
    tokens.iter().all(|token| is_class_word(token.as_slice()))
}

// Whether the file of the class can be found.
fn has_path(alloc: Global, name: &[u8]) -> Result<bool, AllocError>
    ensures { IfOk result (λ has. has ≡ is_some (text_of name.now)) }
{
    let path = path_of(alloc, "", name)?;
    Ok(path.is_some())
}

pub(crate) fn is_path_word(alloc: Global, token: &[u8]) -> Result<bool, AllocError>
    ensures { IfOk result (λ is. is ≡ is_path_word token.now) }
{
    if !is_word(token) {
        return Ok(false);
    }
    has_path(alloc, token)
}

pub(crate) fn is_operand_word(token: &[u8]) -> bool
    ensures { result ≡ is_operand_word token.now }
{
    is_word(token) && is_class_or_array(token)
}

pub(crate) fn are_field_words(name: &[u8], desc: &[u8]) -> bool
    ensures { result ≡ are_field_words name.now desc.now }
{
    is_word(name) && is_member_name(name) && is_field_type(desc)
}

// Whether the parameters of a method take at most 255 slots, `this` among them where it isn't static.
fn takes_few(flags: u16, desc: &[u8]) -> bool
    ensures { result ≡ takes_few flags desc.now }
{
    let this = if is_static(flags) { 0 } else { 1 };
    match method_type(desc) {
        Some(method) => method.slots() + this <= 255,
        None => false,
    }
}

pub(crate) fn are_method_words(flags: u16, name: &[u8], desc: &[u8]) -> bool
    ensures { result ≡ are_method_words flags name.now desc.now }
{
    is_word(name) && is_declared_name(name) && takes_few(flags, desc)
}

fn are_call_words(name: &[u8], desc: &[u8]) -> bool
    ensures { result ≡ are_call_words name.now desc.now }
{
    is_word(name) && is_method_name(name) && is_method_type(desc)
}

fn are_member_words(kind: MemberKind, name: &[u8], desc: &[u8]) -> bool
    ensures { result ≡ are_member_words kind name.now desc.now }
{
    match kind {
        MemberKind::Field => are_field_words(name, desc),
        MemberKind::Method => {
            are_call_words(name, desc) && (!is_init(name) || returns_void(desc))
        }
        MemberKind::InterfaceMethod => are_call_words(name, desc),
    }
}

pub(crate) fn copy(alloc: Global, token: &Items<u8>) -> Result<Items<u8>, AllocError>
    ensures { IfOk result (λ t. t ≡ token.now) }
{
    Items::from_slice(alloc, token.as_slice())
}

pub(crate) fn copies(alloc: Global, tokens: &[Items<u8>]) -> Result<Items<Items<u8>>, AllocError>
    ensures { IfOk result (λ ts. ts ≡ tokens.now) }
{
    let mut copies = Items::new(alloc);
    for token in tokens {
        copies.push(copy(alloc, token)?)?;
    }
    Ok(copies)
}

// CLASS NAME DESC
#[tactic(auto, unfolding(crate::specs::Words::member_name))]
pub(crate) fn member_name(
    alloc: Global,
    kind: MemberKind,
    class: &Items<u8>,
    name: &Items<u8>,
    desc: &Items<u8>,
) -> Result<MemberName, LineFault>
    ensures { Yields (λ m. m) result (member_name kind class.now name.now desc.now) }
{
    if !(is_operand_word(class.as_slice())
        && are_member_words(kind, name.as_slice(), desc.as_slice()))
    {
        return Err(LineFault::Outside);
    }
    let class = copy(alloc, class)?;
    let name = copy(alloc, name)?;
    let desc = copy(alloc, desc)?;
    Ok(MemberName { class, name, desc })
}

fn integer_within(low: u64, high: u64, token: &[u8]) -> Result<Constant, LineFault>
    requires low { low ≤ 2 ^ 31 }
    requires high { high < 2 ^ 31 }
    ensures { Yields (λ k. k) result (integer_within low high token.now) }
{
    let Some(n) = integer(low, high, token) else {
        return Err(LineFault::Outside);
    };
    Ok(Constant::Integer(n as i32))
}

pub(crate) fn int_constant(token: &[u8]) -> Result<Constant, LineFault>
    ensures { Yields (λ k. k) result (int_constant token.now) }
{
    integer_within(0x8000_0000, 0x7FFF_FFFF, token)
}

pub(crate) fn long_constant(token: &[u8]) -> Result<Constant, LineFault>
    ensures { Yields (λ k. k) result (long_constant token.now) }
{
    let Some(n) = integer(0x8000_0000_0000_0000, 0x7FFF_FFFF_FFFF_FFFF, token) else {
        return Err(LineFault::Outside);
    };
    Ok(Constant::Long(n))
}

pub(crate) fn text_constant(alloc: Global, token: &[u8]) -> Result<Constant, LineFault>
    ensures { Yields (λ k. k) result (text_constant token.now) }
{
    let text = quoted(alloc, token)?;
    Ok(Constant::Text(text))
}

// The value of a static field.
#[tactic(auto, unfolding(crate::specs::Words::value_of))]
pub(crate) fn value_of(alloc: Global, desc: &[u8], token: &[u8]) -> Result<Constant, LineFault>
    ensures { Yields (λ k. k) result (value_of desc.now token.now) }
{
    if desc == b"I".as_slice() {
        int_constant(token)
    } else if desc == b"S".as_slice() {
        integer_within(0x8000, 0x7FFF, token)
    } else if desc == b"B".as_slice() {
        integer_within(0x80, 0x7F, token)
    } else if desc == b"C".as_slice() {
        integer_within(0, 0xFFFF, token)
    } else if desc == b"Z".as_slice() {
        integer_within(0, 1, token)
    } else if desc == b"J".as_slice() {
        long_constant(token)
    } else if desc == b"Ljava/lang/String;".as_slice() {
        text_constant(alloc, token)
    } else {
        Err(LineFault::Outside)
    }
}
