//! Assignability, and the questions that it takes (JVMS 4.10.1.2).
ghost use Rattle.std.specs.Prelude.{◌≡◌, [], ◌&&◌, cond, codes, nat_eq};
ghost use Rattle.std.specs.Str.{bytes_eq};
ghost use Rattle.verify_rules.specs.Types.{is_made_at};
ghost use Rattle.verify_rules.specs.declared.types.VType.TheVariants as types;
ghost use Rattle.verify_rules.specs.declared.cause.Cause.TheVariants.{Mismatch};
ghost use Rattle.verify_rules.specs.Asking.{Checked, asks_for, test};
ghost use Rattle.verify_rules.specs.Assign.{is_array, is_bracket, is_class_letter, is_above_arrays, element_name, behind_first, class_assign, component_assign, object_assign, reference_assign, assign, local_assign};

use sqlite_items::Items;
use std::alloc::Global;
use verify_rules::{Ask, Cause, Stop, VType};

/// A test that asks nothing.
pub(crate) fn test(cause: Cause, holds: bool) -> Result<(), Stop>
    ensures { Checked (test cause holds) [] [] result }
{
    if holds {
        return Ok(());
    }
    Err(Stop::Fault(cause))
}

fn is_same(a: &[u8], b: &[u8]) -> bool
    ensures { result ≡ bytes_eq a.now b.now }
{
    a == b
}

fn is_object(name: &[u8]) -> bool
    ensures { result ≡ bytes_eq name.now (codes "java/lang/Object") }
{
    is_same(name, b"java/lang/Object")
}

fn is_cloneable(name: &[u8]) -> bool
    ensures { result ≡ bytes_eq name.now (codes "java/lang/Cloneable") }
{
    is_same(name, b"java/lang/Cloneable")
}

fn is_serializable(name: &[u8]) -> bool
    ensures { result ≡ bytes_eq name.now (codes "java/io/Serializable") }
{
    is_same(name, b"java/io/Serializable")
}

// Whether each array is assignable to the class.
fn is_above_arrays(name: &[u8]) -> bool
    ensures { result ≡ is_above_arrays name.now }
{
    is_object(name) || is_cloneable(name) || is_serializable(name)
}

// Asks whether a class is assignable to another.
fn ask(alloc: Global, asks: &mut Items<Ask>, from: &[u8], to: &[u8]) -> Result<(), Stop>
    ensures { Checked (asks_for from.now to.now) asks.old asks.new result }
{
    let from = Items::from_slice(alloc, from)?;
    let to = Items::from_slice(alloc, to)?;
    asks.push(Ask { from, to })?;
    Ok(())
}

fn class_assign(alloc: Global, asks: &mut Items<Ask>, from: &[u8], to: &[u8]) -> Result<(), Stop>
    ensures { Checked (class_assign from.now to.now) asks.old asks.new result }
{
    if is_same(from, to) || is_object(to) {
        return Ok(());
    }
    ask(alloc, asks, from, to)
}

// The name of a class from its descriptor behind the L: without its semicolon.
pub(crate) fn element_name(text: &[u8]) -> &[u8]
    ensures { result.now ≡ element_name text.now }
{
    if text.is_empty() {
        return text;
    }
    &text[..text.len() - 1]
}

// Whether two components are of one primitive type: the same letter, and nothing behind it.
fn is_same_primitive(c: u8, d: u8, from: &[u8], to: &[u8]) -> bool
    ensures { result ≡ (nat_eq c d && (bytes_eq from.now [] && bytes_eq to.now [])) }
{
    c == d && is_same(from, b"") && is_same(to, b"")
}

// Whether a component is a class to which each array is assignable, by its first byte and those behind it.
fn is_class_above_arrays(d: u8, to: &[u8]) -> bool
    ensures { result ≡ (is_class_letter d && is_above_arrays (element_name to.now)) }
{
    d == b'L' && is_above_arrays(element_name(to))
}

// A component that is no array to another one, by their first bytes and those behind them.
fn element_assign(
    alloc: Global,
    asks: &mut Items<Ask>,
    c: u8,
    d: u8,
    from: &[u8],
    to: &[u8],
) -> Result<(), Stop>
    ensures { Checked (cond (is_class_letter c && is_class_letter d) (class_assign (element_name from.now) (element_name to.now)) (test Mismatch (nat_eq c d && (bytes_eq from.now [] && bytes_eq to.now [])))) asks.old asks.new result }
{
    if c == b'L' && d == b'L' {
        return class_assign(alloc, asks, element_name(from), element_name(to));
    }
    test(Cause::Mismatch, is_same_primitive(c, d, from, to))
}

// The component of an array to that of another, by their descriptors.
#[tactic(auto, unfolding(verify_rules::specs::Assign::component_assign))]
fn component_assign(
    alloc: Global,
    asks: &mut Items<Ask>,
    from: &[u8],
    to: &[u8],
) -> Result<(), Stop>
    ensures { Checked (component_assign from.now to.now) asks.old asks.new result }
{
    let mut from_left = from;
    let mut to_left = to;
    loop {
        let [c, from_more @ ..] = from_left else {
            return Err(Stop::Fault(Cause::Mismatch));
        };
        let [d, to_more @ ..] = to_left else {
            return Err(Stop::Fault(Cause::Mismatch));
        };
        if *c != b'[' {
            return element_assign(alloc, asks, *c, *d, from_more, to_more);
        }
        if *d != b'[' {
            return test(Cause::Mismatch, is_class_above_arrays(*d, to_more));
        }
        from_left = from_more;
        to_left = to_more;
    }
}

/// Whether a name is the descriptor of an array.
pub(crate) fn is_array(name: &[u8]) -> bool
    ensures { result ≡ is_array name.now }
{
    let [c, _more @ ..] = name else {
        return false;
    };
    *c == b'['
}

fn behind_first(name: &[u8]) -> &[u8]
    ensures { result.now ≡ behind_first name.now }
{
    let [_c, more @ ..] = name else {
        return name;
    };
    more
}

/// The name of a class or the descriptor of an array, to another.
#[tactic(auto, unfolding(verify_rules::specs::Assign::object_assign))]
pub(crate) fn object_assign(
    alloc: Global,
    asks: &mut Items<Ask>,
    from: &[u8],
    to: &[u8],
) -> Result<(), Stop>
    ensures { Checked (object_assign from.now to.now) asks.old asks.new result }
{
    if is_same(from, to) {
        return Ok(());
    }
    if is_array(from) {
        if is_array(to) {
            return component_assign(alloc, asks, behind_first(from), behind_first(to));
        }
        return test(Cause::Mismatch, is_above_arrays(to));
    }
    if is_array(to) {
        return Err(Stop::Fault(Cause::Mismatch));
    }
    class_assign(alloc, asks, from, to)
}

// A type to a class or an array.
fn reference_assign(
    alloc: Global,
    asks: &mut Items<Ask>,
    from: &VType,
    to: &[u8],
) -> Result<(), Stop>
    ensures { Checked (reference_assign from.now to.now) asks.old asks.new result }
{
    match from {
        VType::Null => Ok(()),
        VType::Object(from) => object_assign(alloc, asks, from.as_slice(), to),
        _ => Err(Stop::Fault(Cause::Mismatch)),
    }
}

fn is_made_at(place: u32, t: &VType) -> bool
    ensures { result ≡ is_made_at place t.now }
{
    match t {
        VType::Uninitialized(made) => *made == place,
        _ => false,
    }
}

/// A type to another (JVMS 4.10.1.2).
#[tactic(auto, unfolding(verify_rules::specs::Assign::assign))]
pub(crate) fn assign(
    alloc: Global,
    asks: &mut Items<Ask>,
    from: &VType,
    to: &VType,
) -> Result<(), Stop>
    ensures { Checked (assign from.now to.now) asks.old asks.new result }
{
    match to {
        VType::Top => test(Cause::Mismatch, matches!(from, VType::Top)),
        VType::Integer => test(Cause::Mismatch, matches!(from, VType::Integer)),
        VType::Float => test(Cause::Mismatch, matches!(from, VType::Float)),
        VType::Double => test(Cause::Mismatch, matches!(from, VType::Double)),
        VType::Long => test(Cause::Mismatch, matches!(from, VType::Long)),
        VType::Null => test(Cause::Mismatch, matches!(from, VType::Null)),
        VType::UninitializedThis => {
            test(Cause::Mismatch, matches!(from, VType::UninitializedThis))
        }
        VType::Object(to) => reference_assign(alloc, asks, from, to.as_slice()),
        VType::Uninitialized(place) => test(Cause::Mismatch, is_made_at(*place, from)),
    }
}

/// A type to another in a local, where anything is assignable to Top (JVMS 4.10.1.2).
#[tactic(auto, unfolding(verify_rules::specs::Assign::local_assign))]
pub(crate) fn local_assign(
    alloc: Global,
    asks: &mut Items<Ask>,
    from: &VType,
    to: &VType,
) -> Result<(), Stop>
    ensures { Checked (local_assign from.now to.now) asks.old asks.new result }
{
    if matches!(to, VType::Top) {
        return Ok(());
    }
    assign(alloc, asks, from, to)
}

/// A class to a type, as if the class were one (JVMS 4.10.1.2).
#[tactic(auto, unfolding(verify_rules::specs::Assign::assign))]
pub(crate) fn name_assign(
    alloc: Global,
    asks: &mut Items<Ask>,
    from: &[u8],
    to: &VType,
) -> Result<(), Stop>
    ensures { Checked (assign (types.Object from.now) to.now) asks.old asks.new result }
{
    match to {
        VType::Object(to) => object_assign(alloc, asks, from, to.as_slice()),
        _ => Err(Stop::Fault(Cause::Mismatch)),
    }
}
