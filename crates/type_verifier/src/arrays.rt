//! Arrays: their elements, their length, and how they are made (JVMS 4.10.1.9).
//!
//! A kind of elements is counted as the opcodes count them: i, l, f, d, a, b, c, s.
ghost use Rattle.std.specs.Prelude.{◌≡◌, IfOk};
ghost use Rattle.std.specs.Option.{option_copied};
ghost use Rattle.verify_rules.specs.declared.types.VType.TheVariants as types;
ghost use Rattle.verify_rules.specs.Causes.{Does, Gives};
ghost use Rattle.verify_rules.specs.Assign.{is_array};
ghost use Rattle.verify_rules.specs.Letters.{is_object_type, pop_where};
ghost use Rattle.verify_rules.specs.Arrays.{is_array_of, element_letter, is_null_or, pop_place, element_loaded, element_stored, component_of, component_type, component_loaded, reference_loaded, is_reference_array, reference_stored, length_taken, primitive_array, array_made, dimensions, array_over, pop_lengths, arrays_made};

use crate::assigning::{element_name, is_array};
use crate::letters::{is_object_type, pop_letter, push, type_of_letter};
use sqlite_items::Items;
use std::alloc::{AllocError, Global};
use verify_rules::{Cause, Letter, Stop, TypeStack, VType};

// ---- elements of primitive types

/// Whether an array of this descriptor has elements of a kind. Byte and boolean arrays share their instructions.
#[tactic(auto, unfolding(verify_rules::specs::Arrays::is_array_of))]
fn is_array_of(kind: u8, name: &[u8]) -> bool
    ensures { result ≡ is_array_of kind name.now }
{
    if kind == 0 {
        return name == b"[I".as_slice();
    }
    if kind == 1 {
        return name == b"[J".as_slice();
    }
    if kind == 2 {
        return name == b"[F".as_slice();
    }
    if kind == 3 {
        return name == b"[D".as_slice();
    }
    if kind == 5 {
        return name == b"[B".as_slice() || name == b"[Z".as_slice();
    }
    if kind == 6 {
        return name == b"[C".as_slice();
    }
    if kind == 7 {
        return name == b"[S".as_slice();
    }
    false
}

/// What an element of a kind is on the stack.
fn element_letter(kind: u8) -> Letter
    ensures { result ≡ element_letter kind }
{
    if kind == 1 {
        return Letter::Long;
    }
    if kind == 2 {
        return Letter::Float;
    }
    if kind == 3 {
        return Letter::Double;
    }
    Letter::Int
}

/// Whether a type is null, or an array with elements of a kind.
fn is_place_of(kind: u8, t: &VType) -> bool
    ensures { result ≡ is_null_or (is_array_of kind) t.now }
{
    match t {
        VType::Null => true,
        VType::Object(name) => is_array_of(kind, name.as_slice()),
        _ => false,
    }
}

/// Takes an array of a kind.
fn pop_array(kind: u8, stack: &mut TypeStack) -> Result<(), Stop>
    ensures { Does (pop_where (is_null_or (is_array_of kind)) stack.old) result stack.new }
{
    let Some(t) = stack.pop() else {
        return Err(Stop::Fault(Cause::Operands));
    };
    if !is_place_of(kind, &t) {
        return Err(Stop::Fault(Cause::Mismatch));
    }
    Ok(())
}

/// Takes an index, and then an array of a kind.
fn pop_place(kind: u8, stack: &mut TypeStack) -> Result<(), Stop>
    ensures { Does (pop_place kind stack.old) result stack.new }
{
    pop_letter(Letter::Int, stack)?;
    pop_array(kind, stack)
}

/// The row of iaload, laload, faload, daload, baload, caload and saload.
#[tactic(auto, unfolding(verify_rules::specs::Arrays::element_loaded))]
pub(crate) fn element_loaded(room: u16, kind: u8, stack: &mut TypeStack) -> Result<(), Stop>
    ensures { Does (element_loaded room kind stack.old) result stack.new }
{
    pop_place(kind, stack)?;
    push(room, type_of_letter(element_letter(kind)), stack)
}

/// The row of iastore, lastore, fastore, dastore, bastore, castore and sastore.
#[tactic(auto, unfolding(verify_rules::specs::Arrays::element_stored))]
pub(crate) fn element_stored(kind: u8, stack: &mut TypeStack) -> Result<(), Stop>
    ensures { Does (element_stored kind stack.old) result stack.new }
{
    pop_letter(element_letter(kind), stack)?;
    pop_place(kind, stack)
}

// ---- elements that are references

/// The component of an array of references: an array by its descriptor, a class by its name. `None` comes for all other
/// names.
fn component_of(name: &[u8]) -> Option<&[u8]>
    ensures { option_copied result ≡ component_of name.now }
{
    let [first, behind @ ..] = name else {
        return None;
    };
    let [second, rest @ ..] = behind else {
        return None;
    };
    if *first != b'[' {
        return None;
    }
    if *second == b'[' {
        return Some(behind);
    }
    if *second != b'L' {
        return None;
    }
    Some(element_name(rest))
}

fn is_reference_array(name: &[u8]) -> bool
    ensures { result ≡ is_reference_array name.now }
{
    component_of(name).is_some()
}

/// The component of an array of references as a type.
fn named_component(alloc: Global, name: &[u8]) -> Result<VType, Stop>
    ensures { Gives (λ t. t) result (component_type (types.Object name.now)) }
{
    let Some(component) = component_of(name) else {
        return Err(Stop::Fault(Cause::Mismatch));
    };
    let component = Items::from_slice(alloc, component)?;
    Ok(VType::Object(component))
}

/// The type of an element of an array of references: null where the array is null.
fn component_type(alloc: Global, t: &VType) -> Result<VType, Stop>
    ensures { Gives (λ t. t) result (component_type t.now) }
{
    match t {
        VType::Null => Ok(VType::Null),
        VType::Object(name) => named_component(alloc, name.as_slice()),
        _ => Err(Stop::Fault(Cause::Mismatch)),
    }
}

/// Takes an array of references, and puts its component.
fn component_loaded(alloc: Global, room: u16, stack: &mut TypeStack) -> Result<(), Stop>
    ensures { Does (component_loaded room stack.old) result stack.new }
{
    let Some(t) = stack.pop() else {
        return Err(Stop::Fault(Cause::Operands));
    };
    let component = component_type(alloc, &t)?;
    push(room, component, stack)
}

/// The row of aaload.
#[tactic(auto, unfolding(verify_rules::specs::Arrays::reference_loaded))]
pub(crate) fn reference_loaded(alloc: Global, room: u16, stack: &mut TypeStack) -> Result<(), Stop>
    ensures { Does (reference_loaded room stack.old) result stack.new }
{
    pop_letter(Letter::Int, stack)?;
    component_loaded(alloc, room, stack)
}

/// Takes null, an object or an array. An object whose constructor hasn't been called is none of them.
pub(crate) fn pop_object(stack: &mut TypeStack) -> Result<(), Stop>
    ensures { Does (pop_where is_object_type stack.old) result stack.new }
{
    let Some(t) = stack.pop() else {
        return Err(Stop::Fault(Cause::Operands));
    };
    if !is_object_type(&t) {
        return Err(Stop::Fault(Cause::Mismatch));
    }
    Ok(())
}

fn is_reference_place(t: &VType) -> bool
    ensures { result ≡ is_null_or is_reference_array t.now }
{
    match t {
        VType::Null => true,
        VType::Object(name) => is_reference_array(name.as_slice()),
        _ => false,
    }
}

/// Takes an array of references.
fn pop_reference_array(stack: &mut TypeStack) -> Result<(), Stop>
    ensures { Does (pop_where (is_null_or is_reference_array) stack.old) result stack.new }
{
    let Some(t) = stack.pop() else {
        return Err(Stop::Fault(Cause::Operands));
    };
    if !is_reference_place(&t) {
        return Err(Stop::Fault(Cause::Mismatch));
    }
    Ok(())
}

/// The row of aastore. It takes any object: whether the element suits the array is tested when it is stored.
#[tactic(auto, unfolding(verify_rules::specs::Arrays::reference_stored))]
pub(crate) fn reference_stored(stack: &mut TypeStack) -> Result<(), Stop>
    ensures { Does (reference_stored stack.old) result stack.new }
{
    pop_object(stack)?;
    pop_letter(Letter::Int, stack)?;
    pop_reference_array(stack)
}

// ---- length and making

fn is_any_array(t: &VType) -> bool
    ensures { result ≡ is_null_or is_array t.now }
{
    match t {
        VType::Null => true,
        VType::Object(name) => is_array(name.as_slice()),
        _ => false,
    }
}

/// Takes an array.
fn pop_any_array(stack: &mut TypeStack) -> Result<(), Stop>
    ensures { Does (pop_where (is_null_or is_array) stack.old) result stack.new }
{
    let Some(t) = stack.pop() else {
        return Err(Stop::Fault(Cause::Operands));
    };
    if !is_any_array(&t) {
        return Err(Stop::Fault(Cause::Mismatch));
    }
    Ok(())
}

/// The row of arraylength.
#[tactic(auto, unfolding(verify_rules::specs::Arrays::length_taken))]
pub(crate) fn length_taken(room: u16, stack: &mut TypeStack) -> Result<(), Stop>
    ensures { Does (length_taken room stack.old) result stack.new }
{
    pop_any_array(stack)?;
    push(room, VType::Integer, stack)
}

/// The descriptor of the array that newarray makes by this code (JVMS 6.5, newarray), and `None` where the code is none.
#[tactic(auto, unfolding(verify_rules::specs::Arrays::primitive_array))]
pub(crate) fn primitive_array(code: u8) -> Option<&'static [u8]>
    ensures { option_copied result ≡ primitive_array code }
{
    if code == 4 {
        return Some(b"[Z".as_slice());
    }
    if code == 5 {
        return Some(b"[C".as_slice());
    }
    if code == 6 {
        return Some(b"[F".as_slice());
    }
    if code == 7 {
        return Some(b"[D".as_slice());
    }
    if code == 8 {
        return Some(b"[B".as_slice());
    }
    if code == 9 {
        return Some(b"[S".as_slice());
    }
    if code == 10 {
        return Some(b"[I".as_slice());
    }
    if code == 11 {
        return Some(b"[J".as_slice());
    }
    None
}

/// Takes a length, and puts an array of this name. A `None` is a fault of the operand that should have named one.
pub(crate) fn array_made(
    room: u16,
    name: Option<Items<u8>>,
    stack: &mut TypeStack,
) -> Result<(), Stop>
    ensures { Does (array_made room name stack.old) result stack.new }
{
    let Some(name) = name else {
        return Err(Stop::Fault(Cause::Written));
    };
    pop_letter(Letter::Int, stack)?;
    push(room, VType::Object(name), stack)
}

/// The row of newarray.
pub(crate) fn primitive_array_made(
    alloc: Global,
    room: u16,
    code: u8,
    stack: &mut TypeStack,
) -> Result<(), Stop>
    ensures { Does (array_made room (primitive_array code) stack.old) result stack.new }
{
    let Some(name) = primitive_array(code) else {
        return Err(Stop::Fault(Cause::Written));
    };
    let name = Items::from_slice(alloc, name)?;
    array_made(room, Some(name), stack)
}

/// How many brackets stand at the front of a name.
#[tactic(auto, unfolding(verify_rules::specs::Arrays::dimensions))]
fn dimensions(name: &[u8]) -> usize
    ensures { result ≡ dimensions name.now }
{
    let mut count = 0;
    let mut rest = name;
    loop {
        let [first, behind @ ..] = rest else {
            return count;
        };
        if *first != b'[' {
            return count;
        }
        count += 1;
        rest = behind;
    }
}

/// The array whose component is the class or the array of this name, by its descriptor. `None` comes exactly where it would
/// have more than 255 dimensions (JVMS 4.9.1).
pub(crate) fn array_over(alloc: Global, name: &[u8]) -> Result<Option<Items<u8>>, AllocError>
    ensures { IfOk result (λ made. made ≡ array_over name.now) }
{
    if dimensions(name) >= 255 {
        return Ok(None);
    }
    let mut descriptor = Vec::new(alloc);
    if is_array(name) {
        descriptor.extend_from_slice(b"[")?;
        descriptor.extend_from_slice(name)?;
        return Ok(Some(Items::from_vec(descriptor)));
    }
    descriptor.extend_from_slice(b"[L")?;
    descriptor.extend_from_slice(name)?;
    descriptor.extend_from_slice(b";")?;
    Ok(Some(Items::from_vec(descriptor)))
}

/// Takes so many lengths.
#[tactic(auto, unfolding(verify_rules::specs::Arrays::pop_lengths))]
fn pop_lengths(count: u8, stack: &mut TypeStack) -> Result<(), Stop>
    ensures { Does (pop_lengths count stack.old) result stack.new }
{
    for _ in 0..count {
        pop_letter(Letter::Int, stack)?;
    }
    Ok(())
}

/// The row of multianewarray: at least one dimension, and at most those that the array has.
#[tactic(auto, unfolding(verify_rules::specs::Arrays::arrays_made))]
pub(crate) fn arrays_made(
    alloc: Global,
    room: u16,
    name: Option<&[u8]>,
    count: u8,
    stack: &mut TypeStack,
) -> Result<(), Stop>
    ensures { Does (arrays_made room (option_copied name.entry) count stack.old) result stack.new }
{
    let Some(name) = name else {
        return Err(Stop::Fault(Cause::Written));
    };
    if count < 1 || dimensions(name) < usize::from(count) {
        return Err(Stop::Fault(Cause::Written));
    }
    pop_lengths(count, stack)?;
    let name = Items::from_slice(alloc, name)?;
    push(room, VType::Object(name), stack)
}
