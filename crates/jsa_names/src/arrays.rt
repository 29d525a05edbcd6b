//! Arrays by what names them, as a Class of the constant pool does: an array by its descriptor, as `[[I` and
//! `[Ljava/lang/Object;`, and a class by its internal name (JVMS 4.4.1).
ghost use Rattle.std.specs.Prelude.{◌≡◌, ◌≤◌, List, ℕ, length, Some, IfOk};
ghost use Rattle.std.specs.Option.{option_copied};
ghost use Rattle.jsa_names.specs.Types.{JavaType, Array, behind_byte, spelling, FitsElement, field_type_of};
ghost use Rattle.jsa_names.specs.Arrays.{is_bracket, is_array, dimensions, component_of, before_semicolon, class_of, element_name, reference_name, component_name, array_over, primitive_array, class_in, HasComponent};

use sqlite_items::Items;
use std::alloc::{AllocError, Global};

/// Whether a name is that of an array: it begins with a bracket (JVMS 4.3.2).
pub fn is_array(name: &[u8]) -> bool
    ensures { result ≡ is_array name.now }
{
    let [b, ..] = name else {
        return false;
    };
    *b == b'['
}

/// How many dimensions an array has: the brackets at the front (JVMS 4.3.2). 0 for a class.
#[tactic(auto, unfolding(crate::specs::Arrays::dimensions))]
pub fn dimensions(name: &[u8]) -> usize
    ensures count { result ≡ dimensions name.now }
    ensures within { result ≤ length name.now }
{
    name.iter().take_while(|b| **b == b'[').count()
}

/// The component type of an array, by its descriptor: what follows the first bracket (JVMS 4.3.2). `None` exactly where the
/// name is no array's.
pub fn component_of(name: &[u8]) -> Option<&[u8]>
    ensures { option_copied result ≡ component_of name.now }
{
    let [b, component @ ..] = name else {
        return None;
    };
    if *b == b'[' { Some(component) } else { None }
}

fn before_semicolon(text: &[u8]) -> Option<&[u8]>
    ensures { option_copied result ≡ before_semicolon text.now }
{
    text.strip_suffix(b";")
}

/// The class that a field descriptor names, where it is a class's: what stands between `L` and the semicolon at the end
/// (JVMS 4.3.2). `None` where it is a base type's or an array's.
pub fn class_of(descriptor: &[u8]) -> Option<&[u8]>
    ensures { option_copied result ≡ class_of descriptor.now }
{
    let [b, text @ ..] = descriptor else {
        return None;
    };
    if *b == b'L' {
        before_semicolon(text)
    } else {
        None
    }
}

/// The class that is the element type of an array: what stands between `L` and the semicolon, behind the last bracket
/// (JVMS 4.3.2). `None` exactly where the name is no array's, and where the element type is primitive.
#[tactic(auto, unfolding(crate::specs::Arrays::element_name))]
pub fn element_name(name: &[u8]) -> Option<&[u8]>
    ensures { option_copied result ≡ element_name name.now }
{
    if !is_array(name) {
        return None;
    }
    let (_, element) = name.split_at(dimensions(name));
    class_of(element)
}

fn reference_name(descriptor: &[u8]) -> Option<&[u8]>
    ensures { option_copied result ≡ reference_name descriptor.now }
{
    if is_array(descriptor) {
        return Some(descriptor);
    }
    class_of(descriptor)
}

/// The component type of an array of references, by what names it: an array by its descriptor, a class by its name
/// (JVMS 4.4.1). `None` exactly where the name is no array's, and where the component type is primitive.
#[tactic(auto, unfolding(crate::specs::Arrays::component_name))]
pub fn component_name(name: &[u8]) -> Option<&[u8]>
    ensures { option_copied result ≡ component_name name.now }
{
    let Some(component) = component_of(name) else {
        return None;
    };
    reference_name(component)
}

/// The name of the array whose component type is the class or the array of this name: a bracket before the descriptor of an
/// array, and `[L` and `;` around the name of a class. `None` exactly where it would have more than 255 dimensions
/// (JVMS 4.3.2, 4.9.1).
#[tactic(auto, unfolding(crate::specs::Arrays::array_over))]
pub fn array_over(alloc: Global, name: &[u8]) -> Result<Option<Items<u8>>, AllocError>
    ensures { IfOk result (λ made. made ≡ array_over name.now) }
{
    if dimensions(name) >= 255 {
        return Ok(None);
    }
    let mut array = Vec::new(alloc);
    if is_array(name) {
        array.extend_from_slice(b"[")?;
        array.extend_from_slice(name)?;
        return Ok(Some(Items::from_vec(array)));
    }
    array.extend_from_slice(b"[L")?;
    array.extend_from_slice(name)?;
    array.extend_from_slice(b";")?;
    Ok(Some(Items::from_vec(array)))
}

/// The name of the array whose component type is the base type of this letter, as `[I` of `I` (JVMS 4.3.2). `None` exactly
/// where the letter is none of B, C, D, F, I, J, S and Z.
#[tactic(auto, unfolding(crate::specs::Arrays::primitive_array, crate::specs::Types::base_type))]
pub fn primitive_array(letter: u8) -> Option<&'static [u8]>
    ensures { option_copied result ≡ primitive_array letter }
{
    match letter {
        b'B' => Some(b"[B".as_slice()),
        b'C' => Some(b"[C".as_slice()),
        b'D' => Some(b"[D".as_slice()),
        b'F' => Some(b"[F".as_slice()),
        b'I' => Some(b"[I".as_slice()),
        b'J' => Some(b"[J".as_slice()),
        b'S' => Some(b"[S".as_slice()),
        b'Z' => Some(b"[Z".as_slice()),
        _ => None,
    }
}

/// An array over the class or the array of a name has that as its component, and one dimension more. This does nothing: its
/// contract is a fact for callers.
pub fn arrays_have_components(name: &[u8])
    ensures { (array : List ℕ) → array_over name.now ≡ Some array → HasComponent name.now array }
{}

/// What is read as an array type of an element has the dimensions and the element's class that the type has. This does
/// nothing: its contract is a fact for callers.
pub fn array_types_are_named(name: &[u8])
    ensures dimensions { (depth : ℕ) (element : JavaType) → FitsElement element → field_type_of name.now ≡ Some (Array depth (spelling element)) → dimensions name.now ≡ depth }
    ensures element { (depth : ℕ) (element : JavaType) → FitsElement element → field_type_of name.now ≡ Some (Array depth (spelling element)) → element_name name.now ≡ class_in element }
{}
