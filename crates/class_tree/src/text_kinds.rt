//! What a text of a constant pool is (JVMS 4.2 to 4.4).
ghost use Rattle.std.specs.Prelude.{◌≡◌};
ghost use Rattle.class_tree.specs.Links as links;
ghost use Rattle.class_tree.specs.WellFormed as well_formed;

use jsa_names::{field_type, is_class_name, is_method_name, method_type};

fn begins_array(text: &[u8]) -> bool
    ensures { result ≡ links.begins_array text.now }
{
    let [b, ..] = text else {
        return false;
    };
    *b == b'['
}

/// Whether a text is the descriptor of a field (JVMS 4.3.2).
pub fn is_field_type(text: &[u8]) -> bool
    ensures { result ≡ links.is_field_type text.now }
{
    field_type(text).is_some()
}

/// Whether a text can be what a Class of the constant pool names: the name of a class, or the descriptor of an array, which
/// has at most 255 dimensions (JVMS 4.4.1).
pub fn is_class_or_array(text: &[u8]) -> bool
    ensures { result ≡ links.is_class_or_array text.now }
{
    is_class_name(text) || (begins_array(text) && is_field_type(text))
}

/// Whether a text is the descriptor of a method (JVMS 4.3.3).
pub fn is_method_type(text: &[u8]) -> bool
    ensures { result ≡ links.is_method_type text.now }
{
    method_type(text).is_some()
}

/// Whether a text is `<init>`.
pub fn is_init(text: &[u8]) -> bool
    ensures { result ≡ links.is_init text.now }
{
    text == b"<init>".as_slice()
}

/// Whether a text is the descriptor of a method whose result is V.
pub fn returns_void(text: &[u8]) -> bool
    ensures { result ≡ links.returns_void text.now }
{
    match method_type(text) {
        Some(method) => method.result().is_none(),
        None => false,
    }
}

/// Whether a text is `<clinit>`.
pub fn is_clinit(text: &[u8]) -> bool
    ensures { result ≡ well_formed.is_clinit text.now }
{
    text == b"<clinit>".as_slice()
}

/// Whether a text can be the name of a declared method: not empty, with none of `.`, `;`, `[`, `/`, `<` and `>`, or
/// `<init>` or `<clinit>` (JVMS 4.2.2).
pub fn is_declared_name(text: &[u8]) -> bool
    ensures { result ≡ well_formed.is_declared_name text.now }
{
    is_method_name(text) || is_clinit(text)
}
