//! Names of classes, fields and methods (JVMS 4.2).
ghost use Rattle.std.specs.Prelude.{◌≡◌};
ghost use Rattle.std.specs.List.{list_all};
ghost use Rattle.jsa_names.specs.Names as names;

fn is_plain(b: u8) -> bool
    ensures { result ≡ names.is_plain b }
{
    b != b'.' && b != b';' && b != b'['
}

fn are_plain(bytes: &[u8]) -> bool
    ensures { result ≡ list_all names.is_plain bytes.now }
{
    bytes.iter().all(|b| is_plain(*b))
}

fn is_segment(bytes: &[u8]) -> bool
    ensures { result ≡ names.is_segment bytes.now }
{
    bytes.len() != 0 && are_plain(bytes)
}

/// Whether the bytes are the internal name of a class: segments between slashes, none of them empty and none with
/// `.`, `;` or `[` (JVMS 4.2.1).
pub fn is_class_name(bytes: &[u8]) -> bool
    ensures { result ≡ names.is_class_name bytes.now }
{
    bytes
        .split(|b| *b == b'/')
        .all(|segment| is_segment(segment))
}

fn is_member_byte(b: u8) -> bool
    ensures { result ≡ names.is_member_byte b }
{
    is_plain(b) && b != b'/'
}

fn are_member_bytes(bytes: &[u8]) -> bool
    ensures { result ≡ list_all names.is_member_byte bytes.now }
{
    bytes.iter().all(|b| is_member_byte(*b))
}

/// Whether the bytes are an unqualified name, as a field has: not empty, without `.`, `;`, `[` and `/` (JVMS 4.2.2).
pub fn is_member_name(bytes: &[u8]) -> bool
    ensures { result ≡ names.is_member_name bytes.now }
{
    bytes.len() != 0 && are_member_bytes(bytes)
}

#[tactic(auto, unfolding(crate::specs::Names::is_method_byte))]
fn is_method_byte(b: u8) -> bool
    ensures { result ≡ names.is_method_byte b }
{
    is_member_byte(b) && b != b'<' && b != b'>'
}

fn are_method_bytes(bytes: &[u8]) -> bool
    ensures { result ≡ list_all names.is_method_byte bytes.now }
{
    bytes.iter().all(|b| is_method_byte(*b))
}

/// Whether the bytes are the name of a method that isn't a class initialiser: an unqualified name without `<` and
/// `>`, or `<init>` (JVMS 4.2.2).
pub fn is_method_name(bytes: &[u8]) -> bool
    ensures { result ≡ names.is_method_name bytes.now }
{
    bytes == b"<init>".as_slice() || (bytes.len() != 0 && are_method_bytes(bytes))
}
