//! Which class trees have the first form, the code of `main` aside.
ghost use Rattle.std.specs.Prelude.{◌≡◌, [], unwrap_or};
ghost use Rattle.std.specs.List.{list_all};
ghost use Rattle.class_tree.specs.WellFormed as whole;
ghost use Rattle.first_form.specs.Form as form;

use class_tree::{
    ACC_NATIVE, ACC_PRIVATE, ACC_PUBLIC, ACC_STATIC, ACC_SUPER, ClassTree, CodeTree, MethodTree,
    Pool, PoolEntry,
};

// ---- the constant pool

fn is_ascii(bytes: &[u8]) -> bool
    ensures { result ≡ list_all form.is_ascii bytes.now }
{
    bytes.iter().all(|b| 1 <= *b && *b <= 127)
}

fn is_known_text(own: &[u8], text: &[u8]) -> bool
    ensures { result ≡ form.is_known_text own.now text.now }
{
    is_ascii(text) || text == own
}

fn has_known_type(pool: &Pool, desc: u16) -> bool
    ensures { result ≡ form.has_known_type pool.now desc }
{
    pool.is_text(desc, b"()V") || pool.is_text(desc, b"(I)V")
}

#[tactic(auto, unfolding(crate::specs::Form::is_known_entry))]
fn is_known_entry(pool: &Pool, own: &[u8], entry: &PoolEntry) -> bool
    ensures { result ≡ form.is_known_entry pool.now own.now entry.now }
{
    match entry {
        PoolEntry::Unusable => true,
        PoolEntry::Utf8(text) => is_known_text(own, text.as_slice()),
        PoolEntry::Integer(_) => true,
        PoolEntry::Class(_) => true,
        PoolEntry::Methodref(_, _) => true,
        PoolEntry::NameAndType(_, desc) => has_known_type(pool, *desc),
        _ => false,
    }
}

#[tactic(auto, unfolding(crate::specs::Form::are_known_entries))]
fn are_known_entries(pool: &Pool, own: &[u8]) -> bool
    ensures { result ≡ form.are_known_entries pool.now own.now }
{
    pool.entries()
        .iter()
        .all(|entry| is_known_entry(pool, own, entry))
}

// ---- methods

/// Whether a method is `public static void main(String[])`.
pub(crate) fn is_main(pool: &Pool, m: &MethodTree) -> bool
    ensures { result ≡ form.is_main pool.now m.now }
{
    m.flags == ACC_PUBLIC | ACC_STATIC
        && pool.is_text(m.name, b"main")
        && pool.is_text(m.desc, b"([Ljava/lang/String;)V")
}

// Whether a method is a constructor without parameters.
fn is_init(pool: &Pool, m: &MethodTree) -> bool
    ensures { result ≡ form.is_init pool.now m.now }
{
    (m.flags == 0 || m.flags == ACC_PUBLIC)
        && pool.is_text(m.name, b"<init>")
        && pool.is_text(m.desc, b"()V")
}

fn is_put(pool: &Pool, m: &MethodTree) -> bool
    ensures { result ≡ form.is_put pool.now m.now }
{
    (m.flags == ACC_STATIC | ACC_NATIVE
        || m.flags == ACC_PUBLIC | ACC_STATIC | ACC_NATIVE
        || m.flags == ACC_PRIVATE | ACC_STATIC | ACC_NATIVE)
        && pool.is_text(m.name, b"put")
        && pool.is_text(m.desc, b"(I)V")
}

// No handlers, and no frames.
fn is_plain_code(code: &CodeTree) -> bool
    ensures { result ≡ form.is_plain_code code.now }
{
    code.handlers.len() == 0 && code.map.is_none()
}

fn has_plain_code(m: &MethodTree) -> bool
    ensures { result ≡ form.has_plain_code m.now.code }
{
    match &m.code {
        None => true,
        Some(code) => is_plain_code(code),
    }
}

fn is_known_method(pool: &Pool, m: &MethodTree) -> bool
    ensures { result ≡ form.is_known_method pool.now m.now }
{
    (is_main(pool, m) || is_init(pool, m) || is_put(pool, m)) && has_plain_code(m)
}

#[tactic(auto, unfolding(crate::specs::Form::are_known_methods))]
fn are_known_methods(pool: &Pool, methods: &[MethodTree]) -> bool
    ensures { result ≡ form.are_known_methods pool.now methods.now }
{
    methods.iter().all(|m| is_known_method(pool, m))
}

/// Whether the class declares the native method `put`.
#[tactic(auto, unfolding(crate::specs::Form::declares_put))]
pub(crate) fn declares_put(pool: &Pool, methods: &[MethodTree]) -> bool
    ensures { result ≡ form.declares_put pool.now methods.now }
{
    methods.iter().any(|m| is_put(pool, m))
}

// ---- the class

fn is_object_class(pool: &Pool, index: u16) -> bool
    ensures { result ≡ whole.is_object_class pool.now index }
{
    match pool.class_name(index) {
        Some(name) => name == b"java/lang/Object".as_slice(),
        None => false,
    }
}

#[tactic(auto, unfolding(crate::specs::Form::has_known_head))]
fn has_known_head(t: &ClassTree) -> bool
    ensures { result ≡ form.has_known_head t.now }
{
    t.major == 52
        && (t.flags == ACC_SUPER || t.flags == ACC_PUBLIC | ACC_SUPER)
        && is_object_class(&t.pool, t.sup)
        && t.interfaces.len() == 0
        && t.fields.len() == 0
}

// The class's own name, empty where it has none.
fn own_name(t: &ClassTree) -> &[u8]
    ensures { result.now ≡ unwrap_or (whole.class_name t.now.pool t.now.this) [] }
{
    match t.pool.class_name(t.this) {
        Some(name) => name,
        None => b"",
    }
}

/// Whether a class tree has the first form, the code of `main` aside.
#[tactic(auto, unfolding(crate::specs::Form::has_form))]
pub(crate) fn has_form(t: &ClassTree) -> bool
    ensures { result ≡ form.has_form t.now }
{
    has_known_head(t)
        && are_known_entries(&t.pool, own_name(t))
        && are_known_methods(&t.pool, t.methods.as_slice())
}
