//! What the fields and methods of a class must meet (JVMS 4.5 to 4.7).
ghost use Rattle.std.specs.Prelude.{◌≡◌};
ghost use Rattle.std.specs.List.{list_all};
ghost use Rattle.class_tree.specs.Flags as flags;
ghost use Rattle.class_tree.specs.WellFormed as well_formed;

use crate::flags::{
    are_field_flags, are_init_flags, are_method_flags, is_abstract, is_interface, is_native,
    is_static,
};
use crate::tested_pool::TestedPool;
use crate::tested_tree::TestedTree;
use crate::tree::{CodeTree, FieldTree, Handler, MethodTree};

// ---- fields

fn has_its_constant(pool: &TestedPool<'_>, field: &FieldTree) -> bool
    ensures { result ≡ well_formed.has_its_constant pool.now field.now }
{
    field.value == 0 || (is_static(field.flags) && pool.is_constant_for(field.desc, field.value))
}

pub(crate) fn is_field_declaration(tree: &TestedTree<'_>, field: &FieldTree) -> bool
    ensures { result ≡ well_formed.is_field_declaration tree.now field.now }
{
    let pool = tree.pool();
    pool.has_member_name(field.name)
        && pool.has_field_type(field.desc)
        && are_field_flags(is_interface(tree.tree().flags), field.flags)
        && has_its_constant(pool, field)
}

// ---- methods

fn this_slots(method: &MethodTree) -> u8
    ensures { result ≡ well_formed.this_slots method.now }
{
    if is_static(method.flags) { 0 } else { 1 }
}

fn takes_within(pool: &TestedPool<'_>, method: &MethodTree, room: u16) -> bool
    ensures { result ≡ well_formed.takes_within pool.now method.now room }
{
    match pool.parameter_slots(method.desc) {
        Some(slots) => u16::from(slots) + u16::from(this_slots(method)) <= room,
        None => false,
    }
}

fn is_initializer(pool: &TestedPool<'_>, method: &MethodTree) -> bool
    ensures { result ≡ well_formed.is_initializer pool.now method.now }
{
    is_static(method.flags) && pool.is_plain_void(method.desc)
}

fn is_constructor(tree: &TestedTree<'_>, method: &MethodTree) -> bool
    ensures { result ≡ well_formed.is_constructor tree.now method.now }
{
    are_init_flags(method.flags)
        && tree.pool().returns_void(method.desc)
        && !is_interface(tree.tree().flags)
}

fn has_method_flags(tree: &TestedTree<'_>, method: &MethodTree) -> bool
    ensures { result ≡ flags.are_method_flags tree.now.major (flags.is_interface tree.now.flags) method.now.flags }
{
    let tree = tree.tree();
    are_method_flags(tree.major, is_interface(tree.flags), method.flags)
}

#[tactic(auto, unfolding(crate::specs::WellFormed::suits_its_name))]
fn suits_its_name(tree: &TestedTree<'_>, method: &MethodTree) -> bool
    ensures { result ≡ well_formed.suits_its_name tree.now method.now }
{
    let pool = tree.pool();
    if pool.is_clinit(method.name) {
        is_initializer(pool, method)
    } else if pool.is_init(method.name) {
        has_method_flags(tree, method) && is_constructor(tree, method)
    } else {
        has_method_flags(tree, method)
    }
}

fn is_handler(pool: &TestedPool<'_>, size: usize, handler: &Handler) -> bool
    ensures { result ≡ well_formed.is_handler pool.now size handler.now }
{
    handler.start < handler.end
        && usize::from(handler.end) <= size
        && usize::from(handler.handler) < size
        && (handler.catch == 0 || pool.is_class(handler.catch))
}

fn are_handlers(pool: &TestedPool<'_>, size: usize, handlers: &[Handler]) -> bool
    ensures { result ≡ list_all (well_formed.is_handler pool.now size) handlers.now }
{
    handlers
        .iter()
        .all(|handler| is_handler(pool, size, handler))
}

#[tactic(auto, unfolding(crate::specs::WellFormed::is_code))]
fn is_code(pool: &TestedPool<'_>, method: &MethodTree, code: &CodeTree) -> bool
    ensures { result ≡ well_formed.is_code pool.now method.now code.now }
{
    let size = code.bytes.len();
    1 <= size
        && size <= 65535
        && are_handlers(pool, size, code.handlers.as_slice())
        && takes_within(pool, method, code.locals)
}

fn has_code(pool: &TestedPool<'_>, method: &MethodTree) -> bool
    ensures { result ≡ well_formed.has_code pool.now method.now }
{
    pool.is_clinit(method.name) || (!is_native(method.flags) && !is_abstract(method.flags))
}

fn is_code_of(pool: &TestedPool<'_>, method: &MethodTree) -> bool
    ensures { result ≡ well_formed.is_code_of pool.now method.now method.now.code }
{
    match &method.code {
        None => !has_code(pool, method),
        Some(code) => has_code(pool, method) && is_code(pool, method, code),
    }
}

pub(crate) fn is_method_declaration(tree: &TestedTree<'_>, method: &MethodTree) -> bool
    ensures { result ≡ well_formed.is_method_declaration tree.now method.now }
{
    let pool = tree.pool();
    pool.has_declared_name(method.name)
        && takes_within(pool, method, 255)
        && suits_its_name(tree, method)
        && is_code_of(pool, method)
}
