//! Whether the entries of a constant pool name what they are to name (JVMS 4.4).
ghost use Rattle.std.specs.Prelude.{◌≡◌, IfOk};
ghost use Rattle.class_tree.specs.Links as links;

use crate::constant_pool::PoolEntry;
use crate::tested_pool::TestedPool;
use jsa_names::is_mutf8;
use std::alloc::{AllocError, Global};

fn links(pool: &TestedPool<'_>, entry: &PoolEntry) -> bool
    ensures { result ≡ links.links pool.now entry.now }
{
    match entry {
        PoolEntry::Unusable => true,
        PoolEntry::Utf8(text) => is_mutf8(text.as_slice()),
        PoolEntry::Integer(_) => true,
        PoolEntry::Float(_) => true,
        PoolEntry::Long(_) => true,
        PoolEntry::Double(_) => true,
        PoolEntry::Class(name) => pool.has_class_name(*name),
        PoolEntry::Str(string) => pool.is_utf8(*string),
        PoolEntry::Fieldref(class, member) => pool.is_class(*class) && pool.is_field(*member),
        PoolEntry::Methodref(class, member) => {
            pool.is_class(*class) && pool.is_method(*member) && pool.init_is_void(*member)
        }
        PoolEntry::InterfaceMethodref(class, member) => {
            pool.is_class(*class) && pool.is_method(*member)
        }
        PoolEntry::NameAndType(name, desc) => pool.is_utf8(*name) && pool.is_utf8(*desc),
        PoolEntry::MethodHandle(kind, member) => {
            1 <= *kind && *kind <= 9 && pool.is_member_reference(*member)
        }
        PoolEntry::MethodType(desc) => pool.is_utf8(*desc),
        PoolEntry::InvokeDynamic(_, member) => pool.is_name_and_type(*member),
    }
}

#[tactic(auto, unfolding(crate::specs::Links::is_linked))]
fn all_link(pool: &TestedPool<'_>) -> bool
    ensures { result ≡ links.is_linked pool.now }
{
    pool.entries().iter().all(|entry| links(pool, entry))
}

/// Whether each index inside an entry names an entry of the kind wanted, and each text is what it is named for.
pub(crate) fn are_linked(alloc: Global, entries: &[PoolEntry]) -> Result<bool, AllocError>
    ensures { IfOk result (λ linked. linked ≡ links.is_linked entries.now) }
{
    let pool = TestedPool::new(alloc, entries)?;
    Ok(all_link(&pool))
}
