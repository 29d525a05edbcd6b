//! Appends a constant pool (JVMS 4.4).
ghost use Rattle.std.specs.Prelude.{◌≡◌, ◌++◌, ◌∷◌, [], OnOk};
ghost use Rattle.std.specs.List.{flat_map};
ghost use Rattle.jsa_base.specs.Spelling as numbers;
ghost use Rattle.class_tree.specs.Entries as spec;

use crate::fault::Memory;
use crate::numbers::{put_count, put_text};
use class_tree::{Pool, PoolEntry};
use jsa_base::{put_u1, put_u2, put_u4, put_u8};
use std::alloc::AllocError;

fn put_index(out: &mut Vec<u8>, tag: u8, index: u16) -> Result<(), AllocError>
    ensures { OnOk result (out.new.items ≡ out.old.items ++ (numbers.u1 tag ++ numbers.u2 index)) }
{
    put_u1(out, tag)?;
    put_u2(out, index)
}

fn put_two_indices(out: &mut Vec<u8>, tag: u8, first: u16, second: u16) -> Result<(), AllocError>
    ensures { OnOk result (out.new.items ≡ out.old.items ++ (numbers.u1 tag ++ (numbers.u2 first ++ numbers.u2 second))) }
{
    put_u1(out, tag)?;
    put_u2(out, first)?;
    put_u2(out, second)
}

fn put_handle(out: &mut Vec<u8>, kind: u8, member: u16) -> Result<(), AllocError>
    ensures { OnOk result (out.new.items ≡ out.old.items ++ (numbers.u1 15 ++ (numbers.u1 kind ++ numbers.u2 member))) }
{
    put_u1(out, 15)?;
    put_u1(out, kind)?;
    put_u2(out, member)
}

fn put_four_bytes(out: &mut Vec<u8>, tag: u8, bits: u32) -> Result<(), AllocError>
    ensures { OnOk result (out.new.items ≡ out.old.items ++ (numbers.u1 tag ++ numbers.u4 bits)) }
{
    put_u1(out, tag)?;
    put_u4(out, bits)
}

fn put_eight_bytes(out: &mut Vec<u8>, tag: u8, bits: u64) -> Result<(), AllocError>
    ensures { OnOk result (out.new.items ≡ out.old.items ++ (numbers.u1 tag ++ numbers.u8 bits)) }
{
    put_u1(out, tag)?;
    put_u8(out, bits)
}

fn put_utf8(out: &mut Vec<u8>, text: &[u8]) -> Result<(), Memory>
    ensures { OnOk result (out.new.items ≡ out.old.items ++ (numbers.u1 1 ++ numbers.text text.now)) }
{
    put_u1(out, 1)?;
    put_text(out, text)
}

/// Appends an entry as it is written in a constant pool (JVMS 4.4): its tag, and what stands behind it. Of an unusable
/// index nothing is appended.
///
/// `Memory` comes where memory runs out, and for a text of more than 65,535 bytes. What was appended by then stays.
pub fn put_entry(out: &mut Vec<u8>, entry: &PoolEntry) -> Result<(), Memory>
    ensures { OnOk result (out.new.items ≡ out.old.items ++ spec.entry entry.now) }
{
    match entry {
        PoolEntry::Unusable => Ok(()),
        PoolEntry::Utf8(text) => put_utf8(out, text.as_slice()),
        PoolEntry::Integer(bits) => Ok(put_four_bytes(out, 3, *bits)?),
        PoolEntry::Float(bits) => Ok(put_four_bytes(out, 4, *bits)?),
        PoolEntry::Long(bits) => Ok(put_eight_bytes(out, 5, *bits)?),
        PoolEntry::Double(bits) => Ok(put_eight_bytes(out, 6, *bits)?),
        PoolEntry::Class(name) => Ok(put_index(out, 7, *name)?),
        PoolEntry::Str(string) => Ok(put_index(out, 8, *string)?),
        PoolEntry::Fieldref(class, member) => Ok(put_two_indices(out, 9, *class, *member)?),
        PoolEntry::Methodref(class, member) => Ok(put_two_indices(out, 10, *class, *member)?),
        PoolEntry::InterfaceMethodref(class, member) => Ok(put_two_indices(
            out, 11, *class, *member,
        )?),
        PoolEntry::NameAndType(name, desc) => Ok(put_two_indices(out, 12, *name, *desc)?),
        PoolEntry::MethodHandle(kind, member) => Ok(put_handle(out, *kind, *member)?),
        PoolEntry::MethodType(desc) => Ok(put_index(out, 16, *desc)?),
        PoolEntry::InvokeDynamic(bootstrap, member) => {
            Ok(put_two_indices(out, 18, *bootstrap, *member)?)
        }
    }
}

fn put_entries(out: &mut Vec<u8>, entries: &[PoolEntry]) -> Result<(), Memory>
    ensures { OnOk result (out.new.items ≡ out.old.items ++ flat_map spec.entry entries.now) }
{
    let mut rest = entries;
    loop {
        let [entry, more @ ..] = rest else {
            return Ok(());
        };
        put_entry(out, entry)?;
        rest = more;
    }
}

pub(crate) fn put_pool(out: &mut Vec<u8>, pool: &Pool) -> Result<(), Memory>
    ensures { OnOk result (out.new.items ≡ out.old.items ++ spec.pool_text pool.now) }
{
    let entries = pool.entries();
    put_count(out, entries.len())?;
    put_entries(out, entries)
}
