//! Finds the names of the attributes that are written, once for a class.
ghost use Rattle.std.specs.Prelude.{◌≡◌, codes, position, IfOk};
ghost use Rattle.class_tree.specs.Encoded as spec;

use crate::fault::Memory;
use class_tree::{Pool, PoolEntry};
use std::marker::Model;

fn is_this_text(entry: &PoolEntry, text: &[u8]) -> bool
    ensures { result ≡ spec.has_this_text text.now entry.now }
{
    match entry {
        PoolEntry::Utf8(found) => found.as_slice() == text,
        _ => false,
    }
}

fn place_of_text(entries: &[PoolEntry], text: &[u8]) -> Option<usize>
    ensures { result ≡ position (spec.has_this_text text.now) entries.now }
{
    entries.iter().position(|entry| is_this_text(entry, text))
}

// The index of the first Utf8 with this text, or 0 where there is none. `Memory` for an index above 65,535.
#[tactic(auto, unfolding(class_tree::specs::Encoded::index_of_text))]
fn index_of_text(pool: &Pool, text: &[u8]) -> Result<u16, Memory>
    ensures { IfOk result (λ index. index ≡ spec.index_of_text pool.now text.now) }
{
    let Some(index) = place_of_text(pool.entries(), text) else {
        return Ok(0);
    };
    if index > 65_535 {
        return Err(Memory);
    }
    Ok(index as u16)
}

/// A pool, with the indices of the names of the attributes. Contracts see it as the pool.
#[derive(Drop)]
pub(crate) struct AttributeNames<'a> {
    pool: &'a Pool,
    constant_value: u16,
    code: u16,
    stack_map_table: u16,
}

impl<'a> Model for AttributeNames<'a> {
    ghost use Rattle.std.specs.Prelude.{◌≡◌, List, codes};
    ghost use Rattle.class_tree.specs.declared.constant_pool.PoolEntry.{PoolEntry};
    ghost use Rattle.class_tree.specs.Encoded.{index_of_text};

    ghost Value = { List PoolEntry };

    ghost view = { λ n. n.pool.now };

    ghost invariant = { λ n. ((n.constant_value ≡ index_of_text n.pool.now (codes "ConstantValue")) × (n.code ≡ index_of_text n.pool.now (codes "Code"))) × (n.stack_map_table ≡ index_of_text n.pool.now (codes "StackMapTable")) };
}

impl<'a> AttributeNames<'a> {
    pub(crate) fn new(pool: &'a Pool) -> Result<AttributeNames<'a>, Memory>
        ensures { IfOk result (λ names. names ≡ pool.now) }
    {
        let constant_value = index_of_text(pool, b"ConstantValue")?;
        let code = index_of_text(pool, b"Code")?;
        let stack_map_table = index_of_text(pool, b"StackMapTable")?;
        Ok(AttributeNames {
            pool,
            constant_value,
            code,
            stack_map_table,
        })
    }

    pub(crate) fn constant_value(&self) -> u16
        ensures { result ≡ spec.index_of_text self.now (codes "ConstantValue") }
    {
        self.constant_value
    }

    pub(crate) fn code(&self) -> u16
        ensures { result ≡ spec.index_of_text self.now (codes "Code") }
    {
        self.code
    }

    pub(crate) fn stack_map_table(&self) -> u16
        ensures { result ≡ spec.index_of_text self.now (codes "StackMapTable") }
    {
        self.stack_map_table
    }
}
