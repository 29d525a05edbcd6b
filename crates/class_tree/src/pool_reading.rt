//! Reads a constant pool whose entries name what they are to name.
ghost use Rattle.std.specs.Prelude.{◌≡◌, IfOk, List, ℕ, Some};
ghost use Rattle.class_tree.specs.declared.constant_pool.PoolEntry.{PoolEntry};
ghost use Rattle.class_tree.specs.Outcomes.{Gives, NoVersion};
ghost use Rattle.class_tree.specs.Pools.{SpellsPool, OnePool, linked_pool_at};

use crate::constant_pool::Pool;
use crate::fault::FormatFault;
use crate::links::are_linked;
use crate::reading::all_entries;
use jsa_base::Cursor;
use std::alloc::Global;

#[tactic(auto, unfolding(crate::specs::Pools::linked_pool_at))]
fn linked_pool(alloc: Global, cursor: &mut Cursor<'_>) -> Result<Pool, FormatFault>
    ensures { Gives result cursor.new (linked_pool_at cursor.old) }
{
    let entries = all_entries(alloc, cursor)?;
    if !are_linked(alloc, entries.as_slice())? {
        return Err(FormatFault::NotClass);
    }
    Ok(Pool::new(entries))
}

/// The constant pool that the bytes begin with (JVMS 4.1, 4.4), its entries from index 0 on. The cursor is then behind
/// it.
///
/// # Errors
///
/// `NotClass` comes exactly where the bytes begin with no pool: where they are cut, the count is 0, an entry has a tag
/// that is none, a Long or a Double has no second index below the count, an index names no entry of the kind wanted, the
/// kind of a handle isn't 1 to 9, or a text is no modified UTF-8 or not what it is named for. `Memory` comes where memory runs out, and `Version` never. After an error nothing is said of
/// the cursor.
pub fn read_pool(alloc: Global, cursor: &mut Cursor<'_>) -> Result<Pool, FormatFault>
    // What is read is spelled so.
    ensures found { IfOk result (λ pool. SpellsPool cursor.old pool cursor.new) }
    // What is spelled so is read, unless memory runs out.
    ensures only { (pool : List PoolEntry) (rest : List ℕ) → SpellsPool cursor.old pool rest → Gives result cursor.new (Some (pool, rest)) }
    ensures no_version { NoVersion result }
    // The pool and what is left are what reading the entries one after the other gives.
    ensures read { Gives result cursor.new (linked_pool_at cursor.old) }
{
    cursor.are_bytes();
    linked_pool(alloc, cursor)
}

/// Bytes begin with one constant pool at most, wherever it ends. This does nothing: its contract is a fact for callers.
pub fn one_pool()
    ensures { OnePool }
{}
