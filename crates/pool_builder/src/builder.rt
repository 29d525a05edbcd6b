//! A constant pool that grows at its end (JVMS 4.4).
ghost use Rattle.std.specs.Prelude.{◌≡◌, ◌+◌, ◌≤◌, ◌<◌, ◌⊎◌, List, ℕ, length, [], ◌∷◌, ◌++◌, IfOk, IsErrOf, OnOk, OnErr, Some, None, if◌then◌else◌};
ghost use Rattle.std.specs.List.{AllByRecursion};
ghost use Rattle.std.specs.Vec.{vec_len, vec_capacity};
ghost use Rattle.std.specs.Str.{bytes_eq};
ghost use Rattle.class_tree.specs.declared.constant_pool.PoolEntry.TheVariants.{Unusable};
ghost use Rattle.class_tree.specs.Entries as entries;
ghost use Rattle.pool_builder.specs.declared.fault.PoolFault.TheVariants as faults;
ghost use Rattle.pool_builder.specs.Known.{known_at, first_written, put_last};
ghost use Rattle.pool_builder.specs.Laws.{parts, Keeps};
ghost use Rattle.pool_builder.specs.Needs as needs;
ghost use Rattle.pool_builder.specs.Needs.{LacksIndices, IsLong};
ghost use Rattle.pool_builder.specs.Outcome.{Finds};

use crate::fault::PoolFault;
use class_encoder::put_entry as put_key;
use class_tree::{Pool, PoolEntry};
use indexmap::IndexMap;
use sqlite_items::Items;
use std::alloc::{AllocError, Global};
use std::marker::Model;

fn is_wide(entry: &PoolEntry) -> bool
    ensures { result ≡ entries.is_wide entry.now }
{
    matches!(entry, PoolEntry::Long(_) | PoolEntry::Double(_))
}

// The last index at which an entry can stand, since a pool has at most 65,535 (JVMS 4.1).
fn last_index(entry: &PoolEntry) -> usize
    ensures { result ≡ (if entries.is_wide entry.now then 65533 else 65534) }
{
    if is_wide(entry) { 65_533 } else { 65_534 }
}

// Puts an entry at the end, where there is room.
fn put_one(entries: &mut Vec<PoolEntry>, entry: PoolEntry)
    requires { vec_len entries.old < vec_capacity entries.old }
    ensures items { entries.new.items ≡ entries.old.items ++ entry ∷ [] }
    ensures len { vec_len entries.new ≡ vec_len entries.old + 1 }
    ensures capacity { vec_capacity entries.old ≤ vec_capacity entries.new }
{
    match entries.push(entry) {
        Ok(()) => (),
        Err(_) => unreachable!(),
    }
}

// Puts an entry at the end, and the unusable index behind it where it takes two.
fn put_entry(entries: &mut Vec<PoolEntry>, entry: PoolEntry)
    requires { vec_len entries.old + 2 ≤ vec_capacity entries.old }
    ensures { entries.new.items ≡ needs.added entries.old.items entry }
{
    let wide = is_wide(&entry);
    put_one(entries, entry);
    if wide {
        put_one(entries, PoolEntry::Unusable);
    }
}

// The bytes by which an entry is written: two entries are equal exactly where these are.
fn key_of(alloc: Global, entry: &PoolEntry) -> Result<Vec<u8>, AllocError>
    ensures { IfOk result (λ key. key.items ≡ entries.entry entry.now) }
{
    let mut key = Vec::new(alloc);
    match put_key(&mut key, entry) {
        Ok(()) => Ok(key),
        Err(_) => Err(AllocError),
    }
}

fn place_of(places: &IndexMap<Vec<u8>, u16>, key: &[u8]) -> Option<u16>
    ensures { result ≡ known_at places.now key.now }
{
    places.get(key).copied()
}

// Notes the index of bytes that have none yet.
fn note(places: &mut IndexMap<Vec<u8>, u16>, key: Vec<u8>, index: u16) -> Result<(), AllocError>
    requires { known_at places.old key.items ≡ None }
    ensures ok { OnOk result ((bytes : List ℕ) → known_at places.new bytes ≡ (if bytes_eq key.items bytes then Some index else known_at places.old bytes)) }
    ensures err { OnErr result ((bytes : List ℕ) → known_at places.new bytes ≡ known_at places.old bytes) }
{
    places.insert(key, index)?;
    Ok(())
}

/// A constant pool that grows at its end. Each call of it answers the index of what is needed, a number below 65,535, where
/// an equal entry stands or else at the end, with its parts before it.
///
/// # Errors
///
/// `NoRoom` exactly where a text has more than 65,535 bytes (JVMS 4.4.7), or where no equal entry stands and the pool has too
/// few indices left, its last being 65,534 (JVMS 4.1); `Memory` where memory runs out. The pool stays one whose entries have
/// their parts before them: what was put in before that stays, so that each index that was answered is still that of its
/// entry.
///
/// Contracts see it as the list of its entries, from index 0 on.
#[derive(Drop)]
pub struct PoolBuilder {
    entries: Vec<PoolEntry>,
    // The index of the first entry that is written as these bytes.
    places: IndexMap<Vec<u8>, u16>,
}

impl Model for PoolBuilder {
    ghost use Rattle.std.specs.Prelude.{List};
    ghost use Rattle.class_tree.specs.declared.constant_pool.PoolEntry.{PoolEntry};
    ghost use Rattle.pool_builder.specs.Known.{Knows};

    ghost Value = { List PoolEntry };

    ghost view = { λ p. p.entries.items };

    ghost invariant = { λ p. Knows p.places p.entries.items };
}

impl PoolBuilder {
    /// A pool of index 0 alone. The error is want of memory.
    pub fn new(alloc: Global) -> Result<PoolBuilder, AllocError>
        ensures { IfOk result (λ pool. pool ≡ Unusable ∷ []) }
    {
        let mut entries = Vec::new(alloc);
        entries.push(PoolEntry::Unusable)?;
        let mut places = IndexMap::new(alloc);
        note(&mut places, Vec::new(alloc), 0)?;
        Ok(PoolBuilder { entries, places })
    }

    // Puts an entry that isn't there at the end.
    fn put_last(&mut self, key: Vec<u8>, entry: PoolEntry) -> Result<u16, PoolFault>
        requires key { key.items ≡ entries.entry entry }
        requires fresh { first_written key.items self.old ≡ None }
        ensures index { Finds result self.new (put_last entry self.old) }
        ensures stays { OnErr result (self.new ≡ self.old) }
    {
        let index = self.entries.len();
        if index > last_index(&entry) {
            return Err(PoolFault::NoRoom);
        }
        // Nothing fails once the index is noted.
        self.entries.reserve(2)?;
        note(&mut self.places, key, index as u16)?;
        put_entry(&mut self.entries, entry);
        Ok(index as u16)
    }

    #[tactic(auto, unfolding(crate::specs::Needs::needed))]
    fn found_or_put(&mut self, alloc: Global, entry: PoolEntry) -> Result<u16, PoolFault>
        ensures index { Finds result self.new (needs.needed entry self.old) }
        ensures stays { OnErr result (self.new ≡ self.old) }
    {
        let key = key_of(alloc, &entry)?;
        if let Some(index) = place_of(&self.places, key.as_slice()) {
            return Ok(index);
        }
        self.put_last(key, entry)
    }

    // The index of an entry whose parts stand in the pool.
    fn index(&mut self, alloc: Global, entry: PoolEntry) -> Result<u16, PoolFault>
        requires { AllByRecursion (λ part. part < length self.old) (parts entry) }
        ensures index { Finds result self.new (needs.needed entry self.old) }
        ensures within { IfOk result (λ index. index < length self.new) }
        ensures room { IsErrOf result faults.NoRoom → LacksIndices (needs.indices entry) self.new }
        ensures stays { OnErr result (self.new ≡ self.old) }
        ensures keeps { Keeps self.old self.new }
    {
        self.found_or_put(alloc, entry)
    }

    /// The index of a text (JVMS 4.4.7), which is in modified UTF-8.
    #[tactic(auto, unfolding(crate::specs::Needs::utf8_needed))]
    pub fn utf8(&mut self, alloc: Global, text: &[u8]) -> Result<u16, PoolFault>
        ensures index { Finds result self.new (needs.utf8_needed text.now self.old) }
        ensures within { IfOk result (λ index. index < length self.new) }
        ensures room { IsErrOf result faults.NoRoom → IsLong text.now ⊎ LacksIndices 1 self.new }
        ensures stays { OnErr result (self.new ≡ self.old) }
        ensures keeps { Keeps self.old self.new }
    {
        if text.len() > 65_535 {
            return Err(PoolFault::NoRoom);
        }
        let text = Items::from_slice(alloc, text)?;
        self.index(alloc, PoolEntry::Utf8(text))
    }

    /// The index of an int (JVMS 4.4.4).
    pub fn integer(&mut self, alloc: Global, n: i32) -> Result<u16, PoolFault>
        ensures index { Finds result self.new (needs.integer_needed n self.old) }
        ensures within { IfOk result (λ index. index < length self.new) }
        ensures room { IsErrOf result faults.NoRoom → LacksIndices 1 self.new }
        ensures stays { OnErr result (self.new ≡ self.old) }
        ensures keeps { Keeps self.old self.new }
    {
        self.index(alloc, PoolEntry::Integer(n.cast_unsigned()))
    }

    /// The index of a float by its bits (JVMS 4.4.4).
    pub fn float(&mut self, alloc: Global, bits: u32) -> Result<u16, PoolFault>
        ensures index { Finds result self.new (needs.float_needed bits self.old) }
        ensures within { IfOk result (λ index. index < length self.new) }
        ensures room { IsErrOf result faults.NoRoom → LacksIndices 1 self.new }
        ensures stays { OnErr result (self.new ≡ self.old) }
        ensures keeps { Keeps self.old self.new }
    {
        self.index(alloc, PoolEntry::Float(bits))
    }

    /// The first of the two indices of a long (JVMS 4.4.5).
    pub fn long(&mut self, alloc: Global, n: i64) -> Result<u16, PoolFault>
        ensures index { Finds result self.new (needs.long_needed n self.old) }
        ensures within { IfOk result (λ index. index < length self.new) }
        ensures room { IsErrOf result faults.NoRoom → LacksIndices 2 self.new }
        ensures stays { OnErr result (self.new ≡ self.old) }
        ensures keeps { Keeps self.old self.new }
    {
        self.index(alloc, PoolEntry::Long(n.cast_unsigned()))
    }

    /// The first of the two indices of a double by its bits (JVMS 4.4.5).
    pub fn double(&mut self, alloc: Global, bits: u64) -> Result<u16, PoolFault>
        ensures index { Finds result self.new (needs.double_needed bits self.old) }
        ensures within { IfOk result (λ index. index < length self.new) }
        ensures room { IsErrOf result faults.NoRoom → LacksIndices 2 self.new }
        ensures stays { OnErr result (self.new ≡ self.old) }
        ensures keeps { Keeps self.old self.new }
    {
        self.index(alloc, PoolEntry::Double(bits))
    }

    /// The index of a class, or of an array by its descriptor, behind its name (JVMS 4.4.1).
    #[tactic(auto, unfolding(crate::specs::Needs::class_needed), using(crate::proofs::Keeping::keeps_then))]
    pub fn class(&mut self, alloc: Global, name: &[u8]) -> Result<u16, PoolFault>
        ensures index { Finds result self.new (needs.class_needed name.now self.old) }
        ensures within { IfOk result (λ index. index < length self.new) }
        ensures room { IsErrOf result faults.NoRoom → IsLong name.now ⊎ LacksIndices 1 self.new }
        ensures keeps { Keeps self.old self.new }
    {
        let text = self.utf8(alloc, name)?;
        self.index(alloc, PoolEntry::Class(text))
    }

    /// The index of a string, behind its text (JVMS 4.4.3).
    #[tactic(auto, unfolding(crate::specs::Needs::string_needed), using(crate::proofs::Keeping::keeps_then))]
    pub fn string(&mut self, alloc: Global, string: &[u8]) -> Result<u16, PoolFault>
        ensures index { Finds result self.new (needs.string_needed string.now self.old) }
        ensures within { IfOk result (λ index. index < length self.new) }
        ensures room { IsErrOf result faults.NoRoom → IsLong string.now ⊎ LacksIndices 1 self.new }
        ensures keeps { Keeps self.old self.new }
    {
        let text = self.utf8(alloc, string)?;
        self.index(alloc, PoolEntry::Str(text))
    }

    /// The index of a name with a descriptor, behind both (JVMS 4.4.6).
    #[tactic(auto, unfolding(crate::specs::Needs::name_and_type_needed), using(crate::proofs::Keeping::keeps_then, crate::proofs::Keeping::still_within))]
    pub fn name_and_type(
        &mut self,
        alloc: Global,
        name: &[u8],
        desc: &[u8],
    ) -> Result<u16, PoolFault>
        ensures index { Finds result self.new (needs.name_and_type_needed name.now desc.now self.old) }
        ensures within { IfOk result (λ index. index < length self.new) }
        ensures room { IsErrOf result faults.NoRoom → IsLong name.now ⊎ (IsLong desc.now ⊎ LacksIndices 1 self.new) }
        ensures keeps { Keeps self.old self.new }
    {
        let first = self.utf8(alloc, name)?;
        let second = self.utf8(alloc, desc)?;
        self.index(alloc, PoolEntry::NameAndType(first, second))
    }

    // The indices of the parts of a member: of its class, and of its name with its descriptor.
    #[tactic(auto, unfolding(crate::specs::Needs::parts_needed), using(crate::proofs::Keeping::keeps_then, crate::proofs::Keeping::still_within))]
    fn member_parts(
        &mut self,
        alloc: Global,
        class: &[u8],
        name: &[u8],
        desc: &[u8],
    ) -> Result<(u16, u16), PoolFault>
        ensures indices { Finds result self.new (needs.parts_needed class.now name.now desc.now self.old) }
        ensures within { IfOk result (λ indices. (indices.0 < length self.new) × (indices.1 < length self.new)) }
        ensures room { IsErrOf result faults.NoRoom → IsLong class.now ⊎ (IsLong name.now ⊎ (IsLong desc.now ⊎ LacksIndices 1 self.new)) }
        ensures keeps { Keeps self.old self.new }
    {
        let class_index = self.class(alloc, class)?;
        let member = self.name_and_type(alloc, name, desc)?;
        Ok((class_index, member))
    }

    /// The index of a field, behind its class, its name and its descriptor (JVMS 4.4.2).
    #[tactic(auto, unfolding(crate::specs::Needs::field_needed), using(crate::proofs::Keeping::keeps_then))]
    pub fn field(
        &mut self,
        alloc: Global,
        class: &[u8],
        name: &[u8],
        desc: &[u8],
    ) -> Result<u16, PoolFault>
        ensures index { Finds result self.new (needs.field_needed class.now name.now desc.now self.old) }
        ensures within { IfOk result (λ index. index < length self.new) }
        ensures room { IsErrOf result faults.NoRoom → IsLong class.now ⊎ (IsLong name.now ⊎ (IsLong desc.now ⊎ LacksIndices 1 self.new)) }
        ensures keeps { Keeps self.old self.new }
    {
        let (first, second) = self.member_parts(alloc, class, name, desc)?;
        self.index(alloc, PoolEntry::Fieldref(first, second))
    }

    /// The index of a method of a class, behind its class, its name and its descriptor (JVMS 4.4.2).
    #[tactic(auto, unfolding(crate::specs::Needs::method_needed), using(crate::proofs::Keeping::keeps_then))]
    pub fn method(
        &mut self,
        alloc: Global,
        class: &[u8],
        name: &[u8],
        desc: &[u8],
    ) -> Result<u16, PoolFault>
        ensures index { Finds result self.new (needs.method_needed class.now name.now desc.now self.old) }
        ensures within { IfOk result (λ index. index < length self.new) }
        ensures room { IsErrOf result faults.NoRoom → IsLong class.now ⊎ (IsLong name.now ⊎ (IsLong desc.now ⊎ LacksIndices 1 self.new)) }
        ensures keeps { Keeps self.old self.new }
    {
        let (first, second) = self.member_parts(alloc, class, name, desc)?;
        self.index(alloc, PoolEntry::Methodref(first, second))
    }

    /// The index of a method of an interface, behind its interface, its name and its descriptor (JVMS 4.4.2).
    #[tactic(auto, unfolding(crate::specs::Needs::interface_method_needed), using(crate::proofs::Keeping::keeps_then))]
    pub fn interface_method(
        &mut self,
        alloc: Global,
        class: &[u8],
        name: &[u8],
        desc: &[u8],
    ) -> Result<u16, PoolFault>
        ensures index { Finds result self.new (needs.interface_method_needed class.now name.now desc.now self.old) }
        ensures within { IfOk result (λ index. index < length self.new) }
        ensures room { IsErrOf result faults.NoRoom → IsLong class.now ⊎ (IsLong name.now ⊎ (IsLong desc.now ⊎ LacksIndices 1 self.new)) }
        ensures keeps { Keeps self.old self.new }
    {
        let (first, second) = self.member_parts(alloc, class, name, desc)?;
        self.index(alloc, PoolEntry::InterfaceMethodref(first, second))
    }

    /// The pool as it stands.
    pub fn into_pool(self) -> Pool
        ensures { result ≡ self }
    {
        Pool::new(Items::from_vec(self.entries))
    }
}
