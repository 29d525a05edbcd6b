//! The operand stack of a frame (JVMS 4.10.1.4).
ghost use Rattle.std.specs.Prelude.{◌≡◌, ◌-◌, ◌<◌, [], ◌∷◌, length, slice_get, nat_le, Some, None, if◌then◌else◌, IfOk, OnOk, MatchOption};
ghost use Rattle.std.specs.Option.{option_copied};
ghost use Rattle.verify_rules.specs.Types.{Pushed, size, units, top_first, turned_all};

use crate::copies::{all_copied, size, turn_locals};
use crate::types::{Unfinished, VType};
use sqlite_items::Items;
use std::alloc::{AllocError, Global};
use std::marker::Model;

/// An operand stack. It knows how many units its types take, so that a push takes no longer on a deep one.
///
/// Contracts see it as the list of its types, the top first.
#[derive(Debug, Drop)]
pub struct TypeStack {
    // The top last.
    items: Items<VType>,
    // The units that they take.
    taken: u16,
}

impl Model for TypeStack {
    ghost use Rattle.std.specs.Prelude.{◌≡◌, List};
    ghost use Rattle.verify_rules.specs.declared.types.VType.{VType};
    ghost use Rattle.verify_rules.specs.Types.{top_first, units};

    ghost Value = { List VType };

    ghost view = { λ s. top_first s.items };

    ghost invariant = { λ s. s.taken ≡ units s.items };
}

impl TypeStack {
    /// An empty stack.
    #[tactic(auto, unfolding(crate::specs::Types::units))]
    pub fn new(alloc: Global) -> TypeStack
        ensures { result ≡ [] }
    {
        TypeStack {
            items: Items::new(alloc),
            taken: 0,
        }
    }

    /// A stack of these items, of which the last is the top, where they take no more than `room` units.
    pub fn within(items: Items<VType>, room: u16) -> Option<TypeStack>
        ensures { result ≡ (if nat_le (units items) room then Some (top_first items) else None) }
    {
        let Some(taken) = units_within(items.as_slice(), room) else {
            return None;
        };
        Some(TypeStack { items, taken })
    }

    /// How many types are on the stack.
    pub fn len(&self) -> usize
        ensures { result ≡ length self.now }
    {
        self.items.len()
    }

    /// Puts a type on top, where no more than `room` units are then taken (JVMS 4.10.1.4). `false` comes exactly where
    /// more would be, and the stack is then unchanged.
    pub fn push(&mut self, room: u16, t: VType) -> Result<bool, AllocError>
        ensures { Pushed room t self.old self.new result }
    {
        let size = size(&t);
        if u32::from(room) < u32::from(self.taken) + u32::from(size) {
            return Ok(false);
        }
        self.items.push(t)?;
        self.taken += size;
        Ok(true)
    }

    /// Takes the top off. `None` comes exactly where the stack is empty.
    pub fn pop(&mut self) -> Option<VType>
        ensures { MatchOption result ((self.old ≡ []) × (self.new ≡ [])) (λ t. self.old ≡ t ∷ self.new) }
    {
        let t = self.items.pop()?;
        self.taken -= size(&t);
        Some(t)
    }

    /// The type that is so far below the top.
    pub fn get(&self, at: usize) -> Option<&VType>
        ensures { option_copied result ≡ slice_get self.now at }
    {
        if at >= self.items.len() {
            return None;
        }
        from_end(self.items.as_slice(), at)
    }

    /// Gives each copy of an object the type that it has once a constructor was called on it (JVMS 4.10.1.9,
    /// invokespecial). All other types stay where they are, and are not copied.
    ///
    /// After an error some of the copies have the new type.
    pub fn turn_all(
        &mut self,
        alloc: Global,
        old: Unfinished,
        new: &VType,
    ) -> Result<(), AllocError>
        requires { size new.now ≡ 1 }
        ensures { OnOk result (self.new ≡ turned_all old new.now self.old) }
    {
        turn_locals(alloc, &mut self.items, old, new)
    }
}

/// The units that types take, where they are no more than `room`.
pub fn units_within(types: &[VType], room: u16) -> Option<u16>
    ensures { result ≡ (if nat_le (units types.now) room then Some (units types.now) else None) }
{
    let mut taken = 0u16;
    for t in types {
        let size = size(t);
        if room - taken < size {
            return None;
        }
        taken += size;
    }
    Some(taken)
}

// The type that is so far from the last.
fn from_end(items: &[VType], at: usize) -> Option<&VType>
    requires { at < length items.now }
    ensures { option_copied result ≡ slice_get items.now (length items.now - 1 - at) }
{
    items.get(items.len() - 1 - at)
}

/// The type that is so far below the top.
pub fn item(stack: &TypeStack, at: usize) -> &VType
    requires { at < length stack.now }
    ensures { slice_get stack.now at ≡ Some result.now }
{
    let Some(t) = stack.get(at) else {
        unreachable!()
    };
    t
}

/// A stack of one's own.
pub fn stack_copied(alloc: Global, stack: &TypeStack) -> Result<TypeStack, AllocError>
    ensures { IfOk result (λ r. r ≡ stack.now) }
{
    let items = all_copied(alloc, stack.items.as_slice())?;
    Ok(TypeStack {
        items,
        taken: stack.taken,
    })
}
