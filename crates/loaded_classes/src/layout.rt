//! Where the fields of a class stand.
ghost use Rattle.std.specs.Prelude.{◌≡◌, ◌+◌, ◌<◌, ◌^◌, ◌∷◌, List, length, IfOk};
ghost use Rattle.class_tree.specs.declared.tree.FieldTree.{FieldTree};
ghost use Rattle.class_record.specs.Records.{instance_fields, static_fields};
ghost use Rattle.loaded_classes.specs.Slots.{field_slots};

use class_tree::{FieldTree, is_static};
use sqlite_items::Items;
use std::alloc::{AllocError, Global};

// The next slot among the instance fields of an object, and among the static fields of the class.
#[derive(Drop)]
struct NextSlots {
    instance: u32,
    fixed: u32,
}

// Takes the slot of a field.
fn take_slot(next: &mut NextSlots, field: &FieldTree) -> u32
    requires { next.old.instance + next.old.fixed + 1 < 2 ^ 32 }
    ensures slot { (more : List FieldTree) → field_slots next.old.instance next.old.fixed (field.now ∷ more) ≡ result ∷ field_slots next.new.instance next.new.fixed more }
    ensures sum { next.new.instance + next.new.fixed ≡ next.old.instance + next.old.fixed + 1 }
    ensures instance { (more : List FieldTree) → next.old.instance + instance_fields (field.now ∷ more) ≡ next.new.instance + instance_fields more }
    ensures fixed { (more : List FieldTree) → next.old.fixed + static_fields (field.now ∷ more) ≡ next.new.fixed + static_fields more }
{
    if is_static(field.flags) {
        let slot = next.fixed;
        next.fixed += 1;
        return slot;
    }
    let slot = next.instance;
    next.instance += 1;
    slot
}

/// The slots of the fields that a class declares, and its sizes.
#[derive(Drop)]
pub(crate) struct FieldLayout {
    pub(crate) slots: Items<u32>,
    pub(crate) instance_size: u32,
    pub(crate) static_size: u32,
}

// The layout of a class with these fields, where an object of its superclass has so many.
pub(crate) fn layout_of(
    alloc: Global,
    above: u32,
    fields: &[FieldTree],
) -> Result<FieldLayout, AllocError>
    requires { above + length fields.now < 2 ^ 32 }
    ensures slots { IfOk result (λ l. l.slots ≡ field_slots above 0 fields.now) }
    ensures instance_size { IfOk result (λ l. l.instance_size ≡ above + instance_fields fields.now) }
    ensures static_size { IfOk result (λ l. l.static_size ≡ static_fields fields.now) }
{
    let mut slots = Items::new(alloc);
    let mut next = NextSlots {
        instance: above,
        fixed: 0,
    };
    let mut rest = fields;
    loop {
        let [field, more @ ..] = rest else {
            return Ok(FieldLayout {
                slots,
                instance_size: next.instance,
                static_size: next.fixed,
            });
        };
        let slot = take_slot(&mut next, field);
        let Ok(()) = slots.push(slot) else {
            return Err(AllocError);
        };
        rest = more;
    }
}
