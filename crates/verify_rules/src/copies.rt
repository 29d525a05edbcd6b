//! Verification types of one's own, and what becomes of those of an object that is finished.
ghost use Rattle.std.specs.Prelude.{◌≡◌, ◌≤◌, IfOk, OnOk, OnErr};
ghost use Rattle.verify_rules.specs.Types.{size, units, is_made_at, is_copy_of, turned_all};
ghost use Rattle.verify_rules.specs.Steps.{turned_at};

use crate::stack::stack_copied;
use crate::types::{Frame, Unfinished, VType};
use sqlite_items::Items;
use std::alloc::{AllocError, Global};

/// How many units of locals or of stack a type takes (JVMS 4.10.1.4): two for a long or a double, else one.
pub fn size(t: &VType) -> u16
    ensures value { result ≡ size t.now }
    ensures low { result ≤ 2 }
{
    match t {
        VType::Top => 1,
        VType::Integer => 1,
        VType::Float => 1,
        VType::Double => 2,
        VType::Long => 2,
        VType::Null => 1,
        VType::UninitializedThis => 1,
        VType::Object(_) => 1,
        VType::Uninitialized(_) => 1,
    }
}

/// A type of one's own.
pub fn copied(alloc: Global, t: &VType) -> Result<VType, AllocError>
    ensures { IfOk result (λ r. r ≡ t.now) }
{
    match t {
        VType::Top => Ok(VType::Top),
        VType::Integer => Ok(VType::Integer),
        VType::Float => Ok(VType::Float),
        VType::Double => Ok(VType::Double),
        VType::Long => Ok(VType::Long),
        VType::Null => Ok(VType::Null),
        VType::UninitializedThis => Ok(VType::UninitializedThis),
        VType::Object(name) => Ok(VType::Object(Items::from_slice(alloc, name.as_slice())?)),
        VType::Uninitialized(place) => Ok(VType::Uninitialized(*place)),
    }
}

/// Types of one's own.
pub fn all_copied(alloc: Global, types: &[VType]) -> Result<Items<VType>, AllocError>
    ensures { IfOk result (λ r. r ≡ types.now) }
{
    let mut all = Items::new(alloc);
    for t in types {
        all.push(copied(alloc, t)?)?;
    }
    Ok(all)
}

/// A frame of one's own.
pub fn frame_copied(alloc: Global, frame: &Frame) -> Result<Frame, AllocError>
    ensures { IfOk result (λ r. r ≡ frame.now) }
{
    let locals = all_copied(alloc, frame.locals.as_slice())?;
    let stack = stack_copied(alloc, &frame.stack)?;
    Ok(Frame {
        locals,
        stack,
        this_uninit: frame.this_uninit,
    })
}

fn is_made_at(place: u32, t: &VType) -> bool
    ensures { result ≡ is_made_at place t.now }
{
    match t {
        VType::Uninitialized(made) => *made == place,
        _ => false,
    }
}

/// Whether a type is that of an object on which no constructor was called yet.
pub fn is_copy_of(old: Unfinished, t: &VType) -> bool
    ensures { result ≡ is_copy_of old t.now }
{
    match old {
        Unfinished::MadeAt(place) => is_made_at(place, t),
        Unfinished::ThisObject => matches!(t, VType::UninitializedThis),
    }
}

/// Gives each copy of an object the type that it has once a constructor was called on it (JVMS 4.10.1.9, invokespecial).
/// All other types stay where they are, and are not copied.
///
/// After an error some of the copies have the new type.
pub fn turn_locals(
    alloc: Global,
    locals: &mut Items<VType>,
    old: Unfinished,
    new: &VType,
) -> Result<(), AllocError>
    ensures turned { OnOk result (locals.new ≡ turned_all old new.now locals.old) }
    // Whatever is answered, as many units are taken as before, if the new type takes as many as what it replaces.
    ensures units { size new.now ≡ 1 → units locals.new ≡ units locals.old }
{
    for at in 0..locals.len() {
        turn_at(alloc, locals, at, old, new)?;
    }
    Ok(())
}

// The same at one slot. After an error nothing has changed.
fn turn_at(
    alloc: Global,
    locals: &mut Items<VType>,
    at: usize,
    old: Unfinished,
    new: &VType,
) -> Result<(), AllocError>
    ensures ok { OnOk result (locals.new ≡ turned_at old new.now locals.old at) }
    ensures err { OnErr result (locals.new ≡ locals.old) }
{
    let Some(t) = locals.get(at) else {
        return Ok(());
    };
    if !is_copy_of(old, t) {
        return Ok(());
    }
    let turned = copied(alloc, new)?;
    locals.set(at, turned);
    Ok(())
}
