//! Constants of the pool, new, casts and monitors (JVMS 4.10.1.9).
ghost use Rattle.std.specs.Prelude.{◌≡◌, IfOk, codes};
ghost use Rattle.std.specs.Option.{option_copied};
ghost use Rattle.std.specs.List.{list_any};
ghost use Rattle.class_tree.specs.WellFormed.{class_name};
ghost use Rattle.verify_rules.specs.declared.types.VType.TheVariants as types;
ghost use Rattle.verify_rules.specs.Types.{is_made_at};
ghost use Rattle.verify_rules.specs.Causes.{Does};
ghost use Rattle.verify_rules.specs.Objects.{constant_type, wide_constant_type, put_constant, constant_put, made, class_made, new_made, object_turned, cast_type, tested_type, cast, tested, monitored};

use crate::arrays::pop_object;
use crate::assigning::is_array;
use crate::letters::{pop_letter, push};
use class_tree::{Pool, PoolEntry};
use sqlite_items::{Items, at};
use std::alloc::{AllocError, Global};
use verify_rules::{
    Cause, Frame, Letter, Stop, TypeStack, Unfinished, VType, is_copy_of, item, turn_locals,
};

// ---- ldc, ldc_w, ldc2_w

/// A class by its name.
fn object(alloc: Global, name: &[u8]) -> Result<VType, AllocError>
    ensures { IfOk result (λ t. t ≡ types.Object name.now) }
{
    let name = Items::from_slice(alloc, name)?;
    Ok(VType::Object(name))
}

/// What ldc and ldc_w put of an entry of the pool. A long and a double have ldc2_w.
fn constant_type(alloc: Global, entry: Option<&PoolEntry>) -> Result<Option<VType>, AllocError>
    ensures { IfOk result (λ t. t ≡ constant_type (option_copied entry.entry)) }
{
    match entry {
        Some(PoolEntry::Integer(_)) => Ok(Some(VType::Integer)),
        Some(PoolEntry::Float(_)) => Ok(Some(VType::Float)),
        Some(PoolEntry::Class(_)) => Ok(Some(object(alloc, b"java/lang/Class")?)),
        Some(PoolEntry::Str(_)) => Ok(Some(object(alloc, b"java/lang/String")?)),
        Some(PoolEntry::MethodHandle(_, _)) => Ok(Some(object(
            alloc,
            b"java/lang/invoke/MethodHandle",
        )?)),
        Some(PoolEntry::MethodType(_)) => Ok(Some(object(alloc, b"java/lang/invoke/MethodType")?)),
        _ => Ok(None),
    }
}

/// What ldc2_w puts of an entry of the pool.
fn wide_constant_type(entry: Option<&PoolEntry>) -> Option<VType>
    ensures { result ≡ wide_constant_type (option_copied entry.entry) }
{
    match entry {
        Some(PoolEntry::Long(_)) => Some(VType::Long),
        Some(PoolEntry::Double(_)) => Some(VType::Double),
        _ => None,
    }
}

/// Puts the type of a constant, where there is one.
fn put_constant(room: u16, t: Option<VType>, stack: &mut TypeStack) -> Result<(), Stop>
    ensures { Does (put_constant room t stack.old) result stack.new }
{
    match t {
        Some(t) => push(room, t, stack),
        None => Err(Stop::Fault(Cause::Written)),
    }
}

/// The row of ldc, ldc_w and ldc2_w.
#[tactic(auto, unfolding(verify_rules::specs::Objects::constant_put))]
pub(crate) fn constant_put(
    alloc: Global,
    room: u16,
    pool: &Pool,
    op: u8,
    k: u16,
    stack: &mut TypeStack,
) -> Result<(), Stop>
    ensures { Does (constant_put room pool.now op k stack.old) result stack.new }
{
    let entry = at(pool.entries(), usize::from(k));
    if op == 0x14 {
        return put_constant(room, wide_constant_type(entry), stack);
    }
    let t = constant_type(alloc, entry)?;
    put_constant(room, t, stack)
}

// ---- new

/// Whether an object that this `new` made, and no `<init>` has finished, is on the stack.
fn is_any_made_at(place: u32, stack: &TypeStack) -> bool
    ensures { result ≡ list_any (is_made_at place) stack.now }
{
    for k in 0..stack.len() {
        if is_copy_of(Unfinished::MadeAt(place), item(stack, k)) {
            return true;
        }
    }
    false
}

/// Puts the object that a `new` makes. Those that it made before are gone from the locals, and none may be on the stack.
fn make(alloc: Global, room: u16, place: u32, frame: &mut Frame) -> Result<(), Stop>
    ensures { Does (made room place frame.old) result frame.new }
{
    if is_any_made_at(place, &frame.stack) {
        return Err(Stop::Fault(Cause::Mismatch));
    }
    turn_locals(
        alloc,
        &mut frame.locals,
        Unfinished::MadeAt(place),
        &VType::Top,
    )?;
    push(room, VType::Uninitialized(place), &mut frame.stack)
}

/// The row of the `new` at a place of the code: of a class, and of no array.
#[tactic(auto, unfolding(verify_rules::specs::Objects::new_made))]
pub(crate) fn new_made(
    alloc: Global,
    room: u16,
    pool: &Pool,
    place: u32,
    k: u16,
    frame: &mut Frame,
) -> Result<(), Stop>
    ensures { Does (new_made room pool.now place k frame.old) result frame.new }
{
    let Some(name) = pool.class_name(k) else {
        return Err(Stop::Fault(Cause::Written));
    };
    if is_array(name) {
        return Err(Stop::Fault(Cause::Written));
    }
    make(alloc, room, place, frame)
}

// ---- checkcast, instanceof, monitorenter, monitorexit

/// The row of checkcast.
#[tactic(auto, unfolding(verify_rules::specs::Objects::cast))]
pub(crate) fn cast(
    alloc: Global,
    room: u16,
    pool: &Pool,
    k: u16,
    stack: &mut TypeStack,
) -> Result<(), Stop>
    ensures { Does (cast room pool.now k stack.old) result stack.new }
{
    let Some(name) = pool.class_name(k) else {
        return Err(Stop::Fault(Cause::Written));
    };
    pop_object(stack)?;
    let t = object(alloc, name)?;
    push(room, t, stack)
}

/// The row of instanceof.
#[tactic(auto, unfolding(verify_rules::specs::Objects::tested))]
pub(crate) fn tested(room: u16, pool: &Pool, k: u16, stack: &mut TypeStack) -> Result<(), Stop>
    ensures { Does (tested room pool.now k stack.old) result stack.new }
{
    let Some(_name) = pool.class_name(k) else {
        return Err(Stop::Fault(Cause::Written));
    };
    pop_object(stack)?;
    push(room, VType::Integer, stack)
}

/// The row of monitorenter and monitorexit.
pub(crate) fn monitored(stack: &mut TypeStack) -> Result<(), Stop>
    ensures { Does (monitored stack.old) result stack.new }
{
    pop_letter(Letter::Reference, stack)
}
