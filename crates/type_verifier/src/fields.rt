//! getstatic, putstatic, getfield and putfield (JVMS 4.10.1.9).
ghost use Rattle.std.specs.Prelude.{◌≡◌};
ghost use Rattle.std.specs.Option.{option_copied};
ghost use Rattle.verify_rules.specs.Asking.{Did};
ghost use Rattle.verify_rules.specs.Calls as calls;

use crate::descriptors::field_vtype;
use crate::env::Env;
use crate::letters::push;
use crate::members::{NamedMember, field_at, is_guarded_field, is_own_field, protected_test};
use crate::operands::{drop_items, object, operands_pass, took};
use sqlite_items::Items;
use std::alloc::Global;
use verify_rules::{Ask, Cause, Stop, TypeStack, VType};

// The object is compared with the class that is named, then the test of a protected field.
fn field_read(
    alloc: Global,
    asks: &mut Items<Ask>,
    e: &Env<'_>,
    m: &NamedMember<'_>,
    t: VType,
    stack: &mut TypeStack,
) -> Result<(), Stop>
    ensures { Did (calls.field_read e.now m.now t stack.old) asks.old asks.new result stack.new }
{
    let class = object(alloc, m.class)?;
    operands_pass(alloc, asks, &[class], stack)?;
    protected_test(alloc, asks, e, is_guarded_field(e, m), stack.get(0))?;
    drop_items(1, stack);
    push(e.room(), t, stack)
}

fn is_unfinished_this(object: Option<&VType>) -> bool
    ensures { result ≡ calls.is_unfinished_this (option_copied object.entry) }
{
    matches!(object, Some(VType::UninitializedThis))
}

// A constructor may store into a field that its class declares before it has called another one.
fn is_early_store(e: &Env<'_>, m: &NamedMember<'_>, object: Option<&VType>) -> bool
    ensures { result ≡ calls.is_early_store e.now m.now (option_copied object.entry) }
{
    is_unfinished_this(object) && (e.is_constructor() && is_own_field(e, m))
}

fn field_written(
    alloc: Global,
    asks: &mut Items<Ask>,
    e: &Env<'_>,
    m: &NamedMember<'_>,
    t: VType,
    stack: &mut TypeStack,
) -> Result<(), Stop>
    ensures { Did (calls.field_written e.now m.now t stack.old) asks.old asks.new result stack.new }
{
    if is_early_store(e, m, stack.get(1)) {
        return took(alloc, asks, &[VType::UninitializedThis, t], stack);
    }
    let class = object(alloc, m.class)?;
    operands_pass(alloc, asks, &[class, t], stack)?;
    protected_test(alloc, asks, e, is_guarded_field(e, m), stack.get(1))?;
    drop_items(2, stack);
    Ok(())
}

fn field_by(
    alloc: Global,
    asks: &mut Items<Ask>,
    e: &Env<'_>,
    op: u8,
    m: &NamedMember<'_>,
    t: VType,
    stack: &mut TypeStack,
) -> Result<(), Stop>
    ensures { Did (calls.field_by e.now op m.now t stack.old) asks.old asks.new result stack.new }
{
    if op == 0xb2 {
        return push(e.room(), t, stack);
    }
    if op == 0xb3 {
        return took(alloc, asks, &[t], stack);
    }
    if op == 0xb4 {
        return field_read(alloc, asks, e, m, t, stack);
    }
    field_written(alloc, asks, e, m, t, stack)
}

/// getstatic, putstatic, getfield and putfield. The type of the field is that of its descriptor, and an object is one of the
/// class that is named.
#[tactic(auto, unfolding(verify_rules::specs::Calls::field_row))]
pub(crate) fn field_row(
    alloc: Global,
    asks: &mut Items<Ask>,
    e: &Env<'_>,
    op: u8,
    k: u16,
    stack: &mut TypeStack,
) -> Result<(), Stop>
    ensures { Did (calls.field_row e.now op k stack.old) asks.old asks.new result stack.new }
{
    let Some(m) = field_at(e.pool(), k) else {
        return Err(Stop::Fault(Cause::Written));
    };
    let Some(t) = field_vtype(alloc, m.desc)? else {
        return Err(Stop::Fault(Cause::Written));
    };
    field_by(alloc, asks, e, op, &m, t, stack)
}
