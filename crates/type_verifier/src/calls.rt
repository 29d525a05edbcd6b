//! Calls of methods that are no constructors (JVMS 4.10.1.9).
ghost use Rattle.std.specs.Prelude.{◌≡◌, ◌+◌, ◌∷◌, length, IfOk};
ghost use Rattle.jsa_names.specs.Types.{method_type_of};
ghost use Rattle.verify_rules.specs.declared.types.VType.{VType};
ghost use Rattle.verify_rules.specs.Asking.{Did};
ghost use Rattle.verify_rules.specs.Calls as calls;
ghost use Rattle.verify_rules.specs.Env.{vtypes_of};

use crate::descriptors::{behind, vtypes};
use crate::env::Env;
use crate::members::{
    NamedMember, any_method_at, call_site_at, interface_method_at, is_plain_method, method_at,
    method_test,
};
use crate::operands::{drop_items, object, operands_pass, put_result, took};
use jsa_names::{MethodType, method_type};
use sqlite_items::Items;
use std::alloc::{AllocError, Global};
use verify_rules::{Ask, Cause, Stop, TypeStack, VType};

// A call without an object.
fn static_called(
    alloc: Global,
    asks: &mut Items<Ask>,
    room: u16,
    m: &MethodType<'_>,
    stack: &mut TypeStack,
) -> Result<(), Stop>
    ensures { Did (calls.static_called room m.now stack.old) asks.old asks.new result stack.new }
{
    let wanted = vtypes(alloc, m)?;
    took(alloc, asks, wanted.as_slice(), stack)?;
    put_result(alloc, room, m, stack)
}

// The types of an object of a class and of the parameters of a method.
fn object_types(alloc: Global, class: &[u8], t: &MethodType<'_>) -> Result<Items<VType>, AllocError>
    ensures types { IfOk result (λ types. types ≡ VType.Object class.now ∷ vtypes_of t.now.parameters) }
    ensures count { IfOk result (λ types. length types ≡ length t.now.parameters + 1) }
{
    let types = vtypes(alloc, t)?;
    let first = object(alloc, class)?;
    behind(alloc, first, types)
}

/// A call on an object of a class, with the test of a protected method behind the operands.
pub(crate) fn object_called(
    alloc: Global,
    asks: &mut Items<Ask>,
    e: &Env<'_>,
    class: &[u8],
    m: &NamedMember<'_>,
    t: &MethodType<'_>,
    stack: &mut TypeStack,
) -> Result<(), Stop>
    ensures { Did (calls.object_called e.now class.now m.now t.now stack.old) asks.old asks.new result stack.new }
{
    let wanted = object_types(alloc, class, t)?;
    operands_pass(alloc, asks, wanted.as_slice(), stack)?;
    method_test(alloc, asks, e, m, stack.get(wanted.len() - 1))?;
    drop_items(wanted.len(), stack);
    put_result(alloc, e.room(), t, stack)
}

/// invokevirtual.
#[tactic(auto, unfolding(verify_rules::specs::Calls::virtual_row))]
pub(crate) fn virtual_row(
    alloc: Global,
    asks: &mut Items<Ask>,
    e: &Env<'_>,
    k: u16,
    stack: &mut TypeStack,
) -> Result<(), Stop>
    ensures { Did (calls.virtual_row e.now k stack.old) asks.old asks.new result stack.new }
{
    let Some(m) = method_at(e.pool(), k) else {
        return Err(Stop::Fault(Cause::Written));
    };
    if !is_plain_method(m.name) {
        return Err(Stop::Fault(Cause::Written));
    }
    let Some(t) = method_type(m.desc) else {
        return Err(Stop::Fault(Cause::Written));
    };
    object_called(alloc, asks, e, m.class, &m, &t, stack)
}

/// invokestatic.
#[tactic(auto, unfolding(verify_rules::specs::Calls::static_row))]
pub(crate) fn static_row(
    alloc: Global,
    asks: &mut Items<Ask>,
    e: &Env<'_>,
    k: u16,
    stack: &mut TypeStack,
) -> Result<(), Stop>
    ensures { Did (calls.static_row e.now k stack.old) asks.old asks.new result stack.new }
{
    let Some(m) = any_method_at(e.tree, k) else {
        return Err(Stop::Fault(Cause::Written));
    };
    if !is_plain_method(m.name) {
        return Err(Stop::Fault(Cause::Written));
    }
    let Some(t) = method_type(m.desc) else {
        return Err(Stop::Fault(Cause::Written));
    };
    static_called(alloc, asks, e.room(), &t, stack)
}

fn interface_typed(
    alloc: Global,
    asks: &mut Items<Ask>,
    e: &Env<'_>,
    count: u8,
    m: &NamedMember<'_>,
    stack: &mut TypeStack,
) -> Result<(), Stop>
    ensures { Did (calls.interface_typed e.now count m.now (method_type_of m.now.desc) stack.old) asks.old asks.new result stack.new }
{
    let Some(t) = method_type(m.desc) else {
        return Err(Stop::Fault(Cause::Written));
    };
    if u32::from(count) != t.slots() + 1 {
        return Err(Stop::Fault(Cause::Written));
    }
    object_called(alloc, asks, e, m.class, m, &t, stack)
}

/// invokeinterface. The slots of the parameters and of the object are counted behind the index, and then comes a 0.
#[tactic(auto, unfolding(verify_rules::specs::Calls::interface_row))]
pub(crate) fn interface_row(
    alloc: Global,
    asks: &mut Items<Ask>,
    e: &Env<'_>,
    k: u16,
    count: u8,
    last: u8,
    stack: &mut TypeStack,
) -> Result<(), Stop>
    ensures { Did (calls.interface_row e.now k count last stack.old) asks.old asks.new result stack.new }
{
    let Some(m) = interface_method_at(e.pool(), k) else {
        return Err(Stop::Fault(Cause::Written));
    };
    if !(is_plain_method(m.name) && last == 0) {
        return Err(Stop::Fault(Cause::Written));
    }
    interface_typed(alloc, asks, e, count, &m, stack)
}

/// invokedynamic. Two zeros stand behind the index.
#[tactic(auto, unfolding(verify_rules::specs::Calls::dynamic_row))]
pub(crate) fn dynamic_row(
    alloc: Global,
    asks: &mut Items<Ask>,
    e: &Env<'_>,
    k: u16,
    first: u8,
    second: u8,
    stack: &mut TypeStack,
) -> Result<(), Stop>
    ensures { Did (calls.dynamic_row e.now k first second stack.old) asks.old asks.new result stack.new }
{
    let Some(s) = call_site_at(e.pool(), k) else {
        return Err(Stop::Fault(Cause::Written));
    };
    if !(is_plain_method(s.name) && (first == 0 && second == 0)) {
        return Err(Stop::Fault(Cause::Written));
    }
    let Some(t) = method_type(s.desc) else {
        return Err(Stop::Fault(Cause::Written));
    };
    static_called(alloc, asks, e.room(), &t, stack)
}
