//! Operands of given types (JVMS 4.10.1.4).
ghost use Rattle.std.specs.Prelude.{◌≡◌, ◌≤◌, [], length, drop, IfOk};
ghost use Rattle.verify_rules.specs.declared.types.VType.{VType};
ghost use Rattle.verify_rules.specs.Asking.{Did, Checked};
ghost use Rattle.verify_rules.specs.Calls as calls;

use crate::assigning::assign;
use crate::descriptors::vtype;
use crate::letters::push;
use jsa_names::MethodType;
use sqlite_items::Items;
use std::alloc::{AllocError, Global};
use verify_rules::{Ask, Cause, Stop, TypeStack, VType, item};

/// A class or an array as a type.
pub(crate) fn object(alloc: Global, name: &[u8]) -> Result<VType, AllocError>
    ensures { IfOk result (λ t. t ≡ VType.Object name.now) }
{
    Ok(VType::Object(Items::from_slice(alloc, name)?))
}

// Compares so many items on top with these types, the deepest first.
fn operands_assign(
    alloc: Global,
    asks: &mut Items<Ask>,
    wanted: &[VType],
    stack: &TypeStack,
) -> Result<(), Stop>
    requires { length wanted.now ≤ length stack.now }
    ensures { Checked (calls.all_assign (calls.operands (length wanted.now) stack.now) wanted.now) asks.old asks.new result }
{
    for k in 0..wanted.len() {
        let object = item(stack, wanted.len() - 1 - k);
        if let Err(stop) = assign(alloc, asks, object, &wanted[k]) {
            return Err(stop);
        }
    }
    Ok(())
}

/// Compares the items on top of a stack with these types, the deepest first, and leaves them there.
pub(crate) fn operands_pass(
    alloc: Global,
    asks: &mut Items<Ask>,
    wanted: &[VType],
    stack: &TypeStack,
) -> Result<(), Stop>
    ensures { Did (calls.took wanted.now stack.now) asks.old asks.new result (drop (length wanted.now) stack.now) }
{
    if stack.len() < wanted.len() {
        return Err(Stop::Fault(Cause::Operands));
    }
    operands_assign(alloc, asks, wanted, stack)
}

/// Takes so many items off a stack, or all of them.
pub(crate) fn drop_items(count: usize, stack: &mut TypeStack)
    ensures { stack.new ≡ drop count stack.old }
{
    for _ in 0..count {
        let _ = stack.pop();
    }
}

/// Takes operands that are assignable to these types off a stack. The deepest is compared first.
pub(crate) fn took(
    alloc: Global,
    asks: &mut Items<Ask>,
    wanted: &[VType],
    stack: &mut TypeStack,
) -> Result<(), Stop>
    ensures { Did (calls.took wanted.now stack.old) asks.old asks.new result stack.new }
{
    operands_pass(alloc, asks, wanted, stack)?;
    drop_items(wanted.len(), stack);
    Ok(())
}

/// Puts the result of a method on top, where it has one.
pub(crate) fn put_result(
    alloc: Global,
    room: u16,
    m: &MethodType<'_>,
    stack: &mut TypeStack,
) -> Result<(), Stop>
    ensures { Did (calls.put_result room m.now.result stack.old) [] [] result stack.new }
{
    let Some(t) = m.result() else {
        return Ok(());
    };
    let t = vtype(alloc, &t)?;
    push(room, t, stack)
}
