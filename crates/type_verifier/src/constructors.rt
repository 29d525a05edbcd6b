//! invokespecial: constructors, and methods of classes above (JVMS 4.10.1.9).
ghost use Rattle.std.specs.Prelude.{◌≡◌, ◌∷◌, ◌||◌, ℕ, Some, None, MatchOption, OnOk};
ghost use Rattle.std.specs.List.{list_any};
ghost use Rattle.std.specs.Option.{option_copied};
ghost use Rattle.std.specs.Str.{bytes_eq};
ghost use Rattle.jsa_names.specs.Types.{JavaMethod, method_type_of};
ghost use Rattle.jsa_ops.specs.Reading.{placed, instruction_at};
ghost use Rattle.verify_rules.specs.Superclasses.{Superclass};
ghost use Rattle.class_tree.specs.ClassNames.{sup_name, interface_names};
ghost use Rattle.class_tree.specs.Links.{holds};
ghost use Rattle.class_tree.specs.WellFormed.{are_equal, class_name};
ghost use Rattle.verify_rules.specs.Types.{size, turned_all};
ghost use Rattle.verify_rules.specs.Asking.{Did, Checked};
ghost use Rattle.verify_rules.specs.Calls as calls;
ghost use Rattle.verify_rules.specs.Env.{Env as Environment, pool_of, this_name, vtypes_of};
ghost use Rattle.verify_rules.specs.Members as members;

use crate::calls::object_called;
use crate::descriptors::{behind, vtypes};
use crate::env::Env;
use crate::members::{NamedMember, any_method_at, method_at, method_test};
use crate::operands::{object, took};
use class_tree::{ClassTree, Pool, is_clinit, is_init, returns_void};
use jsa_base::Cursor;
use jsa_names::{MethodType, method_type};
use sqlite_items::Items;
use std::alloc::{AllocError, Global};
use verify_rules::{
    Ask, Cause, Frame, Stop, Superclass, TypeStack, Unfinished, VType, copied, turn_locals,
};

// ---- methods of classes above

fn has_name(c: &Superclass<'_>, name: &[u8]) -> bool
    ensures { result ≡ bytes_eq c.now.name name.now }
{
    c.name == name
}

fn is_above(supers: &[Superclass<'_>], name: &[u8]) -> bool
    ensures { result ≡ list_any (λ (c : Superclass). bytes_eq c.name name.now) supers.now }
{
    supers.iter().any(|c| has_name(c, name))
}

// Whether one of the direct superinterfaces has the name.
fn is_interface_of(tree: &ClassTree, name: &[u8]) -> bool
    ensures { result ≡ list_any (bytes_eq name.now) (interface_names tree.now) }
{
    let mut rest = tree.interfaces.as_slice();
    loop {
        let [k, more @ ..] = rest else {
            return false;
        };
        if is_named(name, tree.pool.class_name(*k)) {
            return true;
        }
        rest = more;
    }
}

fn is_named(name: &[u8], found: Option<&[u8]>) -> bool
    ensures { result ≡ holds (option_copied found.entry) (bytes_eq name.now) }
{
    match found {
        Some(found) => name == found,
        None => false,
    }
}

// Whether the Class at an index names this class.
fn is_class(pool: &Pool, k: u16, name: &[u8]) -> bool
    ensures { result ≡ are_equal (class_name pool.now k) (Some name.now) }
{
    match pool.class_name(k) {
        Some(found) => found == name,
        None => false,
    }
}

// Whether a name is that of the class itself, of a superclass or of a direct superinterface.
#[tactic(auto, unfolding(verify_rules::specs::Calls::is_lineal))]
fn is_lineal(e: &Env<'_>, name: &[u8]) -> bool
    ensures { result ≡ calls.is_lineal e.now name.now }
{
    name == e.this_name() || (is_above(e.supers, name) || is_interface_of(e.tree, name))
}

// A method of a class above, on an object of the class itself.
fn special_called(
    alloc: Global,
    asks: &mut Items<Ask>,
    e: &Env<'_>,
    m: &NamedMember<'_>,
    stack: &mut TypeStack,
) -> Result<(), Stop>
    ensures { Did (calls.special_called e.now m.now stack.old) asks.old asks.new result stack.new }
{
    if !is_lineal(e, m.class) {
        return Err(Stop::Fault(Cause::Written));
    }
    let Some(t) = method_type(m.desc) else {
        return Err(Stop::Fault(Cause::Written));
    };
    object_called(alloc, asks, e, e.this_name(), m, &t, stack)
}

fn special_named(
    alloc: Global,
    asks: &mut Items<Ask>,
    e: &Env<'_>,
    m: &NamedMember<'_>,
    frame: &mut Frame,
) -> Result<(), Stop>
    ensures { Did (calls.special_named e.now m.now frame.old) asks.old asks.new result frame.new }
{
    if is_clinit(m.name) {
        return Err(Stop::Fault(Cause::Written));
    }
    special_called(alloc, asks, e, m, &mut frame.stack)
}

// ---- constructors

// The index of the class that a `new` names, where one stands at the front of the bytes.
fn new_index(bytes: &[u8]) -> Option<u16>
    ensures { (e : Environment) (pc size : ℕ) → let class = calls.class_in e (placed size (instruction_at pc bytes.now)) in MatchOption result (class ≡ None) (λ k. class ≡ class_name (pool_of e) k) }
{
    let mut cursor = Cursor::new(bytes);
    let Some(op) = cursor.u1() else {
        return None;
    };
    if op != 0xbb {
        return None;
    }
    cursor.u2()
}

// The class that the `new` at a place names.
#[tactic(auto, unfolding(verify_rules::specs::Calls::made_class))]
fn made_class<'a>(e: &Env<'a>, place: u32) -> Option<&'a [u8]>
    ensures { option_copied result ≡ calls.made_class e.now place }
{
    let code = e.code.bytes.as_slice();
    if place as usize >= code.len() {
        return None;
    }
    let Some(k) = new_index(&code[place as usize..]) else {
        return None;
    };
    e.pool().class_name(k)
}

fn is_made_class(e: &Env<'_>, place: u32, class: &[u8]) -> bool
    ensures { result ≡ are_equal (calls.made_class e.now place) (Some class.now) }
{
    match made_class(e, place) {
        Some(found) => found == class,
        None => false,
    }
}

// Whether a class is the one itself or its direct superclass.
fn is_own_or_super(e: &Env<'_>, class: &[u8]) -> bool
    ensures { result ≡ (bytes_eq class.now (this_name e.now) || are_equal (sup_name e.now.tree) (Some class.now)) }
{
    class == e.this_name() || is_class(e.pool(), e.tree.sup, class)
}

// What a constructor of a class may be called on: what a `new` of the class made, or `this`, by one of the class itself or
// of its direct superclass.
fn unfinished_of(e: &Env<'_>, class: &[u8], object: &VType) -> Option<Unfinished>
    ensures { result ≡ calls.unfinished_of e.now class.now object.now }
{
    match object {
        VType::Top => None,
        VType::Integer => None,
        VType::Float => None,
        VType::Double => None,
        VType::Long => None,
        VType::Null => None,
        VType::UninitializedThis => {
            if is_own_or_super(e, class) {
                Some(Unfinished::ThisObject)
            } else {
                None
            }
        }
        VType::Object(_) => None,
        VType::Uninitialized(place) => {
            if is_made_class(e, *place, class) {
                Some(Unfinished::MadeAt(*place))
            } else {
                None
            }
        }
    }
}

// All copies get the new type.
fn turn(alloc: Global, old: Unfinished, new: &VType, frame: &mut Frame) -> Result<(), AllocError>
    requires { size new.now ≡ 1 }
    ensures { OnOk result (frame.new ≡ record frame.old { locals = turned_all old new.now frame.old.locals; stack = turned_all old new.now frame.old.stack }) }
{
    turn_locals(alloc, &mut frame.locals, old, new)?;
    frame.stack.turn_all(alloc, old, new)
}

// All copies become objects of their class. `this` is no longer without a constructor.
fn finish(
    alloc: Global,
    e: &Env<'_>,
    m: &NamedMember<'_>,
    old: Unfinished,
    frame: &mut Frame,
) -> Result<(), AllocError>
    ensures { OnOk result (frame.new ≡ calls.finished e.now m.now old frame.old frame.old.stack) }
{
    match old {
        Unfinished::MadeAt(_) => {
            let new = object(alloc, m.class)?;
            turn(alloc, old, &new, frame)
        }
        Unfinished::ThisObject => {
            let new = e.this_type(alloc)?;
            turn(alloc, old, &new, frame)?;
            frame.this_uninit = false;
            Ok(())
        }
    }
}

// A constructor that is called on `this` isn't tested for protected access.
fn constructor_test(
    alloc: Global,
    asks: &mut Items<Ask>,
    e: &Env<'_>,
    m: &NamedMember<'_>,
    old: Unfinished,
    object: &VType,
) -> Result<(), Stop>
    ensures { Checked (calls.constructor_test e.now m.now old object.now) asks.old asks.new result }
{
    match old {
        Unfinished::ThisObject => Ok(()),
        Unfinished::MadeAt(_) => method_test(alloc, asks, e, m, Some(object)),
    }
}

// Takes the parameters, and the object below them.
fn all_taken(
    alloc: Global,
    asks: &mut Items<Ask>,
    types: Items<VType>,
    object: &VType,
    stack: &mut TypeStack,
) -> Result<(), Stop>
    ensures { Did (calls.took (object.now ∷ types) stack.old) asks.old asks.new result stack.new }
{
    let wanted = behind(alloc, copied(alloc, object)?, types)?;
    took(alloc, asks, wanted.as_slice(), stack)
}

// The parameters are taken, then the object below them.
fn constructed_on(
    alloc: Global,
    asks: &mut Items<Ask>,
    e: &Env<'_>,
    m: &NamedMember<'_>,
    types: Items<VType>,
    old: Unfinished,
    object: &VType,
    frame: &mut Frame,
) -> Result<(), Stop>
    ensures { (t : JavaMethod) → types ≡ vtypes_of t.parameters → Did (calls.constructed_on e.now m.now t (Some old) object.now frame.old) asks.old asks.new result frame.new }
{
    all_taken(alloc, asks, types, object, &mut frame.stack)?;
    constructor_test(alloc, asks, e, m, old, object)?;
    finish(alloc, e, m, old, frame)?;
    Ok(())
}

fn constructor_typed(
    alloc: Global,
    asks: &mut Items<Ask>,
    e: &Env<'_>,
    m: &NamedMember<'_>,
    t: &MethodType<'_>,
    frame: &mut Frame,
) -> Result<(), Stop>
    ensures { Did (calls.constructor_typed e.now m.now (Some t.now) frame.old) asks.old asks.new result frame.new }
{
    let types = vtypes(alloc, t)?;
    let Some(object) = frame.stack.get(types.len()) else {
        return Err(Stop::Fault(Cause::Operands));
    };
    let Some(old) = unfinished_of(e, m.class, object) else {
        return Err(Stop::Fault(Cause::Mismatch));
    };
    let object = copied(alloc, object)?;
    constructed_on(alloc, asks, e, m, types, old, &object, frame)
}

fn constructor_named(
    alloc: Global,
    asks: &mut Items<Ask>,
    e: &Env<'_>,
    k: u16,
    frame: &mut Frame,
) -> Result<(), Stop>
    ensures { Did (calls.constructor_named e.now (members.method_at (pool_of e.now) k) frame.old) asks.old asks.new result frame.new }
{
    let Some(m) = method_at(e.pool(), k) else {
        return Err(Stop::Fault(Cause::Written));
    };
    if !returns_void(m.desc) {
        return Err(Stop::Fault(Cause::Written));
    }
    let Some(t) = method_type(m.desc) else {
        return Err(Stop::Fault(Cause::Written));
    };
    constructor_typed(alloc, asks, e, &m, &t, frame)
}

/// invokespecial: a constructor, or a method of the class itself, a superclass or a direct superinterface.
#[tactic(auto, unfolding(verify_rules::specs::Calls::special_row))]
pub(crate) fn special_row(
    alloc: Global,
    asks: &mut Items<Ask>,
    e: &Env<'_>,
    k: u16,
    frame: &mut Frame,
) -> Result<(), Stop>
    ensures { Did (calls.special_row e.now k frame.old) asks.old asks.new result frame.new }
{
    let Some(m) = any_method_at(e.tree, k) else {
        return Err(Stop::Fault(Cause::Written));
    };
    if is_init(m.name) {
        return constructor_named(alloc, asks, e, k, frame);
    }
    special_named(alloc, asks, e, &m, frame)
}
