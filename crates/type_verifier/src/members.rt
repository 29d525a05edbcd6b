//! Fields and methods that instructions name, and protected ones of superclasses (JVMS 4.10.1.8, 5.4.3).
ghost use Rattle.std.specs.Prelude.{◌≡◌, ◌&&◌, not, codes, if◌then◌else◌};
ghost use Rattle.std.specs.List.{list_any};
ghost use Rattle.std.specs.Option.{option_copied};
ghost use Rattle.std.specs.Str.{bytes_eq};
ghost use Rattle.class_tree.specs.Links as links;
ghost use Rattle.verify_rules.specs.Asking.{Checked};
ghost use Rattle.verify_rules.specs.Members as members;

use crate::assigning::{assign, is_array};
use crate::env::Env;
use class_tree::{
    ClassTree, FieldTree, Pool, PoolEntry, is_clinit, is_init, is_protected, is_static,
};
use loader_rules::same_package;
use sqlite_items::{Items, at};
use std::alloc::Global;
use std::marker::Model;
use verify_rules::{Ask, Cause, Member, Stop, Superclass, VType};

/// A field or a method by its class, its name and its descriptor (JVMS 4.4.2).
#[derive(Drop)]
pub(crate) struct NamedMember<'a> {
    /// The name of the class, or the descriptor of an array.
    pub(crate) class: &'a [u8],
    pub(crate) name: &'a [u8],
    pub(crate) desc: &'a [u8],
}

impl<'a> Model for NamedMember<'a> {
    ghost use Rattle.verify_rules.specs.Members.{NamedMember};

    ghost Value = { NamedMember };

    ghost view = { λ m. record { class = m.class.now; name = m.name.now; desc = m.desc.now } };
}

/// A name and a descriptor (JVMS 4.4.6).
#[derive(Drop)]
pub(crate) struct Signature<'a> {
    pub(crate) name: &'a [u8],
    pub(crate) desc: &'a [u8],
}

impl<'a> Model for Signature<'a> {
    ghost use Rattle.verify_rules.specs.Members.{Signature as NamedSignature};

    ghost Value = { NamedSignature };

    ghost view = { λ s. record { name = s.name.now; desc = s.desc.now } };
}

// ---- what the pool says

#[tactic(auto, unfolding(verify_rules::specs::Members::signature_at))]
fn signature_at<'a>(pool: &'a Pool, k: u16) -> Option<Signature<'a>>
    ensures { result ≡ members.signature_at pool.now k }
{
    let Some(PoolEntry::NameAndType(name, desc)) = at(pool.entries(), usize::from(k)) else {
        return None;
    };
    let Some(name) = pool.text(*name) else {
        return None;
    };
    let Some(desc) = pool.text(*desc) else {
        return None;
    };
    Some(Signature { name, desc })
}

#[tactic(auto, unfolding(verify_rules::specs::Members::member_of))]
fn member_of<'a>(pool: &'a Pool, class: u16, member: u16) -> Option<NamedMember<'a>>
    ensures { result ≡ members.member_of pool.now class member }
{
    let Some(class) = pool.class_name(class) else {
        return None;
    };
    let Some(signature) = signature_at(pool, member) else {
        return None;
    };
    Some(NamedMember {
        class,
        name: signature.name,
        desc: signature.desc,
    })
}

/// The field at an index of the pool. `None` where none stands there.
#[tactic(auto, unfolding(verify_rules::specs::Members::field_at))]
pub(crate) fn field_at<'a>(pool: &'a Pool, k: u16) -> Option<NamedMember<'a>>
    ensures { result ≡ members.field_at pool.now k }
{
    let Some(PoolEntry::Fieldref(class, member)) = at(pool.entries(), usize::from(k)) else {
        return None;
    };
    member_of(pool, *class, *member)
}

/// The method of a class at an index of the pool. `None` where none stands there.
#[tactic(auto, unfolding(verify_rules::specs::Members::method_at))]
pub(crate) fn method_at<'a>(pool: &'a Pool, k: u16) -> Option<NamedMember<'a>>
    ensures { result ≡ members.method_at pool.now k }
{
    let Some(PoolEntry::Methodref(class, member)) = at(pool.entries(), usize::from(k)) else {
        return None;
    };
    member_of(pool, *class, *member)
}

/// The method of an interface at an index of the pool. `None` where none stands there.
#[tactic(auto, unfolding(verify_rules::specs::Members::interface_method_at))]
pub(crate) fn interface_method_at<'a>(pool: &'a Pool, k: u16) -> Option<NamedMember<'a>>
    ensures { result ≡ members.interface_method_at pool.now k }
{
    let Some(PoolEntry::InterfaceMethodref(class, member)) = at(pool.entries(), usize::from(k))
    else {
        return None;
    };
    member_of(pool, *class, *member)
}

/// The name and the descriptor of the call of an invokedynamic (JVMS 4.4.10). `None` where no call stands there.
#[tactic(auto, unfolding(verify_rules::specs::Members::call_site_at))]
pub(crate) fn call_site_at<'a>(pool: &'a Pool, k: u16) -> Option<Signature<'a>>
    ensures { result ≡ members.call_site_at pool.now k }
{
    let Some(PoolEntry::InvokeDynamic(_, member)) = at(pool.entries(), usize::from(k)) else {
        return None;
    };
    signature_at(pool, *member)
}

/// The method at an index of the pool, of a class, or from version 52 on of an interface too (JVMS 4.9.1).
#[tactic(auto, unfolding(verify_rules::specs::Members::any_method_at))]
pub(crate) fn any_method_at<'a>(tree: &'a ClassTree, k: u16) -> Option<NamedMember<'a>>
    ensures { result ≡ members.any_method_at tree.now k }
{
    if let Some(m) = method_at(&tree.pool, k) {
        return Some(m);
    }
    if tree.major < 52 {
        return None;
    }
    interface_method_at(&tree.pool, k)
}

/// Whether a method is neither `<init>` nor `<clinit>`.
pub(crate) fn is_plain_method(name: &[u8]) -> bool
    ensures { result ≡ members.is_plain_method name.now }
{
    !(is_init(name) || is_clinit(name))
}

// ---- protected members of superclasses

fn is_named(c: &Superclass<'_>, name: &[u8]) -> bool
    ensures { result ≡ bytes_eq c.now.name name.now }
{
    c.name == name
}

// The superclasses from the one of a name up.
#[tactic(auto, unfolding(verify_rules::specs::Members::from_named))]
fn from_named<'a>(name: &[u8], supers: &'a [Superclass<'a>]) -> &'a [Superclass<'a>]
    ensures { result.now ≡ members.from_named name.now supers.now }
{
    let mut rest = supers;
    loop {
        let [c, more @ ..] = rest else {
            return rest;
        };
        if is_named(c, name) {
            return rest;
        }
        rest = more;
    }
}

fn is_the_member(m: &NamedMember<'_>, f: &Member<'_>) -> bool
    ensures { result ≡ members.is_the_member m.now f.now }
{
    f.name == m.name && f.desc == m.desc
}

fn flags_of(f: &Member<'_>) -> u16
    ensures { result ≡ f.now.flags }
{
    f.flags
}

// The flags of the first of these members that is the one named.
fn first_flags(m: &NamedMember<'_>, all: &[Member<'_>]) -> Option<u16>
    ensures { result ≡ members.first_flags m.now all.now }
{
    let mut rest = all;
    loop {
        let [f, more @ ..] = rest else {
            return None;
        };
        if is_the_member(m, f) {
            return Some(flags_of(f));
        }
        rest = more;
    }
}

// The flags of the field, where the class declares it.
fn field_flags(m: &NamedMember<'_>, c: &Superclass<'_>) -> Option<u16>
    ensures { result ≡ members.field_flags m.now c.now }
{
    first_flags(m, c.fields.as_slice())
}

// The flags of the method, where the class declares it.
fn method_flags(m: &NamedMember<'_>, c: &Superclass<'_>) -> Option<u16>
    ensures { result ≡ members.method_flags m.now c.now }
{
    first_flags(m, c.methods.as_slice())
}

// Whether a member of a superclass with these flags is protected, not static, and of another run-time package than the
// class.
fn is_far_protected(e: &Env<'_>, c: &Superclass<'_>, flags: u16) -> bool
    ensures { result ≡ members.is_far_protected e.now c.now flags }
{
    is_protected(flags)
        && !is_static(flags)
        && !same_package(e.this_name(), e.loader, c.name, c.loader)
}

// Whether the first of these classes that declares the field has it protected, in another run-time package.
#[tactic(auto, unfolding(verify_rules::specs::Members::is_far_in))]
fn is_far_field(e: &Env<'_>, m: &NamedMember<'_>, supers: &[Superclass<'_>]) -> bool
    ensures { result ≡ members.is_far_in e.now (members.field_flags m.now) supers.now }
{
    let mut rest = supers;
    loop {
        let [c, more @ ..] = rest else {
            return false;
        };
        if let Some(flags) = field_flags(m, c) {
            return is_far_protected(e, c, flags);
        }
        rest = more;
    }
}

// Whether the first of these classes that declares the method has it protected, in another run-time package.
#[tactic(auto, unfolding(verify_rules::specs::Members::is_far_in))]
fn is_far_method(e: &Env<'_>, m: &NamedMember<'_>, supers: &[Superclass<'_>]) -> bool
    ensures { result ≡ members.is_far_in e.now (members.method_flags m.now) supers.now }
{
    let mut rest = supers;
    loop {
        let [c, more @ ..] = rest else {
            return false;
        };
        if let Some(flags) = method_flags(m, c) {
            return is_far_protected(e, c, flags);
        }
        rest = more;
    }
}

/// Whether a field that is named through a superclass is protected in another run-time package (JVMS 4.10.1.8).
#[tactic(auto, unfolding(verify_rules::specs::Members::is_guarded_field))]
pub(crate) fn is_guarded_field(e: &Env<'_>, m: &NamedMember<'_>) -> bool
    ensures { result ≡ members.is_guarded_field e.now m.now }
{
    is_far_field(e, m, from_named(m.class, e.supers))
}

fn first_only<'a>(supers: &'a [Superclass<'a>]) -> &'a [Superclass<'a>]
    ensures { result.now ≡ members.first_only supers.now }
{
    if supers.len() < 2 {
        return supers;
    }
    &supers[..1]
}

// The superclasses in which a method is looked for: a constructor in the one that is named alone.
fn declaring<'a>(e: &Env<'a>, m: &NamedMember<'_>) -> &'a [Superclass<'a>]
    ensures { result.now ≡ (if links.is_init m.now.name then members.first_only (members.from_named m.now.class e.now.supers) else members.from_named m.now.class e.now.supers) }
{
    let named = from_named(m.class, e.supers);
    if is_init(m.name) {
        return first_only(named);
    }
    named
}

/// Whether a method that is named through a superclass is protected in another run-time package (JVMS 4.10.1.8). A
/// constructor is that of the class named alone.
#[tactic(auto, unfolding(verify_rules::specs::Members::is_guarded_method))]
pub(crate) fn is_guarded_method(e: &Env<'_>, m: &NamedMember<'_>) -> bool
    ensures { result ≡ members.is_guarded_method e.now m.now }
{
    is_far_method(e, m, declaring(e, m))
}

fn object_is_own(
    alloc: Global,
    asks: &mut Items<Ask>,
    e: &Env<'_>,
    object: Option<&VType>,
) -> Result<(), Stop>
    ensures { Checked (members.object_is_own e.now (option_copied object.entry)) asks.old asks.new result }
{
    let Some(t) = object else {
        return Err(Stop::Fault(Cause::Operands));
    };
    let own = e.this_type(alloc)?;
    assign(alloc, asks, t, &own)
}

/// Where a member is guarded, its object is one of the class itself.
#[tactic(auto, unfolding(verify_rules::specs::Members::protected_test))]
pub(crate) fn protected_test(
    alloc: Global,
    asks: &mut Items<Ask>,
    e: &Env<'_>,
    guarded: bool,
    object: Option<&VType>,
) -> Result<(), Stop>
    ensures { Checked (members.protected_test e.now guarded (option_copied object.entry)) asks.old asks.new result }
{
    if !guarded {
        return Ok(());
    }
    object_is_own(alloc, asks, e, object)
}

fn is_array_object(object: Option<&VType>) -> bool
    ensures { result ≡ members.is_array_object (option_copied object.entry) }
{
    let Some(VType::Object(name)) = object else {
        return false;
    };
    is_array(name.as_slice())
}

// Whether the test of a method is due for an object: `clone` of an array is free.
fn is_tested(e: &Env<'_>, m: &NamedMember<'_>, object: Option<&VType>) -> bool
    ensures { result ≡ (members.is_guarded_method e.now m.now && not (bytes_eq m.now.name (codes "clone") && members.is_array_object (option_copied object.entry))) }
{
    is_guarded_method(e, m) && !(m.name == b"clone".as_slice() && is_array_object(object))
}

/// The same for a method, of which `clone` of an array is free.
#[tactic(auto, unfolding(verify_rules::specs::Members::method_test))]
pub(crate) fn method_test(
    alloc: Global,
    asks: &mut Items<Ask>,
    e: &Env<'_>,
    m: &NamedMember<'_>,
    object: Option<&VType>,
) -> Result<(), Stop>
    ensures { Checked (members.method_test e.now m.now (option_copied object.entry)) asks.old asks.new result }
{
    let guarded = is_tested(e, m, object);
    protected_test(alloc, asks, e, guarded, object)
}

// ---- fields of the class itself

fn is_declared_as(tree: &ClassTree, m: &NamedMember<'_>, f: &FieldTree) -> bool
    ensures { result ≡ members.is_declared_as tree.now m.now f.now }
{
    tree.pool.is_text(f.name, m.name) && tree.pool.is_text(f.desc, m.desc)
}

fn declares(tree: &ClassTree, m: &NamedMember<'_>) -> bool
    ensures { result ≡ list_any (members.is_declared_as tree.now m.now) tree.now.fields }
{
    tree.fields
        .as_slice()
        .iter()
        .any(|f| is_declared_as(tree, m, f))
}

/// Whether the class itself declares the field that is named through it.
#[tactic(auto, unfolding(verify_rules::specs::Members::is_own_field))]
pub(crate) fn is_own_field(e: &Env<'_>, m: &NamedMember<'_>) -> bool
    ensures { result ≡ members.is_own_field e.now m.now }
{
    m.class == e.this_name() && declares(e.tree, m)
}
