//! A class: what it must not override, and its methods in their order (JVMS 4.10, 5.4.5).
ghost use Rattle.std.specs.Prelude.{◌≡◌, ◌&&◌, [], ◌∷◌, Some, IfOk};
ghost use Rattle.std.specs.List.{list_any};
ghost use Rattle.std.specs.Option.{option_map};
ghost use Rattle.class_tree.specs.Flags.{is_final};
ghost use Rattle.class_tree.specs.WellFormed.{text_of, are_equal};
ghost use Rattle.class_tree.specs.ClassNames.{own_name};
ghost use Rattle.verify_rules.specs.Types.{top_first};
ghost use Rattle.verify_rules.specs.Walking.{Finds, is_final_method};
ghost use Rattle.verify_rules.specs.Classes.{origin, is_same_signature, shares_with, is_overridden, overridden_in, overrides_final, may_override, breaks_final_method, has_final_superclass, breaks_final, place, found_in, methods_checked, class_checked};

use crate::env::Env;
use crate::methods::method_found;
use class_tree::{ClassTree, MethodTree, is_final, is_private, is_protected, is_public, is_static};
use loader_rules::{Loader, same_package};
use sqlite_items::Items;
use std::alloc::{AllocError, Global};
use std::marker::Model;
use verify_rules::{Ask, Checked, Member, Place, Superclass};

// ---- final classes and methods

// A class by its name and its loader.
#[derive(Drop)]
struct Origin<'a> {
    name: &'a [u8],
    loader: Loader,
}

impl<'a> Model for Origin<'a> {
    ghost use Rattle.verify_rules.specs.Classes.{Origin};

    ghost Value = { Origin };

    ghost view = { λ o. record { name = o.name.now; loader = o.loader } };
}

fn origin_of<'a>(c: &Superclass<'a>) -> Origin<'a>
    ensures { result ≡ origin c.now }
{
    Origin {
        name: c.name,
        loader: c.loader,
    }
}

// The class of a tree itself.
fn own_origin(tree: &ClassTree, loader: Loader) -> Origin<'_>
    ensures { result ≡ record { name = own_name tree.now; loader = loader } }
{
    let name = match tree.pool.class_name(tree.this) {
        Some(name) => name,
        None => b"",
    };
    Origin { name, loader }
}

fn is_text(tree: &ClassTree, index: u16, text: &[u8]) -> bool
    ensures { result ≡ are_equal (text_of tree.now.pool index) (Some text.now) }
{
    match tree.pool.text(index) {
        Some(found) => found == text,
        None => false,
    }
}

fn is_same_signature(tree: &ClassTree, m: &MethodTree, upper: &Member<'_>) -> bool
    ensures { result ≡ is_same_signature tree.now m.now upper.now }
{
    is_text(tree, m.name, upper.name) && is_text(tree, m.desc, upper.desc)
}

fn shares_with(c: &Superclass<'_>, lower: &Origin<'_>) -> bool
    ensures { result ≡ shares_with c.now lower.now }
{
    same_package(lower.name, lower.loader, c.name, c.loader)
}

// Whether one of these classes is of the run-time package of another one.
fn some_shares(c: &Superclass<'_>, lower: &[Origin<'_>]) -> bool
    ensures { result ≡ list_any (shares_with c.now) lower.now }
{
    lower.iter().any(|class| shares_with(c, class))
}

// Whether one of these classes, the lowest last, can override a method of another one.
#[tactic(auto, using(crate::proofs::Overriding::any_top_first))]
fn is_overridden(lower: &[Origin<'_>], c: &Superclass<'_>, upper: &Member<'_>) -> bool
    ensures { result ≡ is_overridden (top_first lower.now) c.now upper.now }
{
    !(is_private(upper.flags) || is_static(upper.flags))
        && (is_public(upper.flags) || is_protected(upper.flags) || some_shares(c, lower))
}

fn overrides(
    tree: &ClassTree,
    m: &MethodTree,
    lower: &[Origin<'_>],
    c: &Superclass<'_>,
    upper: &Member<'_>,
) -> bool
    ensures { result ≡ (is_same_signature tree.now m.now upper.now && is_overridden (top_first lower.now) c.now upper.now) }
{
    is_same_signature(tree, m, upper) && is_overridden(lower, c, upper)
}

fn is_final_method(upper: &Member<'_>) -> bool
    ensures { result ≡ is_final_method upper.now }
{
    is_final(upper.flags)
}

// Whether the method of a superclass that a method overrides is final. `None` where it overrides none.
fn overridden_final(
    tree: &ClassTree,
    m: &MethodTree,
    lower: &[Origin<'_>],
    c: &Superclass<'_>,
    methods: &[Member<'_>],
) -> Option<bool>
    ensures { result ≡ option_map is_final_method (overridden_in tree.now m.now (top_first lower.now) c.now methods.now) }
{
    for upper in methods {
        if overrides(tree, m, lower, c, upper) {
            return Some(is_final_method(upper));
        }
    }
    None
}

// The same of the methods of the superclass itself.
fn overridden_of(
    tree: &ClassTree,
    m: &MethodTree,
    lower: &[Origin<'_>],
    c: &Superclass<'_>,
) -> Option<bool>
    ensures { result ≡ option_map is_final_method (overridden_in tree.now m.now (top_first lower.now) c.now c.now.methods) }
{
    overridden_final(tree, m, lower, c, c.methods.as_slice())
}

// Whether a method overrides a final one of these superclasses, from the direct one up: itself, or by one that it overrides.
fn overrides_final(
    alloc: Global,
    tree: &ClassTree,
    loader: Loader,
    m: &MethodTree,
    supers: &[Superclass<'_>],
) -> Result<bool, AllocError>
    ensures { IfOk result (λ overrides. overrides ≡ overrides_final tree.now m.now (record { name = own_name tree.now; loader = loader } ∷ []) supers.now) }
{
    let mut lower = Items::new(alloc);
    lower.push(own_origin(tree, loader))?;
    for c in supers {
        match overridden_of(tree, m, lower.as_slice(), c) {
            Some(true) => return Ok(true),
            Some(false) => lower.push(origin_of(c))?,
            None => {}
        }
    }
    Ok(false)
}

fn may_override(m: &MethodTree) -> bool
    ensures { result ≡ may_override m.now }
{
    !(is_private(m.flags) || is_static(m.flags))
}

fn breaks_final_method(
    alloc: Global,
    tree: &ClassTree,
    loader: Loader,
    supers: &[Superclass<'_>],
    m: &MethodTree,
) -> Result<bool, AllocError>
    ensures { IfOk result (λ breaks. breaks ≡ breaks_final_method tree.now loader supers.now m.now) }
{
    if !may_override(m) {
        return Ok(false);
    }
    overrides_final(alloc, tree, loader, m, supers)
}

fn some_method_breaks(
    alloc: Global,
    tree: &ClassTree,
    loader: Loader,
    supers: &[Superclass<'_>],
    methods: &[MethodTree],
) -> Result<bool, AllocError>
    ensures { IfOk result (λ breaks. breaks ≡ list_any (breaks_final_method tree.now loader supers.now) methods.now) }
{
    for m in methods {
        if breaks_final_method(alloc, tree, loader, supers, m)? {
            return Ok(true);
        }
    }
    Ok(false)
}

fn is_final_class(c: &Superclass<'_>) -> bool
    ensures { result ≡ is_final c.now.flags }
{
    is_final(c.flags)
}

fn has_final_superclass(supers: &[Superclass<'_>]) -> bool
    ensures { result ≡ has_final_superclass supers.now }
{
    let [c, ..] = supers else {
        return false;
    };
    is_final_class(c)
}

// Whether the direct superclass is final, or a method overrides a final one.
#[tactic(auto, unfolding(verify_rules::specs::Classes::breaks_final))]
fn breaks_final(
    alloc: Global,
    tree: &ClassTree,
    loader: Loader,
    supers: &[Superclass<'_>],
) -> Result<bool, AllocError>
    ensures { IfOk result (λ breaks. breaks ≡ breaks_final tree.now loader supers.now) }
{
    if has_final_superclass(supers) {
        return Ok(true);
    }
    some_method_breaks(alloc, tree, loader, supers, tree.methods.as_slice())
}

// ---- the methods

// What is found of a method. One without code has nothing to type.
fn found_in(
    alloc: Global,
    asks: &mut Items<Ask>,
    tree: &ClassTree,
    loader: Loader,
    supers: &[Superclass<'_>],
    method: &MethodTree,
) -> Result<Option<u32>, AllocError>
    ensures { Finds (found_in tree.now loader supers.now method.now method.now.code) asks.old asks.new result }
{
    match &method.code {
        Some(code) => method_found(
            alloc,
            asks,
            &Env {
                tree,
                loader,
                supers,
                method,
                code,
            },
        ),
        None => Ok(None),
    }
}

// What was asked up to a fault.
fn faulty(asks: Items<Ask>, method: usize, pc: u32) -> Result<Checked, AllocError>
    ensures { IfOk result (λ checked. checked ≡ record { asks = asks; fault = Some (place method pc) }) }
{
    let Ok(method) = u32::try_from(method) else {
        return Err(AllocError);
    };
    let fault = Some(Place { method, pc });
    Ok(Checked { asks, fault })
}

// The methods in their order, up to the first fault.
fn methods_checked(
    alloc: Global,
    tree: &ClassTree,
    loader: Loader,
    supers: &[Superclass<'_>],
    methods: &[MethodTree],
) -> Result<Checked, AllocError>
    ensures { IfOk result (λ checked. checked ≡ methods_checked tree.now loader supers.now 0 methods.now) }
{
    let mut asks = Items::new(alloc);
    for k in 0..methods.len() {
        match found_in(alloc, &mut asks, tree, loader, supers, &methods[k])? {
            Some(pc) => return faulty(asks, k, pc),
            None => {}
        }
    }
    Ok(Checked { asks, fault: None })
}

// ---- the class

/// Verifies a class by type checking (JVMS 4.10.1): the questions that are asked of other classes, in their order, and the
/// first fault. `supers` are the superclasses, from the direct one up, and `loader` is the loader that defines the class.
///
/// First it is looked at what the class extends: where its direct superclass is final, or a method of it overrides a final one
/// of a superclass (JVMS 4.10, 5.4.5), the fault is at place 0 of method 0, and nothing is asked.
///
/// Then the methods are typed in the order of the class file. One without code has nothing to type. For one with code, in this
/// order:
/// 1. The code isn't empty, the method has a descriptor, `this` and its parameters have room in the locals, the StackMapTable is
///    one whose frames stand at instructions, and the ranges and the handlers of the exception table stand at instructions,
///    each handler with a frame. Else the fault is at place 0, and nothing is asked for this method.
/// 2. Each class that the exception table names, in its order, is one of throwables, and the frame that the method begins with
///    fits the one that is declared at place 0, if there is one. Else the fault is at place 0.
/// 3. The instructions in their order, each in the frame that is declared at its place, or else in the one that the instruction
///    before it left: its operands; its targets, a switch's default first; the handlers whose ranges hold it, in the order of
///    the table, by the frame before it with the throwable alone on the stack; and the instruction behind it. A fault of
///    these is at the instruction. Where the bytes at a place are no instruction, the fault is at that place.
///
/// Behind a fault nothing more is asked. A question is whether one class is assignable to another; equal names, and the target
/// java/lang/Object, give none (JVMS 4.10.1.2). Every tree is answered, also one that no class file spells.
///
/// # Errors
///
/// `AllocError` comes where memory runs out, or where the number of a faulty method doesn't fit, which no class file reaches.
#[tactic(auto, unfolding(verify_rules::specs::Classes::class_checked))]
pub fn check_class(
    alloc: Global,
    tree: &ClassTree,
    loader: Loader,
    supers: &[Superclass<'_>],
) -> Result<Checked, AllocError>
    ensures { IfOk result (λ checked. checked ≡ class_checked tree.now loader supers.now) }
{
    if breaks_final(alloc, tree, loader, supers)? {
        return Ok(Checked {
            asks: Items::new(alloc),
            fault: Some(Place { method: 0, pc: 0 }),
        });
    }
    methods_checked(alloc, tree, loader, supers, tree.methods.as_slice())
}
