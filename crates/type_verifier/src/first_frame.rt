//! The frame that a method begins with (JVMS 4.10.1.6).
ghost use Rattle.std.specs.Prelude.{◌≡◌, IfOk, cond};
ghost use Rattle.class_tree.specs.Flags.{is_static};
ghost use Rattle.verify_rules.specs.declared.types.VType.TheVariants.{UninitializedThis};
ghost use Rattle.verify_rules.specs.Env.{this_type};
ghost use Rattle.verify_rules.specs.Methods.{begins_unfinished, own_object, first_locals, frame_of_locals, first_frame};

use crate::descriptors::vtypes;
use crate::env::Env;
use class_tree::is_static;
use jsa_names::MethodType;
use sqlite_items::Items;
use std::alloc::{AllocError, Global};
use verify_rules::{Frame, TypeStack, VType, units_within};
use verify_types::filled;

fn is_static_method(e: &Env<'_>) -> bool
    ensures { result ≡ is_static e.now.method.flags }
{
    is_static(e.method.flags)
}

// In a constructor `this` waits for another constructor, except in that of java/lang/Object.
fn begins_unfinished(e: &Env<'_>) -> bool
    ensures { result ≡ begins_unfinished e.now }
{
    e.is_constructor() && e.this_name() != b"java/lang/Object".as_slice()
}

// `this` as the method begins.
fn own_type(alloc: Global, e: &Env<'_>) -> Result<VType, AllocError>
    ensures { IfOk result (λ t. t ≡ cond (begins_unfinished e.now) UninitializedThis (this_type e.now)) }
{
    if begins_unfinished(e) {
        return Ok(VType::UninitializedThis);
    }
    e.this_type(alloc)
}

// `this`, unless the method is static.
fn own_object(alloc: Global, e: &Env<'_>) -> Result<Items<VType>, AllocError>
    ensures { IfOk result (λ locals. locals ≡ own_object e.now) }
{
    let mut locals = Items::new(alloc);
    if is_static_method(e) {
        return Ok(locals);
    }
    locals.push(own_type(alloc, e)?)?;
    Ok(locals)
}

// `this`, unless the method is static, and its parameters.
fn first_locals(alloc: Global, e: &Env<'_>, m: &MethodType<'_>) -> Result<Items<VType>, AllocError>
    ensures { IfOk result (λ locals. locals ≡ first_locals e.now m.now) }
{
    let mut locals = own_object(alloc, e)?;
    locals.append(vtypes(alloc, m)?)?;
    Ok(locals)
}

// ---- the frame

// The frame with these locals. `None` where they have no room.
fn frame_of_locals(
    alloc: Global,
    e: &Env<'_>,
    locals: &[VType],
) -> Result<Option<Frame>, AllocError>
    ensures { IfOk result (λ f. f ≡ frame_of_locals e.now locals.now) }
{
    if units_within(locals, e.code.locals).is_none() {
        return Ok(None);
    }
    let locals = filled(alloc, e.code.locals, locals)?;
    let this_uninit = !is_static_method(e) && begins_unfinished(e);
    Ok(Some(Frame {
        locals,
        stack: TypeStack::new(alloc),
        this_uninit,
    }))
}

/// The frame that a method begins with: `this`, unless it is static, and its parameters. `None` where its descriptor is none,
/// or where these have no room.
#[tactic(auto, unfolding(verify_rules::specs::Methods::first_frame))]
pub(crate) fn first_frame(alloc: Global, e: &Env<'_>) -> Result<Option<Frame>, AllocError>
    ensures { IfOk result (λ f. f ≡ first_frame e.now) }
{
    let Some(m) = e.own_type() else {
        return Ok(None);
    };
    let locals = first_locals(alloc, e, &m)?;
    frame_of_locals(alloc, e, locals.as_slice())
}
