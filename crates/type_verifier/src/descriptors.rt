//! The types of values by descriptors (JVMS 4.3).
ghost use Rattle.std.specs.Prelude.{◌≡◌, ◌++◌, ◌∷◌, length, replicate, IfOk};
ghost use Rattle.jsa_names.specs.Types.{field_shown};
ghost use Rattle.verify_rules.specs.Env as envs;
ghost use Rattle.verify_rules.specs.Env.{vtype_of, vtypes_of};

use jsa_names::{FieldType, MethodType, field_type};
use sqlite_items::Items;
use std::alloc::{AllocError, Global};
use verify_rules::VType;

// An array is named by its descriptor.
fn array_name(alloc: Global, depth: u8, element: &[u8]) -> Result<Items<u8>, AllocError>
    ensures { IfOk result (λ name. name ≡ replicate depth 91 ++ element.now) }
{
    let mut name = Vec::new(alloc);
    for _ in 0..depth {
        name.push(b'[')?;
    }
    name.extend_from_slice(element)?;
    Ok(Items::from_vec(name))
}

/// The type that a value of a Java type has: `boolean`, `byte`, `char` and `short` are `int`, and an array goes by its
/// descriptor (JVMS 4.10.1.2).
pub(crate) fn vtype(alloc: Global, t: &FieldType<'_>) -> Result<VType, AllocError>
    ensures { IfOk result (λ r. r ≡ vtype_of (field_shown t.now)) }
{
    match t {
        FieldType::Byte => Ok(VType::Integer),
        FieldType::Char => Ok(VType::Integer),
        FieldType::Double => Ok(VType::Double),
        FieldType::Float => Ok(VType::Float),
        FieldType::Int => Ok(VType::Integer),
        FieldType::Long => Ok(VType::Long),
        FieldType::Short => Ok(VType::Integer),
        FieldType::Boolean => Ok(VType::Integer),
        FieldType::Class(name) => Ok(VType::Object(Items::from_slice(alloc, name)?)),
        FieldType::Array(depth, element) => Ok(VType::Object(array_name(alloc, *depth, element)?)),
    }
}

/// The types of the parameters of a method, in their order.
#[tactic(auto, unfolding(verify_rules::specs::Env::vtypes_of))]
pub(crate) fn vtypes(alloc: Global, m: &MethodType<'_>) -> Result<Items<VType>, AllocError>
    ensures types { IfOk result (λ types. types ≡ vtypes_of m.now.parameters) }
    ensures count { IfOk result (λ types. length types ≡ length m.now.parameters) }
{
    let mut types = Items::new(alloc);
    for k in 0..m.slots() {
        let Some(t) = m.param(k) else {
            return Ok(types);
        };
        types.push(vtype(alloc, &t)?)?;
    }
    Ok(types)
}

/// Types behind another one.
pub(crate) fn behind(
    alloc: Global,
    first: VType,
    types: Items<VType>,
) -> Result<Items<VType>, AllocError>
    ensures { IfOk result (λ all. all ≡ first ∷ types) }
{
    let mut all = Items::new(alloc);
    all.push(first)?;
    all.append(types)?;
    Ok(all)
}

/// The type of a field with this descriptor. `None` exactly where it is none.
#[tactic(auto, unfolding(verify_rules::specs::Env::field_vtype))]
pub(crate) fn field_vtype(alloc: Global, desc: &[u8]) -> Result<Option<VType>, AllocError>
    ensures { IfOk result (λ t. t ≡ envs.field_vtype desc.now) }
{
    let Some(t) = field_type(desc) else {
        return Ok(None);
    };
    Ok(Some(vtype(alloc, &t)?))
}
