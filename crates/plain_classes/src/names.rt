//! Which names the classes of an archive have.
ghost use Rattle.std.specs.Prelude.{◌≡◌, List, ℕ, not, ◌||◌, IfOk, OnOk};
ghost use Rattle.std.specs.List.{AllByRecursion};
ghost use Rattle.std.specs.Str.{bytes_eq};
ghost use Rattle.plain_classes.specs.Outcomes.{Tells};
ghost use Rattle.plain_classes.specs.Records as spec;

use crate::class::PlainClass;
use first_form::{FormFault, read_name};
use std::alloc::{AllocError, Global};
use std::collections::BTreeSet;

// Adds a name to those that were seen, and answers whether it is new.
fn add<'a>(seen: &mut BTreeSet<&'a [u8]>, name: &'a [u8]) -> Result<bool, AllocError>
    ensures new { IfOk result (λ is_new. is_new ≡ not (spec.is_among name.now (spec.borrowed seen.old.keys))) }
    ensures seen { OnOk result ((n : List ℕ) → spec.is_among n (spec.borrowed seen.new.keys) ≡ (bytes_eq name.now n || spec.is_among n (spec.borrowed seen.old.keys))) }
{
    match seen.insert(name) {
        Ok(is_new) => Ok(is_new),
        Err(_) => Err(AllocError),
    }
}

/// Whether the bytes are a class file (JVMS 4) of which an archive may hold the class, and the class that they declare has
/// this internal name (JVMS 4.1, 4.2.1).
pub fn is_named(alloc: Global, bytes: &[u8], name: &[u8]) -> Result<bool, AllocError>
    ensures { IfOk result (λ named. Tells named (spec.IsNamed bytes.now name.now)) }
{
    match read_name(alloc, bytes) {
        Ok(inside) => Ok(inside.as_slice() == name),
        Err(FormFault::NotFirstForm) => Ok(false),
        Err(FormFault::Memory) => Err(AllocError),
    }
}

/// Whether no name stands twice.
pub fn are_distinct(alloc: Global, classes: &[PlainClass]) -> Result<bool, AllocError>
    ensures { IfOk result (λ distinct. distinct ≡ spec.are_distinct (spec.names_of classes.now)) }
{
    let mut seen = BTreeSet::new(alloc);
    let mut rest = classes;
    loop {
        let [first, more @ ..] = rest else {
            return Ok(true);
        };
        let Ok(is_new) = add(&mut seen, first.name.as_slice()) else {
            return Err(AllocError);
        };
        if !is_new {
            return Ok(false);
        }
        rest = more;
    }
}

/// Whether each class has its own name inside, as `is_named` has it.
pub fn are_named(alloc: Global, classes: &[PlainClass]) -> Result<bool, AllocError>
    ensures { IfOk result (λ named. Tells named (AllByRecursion spec.IsRecord classes.now)) }
{
    let mut rest = classes;
    loop {
        let [first, more @ ..] = rest else {
            return Ok(true);
        };
        let Ok(is_named) = is_named(alloc, first.bytes.as_slice(), first.name.as_slice()) else {
            return Err(AllocError);
        };
        if !is_named {
            return Ok(false);
        }
        rest = more;
    }
}
