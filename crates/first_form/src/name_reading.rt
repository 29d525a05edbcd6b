//! Reads the name inside a class of the first form.
ghost use Rattle.std.specs.Bool.{IsTrue};
ghost use Rattle.class_tree.specs.WellFormed.{is_well_formed};
ghost use Rattle.first_form.specs.Outcomes.{Yields};
ghost use Rattle.first_form.specs.FirstForm.{HasName, OneName, EachClassIsNamed, name_of};

use crate::fault::FormFault;
use crate::program_reading::{class_of, program_of};
use class_tree::ClassTree;
use sqlite_items::Items;
use std::alloc::Global;

#[tactic(auto, unfolding(crate::specs::FirstForm::name_of))]
fn name_of(alloc: Global, t: &ClassTree) -> Result<Items<u8>, FormFault>
    requires { IsTrue (is_well_formed t.now) }
    ensures { Yields result (name_of t.now) }
{
    let _program = program_of(alloc, t)?;
    match t.pool.class_name(t.this) {
        Some(name) => Ok(Items::from_slice(alloc, name)?),
        None => Err(FormFault::NotFirstForm),
    }
}

/// The internal name of the class that the bytes are (JVMS 4.1, 4.2.1), where it has the first form.
///
/// `NotFirstForm` comes exactly where the bytes are no class of the first form.
pub fn read_name(alloc: Global, bytes: &[u8]) -> Result<Items<u8>, FormFault>
    ensures { HasName bytes.now result }
{
    let tree = class_of(alloc, bytes)?;
    name_of(alloc, &tree)
}

/// A text has one name inside at most.
pub fn one_name()
    ensures { OneName }
{}

/// Each class of the first form has a name inside.
pub fn each_class_is_named()
    ensures { EachClassIsNamed }
{}
