//! The class list of a run.
ghost use Rattle.std.specs.Prelude.{◌≡◌, ◌++◌, ◌∷◌, [], IfOk};
ghost use Rattle.class_record.specs.Facts.{names_of};
ghost use Rattle.class_record.specs.ClassList.{class_list};

use class_record::{ClassId, Classes};
use std::alloc::{AllocError, Global};

/// The names of the loaded classes in load order, a line each: each name and a line feed.
pub fn load_list<C: Classes>(alloc: Global, classes: &C) -> Result<Vec<u8>, AllocError>
    ensures { IfOk result (λ list. list.items ≡ class_list (names_of (C.classes classes.now))) }
{
    let mut list = Vec::new(alloc);
    for id in 0..classes.count() {
        push_line(&mut list, classes.name(ClassId(id)))?;
    }
    Ok(list)
}

fn push_line(list: &mut Vec<u8>, name: &[u8]) -> Result<(), AllocError>
    ensures { IfOk result (λ _. list.new.items ≡ list.old.items ++ (name.now ++ 10 ∷ [])) }
{
    list.extend_from_slice(name)?;
    list.push(b'\n')?;
    Ok(())
}
