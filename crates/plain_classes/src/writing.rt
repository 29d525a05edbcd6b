//! Writes the classes of an archive.
ghost use Rattle.std.specs.Prelude.{◌≡◌, ◌<◌, ◌^◌, ◌++◌, length, IsTrue, IfOk, OnOk};
ghost use Rattle.std.specs.List.{flat_map, AllByRecursion};
ghost use Rattle.plain_classes.specs.Records as spec;

use crate::class::PlainClass;
use jsa_base::{Cursor, put_low_text};
use std::alloc::{AllocError, Global};

// What the types of the fields say of a class whose texts are short.
fn fits(class: &PlainClass)
    requires { IsTrue (spec.has_short_texts class.now) }
    ensures { spec.FitsRecord class.now }
{
    Cursor::new(class.name.as_slice()).are_bytes();
    Cursor::new(class.bytes.as_slice()).are_bytes();
}

fn push_class(bytes: &mut Vec<u8>, class: &PlainClass) -> Result<(), AllocError>
    requires { IsTrue (spec.has_short_texts class.now) }
    ensures written { OnOk result (bytes.new.items ≡ bytes.old.items ++ spec.class_text class.now) }
    ensures fits { spec.FitsRecord class.now }
{
    fits(class);
    put_low_text(bytes, class.name.as_slice())?;
    put_low_text(bytes, class.bytes.as_slice())
}

fn push_classes(bytes: &mut Vec<u8>, classes: &[PlainClass]) -> Result<(), AllocError>
    requires { IsTrue (spec.have_short_texts classes.now) }
    ensures written { OnOk result (bytes.new.items ≡ bytes.old.items ++ flat_map spec.class_text classes.now) }
    ensures fits { OnOk result (AllByRecursion spec.FitsRecord classes.now) }
{
    let mut rest = classes;
    loop {
        let [class, more @ ..] = rest else {
            return Ok(());
        };
        push_class(bytes, class)?;
        rest = more;
    }
}

/// The bytes of classes whose names and class files have fewer than 2^32 bytes each. `read_classes` reads them as these
/// classes again.
pub fn write_classes(alloc: Global, classes: &[PlainClass]) -> Result<Vec<u8>, AllocError>
    requires { IsTrue (spec.have_short_texts classes.now) }
    ensures { IfOk result (λ bytes. spec.SpellsClasses bytes.items (length classes.now) classes.now) }
{
    let mut bytes = Vec::new(alloc);
    push_classes(&mut bytes, classes)?;
    Ok(bytes)
}
