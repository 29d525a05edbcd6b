//! A class as a plain archive holds it.
ghost use Rattle.std.specs.Prelude.{◌≡◌, ◌<◌, length, IsTrue};
ghost use Rattle.std.specs.List.{list_all};
ghost use Rattle.std.specs.Option.{option_copied};
ghost use Rattle.plain_classes.specs.Records as spec;

use sqlite_items::Items;

/// A class as a plain archive holds it.
#[derive(Debug, Drop)]
pub struct PlainClass {
    /// Its internal name (JVMS 4.2.1).
    pub name: Items<u8>,
    /// Its class file (JVMS 4).
    pub bytes: Items<u8>,
}

fn has_short_texts(class: &PlainClass) -> bool
    ensures { result ≡ spec.has_short_texts class.now }
{
    class.name.len() < 0x1_0000_0000 && class.bytes.len() < 0x1_0000_0000
}

/// Whether each name and each class file has fewer than 2^32 bytes, so that the classes can be written.
pub fn have_short_texts(classes: &[PlainClass]) -> bool
    ensures { result ≡ spec.have_short_texts classes.now }
{
    classes.iter().all(has_short_texts)
}

fn class_size(class: &PlainClass) -> u64
    requires { IsTrue (spec.has_short_texts class.now) }
    ensures { result ≡ length (spec.class_text class.now) }
{
    8 + class.name.len() as u64 + class.bytes.len() as u64
}

/// How many bytes the classes are written as. This takes no memory.
pub fn classes_size(classes: &[PlainClass]) -> u64
    requires few { length classes.now < 65_536 }
    requires short { IsTrue (spec.have_short_texts classes.now) }
    ensures { result ≡ length (spec.classes_text classes.now) }
{
    let mut size = 0;
    let mut rest = classes;
    loop {
        let [first, more @ ..] = rest else {
            return size;
        };
        size += class_size(first);
        rest = more;
    }
}

/// The class file of the first class of this name. `None` exactly where no class has it.
pub fn class_in<'a>(classes: &'a [PlainClass], name: &[u8]) -> Option<&'a [u8]>
    ensures { option_copied result ≡ spec.class_in classes.now name.now }
{
    let mut rest = classes;
    loop {
        let [first, more @ ..] = rest else {
            return None;
        };
        if first.name.as_slice() == name {
            return Some(first.bytes.as_slice());
        }
        rest = more;
    }
}
