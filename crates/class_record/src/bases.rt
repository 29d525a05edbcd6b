//! What a class is based on, and which classes a loader sees.
ghost use Rattle.std.specs.Prelude.{◌≡◌};
ghost use Rattle.class_record.specs.Files.{sees};

use loader_rules::Loader;
use sqlite_items::Items;

/// How a class names another one that it is based on (JVMS 4.1).
#[derive(Clone, Copy, Debug, PartialEq, Eq)]
pub enum BaseKind {
    /// As its superclass, which has to be a class.
    Superclass,
    /// As a direct superinterface, which has to be an interface.
    Superinterface,
}

/// A class that another one is based on: its superclass, or a direct superinterface of it.
#[derive(Debug, Drop)]
pub struct Base {
    pub kind: BaseKind,
    /// The internal name.
    pub name: Items<u8>,
}

/// Whether the loader `from` sees the classes that `of` defines: those of its own, and those of the loaders above it (JVMS
/// 5.3).
pub fn sees(from: Loader, of: Loader) -> bool
    ensures { result ≡ sees from of }
{
    match of {
        Loader::Boot => true,
        Loader::Platform => from != Loader::Boot,
        Loader::App => from == Loader::App,
    }
}
