//! The constant pool (JVMS 4.4).
ghost use Rattle.std.specs.Prelude.{◌≡◌};
ghost use Rattle.std.specs.Option.{option_copied};
ghost use Rattle.class_tree.specs.WellFormed.{text_of, class_name};
ghost use Rattle.class_tree.specs.Links as links;
ghost use Rattle.class_tree.specs.Trees as trees;

use sqlite_items::{Items, at};
use std::marker::Model;

/// An entry of the constant pool. A `u16` is an index of the pool, unless its line says otherwise.
#[derive(Drop)]
pub enum PoolEntry {
    /// Nothing: the place of index 0, and of the second index of a Long or a Double (JVMS 4.1, 4.4.5).
    Unusable,
    /// The bytes of a text in modified UTF-8 (JVMS 4.4.7).
    Utf8(Items<u8>),
    /// The bits of a number (JVMS 4.4.4, 4.4.5), as those of the next three.
    Integer(u32),
    Float(u32),
    Long(u64),
    Double(u64),
    /// The name of a class or an interface, or the descriptor of an array (JVMS 4.4.1).
    Class(u16),
    /// The text of a string (JVMS 4.4.3).
    Str(u16),
    /// The class and the NameAndType of a field (JVMS 4.4.2), of a method, of an interface's method.
    Fieldref(u16, u16),
    Methodref(u16, u16),
    InterfaceMethodref(u16, u16),
    /// The name and the descriptor of a field or a method (JVMS 4.4.6).
    NameAndType(u16, u16),
    /// The kind of a handle, and the member that it refers to (JVMS 4.4.8).
    MethodHandle(u8, u16),
    /// The descriptor of a method (JVMS 4.4.9).
    MethodType(u16),
    /// The place of a bootstrap method in its table, and the NameAndType of the call (JVMS 4.4.10).
    InvokeDynamic(u16, u16),
}

/// A constant pool. Contracts see it as the list of its entries, from index 0 on.
#[derive(Drop)]
pub struct Pool {
    entries: Items<PoolEntry>,
}

impl Model for Pool {
    ghost use Rattle.std.specs.Prelude.{List};
    ghost use Rattle.class_tree.specs.declared.constant_pool.PoolEntry.{PoolEntry};

    ghost Value = { List PoolEntry };

    ghost view = { λ p. p.entries };
}

impl Pool {
    /// A pool of these entries, from index 0 on.
    pub fn new(entries: Items<PoolEntry>) -> Pool
        ensures { result ≡ entries }
    {
        Pool { entries }
    }

    /// The entries, from index 0 on.
    pub fn entries(&self) -> &[PoolEntry]
        ensures { result.now ≡ self.now }
    {
        self.entries.as_slice()
    }

    /// The text of the Utf8 at an index, and `None` where no Utf8 stands there.
    pub fn text(&self, index: u16) -> Option<&[u8]>
        ensures { option_copied result ≡ text_of self.now index }
    {
        match at(self.entries(), usize::from(index)) {
            Some(PoolEntry::Utf8(text)) => Some(text.as_slice()),
            _ => None,
        }
    }

    /// Whether a Utf8 stands at an index.
    pub fn is_utf8(&self, index: u16) -> bool
        ensures { result ≡ links.is_utf8 self.now index }
    {
        self.text(index).is_some()
    }

    /// Whether a Utf8 with this text stands at an index.
    pub fn is_text(&self, index: u16, text: &[u8]) -> bool
        ensures { result ≡ trees.is_text self.now index text.now }
    {
        match self.text(index) {
            Some(found) => found == text,
            None => false,
        }
    }

    /// The text that the Class at an index names: the name of a class, or the descriptor of an array. `None` where no
    /// Class stands there.
    pub fn class_name(&self, index: u16) -> Option<&[u8]>
        ensures { option_copied result ≡ class_name self.now index }
    {
        match at(self.entries(), usize::from(index)) {
            Some(PoolEntry::Class(name)) => self.text(*name),
            _ => None,
        }
    }
}
