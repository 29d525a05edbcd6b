//! Entries of a constant pool, with what their texts are.
ghost use Rattle.std.specs.Prelude.{◌≡◌, IfOk, slice_get};
ghost use Rattle.std.specs.Option.{option_copied};
ghost use Rattle.jsa_names.specs.Names as names;
ghost use Rattle.class_tree.specs.Links as links;
ghost use Rattle.class_tree.specs.TextForms as forms;
ghost use Rattle.class_tree.specs.Trees as trees;
ghost use Rattle.class_tree.specs.WellFormed as well_formed;

use crate::constant_pool::PoolEntry;
use crate::text_kinds::{
    is_class_or_array, is_declared_name, is_field_type, is_init, is_method_type, returns_void,
};
use jsa_names::{is_class_name, is_member_name, is_method_name, method_type};
use sqlite_items::at;
use std::alloc::{AllocError, Global};
use std::marker::Model;

// What the text of an entry is. All are false where it has none.
#[derive(Clone, Copy)]
struct TextForms {
    is_text: bool,
    is_class_name: bool,
    is_class_or_array: bool,
    is_member_name: bool,
    is_field_type: bool,
    is_method_name: bool,
    is_method_type: bool,
    is_init: bool,
    is_declared_name: bool,
    returns_void: bool,
    // The slots that the parameters of a method descriptor take, `this` aside.
    parameter_slots: Option<u8>,
}

fn parameter_slots(text: &[u8]) -> Option<u8>
    ensures { result ≡ well_formed.parameter_slots (Some text.now) }
{
    match method_type(text) {
        Some(method) => Some(method.slots() as u8),
        None => None,
    }
}

fn is_int_type(text: &[u8]) -> bool
    ensures { result ≡ well_formed.is_int_type text.now }
{
    text == b"I".as_slice()
        || text == b"S".as_slice()
        || text == b"C".as_slice()
        || text == b"B".as_slice()
        || text == b"Z".as_slice()
}

/// The text of an entry, and `None` where it has none.
pub(crate) fn text_of(entry: &PoolEntry) -> Option<&[u8]>
    ensures { option_copied result ≡ links.text_in (Some entry.now) }
{
    match entry {
        PoolEntry::Utf8(text) => Some(text.as_slice()),
        _ => None,
    }
}

fn no_forms() -> TextForms
    ensures { result ≡ forms.forms_in None }
{
    TextForms {
        is_text: false,
        is_class_name: false,
        is_class_or_array: false,
        is_member_name: false,
        is_field_type: false,
        is_method_name: false,
        is_method_type: false,
        is_init: false,
        is_declared_name: false,
        returns_void: false,
        parameter_slots: None,
    }
}

fn forms_of(entry: &PoolEntry) -> TextForms
    ensures { result ≡ forms.forms_of entry.now }
{
    let Some(text) = text_of(entry) else {
        return no_forms();
    };
    TextForms {
        is_text: true,
        is_class_name: is_class_name(text),
        is_class_or_array: is_class_or_array(text),
        is_member_name: is_member_name(text),
        is_field_type: is_field_type(text),
        is_method_name: is_method_name(text),
        is_method_type: is_method_type(text),
        is_init: is_init(text),
        is_declared_name: is_declared_name(text),
        returns_void: returns_void(text),
        parameter_slots: parameter_slots(text),
    }
}

#[tactic(auto, unfolding(crate::specs::TextForms::all_forms))]
fn all_forms(alloc: Global, entries: &[PoolEntry]) -> Result<Vec<TextForms>, AllocError>
    ensures { IfOk result (λ all. all.items ≡ forms.all_forms entries.now) }
{
    entries.iter().map(|entry| forms_of(entry)).collect(alloc)
}

/// The entries of a constant pool, from index 0 on, with each of their texts tested: however many entries name a
/// text, it is looked at once.
///
/// Contracts see it as the list of the entries.
#[derive(Drop)]
pub(crate) struct TestedPool<'a> {
    entries: &'a [PoolEntry],
    forms: Vec<TextForms>,
}

impl<'a> Model for TestedPool<'a> {
    ghost use Rattle.std.specs.Prelude.{◌≡◌, List};
    ghost use Rattle.class_tree.specs.declared.constant_pool.PoolEntry.{PoolEntry};
    ghost use Rattle.class_tree.specs.TextForms.{all_forms};

    ghost Value = { List PoolEntry };

    ghost view = { λ p. p.entries.now };

    ghost invariant = { λ p. p.forms.items ≡ all_forms p.entries.now };
}

impl<'a> TestedPool<'a> {
    pub(crate) fn new(alloc: Global, entries: &'a [PoolEntry]) -> Result<TestedPool<'a>, AllocError>
        ensures { IfOk result (λ pool. pool ≡ entries.now) }
    {
        let forms = all_forms(alloc, entries)?;
        Ok(TestedPool { entries, forms })
    }

    pub(crate) fn entries(&self) -> &'a [PoolEntry]
        ensures { result.now ≡ self.now }
    {
        self.entries
    }

    fn entry(&self, index: u16) -> Option<&PoolEntry>
        ensures { option_copied result ≡ slice_get self.now index }
    {
        at(self.entries, index as usize)
    }

    // What the text at an index is.
    fn forms(&self, index: u16) -> TextForms
        ensures { result ≡ forms.forms_in (slice_get self.now index) }
    {
        match at(&self.forms, index as usize) {
            Some(forms) => *forms,
            None => no_forms(),
        }
    }

    pub(crate) fn is_utf8(&self, index: u16) -> bool
        ensures { result ≡ links.is_utf8 self.now index }
    {
        self.forms(index).is_text
    }

    pub(crate) fn has_class_name(&self, index: u16) -> bool
        ensures { result ≡ links.has_text self.now index links.is_class_or_array }
    {
        self.forms(index).is_class_or_array
    }

    pub(crate) fn is_class(&self, index: u16) -> bool
        ensures { result ≡ links.is_class self.now index }
    {
        matches!(self.entry(index), Some(PoolEntry::Class(_)))
    }

    pub(crate) fn is_name_and_type(&self, index: u16) -> bool
        ensures { result ≡ links.is_name_and_type self.now index }
    {
        matches!(self.entry(index), Some(PoolEntry::NameAndType(_, _)))
    }

    pub(crate) fn is_member_reference(&self, index: u16) -> bool
        ensures { result ≡ links.is_member_reference self.now index }
    {
        matches!(
            self.entry(index),
            Some(
                PoolEntry::Fieldref(_, _)
                    | PoolEntry::Methodref(_, _)
                    | PoolEntry::InterfaceMethodref(_, _)
            )
        )
    }

    pub(crate) fn is_field(&self, index: u16) -> bool
        ensures { result ≡ links.is_field self.now index }
    {
        match self.entry(index) {
            Some(PoolEntry::NameAndType(name, desc)) => {
                self.forms(*name).is_member_name && self.forms(*desc).is_field_type
            }
            _ => false,
        }
    }

    pub(crate) fn is_method(&self, index: u16) -> bool
        ensures { result ≡ links.is_method self.now index }
    {
        match self.entry(index) {
            Some(PoolEntry::NameAndType(name, desc)) => {
                self.forms(*name).is_method_name && self.forms(*desc).is_method_type
            }
            _ => false,
        }
    }

    pub(crate) fn init_is_void(&self, index: u16) -> bool
        ensures { result ≡ links.init_is_void self.now index }
    {
        match self.entry(index) {
            Some(PoolEntry::NameAndType(name, desc)) => {
                !self.forms(*name).is_init || self.forms(*desc).returns_void
            }
            _ => false,
        }
    }

    // ---- what the members of a class want of it

    fn text(&self, index: u16) -> Option<&[u8]>
        ensures { option_copied result ≡ well_formed.text_of self.now index }
    {
        match self.entry(index) {
            Some(entry) => text_of(entry),
            None => None,
        }
    }

    // Whether a Utf8 with this text stands at an index. Texts of two lengths are told apart at once.
    fn is_text(&self, index: u16, text: &[u8]) -> bool
        ensures { result ≡ trees.is_text self.now index text.now }
    {
        match self.text(index) {
            Some(found) => found == text,
            None => false,
        }
    }

    pub(crate) fn has_member_name(&self, index: u16) -> bool
        ensures { result ≡ links.has_text self.now index names.is_member_name }
    {
        self.forms(index).is_member_name
    }

    pub(crate) fn has_declared_name(&self, index: u16) -> bool
        ensures { result ≡ links.has_text self.now index well_formed.is_declared_name }
    {
        self.forms(index).is_declared_name
    }

    pub(crate) fn has_field_type(&self, index: u16) -> bool
        ensures { result ≡ links.has_text self.now index links.is_field_type }
    {
        self.forms(index).is_field_type
    }

    pub(crate) fn is_init(&self, index: u16) -> bool
        ensures { result ≡ links.has_text self.now index links.is_init }
    {
        self.forms(index).is_init
    }

    pub(crate) fn is_clinit(&self, index: u16) -> bool
        ensures { result ≡ links.has_text self.now index well_formed.is_clinit }
    {
        self.is_text(index, b"<clinit>")
    }

    pub(crate) fn returns_void(&self, index: u16) -> bool
        ensures { result ≡ links.has_text self.now index links.returns_void }
    {
        self.forms(index).returns_void
    }

    pub(crate) fn is_plain_void(&self, index: u16) -> bool
        ensures { result ≡ links.has_text self.now index well_formed.is_plain_void }
    {
        self.is_text(index, b"()V")
    }

    /// The slots that the parameters of a method descriptor take, and `None` where no method descriptor stands.
    pub(crate) fn parameter_slots(&self, index: u16) -> Option<u8>
        ensures { result ≡ well_formed.parameter_slots (well_formed.text_of self.now index) }
    {
        self.forms(index).parameter_slots
    }

    fn has_int_type(&self, index: u16) -> bool
        ensures { result ≡ links.has_text self.now index well_formed.is_int_type }
    {
        match self.text(index) {
            Some(desc) => is_int_type(desc),
            None => false,
        }
    }

    /// Whether the entry at an index is a constant for fields with the descriptor at another.
    pub(crate) fn is_constant_for(&self, desc: u16, index: u16) -> bool
        ensures { result ≡ well_formed.is_constant_for self.now desc (slice_get self.now index) }
    {
        match self.entry(index) {
            Some(PoolEntry::Integer(_)) => self.has_int_type(desc),
            Some(PoolEntry::Float(_)) => self.is_text(desc, b"F"),
            Some(PoolEntry::Long(_)) => self.is_text(desc, b"J"),
            Some(PoolEntry::Double(_)) => self.is_text(desc, b"D"),
            Some(PoolEntry::Str(_)) => self.is_text(desc, b"Ljava/lang/String;"),
            _ => false,
        }
    }

    /// Whether a Class at an index names a class or an interface, and no array.
    pub(crate) fn is_plain_class(&self, index: u16) -> bool
        ensures { result ≡ well_formed.is_plain_class self.now index }
    {
        match self.entry(index) {
            Some(PoolEntry::Class(name)) => self.forms(*name).is_class_name,
            _ => false,
        }
    }

    pub(crate) fn is_object_class(&self, index: u16) -> bool
        ensures { result ≡ well_formed.is_object_class self.now index }
    {
        match self.entry(index) {
            Some(PoolEntry::Class(name)) => self.is_text(*name, b"java/lang/Object"),
            _ => false,
        }
    }
}
