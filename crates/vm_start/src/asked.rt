//! Whether a loaded class is as a required class is asked for.
ghost use Rattle.std.specs.Prelude.{◌≡◌, ◌<◌, ◌&&◌, not, is_none, Option, Some, None, length, map, slice_get};
ghost use Rattle.std.specs.List.{list_any};
ghost use Rattle.std.specs.Option.{option_map};
ghost use Rattle.std.specs.Str.{bytes_eq};
ghost use Rattle.class_tree.specs.Flags.{is_static};
ghost use Rattle.class_record.specs.Facts as known;
ghost use Rattle.class_record.specs.Facts.{names_of};
ghost use Rattle.class_record.specs.Required.{is_same_sup, are_same, is_initializer, is_wanted, has_field};
ghost use Rattle.class_record.specs.Starting.{is_as_asked};
ghost use Rattle.vm_start.specs.Table.{row_of, wanted_of};
ghost use Rattle.vm_start.specs.Asked.{fields_at, methods_at};

use crate::required::{Row, WantedField};
use class_record::{ClassId, Classes};
use class_tree::{is_interface, is_static};

// A class has fewer fields and fewer methods than this (JVMS 4.1).
const MAX_MEMBERS: u32 = 65_536;

/// Whether a loaded class is as it is asked for.
pub(crate) fn meets<C: Classes>(classes: &C, id: ClassId, row: &Row) -> bool
    requires { id.0 < length (C.classes classes.now) }
    ensures { result ≡ is_as_asked (row_of row.now) (slice_get (C.classes classes.now) id.0) }
{
    has_sup(classes, id, row.sup)
        && has_interfaces(classes, id, row.interfaces)
        && is_interface(classes.flags(id)) == row.is_interface
        && !has_initializer(classes, id)
        && has_wanted(classes, id, row.field)
}

fn has_sup<C: Classes>(classes: &C, id: ClassId, wanted: Option<&str>) -> bool
    requires { id.0 < length (C.classes classes.now) }
    ensures { result ≡ is_same_sup (known.sup_at (C.classes classes.now) id.0) (option_map (λ s. s.now) wanted.entry) }
{
    match classes.super_of(id) {
        None => wanted.is_none(),
        Some(sup) => is_class_named(classes, sup, wanted),
    }
}

fn is_class_named<C: Classes>(classes: &C, id: ClassId, wanted: Option<&str>) -> bool
    requires { id.0 < length (C.classes classes.now) }
    ensures { result ≡ is_same_sup (slice_get (names_of (C.classes classes.now)) id.0) (option_map (λ s. s.now) wanted.entry) }
{
    match wanted {
        None => false,
        Some(name) => classes.name(id) == name.as_bytes(),
    }
}

fn has_interfaces<C: Classes>(classes: &C, id: ClassId, names: &[&str]) -> bool
    requires { id.0 < length (C.classes classes.now) }
    ensures { result ≡ are_same (known.interfaces_at (C.classes classes.now) id.0) (map (λ s. s.now) names.now) }
{
    let _count = classes.count();
    let mut k = 0;
    for name in names {
        if !is_interface_named(classes, id, k, name) {
            return false;
        }
        k += 1;
    }
    is_past_interfaces(classes, id, k)
}

fn is_past_interfaces<C: Classes>(classes: &C, id: ClassId, k: u32) -> bool
    requires { id.0 < length (C.classes classes.now) }
    ensures { result ≡ is_none (slice_get (known.interfaces_at (C.classes classes.now) id.0) k) }
{
    match classes.interface(id, k) {
        None => true,
        Some(_) => false,
    }
}

fn is_interface_named<C: Classes>(classes: &C, id: ClassId, k: u32, name: &str) -> bool
    requires { id.0 < length (C.classes classes.now) }
    ensures { result ≡ is_same_sup (slice_get (known.interfaces_at (C.classes classes.now) id.0) k) (Some name.now) }
{
    match classes.interface(id, k) {
        None => false,
        Some(interface) => classes.name(interface) == name.as_bytes(),
    }
}

fn has_initializer<C: Classes>(classes: &C, id: ClassId) -> bool
    requires { id.0 < length (C.classes classes.now) }
    ensures { result ≡ list_any is_initializer (methods_at (C.classes classes.now) id.0) }
{
    let _count = classes.count();
    for k in 0..MAX_MEMBERS {
        match is_initializer_at(classes, id, k) {
            None => return false,
            Some(true) => return true,
            Some(false) => {}
        }
    }
    false
}

fn is_initializer_at<C: Classes>(classes: &C, id: ClassId, k: u32) -> Option<bool>
    requires { id.0 < length (C.classes classes.now) }
    ensures { result ≡ option_map is_initializer (slice_get (methods_at (C.classes classes.now) id.0) k) }
{
    match classes.method(id, k) {
        None => None,
        Some(method) => Some(method.name == b"<clinit>".as_slice()),
    }
}

fn has_wanted<C: Classes>(classes: &C, id: ClassId, wanted: Option<WantedField>) -> bool
    requires { id.0 < length (C.classes classes.now) }
    ensures { result ≡ has_field (option_map wanted_of wanted) (fields_at (C.classes classes.now) id.0) }
{
    match wanted {
        None => true,
        Some(field) => has_instance_field(classes, id, field),
    }
}

fn has_instance_field<C: Classes>(classes: &C, id: ClassId, wanted: WantedField) -> bool
    requires { id.0 < length (C.classes classes.now) }
    ensures { result ≡ list_any (is_wanted (wanted_of wanted)) (fields_at (C.classes classes.now) id.0) }
{
    let _count = classes.count();
    for k in 0..MAX_MEMBERS {
        match is_wanted_at(classes, id, k, wanted) {
            None => return false,
            Some(true) => return true,
            Some(false) => {}
        }
    }
    false
}

fn is_wanted_at<C: Classes>(classes: &C, id: ClassId, k: u32, wanted: WantedField) -> Option<bool>
    requires { id.0 < length (C.classes classes.now) }
    ensures { result ≡ option_map (is_wanted (wanted_of wanted)) (slice_get (fields_at (C.classes classes.now) id.0) k) }
{
    match classes.field(id, k) {
        None => None,
        Some(field) => Some(is_wanted_field(field.name, field.desc, field.flags, wanted)),
    }
}

fn is_wanted_field(name: &[u8], desc: &[u8], flags: u16, wanted: WantedField) -> bool
    ensures { result ≡ (bytes_eq name.now wanted.name.now && bytes_eq desc.now wanted.desc.now && not (is_static flags)) }
{
    name == wanted.name.as_bytes() && desc == wanted.desc.as_bytes() && !is_static(flags)
}
