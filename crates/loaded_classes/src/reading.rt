//! What a class file says of its fields, its methods and its constant pool, borrowed from its tree.
ghost use Rattle.std.specs.Prelude.{◌≡◌, ◌<◌, ◌^◌, List, length, map, slice_get};
ghost use Rattle.std.specs.Option.{option_map, IfSome};
ghost use Rattle.std.specs.List.{AllByRecursion};
ghost use Rattle.class_tree.specs.declared.constant_pool.PoolEntry.{PoolEntry};
ghost use Rattle.class_record.specs.Facts.{pool_shown, field_shown, method_shown, method_told, entry_or_unusable, handlers_in};
ghost use Rattle.class_record.specs.Records as records;
ghost use Rattle.class_record.specs.Records.{pool_name, method_record};
ghost use Rattle.class_record.specs.Trees.{bytes_of};
ghost use Rattle.loaded_classes.specs.Slots.{with_slot, rows_of, IsShortCode};

use class_record::{FieldFact, MethodFact, PoolFact};
use class_tree::{ClassTree, CodeTree, FieldTree, Handler, MethodTree, Pool, PoolEntry};
use sqlite_items::at;

// The text of the Utf8 at an index, which is there in each class file.
fn text_at(pool: &Pool, index: u16) -> &[u8]
    ensures { result.now ≡ records.text_at pool.now index }
{
    match pool.text(index) {
        Some(text) => text,
        None => &[],
    }
}

// ---- the constant pool

fn pool_fact<'a>(pool: &'a Pool, entry: &'a PoolEntry) -> PoolFact<'a>
    ensures { pool_shown result ≡ pool_name pool.now entry.now }
{
    match entry {
        PoolEntry::Unusable => PoolFact::Unusable,
        PoolEntry::Utf8(text) => PoolFact::Utf8(text.as_slice()),
        PoolEntry::Integer(bits) => PoolFact::Integer(*bits),
        PoolEntry::Float(bits) => PoolFact::Float(*bits),
        PoolEntry::Long(bits) => PoolFact::Long(*bits),
        PoolEntry::Double(bits) => PoolFact::Double(*bits),
        PoolEntry::Class(name) => PoolFact::Class(text_at(pool, *name)),
        PoolEntry::Str(text) => PoolFact::Str(text_at(pool, *text)),
        PoolEntry::Fieldref(class, member) => PoolFact::Fieldref(*class, *member),
        PoolEntry::Methodref(class, member) => PoolFact::Methodref(*class, *member),
        PoolEntry::InterfaceMethodref(class, member) => {
            PoolFact::InterfaceMethodref(*class, *member)
        }
        PoolEntry::NameAndType(name, desc) => {
            PoolFact::NameAndType(text_at(pool, *name), text_at(pool, *desc))
        }
        PoolEntry::MethodHandle(kind, member) => PoolFact::MethodHandle(*kind, *member),
        PoolEntry::MethodType(desc) => PoolFact::MethodType(text_at(pool, *desc)),
        PoolEntry::InvokeDynamic(bootstrap, member) => PoolFact::InvokeDynamic(*bootstrap, *member),
    }
}

pub(crate) fn pool_at(pool: &Pool, index: u16) -> PoolFact<'_>
    ensures { pool_shown result ≡ entry_or_unusable (slice_get (map (pool_name pool.now) pool.now) index) }
{
    match at(pool.entries(), usize::from(index)) {
        Some(entry) => pool_fact(pool, entry),
        None => PoolFact::Unusable,
    }
}

// ---- fields

fn field_fact<'a>(pool: &'a Pool, field: &FieldTree, slot: u32) -> FieldFact<'a>
    ensures { field_shown result ≡ records.field_record pool.now slot field.now }
{
    FieldFact {
        name: text_at(pool, field.name),
        desc: text_at(pool, field.desc),
        flags: field.flags,
        slot,
        value: field.value,
    }
}

// The field with this number, where the slots of the fields stand beside them.
pub(crate) fn field_at<'a>(
    pool: &'a Pool,
    fields: &[FieldTree],
    slots: &[u32],
    k: usize,
) -> Option<FieldFact<'a>>
    ensures { option_map field_shown result ≡ with_slot pool.now (slice_get slots.now k) (slice_get fields.now k) }
{
    let Some(slot) = at(slots, k) else {
        return None;
    };
    match at(fields, k) {
        Some(field) => Some(field_fact(pool, field, *slot)),
        None => None,
    }
}

// ---- methods

fn method_fact<'a>(pool: &'a Pool, method: &'a MethodTree) -> MethodFact<'a>
    ensures method { method_shown result ≡ method_told (method_record pool.now method.now) }
    ensures code { result.code.now ≡ bytes_of method.now.code }
{
    match &method.code {
        Some(code) => MethodFact {
            name: text_at(pool, method.name),
            desc: text_at(pool, method.desc),
            flags: method.flags,
            stack: code.stack,
            locals: code.locals,
            code: code.bytes.as_slice(),
        },
        None => MethodFact {
            name: text_at(pool, method.name),
            desc: text_at(pool, method.desc),
            flags: method.flags,
            stack: 0,
            locals: 0,
            code: &[],
        },
    }
}

pub(crate) fn method_at<'a>(
    pool: &'a Pool,
    methods: &'a [MethodTree],
    k: usize,
) -> Option<MethodFact<'a>>
    requires { AllByRecursion IsShortCode methods.now }
    ensures method { option_map method_shown result ≡ option_map method_told (slice_get (map (method_record pool.now) methods.now) k) }
    ensures short { IfSome result (λ m. length m.code.now < 2 ^ 16) }
{
    match at(methods, k) {
        Some(method) => Some(method_fact(pool, method)),
        None => None,
    }
}

// A row of the exception table of a method, where it has code.
fn row_at(code: &Option<CodeTree>, k: usize) -> Option<Handler>
    ensures { result ≡ slice_get (rows_of code.now) k }
{
    match code {
        Some(code) => at(code.handlers.as_slice(), k).copied(),
        None => None,
    }
}

pub(crate) fn handler_at(methods: &[MethodTree], m: usize, k: usize) -> Option<Handler>
    ensures { (pool : List PoolEntry) → result ≡ slice_get (handlers_in (slice_get (map (method_record pool) methods.now) m)) k }
{
    match at(methods, m) {
        Some(method) => row_at(&method.code, k),
        None => None,
    }
}
