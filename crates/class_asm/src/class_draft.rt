//! A class as far as its lines were read.
ghost use Rattle.std.specs.Prelude.{◌≡◌, Some};
ghost use Rattle.asm_text.specs.Outcome.{Gives, Yields, Does};
ghost use Rattle.class_asm.specs.Drafts as spec;

use crate::needs::{class_index, constant_index, utf8_index};
use asm_text::{ClassLine, Constant, FieldLine, LineFault};
use class_tree::{ClassTree, FieldTree, MethodTree};
use pool_builder::PoolBuilder;
use sqlite_items::Items;
use std::alloc::Global;

/// A class with the members so far.
#[derive(Drop)]
pub struct ClassDraft {
    pub major: u16,
    pub flags: u16,
    pub pool: PoolBuilder,
    pub this: u16,
    pub sup: u16,
    pub interfaces: Items<u16>,
    pub fields: Items<FieldTree>,
    pub methods: Items<MethodTree>,
}

/// Lets go of a class, and hands on a fault.
pub fn leave_class(_class: ClassDraft, fault: LineFault) -> LineFault
    ensures { result ≡ fault }
{
    fault
}

/// The index of a class, or 0 where none is named.
pub fn optional_class(
    alloc: Global,
    name: &Option<Items<u8>>,
    pool: &mut PoolBuilder,
) -> Result<u16, LineFault>
    ensures { Gives (λ i. i) result pool.new (spec.optional_class_needed name.now pool.old) }
{
    match name {
        Some(name) => class_index(alloc, name.as_slice(), pool),
        None => Ok(0),
    }
}

#[tactic(auto, unfolding(crate::specs::Drafts::classes_needed))]
fn classes(
    alloc: Global,
    names: &[Items<u8>],
    pool: &mut PoolBuilder,
) -> Result<Items<u16>, LineFault>
    ensures { Gives (λ is. is) result pool.new (spec.classes_needed names.now pool.old) }
{
    let mut indices = Items::new(alloc);
    let mut rest = names;
    loop {
        let [name, more @ ..] = rest else {
            return Ok(indices);
        };
        let index = class_index(alloc, name.as_slice(), pool)?;
        indices.push(index)?;
        rest = more;
    }
}

// The indices of the names of a class line.
fn class_names(
    alloc: Global,
    line: &ClassLine,
    pool: &mut PoolBuilder,
) -> Result<(u16, u16, Items<u16>), LineFault>
    ensures { Yields (spec.class_named line.now pool.new) result (spec.class_in line.now pool.old) }
{
    if line.interfaces.len() > 65535 {
        return Err(LineFault::Outside);
    }
    let this = class_index(alloc, line.name.as_slice(), pool)?;
    let sup = optional_class(alloc, &line.sup, pool)?;
    let interfaces = classes(alloc, line.interfaces.as_slice(), pool)?;
    Ok((this, sup, interfaces))
}

/// The class of a class line, of version 52. `Outside` comes where the pool has no room for what it needs, or it has more
/// than 65,535 superinterfaces.
#[tactic(auto, unfolding(crate::specs::Drafts::class_begun))]
pub fn begin_class(alloc: Global, line: &ClassLine) -> Result<ClassDraft, LineFault>
    ensures { Yields (λ c. c) result (spec.class_begun line.now) }
{
    let mut pool = PoolBuilder::new(alloc)?;
    let (this, sup, interfaces) = class_names(alloc, line, &mut pool)?;
    Ok(ClassDraft {
        major: 52,
        flags: line.flags,
        pool,
        this,
        sup,
        interfaces,
        fields: Items::new(alloc),
        methods: Items::new(alloc),
    })
}

// The index of the value of a field, or 0 for none.
#[tactic(auto, unfolding(crate::specs::Drafts::value_needed))]
fn value(alloc: Global, value: &Option<Constant>, pool: &mut PoolBuilder) -> Result<u16, LineFault>
    ensures { Gives (λ i. i) result pool.new (spec.value_needed value.now pool.old) }
{
    match value {
        Some(value) => {
            utf8_index(alloc, b"ConstantValue", pool)?;
            constant_index(alloc, value, pool)
        }
        None => Ok(0),
    }
}

impl ClassDraft {
    /// Adds the field of a field line. `Outside` comes where the pool has no room for what it needs, or the class has 65,535
    /// fields.
    #[tactic(auto, unfolding(crate::specs::Drafts::field_added))]
    pub fn add_field(&mut self, alloc: Global, line: &FieldLine) -> Result<(), LineFault>
        ensures { Does result self.new (spec.field_added line.now self.old) }
    {
        if self.fields.len() >= 65535 {
            return Err(LineFault::Outside);
        }
        let name = utf8_index(alloc, line.name.as_slice(), &mut self.pool)?;
        let desc = utf8_index(alloc, line.desc.as_slice(), &mut self.pool)?;
        let value = value(alloc, &line.value, &mut self.pool)?;
        self.fields.push(FieldTree {
            flags: line.flags,
            name,
            desc,
            value,
        })?;
        Ok(())
    }

    /// The tree of the class with the members so far.
    pub fn into_tree(self) -> ClassTree
        ensures { result ≡ spec.tree_of self }
    {
        ClassTree {
            major: self.major,
            flags: self.flags,
            pool: self.pool.into_pool(),
            this: self.this,
            sup: self.sup,
            interfaces: self.interfaces,
            fields: self.fields,
            methods: self.methods,
        }
    }
}
