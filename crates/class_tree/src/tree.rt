//! A class file as a tree (JVMS 4.1, 4.5 to 4.7). A name, a descriptor or a class is an index of its constant pool.
ghost use Rattle.std.specs.Prelude.{◌≡◌};
ghost use Rattle.class_tree.specs.ClassNames.{own_name};

use crate::constant_pool::Pool;
use sqlite_items::Items;

/// A class or an interface (JVMS 4.1).
#[derive(Drop)]
pub struct ClassTree {
    /// The major version.
    pub major: u16,
    /// The access flags, as written.
    pub flags: u16,
    pub pool: Pool,
    /// The Class of the class itself.
    pub this: u16,
    /// The Class of its superclass, or 0 for none.
    pub sup: u16,
    /// The Classes of its direct superinterfaces.
    pub interfaces: Items<u16>,
    pub fields: Items<FieldTree>,
    pub methods: Items<MethodTree>,
}

impl ClassTree {
    /// The name that the class has inside, as `this_class` names it (JVMS 4.1). Empty where no Class with a text stands
    /// there, which is so in no class file.
    pub fn own_name(&self) -> &[u8]
        ensures { result.now ≡ own_name self.now }
    {
        match self.pool.class_name(self.this) {
            Some(name) => name,
            None => &[],
        }
    }
}

/// A field (JVMS 4.5).
#[derive(Clone, Copy, Debug, PartialEq, Eq)]
pub struct FieldTree {
    /// The access flags, as written.
    pub flags: u16,
    pub name: u16,
    pub desc: u16,
    /// The index of the constant that its ConstantValue names, or 0 for none (JVMS 4.7.2).
    pub value: u16,
}

/// A method (JVMS 4.6).
#[derive(Debug, Drop)]
pub struct MethodTree {
    /// The access flags, as written.
    pub flags: u16,
    pub name: u16,
    pub desc: u16,
    /// Its code, where it has any.
    pub code: Option<CodeTree>,
}

/// The code of a method (JVMS 4.7.3).
#[derive(Debug, Drop)]
pub struct CodeTree {
    /// `max_stack`: the greatest depth of the operand stack, a long or a double counting two.
    pub stack: u16,
    /// `max_locals`: the number of local variables, a long or a double taking two.
    pub locals: u16,
    /// The instructions.
    pub bytes: Items<u8>,
    /// The rows of the exception table, in their order.
    pub handlers: Items<Handler>,
    /// The content of its StackMapTable, where it has one (JVMS 4.7.4).
    pub map: Option<Items<u8>>,
}

/// A row of an exception table (JVMS 4.7.3). The first three are places in the code, in bytes.
#[derive(Clone, Copy, Debug, PartialEq, Eq)]
pub struct Handler {
    /// The first place that it covers.
    pub start: u16,
    /// The place behind the last one.
    pub end: u16,
    /// The place that it goes on at.
    pub handler: u16,
    /// The Class that it catches, or 0 for everything.
    pub catch: u16,
}
