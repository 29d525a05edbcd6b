//! The parts of a class file as they are written (JVMS 4.1, 4.5 to 4.7). They borrow their bytes.
use class_tree::{Handler, Pool};
use sqlite_items::Items;
use std::marker::Model;

/// An attribute (JVMS 4.7).
#[derive(Drop)]
pub(crate) struct Attribute<'a> {
    /// The index of its name.
    pub(crate) name: u16,
    /// The bytes behind its length.
    pub(crate) content: &'a [u8],
}

impl<'a> Model for Attribute<'a> {
    ghost use Rattle.class_tree.specs.ClassFiles.{Attribute as AttributePart};

    ghost Value = { AttributePart };

    ghost view = { λ a. record { name = a.name; content = a.content.now } };
}

/// A field or a method (JVMS 4.5, 4.6).
#[derive(Drop)]
pub(crate) struct Member<'a> {
    pub(crate) flags: u16,
    pub(crate) name: u16,
    pub(crate) desc: u16,
    pub(crate) attributes: Items<Attribute<'a>>,
}

impl<'a> Model for Member<'a> {
    ghost use Rattle.class_tree.specs.ClassFiles.{Member as MemberPart};

    ghost Value = { MemberPart };

    ghost view = { λ m. record { flags = m.flags; name = m.name; desc = m.desc; attributes = m.attributes } };
}

/// What stands behind the version (JVMS 4.1).
#[derive(Drop)]
pub(crate) struct ClassParts<'a> {
    pub(crate) pool: Pool,
    pub(crate) flags: u16,
    pub(crate) this: u16,
    pub(crate) sup: u16,
    pub(crate) interfaces: Items<u16>,
    pub(crate) fields: Items<Member<'a>>,
    pub(crate) methods: Items<Member<'a>>,
    pub(crate) attributes: Items<Attribute<'a>>,
}

impl<'a> Model for ClassParts<'a> {
    ghost use Rattle.class_tree.specs.ClassFiles.{ClassParts as PartsOfClass};

    ghost Value = { PartsOfClass };

    ghost view = { λ p. record { pool = p.pool; flags = p.flags; this = p.this; sup = p.sup; interfaces = p.interfaces; fields = p.fields; methods = p.methods; attributes = p.attributes } };
}

/// The content of a Code attribute (JVMS 4.7.3).
#[derive(Drop)]
pub(crate) struct CodeParts<'a> {
    pub(crate) stack: u16,
    pub(crate) locals: u16,
    pub(crate) bytes: &'a [u8],
    pub(crate) handlers: Items<Handler>,
    pub(crate) attributes: Items<Attribute<'a>>,
}

impl<'a> Model for CodeParts<'a> {
    ghost use Rattle.class_tree.specs.ClassFiles.{CodeParts as PartsOfCode};

    ghost Value = { PartsOfCode };

    ghost view = { λ c. record { stack = c.stack; locals = c.locals; bytes = c.bytes.now; handlers = c.handlers; attributes = c.attributes } };
}
