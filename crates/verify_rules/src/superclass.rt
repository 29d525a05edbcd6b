//! What the verifier looks at in the superclasses of a class.
use loader_rules::Loader;
use sqlite_items::Items;
use std::marker::Model;

/// A field or a method that a superclass declares (JVMS 4.5, 4.6).
///
/// Contracts see its texts as they are.
#[derive(Debug, Drop)]
pub struct Member<'a> {
    pub name: &'a [u8],
    pub desc: &'a [u8],
    /// The access flags, as written.
    pub flags: u16,
}

impl<'a> Model for Member<'a> {
    ghost use Rattle.verify_rules.specs.Superclasses.{Member as DeclaredMember};

    ghost Value = { DeclaredMember };

    ghost view = { λ m. record { name = m.name.now; desc = m.desc.now; flags = m.flags } };
}

/// A superclass of the class that is verified (JVMS 4.10.1.1). Its texts are borrowed from where the class is held.
///
/// Contracts see its texts and its members as they are.
#[derive(Debug, Drop)]
pub struct Superclass<'a> {
    /// Its internal name (JVMS 4.2.1).
    pub name: &'a [u8],
    /// The loader that defines it.
    pub loader: Loader,
    /// The access flags, as written (JVMS 4.1).
    pub flags: u16,
    /// The fields that it declares, in their order.
    pub fields: Items<Member<'a>>,
    /// The methods that it declares, in their order.
    pub methods: Items<Member<'a>>,
}

impl<'a> Model for Superclass<'a> {
    ghost use Rattle.verify_rules.specs.Superclasses.{Superclass as DeclaredSuperclass};

    ghost Value = { DeclaredSuperclass };

    ghost view = { λ c. record { name = c.name.now; loader = c.loader; flags = c.flags; fields = c.fields; methods = c.methods } };
}
