//! What a method is typed in.
ghost use Rattle.std.specs.Prelude.{◌≡◌, IfOk};
ghost use Rattle.class_tree.specs.ClassNames.{or_empty};
ghost use Rattle.class_tree.specs.WellFormed.{text_of};
ghost use Rattle.verify_rules.specs.Env as envs;

use class_tree::{ClassTree, CodeTree, MethodTree, Pool, is_init};
use jsa_names::{MethodType, method_type};
use loader_rules::Loader;
use sqlite_items::Items;
use std::alloc::{AllocError, Global};
use std::marker::Model;
use verify_rules::{Superclass, VType};

/// A method with its code, in its class.
#[derive(Drop)]
pub(crate) struct Env<'a> {
    pub tree: &'a ClassTree,
    /// The loader that defines the class.
    pub loader: Loader,
    /// The superclasses, from the direct one up.
    pub supers: &'a [Superclass<'a>],
    pub method: &'a MethodTree,
    pub code: &'a CodeTree,
}

impl<'a> Model for Env<'a> {
    ghost use Rattle.verify_rules.specs.Env.{Env};

    ghost Value = { Env };

    ghost view = { λ e. record { tree = e.tree.now; loader = e.loader; supers = e.supers.now; method = e.method.now; code = e.code.now } };
}

// The text of the Utf8 at an index, or none of its bytes.
fn text_or_empty(pool: &Pool, index: u16) -> &[u8]
    ensures { result.now ≡ or_empty (text_of pool.now index) }
{
    match pool.text(index) {
        Some(text) => text,
        None => &[],
    }
}

impl<'a> Env<'a> {
    /// The constant pool of the class.
    pub(crate) fn pool(&self) -> &'a Pool
        ensures { result.now ≡ envs.pool_of self.now }
    {
        &self.tree.pool
    }

    /// How many units the operand stack has room for.
    pub(crate) fn room(&self) -> u16
        ensures { result ≡ self.now.code.stack }
    {
        self.code.stack
    }

    /// The name of the class.
    pub(crate) fn this_name(&self) -> &'a [u8]
        ensures { result.now ≡ envs.this_name self.now }
    {
        match self.tree.pool.class_name(self.tree.this) {
            Some(name) => name,
            None => &[],
        }
    }

    /// The class as a type.
    pub(crate) fn this_type(&self, alloc: Global) -> Result<VType, AllocError>
        ensures { IfOk result (λ t. t ≡ envs.this_type self.now) }
    {
        Ok(VType::Object(Items::from_slice(alloc, self.this_name())?))
    }

    /// Whether the method is `<init>`.
    pub(crate) fn is_constructor(&self) -> bool
        ensures { result ≡ envs.is_constructor self.now }
    {
        is_init(text_or_empty(self.pool(), self.method.name))
    }

    /// The type of the method. `None` exactly where its descriptor is none.
    #[tactic(auto, unfolding(verify_rules::specs::Env::own_type))]
    pub(crate) fn own_type(&self) -> Option<MethodType<'a>>
        ensures { result ≡ envs.own_type self.now }
    {
        let Some(text) = self.pool().text(self.method.desc) else {
            return None;
        };
        method_type(text)
    }
}
