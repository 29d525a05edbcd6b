//! A tree with the texts of its constant pool tested.
ghost use Rattle.std.specs.Prelude.{◌≡◌, IfOk};

use crate::tested_pool::TestedPool;
use crate::tree::ClassTree;
use std::alloc::{AllocError, Global};
use std::marker::Model;

/// A tree with the texts of its constant pool tested. Contracts see it as the tree.
#[derive(Drop)]
pub(crate) struct TestedTree<'a> {
    tree: &'a ClassTree,
    pool: TestedPool<'a>,
}

impl<'a> Model for TestedTree<'a> {
    ghost use Rattle.std.specs.Prelude.{◌≡◌};
    ghost use Rattle.class_tree.specs.declared.tree.ClassTree.{ClassTree};

    ghost Value = { ClassTree };

    ghost view = { λ t. t.tree.now };

    ghost invariant = { λ t. t.pool ≡ t.tree.now.pool };
}

impl<'a> TestedTree<'a> {
    pub(crate) fn new(alloc: Global, tree: &'a ClassTree) -> Result<TestedTree<'a>, AllocError>
        ensures { IfOk result (λ tested. tested ≡ tree.now) }
    {
        let pool = TestedPool::new(alloc, tree.pool.entries())?;
        Ok(TestedTree { tree, pool })
    }

    pub(crate) fn tree(&self) -> &'a ClassTree
        ensures { result.now ≡ self.now }
    {
        self.tree
    }

    pub(crate) fn pool(&self) -> &TestedPool<'a>
        ensures { result.now ≡ self.now.pool }
    {
        &self.pool
    }
}
