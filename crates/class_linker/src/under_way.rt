//! The classes whose loading is under way.
ghost use Rattle.std.specs.Prelude.{◌≡◌, ◌<◌, ◌^◌, ◌∷◌, [], Some, None, false, length, IfOk, OnErr};
ghost use Rattle.class_record.specs.Loading.{is_among};
ghost use Rattle.class_linker.specs.Kept.{advanced, names_under};
ghost use Rattle.class_linker.specs.Paths.{IsTop, HasBaseLeft, without_top};

use class_record::Base;
use indexmap::IndexSet;
use loader_rules::Loader;
use sqlite_items::Items;
use std::alloc::{AllocError, Global};
use std::marker::Model;

/// A class whose loading is under way.
#[derive(Debug, Drop)]
pub(crate) struct Frame {
    pub(crate) name: Items<u8>,
    /// The place of its class file among those that were read.
    pub(crate) place: usize,
    /// The loader that defines it.
    pub(crate) loader: Loader,
    /// The classes that it is based on: its superclass, then its direct superinterfaces in order.
    pub(crate) bases: Items<Base>,
    /// How many of these are loaded and tested.
    pub(crate) done: usize,
}

/// The classes whose loading is under way: each waits for the next one further in. No name stands twice.
///
/// Contracts see them as their list, the innermost first.
#[derive(Debug, Drop)]
pub(crate) struct UnderWay {
    alloc: Global,
    // The outermost first.
    frames: Vec<Frame>,
    names: IndexSet<Vec<u8>>,
}

impl Model for UnderWay {
    ghost use Rattle.std.specs.Prelude.{List, reverse};
    ghost use Rattle.class_linker.specs.declared.under_way.Frame.{Frame};
    ghost use Rattle.class_linker.specs.Paths.{KnowsNames};

    ghost Value = { List Frame };

    ghost view = { λ u. reverse u.frames.items };

    ghost invariant = { λ u. KnowsNames u.names u.frames.items };
}

impl UnderWay {
    /// No class.
    pub(crate) fn new(alloc: Global) -> UnderWay
        ensures { result ≡ [] }
    {
        UnderWay {
            alloc,
            frames: Vec::new(alloc),
            names: IndexSet::new(alloc),
        }
    }

    /// Whether the loading of this name is under way.
    pub(crate) fn holds(&self, name: &[u8]) -> bool
        ensures { result ≡ is_among name.now (names_under self.now) }
    {
        self.names.contains(name)
    }

    /// The innermost class, which no other one that is under way waits for.
    pub(crate) fn top(&self) -> Option<&Frame>
        ensures top { IsTop self.now result }
        ensures few { length self.now < 2 ^ 64 }
    {
        self.frames.last()
    }

    /// The loading of one class more is under way.
    pub(crate) fn push(&mut self, frame: Frame) -> Result<(), AllocError>
        requires { is_among frame.name (names_under self.old) ≡ false }
        ensures ok { IfOk result (λ _. self.new ≡ frame ∷ self.old) }
        ensures err { OnErr result (self.new ≡ self.old) }
    {
        let name = Vec::from_slice(self.alloc, frame.name.as_slice())?;
        self.frames.reserve(1)?;
        self.names.insert(name)?;
        match self.frames.push(frame) {
            Ok(()) => Ok(()),
            Err(_) => unreachable!(),
        }
    }

    /// The next base of the innermost class is loaded and tested.
    pub(crate) fn advance(&mut self)
        requires { HasBaseLeft self.old }
        ensures { self.new ≡ advanced self.old }
    {
        if let Some(top) = self.frames.last_mut() {
            top.done += 1;
        }
    }

    /// The innermost class isn't under way any more.
    pub(crate) fn pop(&mut self)
        ensures { self.new ≡ without_top self.old }
    {
        let _name = self.names.pop();
        let _frame = self.frames.pop();
    }
}
