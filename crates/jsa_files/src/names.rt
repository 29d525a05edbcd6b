//! A list of names.
ghost use Rattle.std.specs.Prelude.{◌≡◌};

use std::alloc::{AllocError, Global};
use std::marker::Model;

/// A list of names, which contracts see as the list of their bytes.
#[derive(Drop)]
pub struct Names {
    texts: Vec<String>,
    alloc: Global,
}

impl Model for Names {
    ghost use Rattle.std.specs.Prelude.{ℕ, List, length, ◌≤◌, ◌^◌};
    ghost use Rattle.std.specs.Coded.{coded_list, coded_ℕ};
    ghost use Rattle.jsa_files.specs.Memory.{paths_of};

    ghost Value = { List (List ℕ) };

    ghost coded = { coded_list (coded_list coded_ℕ) };

    ghost view = { λ n. paths_of n.texts.items };

    ghost invariant = { λ n. length (paths_of n.texts.items) ≤ 2 ^ 31 };
}

impl Names {
    ghost use Rattle.std.specs.Prelude.{◌≡◌, ◌<◌, ◌^◌, ◌++◌, ◌∷◌, [], length, Some, OnOk, OnErr, slice_get};

    /// The list without names.
    pub fn new(alloc: Global) -> Names
        ensures { result ≡ [] }
    {
        Names {
            texts: Vec::new(alloc),
            alloc,
        }
    }

    /// Appends the name to a list that has fewer than 2^31. Where memory runs out nothing has changed.
    pub fn push(&mut self, text: &str) -> Result<(), AllocError>
        requires { length self.old < 2 ^ 31 }
        ensures ok { OnOk result (self.new ≡ self.old ++ text.now ∷ []) }
        ensures err { OnErr result (self.new ≡ self.old) }
    {
        let name = String::from_str(self.alloc, text)?;
        self.texts.push(name)?;
        Ok(())
    }

    /// How many names there are, which is at most 2^31.
    pub fn len(&self) -> u32
        ensures { result ≡ length self.now }
    {
        self.texts.len() as u32
    }

    /// The name at this place, counted from 0.
    pub fn at(&self, k: u32) -> &str
        requires { k < length self.now }
        ensures { slice_get self.now k ≡ Some result.now }
    {
        self.texts[k as usize].as_str()
    }
}
