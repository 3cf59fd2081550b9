//! Names that are looked up.

ghost use Rattle.std.specs.Prelude.{◌≡◌, [], OnOk, OnErr, IfOk, not};
ghost use Rattle.std.specs.List.{list_any};
ghost use Rattle.std.specs.Str.{bytes_eq};
ghost use Rattle.vd_forest.specs.Texts.{with_text};

use indexmap::IndexSet;
use std::alloc::{AllocError, Global};
use std::marker::Model;

/// Names, each once, in the order in which they came.
#[derive(Drop)]
pub struct NameSet {
    alloc: Global,
    set: IndexSet<Vec<u8>>,
}

impl Model for NameSet {
    ghost use Rattle.std.specs.Prelude.{ℕ, List, map};
    ghost use Rattle.std.specs.Coded.{coded_list, coded_ℕ};

    ghost Value = { List (List ℕ) };

    ghost coded = { coded_list (coded_list coded_ℕ) };

    ghost view = { λ a. map (λ name. name.items) a.set.keys };
}

impl NameSet {
    /// No name.
    pub fn new(alloc: Global) -> NameSet
        ensures { result ≡ [] }
    {
        NameSet {
            alloc,
            set: IndexSet::new(alloc),
        }
    }

    /// Whether the name is there.
    pub fn contains(&self, name: &[u8]) -> bool
        ensures { result ≡ list_any (bytes_eq name.now) self.now }
    {
        self.set.contains(name)
    }

    /// Puts the name in, and says whether it is new.
    pub fn insert(&mut self, name: &[u8]) -> Result<bool, AllocError>
        ensures is_new { IfOk result (λ is_new. is_new ≡ not (list_any (bytes_eq name.now) self.old)) }
        ensures names { OnOk result (self.new ≡ with_text self.old name.now) }
        ensures unchanged { OnErr result (self.new ≡ self.old) }
    {
        if self.contains(name) {
            return Ok(false);
        }
        let owned = Vec::from_slice(self.alloc, name)?;
        self.set.insert(owned)?;
        Ok(true)
    }
}
