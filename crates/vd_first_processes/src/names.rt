//! Names with their numbers.

ghost use Rattle.std.specs.Prelude.{◌≡◌, ◌<◌, [], OnOk, IfOk, not, length};
ghost use Rattle.std.specs.List.{list_any};
ghost use Rattle.std.specs.Str.{bytes_eq};
ghost use Rattle.vd_forest.specs.Texts.{text_at, with_text};
ghost use Rattle.vd_first_elaboration.specs.Processes.{number_of};

use indexmap::IndexSet;
use std::alloc::{AllocError, Global};
use std::marker::Model;

/// Names, each once, in the order in which they came, and each with its place in it.
#[derive(Drop)]
pub struct Names {
    alloc: Global,
    set: IndexSet<Vec<u8>>,
}

impl Model for Names {
    ghost use Rattle.std.specs.Prelude.{ℕ, List, map};
    ghost use Rattle.std.specs.Coded.{coded_list, coded_ℕ};

    ghost Value = { List (List ℕ) };

    ghost coded = { coded_list (coded_list coded_ℕ) };

    ghost view = { λ a. map (λ name. name.items) a.set.keys };
}

impl Names {
    /// No name.
    pub fn new(alloc: Global) -> Names
        ensures { result ≡ [] }
    {
        Names {
            alloc,
            set: IndexSet::new(alloc),
        }
    }

    /// How many names there are.
    pub fn len(&self) -> usize
        ensures { result ≡ length self.now }
    {
        self.set.len()
    }

    /// The name with a number.
    pub fn get(&self, number: usize) -> &[u8]
        requires { number < length self.now }
        ensures { result.now ≡ text_at self.now number }
    {
        self.set.as_slice()[number].as_slice()
    }

    /// The number of a name, or how many names there are where it isn't there.
    pub fn number(&self, name: &[u8]) -> usize
        ensures { result ≡ number_of self.now name.now }
    {
        match self.set.get_index_of(name) {
            Some(index) => index,
            None => self.set.len(),
        }
    }

    /// Puts the name in, and says whether it is new.
    pub fn insert(&mut self, name: &[u8]) -> Result<bool, AllocError>
        ensures is_new { IfOk result (λ is_new. is_new ≡ not (list_any (bytes_eq name.now) self.old)) }
        ensures names { OnOk result (self.new ≡ with_text self.old name.now) }
    {
        if self.set.contains(name) {
            return Ok(false);
        }
        let owned = Vec::from_slice(self.alloc, name)?;
        self.set.insert(owned)?;
        Ok(true)
    }
}
