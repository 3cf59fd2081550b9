//! Generics that have an element already.

ghost use Rattle.std.specs.Prelude.{◌≡◌, ◌∷◌, [], IfOk};
ghost use Rattle.vd_naming.specs.Associations.{is_among_numbers};

use std::alloc::{AllocError, Global};
use std::collections::HashMap;
use std::marker::Model;
use vd_declarations::DeclId;

/// Numbers, each of which was given once, with a table of them. Contracts see the last one first.
#[derive(Drop)]
pub struct Given {
    numbers: Vec<DeclId>,
    table: HashMap<u32, bool>,
}

impl Model for Given {
    ghost use Rattle.std.specs.Prelude.{◌≡◌, ℕ, List, false, nat_eq, reverse};
    ghost use Rattle.std.specs.Option.{unwrap_or};
    ghost use Rattle.std.specs.HashMap.{get};
    ghost use Rattle.vd_naming.specs.Associations.{is_among_numbers};

    ghost Value = { List ℕ };

    ghost view = { λ a. reverse a.numbers.items };

    ghost invariant = { λ a. (k : ℕ) → unwrap_or (get nat_eq a.table k) false ≡ is_among_numbers (reverse a.numbers.items) k };
}

impl Given {
    /// None.
    pub fn new(alloc: Global) -> Given
        ensures { result ≡ [] }
    {
        Given {
            numbers: Vec::new(alloc),
            table: HashMap::new(alloc),
        }
    }

    /// Whether a number is one of them.
    pub fn has(&self, id: DeclId) -> bool
        ensures { result ≡ is_among_numbers self.now id }
    {
        match self.table.get(&id.number()) {
            Some(given) => *given,
            None => false,
        }
    }

    /// One more.
    pub fn add(self, id: DeclId) -> Result<Given, AllocError>
        ensures { IfOk result (λ given. given ≡ id ∷ self) }
    {
        let mut numbers = self.numbers;
        let mut table = self.table;
        numbers.push(id)?;
        table.insert(id.number(), true)?;
        Ok(Given { numbers, table })
    }
}
