//! Sets of declarations.

ghost use Rattle.std.specs.Prelude.{◌≡◌, ◌∷◌, [], IfOk, List, OnOk, is_some, nat_eq, ℕ};
ghost use Rattle.std.specs.HashMap.{get};
ghost use Rattle.vd_value_rules.specs.Designs.{is_listed};
ghost use Rattle.vd_port_associations.specs.Numbers.{Holds};

use std::alloc::{AllocError, Global};
use std::collections::HashMap;
use vd_declarations::DeclId;

/// A set of declarations, by their numbers.
#[derive(Drop)]
pub struct NumberSet {
    pub table: HashMap<u32, bool>,
}

impl NumberSet {
    /// No declarations.
    pub fn new(alloc: Global) -> NumberSet
        ensures { Holds result [] }
    {
        NumberSet {
            table: HashMap::new(alloc),
        }
    }

    /// These declarations.
    pub fn of(alloc: Global, numbers: &[DeclId]) -> Result<NumberSet, AllocError>
        ensures { IfOk result (λ set. Holds set numbers.now) }
    {
        let mut set = NumberSet::new(alloc);
        let mut left = numbers.len();
        while left > 0 {
            left -= 1;
            set.add(numbers[left])?;
        }
        Ok(set)
    }

    /// One more declaration.
    pub fn add(&mut self, number: DeclId) -> Result<(), AllocError>
        ensures { (ns : List ℕ) → Holds self.old ns → OnOk result (Holds self.new (number ∷ ns)) }
    {
        self.table.insert(number.number(), true)?;
        Ok(())
    }

    /// Whether a declaration is one of them.
    pub fn has(&self, number: &DeclId) -> bool
        ensures { (ns : List ℕ) → Holds self.now ns → result ≡ is_listed number.now ns }
    {
        self.table.get(&number.number()).is_some()
    }
}
