//! The variables that a function declares itself.

ghost use Rattle.std.specs.Prelude.{◌≡◌, ◌++◌, IfOk, OnOk};
ghost use Rattle.vd_value_rules.specs.Designs.{Design, is_listed};
ghost use Rattle.vd_value_rules.specs.Standings.{variables_in as variables_of_items, variables_of as variables_of_item};

use crate::numbers::numbers_of_first;
use std::alloc::{AllocError, Global};
use std::collections::HashMap;
use std::marker::Model;
use vd_declarations::DeclId;
use vd_forest::Cursor;
use vd_forms::Form;
use vd_resolved::Resolved;

/// Some variables, with a table of them.
#[derive(Drop)]
pub struct Locals {
    numbers: Vec<DeclId>,
    table: HashMap<u32, bool>,
}

impl Model for Locals {
    ghost use Rattle.std.specs.Prelude.{◌≡◌, ℕ, List, false, nat_eq};
    ghost use Rattle.std.specs.Option.{unwrap_or};
    ghost use Rattle.std.specs.HashMap.{get};
    ghost use Rattle.vd_value_rules.specs.Designs.{is_listed};

    ghost Value = { List ℕ };

    ghost view = { λ a. a.numbers.items };

    ghost invariant = { λ a. (k : ℕ) → unwrap_or (get nat_eq a.table k) false ≡ is_listed k a.numbers.items };
}

impl Locals {
    /// These variables.
    pub fn of(alloc: Global, numbers: Vec<DeclId>) -> Result<Locals, AllocError>
        ensures { IfOk result (λ locals. locals ≡ numbers.items) }
    {
        let mut table = HashMap::new(alloc);
        for number in &numbers {
            table.insert(number.number(), true)?;
        }
        Ok(Locals { numbers, table })
    }

    /// Whether a declaration is one of them.
    pub fn has(&self, number: DeclId) -> bool
        ensures { result ≡ is_listed number self.now }
    {
        match self.table.get(&number.number()) {
            Some(is_one) => *is_one,
            None => false,
        }
    }
}

/// Puts the variables that an item declares behind others.
fn add_variables(
    alloc: Global,
    found: &mut Vec<DeclId>,
    form: Form,
    parts: &Cursor<'_, Resolved>,
) -> Result<(), AllocError>
    ensures { OnOk result ((d : Design) → found.new.items ≡ found.old.items ++ variables_of_item form d parts.now) }
{
    match form {
        Form::VariableDeclaration => {
            let mut numbers = numbers_of_first(alloc, parts)?;
            found.append(&mut numbers)?;
            Ok(())
        }
        _ => Ok(()),
    }
}

/// The variables that some items declare.
pub fn variables_in(alloc: Global, items: &Cursor<'_, Resolved>) -> Result<Vec<DeclId>, AllocError>
    ensures { IfOk result (λ found. (d : Design) → found.items ≡ variables_of_items d items.now) }
{
    let mut found = Vec::new(alloc);
    let mut rest = items.fork();
    while let Some(item) = rest.open() {
        add_variables(alloc, &mut found, item.form.form, &item.parts)?;
        rest = item.next;
    }
    Ok(found)
}
