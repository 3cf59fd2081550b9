//! The fields of record subtypes.

ghost use Rattle.std.specs.Prelude.{◌≡◌, ◌<◌, ◌≤◌, IfOk, List, OnOk, length};
ghost use Rattle.vd_forest.specs.Forest.{Forest, skipped};
ghost use Rattle.vd_forest.specs.Store.{at};
ghost use Rattle.vd_value_rules.specs.Indicated.{field_indicated, indicated_in};
ghost use Rattle.vd_value_rules.specs.declared.forms.IndicatedForm.{IndicatedForm as Form};
ghost use Rattle.vd_static_names.specs.Jumps.{AreJumps, field_trees};

use crate::jumps::{Jump, jump_over, tree_jump};
use std::alloc::{AllocError, Global};
use vd_forest::Store;
use vd_value_rules::IndicatedForm;

/// Jumps over the trees of a store, by their numbers.
#[derive(Drop)]
pub struct FieldTable {
    pub jumps: Vec<Jump>,
}

impl FieldTable {
    /// A table with no jump.
    pub fn new(alloc: Global) -> Self
        ensures { (store : List (Forest Form)) → AreJumps result.jumps.items store }
    {
        FieldTable {
            jumps: Vec::new(alloc),
        }
    }

    /// Jumps from all trees up to a number.
    fn grow(&mut self, store: &Store<IndicatedForm>, number: u32) -> Result<(), AllocError>
        requires number_in { number ≤ length store.now }
        requires known { AreJumps self.old.jumps.items store.now }
        ensures known { AreJumps self.new.jumps.items store.now }
        ensures grown { OnOk result (number < length self.new.jumps.items) }
    {
        while self.jumps.len() <= number as usize {
            let next = tree_jump(store, &self.jumps, self.jumps.len() as u32);
            self.jumps.push(next)?;
        }
        Ok(())
    }

    /// The subtype of a record's field, by its number from 0. It takes as many steps as the number of fields has digits, and over all calls with this
    /// table one step for each tree of the store.
    pub fn field(
        &mut self,
        store: &Store<IndicatedForm>,
        subtype: u32,
        number: u32,
    ) -> Result<u32, AllocError>
        requires subtype_in { subtype ≤ length store.now }
        requires known { AreJumps self.old.jumps.items store.now }
        ensures within { IfOk result (λ field. field ≤ length store.now) }
        ensures found { IfOk result (λ field. at store.now field ≡ skipped number (field_trees (at store.now subtype))) }
        ensures is { IfOk result (λ field. indicated_in (at store.now field) ≡ field_indicated number (indicated_in (at store.now subtype))) }
        ensures known { AreJumps self.new.jumps.items store.now }
    {
        let Some(head) = store.head(subtype) else {
            return Ok(0);
        };
        match head.form {
            IndicatedForm::Record => {
                self.grow(store, head.parts)?;
                Ok(jump_over(store, &self.jumps, head.parts, number))
            }
            _ => Ok(0),
        }
    }
}
