//! Syntax trees: a store of nodes and the number of the file's design units.

ghost use Rattle.std.specs.Prelude.{◌≡◌, ◌≤◌, length, true};
ghost use Rattle.vd_forest.specs.Store.{at};
ghost use Rattle.vd_first_trees.specs.Validity.{is_valid, file_slots};
ghost use Rattle.vd_trees.specs.declared.revision.Revision.TheVariants.{V2019, V1993};

use crate::form::Form;
use std::marker::Model;
use vd_forest::{Cursor, Store};

/// A valid syntax tree of revision 2019. Contracts see its design units.
#[derive(Drop)]
pub struct Design19 {
    store: Store<Form>,
    units: u32,
}

impl Model for Design19 {
    ghost use Rattle.std.specs.Prelude.{◌≡◌, ◌≤◌, length, true};
    ghost use Rattle.vd_forest.specs.Forest.{Forest};
    ghost use Rattle.vd_forest.specs.Code.{coded_forest};
    ghost use Rattle.vd_first_trees.specs.declared.form.Form.{Form};
    ghost use Rattle.vd_first_trees.specs.contracts.form.Form as forms;

    ghost Value = { Forest Form };

    ghost coded = { coded_forest forms.the_row.coded };

    ghost use Rattle.vd_forest.specs.Store.{at};
    ghost use Rattle.vd_first_trees.specs.Validity.{is_valid, file_slots};
    ghost use Rattle.vd_trees.specs.declared.revision.Revision.TheVariants.{V2019};

    ghost view = { λ a. at a.store a.units };

    ghost invariant = { λ a. (a.units ≤ length a.store) × (is_valid V2019 file_slots (at a.store a.units) ≡ true) };
}

impl Design19 {
    /// The tree of these design units.
    pub fn of(store: Store<Form>, units: u32) -> Design19
        requires within { units ≤ length store }
        requires valid { is_valid V2019 file_slots (at store units) ≡ true }
        ensures { result ≡ at store units }
    {
        Design19 { store, units }
    }

    /// The design units.
    pub fn units(&self) -> Cursor<'_, Form>
        ensures units { result ≡ self.now }
        ensures valid { is_valid V2019 file_slots self.now ≡ true }
    {
        let store = &self.store;
        store.cursor(self.units)
    }
}

/// A valid syntax tree of revision 1993. Contracts see its design units.
#[derive(Drop)]
pub struct Design93 {
    store: Store<Form>,
    units: u32,
}

impl Model for Design93 {
    ghost use Rattle.std.specs.Prelude.{◌≡◌, ◌≤◌, length, true};
    ghost use Rattle.vd_forest.specs.Forest.{Forest};
    ghost use Rattle.vd_forest.specs.Code.{coded_forest};
    ghost use Rattle.vd_first_trees.specs.declared.form.Form.{Form};
    ghost use Rattle.vd_first_trees.specs.contracts.form.Form as forms;

    ghost Value = { Forest Form };

    ghost coded = { coded_forest forms.the_row.coded };

    ghost use Rattle.vd_forest.specs.Store.{at};
    ghost use Rattle.vd_first_trees.specs.Validity.{is_valid, file_slots};
    ghost use Rattle.vd_trees.specs.declared.revision.Revision.TheVariants.{V1993};

    ghost view = { λ a. at a.store a.units };

    ghost invariant = { λ a. (a.units ≤ length a.store) × (is_valid V1993 file_slots (at a.store a.units) ≡ true) };
}

impl Design93 {
    /// The tree of these design units.
    pub fn of(store: Store<Form>, units: u32) -> Design93
        requires within { units ≤ length store }
        requires valid { is_valid V1993 file_slots (at store units) ≡ true }
        ensures { result ≡ at store units }
    {
        Design93 { store, units }
    }

    /// The design units.
    pub fn units(&self) -> Cursor<'_, Form>
        ensures units { result ≡ self.now }
        ensures valid { is_valid V1993 file_slots self.now ≡ true }
    {
        let store = &self.store;
        store.cursor(self.units)
    }
}
