//! Designs: a store of nodes and the number of its design units.

ghost use Rattle.std.specs.Prelude.{◌≡◌, ◌≤◌, length, IfOk, OnErr, OnOk};
ghost use Rattle.vd_forest.specs.Forest.{joined};
ghost use Rattle.vd_forest.specs.Store.{at, Holds, Extends};
ghost use Rattle.vd_forms.specs.Validity.{IsDesign, all_joined};
ghost use Rattle.vd_trees.specs.declared.revision.Revision.TheVariants.{V2019, V1993};

use crate::form::Form;
use std::alloc::AllocError;
use std::marker::Model;
use vd_forest::{Cursor, Store};

/// The trees of a forest in front of those of another, each of the first ones anew.
#[tactic(auto, using(crate::proofs::DesignLemmas::turned_twice, vd_forest::proofs::StoreLemmas::growing))]
fn in_front(store: &mut Store<Form>, front: u32, behind: u32) -> Result<u32, AllocError>
    requires front_in { front ≤ length store.old }
    requires behind_in { behind ≤ length store.old }
    ensures holds { IfOk result (λ made. Holds store.new made (joined (at store.old front) (at store.old behind))) }
    ensures extends { Extends store.old store.new }
{
    let turned = store.turn(front, 0)?;
    let made = store.turn(turned, behind)?;
    Ok(made)
}

/// Copies the trees of another store in front of those of a forest.
#[tactic(auto, using(vd_forest::proofs::StoreLemmas::growing))]
fn copied_in_front(
    store: &mut Store<Form>,
    front: &Cursor<'_, Form>,
    behind: u32,
) -> Result<u32, AllocError>
    requires { behind ≤ length store.old }
    ensures holds { IfOk result (λ made. Holds store.new made (joined front.now (at store.old behind))) }
    ensures extends { Extends store.old store.new }
{
    let copied = store.copy(front)?;
    let made = in_front(store, copied, behind)?;
    Ok(made)
}

/// A valid syntax tree of revision 2019. Contracts see its design units.
#[derive(Drop)]
pub struct Design19 {
    store: Store<Form>,
    units: u32,
}

impl Model for Design19 {
    ghost use Rattle.std.specs.Prelude.{◌≤◌, length};
    ghost use Rattle.vd_forest.specs.Forest.{Forest};
    ghost use Rattle.vd_forest.specs.Code.{coded_forest};
    ghost use Rattle.vd_forms.specs.declared.form.Form.{Form};
    ghost use Rattle.vd_forms.specs.contracts.form.Form as forms;

    ghost Value = { Forest Form };

    ghost coded = { coded_forest forms.the_row.coded };

    ghost use Rattle.vd_forest.specs.Store.{at};
    ghost use Rattle.vd_forms.specs.Validity.{IsDesign};
    ghost use Rattle.vd_trees.specs.declared.revision.Revision.TheVariants.{V2019};

    ghost view = { λ a. at a.store a.units };

    ghost invariant = { λ a. (a.units ≤ length a.store) × IsDesign V2019 (at a.store a.units) };
}

impl Design19 {
    /// The tree of these design units.
    pub fn of(store: Store<Form>, units: u32) -> Design19
        requires within { units ≤ length store }
        requires valid { IsDesign V2019 (at store units) }
        ensures { result ≡ at store units }
    {
        Design19 { store, units }
    }

    /// The design units.
    pub fn units(&self) -> Cursor<'_, Form>
        ensures units { result ≡ self.now }
        ensures valid { IsDesign V2019 self.now }
    {
        let store = &self.store;
        store.cursor(self.units)
    }

    /// Adds the units of other designs behind its own, in order. It takes time for each node of
    /// the others, and for each unit of its own, so that many are added at once.
    #[tactic(auto, using(crate::proofs::DesignLemmas::appending))]
    pub fn append(&mut self, others: &[Design19]) -> Result<(), AllocError>
        ensures added { OnOk result (self.new ≡ joined self.old (all_joined others.now)) }
        ensures unchanged { OnErr result (self.new ≡ self.old) }
    {
        let behind = copied_19(&mut self.store, others)?;
        self.units = in_front(&mut self.store, self.units, behind)?;
        Ok(())
    }
}

/// Copies the units of some designs into a store.
#[tactic(auto, using(crate::proofs::DesignLemmas::design_joined, crate::proofs::DesignLemmas::no_design, crate::proofs::DesignLemmas::joined_more, vd_forest::proofs::StoreLemmas::growing))]
fn copied_19(store: &mut Store<Form>, others: &[Design19]) -> Result<u32, AllocError>
    ensures holds { IfOk result (λ made. Holds store.new made (all_joined others.now)) }
    ensures valid { IfOk result (λ made. IsDesign V2019 (all_joined others.now)) }
    ensures extends { Extends store.old store.new }
{
    let mut made = 0;
    let mut left = others.len();
    while left > 0 {
        left -= 1;
        let units = others[left].units();
        made = copied_in_front(store, &units, made)?;
    }
    Ok(made)
}

/// A valid syntax tree of revision 1993. Contracts see its design units.
#[derive(Drop)]
pub struct Design93 {
    store: Store<Form>,
    units: u32,
}

impl Model for Design93 {
    ghost use Rattle.std.specs.Prelude.{◌≤◌, length};
    ghost use Rattle.vd_forest.specs.Forest.{Forest};
    ghost use Rattle.vd_forest.specs.Code.{coded_forest};
    ghost use Rattle.vd_forms.specs.declared.form.Form.{Form};
    ghost use Rattle.vd_forms.specs.contracts.form.Form as forms;

    ghost Value = { Forest Form };

    ghost coded = { coded_forest forms.the_row.coded };

    ghost use Rattle.vd_forest.specs.Store.{at};
    ghost use Rattle.vd_forms.specs.Validity.{IsDesign};
    ghost use Rattle.vd_trees.specs.declared.revision.Revision.TheVariants.{V1993};

    ghost view = { λ a. at a.store a.units };

    ghost invariant = { λ a. (a.units ≤ length a.store) × IsDesign V1993 (at a.store a.units) };
}

impl Design93 {
    /// The tree of these design units.
    pub fn of(store: Store<Form>, units: u32) -> Design93
        requires within { units ≤ length store }
        requires valid { IsDesign V1993 (at store units) }
        ensures { result ≡ at store units }
    {
        Design93 { store, units }
    }

    /// The design units.
    pub fn units(&self) -> Cursor<'_, Form>
        ensures units { result ≡ self.now }
        ensures valid { IsDesign V1993 self.now }
    {
        let store = &self.store;
        store.cursor(self.units)
    }

    /// Adds the units of other designs behind its own, in order. It takes time for each node of
    /// the others, and for each unit of its own, so that many are added at once.
    #[tactic(auto, using(crate::proofs::DesignLemmas::appending))]
    pub fn append(&mut self, others: &[Design93]) -> Result<(), AllocError>
        ensures added { OnOk result (self.new ≡ joined self.old (all_joined others.now)) }
        ensures unchanged { OnErr result (self.new ≡ self.old) }
    {
        let behind = copied_93(&mut self.store, others)?;
        self.units = in_front(&mut self.store, self.units, behind)?;
        Ok(())
    }
}

/// Copies the units of some designs into a store.
#[tactic(auto, using(crate::proofs::DesignLemmas::design_joined, crate::proofs::DesignLemmas::no_design, crate::proofs::DesignLemmas::joined_more, vd_forest::proofs::StoreLemmas::growing))]
fn copied_93(store: &mut Store<Form>, others: &[Design93]) -> Result<u32, AllocError>
    ensures holds { IfOk result (λ made. Holds store.new made (all_joined others.now)) }
    ensures valid { IfOk result (λ made. IsDesign V1993 (all_joined others.now)) }
    ensures extends { Extends store.old store.new }
{
    let mut made = 0;
    let mut left = others.len();
    while left > 0 {
        left -= 1;
        let units = others[left].units();
        made = copied_in_front(store, &units, made)?;
    }
    Ok(made)
}
