//! How static all bounds of a subtype are.

ghost use Rattle.std.specs.Prelude.{◌≡◌, ◌≤◌, IfOk, List, length};
ghost use Rattle.vd_environments.specs.Environments.{all_bounds as all_bounds_made};
ghost use Rattle.vd_forest.specs.Forest.{Forest};
ghost use Rattle.vd_forest.specs.Store.{at};
ghost use Rattle.vd_value_rules.specs.TreeBounds.{IsBoundsOf, IsTableOf};
ghost use Rattle.vd_value_rules.specs.Indicated.{fields_in, indicated_in, made_of, static_of, texts_in};
ghost use Rattle.vd_value_rules.specs.declared.forms.IndicatedForm.{IndicatedForm as Form};

use crate::forms::IndicatedForm;
use crate::statics::StaticSort;
use std::alloc::{AllocError, Global};
use vd_forest::{Cursor, Store};

/// How static all bounds are of the first of some trees, and of all of them.
#[derive(Clone, Copy, Debug)]
pub struct TreeBounds {
    pub first: StaticSort,
    pub all: StaticSort,
}

/// What is known of the bounds of a store's trees, by their numbers. So no tree is looked at twice, however many subtypes share it.
#[derive(Drop)]
pub struct BoundsTable {
    pub entries: Vec<TreeBounds>,
}

/// Of a tree with this form, where its parts have these bounds.
fn form_bounds(form: IndicatedForm, parts: TreeBounds) -> StaticSort
    ensures { (f : Forest Form) → IsBoundsOf parts f → static_of result ≡ all_bounds_made (made_of form (texts_in f) (fields_in f)).make }
{
    match form {
        IndicatedForm::Scalar { range, .. } => range,
        IndicatedForm::Unbounded { known, .. } => known.both(parts.first),
        IndicatedForm::Bounded { known, .. } => known.both(parts.first),
        IndicatedForm::Record => parts.all,
        IndicatedForm::Literal => StaticSort::never(),
    }
}

/// Of the trees with a number, where those with a lower number are known.
fn tree_bounds(store: &Store<IndicatedForm>, known: &[TreeBounds], number: u32) -> TreeBounds
    requires number_in { number ≤ length store.now }
    requires lower_in { number ≤ length known.now }
    requires known { IsTableOf known.now store.now }
    ensures { IsBoundsOf result (at store.now number) }
{
    let Some(head) = store.head(number) else {
        return TreeBounds {
            first: StaticSort::never(),
            all: StaticSort::always(),
        };
    };
    let first = form_bounds(head.form, known[head.parts as usize]);
    let next = known[head.next as usize];
    TreeBounds {
        first,
        all: first.both(next.all),
    }
}

impl BoundsTable {
    /// A table in which nothing is known.
    pub fn new(alloc: Global) -> Self
        ensures { (forests : List (Forest Form)) → IsTableOf result.entries.items forests }
    {
        BoundsTable {
            entries: Vec::new(alloc),
        }
    }

    /// How static all bounds of a subtype are. Each tree of the store is looked at once, over all calls with this table.
    pub fn all_bounds(
        &mut self,
        store: &Store<IndicatedForm>,
        number: u32,
    ) -> Result<StaticSort, AllocError>
        requires number_in { number ≤ length store.now }
        requires known { IsTableOf self.old.entries.items store.now }
        ensures bounds { IfOk result (λ s. static_of s ≡ all_bounds_made (indicated_in (at store.now number)).make) }
        ensures known { IsTableOf self.new.entries.items store.now }
    {
        while self.entries.len() <= number as usize {
            let next = tree_bounds(store, &self.entries, self.entries.len() as u32);
            self.entries.push(next)?;
        }
        Ok(self.entries[number as usize].first)
    }
}

/// How static all bounds of a subtype are. It takes as many steps as the store has trees up to this one; `BoundsTable` takes fewer for many
/// subtypes.
pub fn all_bounds(
    alloc: Global,
    subtype: &Cursor<'_, IndicatedForm>,
) -> Result<StaticSort, AllocError>
    ensures { IfOk result (λ s. static_of s ≡ all_bounds_made (indicated_in subtype.now).make) }
{
    let (store, number) = subtype.stands();
    let mut table = BoundsTable::new(alloc);
    table.all_bounds(store, number)
}
