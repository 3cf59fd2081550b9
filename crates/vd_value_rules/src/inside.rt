//! Subtypes of what is declared inside a process or a function, where bounds are known in elaboration only if they are known from the text.

ghost use Rattle.std.specs.Prelude.{◌≡◌, ◌≤◌, IfOk, IsTrue, List, length};
ghost use Rattle.vd_forest.specs.Forest.{Forest};
ghost use Rattle.vd_forest.specs.Store.{Extends, at};
ghost use Rattle.vd_value_rules.specs.Indicated.{indicated_in};
ghost use Rattle.vd_value_rules.specs.declared.forms.IndicatedForm.{IndicatedForm as Form};
ghost use Rattle.vd_value_rules.specs.Inside.{AreInside, IsInside, form_inside, inside_of, sort_inside};
ghost use Rattle.vd_value_rules.specs.Made.{Indicates};

use crate::{IndicatedForm, StaticSort};
use std::alloc::{AllocError, Global};
use vd_forest::Store;

/// How static bounds are inside.
fn inside_sort(known: StaticSort) -> StaticSort
    ensures { result ≡ sort_inside known }
{
    StaticSort {
        is_local: known.is_local,
        is_global: false,
    }
}

/// A node as it is inside.
fn inside_form(form: IndicatedForm) -> IndicatedForm
    ensures { result ≡ form_inside form }
{
    match form {
        IndicatedForm::Scalar {
            subtype,
            is_resolved,
            range,
        } => IndicatedForm::Scalar {
            subtype,
            is_resolved,
            range: inside_sort(range),
        },
        IndicatedForm::Unbounded { index, known } => IndicatedForm::Unbounded {
            index,
            known: inside_sort(known),
        },
        IndicatedForm::Bounded {
            index,
            bounds,
            known,
        } => IndicatedForm::Bounded {
            index,
            bounds,
            known: inside_sort(known),
        },
        IndicatedForm::Record => form,
        IndicatedForm::Literal => form,
    }
}

/// Whether a node is the same inside.
fn is_inside(form: IndicatedForm) -> bool
    ensures { IsTrue result → form_inside form ≡ form }
{
    match form {
        IndicatedForm::Scalar { range, .. } => !range.is_global,
        IndicatedForm::Unbounded { known, .. } => !known.is_global,
        IndicatedForm::Bounded { known, .. } => !known.is_global,
        IndicatedForm::Record => true,
        IndicatedForm::Literal => true,
    }
}

/// The trees with a number as they are inside, where that is known of those with lower numbers. Trees that are the same aren't made again.
fn inside_trees(
    alloc: Global,
    store: &mut Store<IndicatedForm>,
    known: &[u32],
    number: u32,
) -> Result<u32, AllocError>
    requires number_in { number ≤ length store.old }
    requires lower_in { number ≤ length known.now }
    requires known { AreInside known.now store.old }
    ensures inside { IfOk result (λ made. IsInside store.new made (at store.old number)) }
    ensures extends { Extends store.old store.new }
{
    let Some(head) = store.head(number) else {
        return Ok(0);
    };
    let parts = known[head.parts as usize];
    let next = known[head.next as usize];
    if parts == head.parts && next == head.next && is_inside(head.form) {
        return Ok(number);
    }
    let form = inside_form(head.form);
    let place = head.place;
    let text = Vec::from_slice(alloc, head.text)?;
    let made = store.add(form, &text, place, parts, next)?;
    Ok(made)
}

/// The numbers of a store's trees as they are inside. So no tree is made twice.
#[derive(Drop)]
pub struct InsideTable {
    pub alloc: Global,
    pub entries: Vec<u32>,
}

impl InsideTable {
    /// A table in which nothing is known.
    pub fn new(alloc: Global) -> Self
        ensures { (store : List (Forest Form)) → AreInside result.entries.items store }
    {
        InsideTable {
            alloc,
            entries: Vec::new(alloc),
        }
    }

    /// A subtype as it is inside. Each tree of the store is looked at once, over all calls with this table.
    pub fn inside(
        &mut self,
        store: &mut Store<IndicatedForm>,
        subtype: u32,
    ) -> Result<u32, AllocError>
        requires subtype_in { subtype ≤ length store.old }
        requires known { AreInside self.old.entries.items store.old }
        ensures indicates { IfOk result (λ number. Indicates store.new number (inside_of (indicated_in (at store.old subtype)))) }
        ensures known { AreInside self.new.entries.items store.new }
        ensures extends { Extends store.old store.new }
    {
        while self.entries.len() <= subtype as usize {
            let next = inside_trees(self.alloc, store, &self.entries, self.entries.len() as u32)?;
            self.entries.push(next)?;
        }
        Ok(self.entries[subtype as usize])
    }
}
