//! Trees in a store of their own, where nothing stands behind them.

ghost use Rattle.std.specs.Prelude.{IfOk};
ghost use Rattle.vd_forest.specs.Forest.{nothing, more, with_next};
ghost use Rattle.vd_forest.specs.Store.{Holds};

use std::alloc::AllocError;
use vd_forest::{Cursor, Opened, Store};
use vd_forms::Form;

/// A tree, without those behind it.
#[tactic(auto, using(vd_forest::proofs::StoreLemmas::growing))]
pub fn one_tree(node: &Opened<'_, Form>, single: &mut Store<Form>) -> Result<u32, AllocError>
    ensures { IfOk result (λ number. Holds single.new number (more node.now.form node.now.text.now node.now.place node.now.parts nothing)) }
{
    let parts = single.copy(&node.parts)?;
    let made = single.add(node.form, node.text, node.place, parts, 0)?;
    Ok(made)
}

/// The first tree of a forest, where there is one.
pub fn alone(trees: &Cursor<'_, Form>, single: &mut Store<Form>) -> Result<u32, AllocError>
    ensures { IfOk result (λ number. Holds single.new number (with_next trees.now nothing)) }
{
    match trees.open() {
        None => Ok(0),
        Some(first) => one_tree(&first, single),
    }
}
