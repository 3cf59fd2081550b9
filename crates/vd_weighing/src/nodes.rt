//! How many nodes of trees count.

ghost use Rattle.std.specs.Prelude.{◌≡◌, IfOk};
ghost use Rattle.vd_forest.specs.Forest.{tree_count as trees_of};
ghost use Rattle.vd_weighing.specs.Weights.{own_weight as weight_of_form, nodes as nodes_of, nodes_of_first as nodes_of_one};
ghost use Rattle.vd_weighing.specs.Limits.{at_most};

use crate::numbers::plus;
use std::alloc::{AllocError, Global};
use vd_forest::Cursor;
use vd_forms::{Form, is_weighed};
use vd_resolved::Resolved;

/// What a node weighs, without its parts.
pub(crate) fn own_weight(form: Form) -> u64
    ensures { result ≡ weight_of_form form }
{
    if is_weighed(form) { 1 } else { 0 }
}

/// The nodes that count.
pub(crate) fn nodes(alloc: Global, trees: &Cursor<'_, Resolved>) -> Result<u64, AllocError>
    ensures { IfOk result (λ count. count ≡ at_most (nodes_of trees.now)) }
{
    let mut count = 0;
    let mut left = Vec::new(alloc);
    left.push(trees.fork())?;
    while let Some(last) = left.pop() {
        if let Some(first) = last.open() {
            count = plus(count, own_weight(first.form.form));
            left.push(first.next)?;
            left.push(first.parts)?;
        }
    }
    Ok(count)
}

/// The nodes of the first tree that count.
pub(crate) fn nodes_of_first(alloc: Global, trees: &Cursor<'_, Resolved>) -> Result<u64, AllocError>
    ensures { IfOk result (λ count. count ≡ at_most (nodes_of_one trees.now)) }
{
    match trees.open() {
        None => Ok(0),
        Some(first) => {
            let inner = nodes(alloc, &first.parts)?;
            Ok(plus(own_weight(first.form.form), inner))
        }
    }
}

/// The trees side by side.
pub(crate) fn tree_count(trees: &Cursor<'_, Resolved>) -> u64
    ensures { result ≡ at_most (trees_of trees.now) }
{
    let mut count = 0;
    let mut left = trees.fork();
    while let Some(first) = left.open() {
        count = plus(count, 1);
        left = first.next;
    }
    count
}
