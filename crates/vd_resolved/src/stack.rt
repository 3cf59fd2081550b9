//! Trees that are being made, the last one at the end.

ghost use Rattle.std.specs.Prelude.{◌≡◌, ◌≤◌, ◌∷◌, ◌++◌, [], OnOk, OnErr, IfOk, length, map, take, drop, vec_len};
ghost use Rattle.vd_forest.specs.Store.{at, Holds, Extends};
ghost use Rattle.vd_forest.specs.Forest.{nothing, more, with_next};
ghost use Rattle.vd_resolved.specs.Trees.{side_by_side, with_parent};
ghost use Rattle.vd_resolved.specs.Stacks.{IsTree, AreTrees};

use crate::node::Resolved;
use std::alloc::{AllocError, Global};
use std::marker::Model;
use vd_bytes::Place;
use vd_forest::Store;

/// Trees side by side, by their numbers in a store. Contracts see the list of the trees.
#[derive(Drop)]
pub(crate) struct Stack {
    store: Store<Resolved>,
    numbers: Vec<u32>,
}

impl Model for Stack {
    ghost use Rattle.std.specs.Prelude.{List, map};
    ghost use Rattle.vd_forest.specs.Forest.{Forest};
    ghost use Rattle.vd_forest.specs.Store.{at};
    ghost use Rattle.vd_forest.specs.Code.{coded_forest};
    ghost use Rattle.std.specs.Coded.{coded_list};
    ghost use Rattle.vd_resolved.specs.declared.node.Resolved.{Resolved};
    ghost use Rattle.vd_resolved.specs.contracts.node.Resolved as nodes;
    ghost use Rattle.vd_resolved.specs.Stacks.{AreTrees};

    ghost Value = { List (Forest Resolved) };

    ghost coded = { coded_list (coded_forest nodes.the_row.coded) };

    ghost view = { λ a. map (at a.store) a.numbers.items };

    // Nothing comes after any of the trees.
    ghost invariant = { λ a. AreTrees a.store a.numbers.items };
}

impl Stack {
    /// No trees.
    pub(crate) fn new(alloc: Global) -> Stack
        ensures { result ≡ [] }
    {
        Stack {
            store: Store::new(alloc),
            numbers: Vec::new(alloc),
        }
    }

    /// How many trees there are.
    pub(crate) fn len(&self) -> usize
        ensures { result ≡ length self.now }
    {
        self.numbers.len()
    }

    /// Makes the last trees, as many as `count` says, the parts of a new one.
    pub(crate) fn push(
        &mut self,
        node: Resolved,
        text: &[u8],
        place: Place,
        count: usize,
    ) -> Result<(), AllocError>
        requires { count ≤ length self.old }
        ensures pushed { OnOk result (self.new ≡ with_parent self.old node text.now place count) }
        ensures unchanged { OnErr result (self.new ≡ self.old) }
    {
        let from = self.numbers.len() - count;
        let tree = added(&mut self.store, &self.numbers, from, node, text, place)?;
        replace(&mut self.numbers, from, tree)?;
        Ok(())
    }

    /// All the trees as one forest of a store, and its number there.
    pub(crate) fn into_store(self) -> Result<(Store<Resolved>, u32), AllocError>
        ensures within { IfOk result (λ made. made.1 ≤ length made.0) }
        ensures is { IfOk result (λ made. at made.0 made.1 ≡ side_by_side self) }
    {
        let Stack { mut store, numbers } = self;
        let units = linked(&mut store, &numbers, 0)?;
        Ok((store, units))
    }
}

/// A tree whose parts are those with these numbers, from one of them on.
#[tactic(auto, using(vd_forest::proofs::StoreLemmas::growing))]
fn added(
    store: &mut Store<Resolved>,
    numbers: &[u32],
    from: usize,
    node: Resolved,
    text: &[u8],
    place: Place,
) -> Result<u32, AllocError>
    requires from_in { from ≤ length numbers.now }
    requires trees { AreTrees store.old numbers.now }
    ensures holds { IfOk result (λ made. Holds store.new made
        (more node text.now place (side_by_side (drop from (map (at store.old) numbers.now))) nothing)) }
    ensures extends { Extends store.old store.new }
{
    let parts = linked(store, numbers, from)?;
    let made = store.add(node, text, place, parts, 0)?;
    Ok(made)
}

/// Puts a number in the place of those from one of them on.
fn replace(numbers: &mut Vec<u32>, from: usize, number: u32) -> Result<(), AllocError>
    requires { from ≤ vec_len numbers.old }
    ensures replaced { OnOk result (numbers.new.items ≡ take from numbers.old.items ++ number ∷ []) }
    ensures unchanged { OnErr result (numbers.new.items ≡ numbers.old.items) }
{
    if from == numbers.len() {
        numbers.push(number)?;
    } else {
        numbers[from] = number;
        numbers.truncate(from + 1);
    }
    Ok(())
}

/// Puts the trees with these numbers, from one of them on, side by side.
fn linked(store: &mut Store<Resolved>, numbers: &[u32], from: usize) -> Result<u32, AllocError>
    requires from_in { from ≤ length numbers.now }
    requires trees { AreTrees store.old numbers.now }
    ensures holds { IfOk result (λ made. Holds store.new made (side_by_side (drop from (map (at store.old) numbers.now)))) }
    ensures extends { Extends store.old store.new }
{
    let mut made = 0;
    let mut left = numbers.len();
    while left > from {
        left -= 1;
        made = joined(store, numbers[left], made)?;
    }
    Ok(made)
}

/// A tree before those of a forest. It stands as it is where there are none.
fn joined(store: &mut Store<Resolved>, tree: u32, next: u32) -> Result<u32, AllocError>
    requires tree { IsTree store.old tree }
    requires next_in { next ≤ length store.old }
    ensures holds { IfOk result (λ made. Holds store.new made (with_next (at store.old tree) (at store.old next))) }
    ensures extends { Extends store.old store.new }
{
    if next == 0 {
        return Ok(tree);
    }
    let made = store.relink(tree, next)?;
    Ok(made)
}
