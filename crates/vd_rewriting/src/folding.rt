//! Meanings of trees, from the leaves on.

ghost use Rattle.std.specs.Prelude.{◌≡◌, ◌≤◌, ℕ, List, IfOk, OnOk, length};
ghost use Rattle.vd_bytes.specs.declared.places.Place.{Place};
ghost use Rattle.vd_forest.specs.Store.{at};
ghost use Rattle.vd_rewriting.specs.Folding.{folded, AreMeanings};

use std::alloc::{AllocError, Global};
use vd_bytes::Place;
use vd_forest::{Cursor, Store};

/// A meaning of trees: that of a node from its form, its text, its place and the meanings of its
/// parts.
pub trait Folding<F: Copy + Drop, M: Copy + Drop> {
    ghost meaning: { Self → F → List ℕ → Place → List M → M };

    /// The meaning of one node.
    fn node(&mut self, form: F, text: &[u8], place: Place, parts: &[M]) -> Result<M, AllocError>
        ensures is { IfOk result (λ m. m ≡ meaning self.old form text.now place parts.now) }
        ensures same_meaning { meaning self.new ≡ meaning self.old };
}

/// The meanings of the trees of a forest. Each number of its store up to its own is given its
/// meaning once, from the lowest on. Nodes that share one list of parts each read that list.
#[tactic(auto, using(crate::proofs::FoldingLemmas::folding_steps))]
pub fn fold<F: Copy + Drop, M: Copy + Drop, T: Folding<F, M>>(
    alloc: Global,
    from: &Cursor<'_, F>,
    by: &mut T,
) -> Result<Vec<M>, AllocError>
    ensures meanings { IfOk result (λ meanings. meanings.items ≡ folded (T.meaning by.old) from.now) }
    ensures same_meaning { T.meaning by.new ≡ T.meaning by.old }
{
    let (store, number) = from.stands();
    let mut table: Vec<M> = Vec::with_capacity(alloc, number as usize)?;
    let mut list: Vec<M> = Vec::new(alloc);
    for older in 0..number {
        let head = store.node(older + 1);
        gather(store, head.parts, &table, by, &mut list)?;
        let meaning = by.node(head.form, head.text, head.place, &list)?;
        table.push(meaning)?;
    }
    gather(store, number, &table, by, &mut list)?;
    Ok(list)
}

/// The meanings of the trees of a forest, from a table with that of each number's first tree.
#[tactic(auto, using(crate::proofs::FoldingLemmas::gathering_steps))]
fn gather<F: Copy + Drop, M: Copy + Drop, T: Folding<F, M>>(
    store: &Store<F>,
    number: u32,
    table: &[M],
    by: &T,
    list: &mut Vec<M>,
) -> Result<(), AllocError>
    requires number_in { number ≤ length store.now }
    requires known { number ≤ length table.now }
    requires meanings { AreMeanings (T.meaning by.now) store.now table.now }
    ensures { OnOk result (list.new.items ≡ folded (T.meaning by.now) (at store.now number)) }
{
    list.clear();
    let mut left = number;
    while left > 0 {
        list.push(table[left as usize - 1])?;
        left = store.after(left);
    }
    Ok(())
}
