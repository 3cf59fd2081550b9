//! Walking over a forest once, in the order of its text.

ghost use Rattle.std.specs.Prelude.{◌≡◌, ◌≤◌, IfOk, OnOk, length};
ghost use Rattle.vd_forest.specs.Store.{Extends};
ghost use Rattle.vd_walks.specs.Walking.{Walker, walked};
ghost use Rattle.vd_walks.specs.Outcomes.{seen_in, IsOutcome, IsEntry};

use crate::levels::{Frame, Level, SoFar, end_level, end_of, into_tree};
use std::alloc::{AllocError, Global};
use vd_bytes::Refused;
use vd_forest::{Cursor, Opened, Store};

/// What trees come to: the number of the trees in the store that is made, the state behind them, and the first rule that
/// is broken.
#[derive(Drop)]
pub struct Outcome<A> {
    pub tree: u32,
    pub at: A,
    pub first: Option<Refused>,
}

/// What is done with a tree.
#[derive(Drop)]
pub enum Entry<A, I> {
    /// It comes to something by itself, and its parts are not walked.
    Done(Outcome<A>),
    /// Its parts are walked in this state, and what is kept of it says then what it comes to.
    Inside { at: A, kept: I },
}

/// What a walk does with each tree of the forms `F`, to make trees of the forms `G`, with a state `A` that goes down and along, and a
/// table `D`. Of a tree whose parts are walked it keeps an `I`.
pub trait Walking<'a, F: Copy + Drop, G: Copy + Drop, A: Drop, D, I: Drop> {
    ghost walker: { Self → Walker F G A D I };

    /// What is done with a tree, before its parts.
    fn enter(
        &self,
        alloc: Global,
        node: &Opened<'a, F>,
        at: A,
        design: &mut D,
        out: &mut Store<G>,
    ) -> Result<Entry<A, I>, AllocError>
        ensures is { IfOk result (λ entry. IsEntry out.new design.new entry
            ((walker self.now).enter node.now.form node.now.text.now node.now.place node.now.parts at design.old)) }
        ensures extends { Extends out.old out.new };

    /// Makes of what a tree's parts came to what the tree comes to.
    fn leave(
        &self,
        alloc: Global,
        kept: I,
        node: &Opened<'a, F>,
        outcome: &mut Outcome<A>,
        design: &mut D,
        out: &mut Store<G>,
    ) -> Result<(), AllocError>
        requires { outcome.old.tree ≤ length out.old }
        ensures is { OnOk result (IsOutcome out.new design.new outcome.new
            ((walker self.now).leave kept node.now.form node.now.text.now node.now.place node.now.parts (seen_in out.old design.old outcome.old))) }
        ensures extends { Extends out.old out.new };
}

/// Walks over a forest, whose first tree has this state. A tree that two nodes share is walked for each of them. The only error is
/// that memory ran out; the table is then as the calls so far have left it.
#[tactic(auto, using(vd_forest::proofs::StoreLemmas::extends_trans))]
pub fn walk<'a, F: Copy + Drop, G: Copy + Drop, A: Drop, D, I: Drop, T: Walking<'a, F, G, A, D, I>>(
    alloc: Global,
    from: &Cursor<'a, F>,
    at: A,
    design: &mut D,
    out: &mut Store<G>,
    by: &T,
) -> Result<Outcome<A>, AllocError>
    ensures is { IfOk result (λ outcome. IsOutcome out.new design.new outcome (walked (T.walker by.now) from.now at design.old)) }
    ensures extends { Extends out.old out.new }
{
    let (store, number) = from.stands();
    let mut frames: Vec<Frame<I>> = Vec::new(alloc);
    let mut level = Level {
        so_far: SoFar {
            trees: 0,
            first: None,
        },
        left: number,
        at,
    };
    while level.left > 0 || !frames.is_empty() {
        if level.left > 0 {
            level = into_tree(alloc, store, level, &mut frames, design, out, by)?;
        } else if let Some(frame) = frames.pop() {
            level = end_level(alloc, store, level, frame, design, out, by)?;
        }
    }
    let outcome = end_of(level, out)?;
    Ok(outcome)
}
