//! The levels of a forest that is walked: lists of trees, each but the outermost one the parts of a tree.

ghost use Rattle.std.specs.Prelude.{◌≡◌, ◌<◌, ◌≤◌, IfOk, OnOk, length};
ghost use Rattle.vd_forest.specs.Forest.{nothing, more, next_of, turned};
ghost use Rattle.vd_forest.specs.Store.{at, Holds, Extends};
ghost use Rattle.vd_walks.specs.Least.{lesser as lesser_refusal};
ghost use Rattle.vd_walks.specs.Levels.{IsLevel, IsFrame, AreFrames, steps, of_level, of_frame, of_frames};

use crate::lesser;
use crate::walking::{Entry, Outcome, Walking};
use std::alloc::{AllocError, Global};
use vd_bytes::Refused;
use vd_forest::{Opened, Store};

/// What a level has come to so far: its trees in the store that is made, the last one first, and the first rule that is broken.
#[derive(Clone, Copy)]
pub(crate) struct SoFar {
    pub(crate) trees: u32,
    pub(crate) first: Option<Refused>,
}

/// A level: what it has come to so far, the trees that are left of it, and the state before them.
#[derive(Drop)]
pub(crate) struct Level<A> {
    pub(crate) so_far: SoFar,
    pub(crate) left: u32,
    pub(crate) at: A,
}

/// A tree whose parts are walked, by its number: what its level came to before it, and what is kept of it.
#[derive(Drop)]
pub(crate) struct Frame<I> {
    pub(crate) number: u32,
    pub(crate) so_far: SoFar,
    pub(crate) kept: I,
}

/// A node, with the numbers of its parts and of the trees after it.
#[derive(Drop)]
struct Visited<'a, F: Copy + Drop> {
    node: Opened<'a, F>,
    parts: u32,
    next: u32,
}

/// The node with a number.
fn visit<F: Copy + Drop>(store: &Store<F>, number: u32) -> Visited<'_, F>
    requires number_in { number ≤ length store.now }
    requires some { 0 < number }
    ensures is { at store.now number ≡
        more result.node.form result.node.text.now result.node.place (at store.now result.parts) (at store.now result.next) }
    ensures parts { result.node.parts ≡ at store.now result.parts }
    ensures parts_older { result.parts < number }
    ensures next_older { result.next < number }
{
    let head = store.node(number);
    Visited {
        node: Opened {
            form: head.form,
            text: head.text,
            place: head.place,
            parts: store.cursor(head.parts),
            next: store.cursor(head.next),
        },
        parts: head.parts,
        next: head.next,
    }
}

/// The level after a tree that came to this.
fn after_tree<G: Copy + Drop, A: Drop>(
    so_far: SoFar,
    outcome: Outcome<A>,
    left: u32,
    out: &mut Store<G>,
) -> Result<Level<A>, AllocError>
    requires trees_in { so_far.trees ≤ length out.old }
    requires outcome_in { outcome.tree ≤ length out.old }
    ensures trees { IfOk result (λ level. Holds out.new level.so_far.trees (turned (at out.old outcome.tree) (at out.old so_far.trees))) }
    ensures first { IfOk result (λ level. level.so_far.first ≡ lesser_refusal so_far.first outcome.first) }
    ensures left { IfOk result (λ level. level.left ≡ left) }
    ensures state { IfOk result (λ level. level.at ≡ outcome.at) }
    ensures extends { Extends out.old out.new }
{
    let trees = out.turn(outcome.tree, so_far.trees)?;
    let first = lesser(so_far.first, outcome.first);
    Ok(Level {
        so_far: SoFar { trees, first },
        left,
        at: outcome.at,
    })
}

/// What a level has come to at its end, its trees in their order.
pub(crate) fn end_of<G: Copy + Drop, A: Drop>(
    level: Level<A>,
    out: &mut Store<G>,
) -> Result<Outcome<A>, AllocError>
    requires { level.so_far.trees ≤ length out.old }
    ensures trees { IfOk result (λ outcome. Holds out.new outcome.tree (turned (at out.old level.so_far.trees) nothing)) }
    ensures first { IfOk result (λ outcome. outcome.first ≡ level.so_far.first) }
    ensures state { IfOk result (λ outcome. outcome.at ≡ level.at) }
    ensures extends { Extends out.old out.new }
{
    let tree = out.turn(level.so_far.trees, 0)?;
    Ok(Outcome {
        tree,
        at: level.at,
        first: level.so_far.first,
    })
}

/// Enters the first tree that is left of a level. Where its parts are walked, they are the level to go on with, and the tree
/// waits in `frames`.
#[tactic(auto, using(vd_forest::proofs::StoreLemmas::extends_trans))]
pub(crate) fn into_tree<
    'a,
    F: Copy + Drop,
    G: Copy + Drop,
    A: Drop,
    D,
    I: Drop,
    T: Walking<'a, F, G, A, D, I>,
>(
    alloc: Global,
    store: &'a Store<F>,
    level: Level<A>,
    frames: &mut Vec<Frame<I>>,
    design: &mut D,
    out: &mut Store<G>,
    by: &T,
) -> Result<Level<A>, AllocError>
    requires some { 0 < level.left }
    requires level_in { IsLevel store.now out.old level }
    requires frames_in { AreFrames store.now out.old frames.old.items }
    ensures level_in { IfOk result (IsLevel store.now out.new) }
    ensures frames_in { OnOk result (AreFrames store.now out.new frames.new.items) }
    ensures same { IfOk result (λ next.
        of_frames (T.walker by.now) store.now out.new frames.new.items (of_level (T.walker by.now) store.now out.new design.new next)
        ≡ of_frames (T.walker by.now) store.now out.old frames.old.items (of_level (T.walker by.now) store.now out.old design.old level)) }
    ensures less { IfOk result (λ next. steps store.now frames.new.items next < steps store.now frames.old.items level) }
    ensures extends { Extends out.old out.new }
{
    let tree = visit(store, level.left);
    match by.enter(alloc, &tree.node, level.at, design, out)? {
        Entry::Done(outcome) => {
            let next = after_tree(level.so_far, outcome, tree.next, out)?;
            Ok(next)
        }
        Entry::Inside { at, kept } => {
            frames.push(Frame {
                number: level.left,
                so_far: level.so_far,
                kept,
            })?;
            Ok(Level {
                so_far: SoFar {
                    trees: 0,
                    first: None,
                },
                left: tree.parts,
                at,
            })
        }
    }
}

/// Leaves the tree of a frame, whose parts are the level and are walked to the end. The level to go on with is the tree's own.
#[tactic(auto, using(vd_forest::proofs::StoreLemmas::extends_trans))]
pub(crate) fn end_level<
    'a,
    F: Copy + Drop,
    G: Copy + Drop,
    A: Drop,
    D,
    I: Drop,
    T: Walking<'a, F, G, A, D, I>,
>(
    alloc: Global,
    store: &'a Store<F>,
    level: Level<A>,
    frame: Frame<I>,
    design: &mut D,
    out: &mut Store<G>,
    by: &T,
) -> Result<Level<A>, AllocError>
    requires ended { level.left ≡ 0 }
    requires level_in { IsLevel store.now out.old level }
    requires frame_in { IsFrame store.now out.old frame }
    ensures level_in { IfOk result (IsLevel store.now out.new) }
    ensures same { IfOk result (λ next.
        of_level (T.walker by.now) store.now out.new design.new next
        ≡ of_frame (T.walker by.now) store.now out.old frame (of_level (T.walker by.now) store.now out.old design.old level)) }
    ensures left { IfOk result (λ next. at store.now next.left ≡ next_of (at store.now frame.number)) }
    ensures extends { Extends out.old out.new }
{
    let tree = visit(store, frame.number);
    let mut outcome = end_of(level, out)?;
    by.leave(alloc, frame.kept, &tree.node, &mut outcome, design, out)?;
    let next = after_tree(frame.so_far, outcome, tree.next, out)?;
    Ok(next)
}
