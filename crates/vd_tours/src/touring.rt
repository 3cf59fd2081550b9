//! A walk over a forest that makes trees of another sort, with a table.

ghost use Rattle.std.specs.Prelude.{◌≡◌, ◌≤◌, ◌∷◌, IfOk, List, length};
ghost use Rattle.vd_forest.specs.Forest.{Forest};
ghost use Rattle.vd_forest.specs.Store.{at, Extends};
ghost use Rattle.vd_walks.specs.Positions.{Along, Down, Position, Tree, passed, tree_of};
ghost use Rattle.vd_tours.specs.Tours.{AreMade, IsAtEnd, IsAtPlace, IsEntered, IsLeft, IsToured, IsWithin};

use std::alloc::{AllocError, Global};
use vd_forest::{Cursor, Opened, Store};

/// What is done with a tree.
#[derive(Clone, Copy)]
pub enum Entry {
    /// The walk goes into its parts, and what it becomes is made when it is left.
    Inside,
    /// These trees take its place, and its parts are not walked.
    Done(u32),
}

/// What a walk makes of each tree of the forms `F`: any number of trees of the forms `G`, in a store that only grows. The
/// implementor is the table of the walk, and chooses what is known at a place and what a tree becomes.
pub trait Touring<'a, F: Copy + Drop, G: Copy + Drop> {
    /// Whether the table knows what holds at the first of these places, and again at the further ones, one after the other, once the walk
    /// is back there. The store that is made was this list of forests then, or has grown since.
    ghost knows: { Self → List (Forest G) → List (Position F) → Type 0 };

    /// What of the table stays.
    ghost Frame: { Type 0 };

    ghost frame: { Self → Frame };

    /// Whether these trees may take the place of a tree whose parts are not walked.
    ghost replaces: { Frame → Position F → Tree F → Forest G → Type 0 };

    /// Whether a tree becomes these trees, the second ones, where its parts became the first ones.
    ghost becomes: { Frame → Position F → Tree F → Forest G → Forest G → Type 0 };

    /// What is done with a tree, before its parts.
    fn enter(
        &mut self,
        alloc: Global,
        out: &mut Store<G>,
        node: &Opened<'a, F>,
    ) -> Result<Entry, AllocError>
        requires place { IsAtPlace (knows self.old) out.old }
        ensures within { IfOk result (IsWithin out.new) }
        ensures entered { (before : List (Forest G)) (p : Position F) (ps : List (Position F)) → Extends before out.old → knows self.old before (p ∷ ps)
            → IfOk result (IsEntered (knows self.new) (replaces (frame self.old)) out.new p ps (tree_of node.now)) }
        ensures extends { Extends out.old out.new }
        ensures same { frame self.new ≡ frame self.old };

    /// Makes what a tree becomes of what its parts became.
    fn leave(
        &mut self,
        alloc: Global,
        out: &mut Store<G>,
        node: &Opened<'a, F>,
        parts: u32,
    ) -> Result<u32, AllocError>
        requires parts_in { parts ≤ length out.old }
        requires end { IsAtEnd (knows self.old) out.old (tree_of node.now) }
        ensures within { IfOk result (λ trees. trees ≤ length out.new) }
        ensures left { (before : List (Forest G)) (p : Position F) (ps : List (Position F)) → Extends before out.old
            → knows self.old before (passed (Down (tree_of node.now) ∷ p) node.now.parts ∷ p ∷ ps)
            → AreMade (replaces (frame self.old)) (becomes (frame self.old)) (Down (tree_of node.now) ∷ p) node.now.parts (at out.old parts)
            → IfOk result (IsLeft (knows self.new) (becomes (frame self.old)) out.new p ps (tree_of node.now) (at out.old parts)) }
        ensures extends { Extends out.old out.new }
        ensures same { frame self.new ≡ frame self.old };
}

/// A tree whose parts are walked, and what its list has become before it, the last tree first.
#[derive(Drop)]
struct Waiting<'a, F: Copy + Drop> {
    tree: Cursor<'a, F>,
    made: u32,
}

/// Walks over a forest, and makes what its trees become, one after the other. A tree that two nodes share is walked for each of
/// them. The only error is that memory ran out.
pub fn tour<'a, F: Copy + Drop, G: Copy + Drop, T: Touring<'a, F, G>>(
    alloc: Global,
    from: &Cursor<'a, F>,
    out: &mut Store<G>,
    by: &mut T,
) -> Result<u32, AllocError>
    requires place { IsAtPlace (T.knows by.old) out.old }
    ensures within { IfOk result (λ trees. trees ≤ length out.new) }
    ensures made { (before : List (Forest G)) (p : Position F) (ps : List (Position F)) → Extends before out.old → T.knows by.old before (p ∷ ps)
        → IfOk result (IsToured (T.knows by.new) (T.replaces (T.frame by.old)) (T.becomes (T.frame by.old)) out.new p ps from.now) }
    ensures extends { Extends out.old out.new }
    ensures same { T.frame by.new ≡ T.frame by.old }
{
    let mut round: Vec<Waiting<'a, F>> = Vec::new(alloc);
    let mut left = from.fork();
    let mut made = 0;
    loop {
        if let Some(node) = left.open() {
            match by.enter(alloc, out, &node)? {
                Entry::Done(trees) => {
                    made = out.turn(trees, made)?;
                    left = node.next;
                }
                Entry::Inside => {
                    round.push(Waiting { tree: left, made })?;
                    left = node.parts;
                    made = 0;
                }
            }
        } else {
            let parts = out.turn(made, 0)?;
            let Some(last) = round.pop() else {
                return Ok(parts);
            };
            if let Some(node) = last.tree.open() {
                let trees = by.leave(alloc, out, &node, parts)?;
                made = out.turn(trees, last.made)?;
                left = node.next;
            }
        }
    }
}
