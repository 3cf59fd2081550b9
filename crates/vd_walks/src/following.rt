//! A walk over a forest with a table that follows it.

ghost use Rattle.std.specs.Prelude.{◌≡◌, ◌++◌, ◌∷◌, List, OnOk};
ghost use Rattle.vd_bytes.specs.declared.answers.Refused.{Refused};
ghost use Rattle.vd_walks.specs.Positions.{Along, Down, IsAtEnd, IsAtPlace, Position, Tree, all_broken_at, passed, tree_of};

use std::alloc::{AllocError, Global};
use vd_forest::{Cursor, Opened};

/// A table that follows a walk over a forest, and finds what is broken in it.
pub trait Following<'a, F: Copy + Drop> {
    /// Whether the table has found these refusals, and knows what holds at the first of these places, and again at the further ones, one after the other,
    /// once the walk is back there.
    ghost follows: { Self → List Refused → List (Position F) → Type 0 };

    /// What a tree at a place breaks.
    ghost broken: { Self → Position F → Tree F → List Refused };

    /// Finds what a tree breaks, and goes into its parts.
    fn enter(&mut self, alloc: Global, node: &Opened<'a, F>) -> Result<(), AllocError>
        requires place { IsAtPlace (follows self.old) }
        ensures follows { (rs : List Refused) (p : Position F) (ps : List (Position F)) → follows self.old rs (p ∷ ps)
            → OnOk result (follows self.new (rs ++ broken self.old p (tree_of node.now)) ((Down (tree_of node.now) ∷ p) ∷ p ∷ ps)) }
        ensures same { broken self.new ≡ broken self.old };

    /// Goes from the end of a tree's parts behind the tree.
    fn leave(&mut self, alloc: Global, node: &Opened<'a, F>) -> Result<(), AllocError>
        requires end { IsAtEnd (follows self.old) (tree_of node.now) }
        ensures follows { (rs : List Refused) (p : Position F) (ps : List (Position F))
            → follows self.old rs (passed (Down (tree_of node.now) ∷ p) node.now.parts ∷ p ∷ ps)
            → OnOk result (follows self.new rs ((Along (tree_of node.now) ∷ p) ∷ ps)) }
        ensures same { broken self.new ≡ broken self.old };
}

/// Walks over a forest with a table that follows. The only error is that memory ran out.
pub fn follow<'a, F: Copy + Drop, T: Following<'a, F>>(
    alloc: Global,
    from: &Cursor<'a, F>,
    by: &mut T,
) -> Result<(), AllocError>
    requires place { IsAtPlace (T.follows by.old) }
    ensures follows { (rs : List Refused) (p : Position F) (ps : List (Position F)) → T.follows by.old rs (p ∷ ps)
        → OnOk result (T.follows by.new (rs ++ all_broken_at (T.broken by.old) p from.now) (passed p from.now ∷ ps)) }
    ensures same { T.broken by.new ≡ T.broken by.old }
{
    let mut round: Vec<Cursor<'a, F>> = Vec::new(alloc);
    let mut left = from.fork();
    loop {
        if let Some(node) = left.open() {
            by.enter(alloc, &node)?;
            round.push(left)?;
            left = node.parts;
        } else {
            let Some(last) = round.pop() else {
                return Ok(());
            };
            if let Some(node) = last.open() {
                by.leave(alloc, &node)?;
                left = node.next;
            }
        }
    }
}
