//! A forest looked at from its leaves on.

ghost use Rattle.std.specs.Prelude.{◌≡◌, ◌∷◌, IfOk, List, OnOk, reverse};
ghost use Rattle.std.specs.List.{All};
ghost use Rattle.vd_walks.specs.Trees.{AreForests, AreSound, AreTrees, Takes};
ghost use Rattle.vd_forest.specs.Forest.{Forest, more};

use crate::visits::visits;
use std::alloc::{AllocError, Global};
use vd_forest::{Cursor, Opened};

/// What a tree comes to, by itself and by what its parts come to. A table may grow meanwhile.
pub trait FromLeaves<'a, F: Copy + Drop, S: Drop> {
    /// Whether the table is as it must be, and whether something fits it.
    ghost is_ready: { Self → Type 0 };

    ghost is_sound: { Self → S → Type 0 };

    /// What of the table stays.
    ghost Frame: { Type 0 };

    ghost frame: { Self → Frame };

    /// Whether it is what the first tree of a forest comes to.
    ghost comes_to: { Self → Forest F → S → Type 0 };

    /// What a tree comes to.
    fn tree(&mut self, alloc: Global, tree: &Opened<'a, F>, parts: &[S]) -> Result<S, AllocError>
        requires ready { is_ready self.old }
        requires sound { All (is_sound self.old) parts.now }
        ensures ready { is_ready self.new }
        ensures sound { IfOk result (is_sound self.new) }
        ensures still_sound { (s : S) → is_sound self.old s → is_sound self.new s }
        ensures comes_to { AreTrees (comes_to self.old) tree.now.parts parts.now
            → IfOk result (comes_to self.old (more tree.now.form tree.now.text.now tree.now.place tree.now.parts tree.now.next)) }
        ensures kept { (f : Forest F) (s : S) → comes_to self.old f s → comes_to self.new f s }
        ensures as_before { (f : Forest F) (s : S) → comes_to self.new f s → comes_to self.old f s }
        ensures same { frame self.new ≡ frame self.old };
}

/// Puts what the first tree of a forest comes to in front of what stands for the trees behind it. What stands for these and for the
/// parts of the tree is on the stack, each with its last tree first.
fn step<'a, F: Copy + Drop, S: Drop, T: FromLeaves<'a, F, S>>(
    alloc: Global,
    forest: &Cursor<'a, F>,
    by: &mut T,
    stack: &mut Vec<Vec<S>>,
) -> Result<(), AllocError>
    requires ready { T.is_ready by.old }
    requires sound { AreSound (T.is_sound by.old) stack.old.items }
    ensures ready { T.is_ready by.new }
    ensures sound { OnOk result (AreSound (T.is_sound by.new) stack.new.items) }
    ensures still_sound { (s : S) → T.is_sound by.old s → T.is_sound by.new s }
    ensures comes_to { (fs rest : List (Forest F)) → Takes forest.now fs rest → AreForests (T.comes_to by.old) fs (reverse stack.old.items)
        → OnOk result (AreForests (T.comes_to by.old) (forest.now ∷ rest) (reverse stack.new.items)) }
    ensures kept { (f : Forest F) (s : S) → T.comes_to by.old f s → T.comes_to by.new f s }
    ensures as_before { (f : Forest F) (s : S) → T.comes_to by.new f s → T.comes_to by.old f s }
    ensures same { T.frame by.new ≡ T.frame by.old }
{
    let Some(first) = forest.open() else {
        stack.push(Vec::new(alloc))?;
        return Ok(());
    };
    let (Some(mut parts), Some(mut trees)) = (stack.pop(), stack.pop()) else {
        return Err(AllocError);
    };
    parts.reverse();
    let made = by.tree(alloc, &first, &parts)?;
    trees.push(made)?;
    stack.push(trees)?;
    Ok(())
}

/// What the trees of a forest come to. A tree that two nodes share is looked at for each of them. The only error is that memory ran out.
pub fn from_leaves<'a, F: Copy + Drop, S: Drop, T: FromLeaves<'a, F, S>>(
    alloc: Global,
    from: &Cursor<'a, F>,
    by: &mut T,
) -> Result<Vec<S>, AllocError>
    requires ready { T.is_ready by.old }
    ensures ready { T.is_ready by.new }
    ensures sound { IfOk result (λ made. All (T.is_sound by.new) made.items) }
    ensures comes_to { IfOk result (λ made. AreTrees (T.comes_to by.old) from.now made.items) }
    ensures kept { (f : Forest F) (s : S) → T.comes_to by.old f s → T.comes_to by.new f s }
    ensures as_before { (f : Forest F) (s : S) → T.comes_to by.new f s → T.comes_to by.old f s }
    ensures same { T.frame by.new ≡ T.frame by.old }
{
    let forests = visits(alloc, from)?;
    let mut stack: Vec<Vec<S>> = Vec::new(alloc);
    let mut left = forests.len();
    while left > 0 {
        left -= 1;
        step(alloc, &forests[left], by, &mut stack)?;
    }
    let Some(mut made) = stack.pop() else {
        return Err(AllocError);
    };
    made.reverse();
    Ok(made)
}
