//! Searching a forest in the order of its text.

ghost use Rattle.std.specs.Prelude.{◌≡◌, ◌≤◌, IfOk, length};
ghost use Rattle.vd_walks.specs.Finding.{Finder, first_found};

use std::alloc::{AllocError, Global};
use vd_forest::{Cursor, Opened};

/// A question that each node answers or not, in a state that comes from outside.
pub trait Finding<F: Copy + Drop, S: Copy + Drop, A: Drop> {
    ghost finder: { Self → Finder F S A };

    /// The answer of one node.
    fn answer(
        &self,
        alloc: Global,
        state: &S,
        node: &Opened<'_, F>,
    ) -> Result<Option<A>, AllocError>
        ensures { IfOk result (λ found.
            found ≡ (finder self.now).answer state.now node.now.form node.now.text.now node.now.place node.now.parts) };

    /// The state of the first of a node's parts.
    fn down(&self, alloc: Global, state: &S, node: &Opened<'_, F>) -> Result<S, AllocError>
        ensures { IfOk result (λ s.
            s ≡ (finder self.now).down state.now node.now.form node.now.text.now node.now.place node.now.parts) };

    /// The state of the tree after a node.
    fn along(&self, alloc: Global, state: &S, node: &Opened<'_, F>) -> Result<S, AllocError>
        ensures { IfOk result (λ s.
            s ≡ (finder self.now).along state.now node.now.form node.now.text.now node.now.place node.now.parts) };
}

/// A forest that is still to be searched, by its number, and its state.
#[derive(Clone, Copy)]
struct Left<S> {
    number: u32,
    state: S,
}

/// The first answer, in the order of the text, of a forest whose first tree has this state.
#[tactic(auto, using(crate::proofs::FindingLemmas::finding_steps))]
pub fn find_first<F: Copy + Drop, S: Copy + Drop, A: Drop, T: Finding<F, S, A>>(
    alloc: Global,
    from: &Cursor<'_, F>,
    state: S,
    by: &T,
) -> Result<Option<A>, AllocError>
    ensures { IfOk result (λ found. found ≡ first_found (T.finder by.now) state from.now) }
{
    let (store, number) = from.stands();
    let mut left: Vec<Left<S>> = Vec::new(alloc);
    left.push(Left { number, state })?;
    while let Some(last) = left.pop() {
        if last.number > 0 {
            let head = store.node(last.number);
            let node = Opened {
                form: head.form,
                text: head.text,
                place: head.place,
                parts: store.cursor(head.parts),
                next: store.cursor(head.next),
            };
            if let Some(found) = by.answer(alloc, &last.state, &node)? {
                return Ok(Some(found));
            }
            let along = by.along(alloc, &last.state, &node)?;
            let down = by.down(alloc, &last.state, &node)?;
            left.push(Left {
                number: head.next,
                state: along,
            })?;
            left.push(Left {
                number: head.parts,
                state: down,
            })?;
        }
    }
    Ok(None)
}
