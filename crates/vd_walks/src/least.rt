//! Searching a forest for the least refusal.

ghost use Rattle.std.specs.Prelude.{◌≡◌, ◌≤◌, IfOk, length};
ghost use Rattle.vd_walks.specs.Least.{Judge, is_less as less, lesser as lesser_refusal, least, least_of};

use std::alloc::{AllocError, Global};
use vd_bytes::{Place, Refused};
use vd_forest::{Cursor, Opened};

/// Rules that each node keeps or breaks, in a state that comes from outside.
pub trait Judging<F: Copy + Drop, S: Copy + Drop> {
    ghost judge: { Self → Judge F S };

    /// The least of the refusals of one node.
    fn broken(
        &self,
        alloc: Global,
        state: &S,
        node: &Opened<'_, F>,
    ) -> Result<Option<Refused>, AllocError>
        ensures { IfOk result (λ found.
            found ≡ least_of ((judge self.now).broken state.now node.now.form node.now.text.now node.now.place node.now.parts)) };

    /// The state of the first of a node's parts.
    fn down(&self, alloc: Global, state: &S, node: &Opened<'_, F>) -> Result<S, AllocError>
        ensures { IfOk result (λ s.
            s ≡ (judge self.now).down state.now node.now.form node.now.text.now node.now.place node.now.parts) };

    /// The state of the tree after a node.
    fn along(&self, alloc: Global, state: &S, node: &Opened<'_, F>) -> Result<S, AllocError>
        ensures { IfOk result (λ s.
            s ≡ (judge self.now).along state.now node.now.form node.now.text.now node.now.place node.now.parts) };
}

/// Whether one place is before another.
pub fn is_before(a: &Place, b: &Place) -> bool
    ensures { result ≡ Rattle.vd_walks.specs.Least.is_before a.now b.now }
{
    a.file < b.file
        || (a.file == b.file && (a.line < b.line || (a.line == b.line && a.column < b.column)))
}

/// Whether two places are the same.
fn is_same_place(a: &Place, b: &Place) -> bool
    ensures { result ≡ Rattle.vd_walks.specs.Least.is_same_place a.now b.now }
{
    a.file == b.file && (a.line == b.line && a.column == b.column)
}

/// Whether one refusal is at an earlier place than another, or at the same place with a lesser rule.
pub fn is_less(a: &Refused, b: &Refused) -> bool
    ensures { result ≡ less a.now b.now }
{
    is_before(&a.place, &b.place) || (is_same_place(&a.place, &b.place) && a.rule < b.rule)
}

/// The lesser of two refusals, where there are two.
pub fn lesser(a: Option<Refused>, b: Option<Refused>) -> Option<Refused>
    ensures { result ≡ lesser_refusal a b }
{
    match (a, b) {
        (None, _) => b,
        (Some(_), None) => a,
        (Some(first), Some(second)) => { if is_less(&second, &first) { b } else { a } }
    }
}

/// A forest that is still to be searched, by its number, and its state.
#[derive(Clone, Copy)]
struct Left<S> {
    number: u32,
    state: S,
}

/// The least refusal of a forest whose first tree has this state.
#[tactic(auto, using(crate::proofs::LeastLemmas::least_steps))]
pub fn find_least<F: Copy + Drop, S: Copy + Drop, T: Judging<F, S>>(
    alloc: Global,
    from: &Cursor<'_, F>,
    state: S,
    by: &T,
) -> Result<Option<Refused>, AllocError>
    ensures { IfOk result (λ found. found ≡ least (T.judge by.now) state from.now) }
{
    let (store, number) = from.stands();
    let mut found: Option<Refused> = None;
    let mut left: Vec<Left<S>> = Vec::new(alloc);
    left.push(Left { number, state })?;
    while let Some(last) = left.pop() {
        if last.number > 0 {
            let head = store.node(last.number);
            let node = Opened {
                form: head.form,
                text: head.text,
                place: head.place,
                parts: store.cursor(head.parts),
                next: store.cursor(head.next),
            };
            let here = by.broken(alloc, &last.state, &node)?;
            found = lesser(found, here);
            let along = by.along(alloc, &last.state, &node)?;
            let down = by.down(alloc, &last.state, &node)?;
            left.push(Left {
                number: head.next,
                state: along,
            })?;
            left.push(Left {
                number: head.parts,
                state: down,
            })?;
        }
    }
    Ok(found)
}
