//! Gathering answers in the order of a text.

ghost use Rattle.std.specs.Prelude.{◌≡◌, ◌++◌, [], IfOk};
ghost use Rattle.vd_walks.specs.Gathering.{all_found, with_answer};

use crate::Finding;
use std::alloc::{AllocError, Global};
use vd_forest::{Cursor, Opened};

/// A forest that is still to be searched, by its number, and its state.
#[derive(Clone, Copy)]
struct Left<S> {
    number: u32,
    state: S,
}

/// Puts an answer behind the others.
fn add<A: Drop>(found: &mut Vec<A>, answer: Option<A>) -> Result<(), AllocError>
    ensures { IfOk result (λ _. found.new.items ≡ found.old.items ++ with_answer answer []) }
{
    if let Some(a) = answer {
        found.push(a)?;
    }
    Ok(())
}

/// All answers, in the order of the text, of a forest whose first tree has this state.
#[tactic(auto, using(crate::proofs::GatheringLemmas::gathering_steps))]
pub fn find_all<F: Copy + Drop, S: Copy + Drop, A: Drop, T: Finding<F, S, A>>(
    alloc: Global,
    from: &Cursor<'_, F>,
    state: S,
    by: &T,
) -> Result<Vec<A>, AllocError>
    ensures { IfOk result (λ found. found.items ≡ all_found (T.finder by.now) state from.now) }
{
    let (store, number) = from.stands();
    let mut found: Vec<A> = Vec::new(alloc);
    let mut left: Vec<Left<S>> = Vec::new(alloc);
    left.push(Left { number, state })?;
    while let Some(last) = left.pop() {
        if last.number > 0 {
            let head = store.node(last.number);
            let node = Opened {
                form: head.form,
                text: head.text,
                place: head.place,
                parts: store.cursor(head.parts),
                next: store.cursor(head.next),
            };
            let here = by.answer(alloc, &last.state, &node)?;
            add(&mut found, here)?;
            let along = by.along(alloc, &last.state, &node)?;
            let down = by.down(alloc, &last.state, &node)?;
            left.push(Left {
                number: head.next,
                state: along,
            })?;
            left.push(Left {
                number: head.parts,
                state: down,
            })?;
        }
    }
    Ok(found)
}
