//! The forests in a forest, in the order in which a text has them.

ghost use Rattle.std.specs.Prelude.{◌≡◌, ◌<◌, ◌+◌, ◌*◌, ◌∷◌, ◌++◌, IfOk, OnOk};
ghost use Rattle.vd_walks.specs.Visits.{all_visited, visited, visits as count_of};
ghost use Rattle.vd_forest.specs.Forest.{size};

use std::alloc::{AllocError, Global};
use vd_forest::Cursor;

/// Puts what is in a forest behind its first tree in front of others that wait, and what is in the parts of that tree in front of that.
#[tactic(auto, using(crate::proofs::VisitLemmas::opened_visits))]
fn open_next<'a, F: Copy + Drop>(
    next: &Cursor<'a, F>,
    waiting: &mut Vec<Cursor<'a, F>>,
) -> Result<(), AllocError>
    ensures visited { OnOk result (next.now ∷ all_visited waiting.new.items ≡ visited next.now ++ all_visited waiting.old.items) }
    ensures fewer { OnOk result (count_of waiting.new.items < count_of waiting.old.items + (2 * size next.now + 1)) }
{
    let Some(first) = next.open() else {
        return Ok(());
    };
    waiting.push(first.next)?;
    waiting.push(first.parts)?;
    Ok(())
}

/// A forest, then the forests in the parts of its first tree, then those behind that tree.
pub(crate) fn visits<'a, F: Copy + Drop>(
    alloc: Global,
    from: &Cursor<'a, F>,
) -> Result<Vec<Cursor<'a, F>>, AllocError>
    ensures { IfOk result (λ made. made.items ≡ visited from.now) }
{
    let mut made: Vec<Cursor<'a, F>> = Vec::new(alloc);
    let mut waiting: Vec<Cursor<'a, F>> = Vec::new(alloc);
    waiting.push(from.fork())?;
    while let Some(next) = waiting.pop() {
        open_next(&next, &mut waiting)?;
        made.push(next)?;
    }
    Ok(made)
}
