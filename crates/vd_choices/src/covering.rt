//! IEEE 1076, choices of a selector that is an array of known length: whether they cover all texts that they must take.

ghost use Rattle.std.specs.Prelude.{◌≡◌, ◌<◌, ◌≤◌, ◌↔◌, IsTrue, IfOk, ℕ, List, length, replicate, if◌then◌else◌};
ghost use Rattle.vd_choices.specs.TextOrder.{has_text, next_text};
ghost use Rattle.vd_choices.specs.Texts.{AreTextsCovered, IsWithin, texts_of};

use crate::intervals::Interval;
use crate::texts::Text;
use indexmap::IndexSet;
use std::alloc::{AllocError, Global};

/// Whether each text of `length` elements from `within` is a choice. Texts are tried in an order, up to the first that is no choice:
/// so no more texts are tried than there are choices, and one.
pub fn texts_cover(
    alloc: Global,
    within: Interval,
    length: usize,
    choices: &[Text],
) -> Result<bool, AllocError>
    ensures { IfOk result (λ answer. IsTrue answer ↔ AreTextsCovered within length (texts_of choices.now)) }
{
    if length > 0 && within.high < within.low {
        return Ok(true);
    }
    let mut seen: IndexSet<&[u64]> = IndexSet::new(alloc);
    for choice in choices {
        seen.insert(choice.positions.as_slice())?;
    }
    let mut first = vec![in alloc; within.low; length]?;
    Ok(are_all_seen(within, &seen, &mut first))
}

/// Whether each text within the interval, as long as this one, is seen; it begins as the first of them.
fn are_all_seen(within: Interval, seen: &IndexSet<&[u64]>, text: &mut [u64]) -> bool
    requires proper { 0 < length text.old → within.low ≤ within.high }
    requires least { text.old ≡ replicate (length text.old) within.low }
    ensures { IsTrue result ↔ ((tried : List ℕ) → length tried ≡ length text.old → IsWithin within tried → IsTrue (has_text seen.now.keys tried)) }
{
    loop {
        if !seen.contains(&*text) {
            return false;
        }
        if !advance(within, text) {
            return true;
        }
    }
}

/// The next text, in the order in which the last element counts most; none behind the last one.
fn advance(within: Interval, text: &mut [u64]) -> bool
    ensures { next_text within text.old ≡ (if result then Some text.new else None) }
{
    for i in 0..text.len() {
        if text[i] < within.high {
            text[i] += 1;
            return true;
        }
        text[i] = within.low;
    }
    false
}
