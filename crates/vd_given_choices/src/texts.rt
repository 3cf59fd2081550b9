//! Whether texts are all arrays of so many elements.

ghost use Rattle.std.specs.List.{All};
ghost use Rattle.std.specs.Prelude.{◌≡◌, [], IfOk, List, length, ℤ};
ghost use Rattle.vd_given_choices.specs.Texts.{AreCounted};
ghost use Rattle.vd_choices.specs.Texts.{texts_of};
ghost use Rattle.vd_composites.specs.Ranges.{values_in};
ghost use Rattle.vd_value_rules.specs.Choices.{are_texts_covered as all_given};

use crate::covering::interval;
use crate::covering_ranges::is_null;
use std::alloc::{AllocError, Global};
use vd_choices::{Text, texts_cover};
use vd_composites::{Bounds, places_are_indexes};

/// Whether no text at all is each text of so many elements from a range.
fn are_none_wanted(count: u128, within: Bounds) -> bool
    ensures { result ≡ all_given count (values_in within) [] }
{
    if count == 0 {
        return false;
    }
    is_null(within)
}

/// Whether there are each of the texts of so many elements from a range, where there is a first one.
fn are_all_there(
    alloc: Global,
    count: usize,
    within: Bounds,
    texts: &[Text],
) -> Result<bool, AllocError>
    ensures { (ts : List (List ℤ)) → AreCounted (texts_of texts.now) ts → IfOk result (λ answer. answer ≡ all_given count (values_in within) ts) }
{
    places_are_indexes();
    texts_cover(alloc, interval(within), count, texts)
}

/// Whether there are each of the texts of so many elements from a range. No more texts are tried than there are, and one.
pub fn are_texts_covered(
    alloc: Global,
    count: u128,
    within: Bounds,
    texts: &[Text],
) -> Result<bool, AllocError>
    requires long { All (λ t. length t.positions.items ≡ count) texts.now }
    ensures { (ts : List (List ℤ)) → AreCounted (texts_of texts.now) ts → IfOk result (λ answer. answer ≡ all_given count (values_in within) ts) }
{
    match texts.first() {
        None => Ok(are_none_wanted(count, within)),
        Some(first) => are_all_there(alloc, first.positions.len(), within, texts),
    }
}
