//! Texts that are given twice.

ghost use Rattle.std.specs.Prelude.{◌≡◌, ◌++◌, [], IfOk, List, OnOk, ℤ};
ghost use Rattle.vd_choice_rules.specs.Texts.{HasTexts, items_where, text_in};
ghost use Rattle.vd_given_choices.specs.Refusals.{listed, repeated_known, repeats_known};
ghost use Rattle.vd_walks.specs.Least.{least_of};
ghost use Rattle.vd_value_rules.specs.Choices.{same_text};

use crate::positions::text_of;
use indexmap::IndexSet;
use std::alloc::{AllocError, Global};
use vd_bytes::Refused;
use vd_given_choices::Choice;
use vd_value_rules::refused_if;
use vd_walks::lesser;

/// Puts a text, where there is one, among those that are seen, and says whether it was there already.
fn repeats(seen: &mut IndexSet<Vec<i64>>, text: Option<Vec<i64>>) -> Result<bool, AllocError>
    ensures answer { (known : List (List ℤ)) → HasTexts seen.old.keys known
        → IfOk result (λ was_there. was_there ≡ repeats_known same_text known (items_where text)) }
    ensures seen { (known : List (List ℤ)) → HasTexts seen.old.keys known
        → OnOk result (HasTexts seen.new.keys (known ++ listed (items_where text))) }
{
    match text {
        Some(text) => {
            let is_new = seen.insert(text)?;
            Ok(!is_new)
        }
        None => Ok(false),
    }
}

/// The first choice of so many elements that is the same as an earlier one. Each is looked up among those in front of it.
pub(crate) fn first_repeated_text(
    alloc: Global,
    count: u128,
    choices: &[Choice],
) -> Result<Option<Refused>, AllocError>
    ensures { IfOk result (λ found. found ≡ least_of (repeated_known same_text (text_in count) [] choices.now)) }
{
    let mut seen: IndexSet<Vec<i64>> = IndexSet::new(alloc);
    let mut found = None;
    for choice in choices {
        let text = text_of(alloc, count, choice)?;
        let was_there = repeats(&mut seen, text)?;
        let refused = refused_if(was_there, choice.place, 404);
        found = lesser(found, refused);
    }
    Ok(found)
}
