//! Whether choices leave out an array that they must take.

ghost use Rattle.std.specs.List.{list_all};
ghost use Rattle.std.specs.Prelude.{◌≡◌, ◌++◌, IfOk, List, OnOk, is_some, ℤ};
ghost use Rattle.vd_given_choices.specs.Texts.{AreCounted, IsCounted};
ghost use Rattle.vd_choice_rules.specs.Texts.{items_where, text_in, texts_missing, value_in};
ghost use Rattle.vd_choices.specs.Texts.{texts_of};
ghost use Rattle.vd_given_choices.specs.Refusals.{listed, those_known};

use crate::positions::text_of;
use std::alloc::{AllocError, Global};
use vd_choices::Text;
use vd_composites::Bounds;
use vd_given_choices::{Choice, are_texts_covered, counted};

/// Whether the value of a choice is known.
fn is_known(choice: &Choice) -> bool
    ensures { result ≡ is_some (value_in choice.now) }
{
    if choice.is_static {
        choice.value.is_some()
    } else {
        false
    }
}

/// Whether the values of all choices are known.
fn are_all_known(choices: &[Choice]) -> bool
    ensures { result ≡ list_all (λ x. is_some (value_in x)) choices.now }
{
    choices.iter().all(|choice| is_known(choice))
}

/// Positions, counted from the least one that there is.
fn counted_text(alloc: Global, positions: &[i64]) -> Result<Text, AllocError>
    ensures { IfOk result (λ text. IsCounted text.positions.items positions.now) }
{
    let mut numbers = Vec::with_capacity(alloc, positions.len())?;
    for position in positions {
        numbers.push(counted(*position))?;
    }
    Ok(Text { positions: numbers })
}

/// One more text, where there is one.
fn add_text(alloc: Global, texts: &mut Vec<Text>, text: Option<Vec<i64>>) -> Result<(), AllocError>
    ensures { (ts : List (List ℤ)) → AreCounted (texts_of texts.old.items) ts
        → OnOk result (AreCounted (texts_of texts.new.items) (ts ++ listed (items_where text))) }
{
    if let Some(positions) = text {
        let counted = counted_text(alloc, &positions)?;
        texts.push(counted)?;
    }
    Ok(())
}

/// The texts of the choices that have so many elements.
fn known_texts(alloc: Global, count: u128, choices: &[Choice]) -> Result<Vec<Text>, AllocError>
    ensures { IfOk result (λ texts. AreCounted (texts_of texts.items) (those_known (text_in count) choices.now)) }
{
    let mut texts = Vec::new(alloc);
    for choice in choices {
        let text = text_of(alloc, count, choice)?;
        add_text(alloc, &mut texts, text)?;
    }
    Ok(texts)
}

/// Whether choices leave out one of the arrays of so many elements from a range, where all are known.
pub(crate) fn leave_out(
    alloc: Global,
    count: u128,
    choices: &[Choice],
    taken: Bounds,
) -> Result<bool, AllocError>
    ensures { IfOk result (λ answer. answer ≡ texts_missing count taken choices.now) }
{
    if !are_all_known(choices) {
        return Ok(false);
    }
    let texts = known_texts(alloc, count, choices)?;
    let covered = are_texts_covered(alloc, count, taken, &texts)?;
    Ok(!covered)
}
