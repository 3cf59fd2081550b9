//! What is refused of choices of selectors of array types.

ghost use Rattle.std.specs.Prelude.{◌≡◌, IfOk, None};
ghost use Rattle.vd_choice_rules.specs.SelectingStatements.{IsSelecting};
ghost use Rattle.vd_choice_rules.specs.Texts.{lacks_others, texts_refused};
ghost use Rattle.vd_environments.specs.Environments.{Env};
ghost use Rattle.vd_walks.specs.Least.{least_of};
ghost use Rattle.vd_value_rules.specs.Choices.{Selecting as selectings, array_choices, left_out};

use crate::Selecting;
use crate::covering::leave_out;
use crate::lengths::first_of_other_length;
use crate::repeats::first_repeated_text;
use crate::selecting_scalars::is_lacking;
use std::alloc::{AllocError, Global};
use vd_bytes::Refused;
use vd_value_rules::refused_if;
use vd_vectors::LogicType;
use vd_walks::lesser;

/// Whether `others` is missing: where a selector is compared by `?=` it must always be there, and else only where values are left out.
fn is_others_missing(matching: Option<LogicType>, is_left_out: bool, has_others: bool) -> bool
    ensures { result ≡ lacks_others matching is_left_out has_others }
{
    match matching {
        Some(_) => !has_others,
        None => is_lacking(is_left_out, has_others),
    }
}

/// What is refused where `others` is missing.
fn missing(selecting: &Selecting, is_left_out: bool) -> Option<Refused>
    ensures { (s : selectings) → IsSelecting selecting.now s → result ≡ least_of (left_out s.comparison is_left_out s) }
{
    let lacking = is_others_missing(selecting.matching, is_left_out, selecting.has_others);
    refused_if(lacking, selecting.place, 403)
}

/// The first refusal of choices of a selector of an array type that has so many elements. That no choice matches an earlier one, where they are
/// compared by `?=`, isn't asked here.
pub fn refused_texts(
    alloc: Global,
    selecting: &Selecting,
    count: u128,
) -> Result<Option<Refused>, AllocError>
    ensures { (s : selectings) → IsSelecting selecting.now s → IfOk result (λ found. found ≡ least_of (texts_refused count s)) }
{
    let choices = selecting.choices.as_slice();
    let unselectable = refused_if(!selecting.is_selectable, selecting.selector_place, 405);
    let other_length = first_of_other_length(alloc, count, choices)?;
    let gap = leave_out(alloc, count, choices, selecting.shape.taken_by_elements)?;
    let repeated = first_repeated_text(alloc, count, choices)?;
    let of_lengths = lesser(unselectable, other_length);
    let not_repeated = lesser(of_lengths, missing(selecting, gap));
    Ok(lesser(not_repeated, repeated))
}

/// The first refusal of choices of a selector of an array type whose length isn't known when the text is analysed.
pub fn refused_lengthless(selecting: &Selecting) -> Option<Refused>
    ensures { (e : Env) (s : selectings) → IsSelecting selecting.now s → result ≡ least_of (array_choices e None s) }
{
    let lengthless = Refused {
        place: selecting.selector_place,
        rule: 405,
    };
    lesser(Some(lengthless), missing(selecting, false))
}
