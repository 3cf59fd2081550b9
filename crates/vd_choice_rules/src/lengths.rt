//! Choices of another length than the selector.

ghost use Rattle.std.specs.Prelude.{◌≡◌, IfOk};
ghost use Rattle.vd_choice_rules.specs.Texts.{other_lengths_in};
ghost use Rattle.vd_walks.specs.Least.{least_of};

use crate::positions::has_other_length;
use std::alloc::{AllocError, Global};
use vd_bytes::Refused;
use vd_given_choices::Choice;
use vd_value_rules::refused_if;
use vd_walks::lesser;

/// The first choice that has another length.
pub(crate) fn first_of_other_length(
    alloc: Global,
    count: u128,
    choices: &[Choice],
) -> Result<Option<Refused>, AllocError>
    ensures { IfOk result (λ found. found ≡ least_of (other_lengths_in count choices.now)) }
{
    let mut found = None;
    for choice in choices {
        let is_other = has_other_length(alloc, count, choice)?;
        let refused = refused_if(is_other, choice.place, 405);
        found = lesser(found, refused);
    }
    Ok(found)
}
