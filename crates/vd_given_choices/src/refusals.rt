//! What is refused of choices, wherever they stand.

ghost use Rattle.std.specs.Prelude.{◌≡◌, IfOk, List, []};
ghost use Rattle.vd_given_choices.specs.Choices.{AreChoices};
ghost use Rattle.vd_walks.specs.Least.{least_of};
ghost use Rattle.vd_value_rules.specs.Choices.{Given, early_bounds, not_static, repeated, share};

use crate::choices::Choice;
use crate::ranges::{add_known, repeats};
use std::alloc::{AllocError, Global};
use vd_bytes::Refused;
use vd_value_rules::refused_if;
use vd_walks::lesser;

/// The first choice that isn't locally static.
pub fn first_not_static(choices: &[Choice]) -> Option<Refused>
    ensures { (gs : List Given) → AreChoices choices.now gs → result ≡ least_of (not_static gs) }
{
    let mut found = None;
    for choice in choices {
        let refused = refused_if(!choice.is_static, choice.place, 406);
        found = lesser(found, refused);
    }
    found
}

/// The first choice that has a value in common with an earlier one. Each is compared with all earlier ones, so n choices take about n * n
/// steps.
pub fn first_repeated(alloc: Global, choices: &[Choice]) -> Result<Option<Refused>, AllocError>
    ensures { (gs : List Given) → AreChoices choices.now gs → IfOk result (λ found. found ≡ least_of (repeated share early_bounds [] gs)) }
{
    let mut found = None;
    let mut before = Vec::new(alloc);
    for choice in choices {
        let bounds = choice.bounds();
        let refused = refused_if(repeats(&before, bounds), choice.place, 404);
        found = lesser(found, refused);
        add_known(&mut before, bounds)?;
    }
    Ok(found)
}
