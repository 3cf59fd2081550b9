//! Choices of scalar selectors, compared by equality.

ghost use Rattle.std.specs.Prelude.{◌≡◌, ◌&&◌, IfOk, List, map, not};
ghost use Rattle.vd_choice_rules.specs.SelectingStatements.{IsSelecting};
ghost use Rattle.vd_environments.specs.Environments.{Env};
ghost use Rattle.vd_given_choices.specs.Choices.{AreChoices};
ghost use Rattle.vd_walks.specs.Least.{least_of};
ghost use Rattle.vd_meaning.specs.Facets.{ByEquality};
ghost use Rattle.vd_value_rules.specs.Choices.{Given, Selecting as selectings, are_covered as all_given, early_bounds, leave_out as left_out, scalar_choices};

use crate::selecting_statements::Selecting;
use std::alloc::{AllocError, Global};
use vd_bytes::Refused;
use vd_composites::Bounds;
use vd_given_choices::{Choice, are_all_known, are_covered, first_repeated, known_bounds};
use vd_value_rules::refused_if;
use vd_walks::lesser;

/// Whether choices leave out a value that they must take, where all are known.
fn leave_out(alloc: Global, choices: &[Choice], taken: Bounds) -> Result<bool, AllocError>
    ensures { (gs : List Given) → AreChoices choices.now gs → IfOk result (λ answer. answer ≡ left_out (map early_bounds gs) (all_given taken)) }
{
    if !are_all_known(choices) {
        return Ok(false);
    }
    let bounds = known_bounds(alloc, choices)?;
    let covered = are_covered(alloc, taken, &bounds)?;
    Ok(!covered)
}

/// Whether values are missing that `others` would stand for.
pub fn is_lacking(is_left_out: bool, has_others: bool) -> bool
    ensures { result ≡ (is_left_out && not has_others) }
{
    is_left_out && !has_others
}

/// The first refusal of choices of a scalar selector that is compared by equality.
pub fn refused_scalars(alloc: Global, selecting: &Selecting) -> Result<Option<Refused>, AllocError>
    ensures { (e : Env) (s : selectings) → IsSelecting selecting.now s → s.comparison ≡ ByEquality
        → IfOk result (λ found. found ≡ least_of (scalar_choices e s)) }
{
    let choices = selecting.choices.as_slice();
    let gap = leave_out(alloc, choices, selecting.shape.taken)?;
    let repeated = first_repeated(alloc, choices)?;
    let lacking = is_lacking(gap, selecting.has_others);
    let missing = refused_if(lacking, selecting.place, 403);
    Ok(lesser(missing, repeated))
}
