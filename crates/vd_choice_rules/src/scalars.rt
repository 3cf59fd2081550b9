//! Choices of scalar selectors.

ghost use Rattle.std.specs.Prelude.{◌≡◌, ◌∷◌, IfOk, List};
ghost use Rattle.vd_choice_rules.specs.SelectingStatements.{IsSelecting};
ghost use Rattle.vd_known_designs.specs.Designs.{IsReady, Knows};
ghost use Rattle.vd_walks.specs.Least.{least_of};
ghost use Rattle.vd_meaning.specs.Facets.{ByMatching};
ghost use Rattle.vd_value_rules.specs.Choices.{Selecting as selectings, scalar_choices};
ghost use Rattle.vd_value_rules.specs.Designs.{Design};
ghost use Rattle.vd_value_rules.specs.Knowledge.{Known};

use crate::Selecting;
use crate::selecting_scalars::refused_scalars;
use std::alloc::{AllocError, Global};
use vd_bytes::Refused;
use vd_given_choices::{first_matching, first_repeated};
use vd_known_designs::KnownDesign;
use vd_value_rules::refused_if;
use vd_vectors::LogicType;
use vd_walks::lesser;

/// The first refusal of choices that are compared by the `?=` of a logical type. There must be `others`, whatever they give.
fn refused_by_matching(
    design: &KnownDesign<'_, '_>,
    alloc: Global,
    of: LogicType,
    selecting: &Selecting,
) -> Result<Option<Refused>, AllocError>
    requires ready { IsReady design.now }
    ensures { (d : Design) (k : Known) (ks : List Known) (s : selectings) → Knows d design.now (k ∷ ks) → IsSelecting selecting.now s
        → s.comparison ≡ ByMatching of → IfOk result (λ found. found ≡ least_of (scalar_choices k.env s)) }
{
    let choices = selecting.choices.as_slice();
    let missing = refused_if(!selecting.has_others, selecting.place, 403);
    let repeated = first_repeated(alloc, choices)?;
    let matching = first_matching(design, alloc, of, choices)?;
    Ok(lesser(missing, lesser(repeated, matching)))
}

/// The first refusal of choices of a scalar selector.
pub(crate) fn refused_of_scalars(
    design: &KnownDesign<'_, '_>,
    alloc: Global,
    selecting: &Selecting,
) -> Result<Option<Refused>, AllocError>
    requires ready { IsReady design.now }
    ensures { (d : Design) (k : Known) (ks : List Known) (s : selectings) → Knows d design.now (k ∷ ks) → IsSelecting selecting.now s
        → IfOk result (λ found. found ≡ least_of (scalar_choices k.env s)) }
{
    match selecting.matching {
        None => refused_scalars(alloc, selecting),
        Some(of) => refused_by_matching(design, alloc, of, selecting),
    }
}
