//! Choices of statements that are compared by `?=`.

ghost use Rattle.std.specs.Prelude.{◌≡◌, ◌∷◌, IfOk, List};
ghost use Rattle.vd_choice_rules.specs.Statements.{matched_by};
ghost use Rattle.vd_choice_rules.specs.SelectingStatements.{IsSelecting};
ghost use Rattle.vd_known_designs.specs.Designs.{IsReady, Knows};
ghost use Rattle.vd_walks.specs.Least.{least_of};
ghost use Rattle.vd_value_rules.specs.Choices.{Selecting as selectings};
ghost use Rattle.vd_value_rules.specs.Designs.{Design};
ghost use Rattle.vd_value_rules.specs.Knowledge.{Known};

use crate::Selecting;
use std::alloc::{AllocError, Global};
use vd_bytes::Refused;
use vd_given_choices::first_matching;
use vd_known_designs::KnownDesign;

/// The first choice that matches an earlier one, where a statement compares them by `?=`.
pub(crate) fn refused_matching(
    design: &KnownDesign<'_, '_>,
    alloc: Global,
    selecting: &Selecting,
) -> Result<Option<Refused>, AllocError>
    requires ready { IsReady design.now }
    ensures { (d : Design) (k : Known) (ks : List Known) (s : selectings) → Knows d design.now (k ∷ ks) → IsSelecting selecting.now s
        → IfOk result (λ found. found ≡ least_of (matched_by s.comparison k.env s.choices)) }
{
    match selecting.matching {
        None => Ok(None),
        Some(of) => first_matching(design, alloc, of, selecting.choices.as_slice()),
    }
}
