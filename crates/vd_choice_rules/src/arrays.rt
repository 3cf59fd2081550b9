//! Choices of selectors of array types.

ghost use Rattle.std.specs.Prelude.{◌≡◌, ◌∷◌, IfOk, List, Some};
ghost use Rattle.vd_choice_rules.specs.SelectingStatements.{IsSelecting};
ghost use Rattle.vd_known_designs.specs.Designs.{IsReady, Knows};
ghost use Rattle.vd_walks.specs.Least.{least_of};
ghost use Rattle.vd_value_rules.specs.Choices.{Selecting as selectings, array_choices};
ghost use Rattle.vd_value_rules.specs.Designs.{Design};
ghost use Rattle.vd_value_rules.specs.Knowledge.{Known};

use crate::Selecting;
use crate::matching::refused_matching;
use crate::texts::{refused_lengthless, refused_texts};
use std::alloc::{AllocError, Global};
use vd_bytes::Refused;
use vd_known_designs::KnownDesign;
use vd_walks::lesser;

/// The first refusal of choices of a selector that has so many elements.
fn refused_counted(
    design: &KnownDesign<'_, '_>,
    alloc: Global,
    selecting: &Selecting,
    count: u128,
) -> Result<Option<Refused>, AllocError>
    requires ready { IsReady design.now }
    ensures { (d : Design) (k : Known) (ks : List Known) (s : selectings) → Knows d design.now (k ∷ ks) → IsSelecting selecting.now s
        → IfOk result (λ found. found ≡ least_of (array_choices k.env (Some count) s)) }
{
    let of_texts = refused_texts(alloc, selecting, count)?;
    let matching = refused_matching(design, alloc, selecting)?;
    Ok(lesser(of_texts, matching))
}

/// The first refusal of choices of a selector of an array type.
pub(crate) fn refused_of_arrays(
    design: &KnownDesign<'_, '_>,
    alloc: Global,
    selecting: &Selecting,
) -> Result<Option<Refused>, AllocError>
    requires ready { IsReady design.now }
    ensures { (d : Design) (k : Known) (ks : List Known) (s : selectings) → Knows d design.now (k ∷ ks) → IsSelecting selecting.now s
        → IfOk result (λ found. found ≡ least_of (array_choices k.env s.selector.length s)) }
{
    match selecting.shape.length {
        None => Ok(refused_lengthless(selecting)),
        Some(count) => refused_counted(design, alloc, selecting, count),
    }
}
