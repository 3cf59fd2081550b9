//! What is known at the place behind a form.

ghost use Rattle.std.specs.Prelude.{◌≡◌, IfOk, OnOk};
ghost use Rattle.vd_forest.specs.Forest.{Forest};
ghost use Rattle.vd_forms.specs.declared.form.Form.{Form as AnyForm};
ghost use Rattle.vd_naming.specs.Endings.{Ended as AnyEnded};
ghost use Rattle.vd_naming.specs.Naming.{ended};
ghost use Rattle.vd_name_resolution.specs.Places.{place_behind as behind_ending, unit_counted};

use std::alloc::AllocError;
use vd_name_rows::{At, Ending, Names};
use vd_predefined::numbers::REGION_OF_LIBRARIES;

/// Counts a unit that ends. One that stands behind a reference to a context is part of the same unit.
fn count_unit(at: &mut At<'_>) -> Result<(), AllocError>
    ensures { OnOk result (at.new ≡ unit_counted at.old) }
{
    if at.region.number() == REGION_OF_LIBRARIES {
        let Some(unit) = at.unit.checked_add(1) else {
            return Err(AllocError);
        };
        at.unit = unit;
    }
    Ok(())
}

/// Puts at a place in front of a form what is known behind it.
fn go_behind(
    names: &Names,
    ending: Ending,
    at: &mut At<'_>,
    inner: &At<'_>,
) -> Result<(), AllocError>
    ensures { OnOk result (at.new ≡ behind_ending names.now ending at.old inner.now) }
{
    let number = names.next_number()?;
    at.named = inner.named;
    at.mark = inner.mark;
    match ending {
        Ending::Typed => at.next = inner.next,
        Ending::ClauseEnds => at.header_end = number,
        Ending::UnitEnds => return count_unit(at),
        _ => {}
    }
    Ok(())
}

/// What is known behind a form: what was known in front of it, and of its parts what the ending keeps. It is asked before the form
/// declares anything. Where the number of a unit would pass 32 bits, it ends as where memory does.
#[tactic(auto, using(crate::proofs::PlaceLemmas::place_is))]
pub fn place_behind<'a>(
    names: &Names,
    ending: Ending,
    outer: At<'a>,
    inner: &At<'a>,
) -> Result<At<'a>, AllocError>
    ensures { IfOk result (λ at. (whole : Forest AnyForm) (x : AnyEnded) → x.outer ≡ outer.entry → x.inner.at ≡ inner.now → x.inner.design ≡ names.now
        → at ≡ (ended whole ending x).at) }
{
    let mut at = outer;
    go_behind(names, ending, &mut at, inner)?;
    Ok(at)
}
