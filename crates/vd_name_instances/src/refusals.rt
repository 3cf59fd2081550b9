//! What is refused of instances, and what entering them would refuse where they aren't entered.

ghost use Rattle.std.specs.Prelude.{◌≡◌, IfOk};
ghost use Rattle.vd_walks.specs.Least.{lesser as lesser_refusal};
ghost use Rattle.vd_name_rows.specs.Entering.{entering_as};
ghost use Rattle.vd_naming.specs.Units.{entering_unit};

use std::alloc::AllocError;
use vd_bytes::Refused;
use vd_declarations::{Declaration, RegionId};
use vd_name_entering::Made;
use vd_name_rows::{Actual, At, Names};
use vd_name_units::refused_word;
use vd_predefined::numbers::REGION_OF_WORK;
use vd_walks::lesser;

/// What entering a declaration would refuse.
pub(crate) fn refused_entry(
    names: &Names,
    rule: u16,
    region: RegionId,
    declared: &Declaration,
) -> Result<Option<Refused>, AllocError>
    ensures { IfOk result (λ first. first ≡ (entering_as rule region declared.now names.now).first) }
{
    match names.regions().homograph(region, declared)? {
        Some(_) => Ok(Some(Refused {
            place: declared.place,
            rule,
        })),
        None => Ok(None),
    }
}

/// What entering a unit would refuse.
pub(crate) fn refused_unit(
    names: &Names,
    declared: &Declaration,
) -> Result<Option<Refused>, AllocError>
    ensures { IfOk result (λ first. first ≡ (entering_unit declared.now names.now).first) }
{
    let homograph = refused_entry(names, 301, RegionId::of(REGION_OF_WORK), declared)?;
    Ok(lesser(homograph, refused_word(declared)))
}

/// The actuals that were read at a place.
pub(crate) fn actuals_at<'a>(at: &'a At<'_>) -> &'a [Actual]
    ensures { result.now ≡ at.now.actuals }
{
    at.actuals.as_slice()
}

/// What a tree comes to with a refusal more.
pub(crate) fn refused_also(made: &Made, refused: Option<Refused>) -> Made
    ensures { result ≡ record made.now { first = lesser_refusal made.now.first refused } }
{
    Made {
        tree: made.tree,
        first: lesser(made.first, refused),
    }
}
