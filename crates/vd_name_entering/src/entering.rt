//! One declaration.

ghost use Rattle.std.specs.Prelude.{IfOk};
ghost use Rattle.vd_name_rows.specs.Entering.{entering, entering_as};
ghost use Rattle.vd_name_entering.specs.Entered.{IsEntered};

use std::alloc::AllocError;
use vd_bytes::Refused;
use vd_declarations::{Declaration, RegionId};
use vd_name_rows::Names;

/// Enters a declaration, whatever stands in the region. Where it may not stand beside a declaration of the region, or of what that continues,
/// this rule is broken at its place.
pub fn enter_as(
    names: &mut Names,
    rule: u16,
    region: RegionId,
    declared: Declaration,
) -> Result<Option<Refused>, AllocError>
    ensures { IfOk result (λ first. IsEntered names.new first (entering_as rule region declared names.old)) }
{
    let place = declared.place;
    match names.enter(region, declared)? {
        Some(_) => Ok(Some(Refused { place, rule })),
        None => Ok(None),
    }
}

/// The same with the rule on homographs.
pub fn enter(
    names: &mut Names,
    region: RegionId,
    declared: Declaration,
) -> Result<Option<Refused>, AllocError>
    ensures { IfOk result (λ first. IsEntered names.new first (entering region declared names.old)) }
{
    enter_as(names, 304, region, declared)
}
