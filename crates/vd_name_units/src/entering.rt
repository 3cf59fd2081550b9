//! Units as they are entered at their ends.

ghost use Rattle.std.specs.Prelude.{◌≡◌, Some, None, IfOk};
ghost use Rattle.vd_name_rows.specs.Entering.{declaration_of as declaration_with};
ghost use Rattle.vd_naming.specs.Units.{entering_unit_in, entering_unit, entering_architecture, region_of_architectures};
ghost use Rattle.vd_name_entering.specs.Entered.{IsEntered};

use crate::words::refused_word;
use std::alloc::{AllocError, Global};
use vd_bytes::Refused;
use vd_declarations::{Class, Declaration, RegionId};
use vd_name_entering::{enter_as, named_at};
use vd_name_rows::{At, Names};
use vd_predefined::numbers::REGION_OF_WORK;
use vd_walks::lesser;

/// A declaration with the name that was read last at a place, and with a region inside.
pub(crate) fn unit_at(
    alloc: Global,
    class: Class,
    at: &At<'_>,
    inside: RegionId,
) -> Result<Declaration, AllocError>
    ensures { IfOk result (λ made. made
        ≡ record (declaration_with class (record { name = at.now.word; place = at.now.word_place }) None) { inside = Some inside }) }
{
    let mut declared = named_at(alloc, class, at, None)?;
    declared.inside = Some(inside);
    Ok(declared)
}

/// Enters a unit in a region.
fn enter_unit_in(
    names: &mut Names,
    region: RegionId,
    declared: Declaration,
) -> Result<Option<Refused>, AllocError>
    ensures { IfOk result (λ first. IsEntered names.new first (entering_unit_in region declared names.old)) }
{
    let word = refused_word(&declared);
    let homograph = enter_as(names, 301, region, declared)?;
    Ok(lesser(homograph, word))
}

/// Enters a unit in `work`.
pub fn enter_unit(names: &mut Names, declared: Declaration) -> Result<Option<Refused>, AllocError>
    ensures { IfOk result (λ first. IsEntered names.new first (entering_unit declared names.old)) }
{
    enter_unit_in(names, RegionId::of(REGION_OF_WORK), declared)
}

/// The region of the names of the architectures of an entity with this region.
fn region_of_architectures(inside: RegionId) -> Result<RegionId, AllocError>
    ensures { IfOk result (λ region. region ≡ region_of_architectures inside) }
{
    match inside.number().checked_add(1) {
        Some(number) => Ok(RegionId::of(number)),
        None => Err(AllocError),
    }
}

/// Enters an architecture of the entity with this region. That of an unknown entity isn't entered.
pub(crate) fn enter_architecture(
    names: &mut Names,
    inside: Option<RegionId>,
    declared: Declaration,
) -> Result<Option<Refused>, AllocError>
    ensures { IfOk result (λ first. IsEntered names.new first (entering_architecture inside declared names.old)) }
{
    match inside {
        None => Ok(refused_word(&declared)),
        Some(inside) => {
            let region = region_of_architectures(inside)?;
            enter_unit_in(names, region, declared)
        }
    }
}
