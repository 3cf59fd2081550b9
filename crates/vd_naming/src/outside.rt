//! Packages with generics, which are named in themselves and their bodies alone. (IEEE 1076-2019, generic packages)

ghost use Rattle.std.specs.Prelude.{◌≡◌, IfOk};
ghost use Rattle.vd_visible.specs.Sights.{sight_from};
ghost use Rattle.vd_naming.specs.Selected.{is_inside as stands_inside, is_outside as stands_outside, means_outside as meant_outside};
ghost use Rattle.vd_naming.specs.Paths.{path_outside as path_from_outside, prefix_pieces};

use crate::meant::{Meant, before_last, meant_by_text, visible_meant};
use std::alloc::{AllocError, Global};
use vd_declarations::{Class, DeclId, RegionId};
use vd_forest::Cursor;
use vd_forms::Form;
use vd_name_rows::Names;
use vd_visible::Surroundings;

/// Whether a region stands in that of a declaration.
fn is_inside(
    alloc: Global,
    names: &Names,
    region: RegionId,
    inside: Option<RegionId>,
) -> Result<bool, AllocError>
    ensures { IfOk result (λ b. b ≡ stands_inside names.now.scopes region inside) }
{
    match inside {
        None => Ok(false),
        Some(inside) => names.regions().is_inside(alloc, region, inside),
    }
}

/// Whether it is a package with generics, outside which the region stands.
pub fn is_outside(
    alloc: Global,
    names: &Names,
    region: RegionId,
    id: DeclId,
) -> Result<bool, AllocError>
    ensures { IfOk result (λ b. b ≡ stands_outside names.now.scopes region id) }
{
    match names.class_of(id) {
        Class::UninstantiatedPackage => {
            let inside = is_inside(alloc, names, region, names.inside_of(id))?;
            Ok(!inside)
        }
        _ => Ok(false),
    }
}

/// Whether a name means a package with generics, outside which the region stands.
pub fn means_outside(
    alloc: Global,
    names: &Names,
    region: RegionId,
    meant: &Meant,
) -> Result<bool, AllocError>
    ensures { IfOk result (λ b. b ≡ meant_outside names.now.scopes region meant.now) }
{
    let ids = meant.declarations();
    for id in ids {
        if is_outside(alloc, names, region, *id)? {
            return Ok(true);
        }
    }
    Ok(false)
}

/// Whether a selected name, or what it begins with, is a package with generics, outside which the region stands.
pub fn path_outside(
    alloc: Global,
    names: &Names,
    place: &Surroundings<'_>,
    region: RegionId,
    pieces: &Cursor<'_, Form>,
) -> Result<bool, AllocError>
    ensures { IfOk result (λ b. b ≡ path_from_outside (sight_from place.now) names.now region pieces.now) }
{
    let Some(head) = pieces.open() else {
        return Ok(false);
    };
    let mut meant = visible_meant(alloc, place, head.text)?;
    let mut rest = head.next;
    while let Some(first) = rest.open() {
        if means_outside(alloc, names, region, &meant)? {
            return Ok(true);
        }
        meant = meant_by_text(alloc, place, &meant, first.form, first.text)?;
        rest = first.next;
    }
    means_outside(alloc, names, region, &meant)
}

/// The same of a selected name without its last piece.
pub fn prefix_outside(
    alloc: Global,
    names: &Names,
    place: &Surroundings<'_>,
    region: RegionId,
    pieces: &Cursor<'_, Form>,
) -> Result<bool, AllocError>
    ensures { IfOk result (λ b. b ≡ path_from_outside (sight_from place.now) names.now region (prefix_pieces pieces.now)) }
{
    let Some(head) = before_last(pieces) else {
        return Ok(false);
    };
    let mut meant = visible_meant(alloc, place, head.text)?;
    let mut rest = head.next;
    while let Some(first) = before_last(&rest) {
        if means_outside(alloc, names, region, &meant)? {
            return Ok(true);
        }
        meant = meant_by_text(alloc, place, &meant, first.form, first.text)?;
        rest = first.next;
    }
    means_outside(alloc, names, region, &meant)
}
