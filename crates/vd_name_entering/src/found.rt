//! What a region declares under a name.

ghost use Rattle.std.specs.Prelude.{◌≡◌, IfOk};
ghost use Rattle.std.specs.List.{filter};
ghost use Rattle.vd_name_rows.specs.Members.{numbers_in};
ghost use Rattle.vd_naming.specs.Units.{is_named, found_in, found_inside, unit_named, region_inside};

use std::alloc::{AllocError, Global};
use vd_declarations::{DeclId, RegionId};
use vd_name_rows::{Names, Sort};
use vd_predefined::numbers::REGION_OF_WORK;

/// What stands in a region under a name, in the order in which it was entered.
pub fn named_in(
    alloc: Global,
    names: &Names,
    region: RegionId,
    name: &[u8],
) -> Result<Vec<DeclId>, AllocError>
    ensures { IfOk result (λ found. found.items ≡ filter (is_named names.now name.now) (numbers_in region 0 names.now.scopes.entered)) }
{
    let newest = names.regions().entered_under(alloc, region, name)?;
    let mut found = Vec::new(alloc);
    let mut left = newest.len();
    while left > 0 {
        left -= 1;
        found.push(DeclId::of(newest[left]))?;
    }
    Ok(found)
}

/// The first declaration of a sort that a region has under a name.
pub fn found_in(
    alloc: Global,
    names: &Names,
    region: RegionId,
    sort: Sort,
    name: &[u8],
) -> Result<Option<DeclId>, AllocError>
    ensures { IfOk result (λ found. found ≡ found_in region sort name.now names.now) }
{
    let found = named_in(alloc, names, region, name)?;
    for id in &found {
        if sort.has(names.class_of(*id)) {
            return Ok(Some(*id));
        }
    }
    Ok(None)
}

/// The same where there may be no region.
pub fn found_inside(
    alloc: Global,
    names: &Names,
    region: Option<RegionId>,
    sort: Sort,
    name: &[u8],
) -> Result<Option<DeclId>, AllocError>
    ensures { IfOk result (λ found. found ≡ found_inside region sort name.now names.now) }
{
    match region {
        None => Ok(None),
        Some(region) => found_in(alloc, names, region, sort, name),
    }
}

/// The first unit of a sort that `work` has under a name.
pub fn unit_named(
    alloc: Global,
    names: &Names,
    sort: Sort,
    name: &[u8],
) -> Result<Option<DeclId>, AllocError>
    ensures { IfOk result (λ found. found ≡ unit_named sort name.now names.now) }
{
    found_in(alloc, names, RegionId::of(REGION_OF_WORK), sort, name)
}

/// The region inside a declaration, where there is one.
pub fn region_inside(names: &Names, id: Option<DeclId>) -> Option<RegionId>
    ensures { result ≡ region_inside names.now id }
{
    match id {
        None => None,
        Some(id) => names.inside_of(id),
    }
}
