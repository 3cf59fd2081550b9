//! What stands round a unit.

ghost use Rattle.std.specs.Prelude.{◌≡◌, IfOk};
ghost use Rattle.vd_naming.specs.Units.{main_of, primary_by, primary_of, context_round, round_unit};

use crate::found::{region_inside, unit_named};
use std::alloc::{AllocError, Global};
use vd_declarations::{DeclId, RegionId};
use vd_forest::Cursor;
use vd_forms::Form;
use vd_name_rows::{At, Names, Sort};
use vd_predefined::numbers::REGION_OF_LIBRARIES;

/// What stands behind the context clauses and the references to contexts of a unit.
pub fn main_of<'a>(unit: &Cursor<'a, Form>) -> Cursor<'a, Form>
    ensures { result ≡ main_of unit.now }
{
    let mut left = unit.fork();
    while let Some(first) = left.open() {
        match first.form {
            Form::ContextClause | Form::ContextReference => left = first.next,
            Form::ReferringUnit | Form::DesignUnit => left = first.parts,
            _ => return left,
        }
    }
    left
}

/// The primary unit of an architecture or a package body with these parts.
fn primary_by(
    alloc: Global,
    names: &Names,
    form: Form,
    parts: &Cursor<'_, Form>,
) -> Result<Option<DeclId>, AllocError>
    ensures { IfOk result (λ found. found ≡ primary_by form parts.now names.now) }
{
    match form {
        Form::ArchitectureBody => { unit_named(alloc, names, Sort::Entity, parts.next().text()) }
        Form::PackageBody => unit_named(alloc, names, Sort::WrittenPackage, parts.text()),
        _ => Ok(None),
    }
}

/// The primary unit of the architecture or the package body that is the first tree.
pub fn primary_of(
    alloc: Global,
    names: &Names,
    unit: &Cursor<'_, Form>,
) -> Result<Option<DeclId>, AllocError>
    ensures { IfOk result (λ found. found ≡ primary_of unit.now names.now) }
{
    match unit.open() {
        None => Ok(None),
        Some(first) => primary_by(alloc, names, first.form, &first.parts),
    }
}

/// The context round a region, or another region where there is none.
fn context_round(names: &Names, region: Option<RegionId>, other: RegionId) -> RegionId
    ensures { result ≡ context_round names.now region other }
{
    match region {
        None => other,
        Some(region) => names.regions().round(region),
    }
}

/// The region that a unit's own stands in: the context of its primary unit, or that of the reference to a context in front of it.
pub fn round_unit(
    alloc: Global,
    names: &Names,
    at: &At<'_>,
    parts: &Cursor<'_, Form>,
) -> Result<RegionId, AllocError>
    ensures { IfOk result (λ region. region ≡ round_unit at.now names.now parts.now) }
{
    if at.region.number() != REGION_OF_LIBRARIES {
        return Ok(at.region);
    }
    let primary = primary_of(alloc, names, &main_of(parts))?;
    let inside = region_inside(names, primary);
    Ok(context_round(names, inside, at.region))
}
