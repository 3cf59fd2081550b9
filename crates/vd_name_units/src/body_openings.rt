//! Package bodies that are opened.

ghost use Rattle.std.specs.Prelude.{◌≡◌, None, IfOk, OnOk};
ghost use Rattle.std.specs.Option.{unwrap_or};
ghost use Rattle.vd_name_rows.specs.Noting.{with_bodies};
ghost use Rattle.vd_forest.specs.Forest.{place_of};
ghost use Rattle.vd_naming.specs.Units.{no_unit as without_unit, region_inside as region_inside_of};
ghost use Rattle.vd_naming.specs.Openings.{no_body as without_body, instances_inside, package_body_opens as body_opened};
ghost use Rattle.vd_name_units.specs.Opened.{IsOpened};

use crate::regions::open_region;
use crate::{instances_in, is_library_word};
use std::alloc::{AllocError, Global};
use vd_bytes::{Place, Refused};
use vd_declarations::{DeclId, RegionId};
use vd_forest::Cursor;
use vd_forms::Form;
use vd_name_entering::{note_bodies, region_inside, unit_named};
use vd_name_rows::{At, Names, Sort};
use vd_naming::{Meant, broken_if, refused_path};
use vd_walks::lesser;

/// A unit that isn't there, or one of another class.
fn no_unit(alloc: Global, found: Option<DeclId>) -> Meant
    ensures { result ≡ without_unit found }
{
    match found {
        None => Meant::breaks(alloc, 302),
        Some(_) => Meant::breaks(alloc, 307),
    }
}

/// What is refused of the name of a body where there is no package of it.
fn no_package(
    alloc: Global,
    names: &Names,
    name: &[u8],
    place: Place,
) -> Result<Option<Refused>, AllocError>
    ensures { IfOk result (λ first. first ≡ without_body None name.now names.now place) }
{
    let any = unit_named(alloc, names, Sort::Any, name)?;
    let meant = no_unit(alloc, any);
    let word = broken_if(is_library_word(name), 301, place);
    let path = refused_path(None, &meant, place);
    Ok(lesser(word, path))
}

/// What is refused of the name of a body, where another body stands in front or there is no package of it.
fn no_body(
    alloc: Global,
    names: &Names,
    found: Option<DeclId>,
    name: &[u8],
    place: Place,
) -> Result<Option<Refused>, AllocError>
    ensures { IfOk result (λ first. first ≡ without_body found name.now names.now place) }
{
    match found {
        None => no_package(alloc, names, name, place),
        Some(id) => Ok(broken_if(names.note(id).has_body, 301, place)),
    }
}

/// The instances that a region declares, where there is one, have their bodies.
fn note_instances(
    alloc: Global,
    names: &mut Names,
    inside: &Option<RegionId>,
) -> Result<(), AllocError>
    ensures { OnOk result (names.new ≡ with_bodies (instances_inside inside.now names.old) names.old) }
{
    match inside {
        None => Ok(()),
        Some(region) => {
            let instances = instances_in(alloc, names, *region)?;
            note_bodies(names, instances.as_slice())
        }
    }
}

/// The place of the first tree, or another where there is none.
fn place_or(parts: &Cursor<'_, Form>, other: Place) -> Place
    ensures { result ≡ unwrap_or (place_of parts.now) other }
{
    match parts.place() {
        Some(place) => place,
        None => other,
    }
}

/// The region of a package body, which continues that of its package.
pub(crate) fn package_body_opens(
    alloc: Global,
    names: &mut Names,
    at: &mut At<'_>,
    place: Place,
    parts: &Cursor<'_, Form>,
) -> Result<Option<Refused>, AllocError>
    ensures { IfOk result (λ first. IsOpened names.new at.new first (body_opened at.old names.old place parts.now)) }
{
    let name = parts.text();
    let found = unit_named(alloc, names, Sort::WrittenPackage, name)?;
    let inside = inside_of(names, &found);
    let first = no_body(alloc, names, found, name, place_or(parts, place))?;
    note_instances(alloc, names, &inside)?;
    let outer = at.region;
    open_region(names, at, outer, inside)?;
    Ok(first)
}

/// The region inside a declaration, where there is one.
fn inside_of(names: &Names, found: &Option<DeclId>) -> Option<RegionId>
    ensures { result ≡ region_inside_of names.now found.now }
{
    region_inside(names, *found)
}
