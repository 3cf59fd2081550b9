//! The libraries and packages that are given.

ghost use Rattle.std.specs.Prelude.{◌≡◌, ◌≢◌, ℕ, ◌<◌, ◌≤◌, [], OnOk, Err, Some, None, map, length};
ghost use Rattle.vd_regions.specs.Homographs.{homograph};
ghost use Rattle.vd_predefined.specs.Entries.{declared, with_entry};
ghost use Rattle.vd_predefined.specs.Given.{with_type, with_function, class_of, with_line, holds_in, with_row, with_rows, start, with_regions, with_units, with_packages, given_scopes};
ghost use Rattle.vd_predefined.specs.GivenClashes.{clash_of_type, clash_of_function, clash_of_line, clash_of_row, clash_of_rows, clash_of_units, clash_of_packages};
ghost use Rattle.vd_predefined.specs.Seen.{seen_line, seen_row};

use crate::entering::{enter_operators, enter_plain, enter_unit, enter_values, enter_with};
use crate::numbers::*;
use crate::rows::{Line, Origin, Revisions, Row};
use crate::tables::{logic_operators, logic_types, standard_operators, standard_types};
use std::alloc::{AllocError, Global};
use vd_declarations::{Class, DeclId, RegionId, TypeId};
use vd_regions::{EnterEnd, Regions};
use vd_trees::Revision;

/// The class of what a type brings with it, or a package declares.
fn class_of(origin: Origin) -> Class
    ensures { result ≡ class_of origin }
{
    match origin {
        Origin::Brought => Class::PredefinedOperator,
        Origin::Declared => Class::Function,
    }
}

/// Enters one declaration.
fn enter_only(
    alloc: Global,
    regions: &mut Regions,
    region: RegionId,
    class: Class,
    name: &str,
    mark: Option<TypeId>,
) -> Result<(), EnterEnd>
    ensures entered { OnOk result (regions.new ≡ with_entry regions.old region (declared class name.now mark [])) }
    ensures free { OnOk result (homograph regions.old region (declared class name.now mark []) ≡ None) }
    ensures taken { (id : ℕ) → result ≡ Err (EnterEnd.Homograph id) → homograph regions.old region (declared class name.now mark []) ≡ Some id }
{
    enter_plain(alloc, regions, region, class, name, mark)?;
    Ok(())
}

/// Enters a type and its literals or units.
fn enter_type(
    alloc: Global,
    regions: &mut Regions,
    region: RegionId,
    class: Class,
    values: &Class,
    name: &str,
    names: &[&str],
) -> Result<(), EnterEnd>
    ensures entered { OnOk result (regions.new ≡ with_type regions.old region class values.now name.now (map (λ n. n.now) names.now)) }
    ensures free { OnOk result (clash_of_type regions.old region class values.now name.now (map (λ n. n.now) names.now) ≡ None) }
    ensures taken { (id : ℕ) → result ≡ Err (EnterEnd.Homograph id) → clash_of_type regions.old region class values.now name.now (map (λ n. n.now) names.now) ≡ Some id }
{
    let own = enter_plain(alloc, regions, region, class, name, None)?;
    enter_values(alloc, regions, region, values, own.number(), names)
}

/// Enters a function of one parameter.
fn enter_function(
    alloc: Global,
    regions: &mut Regions,
    region: RegionId,
    class: Class,
    name: &str,
    parameter: &str,
    own: u32,
    result_is: u32,
) -> Result<(), EnterEnd>
    requires { region < length regions.old.regions }
    ensures entered { OnOk result (regions.new ≡ with_function regions.old region class name.now parameter.now own result_is) }
    ensures free { OnOk result (clash_of_function regions.old region class name.now parameter.now own result_is ≡ None) }
    ensures taken { (id : ℕ) → result ≡ Err (EnterEnd.Homograph id) → clash_of_function regions.old region class name.now parameter.now own result_is ≡ Some id }
{
    let inside = regions.nest(region)?;
    let mark = Some(TypeId::of(own));
    let operand = enter_plain(alloc, regions, inside, Class::Parameter, parameter, mark)?;
    let result_mark = Some(TypeId::of(result_is));
    enter_with(alloc, regions, region, class, name, result_mark, operand)?;
    Ok(())
}

/// Enters what a line declares.
fn enter_line(
    alloc: Global,
    regions: &mut Regions,
    region: RegionId,
    line: &Line,
) -> Result<(), EnterEnd>
    requires { region < length regions.old.regions }
    ensures entered { OnOk result (regions.new ≡ with_line regions.old region (seen_line line.now)) }
    ensures free { OnOk result (clash_of_line regions.old region (seen_line line.now) ≡ None) }
    ensures taken { (id : ℕ) → result ≡ Err (EnterEnd.Homograph id) → clash_of_line regions.old region (seen_line line.now) ≡ Some id }
{
    match line {
        Line::Enumeration(name, literals) => {
            let class = Class::EnumerationType;
            let values = Class::EnumerationLiteral;
            enter_type(alloc, regions, region, class, &values, name, literals)
        }
        Line::Physical(name, units) => {
            let class = Class::PhysicalType;
            let values = Class::PhysicalUnit;
            enter_type(alloc, regions, region, class, &values, name, units)
        }
        Line::Operators(origin, own, element, groups) => {
            let class = class_of(*origin);
            enter_operators(alloc, regions, region, &class, *own, *element, groups, true)
        }
        Line::Function(origin, name, parameter, own, result_is) => {
            let class = class_of(*origin);
            enter_function(
                alloc, regions, region, class, name, parameter, *own, *result_is,
            )
        }
        Line::Integer(name) => {
            enter_only(alloc, regions, region, Class::IntegerType, name, None)
        }
        Line::Subtype(name, mark, base) => {
            let class = Class::Subtype {
                mark: DeclId::of(*mark),
            };
            enter_only(alloc, regions, region, class, name, Some(TypeId::of(*base)))
        }
        Line::Array(name, element, element_mark) => {
            let class = Class::ArrayType {
                index: TypeId::of(INTEGER),
                element: TypeId::of(*element),
                element_mark: DeclId::of(*element_mark),
            };
            enter_only(alloc, regions, region, class, name, None)
        }
    }
}

/// Whether a line stands in a revision.
fn holds_in(revision: Revision, revisions: Revisions) -> bool
    ensures { result ≡ holds_in revision revisions }
{
    match revisions {
        Revisions::Both => true,
        Revisions::Only2019 => matches!(revision, Revision::V2019),
        Revisions::Only1993 => matches!(revision, Revision::V1993),
    }
}

/// Enters what a line declares, where it stands in the revision.
fn enter_row(
    alloc: Global,
    regions: &mut Regions,
    region: RegionId,
    revision: Revision,
    row: &Row,
) -> Result<(), EnterEnd>
    requires { region < length regions.old.regions }
    ensures entered { OnOk result (regions.new ≡ with_row revision regions.old region (seen_row row.now)) }
    ensures grows { OnOk result (length regions.old.regions ≤ length regions.new.regions) }
    ensures free { OnOk result (clash_of_row revision regions.old region (seen_row row.now) ≡ None) }
    ensures taken { (id : ℕ) → result ≡ Err (EnterEnd.Homograph id) → clash_of_row revision regions.old region (seen_row row.now) ≡ Some id }
{
    if holds_in(revision, row.0) {
        enter_line(alloc, regions, region, &row.1)?;
    }
    Ok(())
}

/// Enters what the lines of a table declare.
fn enter_rows(
    alloc: Global,
    regions: &mut Regions,
    region: RegionId,
    revision: Revision,
    rows: &[Row],
) -> Result<(), EnterEnd>
    requires { region < length regions.old.regions }
    ensures entered { OnOk result (regions.new ≡ with_rows revision regions.old region (map seen_row rows.now)) }
    ensures grows { OnOk result (length regions.old.regions ≤ length regions.new.regions) }
    ensures free { OnOk result (clash_of_rows revision regions.old region (map seen_row rows.now) ≡ None) }
    ensures taken { (id : ℕ) → result ≡ Err (EnterEnd.Homograph id) → clash_of_rows revision regions.old region (map seen_row rows.now) ≡ Some id }
{
    for row in rows {
        enter_row(alloc, regions, region, revision, row)?;
    }
    Ok(())
}

/// Enters both packages.
fn enter_packages(alloc: Global, regions: &mut Regions, revision: Revision) -> Result<(), EnterEnd>
    requires { regions.old ≡ with_units }
    ensures entered { OnOk result (regions.new ≡ with_packages revision) }
    ensures grows { OnOk result (REGION_OF_1164 < length regions.new.regions) }
    ensures free { OnOk result (clash_of_packages revision ≡ None) }
    ensures taken { (id : ℕ) → result ≡ Err (EnterEnd.Homograph id) → clash_of_packages revision ≡ Some id }
{
    let standard = RegionId::of(REGION_OF_STANDARD);
    let logic = RegionId::of(REGION_OF_1164);
    enter_rows(alloc, regions, standard, revision, standard_types())?;
    enter_rows(alloc, regions, logic, revision, logic_types())?;
    enter_rows(alloc, regions, standard, revision, standard_operators())?;
    enter_rows(alloc, regions, logic, revision, logic_operators())
}

/// Makes the regions of the libraries and of the packages.
fn make_regions(regions: &mut Regions) -> Result<(), AllocError>
    requires { regions.old ≡ start }
    ensures { OnOk result (regions.new ≡ with_regions) }
{
    let libraries = RegionId::of(REGION_OF_LIBRARIES);
    regions.nest(libraries)?;
    regions.nest(libraries)?;
    regions.nest(libraries)?;
    regions.nest(libraries)?;
    regions.nest(RegionId::of(REGION_OF_STD))?;
    regions.nest(RegionId::of(REGION_OF_IEEE))?;
    Ok(())
}

/// Enters the libraries and the names of the packages.
fn enter_units(alloc: Global, regions: &mut Regions) -> Result<(), EnterEnd>
    requires { regions.old ≡ with_regions }
    ensures entered { OnOk result (regions.new ≡ with_units) }
    ensures free { OnOk result (clash_of_units ≡ None) }
    ensures taken { (id : ℕ) → result ≡ Err (EnterEnd.Homograph id) → clash_of_units ≡ Some id }
{
    enter_unit(
        alloc,
        regions,
        REGION_OF_LIBRARIES,
        Class::Library,
        "work",
        REGION_OF_WORK,
    )?;
    enter_unit(
        alloc,
        regions,
        REGION_OF_LIBRARIES,
        Class::Library,
        "std",
        REGION_OF_STD,
    )?;
    enter_unit(
        alloc,
        regions,
        REGION_OF_IEEE_NAME,
        Class::Library,
        "ieee",
        REGION_OF_IEEE,
    )?;
    enter_unit(
        alloc,
        regions,
        REGION_OF_STD,
        Class::Package,
        "standard",
        REGION_OF_STANDARD,
    )?;
    enter_unit(
        alloc,
        regions,
        REGION_OF_IEEE,
        Class::Package,
        "std_logic_1164",
        REGION_OF_1164,
    )?;
    Ok(())
}

/// All that is given, with a use clause for `std.standard` round all units.
#[tactic(auto, using(crate::proofs::NoClashLemmas::no_clash_of_units, crate::proofs::NoClashLemmas::no_clash_of_packages))]
fn enter_all(alloc: Global, regions: &mut Regions, revision: Revision) -> Result<(), EnterEnd>
    requires { regions.old ≡ start }
    ensures entered { OnOk result (regions.new ≡ given_scopes revision) }
    ensures apart { (id : ℕ) → result ≢ Err (EnterEnd.Homograph id) }
{
    make_regions(regions)?;
    enter_units(alloc, regions)?;
    enter_packages(alloc, regions, revision)?;
    regions.close(RegionId::of(REGION_OF_STANDARD));
    regions.close(RegionId::of(REGION_OF_1164));
    let libraries = RegionId::of(REGION_OF_LIBRARIES);
    regions.use_name(libraries, RegionId::of(REGION_OF_STANDARD), None)?;
    Ok(())
}

/// Enters what is given to each design of a revision. After an Err the regions may only be dropped.
pub fn given(alloc: Global, regions: &mut Regions, revision: Revision) -> Result<(), AllocError>
    requires { regions.old ≡ start }
    ensures { OnOk result (regions.new ≡ given_scopes revision) }
{
    match enter_all(alloc, regions, revision) {
        Ok(()) => Ok(()),
        Err(EnterEnd::Memory) => Err(AllocError),
        Err(EnterEnd::Homograph(_)) => unreachable!(),
    }
}
