//! Use clauses.

ghost use Rattle.std.specs.Prelude.{◌≡◌, Some, None, IfOk, OnOk, if◌then◌else◌};
ghost use Rattle.vd_forest.specs.Forest.{nothing, more};
ghost use Rattle.vd_forest.specs.Store.{Extends};
ghost use Rattle.vd_regions.specs.Scopes.{declaration_at};
ghost use Rattle.vd_name_rows.specs.Designs.{sight};
ghost use Rattle.vd_name_rows.specs.Refusals.{broken_if as refused_where};
ghost use Rattle.vd_naming.specs.Paths.{path_meant, path_outside as path_from_outside, prefix_pieces, one_that as only_that, rule_of as rule_by, is_package};
ghost use Rattle.vd_naming.specs.Units.{last_piece, is_all as names_all, missing_name, used_name, with_used, used as used_package, use_name as use_name_step};
ghost use Rattle.vd_name_entering.specs.Made.{IsMade};

use crate::found::{Found, found_of, unknown_name};
use crate::pieces::{is_all, last_name};
use std::alloc::{AllocError, Global};
use vd_bytes::{Refused, Text};
use vd_declarations::{DeclId, RegionId};
use vd_forest::{Opened, Store};
use vd_forms::Form;
use vd_name_entering::{Made, add_named};
use vd_name_rows::{At, Names};
use vd_naming::{Fit, broken_if, path_outside, prefix_meant};
use vd_resolved::Resolved;
use vd_walks::lesser;

/// The package that a name has in front of its last piece.
fn package_of(
    alloc: Global,
    names: &Names,
    at: &At<'_>,
    node: &Opened<'_, Form>,
) -> Result<Found, AllocError>
    ensures named { IfOk result (λ found. found.named
        ≡ only_that (λ k. is_package (declaration_at names.now.scopes k).class) (path_meant (sight at.now names.now) (prefix_pieces node.now.parts))) }
    ensures rule { IfOk result (λ found. found.rule ≡ rule_by (path_meant (sight at.now names.now) (prefix_pieces node.now.parts))) }
{
    let place = names.surroundings(at)?;
    let meant = prefix_meant(alloc, &place, &node.parts)?;
    Ok(found_of(names, &place, Fit::Package, &meant))
}

/// What is used of a package, all where there is no name, and what is refused of that.
#[derive(Drop)]
struct UsedPart {
    name: Option<Text>,
    first: Option<Refused>,
}

/// What is used of a package by the last piece of a name.
fn used_of(
    alloc: Global,
    names: &Names,
    at: &At<'_>,
    id: DeclId,
    node: &Opened<'_, Form>,
) -> Result<UsedPart, AllocError>
    ensures name { IfOk result (λ used. used.name ≡ used_name (names_all node.now.parts) (last_piece node.now.parts)) }
    ensures first { IfOk result (λ used. used.first
        ≡ (if names_all node.now.parts then None else missing_name (sight at.now names.now) id (last_piece node.now.parts) node.now.place)) }
{
    if is_all(&node.parts) {
        return Ok(UsedPart {
            name: None,
            first: None,
        });
    }
    match last_name(alloc, &node.parts)? {
        None => Ok(UsedPart {
            name: None,
            first: Some(Refused {
                place: node.place,
                rule: 307,
            }),
        }),
        Some(name) => {
            let place = names.surroundings(at)?;
            let selected = place.selected(alloc, id, name.as_slice())?;
            let first = broken_if(selected.is_empty(), 303, node.place);
            Ok(UsedPart {
                name: Some(name),
                first,
            })
        }
    }
}

/// What is refused of a name that means a package with generics from outside, or begins with one.
fn refused_outside(
    alloc: Global,
    names: &Names,
    at: &At<'_>,
    node: &Opened<'_, Form>,
) -> Result<Option<Refused>, AllocError>
    ensures { IfOk result (λ refused. refused
        ≡ refused_where (path_from_outside (sight at.now names.now) names.now at.now.region node.now.parts) 307 node.now.place) }
{
    let place = names.surroundings(at)?;
    let outside = path_outside(alloc, names, &place, at.region, &node.parts)?;
    Ok(broken_if(outside, 307, node.place))
}

/// Uses a name of a region, or all that it declares.
fn use_from(
    names: &mut Names,
    at: &At<'_>,
    from: RegionId,
    name: &Option<Text>,
) -> Result<(), AllocError>
    ensures { OnOk result (names.new ≡ with_used at.now names.old (Some from) name.now) }
{
    if !names.regions().is_region(at.region) {
        return Err(AllocError);
    }
    match name {
        None => names.use_name(at.region, from, None),
        Some(name) => match str::from_utf8(name.as_slice()) {
            Ok(name) => names.use_name(at.region, from, Some(name)),
            Err(_) => Err(AllocError),
        },
    }
}

/// Uses a name of a package, or all that it declares.
fn use_of(names: &mut Names, at: &At<'_>, id: DeclId, name: &Option<Text>) -> Result<(), AllocError>
    ensures { OnOk result (names.new ≡ with_used at.now names.old (declaration_at names.old.scopes id).inside name.now) }
{
    match names.inside_of(id) {
        None => Ok(()),
        Some(from) => use_from(names, at, from, name),
    }
}

/// A name whose last piece is used of a package.
fn used(
    alloc: Global,
    names: &mut Names,
    at: &At<'_>,
    id: DeclId,
    node: &Opened<'_, Form>,
    out: &mut Store<Resolved>,
) -> Result<Made, AllocError>
    ensures is { IfOk result (λ made. IsMade out.new names.new made
        (used_package at.now names.old id node.now.place (more node.now.form node.now.text.now node.now.place node.now.parts nothing))) }
    ensures extends { Extends out.old out.new }
{
    let what = used_of(alloc, names, at, id, node)?;
    let outside = refused_outside(alloc, names, at, node)?;
    use_of(names, at, id, &what.name)?;
    let tree = add_named(alloc, Some(id), node, 0, out)?;
    Ok(Made {
        tree,
        first: lesser(what.first, outside),
    })
}

/// A name of a use clause, which has the package at its node. A clause in a region that isn't there, or of a name that isn't text, ends as where
/// there is no memory.
pub fn use_name(
    alloc: Global,
    names: &mut Names,
    at: &At<'_>,
    node: &Opened<'_, Form>,
    out: &mut Store<Resolved>,
) -> Result<Made, AllocError>
    ensures is { IfOk result (λ made. IsMade out.new names.new made
        (use_name_step at.now names.old node.now.place (more node.now.form node.now.text.now node.now.place node.now.parts nothing))) }
    ensures at { OnOk result ((use_name_step at.now names.old node.now.place (more node.now.form node.now.text.now node.now.place node.now.parts nothing)).at ≡ at.now) }
    ensures extends { Extends out.old out.new }
{
    let found = package_of(alloc, names, at, node)?;
    match found.named {
        None => {
            let made = unknown_name(alloc, found.rule, node, out)?;
            Ok(made)
        }
        Some(id) => {
            let made = used(alloc, names, at, id, node, out)?;
            Ok(made)
        }
    }
}
