//! Packages and their bodies.

ghost use Rattle.std.specs.Prelude.{◌≡◌, ◌≤◌, Some, IfOk, OnOk, length};
ghost use Rattle.vd_forest.specs.Store.{at, Holds, Extends};
ghost use Rattle.vd_naming.specs.Units.{with_name as named_with, package_class as class_with, from_number as numbers_from, declared_besides as besides, with_instances_at_end, body_of_package, package_ends as ending_of_package, package_body_ends as ending_of_body};
ghost use Rattle.vd_name_entering.specs.Made.{IsMade};
ghost use Rattle.vd_name_entering.specs.Ended.{seen_ended};
ghost use Rattle.vd_name_units.specs.UnitsDeclared.{package_declared, with_own_span};

use crate::bodies::note_instances_at_end;
use crate::entering::{enter_unit, unit_at};
use std::alloc::{AllocError, Global};
use vd_bytes::Text;
use vd_declarations::{Class, DeclId, Declaration, Declarations, RegionId};
use vd_forest::Store;
use vd_name_entering::{
    Ended, Made, Units, close, finished, note_body, note_span, span_to, unit_named,
};
use vd_name_rows::{Names, Sort};
use vd_resolved::Resolved;

/// A forest whose first node names a declaration.
#[tactic(auto, using(vd_forest::proofs::StoreLemmas::growing))]
fn with_name(
    alloc: Global,
    id: DeclId,
    tree: u32,
    out: &mut Store<Resolved>,
) -> Result<u32, AllocError>
    requires { tree ≤ length out.old }
    ensures holds { IfOk result (λ made. Holds out.new made (named_with id (at out.old tree))) }
    ensures extends { Extends out.old out.new }
{
    let Some(head) = out.head(tree) else {
        return Ok(0);
    };
    let text = Text::from_slice(alloc, head.text)?;
    let node = Resolved {
        declaration: Some(id),
        ..head.form
    };
    let place = head.place;
    let parts = head.parts;
    let next = head.next;
    out.add(node, text.as_slice(), place, parts, next)
}

/// A package is one with generics where it has some.
fn package_class(generics: &[DeclId]) -> Class
    ensures { result ≡ class_with generics.now }
{
    if generics.is_empty() {
        Class::Package
    } else {
        Class::UninstantiatedPackage
    }
}

/// Those from a number on.
fn from_number(alloc: Global, first: u32, ids: &[DeclId]) -> Result<Vec<DeclId>, AllocError>
    ensures { IfOk result (λ found. found.items ≡ numbers_from first ids.now) }
{
    let mut found = Vec::new(alloc);
    for id in ids {
        if !(id.number() < first) {
            found.push(*id)?;
        }
    }
    Ok(found)
}

/// What a package with generics declares besides them.
fn declared_besides(
    alloc: Global,
    names: &Names,
    generics: &[DeclId],
    region: RegionId,
    first: u32,
) -> Result<Vec<DeclId>, AllocError>
    ensures { IfOk result (λ found. found.items ≡ besides generics.now region first names.now) }
{
    if generics.is_empty() {
        return Ok(Vec::new(alloc));
    }
    let declared = names.declared_in(alloc, region, Sort::Any)?;
    from_number(alloc, first, declared.as_slice())
}

/// The declaration of the package that ends.
fn package_of(
    alloc: Global,
    names: &Names,
    ended: &Ended<'_, '_>,
) -> Result<Declaration, AllocError>
    ensures { IfOk result (λ made. made ≡ package_declared ended.now names.now) }
{
    let inside = ended.inside;
    let region = inside.region;
    let at = &ended.inner.at;
    let generics = names.declared_in(alloc, region, Sort::Generic)?;
    let besides = declared_besides(alloc, names, generics.as_slice(), region, at.header_end)?;
    let class = package_class(generics.as_slice());
    let mut declared = unit_at(alloc, class, at, region)?;
    declared.parameters = Declarations::of(besides);
    declared.generics = Declarations::of(generics);
    Ok(declared)
}

/// What is noted of a package at its end.
fn note_package(
    alloc: Global,
    names: &mut Names,
    units: &Units<'_>,
    ended: &Ended<'_, '_>,
    id: DeclId,
) -> Result<(), AllocError>
    ensures { OnOk result (names.new ≡ with_own_span id ended.now.inside.now
        (with_instances_at_end units.now ended.now.inner.now.at.word ended.now.inside.now.region names.old)) }
{
    let inside = ended.inside;
    let at = &ended.inner.at;
    let word = at.word.name(alloc)?;
    note_instances_at_end(alloc, names, units, word.as_slice(), inside.region)?;
    let span = span_to(names, inside.header, id.number(), inside.region)?;
    note_span(names, id, span)
}

/// A package declaration ends.
#[tactic(auto, using(vd_forest::proofs::StoreLemmas::growing))]
pub fn package_ends(
    alloc: Global,
    names: &mut Names,
    units: &Units<'_>,
    ended: &Ended<'_, '_>,
    out: &mut Store<Resolved>,
) -> Result<Made, AllocError>
    requires { ended.now.inner.now.tree ≤ length out.old }
    ensures is { IfOk result (λ made. IsMade out.new names.new made (ending_of_package units.now (seen_ended out.old names.old ended.now))) }
    ensures extends { Extends out.old out.new }
{
    let id = DeclId::of(names.next_number()?);
    let declared = package_of(alloc, names, ended)?;
    let parts = with_name(alloc, id, ended.inner.tree, out)?;
    let inside = ended.inside;
    close(names, inside.region)?;
    let first = enter_unit(names, declared)?;
    note_package(alloc, names, units, ended, id)?;
    let made = finished(ended, Some(id), None, parts, first, out)?;
    Ok(made)
}

/// The body of a package ends.
#[tactic(auto, using(vd_forest::proofs::StoreLemmas::growing))]
fn body_ends(
    alloc: Global,
    names: &mut Names,
    owner: DeclId,
    ended: &Ended<'_, '_>,
    out: &mut Store<Resolved>,
) -> Result<Made, AllocError>
    requires { ended.now.inner.now.tree ≤ length out.old }
    ensures is { IfOk result (λ made. IsMade out.new names.new made (body_of_package (Some owner) (seen_ended out.old names.old ended.now))) }
    ensures extends { Extends out.old out.new }
{
    let parts = with_name(alloc, owner, ended.inner.tree, out)?;
    note_body(names, owner)?;
    let made = finished(ended, Some(owner), None, parts, None, out)?;
    Ok(made)
}

/// A package body ends. That of an unknown package names nothing.
pub fn package_body_ends(
    alloc: Global,
    names: &mut Names,
    ended: &Ended<'_, '_>,
    out: &mut Store<Resolved>,
) -> Result<Made, AllocError>
    requires { ended.now.inner.now.tree ≤ length out.old }
    ensures is { IfOk result (λ made. IsMade out.new names.new made (ending_of_body (seen_ended out.old names.old ended.now))) }
    ensures extends { Extends out.old out.new }
{
    let found = unit_named(alloc, names, Sort::WrittenPackage, ended.node.parts.text())?;
    match found {
        None => finished(ended, None, None, ended.inner.tree, None, out),
        Some(owner) => body_ends(alloc, names, owner, ended, out),
    }
}
