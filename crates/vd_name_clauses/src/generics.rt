//! The package or function that is instantiated.

ghost use Rattle.std.specs.Prelude.{◌≡◌, true, IfOk, OnOk};
ghost use Rattle.std.specs.List.{filter};
ghost use Rattle.vd_forest.specs.Forest.{nothing, more};
ghost use Rattle.vd_forest.specs.Store.{Extends};
ghost use Rattle.vd_regions.specs.Scopes.{declaration_at};
ghost use Rattle.vd_name_rows.specs.Designs.{sight};
ghost use Rattle.vd_name_rows.specs.Refusals.{broken_if as refused_where};
ghost use Rattle.vd_naming.specs.Generics.{meant_that as meant_of_sort, instantiated_as, generic_package as generic_package_step, generic_function as generic_function_step};
ghost use Rattle.vd_naming.specs.Paths.{path_meant as meant_by_path, one_that as only_that, path_outside as path_from_outside, prefix_pieces, refused_path as path_refused};
ghost use Rattle.vd_name_entering.specs.Made.{IsMade};
ghost use Rattle.vd_name_clauses.specs.Generics.{is_generic};

use std::alloc::{AllocError, Global};
use vd_bytes::{Place, Refused};
use vd_declarations::{Class, DeclId};
use vd_forest::{Opened, Store};
use vd_forms::Form;
use vd_name_entering::{Made, add_named};
use vd_name_rows::{At, Names};
use vd_naming::{
    Fit, Meant, broken_if, one_that, path_meant, path_outside, prefix_outside, refused_path,
};
use vd_resolved::Resolved;
use vd_walks::lesser;

/// What can be instantiated: a package or a function with generics.
#[derive(Clone, Copy)]
pub enum Generic {
    Package,
    Function,
}

impl Generic {
    /// Whether declarations of a class are such ones.
    pub fn has(self, class: Class) -> bool
        ensures { result ≡ is_generic self class }
    {
        match self {
            Generic::Package => matches!(class, Class::UninstantiatedPackage),
            Generic::Function => matches!(class, Class::UninstantiatedFunction),
        }
    }
}

/// Those of some declarations that can be instantiated.
fn those_of(
    alloc: Global,
    names: &Names,
    generic: Generic,
    ids: &[DeclId],
) -> Result<Vec<DeclId>, AllocError>
    ensures { IfOk result (λ found. found.items ≡ filter (λ k. is_generic generic (declaration_at names.now.scopes k).class) ids.now) }
{
    let mut found = Vec::new(alloc);
    for id in ids {
        if generic.has(names.class_of(*id)) {
            found.push(*id)?;
        }
    }
    Ok(found)
}

/// What a name means of those that can be instantiated.
fn meant_that(
    alloc: Global,
    names: &Names,
    generic: Generic,
    meant: &Meant,
) -> Result<Meant, AllocError>
    ensures { IfOk result (λ those. those ≡ meant_of_sort (λ k. is_generic generic (declaration_at names.now.scopes k).class) meant.now) }
{
    match meant.rule() {
        Some(rule) => Ok(Meant::breaks(alloc, rule)),
        None => {
            let those = those_of(alloc, names, generic, meant.declarations())?;
            Ok(Meant::means(those))
        }
    }
}

/// What is found of a name: the declaration, and what is refused where there is none.
#[derive(Clone, Copy)]
struct Found {
    named: Option<DeclId>,
    first: Option<Refused>,
}

/// What is refused of a name, where nothing is found that it has to mean.
fn refused_of(named: &Option<DeclId>, meant: &Meant, place: Place) -> Option<Refused>
    ensures { result ≡ path_refused named.now meant.now place }
{
    refused_path(*named, meant, place)
}

/// What can be instantiated under a name.
fn found_of(
    alloc: Global,
    names: &Names,
    at: &At<'_>,
    generic: Generic,
    node: &Opened<'_, Form>,
) -> Result<Found, AllocError>
    ensures named { IfOk result (λ found. found.named
        ≡ only_that (λ k. true) (meant_of_sort (λ k. is_generic generic (declaration_at names.now.scopes k).class) (meant_by_path (sight at.now names.now) node.now.parts))) }
    ensures first { IfOk result (λ found. found.first
        ≡ path_refused found.named (meant_of_sort (λ k. is_generic generic (declaration_at names.now.scopes k).class) (meant_by_path (sight at.now names.now) node.now.parts)) node.now.place) }
{
    let place = names.surroundings(at)?;
    let all = path_meant(alloc, &place, &node.parts)?;
    let meant = meant_that(alloc, names, generic, &all)?;
    let named = one_that(names, &place, Fit::Any, &meant);
    let first = refused_of(&named, &meant, node.place);
    Ok(Found { named, first })
}

/// What is instantiated, where it is known whether its name is one from outside a package with generics.
fn instantiated(
    alloc: Global,
    names: &Names,
    at: &mut At<'_>,
    generic: Generic,
    outside: bool,
    node: &Opened<'_, Form>,
    out: &mut Store<Resolved>,
) -> Result<Made, AllocError>
    ensures is { IfOk result (λ made. IsMade out.new names.now made
        (let m = meant_of_sort (λ k. is_generic generic (declaration_at names.now.scopes k).class) (meant_by_path (sight at.old names.now) node.now.parts) in
        instantiated_as (only_that (λ k. true) m) m at.old names.now node.now.place (more node.now.form node.now.text.now node.now.place node.now.parts nothing) (refused_where outside 307 node.now.place))) }
    ensures at { OnOk result (at.new ≡
        (let m = meant_of_sort (λ k. is_generic generic (declaration_at names.now.scopes k).class) (meant_by_path (sight at.old names.now) node.now.parts) in
        instantiated_as (only_that (λ k. true) m) m at.old names.now node.now.place (more node.now.form node.now.text.now node.now.place node.now.parts nothing) (refused_where outside 307 node.now.place)).at) }
    ensures extends { Extends out.old out.new }
{
    let found = found_of(alloc, names, at, generic, node)?;
    let tree = add_named(alloc, found.named, node, 0, out)?;
    at.named = found.named;
    at.mark = None;
    Ok(Made {
        tree,
        first: lesser(found.first, broken_if(outside, 307, node.place)),
    })
}

/// Whether a name begins with a package with generics, outside which it stands.
fn begins_outside(
    alloc: Global,
    names: &Names,
    at: &At<'_>,
    node: &Opened<'_, Form>,
) -> Result<bool, AllocError>
    ensures { IfOk result (λ outside. outside ≡ path_from_outside (sight at.now names.now) names.now at.now.region (prefix_pieces node.now.parts)) }
{
    let place = names.surroundings(at)?;
    prefix_outside(alloc, names, &place, at.region, &node.parts)
}

/// The same, or whether it is such a package.
fn is_outside(
    alloc: Global,
    names: &Names,
    at: &At<'_>,
    node: &Opened<'_, Form>,
) -> Result<bool, AllocError>
    ensures { IfOk result (λ outside. outside ≡ path_from_outside (sight at.now names.now) names.now at.now.region node.now.parts) }
{
    let place = names.surroundings(at)?;
    path_outside(alloc, names, &place, at.region, &node.parts)
}

/// The package behind `new`, which may be named here from outside.
pub fn generic_package(
    alloc: Global,
    names: &Names,
    at: &mut At<'_>,
    node: &Opened<'_, Form>,
    out: &mut Store<Resolved>,
) -> Result<Made, AllocError>
    ensures is { IfOk result (λ made. IsMade out.new names.now made
        (generic_package_step at.old names.now node.now.place (more node.now.form node.now.text.now node.now.place node.now.parts nothing))) }
    ensures at { OnOk result (at.new
        ≡ (generic_package_step at.old names.now node.now.place (more node.now.form node.now.text.now node.now.place node.now.parts nothing)).at) }
    ensures extends { Extends out.old out.new }
{
    let outside = begins_outside(alloc, names, at, node)?;
    let made = instantiated(alloc, names, at, Generic::Package, outside, node, out)?;
    Ok(made)
}

/// The function behind `new`.
pub fn generic_function(
    alloc: Global,
    names: &Names,
    at: &mut At<'_>,
    node: &Opened<'_, Form>,
    out: &mut Store<Resolved>,
) -> Result<Made, AllocError>
    ensures is { IfOk result (λ made. IsMade out.new names.now made
        (generic_function_step at.old names.now node.now.place (more node.now.form node.now.text.now node.now.place node.now.parts nothing))) }
    ensures at { OnOk result (at.new
        ≡ (generic_function_step at.old names.now node.now.place (more node.now.form node.now.text.now node.now.place node.now.parts nothing)).at) }
    ensures extends { Extends out.old out.new }
{
    let outside = is_outside(alloc, names, at, node)?;
    let made = instantiated(alloc, names, at, Generic::Function, outside, node, out)?;
    Ok(made)
}
