//! References to contexts, whose clauses stand once more where they are named.

ghost use Rattle.std.specs.Prelude.{◌≡◌, IfOk, OnOk};
ghost use Rattle.vd_forest.specs.Forest.{nothing, more};
ghost use Rattle.vd_forest.specs.Store.{Extends};
ghost use Rattle.vd_regions.specs.Scopes.{declaration_at, region_at, with_clauses};
ghost use Rattle.vd_name_rows.specs.Designs.{sight, with_scopes};
ghost use Rattle.vd_name_rows.specs.Entering.{entering};
ghost use Rattle.vd_name_rows.specs.Members.{declared_in};
ghost use Rattle.vd_name_rows.specs.declared.sorts.Sort.TheVariants as sort;
ghost use Rattle.vd_naming.specs.Paths.{path_meant as meant_by_path, one_that as only_that, rule_of as rule_by, is_context};
ghost use Rattle.vd_naming.specs.Units.{entering_libraries, clauses_again as clauses_repeated, context_name as context_name_step};
ghost use Rattle.vd_name_entering.specs.Made.{IsMade};

use crate::found::{Found, found_of, unknown_name};
use std::alloc::{AllocError, Global};
use vd_bytes::Text;
use vd_declarations::{DeclId, Declaration, Declarations, RegionId};
use vd_forest::{Opened, Store};
use vd_forms::Form;
use vd_name_entering::{Made, add_named};
use vd_name_rows::{At, Names, Sort};
use vd_naming::{Fit, path_meant};
use vd_resolved::Resolved;

/// A declaration once more.
fn again(alloc: Global, declared: &Declaration) -> Result<Declaration, AllocError>
    ensures { IfOk result (λ made. made ≡ declared.now) }
{
    let name = Text::from_slice(alloc, declared.name.as_slice())?;
    let parameters = Vec::from_slice(alloc, declared.parameters.as_slice())?;
    let generics = Vec::from_slice(alloc, declared.generics.as_slice())?;
    let wanted = Text::from_slice(alloc, declared.wanted.as_slice())?;
    Ok(Declaration {
        class: declared.class,
        name,
        mark: declared.mark,
        parameters: Declarations::of(parameters),
        generics: Declarations::of(generics),
        inside: declared.inside,
        place: declared.place,
        made: declared.made,
        wanted,
    })
}

/// The declaration of a number once more.
fn copy_of(alloc: Global, names: &Names, id: DeclId) -> Result<Declaration, AllocError>
    ensures { IfOk result (λ made. made ≡ declaration_at names.now.scopes id) }
{
    match names.declaration(id) {
        Some(declared) => again(alloc, declared),
        None => Err(AllocError),
    }
}

/// Enters a declaration once more in another region, whatever stands there.
fn enter_again(
    alloc: Global,
    names: &mut Names,
    region: RegionId,
    id: DeclId,
) -> Result<(), AllocError>
    ensures { OnOk result (names.new ≡ (entering region (declaration_at names.old.scopes id) names.old).design) }
{
    let copy = copy_of(alloc, names, id)?;
    names.add(region, copy)?;
    Ok(())
}

/// Enters in a region what a context declares: names of libraries.
fn enter_libraries(
    alloc: Global,
    names: &mut Names,
    region: RegionId,
    context: RegionId,
) -> Result<(), AllocError>
    ensures { OnOk result (names.new ≡ (entering_libraries region (declared_in context sort.Any names.old) names.old).design) }
{
    let ids = names.declared_in(alloc, context, Sort::Any)?;
    for id in &ids {
        enter_again(alloc, names, region, *id)?;
    }
    Ok(())
}

/// Repeats the use clauses of a context in a region.
fn repeat_uses(names: &mut Names, region: RegionId, context: RegionId) -> Result<(), AllocError>
    ensures { OnOk result (names.new
        ≡ with_scopes names.old (with_clauses region (region_at names.old.scopes context).uses names.old.scopes)) }
{
    if !names.regions().is_region(region) {
        return Err(AllocError);
    }
    names.repeat_uses(region, context)
}

/// Repeats all clauses of a context in a region.
fn clauses_again(
    alloc: Global,
    names: &mut Names,
    region: RegionId,
    context: Option<RegionId>,
) -> Result<(), AllocError>
    ensures { OnOk result (names.new ≡ clauses_repeated region context names.old) }
{
    let Some(context) = context else {
        return Ok(());
    };
    enter_libraries(alloc, names, region, context)?;
    repeat_uses(names, region, context)?;
    Ok(())
}

/// The context that a name means.
fn context_of(
    alloc: Global,
    names: &Names,
    at: &At<'_>,
    node: &Opened<'_, Form>,
) -> Result<Found, AllocError>
    ensures named { IfOk result (λ found. found.named
        ≡ only_that (λ k. is_context (declaration_at names.now.scopes k).class) (meant_by_path (sight at.now names.now) node.now.parts)) }
    ensures rule { IfOk result (λ found. found.rule ≡ rule_by (meant_by_path (sight at.now names.now) node.now.parts)) }
{
    let place = names.surroundings(at)?;
    let meant = path_meant(alloc, &place, &node.parts)?;
    Ok(found_of(names, &place, Fit::Context, &meant))
}

/// The name of a context. Its clauses stand where it is named. Where there is no region of that number, it ends as where there is no memory.
pub fn context_name(
    alloc: Global,
    names: &mut Names,
    at: &At<'_>,
    node: &Opened<'_, Form>,
    out: &mut Store<Resolved>,
) -> Result<Made, AllocError>
    ensures is { IfOk result (λ made. IsMade out.new names.new made
        (context_name_step at.now names.old node.now.place (more node.now.form node.now.text.now node.now.place node.now.parts nothing))) }
    ensures at { OnOk result ((context_name_step at.now names.old node.now.place (more node.now.form node.now.text.now node.now.place node.now.parts nothing)).at ≡ at.now) }
    ensures extends { Extends out.old out.new }
{
    let found = context_of(alloc, names, at, node)?;
    match found.named {
        None => {
            let made = unknown_name(alloc, found.rule, node, out)?;
            Ok(made)
        }
        Some(context) => {
            clauses_again(alloc, names, at.region, names.inside_of(context))?;
            let tree = add_named(alloc, Some(context), node, 0, out)?;
            Ok(Made { tree, first: None })
        }
    }
}
