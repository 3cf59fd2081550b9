//! Units, entities, architectures and contexts at their ends.

ghost use Rattle.std.specs.Prelude.{◌≡◌, ◌≤◌, IfOk, length};
ghost use Rattle.vd_forest.specs.Store.{Extends};
ghost use Rattle.vd_naming.specs.Units.{unit_ends as ending_of_unit, entity_ends as ending_of_entity, architecture_ends as ending_of_architecture, context_ends as ending_of_context};
ghost use Rattle.vd_name_entering.specs.Made.{IsMade};
ghost use Rattle.vd_name_entering.specs.Ended.{seen_ended};
ghost use Rattle.vd_name_units.specs.UnitsDeclared.{entity_declared, single_context_end};

use crate::entering::{enter_architecture, enter_unit, unit_at};
use std::alloc::{AllocError, Global};
use vd_declarations::{Class, DeclId, Declaration, Declarations};
use vd_forest::{Cursor, Store};
use vd_forms::Form;
use vd_name_entering::{
    Ended, Made, close, finished, is_single, named_at, region_inside, unit_named,
};
use vd_name_rows::{Names, Sort};
use vd_resolved::Resolved;

/// A unit ends: all that it declares is declared inside.
pub fn unit_ends(
    names: &Names,
    ended: &Ended<'_, '_>,
    out: &mut Store<Resolved>,
) -> Result<Made, AllocError>
    requires { ended.now.inner.now.tree ≤ length out.old }
    ensures is { IfOk result (λ made. IsMade out.new names.now made (ending_of_unit (seen_ended out.old names.now ended.now))) }
    ensures extends { Extends out.old out.new }
{
    let made = finished(ended, None, None, ended.inner.tree, None, out)?;
    Ok(made)
}

/// The declaration of the entity that ends, with its ports and its generics.
fn entity_of(alloc: Global, names: &Names, ended: &Ended<'_, '_>) -> Result<Declaration, AllocError>
    ensures { IfOk result (λ made. made ≡ entity_declared ended.now names.now) }
{
    let inside = ended.inside;
    let region = inside.region;
    let ports = names.declared_in(alloc, region, Sort::Port)?;
    let generics = names.declared_in(alloc, region, Sort::Generic)?;
    let mut declared = unit_at(alloc, Class::Entity, &ended.inner.at, region)?;
    declared.parameters = Declarations::of(ports);
    declared.generics = Declarations::of(generics);
    Ok(declared)
}

/// An entity declaration ends.
pub fn entity_ends(
    alloc: Global,
    names: &mut Names,
    ended: &Ended<'_, '_>,
    out: &mut Store<Resolved>,
) -> Result<Made, AllocError>
    requires { ended.now.inner.now.tree ≤ length out.old }
    ensures is { IfOk result (λ made. IsMade out.new names.new made (ending_of_entity (seen_ended out.old names.old ended.now))) }
    ensures extends { Extends out.old out.new }
{
    let id = DeclId::of(names.next_number()?);
    let declared = entity_of(alloc, names, ended)?;
    let inside = ended.inside;
    close(names, inside.region)?;
    let first = enter_unit(names, declared)?;
    let made = finished(ended, Some(id), None, ended.inner.tree, first, out)?;
    Ok(made)
}

/// An architecture body ends.
pub fn architecture_ends(
    alloc: Global,
    names: &mut Names,
    ended: &Ended<'_, '_>,
    out: &mut Store<Resolved>,
) -> Result<Made, AllocError>
    requires { ended.now.inner.now.tree ≤ length out.old }
    ensures is { IfOk result (λ made. IsMade out.new names.new made (ending_of_architecture (seen_ended out.old names.old ended.now))) }
    ensures extends { Extends out.old out.new }
{
    let id = DeclId::of(names.next_number()?);
    let entity = ended.node.parts.next().text();
    let entity = unit_named(alloc, names, Sort::Entity, entity)?;
    let inside = region_inside(names, entity);
    let declared = named_at(alloc, Class::Architecture, &ended.inner.at, None)?;
    let first = enter_architecture(names, inside, declared)?;
    let made = finished(ended, Some(id), None, ended.inner.tree, first, out)?;
    Ok(made)
}

/// A context declaration ends whose name is an identifier.
fn single_context_ends(
    alloc: Global,
    names: &mut Names,
    ended: &Ended<'_, '_>,
    out: &mut Store<Resolved>,
) -> Result<Made, AllocError>
    requires { ended.now.inner.now.tree ≤ length out.old }
    ensures is { IfOk result (λ made. IsMade out.new names.new made (single_context_end (seen_ended out.old names.old ended.now))) }
    ensures extends { Extends out.old out.new }
{
    let id = DeclId::of(names.next_number()?);
    let inside = ended.inside;
    let region = inside.region;
    let declared = unit_at(alloc, Class::Context, &ended.inner.at, region)?;
    close(names, region)?;
    let first = enter_unit(names, declared)?;
    let made = finished(ended, Some(id), None, ended.inner.tree, first, out)?;
    Ok(made)
}

/// A context declaration ends. Under any other name nothing is declared.
pub fn context_ends(
    alloc: Global,
    names: &mut Names,
    ended: &Ended<'_, '_>,
    out: &mut Store<Resolved>,
) -> Result<Made, AllocError>
    requires { ended.now.inner.now.tree ≤ length out.old }
    ensures is { IfOk result (λ made. IsMade out.new names.new made (ending_of_context (seen_ended out.old names.old ended.now))) }
    ensures extends { Extends out.old out.new }
{
    if is_single(&ended.node.parts.parts()) {
        return single_context_ends(alloc, names, ended, out);
    }
    let made = finished(ended, None, None, ended.inner.tree, None, out)?;
    Ok(made)
}
