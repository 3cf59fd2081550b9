//! Instances of packages.

ghost use Rattle.std.specs.Prelude.{◌≡◌, ◌≤◌, None, Some, IfOk, length};
ghost use Rattle.vd_declarations.specs.declared.classes.Class.TheVariants as class;
ghost use Rattle.vd_forest.specs.Store.{Extends};
ghost use Rattle.vd_name_rows.specs.Entering.{declaration_of};
ghost use Rattle.vd_naming.specs.Instances.{copying_at, package_declared as declared_package, undeclared_package as undeclared_of_package, package_instance_of as instance_of_package, package_instance_as as instance_of_known, package_instance_ends as ending_of_instance};
ghost use Rattle.vd_name_entering.specs.Made.{IsMade};
ghost use Rattle.vd_name_entering.specs.Ended.{seen_ended};

use crate::bodies::lacks_body;
use crate::refusals::{actuals_at, refused_also, refused_unit};
use crate::settled::are_settled;
use crate::{Instance, add_copies};
use std::alloc::{AllocError, Global};
use vd_declarations::{Class, DeclId, Declaration};
use vd_forest::Store;
use vd_name_entering::{Ended, Made, finished, named_at};
use vd_name_rows::{At, Names};
use vd_name_units::enter_unit;
use vd_naming::broken_if;
use vd_resolved::Resolved;

/// The declaration of an instance, with the name that was read last at a place.
fn package_instance(
    alloc: Global,
    at: &At<'_>,
    instance: Instance,
) -> Result<Declaration, AllocError>
    ensures { IfOk result (λ made. made ≡ record (declaration_of class.PackageInstance (record { name = at.now.word; place = at.now.word_place }) None) {
      parameters = instance.parameters;
      generics = instance.generics;
      inside = Some instance.inside;
    }) }
{
    let mut declared = named_at(alloc, Class::PackageInstance, at, None)?;
    declared.parameters = instance.parameters;
    declared.generics = instance.generics;
    declared.inside = Some(instance.inside);
    Ok(declared)
}

/// Declares an instance of a package, behind the copies of what the package declares.
#[tactic(auto, using(crate::proofs::InstanceLemmas::package_made))]
fn package_declared(
    alloc: Global,
    names: &mut Names,
    id: DeclId,
    ended: &Ended<'_, '_>,
    out: &mut Store<Resolved>,
) -> Result<Made, AllocError>
    requires { ended.now.inner.now.tree ≤ length out.old }
    ensures is { IfOk result (λ made. IsMade out.new names.new made
        (declared_package (seen_ended out.old names.old ended.now) (copying_at (seen_ended out.old names.old ended.now) id))) }
    ensures extends { Extends out.old out.new }
{
    let inner = ended.inner;
    let instance = add_copies(alloc, names, id, ended.outer, actuals_at(&inner.at))?;
    let number = DeclId::of(instance.number);
    let declared = package_instance(alloc, &inner.at, instance)?;
    let first = enter_unit(names, declared)?;
    let made = finished(ended, Some(number), None, inner.tree, first, out)?;
    Ok(made)
}

/// Nothing is declared; but the name may be taken all the same.
fn undeclared_package(
    alloc: Global,
    names: &Names,
    ended: &Ended<'_, '_>,
    out: &mut Store<Resolved>,
) -> Result<Made, AllocError>
    requires { ended.now.inner.now.tree ≤ length out.old }
    ensures is { IfOk result (λ made. IsMade out.new names.now made (undeclared_of_package (seen_ended out.old names.now ended.now))) }
    ensures extends { Extends out.old out.new }
{
    let inner = ended.inner;
    let declared = named_at(alloc, Class::PackageInstance, &inner.at, None)?;
    let first = refused_unit(names, &declared)?;
    let made = finished(ended, None, None, inner.tree, first, out)?;
    Ok(made)
}

/// Declares an instance of a package, where the actuals of all types and functions are known.
fn package_instance_of(
    alloc: Global,
    names: &mut Names,
    id: DeclId,
    ended: &Ended<'_, '_>,
    out: &mut Store<Resolved>,
) -> Result<Made, AllocError>
    requires { ended.now.inner.now.tree ≤ length out.old }
    ensures is { IfOk result (λ made. IsMade out.new names.new made (instance_of_package id (seen_ended out.old names.old ended.now))) }
    ensures extends { Extends out.old out.new }
{
    let inner = ended.inner;
    if are_settled(alloc, names, actuals_at(&inner.at), id)? {
        let made = package_declared(alloc, names, id, ended, out)?;
        return Ok(made);
    }
    let made = undeclared_package(alloc, names, ended, out)?;
    Ok(made)
}

/// The same for a package that is known. It is refused where the body that the package needs hasn't ended.
#[tactic(auto, using(crate::proofs::InstanceLemmas::made_refused))]
fn package_instance_as(
    alloc: Global,
    names: &mut Names,
    id: DeclId,
    ended: &Ended<'_, '_>,
    out: &mut Store<Resolved>,
) -> Result<Made, AllocError>
    requires { ended.now.inner.now.tree ≤ length out.old }
    ensures is { IfOk result (λ made. IsMade out.new names.new made (instance_of_known (Some id) (seen_ended out.old names.old ended.now))) }
    ensures extends { Extends out.old out.new }
{
    let refused = broken_if(lacks_body(names, id), 302, ended.node.place);
    let made = package_instance_of(alloc, names, id, ended, out)?;
    Ok(refused_also(&made, refused))
}

/// The package that was named last at a place.
fn named_last(at: &At<'_>) -> Option<DeclId>
    ensures { result ≡ at.now.named }
{
    at.named
}

/// An instance of a package ends.
pub fn package_instance_ends(
    alloc: Global,
    names: &mut Names,
    ended: &Ended<'_, '_>,
    out: &mut Store<Resolved>,
) -> Result<Made, AllocError>
    requires { ended.now.inner.now.tree ≤ length out.old }
    ensures is { IfOk result (λ made. IsMade out.new names.new made (ending_of_instance (seen_ended out.old names.old ended.now))) }
    ensures extends { Extends out.old out.new }
{
    let inner = ended.inner;
    match named_last(&inner.at) {
        None => undeclared_package(alloc, names, ended, out),
        Some(id) => package_instance_as(alloc, names, id, ended, out),
    }
}
