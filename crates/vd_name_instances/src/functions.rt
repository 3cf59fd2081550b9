//! Instances of functions.

ghost use Rattle.std.specs.Prelude.{◌≡◌, ◌≤◌, List, None, Some, IfOk, length};
ghost use Rattle.vd_declarations.specs.declared.classes.Class.TheVariants as class;
ghost use Rattle.vd_forest.specs.Forest.{Forest};
ghost use Rattle.vd_forest.specs.Store.{Extends};
ghost use Rattle.vd_resolved.specs.declared.node.Resolved.{Resolved};
ghost use Rattle.vd_name_rows.specs.Entering.{declaration_of};
ghost use Rattle.vd_naming.specs.Instances.{copying_at, function_declared as declared_function, refused_symbol as symbol_refused, refused_body as body_refused, undeclared_function as undeclared_of_function, function_instance_of as instance_of_function, function_instance_as as instance_of_known, function_instance_ends as ending_of_instance};
ghost use Rattle.vd_name_entering.specs.Made.{IsMade};
ghost use Rattle.vd_name_entering.specs.Ended.{seen_ended};

use crate::bodies::{is_tied_elsewhere, note_instance};
use crate::refusals::{actuals_at, refused_also, refused_entry};
use crate::settled::are_settled;
use crate::symbols::is_wrong_symbol;
use crate::{Instance, add_copies};
use std::alloc::{AllocError, Global};
use vd_bytes::{Place, Refused};
use vd_declarations::{Class, DeclId, Declaration, RegionId};
use vd_forest::Store;
use vd_name_entering::{Ended, Made, enter, finished, named_at};
use vd_name_rows::{At, Names};
use vd_naming::broken_if;
use vd_resolved::Resolved;
use vd_trees::Revision;
use vd_walks::lesser;

/// The revision of a place.
fn revision_of(at: &At<'_>) -> Revision
    ensures { result ≡ at.now.revision }
{
    at.revision
}

/// The unit of a place.
fn unit_of(at: &At<'_>) -> u32
    ensures { result ≡ at.now.unit }
{
    at.unit
}

/// The region of a place.
fn region_at(at: &At<'_>) -> RegionId
    ensures { result ≡ at.now.region }
{
    at.region
}

/// Whether the region of a place is that of a package declaration.
fn is_in_package(at: &At<'_>) -> bool
    ensures { result ≡ at.now.is_package }
{
    at.is_package
}

/// The place of the name that was read last.
fn place_of_word(at: &At<'_>) -> Place
    ensures { result ≡ at.now.word_place }
{
    at.word_place
}

/// The declaration of an instance, with the name that was read last at a place.
fn function_instance(
    alloc: Global,
    at: &At<'_>,
    instance: Instance,
) -> Result<Declaration, AllocError>
    ensures { IfOk result (λ made. made ≡ record (declaration_of class.Function (record { name = at.now.word; place = at.now.word_place }) instance.mark) {
      parameters = instance.parameters;
      generics = instance.generics;
      inside = Some instance.inside;
    }) }
{
    let mut declared = named_at(alloc, Class::Function, at, instance.mark)?;
    declared.parameters = instance.parameters;
    declared.generics = instance.generics;
    declared.inside = Some(instance.inside);
    Ok(declared)
}

/// Declares an instance of a function, behind the copies of what the function declares.
#[tactic(auto, using(crate::proofs::InstanceLemmas::function_made))]
fn function_declared(
    alloc: Global,
    names: &mut Names,
    id: DeclId,
    ended: &Ended<'_, '_>,
    out: &mut Store<Resolved>,
) -> Result<Made, AllocError>
    requires { ended.now.inner.now.tree ≤ length out.old }
    ensures is { IfOk result (λ made. IsMade out.new names.new made
        (declared_function (seen_ended out.old names.old ended.now) (copying_at (seen_ended out.old names.old ended.now) id))) }
    ensures extends { Extends out.old out.new }
{
    let inner = ended.inner;
    let instance = add_copies(alloc, names, id, ended.outer, actuals_at(&inner.at))?;
    let number = DeclId::of(instance.number);
    let declared = function_instance(alloc, &inner.at, instance)?;
    note_instance(names, is_in_package(ended.outer), number)?;
    let first = enter(names, region_at(ended.outer), declared)?;
    let made = finished(ended, Some(number), None, inner.tree, first, out)?;
    Ok(made)
}

/// Nothing is declared; but the name may be taken all the same.
fn undeclared_function(
    alloc: Global,
    names: &Names,
    ended: &Ended<'_, '_>,
    out: &mut Store<Resolved>,
) -> Result<Made, AllocError>
    requires { ended.now.inner.now.tree ≤ length out.old }
    ensures is { IfOk result (λ made. IsMade out.new names.now made (undeclared_of_function (seen_ended out.old names.now ended.now))) }
    ensures extends { Extends out.old out.new }
{
    let inner = ended.inner;
    let declared = named_at(alloc, Class::Function, &inner.at, None)?;
    let first = refused_entry(names, 304, region_at(ended.outer), &declared)?;
    let made = finished(ended, None, None, inner.tree, first, out)?;
    Ok(made)
}

/// Declares an instance of a function, where the actuals of all types and functions are known.
fn function_instance_of(
    alloc: Global,
    names: &mut Names,
    id: DeclId,
    ended: &Ended<'_, '_>,
    out: &mut Store<Resolved>,
) -> Result<Made, AllocError>
    requires { ended.now.inner.now.tree ≤ length out.old }
    ensures is { IfOk result (λ made. IsMade out.new names.new made (instance_of_function id (seen_ended out.old names.old ended.now))) }
    ensures extends { Extends out.old out.new }
{
    let inner = ended.inner;
    if are_settled(alloc, names, actuals_at(&inner.at), id)? {
        let made = function_declared(alloc, names, id, ended, out)?;
        return Ok(made);
    }
    let made = undeclared_function(alloc, names, ended, out)?;
    Ok(made)
}

/// What is refused of the designator of an instance: one in quotation marks is an operator with as many operands.
fn refused_symbol(names: &Names, ended: &Ended<'_, '_>, id: DeclId) -> Option<Refused>
    ensures { (store : List (Forest Resolved)) → result ≡ symbol_refused (seen_ended store names.now ended.now) id }
{
    let node = ended.node;
    let count = names.parameters_of(id).len();
    let wrong = is_wrong_symbol(revision_of(ended.outer), &node.parts.next(), count);
    broken_if(wrong, 307, place_of_word(&ended.inner.at))
}

/// What is refused of the body of the function: it has ended, and isn't tied to another unit.
fn refused_body(names: &Names, ended: &Ended<'_, '_>, id: DeclId) -> Option<Refused>
    ensures { (store : List (Forest Resolved)) → result ≡ body_refused (seen_ended store names.now ended.now) id }
{
    let missing = !names.note(id).has_body || is_tied_elsewhere(names, id, unit_of(ended.outer));
    broken_if(missing, 309, ended.node.place)
}

/// The same for a function that is known, with what is refused of the designator and of the body of the function.
#[tactic(auto, using(crate::proofs::InstanceLemmas::made_refused))]
fn function_instance_as(
    alloc: Global,
    names: &mut Names,
    id: DeclId,
    ended: &Ended<'_, '_>,
    out: &mut Store<Resolved>,
) -> Result<Made, AllocError>
    requires { ended.now.inner.now.tree ≤ length out.old }
    ensures is { IfOk result (λ made. IsMade out.new names.new made (instance_of_known (Some id) (seen_ended out.old names.old ended.now))) }
    ensures extends { Extends out.old out.new }
{
    let refused = lesser(
        refused_symbol(names, ended, id),
        refused_body(names, ended, id),
    );
    let made = function_instance_of(alloc, names, id, ended, out)?;
    Ok(refused_also(&made, refused))
}

/// The function that was named last at a place.
fn named_last(at: &At<'_>) -> Option<DeclId>
    ensures { result ≡ at.now.named }
{
    at.named
}

/// An instance of a function ends.
pub fn function_instance_ends(
    alloc: Global,
    names: &mut Names,
    ended: &Ended<'_, '_>,
    out: &mut Store<Resolved>,
) -> Result<Made, AllocError>
    requires { ended.now.inner.now.tree ≤ length out.old }
    ensures is { IfOk result (λ made. IsMade out.new names.new made (ending_of_instance (seen_ended out.old names.old ended.now))) }
    ensures extends { Extends out.old out.new }
{
    let inner = ended.inner;
    match named_last(&inner.at) {
        None => undeclared_function(alloc, names, ended, out),
        Some(id) => function_instance_as(alloc, names, id, ended, out),
    }
}
