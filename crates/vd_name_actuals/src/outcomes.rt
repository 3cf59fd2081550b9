//! What the actual of a generic comes to.

ghost use Rattle.std.specs.Prelude.{IfOk};
ghost use Rattle.vd_forest.specs.Forest.{nothing, with_next};
ghost use Rattle.vd_forest.specs.Store.{Extends};
ghost use Rattle.std.specs.Prelude.{◌≡◌};
ghost use Rattle.vd_visible.specs.Sights.{sight_from, class_of};
ghost use Rattle.vd_naming.specs.Associations.{is_open as stands_open};
ghost use Rattle.vd_naming.specs.Actuals.{type_outcome as outcome_of_type, function_outcome as outcome_of_function, constant_outcome as outcome_of_constant, outcome_for as outcome_of};
ghost use Rattle.vd_name_entering.specs.Made.{IsMade};
ghost use Rattle.vd_name_actuals.specs.Kinds.{by_class, no_type_at, pieces_at};
ghost use Rattle.vd_name_actuals.specs.Seen.{seen_known};

use crate::known::Known;
use crate::meaning::{actual_meant, declarations_meant};
use crate::profiles::{function_among, profile_in};
use crate::refusals::{is_mark_name, no_type, refused_function};
use crate::trees::function_named;
use std::alloc::{AllocError, Global};
use vd_bytes::{Place, Refused};
use vd_declarations::{Class, DeclId, TypeId};
use vd_forest::{Cursor, Store};
use vd_forms::Form;
use vd_name_entering::Made;
use vd_name_expressions::{only_mark, where_known};
use vd_name_rows::{At, Names};
use vd_naming::{broken_if, refused_pieces, unresolved};
use vd_overloads::Wanted;
use vd_predefined::numbers::BOOLEAN;
use vd_refusals::first_refusal;
use vd_resolved::Resolved;
use vd_states::Want;
use vd_walks::lesser;

/// What is refused of an actual that has to be a mark, and isn't.
fn refused_as_type(
    alloc: Global,
    names: &Names,
    at: &At<'_>,
    place: Place,
    actual: &Cursor<'_, Form>,
) -> Result<Option<Refused>, AllocError>
    ensures { IfOk result (λ first. first ≡ no_type_at at.now names.now place actual.now) }
{
    let sight = names.surroundings(at)?;
    let mark = Want::Mark(TypeId::of(BOOLEAN));
    let name = first_refusal(&sight, alloc, &mark, actual)?;
    Ok(no_type(place, name))
}

/// What is refused of the names of an actual.
fn refused_names_of(
    alloc: Global,
    names: &Names,
    at: &At<'_>,
    actual: &Cursor<'_, Form>,
) -> Result<Option<Refused>, AllocError>
    ensures { IfOk result (λ first. first ≡ pieces_at at.now names.now actual.now) }
{
    let sight = names.surroundings(at)?;
    refused_pieces(alloc, names, &sight, at.region, actual)
}

/// The actual of a generic type.
fn type_outcome(
    alloc: Global,
    names: &Names,
    at: &At<'_>,
    place: Place,
    actual: &Cursor<'_, Form>,
    out: &mut Store<Resolved>,
) -> Result<Made, AllocError>
    requires alone { with_next actual.now nothing ≡ actual.now }
    ensures is { IfOk result (λ made. IsMade out.new names.now made (outcome_of_type at.now names.now place actual.now)) }
    ensures extends { Extends out.old out.new }
{
    let pieces = refused_names_of(alloc, names, at, actual)?;
    let found = only_mark(alloc, names, at, actual, out)?;
    match found {
        Some(tree) => Ok(Made {
            tree,
            first: pieces,
        }),
        None => {
            let refused = refused_as_type(alloc, names, at, place, actual)?;
            let tree = unresolved(alloc, actual, out)?;
            Ok(Made {
                tree,
                first: lesser(pieces, refused),
            })
        }
    }
}

/// The actual of a generic function.
fn function_outcome(
    alloc: Global,
    known: &Known<'_, '_>,
    at: &At<'_>,
    generic: DeclId,
    place: Place,
    actual: &Cursor<'_, Form>,
    out: &mut Store<Resolved>,
) -> Result<Made, AllocError>
    ensures is { IfOk result (λ made. IsMade out.new known.now.names.now made
        (outcome_of_function at.now known.now.names.now (seen_known known.now) generic place actual.now)) }
    ensures extends { Extends out.old out.new }
{
    let wanted = profile_in(alloc, known, generic)?;
    let meant = actual_meant(alloc, known.place, actual)?;
    let ids = declarations_meant(&meant);
    let function = function_among(alloc, known.place, wanted.as_slice(), ids)?;
    let pieces = refused_pieces(alloc, known.names, known.place, at.region, actual)?;
    let refused = refused_function(alloc, known, wanted.as_slice(), place, actual, &meant)?;
    let tree = function_named(alloc, known.place, function, actual, out)?;
    Ok(Made {
        tree,
        first: lesser(pieces, refused),
    })
}

/// The actual of a generic constant.
fn constant_outcome(
    alloc: Global,
    known: &Known<'_, '_>,
    at: &At<'_>,
    generic: DeclId,
    place: Place,
    actual: &Cursor<'_, Form>,
    out: &mut Store<Resolved>,
) -> Result<Made, AllocError>
    requires alone { with_next actual.now nothing ≡ actual.now }
    ensures is { IfOk result (λ made. IsMade out.new known.now.names.now made
        (outcome_of_constant at.now known.now.names.now (seen_known known.now) generic place actual.now)) }
    ensures extends { Extends out.old out.new }
{
    let wanted = known
        .mark_in(known.place.mark_of(generic))
        .map(Wanted::OfType);
    let made = where_known(alloc, known.names, at, wanted, actual, out)?;
    let mark = is_mark_name(alloc, known.place, actual)?;
    Ok(Made {
        tree: made.tree,
        first: lesser(made.first, broken_if(mark, 309, place)),
    })
}

/// The actual of a generic, by what kind of generic it is.
fn by_class(
    alloc: Global,
    known: &Known<'_, '_>,
    at: &At<'_>,
    generic: DeclId,
    place: Place,
    actual: &Cursor<'_, Form>,
    out: &mut Store<Resolved>,
) -> Result<Made, AllocError>
    requires alone { with_next actual.now nothing ≡ actual.now }
    ensures is { IfOk result (λ made. IsMade out.new known.now.names.now made
        (by_class (class_of (sight_from known.now.place.now) generic) at.now known.now.names.now (seen_known known.now) generic place actual.now)) }
    ensures extends { Extends out.old out.new }
{
    match known.place.class_of(generic) {
        Class::GenericType => type_outcome(alloc, known.names, at, place, actual, out),
        Class::GenericFunction => function_outcome(alloc, known, at, generic, place, actual, out),
        _ => constant_outcome(alloc, known, at, generic, place, actual, out),
    }
}

/// Whether an actual is `open`.
pub fn is_open(actual: &Cursor<'_, Form>) -> bool
    ensures { result ≡ stands_open actual.now }
{
    matches!(actual.form(), Some(Form::Open))
}

/// What the actual of a generic comes to, where its element has this place. Nothing is said of `open` here.
pub fn outcome_for(
    alloc: Global,
    known: &Known<'_, '_>,
    at: &At<'_>,
    generic: DeclId,
    place: Place,
    actual: &Cursor<'_, Form>,
    out: &mut Store<Resolved>,
) -> Result<Made, AllocError>
    requires alone { with_next actual.now nothing ≡ actual.now }
    ensures is { IfOk result (λ made. IsMade out.new known.now.names.now made
        (outcome_of (class_of (sight_from known.now.place.now) generic) at.now known.now.names.now (seen_known known.now) generic place actual.now)) }
    ensures extends { Extends out.old out.new }
{
    if is_open(actual) {
        let tree = unresolved(alloc, actual, out)?;
        return Ok(Made { tree, first: None });
    }
    by_class(alloc, known, at, generic, place, actual, out)
}
