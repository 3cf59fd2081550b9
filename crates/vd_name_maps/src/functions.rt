//! The functions that are actuals: those of the map, and for `<>` the only visible one of the generic's name and profile. (IEEE 1076-2019,
//! interface subprogram declarations)

ghost use Rattle.std.specs.Prelude.{◌≡◌, ◌++◌, Option, IfOk};
ghost use Rattle.std.specs.List.{flat_map, list_all};
ghost use Rattle.vd_forest.specs.Forest.{nothing, with_next};
ghost use Rattle.vd_visible.specs.Sights.{sight_from, name_of};
ghost use Rattle.vd_name_rows.specs.Noting.{formal_at};
ghost use Rattle.vd_naming.specs.Actuals.{profile_in as profile_as_known, function_among as only_function, actual_meant as meant_by_actual, declarations_meant as meant_declarations};
ghost use Rattle.vd_naming.specs.Associations.{value_for};
ghost use Rattle.vd_naming.specs.Generics.{default_function as default_of, function_or_default as function_of_value, function_for as function_of};
ghost use Rattle.vd_name_actuals.specs.Seen.{seen_known};
ghost use Rattle.vd_name_maps.specs.Pairs.{listed};

use crate::Elements;
use crate::types::paired;
use std::alloc::{AllocError, Global};
use vd_declarations::{Class, DeclId, TypeId};
use vd_forest::Cursor;
use vd_forms::Form;
use vd_name_actuals::meaning::{actual_meant, declarations_meant};
use vd_name_actuals::{Known, function_among, profile_in};
use vd_name_rows::{Actual, Names};

/// Whether an instance has to give a generic a value.
pub(crate) fn is_needed(names: &Names, id: DeclId) -> bool
    ensures { result ≡ (formal_at names.now id).is_needed }
{
    match names.note(id).formal {
        Some(formal) => formal.is_needed,
        None => false,
    }
}

/// The only visible function of a generic's name that has a profile.
pub(crate) fn default_among(
    alloc: Global,
    known: &Known<'_, '_>,
    generic: DeclId,
    wanted: &[Option<TypeId>],
) -> Result<Option<DeclId>, AllocError>
    ensures { IfOk result (λ found. found ≡ only_function (sight_from known.now.place.now) wanted.now
        ((sight_from known.now.place.now).visible (name_of (sight_from known.now.place.now) generic))) }
{
    let ids = known.place.visible(alloc, known.place.name_of(generic))?;
    function_among(alloc, known.place, wanted, ids.as_slice())
}

/// The function that stands for a generic one behind `<>`.
fn default_function(
    alloc: Global,
    known: &Known<'_, '_>,
    generic: DeclId,
) -> Result<Option<DeclId>, AllocError>
    ensures { IfOk result (λ found. found ≡ default_of (seen_known known.now) generic) }
{
    let wanted = profile_in(alloc, known, generic)?;
    default_among(alloc, known, generic, wanted.as_slice())
}

/// The function that an actual means, which is the first tree of a forest.
#[tactic(auto, using(crate::proofs::ActualLemmas::first_meant))]
fn function_meant(
    alloc: Global,
    known: &Known<'_, '_>,
    generic: DeclId,
    actual: &Cursor<'_, Form>,
) -> Result<Option<DeclId>, AllocError>
    ensures { IfOk result (λ found. found ≡ only_function (sight_from known.now.place.now) (profile_as_known (seen_known known.now) generic)
        (meant_declarations (meant_by_actual (sight_from known.now.place.now) (with_next actual.now nothing)))) }
{
    let wanted = profile_in(alloc, known, generic)?;
    let meant = actual_meant(alloc, known.place, actual)?;
    let ids = declarations_meant(&meant);
    function_among(alloc, known.place, wanted.as_slice(), ids)
}

/// The function that stands for a generic one: that of its element, or by its default.
fn function_or_default(
    alloc: Global,
    known: &Known<'_, '_>,
    elements: &Elements<'_>,
    generic: DeclId,
) -> Result<Option<DeclId>, AllocError>
    ensures { IfOk result (λ found. found ≡ function_of_value known.now.names.now (seen_known known.now) generic (value_for generic elements.now)) }
{
    match elements.value_for(generic) {
        Some(element) => function_meant(alloc, known, generic, &element.actual),
        None => {
            if is_needed(known.names, generic) {
                return Ok(None);
            }
            default_function(alloc, known, generic)
        }
    }
}

/// What stands for a generic function.
fn function_for(
    alloc: Global,
    known: &Known<'_, '_>,
    elements: &Elements<'_>,
    generic: DeclId,
) -> Result<Option<Actual>, AllocError>
    ensures { IfOk result (λ found. listed found ≡ function_of known.now.names.now (seen_known known.now) elements.now generic) }
{
    if !matches!(known.place.class_of(generic), Class::GenericFunction) {
        return Ok(None);
    }
    let found = function_or_default(alloc, known, elements, generic)?;
    Ok(paired(generic, found))
}

/// These actuals, and behind them those of the functions among some generics.
pub(crate) fn with_functions(
    alloc: Global,
    known: &Known<'_, '_>,
    generics: &[DeclId],
    elements: &Elements<'_>,
    types: Vec<Actual>,
) -> Result<Vec<Actual>, AllocError>
    ensures { IfOk result (λ given. given.items
        ≡ types.items ++ flat_map (function_of known.now.names.now (seen_known known.now) elements.now) generics.now) }
{
    let mut given = types;
    for generic in generics {
        let found = function_for(alloc, known, elements, *generic)?;
        if let Some(pair) = found {
            given.push(pair)?;
        }
    }
    Ok(given)
}
