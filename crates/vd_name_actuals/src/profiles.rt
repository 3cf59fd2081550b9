//! Profiles of functions: the type of the result, and those of the parameters. (IEEE 1076, subprogram overloading)

ghost use Rattle.std.specs.Prelude.{◌≡◌, IfOk};
ghost use Rattle.std.specs.List.{list_all};
ghost use Rattle.vd_regions.specs.Homographs.{same_type as are_same, same_types as are_same_list};
ghost use Rattle.vd_visible.specs.Sights.{sight_from};
ghost use Rattle.vd_naming.specs.Paths.{is_some};
ghost use Rattle.vd_naming.specs.Actuals.{profile as profile_of, profile_in as profile_as_known, functions_among as functions_of, of_profile as with_profile, only_one as only, function_among as only_function};
ghost use Rattle.vd_name_actuals.specs.Seen.{seen_known};

use crate::known::Known;
use std::alloc::{AllocError, Global};
use vd_declarations::{DeclId, TypeId};
use vd_visible::Surroundings;
use vd_visible::roles::{Role, role_of};

/// The profile of a function.
fn profile(
    alloc: Global,
    place: &Surroundings<'_>,
    function: DeclId,
) -> Result<Vec<Option<TypeId>>, AllocError>
    ensures { IfOk result (λ marks. marks.items ≡ profile_of (sight_from place.now) function) }
{
    let mut marks = Vec::new(alloc);
    marks.push(place.mark_of(function))?;
    for parameter in place.parameters_of(function) {
        marks.push(place.mark_of(*parameter))?;
    }
    Ok(marks)
}

/// The profile of a generic function as it is in the instance. A type of it is None where it isn't known.
pub fn profile_in(
    alloc: Global,
    known: &Known<'_, '_>,
    function: DeclId,
) -> Result<Vec<Option<TypeId>>, AllocError>
    ensures { IfOk result (λ marks. marks.items ≡ profile_as_known (seen_known known.now) function) }
{
    let own = profile(alloc, known.place, function)?;
    let mut marks = Vec::new(alloc);
    for mark in own.as_slice() {
        marks.push(known.mark_in(*mark))?;
    }
    Ok(marks)
}

/// Whether two types are the same, or there is none twice.
fn same_type(one: Option<TypeId>, other: Option<TypeId>) -> bool
    ensures { result ≡ are_same one other }
{
    match (one, other) {
        (None, None) => true,
        (Some(one), Some(other)) => one.number() == other.number(),
        _ => false,
    }
}

/// Whether types are the same, one by one.
#[tactic(auto, using(crate::proofs::TypeLemmas::of_other_lengths))]
fn same_types(one: &[Option<TypeId>], other: &[Option<TypeId>]) -> bool
    ensures { result ≡ are_same_list one.now other.now }
{
    if one.len() != other.len() {
        return false;
    }
    for (index, mark) in one.iter().enumerate() {
        if !same_type(*mark, other[index]) {
            return false;
        }
    }
    true
}

/// Whether all types are known.
pub(crate) fn are_known(marks: &[Option<TypeId>]) -> bool
    ensures { result ≡ list_all is_some marks.now }
{
    marks.iter().all(|mark| mark.is_some())
}

/// Those that are functions.
pub(crate) fn functions_among(
    alloc: Global,
    place: &Surroundings<'_>,
    ids: &[DeclId],
) -> Result<Vec<DeclId>, AllocError>
    ensures { IfOk result (λ found. found.items ≡ functions_of (sight_from place.now) ids.now) }
{
    let mut found = Vec::new(alloc);
    for id in ids {
        if matches!(role_of(place.class_of(*id)), Role::Function) {
            found.push(*id)?;
        }
    }
    Ok(found)
}

/// The functions of a profile.
pub(crate) fn of_profile(
    alloc: Global,
    place: &Surroundings<'_>,
    wanted: &[Option<TypeId>],
    ids: &[DeclId],
) -> Result<Vec<DeclId>, AllocError>
    ensures { IfOk result (λ found. found.items ≡ with_profile (sight_from place.now) wanted.now ids.now) }
{
    let functions = functions_among(alloc, place, ids)?;
    let mut found = Vec::new(alloc);
    for id in functions.as_slice() {
        let own = profile(alloc, place, *id)?;
        if same_types(wanted, own.as_slice()) {
            found.push(*id)?;
        }
    }
    Ok(found)
}

/// The only one.
fn only_one(ids: &[DeclId]) -> Option<DeclId>
    ensures { result ≡ only ids.now }
{
    match ids {
        [id] => Some(*id),
        _ => None,
    }
}

/// The only function of a profile, where all of its types are known.
pub fn function_among(
    alloc: Global,
    place: &Surroundings<'_>,
    wanted: &[Option<TypeId>],
    ids: &[DeclId],
) -> Result<Option<DeclId>, AllocError>
    ensures { IfOk result (λ found. found ≡ only_function (sight_from place.now) wanted.now ids.now) }
{
    if !are_known(wanted) {
        return Ok(None);
    }
    let found = of_profile(alloc, place, wanted, ids)?;
    Ok(only_one(found.as_slice()))
}
