//! Generics without a value. (IEEE 1076, generic map aspects)

ghost use Rattle.std.specs.Prelude.{◌≡◌, IfOk};
ghost use Rattle.std.specs.List.{list_all, list_any};
ghost use Rattle.vd_naming.specs.Paths.{is_some};
ghost use Rattle.vd_naming.specs.Generics.{lacks_function as has_no_function, lacks_default as has_no_default, lacks_value as has_no_value};
ghost use Rattle.vd_name_actuals.specs.Seen.{seen_known};
ghost use Rattle.vd_name_maps.specs.Maps.{missing_among};

use crate::Elements;
use crate::functions::{default_among, is_needed};
use std::alloc::{AllocError, Global};
use vd_bytes::Refused;
use vd_declarations::{Class, DeclId, TypeId};
use vd_name_actuals::refusals::is_unfit;
use vd_name_actuals::{Known, profile_in};
use vd_name_rows::{At, Names};
use vd_naming::broken_if;

/// Whether no function is known that can stand for a generic one.
fn lacks_function(names: &Names, found: Option<DeclId>) -> bool
    ensures { result ≡ has_no_function names.now found }
{
    match found {
        Some(id) => is_unfit(names, id),
        None => true,
    }
}

/// Whether all types are known.
fn all_known(marks: &[Option<TypeId>]) -> bool
    ensures { result ≡ list_all is_some marks.now }
{
    marks.iter().all(|mark| mark.is_some())
}

/// Whether it is a generic function for which none of its name and profile is visible. One whose profile has a type that isn't known is refused
/// already.
fn lacks_default(alloc: Global, known: &Known<'_, '_>, generic: DeclId) -> Result<bool, AllocError>
    ensures { IfOk result (λ lacks. lacks ≡ has_no_default known.now.names.now (seen_known known.now) generic) }
{
    if !matches!(known.place.class_of(generic), Class::GenericFunction) {
        return Ok(false);
    }
    let wanted = profile_in(alloc, known, generic)?;
    if !all_known(wanted.as_slice()) {
        return Ok(false);
    }
    let found = default_among(alloc, known, generic, wanted.as_slice())?;
    Ok(lacks_function(known.names, found))
}

/// Whether a generic has neither a value nor a default.
fn lacks_value(
    alloc: Global,
    known: &Known<'_, '_>,
    elements: &Elements<'_>,
    generic: DeclId,
) -> Result<bool, AllocError>
    ensures { IfOk result (λ lacks. lacks ≡ has_no_value known.now.names.now (seen_known known.now) elements.now generic) }
{
    if elements.has_value(generic) {
        return Ok(false);
    }
    if is_needed(known.names, generic) {
        return Ok(true);
    }
    lacks_default(alloc, known, generic)
}

/// Whether one of some generics has neither a value nor a default.
fn any_lacks(
    alloc: Global,
    known: &Known<'_, '_>,
    generics: &[DeclId],
    elements: &Elements<'_>,
) -> Result<bool, AllocError>
    ensures { IfOk result (λ lacks. lacks ≡ list_any (has_no_value known.now.names.now (seen_known known.now) elements.now) generics.now) }
{
    for generic in generics {
        let lacks = lacks_value(alloc, known, elements, *generic)?;
        if lacks {
            return Ok(true);
        }
    }
    Ok(false)
}

/// What is refused of a map that gives one of some generics no value, where each of its elements is for a generic.
pub(crate) fn missing_generic(
    alloc: Global,
    known: &Known<'_, '_>,
    at: &At<'_>,
    generics: &[DeclId],
    elements: &Elements<'_>,
) -> Result<Option<Refused>, AllocError>
    ensures { IfOk result (λ first. first ≡ missing_among generics.now at.now known.now.names.now (seen_known known.now) elements.now) }
{
    if !elements.are_known() {
        return Ok(None);
    }
    let lacks = any_lacks(alloc, known, generics, elements)?;
    Ok(broken_if(lacks, 309, at.label_place))
}
