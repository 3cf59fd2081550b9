//! Actuals that are refused: what is named is of another kind than the generic, or no such thing is visible.

ghost use Rattle.std.specs.Prelude.{◌≡◌, IfOk};
ghost use Rattle.vd_predefined.specs.declared.numbers.TheConstants.{BOOLEAN};
ghost use Rattle.vd_walks.specs.Least.{lesser as lesser_refusal};
ghost use Rattle.vd_refusals.specs.Refusals.{first_refusal as first_refused};
ghost use Rattle.vd_regions.specs.Scopes.{declaration_at};
ghost use Rattle.vd_states.specs.declared.states.Want.TheVariants as want;
ghost use Rattle.vd_name_rows.specs.Refusals.{broken};
ghost use Rattle.vd_visible.specs.Sights.{sight_from};
ghost use Rattle.vd_naming.specs.Actuals.{of_other_kind as refused_kind, no_type as refused_type, is_written as declares_body, is_unfit as cannot_stand, refused_count as refused_by_count, refused_functions as refused_among, refused_function as refused_actual, is_mark_name as names_mark};
ghost use Rattle.vd_name_actuals.specs.Seen.{seen_known};

use crate::known::Known;
use crate::profiles::{are_known, functions_among, of_profile};
use std::alloc::{AllocError, Global};
use vd_bytes::{Place, Refused};
use vd_declarations::{Class, DeclId, TypeId};
use vd_forest::Cursor;
use vd_forms::Form;
use vd_name_expressions::edges::is_edge_function;
use vd_name_expressions::marks::first_place;
use vd_name_rows::Names;
use vd_naming::{Meant, broken_if};
use vd_predefined::numbers::BOOLEAN;
use vd_refusals::{Seen, first_refusal, path_seen};
use vd_states::Want;
use vd_visible::Surroundings;
use vd_walks::lesser;

/// A refusal, with the rule on actuals beside it where a name means something of another kind.
pub(crate) fn of_other_kind(place: Place, refused: Refused) -> Option<Refused>
    ensures { result ≡ refused_kind place refused }
{
    if refused.rule == 307 {
        return lesser(Some(refused), Some(Refused { place, rule: 309 }));
    }
    Some(refused)
}

/// What is refused of an actual that is no mark.
pub(crate) fn no_type(place: Place, name: Option<Refused>) -> Option<Refused>
    ensures { result ≡ refused_type place name }
{
    match name {
        None => Some(Refused { place, rule: 309 }),
        Some(refused) => of_other_kind(place, refused),
    }
}

/// Whether it is a function whose body is written somewhere.
fn is_written(names: &Names, id: DeclId) -> bool
    ensures { result ≡ declares_body (declaration_at names.now.scopes id) }
{
    matches!(names.class_of(id), Class::Function) && names.inside_of(id).is_some()
}

/// Whether a function can't stand for a generic one: its body hasn't ended, or it takes the name of a signal.
pub fn is_unfit(names: &Names, id: DeclId) -> bool
    ensures { result ≡ cannot_stand names.now id }
{
    (is_written(names, id) && !names.note(id).has_body) || is_edge_function(names, Some(id))
}

/// What is refused of the functions of the profile: there has to be one.
fn refused_count(names: &Names, place: Place, name: Place, ids: &[DeclId]) -> Option<Refused>
    ensures { result ≡ refused_by_count names.now place name ids.now }
{
    match ids {
        [] => Some(Refused {
            place: name,
            rule: 305,
        }),
        [id] => broken_if(is_unfit(names, *id), 309, place),
        _ => Some(Refused {
            place: name,
            rule: 306,
        }),
    }
}

/// What is refused of functions of which one has to have the profile.
fn refused_functions(
    alloc: Global,
    known: &Known<'_, '_>,
    wanted: &[Option<TypeId>],
    place: Place,
    name: Place,
    functions: &[DeclId],
) -> Result<Option<Refused>, AllocError>
    ensures { IfOk result (λ first. first ≡ refused_among known.now.names.now (seen_known known.now) wanted.now place name functions.now) }
{
    if functions.is_empty() {
        let other = Refused {
            place: name,
            rule: 307,
        };
        return Ok(of_other_kind(place, other));
    }
    if !are_known(wanted) {
        return Ok(None);
    }
    let found = of_profile(alloc, known.place, wanted, functions)?;
    Ok(refused_count(known.names, place, name, found.as_slice()))
}

/// What is refused of an actual of which nothing is known.
fn refused_unknown(
    alloc: Global,
    place: &Surroundings<'_>,
    at: Place,
    actual: &Cursor<'_, Form>,
) -> Result<Option<Refused>, AllocError>
    ensures { IfOk result (λ first. first ≡ lesser_refusal (broken 309 at) (first_refused (sight_from place.now) (want.Value BOOLEAN) actual.now)) }
{
    let value = Want::Value(TypeId::of(BOOLEAN));
    let name = first_refusal(place, alloc, &value, actual)?;
    Ok(lesser(
        Some(Refused {
            place: at,
            rule: 309,
        }),
        name,
    ))
}

/// What is refused of an actual for a function of a profile, where its element has this place.
pub(crate) fn refused_function(
    alloc: Global,
    known: &Known<'_, '_>,
    wanted: &[Option<TypeId>],
    place: Place,
    actual: &Cursor<'_, Form>,
    meant: &Option<Meant>,
) -> Result<Option<Refused>, AllocError>
    ensures { IfOk result (λ first. first ≡ refused_actual known.now.names.now (seen_known known.now) wanted.now place actual.now meant.now) }
{
    let Some(meant) = meant else {
        return refused_unknown(alloc, known.place, place, actual);
    };
    let name = first_place(actual);
    if let Some(rule) = meant.rule() {
        return Ok(of_other_kind(place, Refused { place: name, rule }));
    }
    let functions = functions_among(alloc, known.place, meant.declarations())?;
    refused_functions(alloc, known, wanted, place, name, functions.as_slice())
}

/// Whether an actual is the name of a mark.
pub(crate) fn is_mark_name(
    alloc: Global,
    place: &Surroundings<'_>,
    actual: &Cursor<'_, Form>,
) -> Result<bool, AllocError>
    ensures { IfOk result (λ b. b ≡ names_mark (sight_from place.now) actual.now) }
{
    let Some(first) = actual.open() else {
        return Ok(false);
    };
    match first.form {
        Form::Name => {
            let seen = path_seen(place, alloc, &first.parts)?;
            Ok(matches!(seen, Seen::Mark(_)))
        }
        _ => Ok(false),
    }
}
