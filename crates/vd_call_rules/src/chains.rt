//! Chains of calls, function by function.

ghost use Rattle.std.specs.Prelude.{◌≡◌, ◌∷◌, IfOk, OnOk, List, Option, slice_get};
ghost use Rattle.vd_walks.specs.Least.{lesser as lesser_refusal, least_of, refusals};
ghost use Rattle.vd_call_rules.specs.declared.chain_events.Event as events;
ghost use Rattle.vd_call_rules.specs.Reaches.{with_actual as reach_with_actual, in_instance as reach_in_instance};
ghost use Rattle.vd_call_rules.specs.Chains.{class_in, actual_in, reach_in, reach_of_copy as reaches_of_copy, with_generics, stands_for as standing_for, with_copies, after_instance as is_after_instance, after_call as is_after_call, after as is_after, refused_call as is_refused_call, refused_at as is_refused_at, long_calls, first_reach, first_refused};

use crate::chain_events::{Event, events_of};
use crate::copies::{Copied, copies, generics_of_all};
use crate::reaches::{
    Ends, Reach, behind, calling, generic_call, is_too_long, together, with_body,
};
use crate::tables::{Rows, class_at, put, reach_of};
use std::alloc::{AllocError, Global};
use vd_bytes::{Place, Refused};
use vd_declarations::{DeclId, Declaration};
use vd_resolved::Tree;
use vd_trees::Revision;
use vd_walks::lesser;

/// The actual that a copy of a generic function is a name of.
fn actual_at(declarations: &[Declaration], copy: DeclId) -> Option<DeclId>
    ensures { result ≡ actual_in (class_in (slice_get declarations.now copy)) }
{
    match class_at(declarations, copy) {
        None => None,
        Some(class) => class.meaning(),
    }
}

/// What a call of a copy of a generic function reaches: it is a name of the actual, or else a generic function itself.
fn reach_of_copy(
    alloc: Global,
    declarations: &[Declaration],
    rows: &Rows,
    copy: DeclId,
) -> Result<Reach, AllocError>
    ensures { IfOk result (λ reach. reach
        ≡ reaches_of_copy (actual_in (class_in (slice_get declarations.now copy))) copy (reach_in declarations.now rows.now.items)) }
{
    match actual_at(declarations, copy) {
        None => reach_of(alloc, declarations, rows, copy),
        Some(actual) => reach_of(alloc, declarations, rows, actual),
    }
}

/// Puts what calls of the copies of generics reach.
fn add_generics(
    alloc: Global,
    declarations: &[Declaration],
    rows: &mut Rows,
    generics: &[Copied],
) -> Result<(), AllocError>
    ensures { OnOk result (reach_in declarations.now rows.new.items ≡ with_generics declarations.now generics.now (reach_in declarations.now rows.old.items)) }
{
    for copied in generics {
        let reach = reach_of_copy(alloc, declarations, rows, copied.copy)?;
        put(declarations, rows, copied.copy, reach)?;
    }
    Ok(())
}

/// What a call of a generic function reaches in an instance.
fn stands_for(
    alloc: Global,
    declarations: &[Declaration],
    rows: &Rows,
    generics: &[Copied],
    generic: DeclId,
) -> Result<Reach, AllocError>
    ensures { IfOk result (λ reach. reach ≡ standing_for generics.now (reach_in declarations.now rows.now.items) generic) }
{
    for copied in generics {
        if copied.original == generic {
            return reach_of(alloc, declarations, rows, copied.copy);
        }
    }
    generic_call(alloc, generic)
}

/// What a call of a function reaches in an instance, where this is what one of the original does.
fn in_instance(
    alloc: Global,
    declarations: &[Declaration],
    rows: &Rows,
    generics: &[Copied],
    reach: &Reach,
) -> Result<Reach, AllocError>
    ensures { IfOk result (λ found. found ≡ reach_in_instance (standing_for generics.now (reach_in declarations.now rows.now.items)) reach.now) }
{
    let mut found = Reach {
        plain: reach.plain,
        ends: Ends::of(Vec::new(alloc)),
    };
    for end in reach.ends.as_slice() {
        let stands = stands_for(alloc, declarations, rows, generics, end.generic)?;
        let further = behind(alloc, end.calls.saturating_sub(1), &stands)?;
        found = together(alloc, &found, &further)?;
    }
    Ok(found)
}

/// Puts what calls of the copies of functions reach.
fn add_copies(
    alloc: Global,
    declarations: &[Declaration],
    rows: &mut Rows,
    generics: &[Copied],
    copies: &[Copied],
) -> Result<(), AllocError>
    ensures { OnOk result (reach_in declarations.now rows.new.items ≡ with_copies generics.now copies.now (reach_in declarations.now rows.old.items)) }
{
    for copied in copies {
        let original = reach_of(alloc, declarations, rows, copied.original)?;
        let reach = in_instance(alloc, declarations, rows, generics, &original)?;
        put(declarations, rows, copied.copy, reach)?;
    }
    Ok(())
}

/// Puts what calls of the functions of an instance reach.
fn after_instance(
    alloc: Global,
    declarations: &[Declaration],
    rows: &mut Rows,
    copies: &[Copied],
) -> Result<(), AllocError>
    ensures { OnOk result (reach_in declarations.now rows.new.items ≡ is_after_instance declarations.now copies.now (reach_in declarations.now rows.old.items)) }
{
    let generics = generics_of_all(alloc, declarations, copies)?;
    add_generics(alloc, declarations, rows, generics.as_slice())?;
    add_copies(alloc, declarations, rows, generics.as_slice(), copies)
}

/// Puts what a function reaches in whose body another one is called.
fn after_call(
    alloc: Global,
    declarations: &[Declaration],
    rows: &mut Rows,
    around: Option<DeclId>,
    function: DeclId,
) -> Result<(), AllocError>
    ensures { OnOk result (reach_in declarations.now rows.new.items ≡ is_after_call around function (reach_in declarations.now rows.old.items)) }
{
    let Some(around) = around else {
        return Ok(());
    };
    let called = reach_of(alloc, declarations, rows, function)?;
    let reach = reach_of(alloc, declarations, rows, around)?;
    let found = calling(alloc, &reach, &called)?;
    put(declarations, rows, around, found)
}

/// Puts what calls reach behind an event.
fn after(
    alloc: Global,
    declarations: &[Declaration],
    rows: &mut Rows,
    event: &Event,
) -> Result<(), AllocError>
    ensures { OnOk result (reach_in declarations.now rows.new.items ≡ is_after declarations.now event.now (reach_in declarations.now rows.old.items)) }
{
    match event {
        Event::Called {
            around,
            function,
            ..
        } => after_call(alloc, declarations, rows, *around, *function),
        Event::Ended { function } => {
            let reach = reach_of(alloc, declarations, rows, *function)?;
            let ended = with_body(alloc, &reach)?;
            put(declarations, rows, *function, ended)
        }
        Event::Instance { original, instance } => {
            let copied = copies(alloc, declarations, *original, *instance)?;
            after_instance(alloc, declarations, rows, copied.as_slice())
        }
    }
}

fn refused_call(reach: &Reach, place: Place) -> Option<Refused>
    ensures { result ≡ is_refused_call reach.now place }
{
    if is_too_long(reach) {
        Some(Refused { place, rule: 411 })
    } else {
        None
    }
}

/// What is refused at an event.
fn refused_at(
    alloc: Global,
    declarations: &[Declaration],
    rows: &Rows,
    event: &Event,
) -> Result<Option<Refused>, AllocError>
    ensures { IfOk result (λ refused. refused ≡ is_refused_at event.now (reach_in declarations.now rows.now.items)) }
{
    match event {
        Event::Called {
            function,
            place,
            ..
        } => {
            let reach = reach_of(alloc, declarations, rows, *function)?;
            Ok(refused_call(&reach, *place))
        }
        _ => Ok(None),
    }
}

/// The lesser of a refusal and that of an event, and what calls reach behind it.
fn after_event(
    alloc: Global,
    declarations: &[Declaration],
    rows: &mut Rows,
    found: Option<Refused>,
    event: &Event,
) -> Result<Option<Refused>, AllocError>
    ensures { IfOk result (λ now. (es : List events.Event)
        → lesser_refusal now (least_of (refusals (long_calls declarations.now (reach_in declarations.now rows.new.items) es)))
        ≡ lesser_refusal found (least_of (refusals (long_calls declarations.now (reach_in declarations.now rows.old.items) (event.now ∷ es))))) }
{
    let refused = refused_at(alloc, declarations, rows, event)?;
    after(alloc, declarations, rows, event)?;
    Ok(lesser(found, refused))
}

/// The least refusal of a call among some events.
#[tactic(auto, using(crate::proofs::RowLemmas::no_rows))]
fn refused_among(
    alloc: Global,
    declarations: &[Declaration],
    events: &[Event],
) -> Result<Option<Refused>, AllocError>
    ensures { IfOk result (λ refused. refused ≡ least_of (refusals (long_calls declarations.now (first_reach declarations.now) events.now))) }
{
    let mut rows = Vec::new(alloc);
    let mut found = None;
    for event in events {
        found = after_event(alloc, declarations, &mut rows, found, event)?;
    }
    Ok(found)
}

/// The least refusal of a resolved design for a call that begins a chain of more than 64. Revision 1993 takes chains of any length.
pub fn first_chain_refusal(
    alloc: Global,
    revision: Revision,
    tree: &Tree,
) -> Result<Option<Refused>, AllocError>
    ensures { IfOk result (λ refused. refused ≡ first_refused revision tree.now) }
{
    match revision {
        Revision::V1993 => Ok(None),
        Revision::V2019 => {
            let units = tree.cursor();
            let events = events_of(alloc, &units)?;
            refused_among(alloc, tree.declarations(), events.as_slice())
        }
    }
}
