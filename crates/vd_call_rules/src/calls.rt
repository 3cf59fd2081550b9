//! Calls before the end of the called body.

ghost use Rattle.std.specs.Prelude.{◌≡◌, ◌∷◌, ℕ, List, None, IfOk, is_some, slice_index_or};
ghost use Rattle.vd_walks.specs.Least.{lesser as lesser_refusal, least_of, refusals};
ghost use Rattle.vd_call_rules.specs.declared.events.Event as events;
ghost use Rattle.vd_call_rules.specs.Calls.{refused_until as is_refused_until, early_calls as all_early_calls, nothing_ended, first_refused};

use crate::events::{Event, events_of};
use crate::functions::{ends_by_number, packages_with_bodies, written_functions};
use std::alloc::{AllocError, Global};
use vd_bytes::{Place, Refused};
use vd_declarations::DeclId;
use vd_forest::Cursor;
use vd_resolved::Resolved;
use vd_structure_rules::tables::{bodies_by_number, entry, put};
use vd_walks::lesser;

/// The refusal of a call of a function whose body ends with a function or package.
fn refused_until(end: Option<DeclId>, ended: &[Option<DeclId>], place: Place) -> Option<Refused>
    ensures { result ≡ is_refused_until end (λ k. is_some (slice_index_or ended.now k None)) place }
{
    match end {
        None => None,
        Some(number) => {
            if entry(ended, number.number()).is_some() {
                None
            } else {
                Some(Refused { place, rule: 411 })
            }
        }
    }
}

/// The lesser of a refusal and that of an event, after what has ended so far.
fn after_event(
    ends: &[Option<DeclId>],
    ended: &mut Vec<Option<DeclId>>,
    found: Option<Refused>,
    event: Event,
) -> Result<Option<Refused>, AllocError>
    ensures { IfOk result (λ now. (es : List events.Event)
        → lesser_refusal now (least_of (refusals (all_early_calls (λ k. slice_index_or ends.now k None) (λ k. is_some (slice_index_or ended.new.items k None)) es)))
        ≡ lesser_refusal found (least_of (refusals (all_early_calls (λ k. slice_index_or ends.now k None) (λ k. is_some (slice_index_or ended.old.items k None)) (event ∷ es))))) }
{
    match event {
        Event::Called { function, place } => {
            let refused = refused_until(entry(ends, function.number()), ended.as_slice(), place);
            Ok(lesser(found, refused))
        }
        Event::Ended { number } => {
            put(ended, number.number(), number)?;
            Ok(found)
        }
    }
}

/// The least refusal of a call among some events.
fn early_calls(
    alloc: Global,
    ends: &[Option<DeclId>],
    events: &[Event],
) -> Result<Option<Refused>, AllocError>
    ensures { IfOk result (λ refused. refused ≡ least_of (refusals (all_early_calls (λ k. slice_index_or ends.now k None) nothing_ended events.now))) }
{
    let mut ended = Vec::new(alloc);
    let mut found = None;
    for event in events {
        found = after_event(ends, &mut ended, found, *event)?;
    }
    Ok(found)
}

/// The least refusal of some design units for a call before the end of the called function's body.
#[tactic(auto, using(crate::proofs::CallLemmas::same_text))]
pub fn first_call_refusal(
    alloc: Global,
    units: &Cursor<'_, Resolved>,
) -> Result<Option<Refused>, AllocError>
    ensures { IfOk result (λ refused. refused ≡ first_refused units.now) }
{
    let functions = written_functions(alloc, units)?;
    let ends = ends_by_number(alloc, functions.as_slice())?;
    let packages = packages_with_bodies(alloc, units)?;
    let bodies = bodies_by_number(alloc, packages.as_slice())?;
    let events = events_of(alloc, bodies.as_slice(), units)?;
    early_calls(alloc, ends.as_slice(), events.as_slice())
}
