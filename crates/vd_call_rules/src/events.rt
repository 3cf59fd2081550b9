//! Events of a text: calls, and ends of bodies.

ghost use Rattle.std.specs.Prelude.{◌≡◌, None, IfOk, is_some, slice_index_or};
ghost use Rattle.vd_walks.specs.Finding.{Finder};
ghost use Rattle.vd_call_rules.specs.Calls.{ended as event_of_end, ended_without_body as event_of_package, ended_instance as event_of_instance, place_of_call as call_stands, called as event_of_call, event_at as event_of_node, event_finder, events as all_events};

use crate::functions::outside;
use crate::inside::{Inside, inside_of};
use std::alloc::{AllocError, Global};
use vd_bytes::Place;
use vd_declarations::{DeclId, TypeId};
use vd_forest::{Cursor, Opened};
use vd_forms::Form;
use vd_resolved::Resolved;
use vd_structure_rules::functions::or_designator;
use vd_structure_rules::loops::number_at;
use vd_structure_rules::tables::entry;
use vd_walks::{Finding, find_all};

/// What happens at a place of a text.
#[derive(Clone, Copy)]
pub enum Event {
    /// A function is called.
    Called { function: DeclId, place: Place },
    /// The body of a function ends, or a package with which the bodies of its instances end.
    Ended { number: DeclId },
}

fn ended(number: Option<DeclId>) -> Option<Event>
    ensures { result ≡ event_of_end number }
{
    match number {
        None => None,
        Some(number) => Some(Event::Ended { number }),
    }
}

/// The end of a package declaration, where the package has no body.
fn ended_without_body(bodies: &[Option<DeclId>], home: Option<DeclId>) -> Option<Event>
    ensures { result ≡ event_of_package (λ k. is_some (slice_index_or bodies.now k None)) home }
{
    match home {
        None => None,
        Some(number) => {
            if entry(bodies, number.number()).is_some() {
                None
            } else {
                Some(Event::Ended { number })
            }
        }
    }
}

/// The end of an instance's body.
fn ended_instance(home: Option<DeclId>, number: Option<DeclId>) -> Option<Event>
    ensures { result ≡ event_of_instance home number }
{
    match home {
        None => ended(number),
        Some(_) => None,
    }
}

fn place_of_call(name: Option<Place>, place: Place) -> Place
    ensures { result ≡ call_stands name place }
{
    name.unwrap_or(place)
}

/// The call of a node that has a type and names something.
fn called(function: Option<DeclId>, mark: Option<TypeId>, place: Place) -> Option<Event>
    ensures { result ≡ event_of_call function mark place }
{
    match (function, mark) {
        (Some(function), Some(_)) => Some(Event::Called { function, place }),
        _ => None,
    }
}

/// What happens at a node.
fn event_at(
    bodies: &[Option<DeclId>],
    around: &Inside,
    node: &Opened<'_, Resolved>,
) -> Option<Event>
    ensures { result ≡ event_of_node (λ k. is_some (slice_index_or bodies.now k None)) around.now
        node.now.form.form node.now.form.declaration node.now.form.mark node.now.place node.now.parts }
{
    match node.form.form {
        Form::FunctionClosing => ended(around.function),
        Form::PackageBody => ended(number_at(&node.parts)),
        Form::Closing => ended_without_body(bodies, around.home),
        Form::FunctionInstantiation => {
            let number = or_designator(node.form.declaration, &node.parts.skip(1));
            ended_instance(around.home, number)
        }
        _ => {
            let place = place_of_call(around.name, node.place);
            called(node.form.declaration, node.form.mark, place)
        }
    }
}

/// Events, where it is known which packages have bodies.
#[derive(Clone, Copy)]
struct Events<'a> {
    bodies: &'a [Option<DeclId>],
}

impl<'a> Finding<Resolved, Inside, Event> for Events<'a> {
    ghost finder = { λ search. event_finder (λ k. is_some (slice_index_or search.bodies.now k None)) };

    fn answer(
        &self,
        _alloc: Global,
        around: &Inside,
        node: &Opened<'_, Resolved>,
    ) -> Result<Option<Event>, AllocError> {
        Ok(event_at(self.bodies, around, node))
    }

    fn down(
        &self,
        _alloc: Global,
        around: &Inside,
        node: &Opened<'_, Resolved>,
    ) -> Result<Inside, AllocError> {
        Ok(inside_of(around, node))
    }

    fn along(
        &self,
        _alloc: Global,
        around: &Inside,
        _node: &Opened<'_, Resolved>,
    ) -> Result<Inside, AllocError> {
        Ok(*around)
    }
}

/// All events of a text, in its order.
pub fn events_of(
    alloc: Global,
    bodies: &[Option<DeclId>],
    units: &Cursor<'_, Resolved>,
) -> Result<Vec<Event>, AllocError>
    ensures { IfOk result (λ found. found.items ≡ all_events (λ k. is_some (slice_index_or bodies.now k None)) units.now) }
{
    let search = Events { bodies };
    find_all(alloc, units, outside(), &search)
}
