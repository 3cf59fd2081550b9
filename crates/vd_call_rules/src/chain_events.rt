//! What happens in a text: calls, ends of bodies, instances.

ghost use Rattle.std.specs.Prelude.{◌≡◌, IfOk};
ghost use Rattle.vd_walks.specs.Finding.{Finder};
ghost use Rattle.vd_call_rules.specs.Chains.{ended as event_of_end, instance_of as event_of_instance, called as event_of_call, event_at as event_of_node, event_finder, events as all_events};

use crate::around::{Around, around_in, outside, place_of_call};
use std::alloc::{AllocError, Global};
use vd_bytes::Place;
use vd_declarations::{DeclId, TypeId};
use vd_forest::{Cursor, Opened};
use vd_forms::Form;
use vd_resolved::Resolved;
use vd_structure_rules::functions::or_designator;
use vd_structure_rules::loops::number_at;
use vd_walks::{Finding, find_all};

/// What happens at a place of a text.
#[derive(Clone, Copy)]
pub enum Event {
    /// A function is called, perhaps in the body of another one.
    Called {
        around: Option<DeclId>,
        function: DeclId,
        place: Place,
    },
    /// The body of a function ends.
    Ended {
        function: DeclId,
    },
    /// A function or package with generics has an instance.
    Instance {
        original: DeclId,
        instance: DeclId,
    },
}

fn ended(function: Option<DeclId>) -> Option<Event>
    ensures { result ≡ event_of_end function }
{
    match function {
        None => None,
        Some(function) => Some(Event::Ended { function }),
    }
}

fn instance_of(original: Option<DeclId>, instance: Option<DeclId>) -> Option<Event>
    ensures { result ≡ event_of_instance original instance }
{
    match (original, instance) {
        (Some(original), Some(instance)) => Some(Event::Instance { original, instance }),
        _ => None,
    }
}

/// The call of a node that has a type and names something.
fn called(
    around: Option<DeclId>,
    function: Option<DeclId>,
    mark: Option<TypeId>,
    place: Place,
) -> Option<Event>
    ensures { result ≡ event_of_call around function mark place }
{
    match (function, mark) {
        (Some(function), Some(_)) => Some(Event::Called {
            around,
            function,
            place,
        }),
        _ => None,
    }
}

/// What happens at a node.
fn event_at(around: &Around, node: &Opened<'_, Resolved>) -> Option<Event>
    ensures { result ≡ event_of_node around.now node.now.form.form node.now.form.declaration node.now.form.mark node.now.place node.now.parts }
{
    let number = node.form.declaration;
    match node.form.form {
        Form::FunctionClosing => ended(around.function),
        Form::FunctionInstantiation => instance_of(
            number_at(&node.parts.skip(2)),
            or_designator(number, &node.parts.skip(1)),
        ),
        Form::PackageInstantiation => instance_of(
            number_at(&node.parts.skip(1)),
            or_designator(number, &node.parts),
        ),
        _ => {
            let place = place_of_call(around.name, node.place);
            called(around.function, number, node.form.mark, place)
        }
    }
}

/// All events.
#[derive(Clone, Copy)]
struct Events;

impl Finding<Resolved, Around, Event> for Events {
    ghost finder = { λ _. event_finder };

    fn answer(
        &self,
        _alloc: Global,
        around: &Around,
        node: &Opened<'_, Resolved>,
    ) -> Result<Option<Event>, AllocError> {
        Ok(event_at(around, node))
    }

    fn down(
        &self,
        _alloc: Global,
        around: &Around,
        node: &Opened<'_, Resolved>,
    ) -> Result<Around, AllocError> {
        Ok(around_in(around, node))
    }

    fn along(
        &self,
        _alloc: Global,
        around: &Around,
        _node: &Opened<'_, Resolved>,
    ) -> Result<Around, AllocError> {
        Ok(*around)
    }
}

/// All events of a text, in its order.
pub fn events_of(alloc: Global, units: &Cursor<'_, Resolved>) -> Result<Vec<Event>, AllocError>
    ensures { IfOk result (λ found. found.items ≡ all_events units.now) }
{
    find_all(alloc, units, outside(), &Events)
}
