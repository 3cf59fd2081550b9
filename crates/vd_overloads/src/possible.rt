//! The states in which a name can have readings.

ghost use Rattle.std.specs.Prelude.{◌≡◌, IfOk};
ghost use Rattle.std.specs.List.{filter, list_any};
ghost use Rattle.vd_readings.specs.Readings.{readings_in};
ghost use Rattle.vd_visible.specs.Kinds.{kind_of as kind_of_form};
ghost use Rattle.vd_visible.specs.Sights.{sight_from};
ghost use Rattle.vd_ways.specs.Ways.{meets};
ghost use Rattle.vd_overloads.specs.Goals.{is_name_kind, is_possible as can_be_read, rules_of};

use crate::ends::ends_of_name;
use std::alloc::{AllocError, Global};
use vd_forest::Cursor;
use vd_forms::Form;
use vd_states::{Prefix, State, Want};
use vd_visible::Surroundings;
use vd_visible::kinds::{Kind, kind_of};
use vd_ways::ends_in;

/// Whether one of some ends is what is wanted.
fn is_met(at: &Surroundings<'_>, goal: &Want, ends: &[Prefix]) -> bool
    ensures { result ≡ list_any (meets (sight_from at.now) goal.now) ends.now }
{
    ends.iter().any(|end| {
        ends_in(
            at,
            &State::Suffixes {
                prefix: *end,
                goal: *goal,
            },
        )
    })
}

/// Whether a name with these ends can have readings in a state.
fn is_possible(at: &Surroundings<'_>, ends: &[Prefix], state: &State) -> bool
    ensures { result ≡ can_be_read (sight_from at.now) ends.now state.now }
{
    match state {
        State::Only(goal) => is_met(at, goal, ends),
        _ => true,
    }
}

/// Those of some states in which a name with these ends can have readings.
fn with_ends(
    alloc: Global,
    at: &Surroundings<'_>,
    ends: &[Prefix],
    states: &[State],
) -> Result<Vec<State>, AllocError>
    ensures { IfOk result (λ found. found.items ≡ filter (can_be_read (sight_from at.now) ends.now) states.now) }
{
    let mut found = Vec::new(alloc);
    for state in states {
        if is_possible(at, ends, state) {
            found.push(*state)?;
        }
    }
    Ok(found)
}

/// A name, and not the symbol of an operator as one.
fn is_name(form: Form) -> bool
    ensures { result ≡ is_name_kind (kind_of_form form) }
{
    matches!(kind_of(form), Kind::Name)
}

/// Those of some states in which an expression can have readings: of a name only those whose goal it comes to, of another expression all.
pub fn possible_states(
    alloc: Global,
    at: &Surroundings<'_>,
    tree: &Cursor<'_, Form>,
    states: Vec<State>,
) -> Result<Vec<State>, AllocError>
    ensures { IfOk result (λ found. readings_in (rules_of (sight_from at.now)) tree.now found.items ≡ readings_in (rules_of (sight_from at.now)) tree.now states.items) }
{
    if states.len() < 2 {
        return Ok(states);
    }
    let Some(first) = tree.open() else {
        return Ok(states);
    };
    if !is_name(first.form) {
        return Ok(states);
    }
    if first.next.open().is_some() {
        return Ok(states);
    }
    let ends = ends_of_name(alloc, at, &first.parts)?;
    let found = with_ends(alloc, at, &ends, &states)?;
    Ok(found)
}
