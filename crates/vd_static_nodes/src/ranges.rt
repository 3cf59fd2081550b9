//! Ranges: between two limits, within a subtype, and of constraints. (IEEE 1076, scalar types; discrete ranges; index constraints.)

ghost use Rattle.std.specs.List.{All};
ghost use Rattle.std.specs.Prelude.{◌≡◌, IfOk, List, true, ℕ};
ghost use Rattle.vd_composites.specs.Composites.{Value as AnyValue};
ghost use Rattle.vd_composites.specs.declared.ranges.Bounds.{Bounds as BoundsFound};
ghost use Rattle.vd_environments.specs.Environments.{Env, Static};
ghost use Rattle.vd_environments.specs.Got.{Got};
ghost use Rattle.vd_forest.specs.Forest.{Forest};
ghost use Rattle.vd_value_rules.specs.Indicated.{static_of};
ghost use Rattle.vd_value_rules.specs.declared.forms.IndicatedForm.{IndicatedForm};
ghost use Rattle.vd_meaning.specs.Facets.{Meaning, known_of as known_in, nth};
ghost use Rattle.vd_meaning.specs.Kinds.{Constraint, Limits, LimitsOfMark};
ghost use Rattle.vd_meaning.specs.Meanings.{limits as limits_between, limits_of_mark as limits_within};
ghost use Rattle.vd_static_values.specs.Entries.{IsFound};
ghost use Rattle.vd_static_values.specs.Names.{IsName, IsRanging};
ghost use Rattle.vd_static_values.specs.Nodes.{AreNodes, IsNode};
ghost use Rattle.vd_static_values.specs.declared.entries.Ground.{Ground as GroundOf};
ghost use Rattle.vd_static_names.specs.Known.{IsWithin};
ghost use Rattle.vd_static_parts.specs.Made.{IsMade, IsSound};
ghost use Rattle.vd_static_nodes.specs.Ranges.{position_at, position_found, ranging_so};
ghost use Rattle.vd_values.specs.declared.scalar.Scalar.{Scalar};

use crate::subtypes::{fits, name_bounds};
use std::alloc::{AllocError, Global};
use vd_composites::{Bounds, Value};
use vd_forest::Store;
use vd_resolved::Resolved;
use vd_static_names::values::unless_stopped;
use vd_static_parts::nodes::expression;
use vd_static_parts::parts::{first_known, first_range, known_of};
use vd_static_values::{Ground, KnownName, Node, Ranging, Sense, position};
use vd_value_rules::{IndicatedForm as Form, StaticSort};

// ---- limits

/// The position of a value that doesn't stop.
fn position_in(value: &Option<Value>) -> Result<Option<i64>, AllocError>
    ensures { (v : Got (AnyValue Scalar)) → IsFound value.now v → IfOk result (λ found. IsFound found (position_found v)) }
{
    match value {
        Some(value) => position(value),
        None => Ok(None),
    }
}

/// The position of the value of a part.
fn position_of(parts: &[Node<'_>], number: usize) -> Result<Option<i64>, AllocError>
    ensures { (subtypes : List (Forest IndicatedForm)) (e : Env) (ms : List Meaning) → AreNodes subtypes e parts.now ms → (known_in ms e).is_local ≡ true
        → IfOk result (λ found. IsFound found (position_at number ms e)) }
{
    match parts.get(number) {
        Some(part) => position_in(&part.sense.value),
        None => Ok(None),
    }
}

/// The range between the values of the parts.
fn between(parts: &[Node<'_>], down: bool) -> Result<Option<Bounds>, AllocError>
    ensures { (subtypes : List (Forest IndicatedForm)) (e : Env) (ms : List Meaning) → AreNodes subtypes e parts.now ms → (known_in ms e).is_local ≡ true
        → IfOk result (λ found. IsFound found (limits_between down (nth 0 ms) (nth 1 ms) e)) }
{
    let Some(left) = position_of(parts, 0)? else {
        return Ok(None);
    };
    let Some(right) = position_of(parts, 1)? else {
        return Ok(None);
    };
    Ok(Some(Bounds { left, right, down }))
}

/// A node that stands for a range, where that is locally static and doesn't stop.
fn ranging<'a>(
    alloc: Global,
    node: Resolved,
    text: &'a [u8],
    range: Option<Bounds>,
    known: StaticSort,
) -> Node<'a>
    ensures sound { (subtypes : List (Forest IndicatedForm)) → IsSound subtypes result }
    ensures node { (subtypes : List (Forest IndicatedForm)) (e : Env) (ms : List Meaning) (r : Env → Got BoundsFound) (kn : Env → Static) →
        static_of known ≡ kn e → ((kn e).is_local ≡ true → IsFound range (r e)) → IsNode subtypes e result (ranging_so node text.now ms r kn) }
{
    let known = unless_stopped(known, range.is_some());
    let Node { sense, piece } = expression(alloc, node, text, None, known);
    let sense = Sense {
        range: Ranging::Range(range),
        ..sense
    };
    Node { sense, piece }
}

/// A range with two limits.
pub fn limits<'a>(
    alloc: Global,
    node: Resolved,
    text: &'a [u8],
    parts: &[Node<'a>],
    down: bool,
) -> Result<Node<'a>, AllocError>
    ensures sound { (subtypes : List (Forest IndicatedForm)) → IfOk result (IsSound subtypes) }
    ensures node { (g : GroundOf) → IfOk result (IsMade (Limits down) g node text.now parts.now) }
{
    let known = known_of(parts);
    if !known.is_local {
        return Ok(ranging(alloc, node, text, None, known));
    }
    let range = between(parts, down)?;
    Ok(ranging(alloc, node, text, range, known))
}

// ---- ranges of marks

/// A range, where it fits within the subtype of a name.
fn within(subtypes: &Store<Form>, name: &KnownName, range: Ranging) -> Option<Bounds>
    requires { IsWithin subtypes.now name.now }
    ensures { (e : Env) (m l : Meaning) → IsName subtypes.now e name.now m.name → m.name.local_slices e ≡ true → IsRanging range l.range (l.known e) e
        → (l.known e).is_local ≡ true → IsFound result (limits_within m l e) }
{
    let Ranging::Range(range) = range else {
        return None;
    };
    let range = range?;
    if !name.has_subtype {
        return None;
    }
    if fits(subtypes, name.subtype, range) {
        Some(range)
    } else {
        None
    }
}

/// A range of a mark, within its subtype.
pub fn limits_of_mark<'a>(
    alloc: Global,
    ground: &Ground<'_>,
    node: Resolved,
    text: &'a [u8],
    parts: &[Node<'a>],
) -> Result<Node<'a>, AllocError>
    requires sound { All (IsSound ground.now.subtypes.now) parts.now }
    ensures sound { (subtypes : List (Forest IndicatedForm)) → IfOk result (IsSound subtypes) }
    ensures node { IfOk result (IsMade LimitsOfMark ground.now node text.now parts.now) }
{
    let [mark, limits, ..] = parts else {
        return Ok(ranging(alloc, node, text, None, StaticSort::never()));
    };
    let name = &mark.sense.name;
    let known = name_bounds(ground.subtypes, name).both(limits.sense.known);
    let range = within(ground.subtypes, name, limits.sense.range);
    Ok(ranging(alloc, node, text, range, known))
}

// ---- constraints

/// A constraint: the range of part 0.
pub fn constraint<'a>(
    alloc: Global,
    node: Resolved,
    text: &'a [u8],
    parts: &[Node<'a>],
) -> Result<Node<'a>, AllocError>
    ensures sound { (subtypes : List (Forest IndicatedForm)) → IfOk result (IsSound subtypes) }
    ensures node { (g : GroundOf) → IfOk result (IsMade Constraint g node text.now parts.now) }
{
    let Node { sense, piece } = expression(alloc, node, text, None, first_known(parts));
    let sense = Sense {
        range: first_range(parts),
        ..sense
    };
    Ok(Node { sense, piece })
}
