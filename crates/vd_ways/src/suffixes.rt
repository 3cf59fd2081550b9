//! Ways of the suffixes of names, but attributes.

ghost use Rattle.std.specs.Prelude.{◌≡◌, ◌∷◌, [], IfOk, map, option_map};
ghost use Rattle.std.specs.List.{filter_map};
ghost use Rattle.std.specs.Option.{option_to_list};
ghost use Rattle.vd_states.specs.declared.states.State.TheVariants.{Leaf};
ghost use Rattle.vd_visible.specs.Sights.{sight_from, class_of, mark_of};
ghost use Rattle.vd_visible.specs.Kinds.{role_of as role_at};
ghost use Rattle.vd_visible.specs.Types.{type_meant, sources};
ghost use Rattle.vd_visible.specs.Lists.{elements_named};
ghost use Rattle.vd_ways.specs.Ways.{selection_name as name_selected, declaration_way, unit_selection_ways, field_way, field_way_of, selection_ways, call_ways, conversion_way as way_of_conversion, conversion_ways, named_argument_ways, element_way as way_of_element, slice_way as way_of_slice, indexed_ways, bracket_ways, qualified_ways, qualification_ways};

use crate::elements::position_of;
use crate::making::{chosen, one, placed, two, typed, where_true};
use crate::names::{declaration_way, symbol_name, value_after};
use crate::values::letter_name;
use std::alloc::{AllocError, Global};
use vd_declarations::{Class, DeclId, TypeId};
use vd_forest::Cursor;
use vd_forms::Form;
use vd_states::{Prefix, State, Want, Way};
use vd_visible::Surroundings;
use vd_visible::kinds::{Kind, kind_of};
use vd_visible::roles::{Role, role_of};
use vd_visible::types::declaration_of;

/// The name behind a point.
pub fn selection_name(
    alloc: Global,
    parts: &Cursor<'_, Form>,
) -> Result<Option<Vec<u8>>, AllocError>
    ensures { IfOk result (λ name. option_map (λ n. n.items) name ≡ name_selected parts.now) }
{
    let Some(first) = parts.open() else {
        return Ok(None);
    };
    match kind_of(first.form) {
        Kind::Identifier => {
            let name = Vec::from_slice(alloc, first.text)?;
            Ok(Some(name))
        }
        Kind::Letter => {
            let name = letter_name(alloc, first.text)?;
            Ok(Some(name))
        }
        Kind::Quoted => {
            let name = symbol_name(alloc, first.text)?;
            Ok(Some(name))
        }
        _ => Ok(None),
    }
}

/// The operand of a conversion that has a type.
fn conversion_way(id: DeclId, mark: TypeId, goal: &Want, from: TypeId) -> Way
    ensures { result ≡ way_of_conversion id mark goal.now from }
{
    chosen(
        id,
        mark,
        &State::Only(Want::Value(from)),
        &value_after(mark, goal),
    )
}

/// An index behind an array value.
fn element_way(index: TypeId, element: TypeId, signal: bool, goal: &Want) -> Way
    ensures { result ≡ way_of_element index element signal goal.now }
{
    let after = State::Suffixes {
        prefix: Prefix::Valued {
            mark: element,
            signal,
        },
        goal: *goal,
    };
    typed(element, &State::Only(Want::Value(index)), &after)
}

/// A discrete range behind an array value.
fn slice_way(index: TypeId, array: TypeId, signal: bool, goal: &Want) -> Way
    ensures { result ≡ way_of_slice index array signal goal.now }
{
    let after = State::Suffixes {
        prefix: Prefix::Valued {
            mark: array,
            signal,
        },
        goal: *goal,
    };
    typed(array, &State::Only(Want::DiscreteRange(index)), &after)
}

/// The ways of what a unit declares.
fn selected_ways(
    at: &Surroundings<'_>,
    alloc: Global,
    unit: DeclId,
    goal: &Want,
    name: &[u8],
) -> Result<Vec<Way>, AllocError>
    ensures { IfOk result (λ ways. ways.items ≡ filter_map (declaration_way (sight_from at.now) goal.now Leaf) ((sight_from at.now).selected unit name.now)) }
{
    let selected = at.selected(alloc, unit, name)?;
    selected
        .iter()
        .filter_map(|id| declaration_way(at, goal, &State::Leaf, *id))
        .collect(alloc)
}

/// The ways of a selection behind a name without a value.
fn unit_selection_ways(
    at: &Surroundings<'_>,
    alloc: Global,
    unit: DeclId,
    goal: &Want,
    name: &[u8],
) -> Result<Vec<Way>, AllocError>
    ensures { IfOk result (λ ways. ways.items ≡ unit_selection_ways (role_at (class_of (sight_from at.now) unit)) (sight_from at.now) unit goal.now name.now) }
{
    match role_of(at.class_of(unit)) {
        Role::Unit => selected_ways(at, alloc, unit, goal, name),
        _ => Ok(Vec::new(alloc)),
    }
}

/// An element of a record value.
fn field_way(
    at: &Surroundings<'_>,
    mark: TypeId,
    signal: bool,
    goal: &Want,
    element: DeclId,
) -> Option<Way>
    ensures { result ≡ field_way (sight_from at.now) mark signal goal.now element }
{
    let position = position_of(at, mark, element);
    let value = at.mark_of(element)?;
    let after = State::Suffixes {
        prefix: Prefix::Valued {
            mark: value,
            signal,
        },
        goal: *goal,
    };
    Some(placed(element, Some(value), position, &State::Leaf, &after))
}

/// The ways of a selection behind a record value.
fn field_selection_ways(
    at: &Surroundings<'_>,
    alloc: Global,
    mark: TypeId,
    signal: bool,
    goal: &Want,
    name: &[u8],
) -> Result<Vec<Way>, AllocError>
    ensures { IfOk result (λ ways. ways.items ≡ filter_map (field_way (sight_from at.now) mark signal goal.now) (elements_named (sight_from at.now) mark name.now)) }
{
    let elements = at.elements_named(alloc, mark, name)?;
    elements
        .iter()
        .filter_map(|element| field_way(at, mark, signal, goal, *element))
        .collect(alloc)
}

/// The ways of a selection.
pub fn selection_ways(
    at: &Surroundings<'_>,
    alloc: Global,
    prefix: &Prefix,
    goal: &Want,
    parts: &Cursor<'_, Form>,
) -> Result<Vec<Way>, AllocError>
    ensures { IfOk result (λ ways. ways.items ≡ selection_ways prefix.now (sight_from at.now) goal.now (name_selected parts.now)) }
{
    let Some(name) = selection_name(alloc, parts)? else {
        return Ok(Vec::new(alloc));
    };
    match prefix {
        Prefix::Named(unit) => unit_selection_ways(at, alloc, *unit, goal, &name),
        Prefix::Valued { mark, signal } => {
            field_selection_ways(at, alloc, *mark, *signal, goal, &name)
        }
        Prefix::Ranged(_) | Prefix::Attributed { .. } => Ok(Vec::new(alloc)),
    }
}

/// The ways of arguments behind a function.
fn call_ways(
    at: &Surroundings<'_>,
    alloc: Global,
    function: DeclId,
    goal: &Want,
    arguments: &Cursor<'_, Form>,
) -> Result<Vec<Way>, AllocError>
    ensures { IfOk result (λ ways. ways.items ≡ call_ways (mark_of (sight_from at.now) function) (sight_from at.now) function goal.now arguments.now) }
{
    let Some(mark) = at.mark_of(function) else {
        return Ok(Vec::new(alloc));
    };
    let fits = at.fits_call(function, arguments)?;
    let inside = State::Arguments { function, index: 0 };
    let way = chosen(function, mark, &inside, &value_after(mark, goal));
    where_true(alloc, fits, &way)
}

/// The ways of the operand behind a mark.
fn conversion_ways(
    at: &Surroundings<'_>,
    alloc: Global,
    id: DeclId,
    mark: TypeId,
    goal: &Want,
) -> Result<Vec<Way>, AllocError>
    ensures { IfOk result (λ ways. ways.items ≡ map (way_of_conversion id mark goal.now) (sources (sight_from at.now) mark)) }
{
    let sources = at.sources(alloc, mark)?;
    sources
        .iter()
        .map(|from| conversion_way(id, mark, goal, *from))
        .collect(alloc)
}

/// The ways of brackets behind a name without a value.
fn named_argument_ways_of(
    at: &Surroundings<'_>,
    alloc: Global,
    id: DeclId,
    goal: &Want,
    parts: &Cursor<'_, Form>,
) -> Result<Vec<Way>, AllocError>
    ensures { IfOk result (λ ways. ways.items ≡ named_argument_ways (role_at (class_of (sight_from at.now) id)) (sight_from at.now) id goal.now parts.now) }
{
    match role_of(at.class_of(id)) {
        Role::Function => call_ways(at, alloc, id, goal, parts),
        Role::Mark => match at.type_meant(id) {
            None => Ok(Vec::new(alloc)),
            Some(mark) => conversion_ways(at, alloc, id, mark, goal),
        },
        _ => Ok(Vec::new(alloc)),
    }
}

/// The ways of brackets behind an array value.
fn indexed_ways(
    at: &Surroundings<'_>,
    alloc: Global,
    mark: TypeId,
    signal: bool,
    goal: &Want,
) -> Result<Vec<Way>, AllocError>
    ensures { IfOk result (λ ways. ways.items ≡ indexed_ways (class_of (sight_from at.now) mark) mark signal goal.now) }
{
    let Class::ArrayType { index, element, .. } = at.class_of_type(mark) else {
        return Ok(Vec::new(alloc));
    };
    let one = element_way(index, element, signal, goal);
    let some = slice_way(index, mark, signal, goal);
    two(alloc, &one, &some)
}

/// The ways of a qualified expression.
fn qualified_ways(
    at: &Surroundings<'_>,
    alloc: Global,
    id: DeclId,
    goal: &Want,
    parts: &Cursor<'_, Form>,
) -> Result<Vec<Way>, AllocError>
    ensures { IfOk result (λ ways. ways.items ≡ qualified_ways (type_meant (sight_from at.now) id) (sight_from at.now) id goal.now parts.now) }
{
    let Some(mark) = at.type_meant(id) else {
        return Ok(Vec::new(alloc));
    };
    let elements = at.in_brackets(alloc, mark, parts)?;
    let inside = elements.state(mark);
    match &inside {
        None => Ok(Vec::new(alloc)),
        Some(inside) => one(alloc, &chosen(id, mark, inside, &value_after(mark, goal))),
    }
}

/// The ways of brackets behind a name.
pub fn bracket_ways(
    at: &Surroundings<'_>,
    alloc: Global,
    prefix: &Prefix,
    goal: &Want,
    parts: &Cursor<'_, Form>,
) -> Result<Vec<Way>, AllocError>
    ensures { IfOk result (λ ways. ways.items ≡ bracket_ways prefix.now (sight_from at.now) goal.now parts.now) }
{
    match prefix {
        Prefix::Named(id) => named_argument_ways_of(at, alloc, *id, goal, parts),
        Prefix::Valued { mark, signal } => indexed_ways(at, alloc, *mark, *signal, goal),
        Prefix::Ranged(_) => Ok(Vec::new(alloc)),
        Prefix::Attributed { argument, result } => {
            let inside = State::Only(Want::Value(*argument));
            let way = typed(*result, &inside, &value_after(*result, goal));
            one(alloc, &way)
        }
    }
}

/// The ways of a qualified expression behind a name.
pub fn qualification_ways(
    at: &Surroundings<'_>,
    alloc: Global,
    prefix: &Prefix,
    goal: &Want,
    parts: &Cursor<'_, Form>,
) -> Result<Vec<Way>, AllocError>
    ensures { IfOk result (λ ways. ways.items ≡ qualification_ways prefix.now (sight_from at.now) goal.now parts.now) }
{
    match prefix {
        Prefix::Named(id) => qualified_ways(at, alloc, *id, goal, parts),
        Prefix::Valued { .. } | Prefix::Ranged(_) | Prefix::Attributed { .. } => {
            Ok(Vec::new(alloc))
        }
    }
}
