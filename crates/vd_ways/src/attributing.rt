//! Ways of attributes.

ghost use Rattle.std.specs.Prelude.{◌≡◌, ◌∷◌, [], IfOk};
ghost use Rattle.vd_visible.specs.Sights.{sight_from};
ghost use Rattle.vd_visible.specs.Types.{type_meant};
ghost use Rattle.vd_ways.specs.Ways.{range_attribute_ways as ways_of_range, attribute_of_type as ways_of_value, array_attribute_ways as ways_of_array, attributed as ways_with_argument, scalar_attribute_ways as ways_of_scalar, mark_attribute_ways, value_attribute_ways, attribute_ways, prefix_index};

use crate::making::{one, plain, typed, where_true};
use crate::names::value_after;
use std::alloc::{AllocError, Global};
use vd_declarations::TypeId;
use vd_predefined::numbers::{BOOLEAN, INTEGER, STRING, TIME};
use vd_states::{Prefix, State, Want, Way};
use vd_visible::Surroundings;
use vd_visible::attributes::Attribute;
use vd_visible::types::{index_of, is_scalar};

/// An attribute that is a range of the indexes of an array.
pub fn range_attribute_ways(
    alloc: Global,
    index: Option<TypeId>,
    inside: &State,
    goal: &Want,
) -> Result<Vec<Way>, AllocError>
    ensures { IfOk result (λ ways. ways.items ≡ ways_of_range index inside.now goal.now) }
{
    let Some(index) = index else {
        return Ok(Vec::new(alloc));
    };
    let after = State::Suffixes {
        prefix: Prefix::Ranged(index),
        goal: *goal,
    };
    one(alloc, &typed(index, inside, &after))
}

/// An attribute that has a value of a type.
fn attribute_of_type(alloc: Global, mark: TypeId, goal: &Want) -> Result<Vec<Way>, AllocError>
    ensures { IfOk result (λ ways. ways.items ≡ ways_of_value mark goal.now) }
{
    one(alloc, &typed(mark, &State::Leaf, &value_after(mark, goal)))
}

/// An attribute that takes an argument.
fn attributed(
    alloc: Global,
    argument: TypeId,
    result_mark: TypeId,
    goal: &Want,
) -> Result<Vec<Way>, AllocError>
    ensures { IfOk result (λ ways. ways.items ≡ ways_with_argument argument result_mark goal.now) }
{
    let after = State::Suffixes {
        prefix: Prefix::Attributed {
            argument,
            result: result_mark,
        },
        goal: *goal,
    };
    one(alloc, &plain(&State::Leaf, &after))
}

/// The ways of an attribute of an array.
fn array_attribute_ways(
    alloc: Global,
    attribute: Attribute,
    index: Option<TypeId>,
    goal: &Want,
) -> Result<Vec<Way>, AllocError>
    ensures { IfOk result (λ ways. ways.items ≡ ways_of_array attribute index goal.now) }
{
    let Some(index) = index else {
        return Ok(Vec::new(alloc));
    };
    match attribute {
        Attribute::Bound => attribute_of_type(alloc, index, goal),
        Attribute::Length => attribute_of_type(alloc, TypeId::of(INTEGER), goal),
        Attribute::ReverseRange => range_attribute_ways(alloc, Some(index), &State::Leaf, goal),
        _ => Ok(Vec::new(alloc)),
    }
}

/// The ways of an attribute of a scalar type.
fn scalar_attribute_ways(
    alloc: Global,
    attribute: Attribute,
    mark: TypeId,
    goal: &Want,
) -> Result<Vec<Way>, AllocError>
    ensures { IfOk result (λ ways. ways.items ≡ ways_of_scalar attribute mark goal.now) }
{
    let integer = TypeId::of(INTEGER);
    match attribute {
        Attribute::Bound => attribute_of_type(alloc, mark, goal),
        Attribute::Position => attributed(alloc, mark, integer, goal),
        Attribute::ValueAt => attributed(alloc, integer, mark, goal),
        Attribute::Neighbour => attributed(alloc, mark, mark, goal),
        Attribute::Image => {
            if mark.number() == TIME {
                Ok(Vec::new(alloc))
            } else {
                attributed(alloc, mark, TypeId::of(STRING), goal)
            }
        }
        _ => Ok(Vec::new(alloc)),
    }
}

/// The ways of an attribute of a type.
fn mark_attribute_ways(
    at: &Surroundings<'_>,
    alloc: Global,
    mark: Option<TypeId>,
    attribute: Attribute,
    goal: &Want,
) -> Result<Vec<Way>, AllocError>
    ensures { IfOk result (λ ways. ways.items ≡ mark_attribute_ways mark attribute (sight_from at.now) goal.now) }
{
    let Some(mark) = mark else {
        return Ok(Vec::new(alloc));
    };
    if is_scalar(at.class_of_type(mark)) {
        scalar_attribute_ways(alloc, attribute, mark, goal)
    } else {
        let index = index_of(at.class_of_type(mark));
        array_attribute_ways(alloc, attribute, index, goal)
    }
}

/// The ways of an attribute of a value.
fn value_attribute_ways(
    at: &Surroundings<'_>,
    alloc: Global,
    attribute: Attribute,
    mark: TypeId,
    signal: bool,
    goal: &Want,
) -> Result<Vec<Way>, AllocError>
    ensures { IfOk result (λ ways. ways.items ≡ value_attribute_ways attribute (sight_from at.now) mark signal goal.now) }
{
    match attribute {
        Attribute::Event => {
            let boolean = TypeId::of(BOOLEAN);
            let way = typed(boolean, &State::Leaf, &value_after(boolean, goal));
            where_true(alloc, signal, &way)
        }
        _ => {
            let index = index_of(at.class_of_type(mark));
            array_attribute_ways(alloc, attribute, index, goal)
        }
    }
}

/// The ways of an attribute.
pub fn attribute_ways(
    at: &Surroundings<'_>,
    alloc: Global,
    prefix: &Prefix,
    attribute: Attribute,
    goal: &Want,
) -> Result<Vec<Way>, AllocError>
    ensures { IfOk result (λ ways. ways.items ≡ attribute_ways prefix.now attribute (sight_from at.now) goal.now) }
{
    match prefix {
        Prefix::Named(id) => {
            let mark = at.type_meant(*id);
            mark_attribute_ways(at, alloc, mark, attribute, goal)
        }
        Prefix::Valued { mark, signal } => {
            value_attribute_ways(at, alloc, attribute, *mark, *signal, goal)
        }
        Prefix::Ranged(_) | Prefix::Attributed { .. } => Ok(Vec::new(alloc)),
    }
}

/// The type of the indexes of what is an array so far.
pub fn prefix_index(at: &Surroundings<'_>, prefix: &Prefix) -> Option<TypeId>
    ensures { result ≡ prefix_index prefix.now (sight_from at.now) }
{
    match prefix {
        Prefix::Named(id) => match at.type_meant(*id) {
            None => None,
            Some(mark) => index_of(at.class_of_type(mark)),
        },
        Prefix::Valued { mark, .. } => index_of(at.class_of_type(*mark)),
        Prefix::Ranged(_) | Prefix::Attributed { .. } => None,
    }
}
