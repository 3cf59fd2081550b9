//! All ways of a node in a state, and where a list of trees may end.

ghost use Rattle.std.specs.Prelude.{◌≡◌, IfOk};
ghost use Rattle.vd_visible.specs.Sights.{sight_from};
ghost use Rattle.vd_visible.specs.Types.{type_meant};
ghost use Rattle.vd_visible.specs.Kinds.{kind_of as kind_at};
ghost use Rattle.vd_ways.specs.Ways.{suffix_ways, listed_ways, ways, is_mark_of, meets, ends};

use crate::attributing::{attribute_ways, prefix_index, range_attribute_ways};
use crate::elements::{
    argument_ways, association_ways, element_association_ways, elements_ways,
    field_association_ways, field_name_ways, field_ways, formal_ways, number_ways, unit_ways,
};
use crate::making::{one, plain};
use crate::names::head_ways;
use crate::suffixes::{bracket_ways, qualification_ways, selection_ways};
use crate::values::mark_ways;
use crate::wanted::wanted_ways;
use std::alloc::{AllocError, Global};
use vd_declarations::{DeclId, TypeId};
use vd_forest::{Cursor, Opened};
use vd_forms::Form;
use vd_states::{Prefix, State, Want, Way};
use vd_visible::Surroundings;
use vd_visible::attributes::attribute_named;
use vd_visible::kinds::{Kind, kind_of};
use vd_visible::types::{is_discrete, is_type};

/// The ways of a suffix.
fn suffix_ways(
    at: &Surroundings<'_>,
    alloc: Global,
    prefix: &Prefix,
    goal: &Want,
    node: &Opened<'_, Form>,
) -> Result<Vec<Way>, AllocError>
    ensures { IfOk result (λ found. found.items ≡ suffix_ways (kind_at node.now.form) (sight_from at.now) prefix.now goal.now node.now.parts) }
{
    match kind_of(node.form) {
        Kind::Selection => selection_ways(at, alloc, prefix, goal, &node.parts),
        Kind::Arguments => bracket_ways(at, alloc, prefix, goal, &node.parts),
        Kind::Attribute => {
            let attribute = attribute_named(node.parts.text());
            attribute_ways(at, alloc, prefix, attribute, goal)
        }
        Kind::RangeAttribute => {
            let index = prefix_index(at, prefix);
            range_attribute_ways(alloc, index, &State::Done, goal)
        }
        Kind::Qualification => qualification_ways(at, alloc, prefix, goal, &node.parts),
        _ => Ok(Vec::new(alloc)),
    }
}

/// The ways of an element of a list in brackets, and of what stands in its associations.
fn listed_ways(
    at: &Surroundings<'_>,
    alloc: Global,
    state: &State,
    node: &Opened<'_, Form>,
) -> Result<Vec<Way>, AllocError>
    ensures { IfOk result (λ found. found.items ≡ listed_ways (sight_from at.now) state.now node.now.form node.now.text.now node.now.parts) }
{
    let kind = kind_of(node.form);
    match state {
        State::Arguments { function, index } => {
            argument_ways(at, alloc, *function, *index, node)
        }
        State::Association { parameter } => association_ways(at, alloc, kind, *parameter),
        State::Formal { parameter } => formal_ways(alloc, kind, *parameter),
        State::Elements { array } => elements_ways(at, alloc, *array, node),
        State::ElementAssociation { array } => { element_association_ways(at, alloc, kind, *array) }
        State::Fields {
            mark,
            index,
            others,
        } => field_ways(at, alloc, *mark, *index, *others, node),
        State::FieldAssociation { mark, value } => {
            field_association_ways(alloc, kind, *mark, *value)
        }
        State::FieldNames { mark } => { field_name_ways(at, alloc, *mark, node.form, &node.parts) }
        _ => Ok(Vec::new(alloc)),
    }
}

/// All ways of a node in a state.
pub fn ways_in(
    at: &Surroundings<'_>,
    alloc: Global,
    state: &State,
    node: &Opened<'_, Form>,
) -> Result<Vec<Way>, AllocError>
    ensures { IfOk result (λ found. found.items ≡ ways (sight_from at.now) state.now node.now.form node.now.text.now node.now.parts) }
{
    let kind = kind_of(node.form);
    match state {
        State::Done => Ok(Vec::new(alloc)),
        State::Leaf => one(alloc, &plain(&State::Done, &State::Done)),
        State::Only(want) => wanted_ways(at, alloc, want, &State::Done, node),
        State::Each(want) => wanted_ways(at, alloc, want, state, node),
        State::ConstrainedMark(mark) => {
            mark_ways(alloc, *mark, &State::Only(Want::Range(*mark)), node)
        }
        State::PhysicalValue => number_ways(alloc, kind),
        State::PhysicalUnit => unit_ways(at, alloc, kind, node.text),
        State::Head { goal } => head_ways(at, alloc, kind, goal, node.text),
        State::Suffixes { prefix, goal } => suffix_ways(at, alloc, prefix, goal, node),
        _ => listed_ways(at, alloc, state, node),
    }
}

/// Whether a mark means a type or a subtype of it.
fn is_mark_of(at: &Surroundings<'_>, mark: TypeId, id: DeclId) -> bool
    ensures { result ≡ is_mark_of (sight_from at.now) mark id }
{
    is_type(mark, at.type_meant(id))
}

/// Whether a name is as it is wanted.
fn meets(at: &Surroundings<'_>, goal: &Want, prefix: &Prefix) -> bool
    ensures { result ≡ meets (sight_from at.now) goal.now prefix.now }
{
    match (goal, prefix) {
        (Want::Value(mark) | Want::Choice(mark), Prefix::Valued { mark: found, .. }) => {
            mark.number() == found.number()
        }
        (
            Want::Range(mark) | Want::DiscreteRange(mark) | Want::Choice(mark),
            Prefix::Ranged(found),
        ) => mark.number() == found.number(),
        (Want::DiscreteRange(mark) | Want::Choice(mark), Prefix::Named(id)) => {
            is_discrete(at.class_of_type(*mark)) && is_mark_of(at, *mark, *id)
        }
        (Want::Mark(mark), Prefix::Named(id)) => is_mark_of(at, *mark, *id),
        _ => false,
    }
}

/// Whether a list of trees may end in a state.
pub fn ends_in(at: &Surroundings<'_>, state: &State) -> bool
    ensures { result ≡ ends (sight_from at.now) state.now }
{
    match state {
        State::Done
        | State::Each(_)
        | State::Elements { .. }
        | State::Fields { .. }
        | State::FieldNames { .. } => true,
        State::Arguments { function, index } => {
            *index as usize == at.parameters_of(*function).len()
        }
        State::Suffixes { prefix, goal } => meets(at, goal, prefix),
        _ => false,
    }
}
