//! Ways of the elements of lists in brackets, of what stands in their associations, and of the parts of physical literals.

ghost use Rattle.std.specs.Prelude.{◌≡◌, ◌+◌, ◌∷◌, [], ◌==◌, Some, None, IfOk, map, position, take, length, ◌<◌, ◌≤◌, IfSome};
ghost use Rattle.std.specs.List.{filter_map};
ghost use Rattle.std.specs.Option.{option_to_list, option_copied};
ghost use Rattle.vd_visible.specs.Kinds.{kind_of as kind_at};
ghost use Rattle.vd_states.specs.declared.states.State.TheVariants as state;
ghost use Rattle.vd_states.specs.declared.states.Want.TheVariants as want;
ghost use Rattle.vd_visible.specs.Lists.{only_one, names_in};
ghost use Rattle.vd_visible.specs.Sights.{sight_from, class_of, mark_of, parameters_of};
ghost use Rattle.vd_ways.specs.Ways.{number_ways as ways_of_number, unit_way, unit_ways, association_way, plain as plain_way, parameters_named, mark_at, value_ways_in, argument_ways, association_ways, formal_ways as ways_of_formal, element_ways, elements_ways, element_association_ways, positional_ways, field_ways, field_association_ways as ways_of_field_association, position_of, field_name_way, fields_named, field_name_ways};

use crate::making::{naming, one, placed, plain, typed};
use crate::values::value_ways;
use std::alloc::{AllocError, Global};
use vd_declarations::{Class, DeclId, TypeId};
use vd_forest::{Cursor, Opened};
use vd_forms::Form;
use vd_predefined::numbers::INTEGER;
use vd_states::{State, Want, Way};
use vd_visible::Surroundings;
use vd_visible::kinds::{Kind, kind_of};
use vd_visible::lists::{only_choice, simple_name};
use vd_visible::types::{declaration_of, element_of};

/// The ways of the number in front of a unit.
pub fn number_ways(alloc: Global, kind: Kind) -> Result<Vec<Way>, AllocError>
    ensures { IfOk result (λ ways. ways.items ≡ ways_of_number kind) }
{
    match kind {
        Kind::Number => {
            let way = typed(TypeId::of(INTEGER), &State::Done, &State::PhysicalUnit);
            one(alloc, &way)
        }
        _ => Ok(Vec::new(alloc)),
    }
}

/// The ways of the choice that names a parameter.
pub fn formal_ways(alloc: Global, kind: Kind, parameter: DeclId) -> Result<Vec<Way>, AllocError>
    ensures { IfOk result (λ ways. ways.items ≡ ways_of_formal kind parameter) }
{
    match kind {
        Kind::Name => one(alloc, &naming(parameter, &State::Leaf, &State::Done)),
        _ => Ok(Vec::new(alloc)),
    }
}

/// The ways of the choices in an association of a record aggregate.
pub fn field_association_ways(
    alloc: Global,
    kind: Kind,
    mark: TypeId,
    value: TypeId,
) -> Result<Vec<Way>, AllocError>
    ensures { IfOk result (λ ways. ways.items ≡ ways_of_field_association kind mark value) }
{
    match kind {
        Kind::AssociationChoices => {
            let behind = State::Only(Want::Value(value));
            one(alloc, &plain(&State::FieldNames { mark }, &behind))
        }
        _ => Ok(Vec::new(alloc)),
    }
}

/// The place behind one of a list.
fn next_index(index: u32) -> Result<u32, AllocError>
    ensures { IfOk result (λ next. next ≡ index + 1) }
{
    match index.checked_add(1) {
        None => Err(AllocError),
        Some(next) => Ok(next),
    }
}

/// A visible declaration as a unit of a physical literal.
fn unit_way(at: &Surroundings<'_>, id: DeclId) -> Option<Way>
    ensures { result ≡ unit_way (sight_from at.now) id }
{
    match at.class_of(id) {
        Class::PhysicalUnit => Some(naming(id, &State::Done, &State::Done)),
        _ => None,
    }
}

/// The ways of an identifier as a unit of a physical literal.
fn visible_units(at: &Surroundings<'_>, alloc: Global, text: &[u8]) -> Result<Vec<Way>, AllocError>
    ensures { IfOk result (λ ways. ways.items ≡ filter_map (unit_way (sight_from at.now)) ((sight_from at.now).visible text.now)) }
{
    let visible = at.visible(alloc, text)?;
    visible
        .iter()
        .filter_map(|id| unit_way(at, *id))
        .collect(alloc)
}

/// The ways of the unit of a physical literal.
pub fn unit_ways(
    at: &Surroundings<'_>,
    alloc: Global,
    kind: Kind,
    text: &[u8],
) -> Result<Vec<Way>, AllocError>
    ensures { IfOk result (λ ways. ways.items ≡ unit_ways kind (sight_from at.now) text.now) }
{
    match kind {
        Kind::Identifier => visible_units(at, alloc, text),
        _ => Ok(Vec::new(alloc)),
    }
}

/// The type of one of some declarations.
fn mark_at(at: &Surroundings<'_>, ids: &[DeclId], index: u32) -> Option<TypeId>
    ensures { result ≡ mark_at (sight_from at.now) ids.now index }
{
    match ids.get(index as usize) {
        None => None,
        Some(id) => at.mark_of(*id),
    }
}

/// The ways of a node that is wanted as a value of a type, where there is one.
fn value_ways_in(
    at: &Surroundings<'_>,
    alloc: Global,
    mark: Option<TypeId>,
    after: &State,
    node: &Opened<'_, Form>,
) -> Result<Vec<Way>, AllocError>
    ensures { IfOk result (λ ways. ways.items ≡ value_ways_in mark (kind_at node.now.form) (sight_from at.now) after.now node.now.form node.now.text.now node.now.parts) }
{
    match mark {
        None => Ok(Vec::new(alloc)),
        Some(mark) => value_ways(at, alloc, mark, after, node),
    }
}

/// The parameters of a name.
fn parameters_named(
    at: &Surroundings<'_>,
    alloc: Global,
    function: DeclId,
    name: Option<&[u8]>,
) -> Result<Vec<DeclId>, AllocError>
    ensures { IfOk result (λ found. found.items ≡ parameters_named (sight_from at.now) function (option_copied name.entry)) }
{
    let mut found = Vec::new(alloc);
    let Some(name) = name else {
        return Ok(found);
    };
    let parameters = at.parameters_of(function);
    for parameter in parameters {
        if at.name_of(*parameter) == name {
            found.push(*parameter)?;
        }
    }
    Ok(found)
}

/// The ways of an association of a call.
fn named_argument_ways(
    at: &Surroundings<'_>,
    alloc: Global,
    function: DeclId,
    behind: &State,
    association: &Cursor<'_, Form>,
) -> Result<Vec<Way>, AllocError>
    ensures { IfOk result (λ ways. ways.items ≡ map (association_way behind.now) (parameters_named (sight_from at.now) function (only_one (names_in association.now)))) }
{
    let parameters = parameters_named(at, alloc, function, only_choice(association))?;
    parameters
        .iter()
        .map(|parameter| association_way(*parameter, behind))
        .collect(alloc)
}

/// The ways of an operand or an argument.
pub fn argument_ways(
    at: &Surroundings<'_>,
    alloc: Global,
    function: DeclId,
    index: u32,
    node: &Opened<'_, Form>,
) -> Result<Vec<Way>, AllocError>
    ensures { IfOk result (λ ways. ways.items ≡ argument_ways (kind_at node.now.form) (sight_from at.now) function index node.now.form node.now.text.now node.now.parts) }
{
    let index_behind = next_index(index)?;
    let behind = State::Arguments {
        function,
        index: index_behind,
    };
    match kind_of(node.form) {
        Kind::Association => named_argument_ways(at, alloc, function, &behind, &node.parts),
        _ => {
            let mark = mark_at(at, at.parameters_of(function), index);
            value_ways_in(at, alloc, mark, &behind, node)
        }
    }
}

/// The ways of the choices in an association of a call.
pub fn association_ways(
    at: &Surroundings<'_>,
    alloc: Global,
    kind: Kind,
    parameter: DeclId,
) -> Result<Vec<Way>, AllocError>
    ensures { IfOk result (λ ways. ways.items ≡ association_ways kind (sight_from at.now) parameter) }
{
    match kind {
        Kind::AssociationChoices => match at.mark_of(parameter) {
            None => Ok(Vec::new(alloc)),
            Some(mark) => {
                let behind = State::Only(Want::Value(mark));
                one(alloc, &plain(&State::Formal { parameter }, &behind))
            }
        },
        _ => Ok(Vec::new(alloc)),
    }
}

/// The ways of an element of an array aggregate.
pub fn elements_ways(
    at: &Surroundings<'_>,
    alloc: Global,
    array: TypeId,
    node: &Opened<'_, Form>,
) -> Result<Vec<Way>, AllocError>
    ensures { IfOk result (λ ways. ways.items ≡ elements_ways (class_of (sight_from at.now) array) (kind_at node.now.form) (sight_from at.now) array node.now.form node.now.text.now node.now.parts) }
{
    let Some(element) = element_of(at.class_of_type(array)) else {
        return Ok(Vec::new(alloc));
    };
    let behind = State::Elements { array };
    match kind_of(node.form) {
        Kind::Association => { one(alloc, &plain(&State::ElementAssociation { array }, &behind)) }
        Kind::OthersAssociation => {
            let inside = State::Only(Want::Value(element));
            one(alloc, &plain(&inside, &behind))
        }
        _ => value_ways(at, alloc, element, &behind, node),
    }
}

/// The ways of the choices in an association of an array aggregate.
pub fn element_association_ways(
    at: &Surroundings<'_>,
    alloc: Global,
    kind: Kind,
    array: TypeId,
) -> Result<Vec<Way>, AllocError>
    ensures { IfOk result (λ ways. ways.items ≡ element_association_ways kind (sight_from at.now) array) }
{
    match kind {
        Kind::AssociationChoices => match at.class_of_type(array) {
            Class::ArrayType { index, element, .. } => {
                let inside = State::Each(Want::Choice(index));
                one(alloc, &plain(&inside, &State::Only(Want::Value(element))))
            }
            _ => Ok(Vec::new(alloc)),
        },
        _ => Ok(Vec::new(alloc)),
    }
}

/// The ways of a positional element of a record aggregate.
fn positional_ways(
    at: &Surroundings<'_>,
    alloc: Global,
    mark: TypeId,
    index: Option<u32>,
    others: Option<TypeId>,
    node: &Opened<'_, Form>,
) -> Result<Vec<Way>, AllocError>
    ensures { IfOk result (λ ways. ways.items ≡ positional_ways index (kind_at node.now.form) (sight_from at.now) mark others node.now.form node.now.text.now node.now.parts) }
{
    let Some(index) = index else {
        return Ok(Vec::new(alloc));
    };
    let index_behind = next_index(index)?;
    let behind = State::Fields {
        mark,
        index: Some(index_behind),
        others,
    };
    let element = mark_at(at, at.parameters_of(declaration_of(mark)), index);
    value_ways_in(at, alloc, element, &behind, node)
}

/// The ways of an element of a record aggregate.
pub fn field_ways(
    at: &Surroundings<'_>,
    alloc: Global,
    mark: TypeId,
    index: Option<u32>,
    others: Option<TypeId>,
    node: &Opened<'_, Form>,
) -> Result<Vec<Way>, AllocError>
    ensures { IfOk result (λ ways. ways.items ≡ field_ways (kind_at node.now.form) (sight_from at.now) mark index others node.now.form node.now.text.now node.now.parts) }
{
    match kind_of(node.form) {
        Kind::Association => {
            let value = at.choices_type(alloc, mark, &node.parts)?;
            named_field_ways(alloc, mark, value, others)
        }
        Kind::OthersAssociation => other_field_ways(alloc, mark, others),
        _ => positional_ways(at, alloc, mark, index, others, node),
    }
}

/// The place of an element among those of its record type.
pub fn position_of(at: &Surroundings<'_>, mark: TypeId, element: DeclId) -> u32
    ensures { result ≡ position_of (sight_from at.now) mark element }
{
    let elements = first_ones(at.parameters_of(declaration_of(mark)), 1 << 32);
    let Some(position) = position_among(elements, element) else {
        return 0;
    };
    position as u32
}

/// The element of a record that a choice names.
fn field_name_way(at: &Surroundings<'_>, mark: TypeId, element: DeclId) -> Way
    ensures { result ≡ field_name_way (sight_from at.now) mark element }
{
    let position = position_of(at, mark, element);
    placed(
        element,
        None,
        position,
        &State::Leaf,
        &State::FieldNames { mark },
    )
}

/// The elements of a record type that a choice names.
fn fields_named(
    at: &Surroundings<'_>,
    alloc: Global,
    mark: TypeId,
    name: Option<&[u8]>,
) -> Result<Vec<DeclId>, AllocError>
    ensures { IfOk result (λ found. found.items ≡ fields_named (sight_from at.now) mark (option_copied name.entry)) }
{
    match name {
        None => Ok(Vec::new(alloc)),
        Some(name) => at.elements_named(alloc, mark, name),
    }
}

/// The ways of a choice of a record aggregate.
pub fn field_name_ways(
    at: &Surroundings<'_>,
    alloc: Global,
    mark: TypeId,
    form: Form,
    parts: &Cursor<'_, Form>,
) -> Result<Vec<Way>, AllocError>
    ensures { IfOk result (λ ways. ways.items ≡ field_name_ways (sight_from at.now) mark form parts.now) }
{
    let elements = fields_named(at, alloc, mark, simple_name(form, parts))?;
    elements
        .iter()
        .map(|element| field_name_way(at, mark, *element))
        .collect(alloc)
}

/// The first ones, so many at most.
fn first_ones<'a>(ids: &'a [DeclId], most: usize) -> &'a [DeclId]
    ensures is { result.now ≡ take most ids.now }
    ensures few { length result.now ≤ most }
{
    if ids.len() <= most { ids } else { &ids[..most] }
}

/// The place of a declaration among some.
fn position_among(ids: &[DeclId], wanted: DeclId) -> Option<usize>
    ensures is { result ≡ position (λ j. j == wanted) ids.now }
    ensures within { IfSome result (λ i. i < length ids.now) }
{
    ids.iter().position(|id| id.number() == wanted.number())
}

/// An association of a call, with the name of a parameter.
fn association_way(parameter: DeclId, behind: &State) -> Way
    ensures { result ≡ association_way behind.now parameter }
{
    plain(&State::Association { parameter }, behind)
}

/// The ways of an association of a record aggregate whose choices name elements of a type.
fn named_field_ways(
    alloc: Global,
    mark: TypeId,
    value: Option<TypeId>,
    others: Option<TypeId>,
) -> Result<Vec<Way>, AllocError>
    ensures { IfOk result (λ ways. ways.items ≡ map (λ u. plain_way (state.FieldAssociation mark u) (state.Fields mark None others)) (option_to_list value)) }
{
    let Some(value) = value else {
        return Ok(Vec::new(alloc));
    };
    let behind = State::Fields {
        mark,
        index: None,
        others,
    };
    one(
        alloc,
        &plain(&State::FieldAssociation { mark, value }, &behind),
    )
}

/// The ways of the association for all other elements of a record aggregate.
fn other_field_ways(
    alloc: Global,
    mark: TypeId,
    others: Option<TypeId>,
) -> Result<Vec<Way>, AllocError>
    ensures { IfOk result (λ ways. ways.items ≡ map (λ u. plain_way (state.Only (want.Value u)) (state.Fields mark None others)) (option_to_list others)) }
{
    let Some(value) = others else {
        return Ok(Vec::new(alloc));
    };
    let behind = State::Fields {
        mark,
        index: None,
        others,
    };
    one(alloc, &plain(&State::Only(Want::Value(value)), &behind))
}
