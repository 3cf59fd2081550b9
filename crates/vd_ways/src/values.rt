//! Ways of nodes that are wanted as values, ranges, choices or marks.

ghost use Rattle.std.specs.Prelude.{◌≡◌, ◌∷◌, [], ℕ, IfOk, map};
ghost use Rattle.std.specs.List.{filter_map};
ghost use Rattle.std.specs.Option.{option_to_list};
ghost use Rattle.vd_visible.specs.declared.kinds.Kind.TheVariants.{Aggregate};
ghost use Rattle.vd_visible.specs.Kinds.{kind_of as kind_at};
ghost use Rattle.vd_visible.specs.Sights.{sight_from, class_of, mark_of};
ghost use Rattle.vd_visible.specs.Types.{is_some_type, position_in as place_in, letter_name as letter};
ghost use Rattle.vd_ways.specs.Ways.{letter_way, operator_way, value_ways, bounds_way as way_of_bounds, range_ways, discrete_range_ways, choice_ways, mark_ways as ways_of_mark, wanted_ways};

use crate::making::{chosen, one, placed, plain, typed, where_true};
use std::alloc::{AllocError, Global};
use vd_declarations::{Class, DeclId, TypeId};
use vd_forest::Opened;
use vd_forms::Form;
use vd_predefined::numbers::{INTEGER, TIME};
use vd_states::{State, Want, Way};
use vd_visible::Surroundings;
use vd_visible::kinds::{Kind, kind_of, symbol_of};
use vd_visible::roles::{Role, role_of};
use vd_visible::types::{is_discrete, is_scalar, is_type};

/// The position of a literal of a type.
pub fn position_in(mark: TypeId, literal: DeclId) -> u32
    ensures { result ≡ place_in mark literal }
{
    literal
        .number()
        .saturating_sub(mark.number())
        .saturating_sub(1)
}

/// The name of a character literal.
pub fn letter_name(alloc: Global, text: &[u8]) -> Result<Vec<u8>, AllocError>
    ensures { IfOk result (λ name. name.items ≡ letter text.now) }
{
    let mut name = Vec::new(alloc);
    name.push(b'\'')?;
    name.extend_from_slice(text)?;
    name.push(b'\'')?;
    Ok(name)
}

/// A range between two bounds.
pub fn bounds_way(mark: TypeId, after: &State) -> Way
    ensures { result ≡ way_of_bounds mark after.now }
{
    typed(mark, &State::Each(Want::Value(mark)), after)
}

/// The ways of a node that is wanted as a mark of a type.
pub fn mark_ways(
    alloc: Global,
    mark: TypeId,
    after: &State,
    node: &Opened<'_, Form>,
) -> Result<Vec<Way>, AllocError>
    ensures { IfOk result (λ ways. ways.items ≡ ways_of_mark (kind_at node.now.form) mark after.now) }
{
    match kind_of(node.form) {
        Kind::Name => {
            let goal = Want::Mark(mark);
            one(alloc, &plain(&State::Head { goal }, after))
        }
        _ => Ok(Vec::new(alloc)),
    }
}

/// A visible declaration as a character literal of a type.
fn letter_way(at: &Surroundings<'_>, mark: TypeId, after: &State, id: DeclId) -> Option<Way>
    ensures { result ≡ letter_way (sight_from at.now) mark after.now id }
{
    match at.class_of(id) {
        Class::EnumerationLiteral => {
            if !is_type(mark, at.mark_of(id)) {
                return None;
            }
            Some(placed(id, Some(mark), position_in(mark, id), &State::Done, after))
        }
        _ => None,
    }
}

/// The ways of a character literal.
fn letter_ways(
    at: &Surroundings<'_>,
    alloc: Global,
    mark: TypeId,
    after: &State,
    text: &[u8],
) -> Result<Vec<Way>, AllocError>
    ensures { IfOk result (λ ways. ways.items ≡ filter_map (letter_way (sight_from at.now) mark after.now) ((sight_from at.now).visible (letter text.now))) }
{
    let name = letter_name(alloc, text)?;
    let visible = at.visible(alloc, &name)?;
    visible
        .iter()
        .filter_map(|id| letter_way(at, mark, after, *id))
        .collect(alloc)
}

/// A visible declaration as an operator with a result.
fn operator_way(at: &Surroundings<'_>, mark: TypeId, after: &State, id: DeclId) -> Option<Way>
    ensures { result ≡ operator_way (sight_from at.now) mark after.now id }
{
    match role_of(at.class_of(id)) {
        Role::Function => {
            if !is_type(mark, at.mark_of(id)) {
                return None;
            }
            let inside = State::Arguments {
                function: id,
                index: 0,
            };
            Some(chosen(id, mark, &inside, after))
        }
        _ => None,
    }
}

/// The ways of an operator.
fn operator_ways(
    at: &Surroundings<'_>,
    alloc: Global,
    mark: TypeId,
    after: &State,
    symbol: &str,
) -> Result<Vec<Way>, AllocError>
    ensures { IfOk result (λ ways. ways.items ≡ filter_map (operator_way (sight_from at.now) mark after.now) ((sight_from at.now).visible symbol.now)) }
{
    let visible = at.visible(alloc, symbol.as_bytes())?;
    visible
        .iter()
        .filter_map(|id| operator_way(at, mark, after, *id))
        .collect(alloc)
}

/// The ways of an aggregate, or of brackets round an expression.
fn aggregate_ways(
    at: &Surroundings<'_>,
    alloc: Global,
    mark: TypeId,
    after: &State,
    node: &Opened<'_, Form>,
) -> Result<Vec<Way>, AllocError>
    ensures { IfOk result (λ ways. ways.items ≡ value_ways Aggregate (sight_from at.now) mark after.now node.now.form node.now.text.now node.now.parts) }
{
    let elements = at.in_brackets(alloc, mark, &node.parts)?;
    let inside = elements.state(mark);
    match &inside {
        None => Ok(Vec::new(alloc)),
        Some(inside) => one(alloc, &typed(mark, inside, after)),
    }
}

/// The ways of a node that is wanted as a value of a type.
pub fn value_ways(
    at: &Surroundings<'_>,
    alloc: Global,
    mark: TypeId,
    after: &State,
    node: &Opened<'_, Form>,
) -> Result<Vec<Way>, AllocError>
    ensures { IfOk result (λ ways. ways.items ≡ value_ways (kind_at node.now.form) (sight_from at.now) mark after.now node.now.form node.now.text.now node.now.parts) }
{
    match kind_of(node.form) {
        Kind::Number => {
            let way = typed(mark, &State::Done, after);
            where_true(alloc, mark.number() == INTEGER, &way)
        }
        Kind::PhysicalLiteral => {
            let way = typed(mark, &State::PhysicalValue, after);
            where_true(alloc, mark.number() == TIME, &way)
        }
        Kind::Letter => letter_ways(at, alloc, mark, after, node.text),
        Kind::Quoted | Kind::Bits => {
            let way = typed(mark, &State::Done, after);
            where_true(alloc, at.spells(mark, node.text), &way)
        }
        Kind::Aggregate => aggregate_ways(at, alloc, mark, after, node),
        Kind::Name | Kind::OperatorName => {
            let goal = Want::Value(mark);
            one(alloc, &typed(mark, &State::Head { goal }, after))
        }
        Kind::Operator => operator_ways(at, alloc, mark, after, symbol_of(node.form)),
        _ => Ok(Vec::new(alloc)),
    }
}
