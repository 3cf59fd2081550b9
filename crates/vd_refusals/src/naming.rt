//! What names and attributes are refused for.

ghost use Rattle.std.specs.Prelude.{◌≡◌, IfOk};
ghost use Rattle.vd_visible.specs.Kinds.{kind_of as kind_at};
ghost use Rattle.vd_visible.specs.Sights.{sight_from, class_of};
ghost use Rattle.vd_refusals.specs.Seen.{scalar_has as has_scalar, array_has as has_array, value_has, is_some_attribute as some_attribute, can_have};
ghost use Rattle.vd_refusals.specs.Refusals.{refuses_mark as mark_refused, refuses_value as value_refused, refuses_others as others_refused, broken_by as rule_broken, refused_at as refusal_at, choice_need, need_at as need_of_place, refused_name, refused_expression, first_place_or as place_or, refused_unless as unless, refused_piece, is_unit as unit_class, refused_unit_among, refused_node};

use crate::pieces::name_seen;
use crate::seen::Seen;
use crate::spots::{Need, Spot};
use std::alloc::{AllocError, Global};
use vd_bytes::{Place, Refused};
use vd_declarations::{Class, DeclId, TypeId};
use vd_forest::{Cursor, Opened};
use vd_forms::Form;
use vd_predefined::numbers::TIME;
use vd_visible::Surroundings;
use vd_visible::attributes::{Attribute, attribute_named};
use vd_visible::kinds::{Kind, kind_of};
use vd_visible::lists::simple_name;
use vd_visible::types::{element_of, is_scalar};

/// The rule that a mark breaks.
fn refuses_mark(need: Need) -> Option<u16>
    ensures { result ≡ mark_refused need }
{
    match need {
        Need::Value | Need::Range => Some(307),
        _ => None,
    }
}

/// The rule that a value breaks.
fn refuses_value(need: Need) -> Option<u16>
    ensures { result ≡ value_refused need }
{
    match need {
        Need::Value | Need::Choice => None,
        _ => Some(307),
    }
}

/// The rule that anything else breaks.
fn refuses_others(need: Need) -> Option<u16>
    ensures { result ≡ others_refused need }
{
    match need {
        Need::Mark => Some(307),
        _ => None,
    }
}

/// The rule that the whole of a name breaks.
fn broken_by(seen: &Seen, need: Need) -> Option<u16>
    ensures { result ≡ rule_broken seen.now need }
{
    match seen {
        Seen::Unit(_) => Some(307),
        Seen::Mark(_) => refuses_mark(need),
        Seen::Valued { .. } => refuses_value(need),
        Seen::Ranged | Seen::Awaiting | Seen::Unknown => refuses_others(need),
        Seen::Broken(rule) => Some(*rule),
    }
}

/// A rule that is broken at a place.
fn refused_at(place: Place, rule: Option<u16>) -> Option<Refused>
    ensures { result ≡ refusal_at place rule }
{
    match rule {
        None => None,
        Some(rule) => Some(Refused { place, rule }),
    }
}

/// What is needed of a node, where it can be a name.
pub fn need_at(spot: &Spot, form: Form, parts: &Cursor<'_, Form>) -> Option<Need>
    ensures { result ≡ need_of_place spot.now form parts.now }
{
    match spot {
        Spot::Only(need) | Spot::Each(need) | Spot::Listed(need) => Some(*need),
        Spot::ConstrainedMark => Some(Need::Mark),
        Spot::Choices => match simple_name(form, parts) {
            None => Some(Need::Choice),
            Some(_) => None,
        },
        Spot::Skipped
        | Spot::Association
        | Spot::PhysicalValue
        | Spot::Unit
        | Spot::Head
        | Spot::Pieces(_) => None,
    }
}

/// What a name is refused for.
fn refused_name(
    at: &Surroundings<'_>,
    alloc: Global,
    need: Option<Need>,
    place: Place,
    parts: &Cursor<'_, Form>,
) -> Result<Option<Refused>, AllocError>
    ensures { IfOk result (λ refused. refused ≡ refused_name need (sight_from at.now) place parts.now) }
{
    let Some(need) = need else {
        return Ok(None);
    };
    let seen = name_seen(at, alloc, parts)?;
    Ok(refused_at(place, broken_by(&seen, need)))
}

/// What an expression is refused for.
fn refused_expression(
    at: &Surroundings<'_>,
    alloc: Global,
    need: Option<Need>,
    node: &Opened<'_, Form>,
) -> Result<Option<Refused>, AllocError>
    ensures { IfOk result (λ refused. refused ≡ refused_expression (kind_at node.now.form) need (sight_from at.now) node.now.place node.now.parts) }
{
    match kind_of(node.form) {
        Kind::Name | Kind::OperatorName => refused_name(at, alloc, need, node.place, &node.parts),
        _ => Ok(None),
    }
}

/// Whether a scalar type has an attribute.
fn scalar_has(attribute: Attribute, mark: TypeId) -> bool
    ensures { result ≡ has_scalar attribute mark }
{
    match attribute {
        Attribute::Bound | Attribute::Position | Attribute::ValueAt | Attribute::Neighbour => true,
        Attribute::Image => mark.number() != TIME,
        _ => false,
    }
}

/// Whether an array has an attribute.
fn array_has(attribute: Attribute, element: Option<TypeId>) -> bool
    ensures { result ≡ has_array attribute element }
{
    if element.is_none() {
        return false;
    }
    matches!(
        attribute,
        Attribute::Bound | Attribute::Length | Attribute::ReverseRange
    )
}

/// Whether a value has an attribute.
fn value_has(at: &Surroundings<'_>, attribute: Attribute, mark: TypeId, signal: bool) -> bool
    ensures { result ≡ value_has attribute (sight_from at.now) mark signal }
{
    match attribute {
        Attribute::Event => signal,
        _ => array_has(attribute, element_of(at.class_of_type(mark))),
    }
}

/// Whether it is an attribute at all.
fn is_some_attribute(attribute: Attribute) -> bool
    ensures { result ≡ some_attribute attribute }
{
    !matches!(attribute, Attribute::Other)
}

/// Whether what is seen can have an attribute.
fn can_have(at: &Surroundings<'_>, seen: &Seen, attribute: Attribute) -> bool
    ensures { result ≡ can_have seen.now (sight_from at.now) attribute }
{
    match seen {
        Seen::Unit(_) | Seen::Ranged => false,
        Seen::Mark(mark) => {
            if is_scalar(at.class_of_type(*mark)) {
                scalar_has(attribute, *mark)
            } else {
                array_has(attribute, element_of(at.class_of_type(*mark)))
            }
        }
        Seen::Valued { mark, signal } => value_has(at, attribute, *mark, *signal),
        Seen::Awaiting | Seen::Unknown => is_some_attribute(attribute),
        Seen::Broken(_) => true,
    }
}

/// The one place, or else the other.
fn first_place_or(first: Option<Place>, place: Place) -> Place
    ensures { result ≡ place_or first place }
{
    match first {
        None => place,
        Some(other) => other,
    }
}

/// What can't stand at a place.
fn refused_unless(stands: bool, place: Place) -> Option<Refused>
    ensures { result ≡ unless stands place }
{
    if stands {
        None
    } else {
        Some(Refused { place, rule: 307 })
    }
}

/// What a suffix is refused for.
fn refused_piece(at: &Surroundings<'_>, seen: &Seen, node: &Opened<'_, Form>) -> Option<Refused>
    ensures { result ≡ refused_piece (kind_at node.now.form) seen.now (sight_from at.now) node.now.place node.now.parts }
{
    match kind_of(node.form) {
        Kind::Attribute => {
            let attribute = attribute_named(node.parts.text());
            let place = first_place_or(node.parts.place(), node.place);
            refused_unless(can_have(at, seen, attribute), place)
        }
        Kind::RangeAttribute => {
            let stands = can_have(at, seen, Attribute::ReverseRange);
            refused_unless(stands, node.place)
        }
        _ => None,
    }
}

/// What a unit of TIME is refused for.
fn refused_unit_among(at: &Surroundings<'_>, ids: &[DeclId], place: Place) -> Option<Refused>
    ensures { result ≡ refused_unit_among ids.now (sight_from at.now) place }
{
    match ids.first() {
        None => Some(Refused { place, rule: 303 }),
        Some(id) => refused_unless(is_unit(at.class_of(*id)), place),
    }
}

/// Whether it is a unit of TIME.
fn is_unit(class: Class) -> bool
    ensures { result ≡ unit_class class }
{
    matches!(class, Class::PhysicalUnit)
}

/// What a node is refused for.
pub fn refused_node(
    at: &Surroundings<'_>,
    alloc: Global,
    spot: &Spot,
    node: &Opened<'_, Form>,
) -> Result<Option<Refused>, AllocError>
    ensures { IfOk result (λ refused. refused ≡ refused_node spot.now (sight_from at.now) node.now.form node.now.text.now node.now.place node.now.parts) }
{
    match spot {
        Spot::Pieces(seen) => Ok(refused_piece(at, seen, node)),
        Spot::Unit => {
            let visible = at.visible(alloc, node.text)?;
            Ok(refused_unit_among(at, &visible, node.place))
        }
        _ => refused_expression(at, alloc, need_at(spot, node.form, &node.parts), node),
    }
}
