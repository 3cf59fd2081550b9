//! Names with an attribute. (IEEE 1076, predefined attributes.)

ghost use Rattle.std.specs.Prelude.{◌≡◌, ℕ, IfOk, Option, false, true};
ghost use Rattle.vd_composites.specs.declared.ranges.Bounds.{Bounds as Range};
ghost use Rattle.vd_composites.specs.declared.scalars.ScalarType.{ScalarType as TypeOfScalars};
ghost use Rattle.vd_environments.specs.Environments.{Env};
ghost use Rattle.vd_environments.specs.Got.{Got};
ghost use Rattle.vd_meaning.specs.Names.{BoundAt, EventOf, LengthOf, Named, OfType, RangeOf, attribute_named as attribute_meant, attributed as attributed_name, bound_value as value_of_bound, bounds_known as known_of_bounds, length_value as value_of_length, range_value as value_of_range};
ghost use Rattle.vd_static_parts.specs.Attributes.{bound_by, length_by, range_by};
ghost use Rattle.vd_static_values.specs.Entries.{IsFound, IsGround};
ghost use Rattle.vd_static_values.specs.Names.{IsName, type_attribute as attribute_of_type};
ghost use Rattle.vd_static_names.specs.Known.{HasSubtypes, IsWithin};

use crate::bounds::{bounds_known, scalar_type};
use crate::named::{NameAttribute, attribute_named};
use std::alloc::{AllocError, Global};
use vd_composites::{Bounds, ScalarType, Value};
use vd_declarations::TypeId;
use vd_operators::Side;
use vd_static_names::subtypes::scalar_of;
use vd_static_names::values::{fresh, no_name, range};
use vd_static_values::{
    Ground, KnownName, TypeAttribute, array_bound, array_length, range_of_array, scalar_bound,
};
use vd_value_rules::StaticSort;

// ---- by the bounds of an array

/// 'left, 'right, 'high or 'low.
fn side_of_array(
    alloc: Global,
    side: Side,
    bounds: Option<Bounds>,
    of_type: Option<ScalarType>,
) -> Result<Option<Value>, AllocError>
    ensures { (b : Got Range) (t : Got TypeOfScalars) → IsFound bounds b → IsFound of_type t → IfOk result (λ found. IsFound found (bound_by side b t)) }
{
    let Some(bounds) = bounds else {
        return Ok(None);
    };
    let Some(of_type) = of_type else {
        return Ok(None);
    };
    array_bound(alloc, side, bounds, of_type)
}

/// 'length.
fn length_of_array(alloc: Global, bounds: Option<Bounds>) -> Result<Option<Value>, AllocError>
    ensures { (b : Got Range) → IsFound bounds b → IfOk result (λ found. IsFound found (length_by b)) }
{
    match bounds {
        Some(bounds) => array_length(alloc, bounds),
        None => Ok(None),
    }
}

/// 'range or 'reverse_range.
fn range_in(backwards: bool, bounds: Option<Bounds>, of_type: Option<ScalarType>) -> Option<Bounds>
    ensures { (b : Got Range) (t : Got TypeOfScalars) → IsFound bounds b → IsFound of_type t → IsFound result (range_by backwards b t) }
{
    let bounds = bounds?;
    let of_type = of_type?;
    range_of_array(backwards, of_type, bounds)
}

// ---- of names with locally static bounds

/// 'left, 'right, 'high or 'low: of a scalar subtype its own bounds, of an array those of its index.
fn bound_value(
    alloc: Global,
    ground: &Ground<'_>,
    name: &KnownName,
    side: Side,
    index: Option<TypeId>,
) -> Result<Option<Value>, AllocError>
    requires subtypes { HasSubtypes ground.now }
    requires within { IsWithin ground.now.subtypes.now name.now }
    ensures { (e : Env) (p : Named) → IsGround ground.now e → IsName ground.now.subtypes.now e name.now p → (known_of_bounds p e).is_local ≡ true
        → IfOk result (λ found. IsFound found (value_of_bound side index p e)) }
{
    if !name.is_mark {
        return side_of_array(alloc, side, name.shape, scalar_type(ground, index));
    }
    if !name.has_subtype {
        return Ok(None);
    }
    match scalar_of(ground.subtypes, name.subtype) {
        Some(subtype) => scalar_bound(alloc, side, subtype),
        None => side_of_array(alloc, side, name.shape, scalar_type(ground, index)),
    }
}

/// A bound of a name.
fn bound(
    alloc: Global,
    ground: &Ground<'_>,
    name: &KnownName,
    side: Side,
    index: Option<TypeId>,
) -> Result<KnownName, AllocError>
    requires subtypes { HasSubtypes ground.now }
    requires within { IsWithin ground.now.subtypes.now name.now }
    ensures within { IfOk result (IsWithin ground.now.subtypes.now) }
    ensures named { (e : Env) (p : Named) → IsGround ground.now e → IsName ground.now.subtypes.now e name.now p
        → IfOk result (λ x. IsName ground.now.subtypes.now e x (attributed_name (BoundAt side) index p)) }
{
    let known = bounds_known(ground.subtypes, name);
    if !known.is_local {
        return Ok(fresh(None, known));
    }
    let value = bound_value(alloc, ground, name, side, index)?;
    Ok(fresh(value, known))
}

/// The length of a name.
fn length(
    alloc: Global,
    ground: &Ground<'_>,
    name: &KnownName,
    index: Option<TypeId>,
) -> Result<KnownName, AllocError>
    requires { IsWithin ground.now.subtypes.now name.now }
    ensures within { IfOk result (IsWithin ground.now.subtypes.now) }
    ensures named { (e : Env) (p : Named) → IsName ground.now.subtypes.now e name.now p
        → IfOk result (λ x. IsName ground.now.subtypes.now e x (attributed_name LengthOf index p)) }
{
    let known = bounds_known(ground.subtypes, name);
    if !known.is_local {
        return Ok(fresh(None, known));
    }
    let value = length_of_array(alloc, name.shape)?;
    Ok(fresh(value, known))
}

/// The range of a name with locally static bounds, or the range backwards.
fn range_value(
    ground: &Ground<'_>,
    name: &KnownName,
    backwards: bool,
    index: Option<TypeId>,
) -> Option<Bounds>
    requires subtypes { HasSubtypes ground.now }
    requires within { IsWithin ground.now.subtypes.now name.now }
    ensures { (e : Env) (p : Named) → IsGround ground.now e → IsName ground.now.subtypes.now e name.now p → (known_of_bounds p e).is_local ≡ true
        → IsFound result (value_of_range backwards index p e) }
{
    range_in(backwards, name.shape, scalar_type(ground, index))
}

/// The range of a name, or the range backwards.
fn directed_range(
    ground: &Ground<'_>,
    name: &KnownName,
    backwards: bool,
    index: Option<TypeId>,
) -> KnownName
    requires subtypes { HasSubtypes ground.now }
    requires within { IsWithin ground.now.subtypes.now name.now }
    ensures within { IsWithin ground.now.subtypes.now result }
    ensures named { (e : Env) (p : Named) → IsGround ground.now e → IsName ground.now.subtypes.now e name.now p
        → IsName ground.now.subtypes.now e result (attributed_name (RangeOf backwards) index p) }
{
    let known = bounds_known(ground.subtypes, name);
    if !known.is_local {
        return range(None, known);
    }
    range(range_value(ground, name, backwards, index), known)
}

/// The attribute 'range of a name.
pub fn range_of(ground: &Ground<'_>, name: &KnownName, index: Option<TypeId>) -> KnownName
    requires subtypes { HasSubtypes ground.now }
    requires within { IsWithin ground.now.subtypes.now name.now }
    ensures within { IsWithin ground.now.subtypes.now result }
    ensures named { (e : Env) (p : Named) → IsGround ground.now e → IsName ground.now.subtypes.now e name.now p
        → IsName ground.now.subtypes.now e result (attributed_name (RangeOf false) index p) }
{
    directed_range(ground, name, false, index)
}

/// A type with an attribute that has an argument.
fn of_type(ground: &Ground<'_>, name: KnownName, attribute: TypeAttribute) -> KnownName
    requires { IsWithin ground.now.subtypes.now name }
    ensures within { IsWithin ground.now.subtypes.now result }
    ensures named { (e : Env) (p : Named) (m : Option ℕ) → IsName ground.now.subtypes.now e name p
        → IsName ground.now.subtypes.now e result (attributed_name (OfType (attribute_of_type attribute)) m p) }
{
    let mut made = name;
    made.callee = Some(attribute);
    made.is_mark = true;
    made
}

/// A name with an attribute, which has this type.
pub fn attributed(
    alloc: Global,
    ground: &Ground<'_>,
    name: KnownName,
    attribute: &[u8],
    index: Option<TypeId>,
) -> Result<KnownName, AllocError>
    requires subtypes { HasSubtypes ground.now }
    requires within { IsWithin ground.now.subtypes.now name }
    ensures within { IfOk result (IsWithin ground.now.subtypes.now) }
    ensures named { (e : Env) (p : Named) → IsGround ground.now e → IsName ground.now.subtypes.now e name p
        → IfOk result (λ x. IsName ground.now.subtypes.now e x (attributed_name (attribute_meant attribute.now) index p)) }
{
    match attribute_named(attribute) {
        NameAttribute::BoundAt(side) => bound(alloc, ground, &name, side, index),
        NameAttribute::Length => length(alloc, ground, &name, index),
        NameAttribute::Range(backwards) => Ok(directed_range(ground, &name, backwards, index)),
        NameAttribute::Event => Ok(fresh(None, StaticSort::never())),
        NameAttribute::OfType(of) => Ok(of_type(ground, name, of)),
        NameAttribute::NoAttribute => Ok(no_name()),
    }
}
