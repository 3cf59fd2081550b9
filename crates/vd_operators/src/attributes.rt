//! Attributes of arrays, of scalar subtypes and of discrete types.

ghost use Rattle.std.specs.Prelude.{◌≡◌, ◌^◌, pos, negsuc, ◌≤ℤ◌};
ghost use Rattle.vd_composites.specs.Answers.{Answers, Found};
ghost use Rattle.vd_composites.specs.Scalars.{position_of, value_at};
ghost use Rattle.vd_integers.specs.Integers.{integer_of};
ghost use Rattle.vd_operators.specs.Arithmetic.{integer_value};
ghost use Rattle.vd_operators.specs.Attributes.{array_bound as bound_value, array_length as length_value, array_range as range_value, discrete as discrete_value, scalar_value, side_of, subtype_bound as subtype_value};

use crate::arithmetic::{as_integer, integer_answer};
use std::alloc::Global;
use vd_composites::{Bounds, ScalarSubtype, ScalarType, Value, ValueEnd};
use vd_values::{Scalar, StopKind};

/// A bound of a range.
#[derive(Clone, Copy, PartialEq, Eq, Debug)]
pub enum Side {
    LeftSide,
    RightSide,
    HighSide,
    LowSide,
}

/// An attribute of a discrete type, or of TIME, with one argument.
#[derive(Clone, Copy, PartialEq, Eq, Debug)]
pub enum DiscreteAttribute {
    /// 'pos.
    Position,
    /// 'val.
    ValueAt(ScalarType),
    /// 'succ.
    Successor(ScalarType),
    /// 'pred.
    Predecessor(ScalarType),
}

/// The bound on a side.
fn side_bound(side: Side, bounds: Bounds) -> i64
    ensures { result ≡ side_of side bounds }
{
    match side {
        Side::LeftSide => bounds.left,
        Side::RightSide => bounds.right,
        Side::HighSide => bounds.left.max(bounds.right),
        Side::LowSide => bounds.left.min(bounds.right),
    }
}

/// The value at a position of a type.
fn scalar_at(of: ScalarType, position: i128) -> Result<Scalar, StopKind>
    ensures { result ≡ value_at of position }
{
    match of {
        ScalarType::Integers => match i32::try_from(position) {
            Ok(x) if x != i32::MIN => Ok(Scalar::Integer(x)),
            _ => Err(StopKind::Range),
        },
        ScalarType::Enumeration(count) => match u32::try_from(position) {
            Ok(n) if n < count => Ok(Scalar::Literal(n)),
            _ => Err(StopKind::Range),
        },
        ScalarType::Times => match i64::try_from(position) {
            Ok(t) if t >= 0 => Ok(Scalar::Time(t as u64)),
            _ => Err(StopKind::Range),
        },
    }
}

/// What came to a scalar value.
fn scalar_answer(alloc: Global, found: Result<Scalar, StopKind>) -> Result<Value, ValueEnd>
    ensures { Answers result (scalar_value found) }
{
    match found {
        Err(kind) => Err(ValueEnd::Stop(kind)),
        Ok(scalar) => match Value::scalar(alloc, scalar) {
            Ok(value) => Ok(value),
            Err(_) => Err(ValueEnd::Memory),
        },
    }
}

/// 'left, 'right, 'high or 'low of an array whose index is of this type.
pub fn array_bound(
    alloc: Global,
    side: Side,
    index: ScalarType,
    value: &Value,
) -> Result<Value, ValueEnd>
    ensures { Answers result (bound_value side index value.now) }
{
    match value.bounds() {
        None => Err(ValueEnd::Stop(StopKind::Range)),
        Some(bounds) => scalar_answer(
            alloc,
            scalar_at(index, i128::from(side_bound(side, bounds))),
        ),
    }
}

/// 'length of an array.
pub fn array_length(alloc: Global, value: &Value) -> Result<Value, ValueEnd>
    ensures { Answers result (length_value value.now) }
{
    let Some(bounds) = value.bounds() else {
        return Err(ValueEnd::Stop(StopKind::Range));
    };
    let found = match i32::try_from(bounds.length()) {
        Ok(length) => Ok(length),
        Err(_) => Err(StopKind::Overflow),
    };
    integer_answer(alloc, found)
}

/// 'range of an array whose index is of this type, and 'reverse_range where it is asked for backwards. A range is no value: layers above
/// count through it or make a subtype of it.
pub fn array_range(backwards: bool, index: ScalarType, value: &Value) -> Result<Bounds, StopKind>
    ensures { result ≡ range_value backwards index value.now }
{
    let Some(bounds) = value.bounds() else {
        return Err(StopKind::Range);
    };
    let left = scalar_at(index, i128::from(bounds.left));
    let right = scalar_at(index, i128::from(bounds.right));
    match (left, right) {
        (Ok(_), Ok(_)) => {
            if backwards {
                Ok(Bounds {
                    left: bounds.right,
                    right: bounds.left,
                    down: !bounds.down,
                })
            } else {
                Ok(bounds)
            }
        }
        (Err(kind), _) | (_, Err(kind)) => Err(kind),
    }
}

/// 'left, 'right, 'high or 'low of a scalar subtype.
pub fn subtype_bound(alloc: Global, side: Side, subtype: ScalarSubtype) -> Result<Value, ValueEnd>
    ensures { Answers result (subtype_value side subtype) }
{
    let bound = side_bound(side, subtype.range);
    scalar_answer(alloc, scalar_at(subtype.of_type, i128::from(bound)))
}

/// The position of a scalar value.
fn position(scalar: Scalar) -> i128
    ensures value { result ≡ position_of scalar }
    ensures low { negsuc (2 ^ 31) ≤ℤ result }
    ensures high { result ≤ℤ pos (2 ^ 64) }
{
    match scalar {
        Scalar::Integer(x) => i128::from(x),
        Scalar::Literal(n) => i128::from(n),
        Scalar::Time(t) => i128::from(t),
    }
}

/// A position as a value of INTEGER.
fn position_answer(alloc: Global, position: i128) -> Result<Value, ValueEnd>
    ensures { Answers result (integer_value (integer_of position)) }
{
    let found = match i32::try_from(position) {
        Ok(x) if x != i32::MIN => Ok(x),
        _ => Err(StopKind::Overflow),
    };
    integer_answer(alloc, found)
}

/// 'pos.
fn position_of_value(alloc: Global, value: &Value) -> Result<Value, ValueEnd>
    ensures { Answers result (discrete_value DiscreteAttribute.Position value.now) }
{
    match value.as_scalar() {
        Some(scalar) => position_answer(alloc, position(scalar)),
        None => Err(ValueEnd::Stop(StopKind::Range)),
    }
}

/// 'val.
fn value_at_position(alloc: Global, of: ScalarType, value: &Value) -> Result<Value, ValueEnd>
    ensures { Answers result (discrete_value (DiscreteAttribute.ValueAt of) value.now) }
{
    match as_integer(value) {
        Ok(x) => scalar_answer(alloc, scalar_at(of, i128::from(x))),
        Err(kind) => Err(ValueEnd::Stop(kind)),
    }
}

/// 'succ.
fn successor(alloc: Global, of: ScalarType, value: &Value) -> Result<Value, ValueEnd>
    ensures { Answers result (discrete_value (DiscreteAttribute.Successor of) value.now) }
{
    match value.as_scalar() {
        Some(scalar) => scalar_answer(alloc, scalar_at(of, position(scalar) + 1)),
        None => Err(ValueEnd::Stop(StopKind::Range)),
    }
}

/// 'pred.
fn predecessor(alloc: Global, of: ScalarType, value: &Value) -> Result<Value, ValueEnd>
    ensures { Answers result (discrete_value (DiscreteAttribute.Predecessor of) value.now) }
{
    match value.as_scalar() {
        Some(scalar) => scalar_answer(alloc, scalar_at(of, position(scalar) - 1)),
        None => Err(ValueEnd::Stop(StopKind::Range)),
    }
}

/// 'pos, 'val, 'succ or 'pred.
pub fn discrete(
    alloc: Global,
    attribute: DiscreteAttribute,
    value: &Value,
) -> Result<Value, ValueEnd>
    ensures { Answers result (discrete_value attribute value.now) }
{
    match attribute {
        DiscreteAttribute::Position => position_of_value(alloc, value),
        DiscreteAttribute::ValueAt(of) => value_at_position(alloc, of, value),
        DiscreteAttribute::Successor(of) => successor(alloc, of, value),
        DiscreteAttribute::Predecessor(of) => predecessor(alloc, of, value),
    }
}
