//! The ordering operators.

ghost use Rattle.std.specs.Prelude.{◌≡◌, Some, None};
ghost use Rattle.vd_composites.specs.Answers.{Answers};
ghost use Rattle.vd_composites.specs.Scalars.{position_of};
ghost use Rattle.vd_composites.specs.Answers.{Found};
ghost use Rattle.vd_vectors.specs.Orders.{array_order, holds, matching_ordered as matching_ordered_value, order, order_by_shapes, ordered as ordered_value};

use crate::lists::{order_lists, order_positions};
use crate::logics::{LogicType, of_logic, of_truth};
use std::alloc::Global;
use std::cmp::Ordering;
use vd_composites::{Value, ValueEnd};
use vd_values::{Logic, Scalar, StopKind};

/// An ordering operator.
#[derive(Clone, Copy, PartialEq, Eq, Debug)]
pub enum Relation {
    IsLess,
    IsAtMost,
    IsGreater,
    IsAtLeast,
}

/// The position of a scalar value in its type.
fn position(scalar: Scalar) -> i128
    ensures { result ≡ position_of scalar }
{
    match scalar {
        Scalar::Integer(x) => i128::from(x),
        Scalar::Literal(position) => i128::from(position),
        Scalar::Time(femtoseconds) => i128::from(femtoseconds),
    }
}

/// Whether an operator holds of two values in this order.
fn relation_holds(relation: Relation, order: Ordering) -> bool
    ensures { result ≡ holds relation order }
{
    match (relation, order) {
        (Relation::IsLess | Relation::IsAtMost, Ordering::Less) => true,
        (Relation::IsGreater | Relation::IsAtLeast, Ordering::Greater) => true,
        (Relation::IsAtMost | Relation::IsAtLeast, Ordering::Equal) => true,
        _ => false,
    }
}

/// The order of two arrays.
fn order_arrays(alloc: Global, left: &Value, right: &Value) -> Result<Ordering, ValueEnd>
    ensures { Found result (array_order left.now right.now) }
{
    let l = left.positions(alloc)?;
    let r = right.positions(alloc)?;
    Ok(order_lists(&l, &r))
}

/// The order of two scalars.
fn order_scalars(left: &Value, right: &Value) -> Result<Ordering, ValueEnd>
    ensures { Found result (order_by_shapes None None left.now right.now) }
{
    match (left.as_scalar(), right.as_scalar()) {
        (Some(l), Some(r)) => Ok(order_positions(position(l), position(r))),
        _ => Err(ValueEnd::Stop(StopKind::Range)),
    }
}

/// The order of two values.
fn order_values(alloc: Global, left: &Value, right: &Value) -> Result<Ordering, ValueEnd>
    ensures { Found result (order left.now right.now) }
{
    match (left.bounds(), right.bounds()) {
        (Some(_), Some(_)) => order_arrays(alloc, left, right),
        (None, None) => order_scalars(left, right),
        _ => Err(ValueEnd::Stop(StopKind::Range)),
    }
}

/// The operators `<`, `<=`, `>` and `>=`.
pub fn ordered(
    alloc: Global,
    relation: Relation,
    left: &Value,
    right: &Value,
) -> Result<Value, ValueEnd>
    ensures { Answers result (ordered_value relation left.now right.now) }
{
    let order = order_values(alloc, left, right)?;
    of_truth(alloc, relation_holds(relation, order))
}

/// The operators `?<`, `?<=`, `?>` and `?>=` on BIT.
pub fn matching_ordered(
    alloc: Global,
    relation: Relation,
    left: &Value,
    right: &Value,
) -> Result<Value, ValueEnd>
    ensures { Answers result (matching_ordered_value relation left.now right.now) }
{
    let order = order_values(alloc, left, right)?;
    let value = if relation_holds(relation, order) {
        Logic::One
    } else {
        Logic::Zero
    };
    of_logic(alloc, LogicType::TwoValued, value)
}
