//! The logical operators, and reductions by them.

ghost use Rattle.std.specs.Prelude.{◌≡◌};
ghost use Rattle.vd_composites.specs.Answers.{Answers};
ghost use Rattle.vd_vectors.specs.Logical.{by_shapes, logical as logical_value, logical_arrays, negated as negated_value, negated_by, reduction as reduction_value};
ghost use Rattle.std.specs.Prelude.{Some, None};

use crate::lists::{not_each, of_each_and, of_lists, of_one_and_each, of_two, reduce};
use crate::logics::{LogicType, as_logic, as_logics, of_logic, result_of};
use std::alloc::Global;
use vd_composites::{Bounds, Value, ValueEnd};
use vd_values::{StopKind, logic_not};

/// A logical operator with two operands.
#[derive(Clone, Copy, PartialEq, Eq, Debug)]
pub enum LogicalOperator {
    And,
    Or,
    Nand,
    Nor,
    Xor,
    Xnor,
}

/// The operator on two arrays.
fn of_arrays(
    alloc: Global,
    operator: LogicalOperator,
    of: LogicType,
    bounds: Bounds,
    left: &Value,
    right: &Value,
) -> Result<Value, ValueEnd>
    ensures { Answers result (logical_arrays operator of bounds left.now right.now) }
{
    let l = as_logics(alloc, of, left)?;
    let r = as_logics(alloc, of, right)?;
    if l.len() != r.len() {
        return Err(ValueEnd::Stop(StopKind::Length));
    }
    match of_lists(alloc, operator, &l, &r) {
        Err(_) => Err(ValueEnd::Memory),
        Ok(made) => result_of(alloc, of, bounds, &made),
    }
}

/// The operator on an array and a scalar.
fn of_array_and_scalar(
    alloc: Global,
    operator: LogicalOperator,
    of: LogicType,
    bounds: Bounds,
    left: &Value,
    right: &Value,
) -> Result<Value, ValueEnd>
    ensures { Answers result (by_shapes operator of (Some bounds) None left.now right.now) }
{
    let l = as_logics(alloc, of, left)?;
    let r = match as_logic(of, right) {
        Ok(r) => r,
        Err(kind) => return Err(ValueEnd::Stop(kind)),
    };
    match of_each_and(alloc, operator, &l, r) {
        Err(_) => Err(ValueEnd::Memory),
        Ok(made) => result_of(alloc, of, bounds, &made),
    }
}

/// The operator on a scalar and an array.
fn of_scalar_and_array(
    alloc: Global,
    operator: LogicalOperator,
    of: LogicType,
    bounds: Bounds,
    left: &Value,
    right: &Value,
) -> Result<Value, ValueEnd>
    ensures { Answers result (by_shapes operator of None (Some bounds) left.now right.now) }
{
    let l = match as_logic(of, left) {
        Ok(l) => l,
        Err(kind) => return Err(ValueEnd::Stop(kind)),
    };
    let r = as_logics(alloc, of, right)?;
    match of_one_and_each(alloc, operator, l, &r) {
        Err(_) => Err(ValueEnd::Memory),
        Ok(made) => result_of(alloc, of, bounds, &made),
    }
}

/// The operator on two scalars.
fn of_scalars(
    alloc: Global,
    operator: LogicalOperator,
    of: LogicType,
    left: &Value,
    right: &Value,
) -> Result<Value, ValueEnd>
    ensures { Answers result (by_shapes operator of None None left.now right.now) }
{
    let l = match as_logic(of, left) {
        Ok(l) => l,
        Err(kind) => return Err(ValueEnd::Stop(kind)),
    };
    match as_logic(of, right) {
        Ok(r) => of_logic(alloc, of, of_two(operator, l, r)),
        Err(kind) => Err(ValueEnd::Stop(kind)),
    }
}

/// A logical operator on values of one type and arrays of them.
pub fn logical_operation(
    alloc: Global,
    operator: LogicalOperator,
    of: LogicType,
    left: &Value,
    right: &Value,
) -> Result<Value, ValueEnd>
    ensures { Answers result (logical_value operator of left.now right.now) }
{
    match (left.bounds(), right.bounds()) {
        (Some(bounds), Some(_)) => of_arrays(alloc, operator, of, bounds, left, right),
        (Some(bounds), None) => of_array_and_scalar(alloc, operator, of, bounds, left, right),
        (None, Some(bounds)) => of_scalar_and_array(alloc, operator, of, bounds, left, right),
        (None, None) => of_scalars(alloc, operator, of, left, right),
    }
}

/// The operator `not` on an array.
fn not_array(alloc: Global, of: LogicType, bounds: Bounds, value: &Value) -> Result<Value, ValueEnd>
    ensures { Answers result (negated_by of (Some bounds) value.now) }
{
    let values = as_logics(alloc, of, value)?;
    match not_each(alloc, &values) {
        Err(_) => Err(ValueEnd::Memory),
        Ok(made) => result_of(alloc, of, bounds, &made),
    }
}

/// The operator `not`.
pub fn negated(alloc: Global, of: LogicType, value: &Value) -> Result<Value, ValueEnd>
    ensures { Answers result (negated_value of value.now) }
{
    if let Some(bounds) = value.bounds() {
        return not_array(alloc, of, bounds, value);
    }
    match as_logic(of, value) {
        Ok(scalar) => of_logic(alloc, of, logic_not(scalar)),
        Err(kind) => Err(ValueEnd::Stop(kind)),
    }
}

/// The reduction of an array.
pub fn reduction(
    alloc: Global,
    operator: LogicalOperator,
    of: LogicType,
    value: &Value,
) -> Result<Value, ValueEnd>
    ensures { Answers result (reduction_value operator of value.now) }
{
    let values = as_logics(alloc, of, value)?;
    of_logic(alloc, of, reduce(operator, &values))
}
