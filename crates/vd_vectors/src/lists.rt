//! Operators on lists of logical values.

ghost use Rattle.std.specs.Prelude.{◌≡◌, IfOk, length, map};
ghost use Rattle.vd_values.specs.LogicTables.{not_of};
ghost use Rattle.vd_vectors.specs.Logical.{combined, folded, logical_of, reduced};
ghost use Rattle.vd_vectors.specs.Matching.{match_all};
ghost use Rattle.vd_vectors.specs.Orders.{list_order, order_of};

use crate::logical::LogicalOperator;
use std::alloc::{AllocError, Global};
use std::cmp::Ordering;
use vd_values::{Logic, logic_and, logic_not, logic_or, logic_xor, matches};

/// The operator on two values.
pub fn of_two(operator: LogicalOperator, left: Logic, right: Logic) -> Logic
    ensures { result ≡ logical_of operator left right }
{
    match operator {
        LogicalOperator::And => logic_and(left, right),
        LogicalOperator::Or => logic_or(left, right),
        LogicalOperator::Nand => logic_not(logic_and(left, right)),
        LogicalOperator::Nor => logic_not(logic_or(left, right)),
        LogicalOperator::Xor => logic_xor(left, right),
        LogicalOperator::Xnor => logic_not(logic_xor(left, right)),
    }
}

/// The operator element by element.
pub fn of_lists(
    alloc: Global,
    operator: LogicalOperator,
    left: &[Logic],
    right: &[Logic],
) -> Result<Vec<Logic>, AllocError>
    requires { length left.now ≡ length right.now }
    ensures { IfOk result (λ made. made.items ≡ combined operator left.now right.now) }
{
    let mut made = Vec::with_capacity(alloc, left.len())?;
    for i in 0..left.len() {
        made.push(of_two(operator, left[i], right[i]))?;
    }
    Ok(made)
}

/// The operator on each element and one value.
pub fn of_each_and(
    alloc: Global,
    operator: LogicalOperator,
    values: &[Logic],
    other: Logic,
) -> Result<Vec<Logic>, AllocError>
    ensures { IfOk result (λ made. made.items ≡ map (λ x. logical_of operator x other) values.now) }
{
    values
        .iter()
        .map(|value| of_two(operator, *value, other))
        .collect(alloc)
}

/// The operator on one value and each element.
pub fn of_one_and_each(
    alloc: Global,
    operator: LogicalOperator,
    other: Logic,
    values: &[Logic],
) -> Result<Vec<Logic>, AllocError>
    ensures { IfOk result (λ made. made.items ≡ map (λ y. logical_of operator other y) values.now) }
{
    values
        .iter()
        .map(|value| of_two(operator, other, *value))
        .collect(alloc)
}

/// The operator `not` on each element.
pub fn not_each(alloc: Global, values: &[Logic]) -> Result<Vec<Logic>, AllocError>
    ensures { IfOk result (λ made. made.items ≡ map not_of values.now) }
{
    values.iter().map(|value| logic_not(*value)).collect(alloc)
}

/// A value and then the elements, taken together from the left.
fn fold(operator: LogicalOperator, first: Logic, values: &[Logic]) -> Logic
    ensures { result ≡ folded operator first values.now }
{
    let mut value = first;
    for next in values {
        value = of_two(operator, value, *next);
    }
    value
}

/// The reduction of a list.
pub fn reduce(operator: LogicalOperator, values: &[Logic]) -> Logic
    ensures { result ≡ reduced operator values.now }
{
    match operator {
        LogicalOperator::And => fold(LogicalOperator::And, Logic::One, values),
        LogicalOperator::Or => fold(LogicalOperator::Or, Logic::Zero, values),
        LogicalOperator::Xor => fold(LogicalOperator::Xor, Logic::Zero, values),
        LogicalOperator::Nand => logic_not(fold(LogicalOperator::And, Logic::One, values)),
        LogicalOperator::Nor => logic_not(fold(LogicalOperator::Or, Logic::Zero, values)),
        LogicalOperator::Xnor => logic_not(fold(LogicalOperator::Xor, Logic::Zero, values)),
    }
}

/// Whether two lists match.
pub fn match_lists(left: &[Logic], right: &[Logic]) -> Logic
    requires { length left.now ≡ length right.now }
    ensures { result ≡ match_all Logic.One left.now right.now }
{
    let mut value = Logic::One;
    for i in 0..left.len() {
        value = logic_and(value, matches(left[i], right[i]));
    }
    value
}

/// The order of two positions.
pub fn order_positions(left: i128, right: i128) -> Ordering
    ensures { result ≡ order_of left right }
{
    if left == right {
        Ordering::Equal
    } else if left <= right {
        Ordering::Less
    } else {
        Ordering::Greater
    }
}

/// The order of two lists of positions.
pub fn order_lists(left: &[i64], right: &[i64]) -> Ordering
    ensures { result ≡ list_order left.now right.now }
{
    let mut i = 0;
    while i < left.len() && i < right.len() {
        if left[i] != right[i] {
            return order_positions(i128::from(left[i]), i128::from(right[i]));
        }
        i += 1;
    }
    if left.len() == right.len() {
        Ordering::Equal
    } else if left.len() < right.len() {
        Ordering::Less
    } else {
        Ordering::Greater
    }
}
