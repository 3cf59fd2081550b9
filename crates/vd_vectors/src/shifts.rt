//! The six shifts.

ghost use Rattle.std.specs.Prelude.{◌≡◌, ◌≤◌, IfOk, length};
ghost use Rattle.vd_composites.specs.Answers.{Answers};
ghost use Rattle.vd_vectors.specs.Shifts.{leftmost, opposite, places, rightmost, shift as shift_value, shifted};
ghost use Rattle.vd_vectors.specs.declared.shifts.ShiftOperator.TheVariants.{RotateLeft, RotateRight};
ghost use Rattle.vd_vectors.specs.Moves.{filled_left, filled_right, rotated};

use crate::logics::{LogicType, as_logics, result_of};
use std::alloc::{AllocError, Global};
use vd_composites::{Value, ValueEnd};
use vd_values::{Logic, StopKind};

/// A shift.
#[derive(Clone, Copy, PartialEq, Eq, Debug)]
pub enum ShiftOperator {
    /// `sll`.
    LogicalLeft,
    /// `srl`.
    LogicalRight,
    /// `sla`.
    ArithmeticLeft,
    /// `sra`.
    ArithmeticRight,
    /// `rol`.
    RotateLeft,
    /// `ror`.
    RotateRight,
}

/// The shift the other way.
fn the_other_way(operator: ShiftOperator) -> ShiftOperator
    ensures { result ≡ opposite operator }
{
    match operator {
        ShiftOperator::LogicalLeft => ShiftOperator::LogicalRight,
        ShiftOperator::LogicalRight => ShiftOperator::LogicalLeft,
        ShiftOperator::ArithmeticLeft => ShiftOperator::ArithmeticRight,
        ShiftOperator::ArithmeticRight => ShiftOperator::ArithmeticLeft,
        ShiftOperator::RotateLeft => ShiftOperator::RotateRight,
        ShiftOperator::RotateRight => ShiftOperator::RotateLeft,
    }
}

/// The leftmost element, or '0' where there is none.
fn first_of(values: &[Logic]) -> Logic
    ensures { result ≡ leftmost Logic.Zero values.now }
{
    match values {
        [first, ..] => *first,
        [] => Logic::Zero,
    }
}

/// The rightmost element, or '0' where there is none.
fn last_of(values: &[Logic]) -> Logic
    ensures { result ≡ rightmost Logic.Zero values.now }
{
    let mut last = Logic::Zero;
    for value in values {
        last = *value;
    }
    last
}

/// The elements so many places to the left, with others behind them.
fn fill_left(
    alloc: Global,
    new: Logic,
    count: usize,
    values: &[Logic],
) -> Result<Vec<Logic>, AllocError>
    ensures { IfOk result (λ made. made.items ≡ filled_left new count values.now) }
{
    let gone = count.min(values.len());
    let mut made = Vec::from_slice(alloc, &values[gone..])?;
    for _place in 0..gone {
        made.push(new)?;
    }
    Ok(made)
}

/// The elements so many places to the right, with others in front of them.
fn fill_right(
    alloc: Global,
    new: Logic,
    count: usize,
    values: &[Logic],
) -> Result<Vec<Logic>, AllocError>
    ensures { IfOk result (λ made. made.items ≡ filled_right new count values.now) }
{
    let gone = count.min(values.len());
    let mut made = Vec::new(alloc);
    for _place in 0..gone {
        made.push(new)?;
    }
    made.extend_from_slice(&values[..values.len() - gone])?;
    Ok(made)
}

/// The elements from a place on, and then those in front of it.
fn rotate(alloc: Global, place: usize, values: &[Logic]) -> Result<Vec<Logic>, AllocError>
    requires { place ≤ length values.now }
    ensures { IfOk result (λ made. made.items ≡ rotated place values.now) }
{
    let mut made = Vec::from_slice(alloc, &values[place..])?;
    made.extend_from_slice(&values[..place])?;
    Ok(made)
}

/// The rotations.
fn rotate_left(alloc: Global, count: usize, values: &[Logic]) -> Result<Vec<Logic>, AllocError>
    ensures { IfOk result (λ made. made.items ≡ places count RotateLeft values.now) }
{
    if values.is_empty() {
        return Ok(Vec::new(alloc));
    }
    rotate(alloc, count % values.len(), values)
}

fn rotate_right(alloc: Global, count: usize, values: &[Logic]) -> Result<Vec<Logic>, AllocError>
    ensures { IfOk result (λ made. made.items ≡ places count RotateRight values.now) }
{
    if values.is_empty() {
        return Ok(Vec::new(alloc));
    }
    rotate(alloc, values.len() - count % values.len(), values)
}

/// A shift by so many places.
fn shift_places(
    alloc: Global,
    operator: ShiftOperator,
    count: usize,
    values: &[Logic],
) -> Result<Vec<Logic>, AllocError>
    ensures { IfOk result (λ made. made.items ≡ places count operator values.now) }
{
    match operator {
        ShiftOperator::LogicalLeft => fill_left(alloc, Logic::Zero, count, values),
        ShiftOperator::LogicalRight => fill_right(alloc, Logic::Zero, count, values),
        ShiftOperator::ArithmeticLeft => fill_left(alloc, last_of(values), count, values),
        ShiftOperator::ArithmeticRight => fill_right(alloc, first_of(values), count, values),
        ShiftOperator::RotateLeft => rotate_left(alloc, count, values),
        ShiftOperator::RotateRight => rotate_right(alloc, count, values),
    }
}

/// A shift of a list by a count of either sign.
fn shift_list(
    alloc: Global,
    operator: ShiftOperator,
    count: i32,
    values: &[Logic],
) -> Result<Vec<Logic>, AllocError>
    ensures { IfOk result (λ made. made.items ≡ shifted operator count values.now) }
{
    let size = count.unsigned_abs() as usize;
    if count < 0 {
        shift_places(alloc, the_other_way(operator), size, values)
    } else {
        shift_places(alloc, operator, size, values)
    }
}

/// A shift of an array.
pub fn shift(
    alloc: Global,
    operator: ShiftOperator,
    of: LogicType,
    value: &Value,
    count: i32,
) -> Result<Value, ValueEnd>
    ensures { Answers result (shift_value operator of value.now count) }
{
    let Some(bounds) = value.bounds() else {
        return Err(ValueEnd::Stop(StopKind::Range));
    };
    let values = as_logics(alloc, of, value)?;
    match shift_list(alloc, operator, count, &values) {
        Err(_) => Err(ValueEnd::Memory),
        Ok(made) => result_of(alloc, of, bounds, &made),
    }
}
