//! The operators on INTEGER and TIME.

ghost use Rattle.std.specs.Prelude.{◌≡◌, Ok, IfOk, if◌then◌else◌};
ghost use Rattle.vd_composites.specs.Composites.{One};
ghost use Rattle.vd_values.specs.Times.{IsTime};
ghost use Rattle.vd_integers.specs.Integers.{IsInteger};
ghost use Rattle.vd_composites.specs.Answers.{Answers};
ghost use Rattle.vd_operators.specs.Arithmetic.{integer_in, integer_operation, integer_value, of_integer, of_integers, sign_operation, time_in, time_operation, time_value};

use std::alloc::Global;
use vd_composites::{Value, ValueEnd};
use vd_integers::{
    integer_absolute, integer_add, integer_divide, integer_modulus, integer_multiply,
    integer_negate, integer_power, integer_remainder, integer_subtract,
};
use vd_values::{Scalar, StopKind, time_add, time_div, time_scale, time_sub};

/// An operator on two values of INTEGER.
#[derive(Clone, Copy, PartialEq, Eq, Debug)]
pub enum IntegerOperator {
    Add,
    Subtract,
    Multiply,
    Divide,
    Remainder,
    Modulus,
    Power,
}

/// An operator on one value of INTEGER.
#[derive(Clone, Copy, PartialEq, Eq, Debug)]
pub enum SignOperator {
    Identity,
    Negation,
    Absolute,
}

/// An operator on TIME.
#[derive(Clone, Copy, PartialEq, Eq, Debug)]
pub enum TimeOperator {
    TimeAdd,
    TimeSubtract,
    /// A TIME by an INTEGER.
    TimesInteger,
    /// An INTEGER by a TIME.
    IntegerTimes,
    DividedByInteger,
}

/// A value of INTEGER.
pub fn as_integer(value: &Value) -> Result<i32, StopKind>
    ensures value { result ≡ integer_in value.now }
    ensures fits { IfOk result IsInteger }
{
    match value.as_scalar() {
        Some(Scalar::Integer(x)) => {
            if x == i32::MIN {
                Err(StopKind::Range)
            } else {
                Ok(x)
            }
        }
        _ => Err(StopKind::Range),
    }
}

/// A value of TIME.
fn as_time(value: &Value) -> Result<u64, StopKind>
    ensures value { result ≡ time_in value.now }
    ensures fits { IfOk result IsTime }
{
    match value.as_scalar() {
        Some(Scalar::Time(t)) => {
            if t > i64::MAX as u64 {
                Err(StopKind::Range)
            } else {
                Ok(t)
            }
        }
        _ => Err(StopKind::Range),
    }
}

/// A scalar value as an answer.
fn of_scalar(alloc: Global, scalar: Scalar) -> Result<Value, ValueEnd>
    ensures { Answers result (Ok (One scalar)) }
{
    match Value::scalar(alloc, scalar) {
        Ok(value) => Ok(value),
        Err(_) => Err(ValueEnd::Memory),
    }
}

/// What came to a value of INTEGER.
pub fn integer_answer(alloc: Global, found: Result<i32, StopKind>) -> Result<Value, ValueEnd>
    ensures { Answers result (integer_value found) }
{
    match found {
        Ok(x) => of_scalar(alloc, Scalar::Integer(x)),
        Err(kind) => Err(ValueEnd::Stop(kind)),
    }
}

/// What came to a value of TIME.
fn time_answer(alloc: Global, found: Result<u64, StopKind>) -> Result<Value, ValueEnd>
    ensures { Answers result (time_value found) }
{
    match found {
        Ok(t) => of_scalar(alloc, Scalar::Time(t)),
        Err(kind) => Err(ValueEnd::Stop(kind)),
    }
}

/// An operator on two integers.
fn calculate(operator: IntegerOperator, a: i32, b: i32) -> Result<i32, StopKind>
    requires left { IsInteger a }
    requires right { IsInteger b }
    ensures { result ≡ of_integers operator a b }
{
    match operator {
        IntegerOperator::Add => integer_add(a, b),
        IntegerOperator::Subtract => integer_subtract(a, b),
        IntegerOperator::Multiply => integer_multiply(a, b),
        IntegerOperator::Divide => integer_divide(a, b),
        IntegerOperator::Remainder => integer_remainder(a, b),
        IntegerOperator::Modulus => integer_modulus(a, b),
        IntegerOperator::Power => integer_power(a, b),
    }
}

/// An operator on two values of INTEGER.
pub fn integer_two(
    alloc: Global,
    operator: IntegerOperator,
    left: &Value,
    right: &Value,
) -> Result<Value, ValueEnd>
    ensures { Answers result (integer_operation operator left.now right.now) }
{
    match (as_integer(left), as_integer(right)) {
        (Ok(a), Ok(b)) => integer_answer(alloc, calculate(operator, a, b)),
        (Err(kind), _) | (_, Err(kind)) => Err(ValueEnd::Stop(kind)),
    }
}

/// An operator on one integer.
fn calculate_one(operator: SignOperator, a: i32) -> Result<i32, StopKind>
    ensures { result ≡ of_integer operator a }
{
    match operator {
        SignOperator::Identity => Ok(a),
        SignOperator::Negation => integer_negate(a),
        SignOperator::Absolute => integer_absolute(a),
    }
}

/// An operator on one value of INTEGER.
pub fn integer_one(alloc: Global, operator: SignOperator, value: &Value) -> Result<Value, ValueEnd>
    ensures { Answers result (sign_operation operator value.now) }
{
    match as_integer(value) {
        Ok(a) => integer_answer(alloc, calculate_one(operator, a)),
        Err(kind) => Err(ValueEnd::Stop(kind)),
    }
}

/// The sum or the difference of two times.
fn time_two(alloc: Global, adds: bool, left: &Value, right: &Value) -> Result<Value, ValueEnd>
    ensures { Answers result (time_operation (if adds then TimeOperator.TimeAdd else TimeOperator.TimeSubtract) left.now right.now) }
{
    match (as_time(left), as_time(right)) {
        (Ok(a), Ok(b)) => {
            let found = if adds { time_add(a, b) } else { time_sub(a, b) };
            time_answer(alloc, found)
        }
        (Err(kind), _) | (_, Err(kind)) => Err(ValueEnd::Stop(kind)),
    }
}

/// A time by an integer, or divided by one.
fn time_by(alloc: Global, divides: bool, left: &Value, right: &Value) -> Result<Value, ValueEnd>
    ensures { Answers result (time_operation (if divides then TimeOperator.DividedByInteger else TimeOperator.TimesInteger) left.now right.now) }
{
    match (as_time(left), as_integer(right)) {
        (Ok(a), Ok(b)) => {
            let found = if divides {
                time_div(a, b)
            } else {
                time_scale(a, b)
            };
            time_answer(alloc, found)
        }
        (Err(kind), _) | (_, Err(kind)) => Err(ValueEnd::Stop(kind)),
    }
}

/// An integer by a time.
fn integer_by_time(alloc: Global, left: &Value, right: &Value) -> Result<Value, ValueEnd>
    ensures { Answers result (time_operation TimeOperator.IntegerTimes left.now right.now) }
{
    match (as_integer(left), as_time(right)) {
        (Ok(a), Ok(b)) => time_answer(alloc, time_scale(b, a)),
        (Err(kind), _) | (_, Err(kind)) => Err(ValueEnd::Stop(kind)),
    }
}

/// An operator on TIME.
pub fn time_calculate(
    alloc: Global,
    operator: TimeOperator,
    left: &Value,
    right: &Value,
) -> Result<Value, ValueEnd>
    ensures { Answers result (time_operation operator left.now right.now) }
{
    match operator {
        TimeOperator::TimeAdd => time_two(alloc, true, left, right),
        TimeOperator::TimeSubtract => time_two(alloc, false, left, right),
        TimeOperator::TimesInteger => time_by(alloc, false, left, right),
        TimeOperator::DividedByInteger => time_by(alloc, true, left, right),
        TimeOperator::IntegerTimes => integer_by_time(alloc, left, right),
    }
}
