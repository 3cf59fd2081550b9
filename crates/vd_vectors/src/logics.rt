//! Values of the logical types, read from values of the language and made of them.

ghost use Rattle.std.specs.Prelude.{◌≡◌, IfOk, Ok, map};
ghost use Rattle.vd_composites.specs.Answers.{Answers, ListAnswers};
ghost use Rattle.vd_composites.specs.Vectors.{literal_position};
ghost use Rattle.vd_vectors.specs.Logics.{bounds_from_one as defined_from_one, logic_array, logic_at, logic_in, logic_value, logics_at, logics_in, position_in, result_array, result_bounds, truth};

use std::alloc::{AllocError, Global};
use vd_composites::{Bounds, Value, ValueEnd};
use vd_values::{Logic, Scalar, StopKind};

/// The type of some logical values.
#[derive(Clone, Copy, PartialEq, Eq, Debug)]
pub enum LogicType {
    /// BIT or BOOLEAN, whose values stand as `Logic::Zero` and `Logic::One`.
    TwoValued,
    /// STD_ULOGIC.
    NineValued,
}

/// The literal of STD_ULOGIC at a position.
fn nine_at(position: i64) -> Result<Logic, StopKind>
    ensures { result ≡ logic_at LogicType.NineValued position }
{
    match position {
        0 => Ok(Logic::U),
        1 => Ok(Logic::X),
        2 => Ok(Logic::Zero),
        3 => Ok(Logic::One),
        4 => Ok(Logic::Z),
        5 => Ok(Logic::W),
        6 => Ok(Logic::L),
        7 => Ok(Logic::H),
        8 => Ok(Logic::Dash),
        _ => Err(StopKind::Range),
    }
}

/// The literal at a position.
fn literal_at(of: LogicType, position: i64) -> Result<Logic, StopKind>
    ensures { result ≡ logic_at of position }
{
    match of {
        LogicType::NineValued => nine_at(position),
        LogicType::TwoValued => match position {
            0 => Ok(Logic::Zero),
            1 => Ok(Logic::One),
            _ => Err(StopKind::Range),
        },
    }
}

/// The position of a literal.
pub fn position_of(of: LogicType, value: Logic) -> u8
    ensures { result ≡ position_in of value }
{
    match (of, value) {
        (LogicType::NineValued, value) => value as u8,
        (LogicType::TwoValued, Logic::One) => 1,
        (LogicType::TwoValued, _) => 0,
    }
}

/// The position of a literal in its type.
fn position_in_type(scalar: Scalar) -> Result<i64, StopKind>
    ensures { result ≡ literal_position scalar }
{
    match scalar {
        Scalar::Literal(position) => Ok(i64::from(position)),
        Scalar::Integer(_) | Scalar::Time(_) => Err(StopKind::Range),
    }
}

/// The literals at some positions.
fn literals_at(alloc: Global, of: LogicType, positions: &[i64]) -> Result<Vec<Logic>, ValueEnd>
    ensures { ListAnswers result (logics_at of positions.now) }
{
    let Ok(mut values) = Vec::with_capacity(alloc, positions.len()) else {
        return Err(ValueEnd::Memory);
    };
    for position in positions {
        match literal_at(of, *position) {
            Err(kind) => return Err(ValueEnd::Stop(kind)),
            Ok(value) => {
                if values.push(value).is_err() {
                    return Err(ValueEnd::Memory);
                }
            }
        }
    }
    Ok(values)
}

/// What a scalar value is.
pub fn as_logic(of: LogicType, value: &Value) -> Result<Logic, StopKind>
    ensures { result ≡ logic_in of value.now }
{
    let Some(scalar) = value.as_scalar() else {
        return Err(StopKind::Range);
    };
    match position_in_type(scalar) {
        Err(kind) => Err(kind),
        Ok(position) => literal_at(of, position),
    }
}

/// The elements of an array.
pub fn as_logics(alloc: Global, of: LogicType, value: &Value) -> Result<Vec<Logic>, ValueEnd>
    ensures { ListAnswers result (logics_in of value.now) }
{
    match value.literal_positions(alloc) {
        Err(end) => Err(end),
        Ok(positions) => literals_at(alloc, of, &positions),
    }
}

/// A scalar value.
pub fn of_logic(alloc: Global, of: LogicType, value: Logic) -> Result<Value, ValueEnd>
    ensures { Answers result (Ok (logic_value of value)) }
{
    let position = u32::from(position_of(of, value));
    match Value::scalar(alloc, Scalar::Literal(position)) {
        Ok(made) => Ok(made),
        Err(_) => Err(ValueEnd::Memory),
    }
}

/// A value of BOOLEAN.
pub fn of_truth(alloc: Global, holds: bool) -> Result<Value, ValueEnd>
    ensures { Answers result (Ok (truth holds)) }
{
    let position = if holds { 1 } else { 0 };
    match Value::scalar(alloc, Scalar::Literal(position)) {
        Ok(made) => Ok(made),
        Err(_) => Err(ValueEnd::Memory),
    }
}

/// The positions of some values.
fn positions_of(alloc: Global, of: LogicType, values: &[Logic]) -> Result<Vec<u8>, AllocError>
    ensures { IfOk result (λ ps. ps.items ≡ map (position_in of) values.now) }
{
    values
        .iter()
        .map(|value| position_of(of, *value))
        .collect(alloc)
}

/// An array with these bounds.
fn of_logics(
    alloc: Global,
    of: LogicType,
    bounds: Bounds,
    values: &[Logic],
) -> Result<Value, ValueEnd>
    ensures { Answers result (logic_array of bounds values.now) }
{
    match positions_of(alloc, of, values) {
        Err(_) => Err(ValueEnd::Memory),
        Ok(positions) => Value::of_literals(alloc, bounds, &positions),
    }
}

/// The bounds 1 to n of an array whose index subtype is NATURAL or POSITIVE, unless they leave it.
pub fn bounds_from_one(count: usize) -> Result<Bounds, StopKind>
    ensures { result ≡ defined_from_one count }
{
    if count > 2_147_483_647 {
        return Err(StopKind::Index);
    }
    Ok(Bounds {
        left: 1,
        right: count as i64,
        down: false,
    })
}

/// The bounds of an operator's result.
fn bounds_of(of: LogicType, bounds: Bounds, count: usize) -> Result<Bounds, StopKind>
    ensures { result ≡ result_bounds of bounds count }
{
    match of {
        LogicType::TwoValued => Ok(bounds),
        LogicType::NineValued => bounds_from_one(count),
    }
}

/// The array that an operator gives on one with these bounds.
pub fn result_of(
    alloc: Global,
    of: LogicType,
    bounds: Bounds,
    values: &[Logic],
) -> Result<Value, ValueEnd>
    ensures { Answers result (result_array of bounds values.now) }
{
    match bounds_of(of, bounds, values.len()) {
        Ok(own) => of_logics(alloc, of, own, values),
        Err(kind) => Err(ValueEnd::Stop(kind)),
    }
}
