//! The values that choices stand for.

ghost use Rattle.std.specs.Prelude.{◌≡◌, IfOk};
ghost use Rattle.vd_composites.specs.Composites.{One, Value as AnyValue};
ghost use Rattle.vd_composites.specs.Ranges.{index_at};
ghost use Rattle.vd_composites.specs.Scalars.{scalar_at as at_position};
ghost use Rattle.vd_environments.specs.Environments.{Env};
ghost use Rattle.vd_environments.specs.Got.{Got};
ghost use Rattle.vd_given_choices.specs.Choices.{IsChoice};
ghost use Rattle.vd_given_choices.specs.Values.{alone};
ghost use Rattle.vd_meaning.specs.Statements.{range_values as all_values};
ghost use Rattle.vd_static_values.specs.Entries.{IsFound, IsGround};
ghost use Rattle.vd_static_names.specs.Known.{HasSubtypes};
ghost use Rattle.vd_value_rules.specs.Choices.{Given, values_of_choice, values_or_none};
ghost use Rattle.vd_values.specs.declared.scalar.Scalar.{Scalar as AnyScalar};

use crate::Choice;
use std::alloc::{AllocError, Global};
use vd_composites::{Bounds, ScalarType, Value};
use vd_static_parts::bounds::scalar_type;
use vd_static_values::Ground;
use vd_values::Scalar;

/// The scalar value at a position, also outside its type. What no scalar of code holds is taken for want of memory.
fn scalar_at(of: ScalarType, position: i128) -> Result<Scalar, AllocError>
    ensures { IfOk result (λ x. x ≡ at_position of position) }
{
    match of {
        ScalarType::Integers => match i32::try_from(position) {
            Ok(x) => Ok(Scalar::Integer(x)),
            Err(_) => Err(AllocError),
        },
        ScalarType::Enumeration(_) => match u32::try_from(position.max(0)) {
            Ok(n) => Ok(Scalar::Literal(n)),
            Err(_) => Err(AllocError),
        },
        ScalarType::Times => match u64::try_from(position.max(0)) {
            Ok(t) => Ok(Scalar::Time(t)),
            Err(_) => Err(AllocError),
        },
    }
}

/// The position at a place of a range, which is counted from the left.
fn position_at(range: Bounds, place: u64) -> i128
    ensures { result ≡ index_at range place }
{
    if range.down {
        i128::from(range.left) - i128::from(place)
    } else {
        i128::from(range.left) + i128::from(place)
    }
}

/// The value at a place of a range.
fn value_at(alloc: Global, of: ScalarType, range: Bounds, place: u64) -> Result<Value, AllocError>
    ensures { IfOk result (λ v. v ≡ One (at_position of (index_at range place))) }
{
    let scalar = scalar_at(of, position_at(range, place))?;
    Value::scalar(alloc, scalar)
}

/// The values of a range, from the left.
fn range_values(alloc: Global, of: ScalarType, range: Bounds) -> Result<Vec<Value>, AllocError>
    ensures { IfOk result (λ vs. vs.items ≡ all_values of range) }
{
    let Ok(count) = u64::try_from(range.length()) else {
        return Err(AllocError);
    };
    let mut values = Vec::new(alloc);
    for place in 0..count {
        let value = value_at(alloc, of, range, place)?;
        values.push(value)?;
    }
    Ok(values)
}

/// A value alone, where there is one.
fn own_values(alloc: Global, value: &Option<Value>) -> Result<Vec<Value>, AllocError>
    ensures { (g : Got (AnyValue AnyScalar)) → IsFound value.now g → IfOk result (λ vs. vs.items ≡ values_or_none (alone g)) }
{
    let mut values = Vec::new(alloc);
    if let Some(value) = value {
        values.push(value.duplicate(alloc)?)?;
    }
    Ok(values)
}

/// The values that a choice stands for: those of its range, or its value where it has no range of a scalar type. None are known of a choice
/// that isn't locally static.
pub(crate) fn choice_values(
    ground: &Ground<'_>,
    alloc: Global,
    choice: &Choice,
) -> Result<Vec<Value>, AllocError>
    requires subtypes { HasSubtypes ground.now }
    ensures { (e : Env) (g : Given) → IsGround ground.now e → IsChoice choice.now g
        → IfOk result (λ vs. vs.items ≡ values_or_none (values_of_choice e g)) }
{
    if !choice.is_static {
        return Ok(Vec::new(alloc));
    }
    let Some(range) = choice.range else {
        return own_values(alloc, &choice.value);
    };
    match scalar_type(ground, choice.mark) {
        Some(of) => range_values(alloc, of, range),
        None => own_values(alloc, &choice.value),
    }
}
