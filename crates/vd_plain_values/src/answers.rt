//! Values, or the stops in their places.

ghost use Rattle.std.specs.Prelude.{◌≡◌, IfOk};
ghost use Rattle.vd_values.specs.declared.scalar.Scalar.{Scalar as AnyScalar};
ghost use Rattle.vd_composites.specs.Answers.{Answers};
ghost use Rattle.vd_composites.specs.Composites.{Value as AnyValue};
ghost use Rattle.vd_composites.specs.Scalars.{position_of};
ghost use Rattle.vd_composites.specs.Stops.{OrStop};

use std::alloc::{AllocError, Global};
use vd_composites::{Value, ValueEnd};
use vd_values::{Scalar, StopKind};

/// The value, or the stop in its place.
pub fn settled(answer: Result<Value, ValueEnd>) -> Result<Result<Value, StopKind>, AllocError>
    ensures { (g : OrStop (AnyValue AnyScalar)) → Answers answer g → IfOk result (λ r. r ≡ g) }
{
    match answer {
        Ok(value) => Ok(Ok(value)),
        Err(ValueEnd::Stop(kind)) => Ok(Err(kind)),
        Err(ValueEnd::Memory) => Err(AllocError),
    }
}

/// The value or the stop again.
pub fn again(
    alloc: Global,
    found: &Result<Value, StopKind>,
) -> Result<Result<Value, StopKind>, AllocError>
    ensures { IfOk result (λ r. r ≡ found.now) }
{
    match found {
        Ok(value) => {
            let copy = value.duplicate(alloc)?;
            Ok(Ok(copy))
        }
        Err(kind) => Ok(Err(*kind)),
    }
}

/// The position of a scalar value. No operator gives a time above the greatest one; it is answered as want of memory.
pub fn scalar_position(scalar: Scalar) -> Result<i64, AllocError>
    ensures { IfOk result (λ i. i ≡ position_of scalar) }
{
    match scalar {
        Scalar::Integer(x) => Ok(i64::from(x)),
        Scalar::Literal(n) => Ok(i64::from(n)),
        Scalar::Time(t) => {
            if t > i64::MAX as u64 {
                Err(AllocError)
            } else {
                Ok(t as i64)
            }
        }
    }
}
