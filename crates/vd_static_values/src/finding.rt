//! Values that are there where their evaluation doesn't stop.

ghost use Rattle.std.specs.Prelude.{IfOk};
ghost use Rattle.vd_composites.specs.Answers.{Answers};
ghost use Rattle.vd_composites.specs.Composites.{Value as AnyValue};
ghost use Rattle.vd_composites.specs.Stops.{OrStop};
ghost use Rattle.vd_environments.specs.Got.{got};
ghost use Rattle.vd_static_values.specs.Entries.{IsFound};
ghost use Rattle.vd_values.specs.declared.scalar.Scalar.{Scalar};

use std::alloc::AllocError;
use vd_composites::{Value, ValueEnd};
use vd_values::StopKind;

/// The value, where there is one.
pub(crate) fn found(answer: Result<Value, ValueEnd>) -> Result<Option<Value>, AllocError>
    ensures { (g : OrStop (AnyValue Scalar)) → Answers answer g → IfOk result (λ value. IsFound value (got g)) }
{
    match answer {
        Ok(value) => Ok(Some(value)),
        Err(ValueEnd::Stop(_)) => Ok(None),
        Err(ValueEnd::Memory) => Err(AllocError),
    }
}

/// The value, where it didn't stop.
pub(crate) fn unless_stopped(value: Result<Value, StopKind>) -> Option<Value>
    ensures { IsFound result (got value) }
{
    match value {
        Ok(value) => Some(value),
        Err(_) => None,
    }
}
