//! What a design begins with.

ghost use Rattle.std.specs.Prelude.{◌≡◌, map, IfOk};
ghost use Rattle.vd_kernel.specs.Simulated.{idle, first_history};

use crate::driver_list::DriverList;
use crate::histories::History;
use crate::shape::{DriverShape, ScalarShape};
use std::alloc::{AllocError, Global};
use vd_values::Scalar;

/// One more of each signal.
pub fn copies(alloc: Global, scalars: &[ScalarShape]) -> Result<Vec<ScalarShape>, AllocError>
    ensures { IfOk result (λ v. v.items ≡ scalars.now) }
{
    let mut signals = Vec::new(alloc);
    for scalar in scalars {
        signals.push(scalar.copied(alloc)?)?;
    }
    Ok(signals)
}

/// Each driver with its first value.
pub fn idle_drivers(alloc: Global, shapes: &[DriverShape]) -> Result<Vec<DriverList>, AllocError>
    ensures { IfOk result (λ v. v.items ≡ map idle shapes.now) }
{
    let mut drivers = Vec::new(alloc);
    for shape in shapes {
        drivers.push(DriverList::new(alloc, shape.initial))?;
    }
    Ok(drivers)
}

/// The past of signals that begin with these values.
pub fn first_histories(alloc: Global, values: &[Scalar]) -> Result<Vec<History>, AllocError>
    ensures { IfOk result (λ v. v.items ≡ map first_history values.now) }
{
    let mut histories = Vec::new(alloc);
    for value in values {
        histories.push(History {
            before: None,
            last: *value,
        })?;
    }
    Ok(histories)
}
