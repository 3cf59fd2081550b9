//! What goes through the projected transactions of a driver.

ghost use Rattle.std.specs.Prelude.{◌≡◌, IfOk, nat_le, filter};
ghost use Rattle.vd_kernel.specs.Drivers.{assigned, last_value};
ghost use Rattle.vd_kernel.specs.DriverLists.{IsAscending, breaks_run};

use crate::assignments::{Delay, Transaction};
use crate::scalars::same_value;
use std::alloc::{AllocError, Global};
use vd_values::Scalar;

/// The transactions after an assignment. A transaction that breaks the run before the new one deletes all that stood before it.
pub fn after_assignment(
    alloc: Global,
    old: &[Transaction],
    delay: Delay,
    new: Transaction,
) -> Result<Vec<Transaction>, AllocError>
    requires { IsAscending old.now }
    ensures { IfOk result (λ after. after.items ≡ assigned delay new old.now) }
{
    let mut after = Vec::new(alloc);
    for t in old {
        if t.time < new.time {
            if is_other(delay, t.value, new.value) {
                after.clear();
            } else {
                after.push(*t)?;
            }
        }
    }
    after.push(new)?;
    Ok(after)
}

// Whether a transaction with the one value breaks the run of equal values before one with the other.
fn is_other(delay: Delay, old: Scalar, new: Scalar) -> bool
    ensures { result ≡ breaks_run delay old new }
{
    match delay {
        Delay::Transport => false,
        Delay::Inertial => !same_value(old, new),
    }
}

/// The last value that is due, or this one where none is.
pub fn due_value(current: Scalar, old: &[Transaction], now: u64) -> Scalar
    ensures { result ≡ last_value current (filter (λ t. nat_le t.time now) old.now) }
{
    let mut value = current;
    for t in old {
        if t.time <= now {
            value = t.value;
        }
    }
    value
}
