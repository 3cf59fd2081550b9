//! What processes see at initialisation, and in a cycle.

ghost use Rattle.std.specs.Prelude.{◌≡◌, ℕ, length, None, slice_index_or, IfOk};
ghost use Rattle.vd_kernel.specs.Models.{Shape};
ghost use Rattle.vd_kernel.specs.Cycles.{before_change, first_view, next_view};
ghost use Rattle.vd_kernel.specs.SignalValues.{nothing_given, value_at};
ghost use Rattle.vd_simulation.specs.Designs.{IsDesign};
ghost use Rattle.vd_simulation.specs.Turns.{view_of};

use crate::net::Net;
use crate::process::Seen;
use std::alloc::{AllocError, Global};
use vd_kernel::same_value;
use vd_values::Scalar;

fn before_new(old: Scalar, new: Scalar) -> Option<Scalar>
    ensures { result ≡ before_change old new old new }
{
    if same_value(old, new) {
        None
    } else {
        Some(old)
    }
}

// The value before of each signal whose value has changed.
fn changes(alloc: Global, old: &[Scalar], new: &[Scalar]) -> Result<Vec<Option<Scalar>>, AllocError>
    requires { length old.now ≡ length new.now }
    ensures { IfOk result (λ before. (i : ℕ) → slice_index_or before.items i None ≡ before_change (value_at old.now i) (value_at new.now i) (value_at old.now i) (value_at new.now i)) }
{
    let mut before = Vec::new(alloc);
    for i in 0..new.len() {
        before.push(before_new(old[i], new[i]))?;
    }
    Ok(before)
}

/// What processes see at initialisation, which has no event.
pub fn first_seen(alloc: Global, net: &Net) -> Result<Seen, AllocError>
    ensures long { IfOk result (λ seen. length seen.values.items ≡ length net.now.signals) }
    ensures view { IfOk result (λ seen. (m : Shape) → IsDesign m net.now.signals → view_of seen ≡ first_view m nothing_given net.now.drivers) }
{
    let values = net.values(alloc)?;
    Ok(Seen {
        time: 0,
        values,
        before: Vec::new(alloc),
    })
}

/// What processes see once the drivers have changed.
pub fn next_seen(alloc: Global, net: &Net, now: u64, old: &Seen) -> Result<Seen, AllocError>
    requires { length old.now.values.items ≡ length net.now.signals }
    ensures long { IfOk result (λ seen. length seen.values.items ≡ length net.now.signals) }
    ensures view { IfOk result (λ seen. (m : Shape) → IsDesign m net.now.signals → view_of seen ≡ next_view m nothing_given now net.now.drivers (view_of old.now)) }
{
    let values = net.values(alloc)?;
    let before = changes(alloc, &old.values, &values)?;
    Ok(Seen {
        time: now,
        values,
        before,
    })
}
