//! What is known of declarations, by their numbers.

ghost use Rattle.std.specs.Prelude.{◌≡◌, IfOk};
ghost use Rattle.vd_static_values.specs.Entries.{entry_at, value_shape as shape_of_values, signal_shape as shape_of_signals};
ghost use Rattle.vd_static_names.specs.Known.{early_value as value_early};

use std::alloc::{AllocError, Global};
use vd_composites::{Bounds, Value};
use vd_static_values::Ground;
use vd_value_rules::StaticSort;

/// The subtype of an object or a mark, or of a function's result, by its number in the store.
pub fn subtype_of(ground: &Ground<'_>, number: u32) -> u32
    ensures { result ≡ (entry_at ground.now.entries.now number).subtype }
{
    match ground.entries.get(number as usize) {
        Some(entry) => entry.subtype,
        None => 0,
    }
}

/// How static a value is, or of a function its calls.
pub fn known_of(ground: &Ground<'_>, number: u32) -> StaticSort
    ensures { result ≡ (entry_at ground.now.entries.now number).known }
{
    match ground.entries.get(number as usize) {
        Some(entry) => entry.known,
        None => StaticSort::never(),
    }
}

/// How static all bounds of a subtype are.
pub fn bounds_of(ground: &Ground<'_>, number: u32) -> StaticSort
    ensures { result ≡ (entry_at ground.now.entries.now number).bounds }
{
    match ground.entries.get(number as usize) {
        Some(entry) => entry.bounds,
        None => StaticSort::never(),
    }
}

/// The value of a constant, where it is locally static.
pub(crate) fn early_value(
    alloc: Global,
    ground: &Ground<'_>,
    number: u32,
) -> Result<Option<Value>, AllocError>
    ensures { IfOk result (λ v. v ≡ value_early (entry_at ground.now.entries.now number)) }
{
    match ground.entries.get(number as usize) {
        Some(entry) if entry.known.is_local => {
            let copy = entry.value.duplicate(alloc)?;
            Ok(Some(copy))
        }
        _ => Ok(None),
    }
}

/// The bounds of an array that isn't a signal.
pub(crate) fn value_shape(ground: &Ground<'_>, number: u32) -> Option<Bounds>
    ensures { let x = entry_at ground.now.entries.now number in result ≡ shape_of_values x.is_signal x.shape }
{
    let entry = ground.entries.get(number as usize)?;
    if entry.is_signal { None } else { entry.shape }
}

/// The bounds of a signal that is an array.
pub(crate) fn signal_shape(ground: &Ground<'_>, number: u32) -> Option<Bounds>
    ensures { let x = entry_at ground.now.entries.now number in result ≡ shape_of_signals x.is_signal x.shape }
{
    let entry = ground.entries.get(number as usize)?;
    if entry.is_signal { entry.shape } else { None }
}
