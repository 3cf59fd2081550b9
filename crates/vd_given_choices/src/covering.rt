//! Whether choices give all values that they must take.

ghost use Rattle.std.specs.Prelude.{◌≡◌, ◌+ℤ◌, IfOk, pos};
ghost use Rattle.vd_given_choices.specs.Covering.{AreIntervals, IsInterval, middle};
ghost use Rattle.vd_value_rules.specs.Choices.{are_covered as all_given};

use crate::covering_ranges::{high, low};
use std::alloc::{AllocError, Global};
use vd_choices::{Interval, covers};
use vd_composites::Bounds;

/// A value, counted from the least one that there is.
pub fn counted(value: i64) -> u64
    ensures { pos result ≡ value +ℤ pos middle }
{
    (i128::from(value) + 9_223_372_036_854_775_808) as u64
}

/// The interval of the values of a range.
pub(crate) fn interval(bounds: Bounds) -> Interval
    ensures { IsInterval result bounds }
{
    Interval {
        low: counted(low(bounds)),
        high: counted(high(bounds)),
    }
}

/// The intervals of some ranges.
fn intervals(alloc: Global, bounds: &[Bounds]) -> Result<Vec<Interval>, AllocError>
    ensures { IfOk result (λ found. AreIntervals found.items bounds.now) }
{
    let mut found = Vec::with_capacity(alloc, bounds.len())?;
    for one in bounds {
        found.push(interval(*one))?;
    }
    Ok(found)
}

/// Whether ranges have each value of another one. The time is that of sorting them.
pub fn are_covered(alloc: Global, within: Bounds, bounds: &[Bounds]) -> Result<bool, AllocError>
    ensures { IfOk result (λ answer. answer ≡ all_given within bounds.now) }
{
    let given = intervals(alloc, bounds)?;
    covers(alloc, interval(within), &given)
}
