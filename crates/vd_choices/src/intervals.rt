//! IEEE 1076, choices of a scalar type: which values they give, and which of them gives a value again.

ghost use Rattle.std.specs.Prelude.{◌≡◌, ◌<◌, ◌↔◌, IsTrue, IfOk, IfSome, length, IsNone, IsPermutation};
ghost use Rattle.std.specs.List.Sorted.{IsNonDecreasingBy};
ghost use Rattle.vd_choices.specs.Intervals.{IsCovered, IsFirstRepeated, IsRepeated, Share};

use std::alloc::{AllocError, Global};

/// The values from `low` to `high`, both taken along; none where `high` is less.
#[derive(Clone, Copy, Debug, PartialEq, Eq)]
pub struct Interval {
    pub low: u64,
    pub high: u64,
}

/// Whether each value of `within` is in some choice.
pub fn covers(alloc: Global, within: Interval, choices: &[Interval]) -> Result<bool, AllocError>
    ensures { IfOk result (λ answer. IsTrue answer ↔ IsCovered within choices.now) }
{
    let sorted = in_order(alloc, choices)?;
    Ok(covers_in_order(within, &sorted))
}

/// Whether some value is in two choices.
pub fn is_repeated(alloc: Global, choices: &[Interval]) -> Result<bool, AllocError>
    ensures { IfOk result (λ answer. IsTrue answer ↔ IsRepeated choices.now) }
{
    let sorted = in_order(alloc, choices)?;
    Ok(is_repeated_in_order(&sorted))
}

/// The choices in the order of their least values.
fn in_order(alloc: Global, choices: &[Interval]) -> Result<Vec<Interval>, AllocError>
    ensures moved { IfOk result (λ sorted. IsPermutation choices.now sorted.items) }
    ensures sorted { IfOk result (λ sorted. IsNonDecreasingBy (λ choice. choice.low) sorted.items) }
{
    let mut sorted = Vec::from_slice(alloc, choices)?;
    sorted.sort_by_key(|choice| choice.low)?;
    Ok(sorted)
}

/// Whether choices in the order of their least values give each value of `within`: a sweep, in which `next` is the least value of
/// `within` that is not yet seen to be given.
fn covers_in_order(within: Interval, sorted: &[Interval]) -> bool
    requires { IsNonDecreasingBy (λ choice. choice.low) sorted.now }
    ensures { IsTrue result ↔ IsCovered within sorted.now }
{
    if within.high < within.low {
        return true;
    }
    let mut next = within.low;
    for choice in sorted {
        if next < choice.low {
            return false;
        }
        if next <= choice.high {
            if within.high <= choice.high {
                return true;
            }
            next = choice.high + 1;
        }
    }
    false
}

/// Whether two choices have a value in common.
fn share(a: Interval, b: Interval) -> bool
    ensures { IsTrue result ↔ Share a b }
{
    a.low.max(b.low) <= a.high.min(b.high)
}

/// Whether choices in the order of their least values repeat a value. Where none did so far, the last one that isn't null reaches
/// furthest.
fn is_repeated_in_order(sorted: &[Interval]) -> bool
    requires { IsNonDecreasingBy (λ choice. choice.low) sorted.now }
    ensures { IsTrue result ↔ IsRepeated sorted.now }
{
    let mut last = Interval { low: 1, high: 0 };
    for choice in sorted {
        if share(last, *choice) {
            return true;
        }
        if choice.low <= choice.high {
            last = *choice;
        }
    }
    false
}

/// The first choice, in the order of the text, that has a value of an earlier one. Where there is one, it is found by halving: the
/// choices up to some place repeat a value from the wanted one on.
pub fn first_repeated(alloc: Global, choices: &[Interval]) -> Result<Option<usize>, AllocError>
    ensures within { IfOk result (λ found. IfSome found (λ k. k < length choices.now)) }
    ensures first { IfOk result (λ found. IfSome found (λ k. IsFirstRepeated choices.now k)) }
    ensures none { IfOk result (λ found. IsNone found ↔ (¬ IsRepeated choices.now)) }
{
    if !is_repeated(alloc, choices)? {
        return Ok(None);
    }
    let mut free = 0;
    let mut bound = choices.len();
    while free + 1 < bound {
        let middle = free + (bound - free) / 2;
        if is_repeated(alloc, &choices[..middle])? {
            bound = middle;
        } else {
            free = middle;
        }
    }
    Ok(Some(free))
}
