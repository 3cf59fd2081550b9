//! Numbers.

ghost use Rattle.std.specs.Prelude.{◌≡◌, ◌↔◌, ◌==◌, ℕ, OnOk, IfOk};
ghost use Rattle.std.specs.List.{list_all, list_any, Contains};
ghost use Rattle.std.specs.List.Sorted.{IsStrictlyIncreasing};

use std::alloc::AllocError;

/// A number that fits, unless there is no more room.
pub fn narrow(number: usize) -> Result<u32, AllocError>
    ensures { IfOk result (λ n. n ≡ number) }
{
    match u32::try_from(number) {
        Ok(number) => Ok(number),
        Err(_) => Err(AllocError),
    }
}

/// Whether one of these is a number.
pub fn has(some: &[u32], number: u32) -> bool
    ensures { result ≡ list_any (λ k. k == number) some.now }
{
    for one in some {
        if *one == number {
            return true;
        }
    }
    false
}

/// Whether each of these is a number. Of different ones the second isn't, at the latest.
pub fn are_all(some: &[u32], number: u32) -> bool
    ensures { result ≡ list_all (λ k. k == number) some.now }
{
    for one in some {
        if *one != number {
            return false;
        }
    }
    true
}

/// The numbers from the least to the greatest, each once.
pub fn put_in_order(found: &mut Vec<u32>) -> Result<(), AllocError>
    ensures ascending { OnOk result (IsStrictlyIncreasing found.new.items) }
    ensures same { OnOk result ((k : ℕ) → Contains found.new.items k ↔ Contains found.old.items k) }
{
    found.sort()?;
    found.dedup();
    Ok(())
}
