//! Lists by the numbers of declarations, which grow as numbers come.

ghost use Rattle.std.specs.Prelude.{◌≡◌, ◌<◌, ◌≤◌, IfOk, OnOk, vec_len, ℕ};
ghost use Rattle.vd_environments.specs.Environments.{with_entry};
ghost use Rattle.vd_known_designs.specs.Slots.{by_number};

use std::alloc::{AllocError, Global};
use std::mem;

/// What stands for a declaration of which nothing is known.
pub(crate) trait Unknown: Sized + Drop {
    ghost unknown: { Self };

    fn make(alloc: Global) -> Result<Self, AllocError>
        ensures { IfOk result (λ x. x ≡ unknown) };
}

/// A list that has a number.
fn lengthen<T: Unknown>(alloc: Global, items: &mut Vec<T>, number: u32) -> Result<(), AllocError>
    ensures within { OnOk result (number < vec_len items.new) }
    ensures longer { vec_len items.old ≤ vec_len items.new }
    ensures same { (m : ℕ) → by_number T.unknown items.new.items m ≡ by_number T.unknown items.old.items m }
{
    while items.len() <= number as usize {
        items.push(T::make(alloc)?)?;
    }
    Ok(())
}

/// An item at a number. It gives back what stood there.
pub(crate) fn put<T: Unknown>(
    alloc: Global,
    items: &mut Vec<T>,
    number: u32,
    item: T,
) -> Result<T, AllocError>
    ensures within { OnOk result (number < vec_len items.new) }
    ensures longer { vec_len items.old ≤ vec_len items.new }
    ensures replaced { IfOk result (λ x. x ≡ by_number T.unknown items.old.items number) }
    ensures items { OnOk result ((m : ℕ) →
        by_number T.unknown items.new.items m ≡ with_entry number item (by_number T.unknown items.old.items) m) }
{
    lengthen(alloc, items, number)?;
    Ok(mem::replace(&mut items[number as usize], item))
}

/// An item at a number that the list has.
pub(crate) fn put_back<T: Drop>(items: &mut Vec<T>, number: u32, item: T)
    ensures as_long { vec_len items.new ≡ vec_len items.old }
    ensures items { (unknown : T) (m : ℕ) → number < vec_len items.old →
        by_number unknown items.new.items m ≡ with_entry number item (by_number unknown items.old.items) m }
{
    if (number as usize) < items.len() {
        items[number as usize] = item;
    }
}
