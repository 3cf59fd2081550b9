//! Tables by number: the modes of ports, and where views are found.

ghost use Rattle.std.specs.Prelude.{◌≡◌, IfOk, OnOk, ℕ, nat_eq};
ghost use Rattle.std.specs.HashMap.{get};
ghost use Rattle.vd_port_modes.specs.Tables.{copied_before, first_listed, found_before, found_in, own_before};

use crate::copies::Copies;
use crate::found::Found;
use std::alloc::{AllocError, Global};
use std::collections::HashMap;
use vd_port_lists::{ListedPort, ListedView, PortMode};

/// The modes of ports. The last is put first, so that the first counts.
pub(crate) fn modes_by_number(
    alloc: Global,
    ports: &[ListedPort],
) -> Result<HashMap<u32, PortMode>, AllocError>
    ensures { IfOk result (λ table. (n : ℕ) → get nat_eq table n ≡ first_listed ports.now n) }
{
    let mut table = HashMap::new(alloc);
    let mut left = ports.len();
    while left > 0 {
        left -= 1;
        let port = ports[left];
        table.insert(port.number.number(), port.mode)?;
    }
    Ok(table)
}

/// Puts the views that a design declares itself in front of what is there.
fn put_own(table: &mut HashMap<u32, Found>, views: &[ListedView]) -> Result<(), AllocError>
    ensures { OnOk result ((n : ℕ) → get nat_eq table.new n ≡ own_before 0 views.now n (get nat_eq table.old n)) }
{
    let mut left = views.len();
    while left > 0 {
        left -= 1;
        let found = Found {
            view: left,
            instance: None,
        };
        table.insert(views[left].view.number(), found)?;
    }
    Ok(())
}

/// Puts the copies of an instance in front of what is there.
fn put_copies(
    table: &mut HashMap<u32, Found>,
    views: &[ListedView],
    copies: &Copies,
    instance: usize,
) -> Result<(), AllocError>
    ensures { OnOk result ((n : ℕ) → get nat_eq table.new n ≡ copied_before instance copies.now 0 views.now n (get nat_eq table.old n)) }
{
    let mut left = views.len();
    while left > 0 {
        left -= 1;
        if let Some(copy) = copies.copy(views[left].view) {
            let found = Found {
                view: left,
                instance: Some(instance),
            };
            table.insert(copy, found)?;
        }
    }
    Ok(())
}

/// Where each view is found: among those that a design declares itself, or else in the first instance that has a copy.
pub(crate) fn views_by_number(
    alloc: Global,
    views: &[ListedView],
    copies: &[Copies],
) -> Result<HashMap<u32, Found>, AllocError>
    ensures { IfOk result (λ table. (n : ℕ) → get nat_eq table n ≡ found_in views.now copies.now n) }
{
    let mut table = HashMap::new(alloc);
    let mut left = copies.len();
    while left > 0 {
        left -= 1;
        put_copies(&mut table, views, &copies[left], left)?;
    }
    put_own(&mut table, views)?;
    Ok(table)
}
