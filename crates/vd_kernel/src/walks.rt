//! What goes through all drivers.

ghost use Rattle.std.specs.Prelude.{◌≡◌, map, nat_le, flat_map};
ghost use Rattle.std.specs.List.{list_any};
ghost use Rattle.vd_kernel.specs.Drivers.{advanced};
ghost use Rattle.vd_kernel.specs.Cycles.{times, least};
ghost use Rattle.vd_kernel.specs.Simulated.{earlier_of};

use crate::driver_list::DriverList;

/// Gives each driver the value that it has at this time.
pub fn update_all(drivers: &mut [DriverList], time: u64)
    ensures { drivers.new ≡ map (advanced time) drivers.old }
{
    for i in 0..drivers.len() {
        drivers[i].update(time);
    }
}

/// Whether one of them has a transaction that is due.
pub fn any_is_due(drivers: &[DriverList], time: u64) -> bool
    ensures { result ≡ list_any (λ d. list_any (λ t. nat_le t.time time) d.waiting) drivers.now }
{
    for driver in drivers {
        if driver.is_due(time) {
            return true;
        }
    }
    false
}

fn earlier(first: Option<u64>, second: Option<u64>) -> Option<u64>
    ensures { result ≡ earlier_of first second }
{
    match (first, second) {
        (Some(t), Some(u)) => Some(t.min(u)),
        (Some(t), None) => Some(t),
        (None, u) => u,
    }
}

/// The time of the earliest transaction of them.
pub fn earliest_time(drivers: &[DriverList]) -> Option<u64>
    ensures { result ≡ least (flat_map times drivers.now) }
{
    let mut earliest = None;
    for driver in drivers {
        earliest = earlier(earliest, driver.next_time());
    }
    earliest
}
