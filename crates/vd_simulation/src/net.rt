//! The signals and drivers of a design under way.

ghost use Rattle.std.specs.Prelude.{◌≡◌, ℕ, length, map, flat_map, IfOk, OnOk};
ghost use Rattle.vd_kernel.specs.Drivers.{advanced, after_assignment, after_assignments};
ghost use Rattle.vd_kernel.specs.Cycles.{times, least};
ghost use Rattle.vd_kernel.specs.Orders.{shape_of, IsRingFree};
ghost use Rattle.vd_kernel.specs.Simulated.{effective_of, idle};
ghost use Rattle.vd_kernel.specs.SignalValues.{Hold};

use std::alloc::{AllocError, Global};
use std::marker::Model;
use vd_kernel::{Assignment, Delay, Drivers, Shape, SignalId};
use vd_values::Scalar;

/// The signals and drivers of a design under way, and how many there are.
#[derive(Drop)]
pub struct Net {
    drivers: Drivers,
    signal_count: usize,
    driver_count: usize,
}

impl Model for Net {
    ghost use Rattle.vd_kernel.specs.Simulated.{Simulated};
    ghost use Rattle.vd_simulation.specs.Designs.{AreCounted};

    ghost Value = { Simulated };

    ghost view = { λ n. n.drivers };

    ghost invariant = { λ n. AreCounted n.drivers n.signal_count n.driver_count };
}

impl Net {
    /// A design in the beginning.
    pub fn new(alloc: Global, shape: &Shape) -> Result<Net, AllocError>
        requires { IsRingFree (shape_of shape.now.scalars.items) }
        ensures signals { IfOk result (λ n. n.signals ≡ shape.now.scalars.items) }
        ensures drivers { IfOk result (λ n. n.drivers ≡ map idle shape.now.drivers.items) }
    {
        let drivers = Drivers::new(alloc, shape)?;
        Ok(Net {
            drivers,
            signal_count: shape.scalars.len(),
            driver_count: shape.drivers.len(),
        })
    }

    /// Gives each driver and each signal the value that it has at this time.
    pub fn update(&mut self, time: u64)
        ensures signals { self.new.signals ≡ self.old.signals }
        ensures drivers { self.new.drivers ≡ map (advanced time) self.old.drivers }
    {
        self.drivers.update(time);
    }

    /// The time of the earliest transaction of all drivers.
    pub fn next_time(&self) -> Option<u64>
        ensures { result ≡ least (flat_map times self.now.drivers) }
    {
        self.drivers.next_time()
    }

    // Takes one assignment. There is no driver past the last.
    fn assign(&mut self, assignment: Assignment) -> Result<(), AllocError>
        ensures signals { self.new.signals ≡ self.old.signals }
        ensures drivers { OnOk result (self.new.drivers ≡ after_assignment self.old.drivers assignment) }
    {
        if assignment.driver.number() < self.driver_count {
            self.drivers.assign(
                assignment.driver,
                assignment.new.value,
                assignment.new.time,
                0,
                assignment.delay == Delay::Transport,
            )?;
        }
        Ok(())
    }

    /// Takes assignments, one after another.
    pub fn assign_all(&mut self, assignments: &[Assignment]) -> Result<(), AllocError>
        ensures signals { self.new.signals ≡ self.old.signals }
        ensures drivers { OnOk result (self.new.drivers ≡ after_assignments self.old.drivers assignments.now) }
    {
        for assignment in assignments {
            self.assign(*assignment)?;
        }
        Ok(())
    }

    /// The effective value of each signal.
    pub fn values(&self, alloc: Global) -> Result<Vec<Scalar>, AllocError>
        ensures long { IfOk result (λ v. length v.items ≡ length self.now.signals) }
        ensures values { IfOk result (λ v. Hold v.items (effective_of self.now)) }
    {
        effective_values(alloc, &self.drivers, self.signal_count)
    }
}

fn effective_values(
    alloc: Global,
    drivers: &Drivers,
    count: usize,
) -> Result<Vec<Scalar>, AllocError>
    requires { length drivers.now.signals ≡ count }
    ensures long { IfOk result (λ v. length v.items ≡ length drivers.now.signals) }
    ensures values { IfOk result (λ v. Hold v.items (effective_of drivers.now)) }
{
    let mut values = Vec::new(alloc);
    for i in 0..count {
        values.push(drivers.effective(SignalId::of(i)))?;
    }
    Ok(values)
}
