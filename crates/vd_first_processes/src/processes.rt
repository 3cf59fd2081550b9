//! Processes whose names are resolved.

ghost use Rattle.std.specs.Prelude.{◌≡◌, map, IfOk};
ghost use Rattle.vd_simulation.specs.Turns.{view_of};
ghost use Rattle.vd_first_processes.specs.Resolved.{assigned};

use crate::evaluation::evaluate;
use crate::expressions::Operation;
use std::alloc::{AllocError, Global};
use std::marker::Model;
use vd_kernel::{Assignment, Delay, DriverId, SignalId, Transaction};
use vd_simulation::{Cause, Ending, Process, Seen, Turn};

/// An assignment: its driver, and its value in postfix form.
#[derive(Drop)]
pub struct ResolvedAssignment {
    pub driver: DriverId,
    pub value: Vec<Operation>,
}

impl Model for ResolvedAssignment {
    ghost use Rattle.vd_first_processes.specs.Resolved as specs;

    ghost Value = { specs.ResolvedAssignment };

    ghost view = { λ a. record { driver = a.driver; value = a.value.items } };
}

/// A process: its assignments, and the signals that it is sensitive to.
#[derive(Drop)]
pub struct ResolvedProcess {
    pub assignments: Vec<ResolvedAssignment>,
    pub on: Vec<SignalId>,
}

impl Model for ResolvedProcess {
    ghost use Rattle.vd_first_processes.specs.Resolved.{Resolved};

    ghost Value = { Resolved };

    ghost view = { λ a. record { assignments = a.assignments.items; on = a.on.items } };
}

// The assignments of a turn, in order.
fn assign_all(
    alloc: Global,
    assignments: &[ResolvedAssignment],
    seen: &Seen,
) -> Result<Vec<Assignment>, AllocError>
    ensures { IfOk result (λ v. v.items ≡ map (assigned (view_of seen.now)) assignments.now) }
{
    let mut made = Vec::new(alloc);
    let mut stack = Vec::new(alloc);
    for assignment in assignments {
        let value = evaluate(&mut stack, &assignment.value, seen)?;
        made.push(Assignment {
            driver: assignment.driver,
            delay: Delay::Inertial,
            new: Transaction {
                time: seen.time,
                value,
            },
        })?;
    }
    Ok(made)
}

impl Process for ResolvedProcess {
    ghost use Rattle.vd_first_processes.specs.Resolved.{Resolved, step};
    ghost use Rattle.vd_first_processes.specs.Resolved.{itself};

    ghost State = { Resolved };

    ghost state = { itself };

    ghost step = { step };

    fn resume(&mut self, alloc: Global, _cause: Cause, seen: &Seen) -> Result<Turn, AllocError> {
        let assignments = assign_all(alloc, &self.assignments, seen)?;
        let on = Vec::from_slice(alloc, &self.on)?;
        Ok(Turn {
            assignments,
            reports: Vec::new(alloc),
            ending: Ending::Waits(on, None),
        })
    }
}
