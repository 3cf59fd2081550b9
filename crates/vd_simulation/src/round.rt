//! The turns of all processes in one step.

ghost use Rattle.std.specs.Prelude.{◌≡◌, [], map, IfOk};
ghost use Rattle.vd_kernel.specs.Cycles.{round};
ghost use Rattle.vd_simulation.specs.Turns.{cause_of, view_of};
ghost use Rattle.vd_simulation.specs.Rounds.{paused, turn_in, HasTaken, IsRound};

use crate::net::Net;
use crate::process::{Cause, Ending, Process, Seen, Turn};
use crate::views::{any_event, due_by};
use std::alloc::{AllocError, Global};
use vd_kernel::SignalId;
use vd_trees::Report;
use vd_values::StopKind;

/// A process that has suspended: the signals whose events it waits for, and the time at which its timeout is due.
#[derive(Drop)]
pub struct Waiting<P> {
    pub process: P,
    pub on: Vec<SignalId>,
    pub timeout: Option<u64>,
}

/// A stop of the simulation: its kind, and the number of the process that came to it.
#[derive(Clone, Copy, PartialEq, Eq, Debug)]
pub struct ProcessStop {
    pub kind: StopKind,
    pub process: usize,
}

// Runs a process for this cause: its assignments and reports, and what stopped it.
fn resume<P: Process>(
    alloc: Global,
    waiting: &mut Waiting<P>,
    net: &mut Net,
    reports: &mut Vec<Report>,
    cause: Cause,
    seen: &Seen,
) -> Result<Option<StopKind>, AllocError>
    ensures signals { net.new.signals ≡ net.old.signals }
    ensures turn { IfOk result (λ kind. HasTaken kind net.old.drivers net.new.drivers reports.old.items reports.new.items (paused P.state waiting.new)
        (P.step (P.state waiting.old.process) (cause_of cause) (view_of seen.now))) }
{
    let Turn {
        assignments,
        reports: mut more,
        ending,
    } = waiting.process.resume(alloc, cause, seen)?;
    net.assign_all(&assignments)?;
    reports.append(&mut more)?;
    match ending {
        Ending::Waits(on, timeout) => {
            waiting.on = on;
            waiting.timeout = timeout;
            Ok(None)
        }
        Ending::Stops(kind) => Ok(Some(kind)),
    }
}

// The turn of one process, which at initialisation each takes, and later those that have reason to.
fn take_turn<P: Process>(
    alloc: Global,
    waiting: &mut Waiting<P>,
    net: &mut Net,
    reports: &mut Vec<Report>,
    first: bool,
    seen: &Seen,
) -> Result<Option<StopKind>, AllocError>
    ensures signals { net.new.signals ≡ net.old.signals }
    ensures turn { IfOk result (λ kind. HasTaken kind net.old.drivers net.new.drivers reports.old.items reports.new.items (paused P.state waiting.new)
        (turn_in first P.step (view_of seen.now) (paused P.state waiting.old))) }
{
    if first {
        return resume(alloc, waiting, net, reports, Cause::Start, seen);
    }
    let event = any_event(seen, &waiting.on);
    let due = due_by(seen.time, waiting.timeout);
    if event || due {
        resume(
            alloc,
            waiting,
            net,
            reports,
            Cause::Wake { event, due },
            seen,
        )
    } else {
        Ok(None)
    }
}

/// The turns of all processes in order, up to the first stop.
pub fn take_turns<P: Process>(
    alloc: Global,
    processes: &mut [Waiting<P>],
    net: &mut Net,
    reports: &mut Vec<Report>,
    first: bool,
    seen: &Seen,
) -> Result<Option<ProcessStop>, AllocError>
    requires { reports.old.items ≡ [] }
    ensures signals { net.new.signals ≡ net.old.signals }
    ensures round { IfOk result (λ stop. IsRound stop net.new.drivers reports.new.items (map (paused P.state) processes.new)
        (round 0 (map (turn_in first P.step (view_of seen.now)) (map (paused P.state) processes.old)) net.old.drivers)) }
{
    for i in 0..processes.len() {
        if let Some(kind) = take_turn(alloc, &mut processes[i], net, reports, first, seen)? {
            return Ok(Some(ProcessStop { kind, process: i }));
        }
    }
    Ok(None)
}
