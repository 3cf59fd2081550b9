//! Processes, which run until they suspend.

ghost use Rattle.std.specs.Prelude.{◌≡◌, IfOk};
ghost use Rattle.vd_kernel.specs.Models.{Cause, View, Turn};
ghost use Rattle.vd_simulation.specs.Turns.{cause_of, turn_of, view_of};

use std::alloc::{AllocError, Global};
use vd_kernel::{Assignment, SignalId};
use vd_trees::Report;
use vd_values::{Scalar, StopKind};

/// Why a process runs: initialisation; or else whether a signal that it waits for has an event, and whether its timeout is due.
#[derive(Clone, Copy, PartialEq, Eq, Debug)]
pub enum Cause {
    Start,
    Wake { event: bool, due: bool },
}

/// What all processes see in one simulation cycle.
#[derive(Drop)]
pub struct Seen {
    /// In femtoseconds.
    pub time: u64,
    /// The effective value of each signal, which it shows too.
    pub values: Vec<Scalar>,
    /// The effective value before this cycle, of those signals alone that have an event in it.
    pub before: Vec<Option<Scalar>>,
}

impl Seen {
    /// The effective value of a signal, which it shows too.
    pub fn value(&self, signal: SignalId) -> Scalar
        ensures effective { result ≡ (view_of self.now).value signal }
        ensures shown { result ≡ (view_of self.now).shown signal }
    {
        let i = signal.number();
        if i < self.values.len() {
            self.values[i]
        } else {
            Scalar::Literal(0)
        }
    }

    /// The effective value before this cycle, where the signal has an event in it.
    pub fn before(&self, signal: SignalId) -> Option<Scalar>
        ensures { result ≡ (view_of self.now).before signal }
    {
        let i = signal.number();
        if i < self.before.len() {
            self.before[i]
        } else {
            None
        }
    }
}

/// How a process leaves a run of its statements: it suspends, until one of these signals has an event or this time has come, or
/// something stops the simulation.
#[derive(Drop)]
pub enum Ending {
    Waits(Vec<SignalId>, Option<u64>),
    Stops(StopKind),
}

/// All that a process does between its resumption and its next suspension.
#[derive(Drop)]
pub struct Turn {
    pub assignments: Vec<Assignment>,
    pub reports: Vec<Report>,
    pub ending: Ending,
}

/// A process of a language.
pub trait Process {
    ghost State: { Type 0 };

    ghost state: { Self → State };

    ghost step: { State → Cause → View → Turn State };

    /// Runs until it suspends.
    fn resume(&mut self, alloc: Global, cause: Cause, seen: &Seen) -> Result<Turn, AllocError>
        ensures { IfOk result (λ t. turn_of (state self.new) t ≡ step (state self.old) (cause_of cause) (view_of seen.now)) };
}
