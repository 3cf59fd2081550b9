//! Runs of designs of both revisions.

ghost use Rattle.std.specs.Prelude.{◌≡◌, ◌+◌, ◌^◌, ◌<◌, ◌≤◌, length, Ok, Some, None, IfOk, IfErr, OnOk, IsSome, slice_get};
ghost use Rattle.vd_kernel.specs.Cycles.{State, next_time, cycle};
ghost use Rattle.vd_kernel.specs.SignalValues.{nothing_given};
ghost use Rattle.vd_simulation.specs.declared.ends.SimulationEnd.{SimulationEnd as EndValue};
ghost use Rattle.vd_simulation.specs.Simulations.{state_of};
ghost use Rattle.vd_first_elaboration.specs.Processes.{Process as ProcessValue};
ghost use Rattle.vd_first_elaboration.specs.Elaboration.{Elaborated, elaboration};
ghost use Rattle.vd_first_runs.specs.Elaborations.{EndsElaboration};
ghost use Rattle.vd_first_processes.specs.Resolved.{itself};
ghost use Rattle.vd_first_runs.specs.Runs.{IsAt, IsStarted, IsEndAnswer, AnswersCycle};

use crate::elaboration::elaborate;
use crate::run::Run;
use crate::tops::Top;
use std::alloc::Global;
use std::marker::Model;
use vd_first_trees::{Design19, Design93};
use vd_trees::{Cycle, CycleEnd, Path, Report, RunEnd};
use vd_values::Scalar;

/// A run of a design of revision 2019.
#[derive(Drop)]
pub struct Run19 {
    run: Run,
}

impl Model for Run19 {
    ghost use Rattle.vd_first_runs.specs.Runs.{Running};

    ghost Value = { Running };

    ghost view = { λ a. a.run };
}

impl Run19 {
    /// The run as it is, whatever its revision.
    pub fn into_run(self) -> Run
        ensures { result ≡ self }
    {
        self.run
    }

    /// How many scalar signals there are.
    pub fn signal_count(&self) -> usize
        ensures { result ≡ length self.now.paths }
    {
        self.run.signal_count()
    }

    /// The path of a scalar signal.
    pub fn path(&self, i: usize) -> &Path
        requires { i < length self.now.paths }
        ensures { slice_get self.now.paths i ≡ Some result.now }
    {
        self.run.path(i)
    }

    /// What a scalar signal shows.
    pub fn shown(&self, i: usize) -> Scalar
        requires { i < length self.now.paths }
        ensures { result ≡ (state_of itself self.now.simulation).view.shown i }
    {
        self.run.shown(i)
    }

    /// The time of the last step, in femtoseconds.
    pub fn time(&self) -> u64
        ensures { result ≡ self.now.simulation.time }
    {
        self.run.time()
    }

    /// The number of that step's delta cycle.
    pub fn delta(&self) -> u32
        ensures { result ≡ self.now.simulation.delta }
    {
        self.run.delta()
    }

    /// The reports of that step, in order.
    pub fn reports(&self) -> &[Report]
        ensures { result.now ≡ self.now.simulation.reports }
    {
        self.run.reports()
    }

    /// The time of the earliest transaction or timeout.
    pub fn next_time(&self) -> Option<u64>
        ensures { result ≡ next_time (state_of itself self.now.simulation) }
    {
        self.run.next_time()
    }

    /// The next cycle, if something is left to come. A run that has ended answers its end again, or that memory ran out.
    pub fn cycle(&mut self) -> Result<Cycle, CycleEnd>
        requires { self.old.simulation.delta + 1 < 2 ^ 32 }
        ensures ended { (end : EndValue) → self.old.simulation.end ≡ Some end → IsEndAnswer self.old end result × (self.new ≡ self.old) }
        ensures quiet { result ≡ Ok Cycle.Quiet → self.new ≡ self.old }
        ensures going { OnOk result (self.new.simulation.end ≡ None) }
        ensures paths { self.new.paths ≡ self.old.paths }
        ensures delta { self.new.simulation.delta ≤ self.old.simulation.delta + 1 }
        ensures step { self.old.simulation.end ≡ None → (e : Elaborated) (t : State ProcessValue) → IsAt e self.old t
            → AnswersCycle e (cycle e.model nothing_given t) (next_time t) result self.new }
    {
        self.run.cycle()
    }
}

/// The run of a top of a design, after its initialisation.
pub fn elaborate19(alloc: Global, design: &Design19, top: &Top) -> Result<Run19, RunEnd>
    requires top { IsSome (elaboration design.now top.now) }
    ensures run { IfOk result (λ run. (e : Elaborated) → elaboration design.now top.now ≡ Some e → IsStarted e run) }
    ensures going { IfOk result (λ run. run.simulation.end ≡ None) }
    ensures delta { IfOk result (λ run. run.simulation.delta ≡ 0) }
    ensures ends { IfErr result (λ end. (e : Elaborated) → elaboration design.now top.now ≡ Some e → EndsElaboration e end) }
{
    let run = elaborate(alloc, &design.units(), top)?;
    Ok(Run19 { run })
}

/// A run of a design of revision 1993.
#[derive(Drop)]
pub struct Run93 {
    run: Run,
}

impl Model for Run93 {
    ghost use Rattle.vd_first_runs.specs.Runs.{Running};

    ghost Value = { Running };

    ghost view = { λ a. a.run };
}

impl Run93 {
    /// The run as it is, whatever its revision.
    pub fn into_run(self) -> Run
        ensures { result ≡ self }
    {
        self.run
    }

    /// How many scalar signals there are.
    pub fn signal_count(&self) -> usize
        ensures { result ≡ length self.now.paths }
    {
        self.run.signal_count()
    }

    /// The path of a scalar signal.
    pub fn path(&self, i: usize) -> &Path
        requires { i < length self.now.paths }
        ensures { slice_get self.now.paths i ≡ Some result.now }
    {
        self.run.path(i)
    }

    /// What a scalar signal shows.
    pub fn shown(&self, i: usize) -> Scalar
        requires { i < length self.now.paths }
        ensures { result ≡ (state_of itself self.now.simulation).view.shown i }
    {
        self.run.shown(i)
    }

    /// The time of the last step, in femtoseconds.
    pub fn time(&self) -> u64
        ensures { result ≡ self.now.simulation.time }
    {
        self.run.time()
    }

    /// The number of that step's delta cycle.
    pub fn delta(&self) -> u32
        ensures { result ≡ self.now.simulation.delta }
    {
        self.run.delta()
    }

    /// The reports of that step, in order.
    pub fn reports(&self) -> &[Report]
        ensures { result.now ≡ self.now.simulation.reports }
    {
        self.run.reports()
    }

    /// The time of the earliest transaction or timeout.
    pub fn next_time(&self) -> Option<u64>
        ensures { result ≡ next_time (state_of itself self.now.simulation) }
    {
        self.run.next_time()
    }

    /// The next cycle, if something is left to come. A run that has ended answers its end again, or that memory ran out.
    pub fn cycle(&mut self) -> Result<Cycle, CycleEnd>
        requires { self.old.simulation.delta + 1 < 2 ^ 32 }
        ensures ended { (end : EndValue) → self.old.simulation.end ≡ Some end → IsEndAnswer self.old end result × (self.new ≡ self.old) }
        ensures quiet { result ≡ Ok Cycle.Quiet → self.new ≡ self.old }
        ensures going { OnOk result (self.new.simulation.end ≡ None) }
        ensures paths { self.new.paths ≡ self.old.paths }
        ensures delta { self.new.simulation.delta ≤ self.old.simulation.delta + 1 }
        ensures step { self.old.simulation.end ≡ None → (e : Elaborated) (t : State ProcessValue) → IsAt e self.old t
            → AnswersCycle e (cycle e.model nothing_given t) (next_time t) result self.new }
    {
        self.run.cycle()
    }
}

/// The run of a top of a design, after its initialisation.
pub fn elaborate93(alloc: Global, design: &Design93, top: &Top) -> Result<Run93, RunEnd>
    requires top { IsSome (elaboration design.now top.now) }
    ensures run { IfOk result (λ run. (e : Elaborated) → elaboration design.now top.now ≡ Some e → IsStarted e run) }
    ensures going { IfOk result (λ run. run.simulation.end ≡ None) }
    ensures delta { IfOk result (λ run. run.simulation.delta ≡ 0) }
    ensures ends { IfErr result (λ end. (e : Elaborated) → elaboration design.now top.now ≡ Some e → EndsElaboration e end) }
{
    let run = elaborate(alloc, &design.units(), top)?;
    Ok(Run93 { run })
}
