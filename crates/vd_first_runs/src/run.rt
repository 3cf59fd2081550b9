//! A run of an elaborated design.

ghost use Rattle.std.specs.Prelude.{◌≡◌, ◌+◌, ◌^◌, ◌<◌, ◌≤◌, [], length, replicate, Ok, Err, Some, None, IfOk, OnOk, slice_get};
ghost use Rattle.vd_simulation.specs.declared.ends.SimulationEnd.{SimulationEnd as EndValue};
ghost use Rattle.vd_kernel.specs.Cycles.{State, next_time, initialised, cycle};
ghost use Rattle.vd_kernel.specs.Orders.{shape_of, IsRingFree};
ghost use Rattle.vd_kernel.specs.SignalValues.{nothing_given};
ghost use Rattle.vd_simulation.specs.Simulations.{state_of};
ghost use Rattle.vd_first_elaboration.specs.Tops.{TopUnits};
ghost use Rattle.vd_first_elaboration.specs.Processes.{Process as ProcessValue};
ghost use Rattle.vd_first_elaboration.specs.Elaboration.{Elaborated};
ghost use Rattle.vd_first_elaboration.specs.Traces.{no_scope, scope_or_none, last_text, stop_text};
ghost use Rattle.vd_first_runs.specs.Designs.{elaborated_of, IsDesignOf};
ghost use Rattle.vd_first_processes.specs.Resolved.{itself};
ghost use Rattle.vd_first_runs.specs.Runs.{IsAt, HasCome, stop_told, IsEndAnswer, AnswersCycle};

use crate::elaboration::ResolvedDesign;
use crate::places::scope;
use std::alloc::{AllocError, Global};
use std::marker::Model;
use vd_bytes::Text;
use vd_first_processes::processes::ResolvedProcess;
use vd_kernel::SignalId;
use vd_simulation::{ProcessStop, Simulation, SimulationEnd};
use vd_trees::{Cycle, CycleEnd, Labels, Levels, Path, Report, Scope, Stop};
use vd_values::{Scalar, StopKind};

/// A run: the paths of the signals, the names of the top's units, how many processes there are, and their simulation.
#[derive(Drop)]
pub struct Run {
    alloc: Global,
    paths: Vec<Path>,
    entity: Text,
    architecture: Text,
    process_count: usize,
    simulation: Simulation<ResolvedProcess>,
}

impl Model for Run {
    ghost use Rattle.std.specs.Prelude.{◌≡◌, length};
    ghost use Rattle.vd_first_runs.specs.Places.{scope_at};
    ghost use Rattle.vd_first_runs.specs.Runs.{Running};

    ghost Value = { Running };

    ghost view = { λ a. record { paths = a.paths.items; scope = scope_at a.entity a.architecture; process_count = a.process_count; simulation = a.simulation } };

    ghost invariant = { λ a. length a.paths.items ≡ length a.simulation.net.signals };
}

// The last report's text, or an empty one.
fn last_text(alloc: Global, reports: &[Report]) -> Result<Text, AllocError>
    ensures { IfOk result (λ text. text ≡ last_text [] reports.now) }
{
    let n = reports.len();
    if n == 0 {
        return Text::from_slice(alloc, b"");
    }
    Text::from_slice(alloc, reports[n - 1].text.as_slice())
}

fn text_of_stop(alloc: Global, kind: StopKind, reports: &[Report]) -> Result<Text, AllocError>
    ensures { IfOk result (λ text. text ≡ stop_text kind reports.now) }
{
    match kind {
        StopKind::Failure => last_text(alloc, reports),
        _ => Text::from_slice(alloc, b""),
    }
}

fn no_scope(alloc: Global) -> Result<Scope, AllocError>
    ensures { IfOk result (λ scope. scope ≡ no_scope) }
{
    Ok(Scope {
        levels: Levels::of(Vec::new(alloc)),
        generates: Labels::of(Vec::new(alloc)),
        unit: Text::from_slice(alloc, b"")?,
    })
}

impl Run {
    /// The run of a design, after its initialisation.
    pub fn new(alloc: Global, design: ResolvedDesign) -> Result<Run, AllocError>
        requires ring_free { IsRingFree (shape_of design.shape.scalars.items) }
        requires paths { length design.paths.items ≡ length design.shape.scalars.items }
        ensures come { IfOk result (λ run. (u : TopUnits) → IsDesignOf u design
            → HasCome (elaborated_of u) run (initialised (elaborated_of u).model nothing_given)) }
        ensures going { IfOk result (λ run. (u : TopUnits) → IsDesignOf u design → run.simulation.end ≡ None) }
        ensures delta { IfOk result (λ run. run.simulation.delta ≡ 0) }
    {
        let ResolvedDesign {
            paths,
            entity,
            architecture,
            shape,
            processes,
        } = design;
        let process_count = processes.len();
        let simulation = Simulation::new(alloc, &shape, processes)?;
        Ok(Run {
            alloc,
            paths,
            entity,
            architecture,
            process_count,
            simulation,
        })
    }

    /// How many scalar signals there are.
    pub fn signal_count(&self) -> usize
        ensures { result ≡ length self.now.paths }
    {
        self.paths.len()
    }

    /// The paths of the scalar signals, in their order.
    pub fn paths(&self) -> &[Path]
        ensures { result.now ≡ self.now.paths }
    {
        &self.paths
    }

    /// The path of a scalar signal.
    pub fn path(&self, i: usize) -> &Path
        requires { i < length self.now.paths }
        ensures { slice_get self.now.paths i ≡ Some result.now }
    {
        &self.paths[i]
    }

    /// What a scalar signal shows.
    pub fn shown(&self, i: usize) -> Scalar
        requires { i < length self.now.paths }
        ensures { result ≡ (state_of itself self.now.simulation).view.shown i }
    {
        self.simulation.shown(SignalId::of(i))
    }

    /// The time of the last step, in femtoseconds.
    pub fn time(&self) -> u64
        ensures { result ≡ self.now.simulation.time }
    {
        self.simulation.time()
    }

    /// The number of that step's delta cycle.
    pub fn delta(&self) -> u32
        ensures { result ≡ self.now.simulation.delta }
    {
        self.simulation.delta()
    }

    /// The reports of that step, in order.
    pub fn reports(&self) -> &[Report]
        ensures { result.now ≡ self.now.simulation.reports }
    {
        self.simulation.reports()
    }

    /// The time of the earliest transaction or timeout.
    pub fn next_time(&self) -> Option<u64>
        ensures { result ≡ next_time (state_of itself self.now.simulation) }
    {
        self.simulation.next_time()
    }

    // Where a process stands.
    fn scope_of(&self, process: usize) -> Result<Scope, AllocError>
        ensures { IfOk result (λ scope. scope ≡ scope_or_none (slice_get (replicate self.now.process_count self.now.scope) process)) }
    {
        if process < self.process_count {
            scope(
                self.alloc,
                self.entity.as_slice(),
                self.architecture.as_slice(),
            )
        } else {
            no_scope(self.alloc)
        }
    }

    // What it has stopped by.
    fn stop(&self, stop: ProcessStop) -> Result<Stop, AllocError>
        ensures { IfOk result (λ told. told ≡ stop_told self.now stop) }
    {
        let scope = self.scope_of(stop.process)?;
        let text = text_of_stop(self.alloc, stop.kind, self.simulation.reports())?;
        Ok(Stop {
            kind: stop.kind,
            time: self.simulation.time(),
            delta: self.simulation.delta(),
            scope,
            text,
        })
    }

    // How it tells that it has ended.
    fn tell(&self, end: SimulationEnd) -> CycleEnd
        ensures { IsEndAnswer self.now end (Err result) }
    {
        match end {
            SimulationEnd::Stop(stop) => {
                match self.stop(stop) {
                    Ok(stop) => CycleEnd::Stop(stop),
                    Err(_) => CycleEnd::Memory,
                }
            }
            SimulationEnd::Memory => CycleEnd::Memory,
        }
    }

    /// The next cycle, if something is left to come. A run that has ended answers its end again, or that memory ran out.
    pub fn cycle(&mut self) -> Result<Cycle, CycleEnd>
        requires { self.old.simulation.delta + 1 < 2 ^ 32 }
        ensures ended { (end : EndValue) → self.old.simulation.end ≡ Some end → IsEndAnswer self.old end result × (self.new ≡ self.old) }
        ensures quiet { result ≡ Ok Cycle.Quiet → self.new ≡ self.old }
        ensures going { OnOk result (self.new.simulation.end ≡ None) }
        ensures paths { self.new.paths ≡ self.old.paths }
        ensures delta { self.new.simulation.delta ≤ self.old.simulation.delta + 1 }
        ensures step { self.old.simulation.end ≡ None → (e : Elaborated) (t : State ProcessValue) → IsAt e self.old t
            → AnswersCycle e (cycle e.model nothing_given t) (next_time t) result self.new }
    {
        match self.simulation.cycle() {
            Ok(step) => Ok(step),
            Err(end) => Err(self.tell(end)),
        }
    }
}
