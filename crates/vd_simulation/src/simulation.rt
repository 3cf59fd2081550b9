//! The simulation of a design, step by step.

ghost use Rattle.std.specs.Prelude.{◌≡◌, ◌≢◌, ◌==◌, if◌then◌else◌, ℕ, ◌+◌, ◌^◌, ◌<◌, ◌≤◌, suc, List, [], length, map, IfOk, OnErr, Ok, Err, Some, None};
ghost use Rattle.vd_kernel.specs.Models.{Shape as DesignShape};
ghost use Rattle.vd_kernel.specs.Cycles.{next_time, initialised, cycle};
ghost use Rattle.vd_kernel.specs.Traces.{with_two, trace, trace_from};
ghost use Rattle.vd_kernel.specs.Orders.{shape_of, IsRingFree};
ghost use Rattle.vd_kernel.specs.SignalValues.{nothing_given};
ghost use Rattle.vd_simulation.specs.Designs.{IsDesign, IsGiven};
ghost use Rattle.vd_simulation.specs.TracedSteps.{from_step, IsTraceOn};
ghost use Rattle.vd_simulation.specs.Simulations.{state_of, modelled, stop_in, end_of, IsMoment, StaysAt, HasStepped, IsNextStep};

use crate::ends::SimulationEnd;
use crate::net::Net;
use crate::process::{Process, Seen};
use crate::round::{ProcessStop, Waiting, take_turns};
use crate::seen::{first_seen, next_seen};
use crate::timeouts::{beginning, earlier, earliest_timeout};
use std::alloc::{AllocError, Global};
use std::marker::Model;
use vd_kernel::{Shape, SignalId};
use vd_trees::{Cycle, Report};
use vd_values::Scalar;

/// A design under way, where the outside does nothing.
#[derive(Drop)]
pub struct Simulation<P> {
    alloc: Global,
    time: u64,
    delta: u32,
    net: Net,
    seen: Seen,
    processes: Vec<Waiting<P>>,
    reports: Vec<Report>,
    end: Option<SimulationEnd>,
}

impl<P> Model for Simulation<P> {
    ghost use Rattle.std.specs.Prelude.{◌≡◌, length};
    ghost use Rattle.vd_simulation.specs.Simulations.{Simulating};

    ghost Value = { Simulating P };

    ghost view = { λ s. record { time = s.time; delta = s.delta; net = s.net; seen = s.seen; processes = s.processes.items; reports = s.reports.items; end = s.end } };

    ghost invariant = { λ s. length s.seen.values.items ≡ length s.net.signals };
}

impl<P: Process + Drop> Simulation<P> {
    /// Initialisation: the first values, and a run of each process.
    pub fn new(alloc: Global, shape: &Shape, processes: Vec<P>) -> Result<Simulation<P>, AllocError>
        requires { IsRingFree (shape_of shape.now.scalars.items) }
        ensures signals { IfOk result (λ s. s.net.signals ≡ shape.now.scalars.items) }
        ensures delta { IfOk result (λ s. s.delta ≡ 0) }
        ensures end { IfOk result (λ s. s.end ≢ Some SimulationEnd.Memory) }
        ensures step { IfOk result (λ s. (m : DesignShape) → IsGiven m shape.now
            → IsMoment P.state (stop_in s.end) s (initialised (modelled m P.step (map P.state processes.items)) nothing_given)) }
        ensures trace { IfOk result (λ s. (m : DesignShape) → IsGiven m shape.now → with_two 0 m.signals ≡ None → (n : ℕ)
            → let design = modelled m P.step (map P.state processes.items) in trace design nothing_given n ≡ from_step P.state s (trace_from design nothing_given n)) }
    {
        let mut net = Net::new(alloc, shape)?;
        let seen = first_seen(alloc, &net)?;
        let mut waiting = beginning(alloc, processes)?;
        let mut reports = Vec::new(alloc);
        let stop = take_turns(alloc, &mut waiting, &mut net, &mut reports, true, &seen)?;
        Ok(Simulation {
            alloc,
            time: 0,
            delta: 0,
            net,
            seen,
            processes: waiting,
            reports,
            end: end_by(stop),
        })
    }

    /// The time of the step that it came to last, in femtoseconds.
    pub fn time(&self) -> u64
        ensures { result ≡ self.now.time }
    {
        self.time
    }

    /// The number of that step's delta cycle.
    pub fn delta(&self) -> u32
        ensures { result ≡ self.now.delta }
    {
        self.delta
    }

    /// The reports of that step, in order.
    pub fn reports(&self) -> &[Report]
        ensures { result.now ≡ self.now.reports }
    {
        &self.reports
    }

    /// Why it doesn't go on.
    pub fn end(&self) -> Option<SimulationEnd>
        ensures { result ≡ self.now.end }
    {
        self.end
    }

    /// What a signal shows in that step.
    pub fn shown(&self, signal: SignalId) -> Scalar
        requires { signal < length self.now.net.signals }
        ensures { result ≡ (state_of P.state self.now).view.shown signal }
    {
        self.seen.values[signal.number()]
    }

    /// The time of the earliest transaction or timeout.
    pub fn next_time(&self) -> Option<u64>
        ensures { result ≡ next_time (state_of P.state self.now) }
    {
        earlier(self.net.next_time(), earliest_timeout(&self.processes))
    }

    // A simulation cycle at this time: drivers, then signals, then processes.
    fn step(&mut self, now: u64) -> Result<Option<ProcessStop>, AllocError>
        requires { self.old.delta + 1 < 2 ^ 32 }
        ensures signals { self.new.net.signals ≡ self.old.net.signals }
        ensures delta { self.new.delta ≤ self.old.delta + 1 }
        ensures end { self.new.end ≡ self.old.end }
        ensures step { IfOk result (λ stop. (m : DesignShape) → IsDesign m self.old.net.signals
            → IsMoment P.state stop self.new (cycle (modelled m P.step []) nothing_given (state_of P.state self.old) now)) }
        ensures memory { OnErr result (StaysAt self.old self.new) }
    {
        self.net.update(now);
        let seen = next_seen(self.alloc, &self.net, now, &self.seen)?;
        let mut reports = Vec::new(self.alloc);
        let stop = take_turns(
            self.alloc,
            &mut self.processes,
            &mut self.net,
            &mut reports,
            false,
            &seen,
        )?;
        self.delta = next_delta(self.time, self.delta, now);
        self.time = now;
        self.seen = seen;
        self.reports = reports;
        Ok(stop)
    }

    // The cycle at this time, and how it ends.
    fn go_to(&mut self, now: u64)
        requires going { self.old.end ≡ None }
        requires delta { self.old.delta + 1 < 2 ^ 32 }
        ensures signals { self.new.net.signals ≡ self.old.net.signals }
        ensures delta { self.new.delta ≤ self.old.delta + 1 }
        ensures step { (m : DesignShape) → IsDesign m self.old.net.signals
            → HasStepped P.state self.new.end self.new (cycle (modelled m P.step []) nothing_given (state_of P.state self.old) now) }
        ensures memory { self.new.end ≡ Some SimulationEnd.Memory → StaysAt self.old self.new }
    {
        match self.step(now) {
            Ok(None) => {}
            Ok(Some(stop)) => {
                self.end = Some(SimulationEnd::Stop(stop));
            }
            Err(_) => {
                self.end = Some(SimulationEnd::Memory);
            }
        }
    }

    /// The next cycle, if something is left to come. A simulation that has ended answers its end again.
    pub fn cycle(&mut self) -> Result<Cycle, SimulationEnd>
        requires { self.old.delta + 1 < 2 ^ 32 }
        ensures ended { (end : SimulationEnd) → self.old.end ≡ Some end → (result ≡ Err end) × (self.new ≡ self.old) }
        ensures quiet { result ≡ Ok Cycle.Quiet → self.new ≡ self.old }
        ensures end { self.new.end ≡ end_of result }
        ensures signals { self.new.net.signals ≡ self.old.net.signals }
        ensures delta { self.new.delta ≤ self.old.delta + 1 }
        ensures step { self.old.end ≡ None → (m : DesignShape) → IsDesign m self.old.net.signals
            → IsNextStep P.state (cycle (modelled m P.step []) nothing_given (state_of P.state self.old)) (next_time (state_of P.state self.old)) result self.new }
        ensures trace { self.old.end ≡ None → (m : DesignShape) (starts : List P.State) → IsDesign m self.old.net.signals → (n : ℕ)
            → let design = modelled m P.step starts in
            IsTraceOn P.state result self.new (trace_from design nothing_given n) (trace_from design nothing_given (suc n) (state_of P.state self.old)) }
        ensures memory { result ≡ Err SimulationEnd.Memory → StaysAt self.old self.new }
    {
        if let Some(end) = self.end {
            return Err(end);
        }
        match self.next_time() {
            Some(now) => {
                self.go_to(now);
                next_unless(self.end)
            }
            None => Ok(Cycle::Quiet),
        }
    }
}

fn next_unless(end: Option<SimulationEnd>) -> Result<Cycle, SimulationEnd>
    ensures end { end_of result ≡ end }
    ensures next { result ≢ Ok Cycle.Quiet }
{
    match end {
        Some(end) => Err(end),
        None => Ok(Cycle::Next),
    }
}

// The number of the delta cycle in a cycle at this time, which follows one with that number at that time.
fn next_delta(time: u64, delta: u32, now: u64) -> u32
    requires { delta + 1 < 2 ^ 32 }
    ensures { result ≡ (if now == time then delta + 1 else 0) }
{
    if now == time { delta + 1 } else { 0 }
}

fn end_by(stop: Option<ProcessStop>) -> Option<SimulationEnd>
    ensures stop { stop_in result ≡ stop }
    ensures memory { result ≢ Some SimulationEnd.Memory }
{
    match stop {
        Some(stop) => Some(SimulationEnd::Stop(stop)),
        None => None,
    }
}
