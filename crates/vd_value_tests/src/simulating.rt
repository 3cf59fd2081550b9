//! A small design, step by step.

ghost use Rattle.std.specs.Prelude.{◌≡◌, ◌+◌, ◌<◌, [], ◌∷◌, Some, None, length, IfOk};
ghost use Rattle.vd_kernel.specs.Orders.{shape_of, IsRingFree};
ghost use Rattle.vd_simulation.specs.Turns.{turn_of, view_of};
ghost use Rattle.vd_value_tests.specs.Processes.{at_once as assigned_at_once, ticked, failed, followed};

use anyhow::bail;
use std::alloc::{AllocError, Global};
use vd_bytes::Text;
use vd_kernel::{
    Assignment, Delay, DriverId, DriverShape, ScalarShape, Shape, SignalId, Source, Transaction,
};
use vd_simulation::{Cause, Ending, Process, Seen, Simulation, SimulationEnd, Turn};
use vd_trees::{Cycle, Report};
use vd_values::{Scalar, StopKind};

/// A clock, with the number of its turns so far, or a process that follows a signal.
#[derive(Drop)]
struct Actor {
    turns: Option<u8>,
}

fn at_once(driver: usize, value: Scalar, now: u64) -> Assignment
    ensures { result ≡ assigned_at_once driver value now }
{
    Assignment {
        driver: DriverId::of(driver),
        delay: Delay::Inertial,
        new: Transaction { time: now, value },
    }
}

fn tick(alloc: Global, n: u8, now: u64) -> Result<Turn, AllocError>
    requires { n < 3 }
    ensures { IfOk result (λ t. turn_of (Some (n + 1)) t ≡ ticked n now) }
{
    let assignment = at_once(0, Scalar::Literal(u32::from(n)), now);
    Ok(Turn {
        assignments: Vec::from_slice(alloc, &[assignment])?,
        reports: Vec::new(alloc),
        ending: Ending::Waits(Vec::new(alloc), Some(5 * u64::from(n) + 5)),
    })
}

fn fail(alloc: Global) -> Result<Turn, AllocError>
    ensures { IfOk result (λ t. turn_of None t ≡ failed) }
{
    let text = Text::from_slice(alloc, b"end")?;
    let mut reports = Vec::new(alloc);
    reports.push(Report { severity: 3, text })?;
    Ok(Turn {
        assignments: Vec::new(alloc),
        reports,
        ending: Ending::Stops(StopKind::Failure),
    })
}

fn follow(alloc: Global, seen: &Seen) -> Result<Turn, AllocError>
    ensures { IfOk result (λ t. turn_of None t ≡ followed (view_of seen.now)) }
{
    let assignment = at_once(1, seen.value(SignalId::of(0)), seen.time);
    Ok(Turn {
        assignments: Vec::from_slice(alloc, &[assignment])?,
        reports: Vec::new(alloc),
        ending: Ending::Waits(Vec::from_slice(alloc, &[SignalId::of(0)])?, None),
    })
}

impl Process for Actor {
    ghost use Rattle.std.specs.Prelude.{ℕ, Option};
    ghost use Rattle.vd_value_tests.specs.Processes.{acted};

    ghost State = { Option ℕ };

    ghost state = { λ a. a.turns };

    ghost step = { acted };

    fn resume(&mut self, alloc: Global, _cause: Cause, seen: &Seen) -> Result<Turn, AllocError> {
        match self.turns {
            None => follow(alloc, seen),
            Some(n) => {
                if n < 3 {
                    self.turns = Some(n + 1);
                    tick(alloc, n, seen.time)
                } else {
                    self.turns = None;
                    fail(alloc)
                }
            }
        }
    }
}

fn driven(alloc: Global, driver: usize, initial: Scalar) -> Result<ScalarShape, AllocError>
    ensures sources { IfOk result (λ s. s.sources ≡ Source.Driver driver ∷ []) }
    ensures actual { IfOk result (λ s. s.actual ≡ None) }
{
    Ok(ScalarShape {
        resolved: false,
        initial,
        sources: Vec::from_slice(alloc, &[Source::Driver(DriverId::of(driver))])?,
        actual: None,
    })
}

/// Two signals, each with a driver.
fn design(alloc: Global) -> Result<Shape, AllocError>
    ensures ring_free { IfOk result (λ s. IsRingFree (shape_of s.scalars.items)) }
    ensures signals { IfOk result (λ s. length s.scalars.items ≡ 2) }
{
    let first = driven(alloc, 0, Scalar::Literal(7))?;
    let second = driven(alloc, 1, Scalar::Literal(9))?;
    let mut scalars = Vec::new(alloc);
    scalars.push(first)?;
    scalars.push(second)?;
    let mut drivers = Vec::new(alloc);
    drivers.push(DriverShape {
        initial: Scalar::Literal(7),
    })?;
    drivers.push(DriverShape {
        initial: Scalar::Literal(9),
    })?;
    Ok(Shape { scalars, drivers })
}

/// Adds a word behind a text.
fn add(text: &mut String, word: &str) -> Result<(), AllocError> {
    if !text.is_empty() {
        text.push(' ')?;
    }
    text.push_str(word)
}

/// The position of a literal.
fn position(value: Scalar) -> u32 {
    match value {
        Scalar::Literal(position) => position,
        _ => 99,
    }
}

/// Adds where a simulation is: the time, the delta cycle, the positions of what both signals show, and how many reports there are.
fn add_state(
    alloc: Global,
    simulation: &Simulation<Actor>,
    text: &mut String,
) -> Result<(), AllocError>
    requires { length simulation.now.net.signals ≡ 2 }
{
    let time = simulation.time();
    let delta = simulation.delta();
    let first = position(simulation.shown(SignalId::of(0)));
    let second = position(simulation.shown(SignalId::of(1)));
    let reports = simulation.reports().len();
    let state = format!(in alloc; "{time}.{delta}:{first}:{second}:{reports}")?;
    add(text, state.as_str())
}

/// Adds the time of what comes next.
fn add_next(
    alloc: Global,
    simulation: &Simulation<Actor>,
    text: &mut String,
) -> Result<(), AllocError> {
    match simulation.next_time() {
        Some(time) => {
            let next = format!(in alloc; "{time}")?;
            add(text, next.as_str())
        }
        None => add(text, "none"),
    }
}

/// What a cycle came to.
fn cycle_text(alloc: Global, came: Result<Cycle, SimulationEnd>) -> Result<String, AllocError> {
    match came {
        Ok(Cycle::Next) => String::from_str(alloc, "next"),
        Ok(Cycle::Quiet) => String::from_str(alloc, "quiet"),
        Err(SimulationEnd::Memory) => String::from_str(alloc, "memory"),
        Err(SimulationEnd::Stop(stop)) => {
            let kind = stop.kind;
            let process = stop.process;
            format!(in alloc; "stop {kind:?} {process}")
        }
    }
}

/// The next cycle.
fn go(alloc: Global, simulation: &mut Simulation<Actor>, text: &mut String) -> anyhow::Result<()>
    requires { length simulation.old.net.signals ≡ 2 }
    ensures { length simulation.new.net.signals ≡ 2 }
{
    if simulation.delta() >= 9 {
        bail!("there are too many cycles");
    }
    let came = simulation.cycle();
    add(text, cycle_text(alloc, came)?.as_str())?;
    add_state(alloc, simulation, text)?;
    if came.is_ok() {
        add_next(alloc, simulation, text)?;
    }
    Ok(())
}

/// So many cycles.
fn run(
    alloc: Global,
    simulation: &mut Simulation<Actor>,
    cycles: u32,
    text: &mut String,
) -> anyhow::Result<()>
    requires { length simulation.old.net.signals ≡ 2 }
{
    for _ in 0..cycles {
        go(alloc, simulation, text)?;
    }
    Ok(())
}

/// The processes of a word.
fn processes(alloc: Global, word: &str) -> Result<Vec<Actor>, AllocError> {
    let mut processes = Vec::new(alloc);
    for name in word.split('+') {
        let turns = if name == "clock" { Some(0) } else { None };
        processes.push(Actor { turns })?;
    }
    Ok(processes)
}

/// What happens in so many cycles.
fn simulated(alloc: Global, word: &str, cycles: u32) -> anyhow::Result<String> {
    let shape = design(alloc)?;
    let processes = processes(alloc, word)?;
    let mut simulation = Simulation::new(alloc, &shape, processes)?;
    let mut text = String::new(alloc);
    add_state(alloc, &simulation, &mut text)?;
    add_next(alloc, &simulation, &mut text)?;
    run(alloc, &mut simulation, cycles, &mut text)?;
    Ok(text)
}

/// The answer of `PROCESS+PROCESS CYCLES`, where a process is `clock` or `follow`.
pub fn answer(alloc: Global, words: &str) -> anyhow::Result<String> {
    let Some((word, cycles)) = words.split_once(' ') else {
        bail!("there are processes and a number of cycles");
    };
    simulated(alloc, word, cycles.parse::<u32>()?)
}
