//! The elaboration of a top.

ghost use Rattle.std.specs.Prelude.{◌≡◌, length, Some, None, IfOk, IfErr, IsSome};
ghost use Rattle.vd_forest.specs.Forest.{parts_of, next_of};
ghost use Rattle.vd_kernel.specs.Orders.{shape_of, IsRingFree};
ghost use Rattle.vd_first_elaboration.specs.Tops.{TopUnits};
ghost use Rattle.vd_first_elaboration.specs.Elaboration.{Elaborated, processes_of, elaboration};
ghost use Rattle.vd_first_runs.specs.Designs.{elaborated_of, IsDesignOf, HasBegun, EndsBeforeRun};
ghost use Rattle.vd_first_runs.specs.Elaborations.{two_sources_in, stop_of, EndsElaboration};
ghost use Rattle.vd_first_runs.specs.Places.{scope_at};
ghost use Rattle.vd_first_runs.specs.Runs.{IsStarted};
ghost use Rattle.vd_first_runs.specs.Units.{own_units};

use crate::limits::limit_passed;
use crate::places::{port_paths, scope};
use crate::run::Run;
use crate::shapes::{has_two_sources, shape};
use crate::tops::Top;
use crate::units::{Units, find_units};
use std::alloc::{AllocError, Global};
use vd_bytes::Text;
use vd_first_processes::numbers::Numbers;
use vd_first_processes::processes::ResolvedProcess;
use vd_first_processes::resolution::resolve_processes;
use vd_first_trees::Form;
use vd_forest::Cursor;
use vd_kernel::Shape;
use vd_trees::{Path, RunEnd, Stop};
use vd_values::StopKind;

/// A design before its run: the paths of its signals, the names of the top's units, and what the kernel runs.
#[derive(Drop)]
pub struct ResolvedDesign {
    pub paths: Vec<Path>,
    pub entity: Text,
    pub architecture: Text,
    pub shape: Shape,
    pub processes: Vec<ResolvedProcess>,
}

// The design of a top.
fn resolve(
    alloc: Global,
    units: &Units<'_>,
    ports: &Cursor<'_, Form>,
    processes: &Cursor<'_, Form>,
) -> Result<ResolvedDesign, AllocError>
    requires ports { ports.now ≡ parts_of (next_of units.now.entity) }
    requires processes { processes.now ≡ processes_of units.now.architecture }
    ensures design { IfOk result (λ design. IsDesignOf (own_units units.now) design) }
    ensures paths { IfOk result (λ design. length design.paths.items ≡ length design.shape.scalars.items) }
{
    let entity = units.entity.text();
    let architecture = units.architecture.text();
    let paths = port_paths(alloc, entity, architecture, ports)?;
    let numbers = Numbers::of(alloc, &paths)?;
    let mut driven = Vec::new(alloc);
    let processes = resolve_processes(alloc, &numbers, &mut driven, processes)?;
    let shape = shape(alloc, paths.len(), &driven, ports)?;
    Ok(ResolvedDesign {
        paths,
        entity: Text::from_slice(alloc, entity)?,
        architecture: Text::from_slice(alloc, architecture)?,
        shape,
        processes,
    })
}

// The stop of a design in which a signal has two sources.
fn two_sources(alloc: Global, design: &ResolvedDesign) -> Result<Stop, AllocError>
    ensures { IfOk result (λ stop. stop ≡ two_sources_in (scope_at design.now.entity design.now.architecture)) }
{
    Ok(Stop {
        kind: StopKind::TwoSources,
        time: 0,
        delta: 0,
        scope: scope(
            alloc,
            design.entity.as_slice(),
            design.architecture.as_slice(),
        )?,
        text: Text::from_slice(alloc, b"")?,
    })
}

// How the elaboration of a design ends in which a signal has two sources.
fn end_by_two(alloc: Global, design: &ResolvedDesign) -> RunEnd
    ensures { (e : Elaborated) → stop_of e ≡ Some (two_sources_in (scope_at design.now.entity design.now.architecture)) → EndsBeforeRun e result }
{
    match two_sources(alloc, design) {
        Ok(stop) => RunEnd::Stop(stop),
        Err(_) => RunEnd::Memory,
    }
}

// A run of a design, unless a signal has two sources.
fn start(alloc: Global, design: ResolvedDesign) -> Result<Run, RunEnd>
    requires ring_free { IsRingFree (shape_of design.shape.scalars.items) }
    requires paths { length design.paths.items ≡ length design.shape.scalars.items }
    ensures run { IfOk result (λ run. (u : TopUnits) → IsDesignOf u design → HasBegun (elaborated_of u) run) }
    ensures going { IfOk result (λ run. (u : TopUnits) → IsDesignOf u design → run.simulation.end ≡ None) }
    ensures delta { IfOk result (λ run. run.simulation.delta ≡ 0) }
    ensures ends { IfErr result (λ end. (u : TopUnits) → IsDesignOf u design → EndsBeforeRun (elaborated_of u) end) }
{
    if has_two_sources(&design.shape.scalars) {
        return Err(end_by_two(alloc, &design));
    }
    match Run::new(alloc, design) {
        Ok(run) => Ok(run),
        Err(_) => Err(RunEnd::Memory),
    }
}

// The run of these units, after its initialisation.
pub(crate) fn elaborate_units(alloc: Global, units: &Units<'_>) -> Result<Run, RunEnd>
    ensures run { IfOk result (IsStarted (elaborated_of (own_units units.now))) }
    ensures going { IfOk result (λ run. run.simulation.end ≡ None) }
    ensures delta { IfOk result (λ run. run.simulation.delta ≡ 0) }
    ensures ends { IfErr result (EndsElaboration (elaborated_of (own_units units.now))) }
{
    let ports = units.entity.next().parts();
    let processes = units.architecture.next().next().parts();
    if let Some(limit) = limit_passed(&ports, &processes) {
        return Err(RunEnd::Limit(limit));
    }
    match resolve(alloc, units, &ports, &processes) {
        Ok(design) => start(alloc, design),
        Err(_) => Err(RunEnd::Memory),
    }
}

/// The run of a top, after its initialisation.
pub fn elaborate(alloc: Global, units: &Cursor<'_, Form>, top: &Top) -> Result<Run, RunEnd>
    requires { IsSome (elaboration units.now top.now) }
    ensures run { IfOk result (λ run. (e : Elaborated) → elaboration units.now top.now ≡ Some e → IsStarted e run) }
    ensures going { IfOk result (λ run. run.simulation.end ≡ None) }
    ensures delta { IfOk result (λ run. run.simulation.delta ≡ 0) }
    ensures ends { IfErr result (λ end. (e : Elaborated) → elaboration units.now top.now ≡ Some e → EndsElaboration e end) }
{
    match find_units(units, top) {
        Some(found) => elaborate_units(alloc, &found),
        None => unreachable!(),
    }
}
