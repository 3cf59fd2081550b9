//! Runs that are gone through cycle by cycle.

ghost use Rattle.std.specs.Prelude.{◌≡◌, ◌≤◌, length, IfOk};

use crate::parts::{Part, name_of, part_of};
use crate::runs::{LONGEST, file_of};
use anyhow::bail;
use std::alloc::{AllocError, Global};
use vd_first_accept::{accept19, accept93};
use vd_first_runs::{Run19, Run93, elaborate19, elaborate93, top19, top93};
use vd_first_trees::{Design19, Design93};
use vd_trees::{Cycle, CycleEnd, RunEnd};
use vd_values::Scalar;

/// Where a run is, and what its last signal shows.
#[derive(Drop)]
struct State<'a> {
    count: usize,
    object: &'a [u8],
    shown: Scalar,
    reports: usize,
    time: u64,
    delta: u32,
    next: Option<u64>,
}

/// Adds a line.
fn add(text: &mut Vec<u8>, line: &str) -> Result<(), AllocError> {
    text.extend_from_slice(line.as_bytes())?;
    text.push(b'\n')?;
    Ok(())
}

/// Adds a line with where a run is, one with what comes next, and one with what it shows.
fn add_state(alloc: Global, text: &mut Vec<u8>, state: &State<'_>) -> Result<(), AllocError> {
    let time = state.time;
    let delta = state.delta;
    let next = state.next;
    let count = state.count;
    let shown = state.shown;
    let reports = state.reports;
    add(
        text,
        format!(in alloc; "time {time} delta {delta}")?.as_str(),
    )?;
    add(text, format!(in alloc; "next {next:?}")?.as_str())?;
    add(
        text,
        format!(in alloc; "signals {count} reports {reports}")?.as_str(),
    )?;
    text.extend_from_slice(state.object)?;
    add(text, format!(in alloc; " shows {shown:?}")?.as_str())
}

/// Adds what a cycle came to.
fn add_cycle(text: &mut Vec<u8>, came: Result<Cycle, CycleEnd>) -> Result<(), AllocError> {
    match came {
        Ok(Cycle::Next) => add(text, "next"),
        Ok(Cycle::Quiet) => add(text, "quiet"),
        Err(CycleEnd::Stop(_)) => add(text, "stop"),
        Err(CycleEnd::Memory) => add(text, "memory"),
    }
}

fn begun19(alloc: Global, design: &Design19, top: &str) -> Result<Run19, RunEnd>
    ensures { IfOk result (λ run. run.simulation.delta ≡ 0) }
{
    match top19(alloc, design, top) {
        Ok(Some(top)) => elaborate19(alloc, design, &top),
        _ => Err(RunEnd::Memory),
    }
}

fn begun93(alloc: Global, design: &Design93, top: &str) -> Result<Run93, RunEnd>
    ensures { IfOk result (λ run. run.simulation.delta ≡ 0) }
{
    match top93(alloc, design, top) {
        Ok(Some(top)) => elaborate93(alloc, design, &top),
        _ => Err(RunEnd::Memory),
    }
}

/// Adds where a run of 2019 is.
fn add_state19(alloc: Global, text: &mut Vec<u8>, run: &Run19) -> Result<(), AllocError> {
    let count = run.signal_count();
    if count == 0 {
        return add(text, "no signals");
    }
    let state = State {
        count,
        object: run.path(count - 1).object.as_slice(),
        shown: run.shown(count - 1),
        reports: run.reports().len(),
        time: run.time(),
        delta: run.delta(),
        next: run.next_time(),
    };
    add_state(alloc, text, &state)
}

/// Adds where a run of 1993 is.
fn add_state93(alloc: Global, text: &mut Vec<u8>, run: &Run93) -> Result<(), AllocError> {
    let count = run.signal_count();
    if count == 0 {
        return add(text, "no signals");
    }
    let state = State {
        count,
        object: run.path(count - 1).object.as_slice(),
        shown: run.shown(count - 1),
        reports: run.reports().len(),
        time: run.time(),
        delta: run.delta(),
        next: run.next_time(),
    };
    add_state(alloc, text, &state)
}

/// Adds how many signals there are in the end.
fn add_count(alloc: Global, text: &mut Vec<u8>, count: usize) -> Result<(), AllocError> {
    add(text, format!(in alloc; "signals {count}")?.as_str())
}

/// Three cycles of a source.
fn steps19(alloc: Global, text: &[u8], top: &str) -> anyhow::Result<Vec<u8>>
    requires few { length text.now ≤ 8388608 }
{
    let file = file_of(alloc, text)?;
    let Ok(design) = accept19(alloc, &file) else {
        bail!("the text isn't accepted");
    };
    let Ok(mut run) = begun19(alloc, &design, top) else {
        bail!("the top can't be run");
    };
    let mut out = Vec::new(alloc);
    add_state19(alloc, &mut out, &run)?;
    add_cycle(&mut out, run.cycle())?;
    add_cycle(&mut out, run.cycle())?;
    add_cycle(&mut out, run.cycle())?;
    add_state19(alloc, &mut out, &run)?;
    add_count(alloc, &mut out, run.into_run().signal_count())?;
    Ok(out)
}

/// Three cycles of a design of 1993.
fn steps93(alloc: Global, text: &[u8], top: &str) -> anyhow::Result<Vec<u8>>
    requires few { length text.now ≤ 8388608 }
{
    let file = file_of(alloc, text)?;
    let Ok(design) = accept93(alloc, &file) else {
        bail!("the text isn't accepted");
    };
    let Ok(mut run) = begun93(alloc, &design, top) else {
        bail!("the top can't be run");
    };
    let mut out = Vec::new(alloc);
    add_state93(alloc, &mut out, &run)?;
    add_cycle(&mut out, run.cycle())?;
    add_cycle(&mut out, run.cycle())?;
    add_cycle(&mut out, run.cycle())?;
    add_state93(alloc, &mut out, &run)?;
    add_count(alloc, &mut out, run.into_run().signal_count())?;
    Ok(out)
}

/// Three cycles of the text of a part, `2019` or `1993`.
fn steps_of(alloc: Global, part: &Part, top: &str) -> anyhow::Result<Vec<u8>> {
    let text = part.bytes.as_slice();
    if text.len() > LONGEST {
        bail!("a text is too long");
    }
    match part.kind.as_str() {
        "2019" => steps19(alloc, text, top),
        _ => steps93(alloc, text, top),
    }
}

/// Where a run of the text is from its top, what three cycles come to, and where it is then.
pub fn steps(alloc: Global, given: &[Part]) -> anyhow::Result<Vec<Part>> {
    let Some(part) = part_of(given, "2019").or(part_of(given, "1993")) else {
        bail!("there is no text");
    };
    let text = steps_of(alloc, part, name_of(given, "top"))?;
    let mut parts = Vec::new(alloc);
    parts.push(Part::of(alloc, "steps", "", &text)?)?;
    Ok(parts)
}
