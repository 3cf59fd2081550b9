//! Printing the trace of a run, step by step.

ghost use Rattle.std.specs.Prelude.{◌≡◌, ◌+◌, ◌++◌, ◌<◌, ◌≤◌, ◌^◌, [], ℕ, suc, length, replicate, Ok, Err, Some, None, OnOk, IfOk, IfErr};
ghost use Rattle.vd_values.specs.declared.scalar.Scalar.{Scalar as ScalarValue};
ghost use Rattle.vd_trees.specs.TraceExamples.{std_ulogic};
ghost use Rattle.vd_simulation.specs.Simulations.{state_of};
ghost use Rattle.vd_first_elaboration.specs.Elaboration.{Elaborated};
ghost use Rattle.vd_first_runs.specs.Elaborations.{limit_of};
ghost use Rattle.vd_first_processes.specs.Resolved.{itself};
ghost use Rattle.vd_first_runs.specs.Runs.{IsStarted};
ghost use Rattle.vd_trace_text.specs.Types.{types_behind};
ghost use Rattle.vd_first_elaboration.specs.Traces as traces;
ghost use Rattle.vd_trees.specs.TraceText.{step_lines, end_text};
ghost use Rattle.vd_trace_text.specs.Steps.{shown_step};
ghost use Rattle.vd_first_tracing.specs.Printing.{values_of, end_before, HasPrinted, HasCycled, RunsDesign, Finishes};

use std::alloc::{AllocError, Global};
use vd_bytes::{Bytes, Limit};
use vd_first_accept::ConvertEnd;
use vd_first_runs::Run;
use vd_trace_text::{TypeText, add_done, add_quiet, add_shown_step, add_stopped_step};
use vd_trees::{Cycle, CycleEnd};
use vd_values::Scalar;

/// How many bytes the text of a trace may have.
pub const OUTPUT_LIMIT: usize = 67_108_864;

/// The text of a trace, and whether it ends in a stop.
#[derive(Debug, Drop)]
pub struct Traced {
    pub text: Bytes,
    pub stopped: bool,
}

/// The text so far, and the values that it shows last.
#[derive(Drop)]
pub struct Transcript {
    text: Vec<u8>,
    values: Vec<Scalar>,
}

// What the signals of a run show, in their order.
fn shown_values(alloc: Global, run: &Run) -> Result<Vec<Scalar>, AllocError>
    ensures { IfOk result (λ v. v.items ≡ values_of (state_of itself run.now.simulation).view.shown 0 (length run.now.paths)) }
{
    let mut values = Vec::new(alloc);
    for i in 0..run.signal_count() {
        values.push(run.shown(i))?;
    }
    Ok(values)
}

// The type of each of so many signals.
fn types_of<'a>(
    alloc: Global,
    one: &'a TypeText,
    count: usize,
) -> Result<Vec<&'a TypeText>, AllocError>
    ensures { IfOk result (λ types. types_behind types.items ≡ replicate count one.now) }
{
    let mut types = Vec::new(alloc);
    for _ in 0..count {
        types.push(one)?;
    }
    Ok(types)
}

// Writes a step that a run has come through, and keeps what it shows.
fn add_shown(
    alloc: Global,
    transcript: &mut Transcript,
    run: &Run,
    types: &[&TypeText],
    number: u32,
) -> Result<(), AllocError>
    ensures text { OnOk result (transcript.new.text.items ≡ transcript.old.text.items
        ++ step_lines run.now.paths (types_behind types.now) number transcript.old.values.items
        (shown_step run.now.simulation.time run.now.simulation.delta run.now.simulation.reports
        (values_of (state_of itself run.now.simulation).view.shown 0 (length run.now.paths)))) }
    ensures values { OnOk result (transcript.new.values.items ≡ values_of (state_of itself run.now.simulation).view.shown 0 (length run.now.paths)) }
{
    let values = shown_values(alloc, run)?;
    add_shown_step(
        &mut transcript.text,
        run.paths(),
        types,
        number,
        run.time(),
        run.delta(),
        run.reports(),
        &transcript.values,
        &values,
    )?;
    transcript.values = values;
    Ok(())
}

// The text of a run's initialisation.
fn begin(alloc: Global, run: &Run, types: &[&TypeText]) -> Result<Transcript, AllocError>
    requires { run.now.simulation.end ≡ None }
    ensures { IfOk result (λ t. (e : Elaborated) (cycles : ℕ) → IsStarted e run.now → types_behind types.now ≡ traces.types_of e
        → HasPrinted e cycles run.now t.text.items 1 cycles t.values.items) }
{
    let mut transcript = Transcript {
        text: Vec::new(alloc),
        values: Vec::new(alloc),
    };
    add_shown(alloc, &mut transcript, run, types, 0)?;
    Ok(transcript)
}

// Goes on with a run by a cycle, whose number this is, and writes it. Where the trace comes to its end, it tells whether it stopped.
fn add_cycle(
    alloc: Global,
    transcript: &mut Transcript,
    run: &mut Run,
    types: &[&TypeText],
    number: u32,
) -> Result<Option<bool>, AllocError>
    requires going { run.old.simulation.end ≡ None }
    requires delta { run.old.simulation.delta + 1 < 2 ^ 32 }
    ensures delta { run.new.simulation.delta ≤ run.old.simulation.delta + 1 }
    ensures going { IfOk result (λ ended. ended ≡ None → run.new.simulation.end ≡ None) }
    ensures cycle { IfOk result (λ ended. (e : Elaborated) (cycles left : ℕ) → types_behind types.now ≡ traces.types_of e
        → HasPrinted e cycles run.old transcript.old.text.items number (suc left) transcript.old.values.items
        → HasCycled e cycles ended run.new transcript.new (number + 1) left) }
{
    match run.cycle() {
        Ok(Cycle::Next) => {
            add_shown(alloc, transcript, run, types, number)?;
            Ok(None)
        }
        Ok(Cycle::Quiet) => {
            add_quiet(&mut transcript.text)?;
            Ok(Some(false))
        }
        Err(CycleEnd::Stop(stop)) => {
            add_stopped_step(
                &mut transcript.text,
                number,
                run.time(),
                run.delta(),
                run.reports(),
                &stop,
            )?;
            Ok(Some(true))
        }
        Err(CycleEnd::Memory) => Err(AllocError),
    }
}

// The text of a trace, if it isn't too long.
pub(crate) fn finished(text: Vec<u8>, stopped: bool) -> Result<Traced, ConvertEnd>
    ensures { Finishes text.items stopped result }
{
    if text.len() > OUTPUT_LIMIT {
        return Err(ConvertEnd::Limit(Limit::Output));
    }
    Ok(Traced {
        text: Bytes::of(text),
        stopped,
    })
}

// The last line of a trace, behind whose last step something is left to come at this time, or nothing.
fn add_end(text: &mut Vec<u8>, next: Option<u64>) -> Result<(), AllocError>
    ensures { OnOk result (text.new.items ≡ text.old.items ++ end_text (end_before next)) }
{
    match next {
        None => add_quiet(text),
        Some(_) => add_done(text),
    }
}

// Goes on with a run for so many cycles.
fn add_cycles(
    alloc: Global,
    mut transcript: Transcript,
    run: &mut Run,
    types: &[&TypeText],
    cycles: u32,
) -> Result<Traced, ConvertEnd>
    requires going { run.old.simulation.end ≡ None }
    requires delta { run.old.simulation.delta ≡ 0 }
    ensures { (e : Elaborated) → limit_of e ≡ None → types_behind types.now ≡ traces.types_of e
        → HasPrinted e cycles run.old transcript.text.items 1 cycles transcript.values.items → RunsDesign e cycles result }
{
    for number in 0..cycles {
        if transcript.text.len() > OUTPUT_LIMIT {
            return Err(ConvertEnd::Limit(Limit::Output));
        }
        match add_cycle(alloc, &mut transcript, run, types, number + 1) {
            Ok(None) => {}
            Ok(Some(stopped)) => return finished(transcript.text, stopped),
            Err(_) => return Err(ConvertEnd::Memory),
        }
    }
    match add_end(&mut transcript.text, run.next_time()) {
        Ok(()) => finished(transcript.text, false),
        Err(_) => Err(ConvertEnd::Memory),
    }
}

/// The text of a run's trace, after so many cycles at most.
pub(crate) fn print_run(alloc: Global, mut run: Run, cycles: u32) -> Result<Traced, ConvertEnd>
    requires going { run.simulation.end ≡ None }
    requires delta { run.simulation.delta ≡ 0 }
    ensures { (e : Elaborated) → IsStarted e run → RunsDesign e cycles result }
{
    let one = match TypeText::std_ulogic(alloc) {
        Ok(one) => one,
        Err(_) => return Err(ConvertEnd::Memory),
    };
    let types = match types_of(alloc, &one, run.signal_count()) {
        Ok(types) => types,
        Err(_) => return Err(ConvertEnd::Memory),
    };
    match begin(alloc, &run, &types) {
        Ok(transcript) => add_cycles(alloc, transcript, &mut run, &types, cycles),
        Err(_) => Err(ConvertEnd::Memory),
    }
}
