//! The text of a trace, in the order of its steps. Each call writes behind what the text holds. Where memory runs out, the
//! text stays as it was.

ghost use Rattle.std.specs.Prelude.{◌≡◌, ◌++◌, ◌∷◌, [], ℕ, List, codes, OnOk, OnErr};
ghost use Rattle.std.specs.List.{flat_map};
ghost use Rattle.std.specs.Fmt.{decimal};
ghost use Rattle.vd_values.specs.declared.scalar.Scalar.{Scalar};
ghost use Rattle.vd_trees.specs.declared.paths.Path.{Path};
ghost use Rattle.vd_trees.specs.Traces.{done, quiet};
ghost use Rattle.vd_trees.specs.ValueTexts.{ScalarType};
ghost use Rattle.vd_trees.specs.TraceText.{line, report_line, step_lines, stop_line, end_text};
ghost use Rattle.vd_trace_text.specs.Types.{types_behind};
ghost use Rattle.vd_trace_text.specs.Steps.{shown_step, stopped_step};

use crate::reports::{add_reports, add_stop_line};
use crate::types::TypeText;
use crate::values::add_values;
use std::alloc::AllocError;
use vd_trees::{Path, Report, Stop};
use vd_values::Scalar;

/// A step that shows a value of each scalar signal. The signals have these paths and types, and had the earlier values, of
/// which the initialisation has none.
pub fn add_shown_step(
    text: &mut Vec<u8>,
    paths: &[Path],
    types: &[&TypeText],
    number: u32,
    time: u64,
    delta: u32,
    reports: &[Report],
    earlier: &[Scalar],
    values: &[Scalar],
) -> Result<(), AllocError>
    ensures written { OnOk result (text.new.items ≡ text.old.items
        ++ step_lines paths.now (types_behind types.now) number earlier.now (shown_step time delta reports.now values.now)) }
    ensures unchanged { OnErr result (text.new.items ≡ text.old.items) }
{
    let mut step = Vec::new(*text.allocator());
    add_start(&mut step, number, time, delta, reports)?;
    add_values(&mut step, paths, types, earlier, values)?;
    text.extend_from_slice(&step)
}

/// A step that stops. It shows no signals.
pub fn add_stopped_step(
    text: &mut Vec<u8>,
    number: u32,
    time: u64,
    delta: u32,
    reports: &[Report],
    stop: &Stop,
) -> Result<(), AllocError>
    ensures written { OnOk result ((paths : List Path) (types : List ScalarType) (earlier : List Scalar) → text.new.items ≡ text.old.items
        ++ step_lines paths types number earlier (stopped_step time delta reports.now stop.now)) }
    ensures unchanged { OnErr result (text.new.items ≡ text.old.items) }
{
    let mut step = Vec::new(*text.allocator());
    add_start(&mut step, number, time, delta, reports)?;
    add_stop_line(&mut step, stop)?;
    text.extend_from_slice(&step)
}

/// The end of a trace that has no step, since the elaboration stopped.
pub fn add_stop(text: &mut Vec<u8>, stop: &Stop) -> Result<(), AllocError>
    ensures written { OnOk result (text.new.items ≡ text.old.items ++ stop_line stop.now) }
    ensures unchanged { OnErr result (text.new.items ≡ text.old.items) }
{
    let mut end = Vec::new(*text.allocator());
    add_stop_line(&mut end, stop)?;
    text.extend_from_slice(&end)
}

/// The end of a trace with all the cycles that were asked for.
pub fn add_done(text: &mut Vec<u8>) -> Result<(), AllocError>
    ensures written { OnOk result (text.new.items ≡ text.old.items ++ end_text done) }
    ensures unchanged { OnErr result (text.new.items ≡ text.old.items) }
{
    text.extend_from_slice(b"done\n")
}

/// The end of a trace behind whose last step nothing was left to come.
pub fn add_quiet(text: &mut Vec<u8>) -> Result<(), AllocError>
    ensures written { OnOk result (text.new.items ≡ text.old.items ++ end_text quiet) }
    ensures unchanged { OnErr result (text.new.items ≡ text.old.items) }
{
    text.extend_from_slice(b"quiet\n")
}

// The line of a step, and its reports.
fn add_start(
    text: &mut Vec<u8>,
    number: u32,
    time: u64,
    delta: u32,
    reports: &[Report],
) -> Result<(), AllocError>
    ensures written { OnOk result (text.new.items ≡ text.old.items
        ++ (line (codes "cycle" ∷ decimal number ∷ decimal time ∷ decimal delta ∷ []) ++ flat_map (report_line time delta) reports.now)) }
{
    let alloc = *text.allocator();
    let cycle = format!(in alloc; "cycle {number} {time} {delta}\n")?;
    text.extend_from_slice(cycle.as_bytes())?;
    add_reports(text, time, delta, reports)
}
