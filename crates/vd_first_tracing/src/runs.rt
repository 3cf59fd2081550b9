//! Runs of a file of the first language, as texts.

ghost use Rattle.std.specs.Prelude.{◌≡◌, ℕ, length, All, Ok, Some, IsSome, IfOk, IfErr};
ghost use Rattle.vd_bytes.specs.declared.places.Place.{Place as PlaceValue};
ghost use Rattle.vd_trees.specs.declared.revision.Revision.TheVariants.{V2019, V1993};
ghost use Rattle.vd_first_lex.specs.declared.selected.Selected.{Selected};
ghost use Rattle.vd_first_lex.specs.Lexings.{ColumnsFit};
ghost use Rattle.vd_first_elaboration.specs.Elaboration.{Elaborated, elaboration};
ghost use Rattle.vd_first_runs.specs.Elaborations.{EndsElaboration};
ghost use Rattle.vd_first_accept.specs.Acceptance.{IsOnly};
ghost use Rattle.vd_first_tracing.specs.Tracings.{Traces};
ghost use Rattle.vd_first_tracing.specs.Printing.{RunsDesign, NamesTop};

use crate::printing::{Traced, finished, print_run};
use std::alloc::{AllocError, Global};
use vd_bytes::{Place, Refused};
use vd_first_accept::{ConvertEnd, accept19, accept93};
use vd_first_lex::Selected;
use vd_first_runs::{Top, elaborate19, elaborate93, top19, top93};
use vd_first_trees::{Design19, Design93};
use vd_trace_text::add_stop;
use vd_trees::RunEnd;

// The top of a name, or that it is none. There is one file, so that the place is behind the first.
fn found(top: Result<Option<Top>, AllocError>) -> Result<Top, ConvertEnd>
    ensures { NamesTop top result }
{
    match top {
        Ok(Some(top)) => Ok(top),
        Ok(None) => Err(ConvertEnd::Refused(Refused {
            place: Place {
                file: 1,
                line: 1,
                column: 1,
            },
            rule: 311,
        })),
        Err(_) => Err(ConvertEnd::Memory),
    }
}

// The text of a trace without a step, or why there is none.
fn ended(alloc: Global, end: RunEnd) -> Result<Traced, ConvertEnd>
    ensures { (e : Elaborated) (cycles : ℕ) → EndsElaboration e end → RunsDesign e cycles result }
{
    match end {
        RunEnd::Stop(stop) => {
            let mut text = Vec::new(alloc);
            match add_stop(&mut text, &stop) {
                Ok(()) => finished(text, true),
                Err(_) => Err(ConvertEnd::Memory),
            }
        }
        RunEnd::Limit(limit) => Err(ConvertEnd::Limit(limit)),
        RunEnd::Memory => Err(ConvertEnd::Memory),
    }
}

/// Runs one 2019 file, from the top of this name, `entity` or `entity(architecture)` in letters of either case, for so many cycles at
/// most, delta cycles counted. It gives the text of the trace, or the first answer that is due instead.
pub fn run19(
    alloc: Global,
    files: &[Selected],
    top: &str,
    cycles: u32,
) -> Result<Traced, ConvertEnd>
    requires one { length files.now ≡ 1 }
    requires columns { All ColumnsFit files.now }
    ensures exact { (file : Selected) → IsOnly files.now file → Traces V2019 file top.now cycles result }
{
    let design = accept19(alloc, &files[0])?;
    match found(top19(alloc, &design, top)) {
        Ok(top) => run_top19(alloc, &design, &top, cycles),
        Err(end) => Err(end),
    }
}

fn run_top19(alloc: Global, design: &Design19, top: &Top, cycles: u32) -> Result<Traced, ConvertEnd>
    requires { IsSome (elaboration design.now top.now) }
    ensures { (e : Elaborated) → elaboration design.now top.now ≡ Some e → RunsDesign e cycles result }
{
    match elaborate19(alloc, design, top) {
        Ok(run) => print_run(alloc, run.into_run(), cycles),
        Err(end) => ended(alloc, end),
    }
}

/// The same of one 1993 file.
pub fn run93(
    alloc: Global,
    files: &[Selected],
    top: &str,
    cycles: u32,
) -> Result<Traced, ConvertEnd>
    requires one { length files.now ≡ 1 }
    requires columns { All ColumnsFit files.now }
    ensures exact { (file : Selected) → IsOnly files.now file → Traces V1993 file top.now cycles result }
{
    let design = accept93(alloc, &files[0])?;
    match found(top93(alloc, &design, top)) {
        Ok(top) => run_top93(alloc, &design, &top, cycles),
        Err(end) => Err(end),
    }
}

fn run_top93(alloc: Global, design: &Design93, top: &Top, cycles: u32) -> Result<Traced, ConvertEnd>
    requires { IsSome (elaboration design.now top.now) }
    ensures { (e : Elaborated) → elaboration design.now top.now ≡ Some e → RunsDesign e cycles result }
{
    match elaborate93(alloc, design, top) {
        Ok(run) => print_run(alloc, run.into_run(), cycles),
        Err(end) => ended(alloc, end),
    }
}
