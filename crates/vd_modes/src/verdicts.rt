//! What is due for a design: that it is accepted, or the first rule that it breaks.

ghost use Rattle.std.specs.Prelude.{◌≡◌, ◌++◌, IfOk};
ghost use Rattle.vd_modes.specs.Checks.{accepted, accepted_line, judgement, refusal_in, warnings_from};
ghost use Rattle.vd_accepting.specs.Phases.{first_broken};
ghost use Rattle.vd_trees.specs.declared.revision.Revision.TheVariants.{V2019};
ghost use Rattle.vd_words.specs.Words.{texts_of};

use crate::lines::{console_text, file_named};
use std::alloc::{AllocError, Global};
use vd_accepting::accept19;
use vd_bytes::{Limit, Refusal, Refused};
use vd_design_files::{DesignFiles, Warnings};
use vd_program::DueBytes;

/// How many bytes the console may get.
pub(crate) const MOST: usize = 67_108_864;

/// That a rule is broken at a place, with the name of the file that the place is in.
pub fn refusal_due(
    alloc: Global,
    names: &[String],
    refused: &Refused,
) -> Result<DueBytes, AllocError>
    ensures { IfOk result (λ due. due ≡ refusal_in (texts_of names.now) refused.now) }
{
    let name = file_named(names, refused.place.file as usize);
    DueBytes::refusal(alloc, name, refused)
}

/// That so many units are accepted, behind the warnings of their files.
fn accepted_due(
    alloc: Global,
    names: &[String],
    warnings: &Warnings,
    units: u32,
) -> Result<DueBytes, AllocError>
    ensures { IfOk result (λ due. due ≡ accepted (warnings_from (texts_of names.now) 0 warnings.now ++ accepted_line units)) }
{
    let console = console_text(alloc, names, warnings.as_slice(), units)?;
    if console.len() > MOST {
        return DueBytes::limit(alloc, Limit::Output);
    }
    Ok(DueBytes::bytes_alone(alloc, 0, console))
}

/// What is due for the design of some files.
pub(crate) fn judged_due(
    alloc: Global,
    names: &[String],
    files: &DesignFiles,
) -> Result<DueBytes, AllocError>
    ensures { IfOk result (λ due. due ≡ judgement (texts_of names.now) files.now.warnings files.now.units (first_broken V2019 files.now.design)) }
{
    match accept19(alloc, &files.design) {
        Ok(_) => accepted_due(alloc, names, &files.warnings, files.units),
        Err(Refusal::Refused(refused)) => refusal_due(alloc, names, &refused),
        Err(Refusal::Memory) => Err(AllocError),
    }
}
