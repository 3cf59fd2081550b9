//! Runs of texts of the first language, and of the designs that are written for them.

ghost use Rattle.std.specs.Prelude.{◌≤◌, length, IfOk};
ghost use Rattle.vd_first_lex.specs.Lexings.{ColumnsFit};

use crate::parts::{Part, name_of, part_of};
use anyhow::bail;
use std::alloc::{AllocError, Global};
use vd_bytes::Refused;
use vd_first_accept::ConvertEnd;
use vd_first_lex::{Selected, plain};
use vd_first_lower::{Converted, convert};
use vd_first_tracing::{Traced, run19, run93};

/// How many bytes a text may have.
pub const LONGEST: usize = 8_388_608;

/// The one file of a text.
pub fn file_of(alloc: Global, text: &[u8]) -> Result<Selected, AllocError>
    requires few { length text.now ≤ 8388608 }
    ensures { IfOk result ColumnsFit }
{
    plain(alloc, 0, text)
}

/// Runs a source.
fn traced19(alloc: Global, text: &[u8], top: &str, cycles: u32) -> Result<Traced, ConvertEnd>
    requires few { length text.now ≤ 8388608 }
{
    match file_of(alloc, text) {
        Ok(file) => run19(alloc, &[file], top, cycles),
        Err(_) => Err(ConvertEnd::Memory),
    }
}

/// Runs a design of 1993.
fn traced93(alloc: Global, text: &[u8], top: &str, cycles: u32) -> Result<Traced, ConvertEnd>
    requires few { length text.now ≤ 8388608 }
{
    match file_of(alloc, text) {
        Ok(file) => run93(alloc, &[file], top, cycles),
        Err(_) => Err(ConvertEnd::Memory),
    }
}

/// What is written for a source.
fn written(alloc: Global, text: &[u8]) -> Result<Converted, ConvertEnd>
    requires few { length text.now ≤ 8388608 }
{
    match file_of(alloc, text) {
        Ok(file) => convert(alloc, &[file]),
        Err(_) => Err(ConvertEnd::Memory),
    }
}

/// A broken rule as a part: the file's number, from 0, the line, the column and the rule.
fn refused_part(alloc: Global, refused: &Refused) -> Result<Part, AllocError> {
    let file = refused.place.file;
    let line = refused.place.line;
    let column = refused.place.column;
    let rule = refused.rule;
    let place = format!(in alloc; "{file}:{line}:{column}")?;
    let name = format!(in alloc; "{place} {rule}")?;
    Part::named(alloc, "refused", name.as_str())
}

/// Why there is no trace, as a part.
fn end_part(alloc: Global, end: ConvertEnd) -> anyhow::Result<Part> {
    match end {
        ConvertEnd::Refused(refused) => Ok(refused_part(alloc, &refused)?),
        ConvertEnd::Limit(limit) => {
            let name = format!(in alloc; "{limit:?}")?;
            Ok(Part::named(alloc, "limit", name.as_str())?)
        }
        ConvertEnd::Memory => bail!("memory ran out"),
    }
}

/// What came of a run: the text of its trace, and whether it stopped, or why there is none.
fn answer(alloc: Global, traced: Result<Traced, ConvertEnd>) -> anyhow::Result<Vec<Part>> {
    let mut parts = Vec::new(alloc);
    match traced {
        Ok(traced) => {
            let kind = if traced.stopped { "stops" } else { "runs" };
            parts.push(Part::of(alloc, kind, "", traced.text.as_slice())?)?;
        }
        Err(end) => parts.push(end_part(alloc, end)?)?,
    }
    Ok(parts)
}

/// Runs the text of a part, `2019` or `1993`, from a top.
fn ran(alloc: Global, part: &Part, top: &str, cycles: u32) -> anyhow::Result<Vec<Part>> {
    let text = part.bytes.as_slice();
    if text.len() > LONGEST {
        bail!("a text is too long");
    }
    match part.kind.as_str() {
        "2019" => answer(alloc, traced19(alloc, text, top, cycles)),
        _ => answer(alloc, traced93(alloc, text, top, cycles)),
    }
}

/// What is written for a source, as a part.
fn design_of(alloc: Global, text: &[u8]) -> anyhow::Result<Part> {
    if text.len() > LONGEST {
        bail!("a text is too long");
    }
    match written(alloc, text) {
        Ok(converted) => Ok(Part::of(alloc, "1993", "", converted.design.as_slice())?),
        Err(_) => bail!("nothing is written for a source"),
    }
}

/// Adds what comes of the texts from a top.
pub fn add_runs(
    alloc: Global,
    answers: &mut Vec<Vec<Part>>,
    given: &[Part],
    top: &str,
) -> anyhow::Result<()> {
    let cycles = name_of(given, "cycles").parse::<u32>()?;
    for kind in ["2019", "1993"] {
        if let Some(part) = part_of(given, kind) {
            answers.push(ran(alloc, part, top, cycles)?)?;
        }
    }
    Ok(())
}

/// Adds what comes of a source from a top, and of what is written for it.
pub fn add_written(
    alloc: Global,
    answers: &mut Vec<Vec<Part>>,
    given: &[Part],
) -> anyhow::Result<()> {
    let cycles = name_of(given, "cycles").parse::<u32>()?;
    let top = name_of(given, "top");
    let Some(source) = part_of(given, "2019") else {
        bail!("there is no source");
    };
    answers.push(ran(alloc, source, top, cycles)?)?;
    let design = design_of(alloc, &source.bytes)?;
    answers.push(ran(alloc, &design, top, cycles)?)?;
    Ok(())
}
