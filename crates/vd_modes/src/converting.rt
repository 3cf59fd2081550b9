//! The mode `convert`, of any number of files.

ghost use Rattle.std.specs.Prelude.{◌≡◌, ◌≤◌, ◌++◌, List, ℕ, true, length, sum_by, IfOk, string_bytes};
ghost use Rattle.vd_bytes.specs.declared.answers.Limit.TheVariants as limits;
ghost use Rattle.vd_modes.specs.Checks.{warnings_from};
ghost use Rattle.vd_program.specs.Dues.{limit_number};
ghost use Rattle.vd_program.specs.Outcomes.{HasConsoleAlone, IsOwnStatus, WritesFiles};
ghost use Rattle.vd_words.specs.Words.{texts_of};
ghost use Rattle.vd_modes.specs.Conversions.{AreConverted};
ghost use Rattle.vd_modes.specs.Dues.{SaysConversion, console_of, conversion_line};
ghost use Rattle.vd_modes.specs.Texts.{IsIn93};

use crate::conversion::{ConvertEnd, Converted, convert};
use crate::lines::add_all_warnings;
use crate::verdicts::{MOST, refusal_due};
use std::alloc::{AllocError, Global};
use std::marker::Model;
use vd_bytes::{Bytes, Limit, Text};
use vd_design_files::Warnings;
use vd_directives::Settings;
use vd_first_names::map_text;
use vd_program::{Contents, DueBytes, Task};

/// Converts files of revision 2019, under a tool type as in a check.
#[derive(Debug, Drop)]
pub struct Converting {
    settings: Settings,
}

impl Model for Converting {
    ghost use Rattle.std.specs.Prelude.{ℕ, List};

    ghost Value = { List ℕ };

    ghost view = { λ a. a.settings.tool_type };
}

impl Converting {
    /// Converts under this tool type.
    pub fn of(tool_type: Text) -> Converting
        ensures { result ≡ tool_type }
    {
        Converting {
            settings: Settings { tool_type },
        }
    }
}

impl Task for Converting {
    ghost takes = { λ _ _. Unit {0} };

    ghost writes = { λ _. true };

    ghost says = { λ tool. SaysConversion tool };

    fn writes_files(&self) -> bool {
        true
    }

    fn form(
        &self,
        alloc: Global,
        names: &[String],
        contents: &Contents,
    ) -> Result<DueBytes, AllocError> {
        conversion_due(alloc, &self.settings, names, contents.as_slice())
    }
}

/// `converted U units R rows`
pub fn conversion_line(alloc: Global, units: u32, rows: usize) -> Result<String, AllocError>
    ensures { IfOk result (λ line. string_bytes line ≡ conversion_line units rows) }
{
    let counts = format!(in alloc; "converted {units} units {rows}")?;
    format!(in alloc; "{counts} rows\n")
}

/// The text of the console where files are converted: their warnings, and how many units and rows there are.
fn console_text(
    alloc: Global,
    names: &[String],
    warnings: &Warnings,
    units: u32,
    rows: usize,
) -> Result<Vec<u8>, AllocError>
    ensures { IfOk result (λ text. text.items ≡ console_of (texts_of names.now) warnings.now units rows) }
{
    let mut text = Vec::new(alloc);
    add_all_warnings(alloc, &mut text, names, warnings.as_slice())?;
    let line = conversion_line(alloc, units, rows)?;
    text.extend_from_slice(line.as_bytes())?;
    Ok(text)
}

/// What is due where files are converted.
fn converted_due(
    alloc: Global,
    names: &[String],
    converted: Converted,
) -> Result<DueBytes, AllocError>
    requires in_93 { IsIn93 converted.design }
    ensures said { IfOk result (λ due. (tool : List ℕ) (contents : List (List ℕ)) → AreConverted tool contents converted.units converted.warnings
        → SaysConversion tool (texts_of names.now) contents due) }
    ensures own_status { IfOk result (λ due. IsOwnStatus due.status) }
    ensures console_alone { IfOk result (λ due. (WritesFiles true due.status → ⊥) → HasConsoleAlone due) }
{
    let Converted {
        design,
        map,
        units,
        warnings,
    } = converted;
    let rows = map.rows.as_slice().len();
    let console = console_text(alloc, names, &warnings, units, rows)?;
    if console.len() > MOST {
        return DueBytes::limit(alloc, Limit::Output);
    }
    let map = map_text(alloc, &map)?;
    Ok(DueBytes::all(design, map, console))
}

/// What is due for files of these names with these contents.
fn conversion_due(
    alloc: Global,
    settings: &Settings,
    names: &[String],
    contents: &[Bytes],
) -> Result<DueBytes, AllocError>
    requires few { length contents.now ≤ limit_number limits.Files }
    requires within { sum_by length contents.now ≤ limit_number limits.Input }
    ensures said { IfOk result (λ due. SaysConversion settings.now.tool_type (texts_of names.now) contents.now due) }
    ensures own_status { IfOk result (λ due. IsOwnStatus due.status) }
    ensures console_alone { IfOk result (λ due. (WritesFiles true due.status → ⊥) → HasConsoleAlone due) }
{
    match convert(alloc, settings, contents) {
        Ok(converted) => converted_due(alloc, names, converted),
        Err(ConvertEnd::Refused(refused)) => refusal_due(alloc, names, &refused),
        Err(ConvertEnd::Limit(limit)) => DueBytes::limit(alloc, limit),
        Err(ConvertEnd::Memory) => Err(AllocError),
    }
}
