//! The mode `check`.

ghost use Rattle.std.specs.Prelude.{◌≡◌, ◌≤◌, false, length, sum_by, IfOk};
ghost use Rattle.vd_bytes.specs.declared.answers.Limit.TheVariants as limits;
ghost use Rattle.vd_modes.specs.Checks.{SaysCheck};
ghost use Rattle.vd_program.specs.Dues.{limit_number};
ghost use Rattle.vd_program.specs.Outcomes.{IsOwnStatus, HasConsoleAlone};
ghost use Rattle.vd_words.specs.Words.{texts_of};

use crate::verdicts::{judged_due, refusal_due};
use std::alloc::{AllocError, Global};
use std::marker::Model;
use vd_bytes::{Bytes, Text};
use vd_design_files::{DesignEnd, design_of_files};
use vd_directives::Settings;
use vd_program::{Contents, DueBytes, Task};

/// Checks files of revision 2019: all rules of directives, tokens, grammar, names, types and values, in this order. The tool type is what the
/// identifier `TOOL_TYPE` has in conditions of directives.
#[derive(Debug, Drop)]
pub struct Checking {
    settings: Settings,
}

impl Model for Checking {
    ghost use Rattle.std.specs.Prelude.{ℕ, List};

    ghost Value = { List ℕ };

    ghost view = { λ a. a.settings.tool_type };
}

impl Checking {
    /// Checks under this tool type.
    pub fn of(tool_type: Text) -> Checking
        ensures { result ≡ tool_type }
    {
        Checking {
            settings: Settings { tool_type },
        }
    }
}

impl Task for Checking {
    ghost takes = { λ _ _. Unit {0} };

    ghost writes = { λ _. false };

    ghost says = { λ tool. SaysCheck tool };

    fn writes_files(&self) -> bool {
        false
    }

    fn form(
        &self,
        alloc: Global,
        names: &[String],
        contents: &Contents,
    ) -> Result<DueBytes, AllocError> {
        check_due(alloc, &self.settings, names, contents.as_slice())
    }
}

/// What is due for files of these names with these contents.
fn check_due(
    alloc: Global,
    settings: &Settings,
    names: &[String],
    contents: &[Bytes],
) -> Result<DueBytes, AllocError>
    requires few { length contents.now ≤ limit_number limits.Files }
    requires within { sum_by length contents.now ≤ limit_number limits.Input }
    ensures said { IfOk result (λ due. SaysCheck settings.now.tool_type (texts_of names.now) contents.now due) }
    ensures own_status { IfOk result (λ due. IsOwnStatus due.status) }
    ensures console_alone { IfOk result (λ due. HasConsoleAlone due) }
{
    match design_of_files(alloc, settings, contents) {
        Ok(files) => judged_due(alloc, names, &files),
        Err(DesignEnd::Refused(refused)) => refusal_due(alloc, names, &refused),
        Err(DesignEnd::Limit(limit)) => DueBytes::limit(alloc, limit),
        Err(DesignEnd::Memory) => Err(AllocError),
    }
}
