//! The mode `convert`.

ghost use Rattle.std.specs.Prelude.{◌≡◌, ◌≤◌, [], ◌∷◌, true, None, length, IfOk, IfSome, Ok, sum_by};
ghost use Rattle.vd_bytes.specs.declared.answers.Limit.TheVariants as limits;
ghost use Rattle.vd_program.specs.Dues.{limit_number};
ghost use Rattle.vd_command.specs.Outcomes.{conversion, IsFirst, IsNotFirst, SaysConversion};

use std::alloc::{AllocError, Global};
use std::marker::Model;
use vd_bytes::{Bytes, Text};
use vd_first_lex::plain;
use vd_first_lower::{ConvertEnd, Converted, convert};
use vd_first_names::map_text;
use vd_modes::{Converting, conversion_line};
use vd_program::{Contents, DueBytes, Task};

/// Converts files, under a tool type. What is proved of the first language alone is promised of its texts by being asked first.
#[derive(Debug, Drop)]
pub(crate) struct Conversion {
    whole: Converting,
}

impl Model for Conversion {
    ghost use Rattle.std.specs.Prelude.{ℕ, List};

    ghost Value = { List ℕ };

    ghost view = { λ a. a.whole };
}

impl Conversion {
    /// Converts under this tool type.
    pub(crate) fn of(tool_type: Text) -> Conversion
        ensures { result ≡ tool_type }
    {
        Conversion {
            whole: Converting::of(tool_type),
        }
    }
}

impl Task for Conversion {
    ghost takes = { λ _ _. Unit {0} };

    ghost writes = { λ _. true };

    ghost says = { λ tool. SaysConversion tool };

    fn writes_files(&self) -> bool {
        true
    }

    fn form(
        &self,
        alloc: Global,
        names: &[String],
        contents: &Contents,
    ) -> Result<DueBytes, AllocError> {
        match first_due(alloc, contents.as_slice())? {
            Some(due) => Ok(due),
            None => self.whole.form(alloc, names, contents),
        }
    }
}

// What is due for the one file of a text of the first language in which nothing is refused.
fn first_due(alloc: Global, contents: &[Bytes]) -> Result<Option<DueBytes>, AllocError>
    requires within { sum_by length contents.now ≤ limit_number limits.Input }
    ensures first { IfOk result (λ d. IfSome d (IsFirst contents.now)) }
    ensures other { result ≡ Ok None → IsNotFirst contents.now }
{
    match contents {
        [content] => file_due(alloc, content.as_slice()),
        _ => Ok(None),
    }
}

// The same for the bytes of a file.
fn file_due(alloc: Global, bytes: &[u8]) -> Result<Option<DueBytes>, AllocError>
    requires few { length bytes.now ≤ 8388608 }
    ensures first { IfOk result (λ d. IfSome d (IsFirst (bytes.now ∷ []))) }
    ensures other { result ≡ Ok None → IsNotFirst (bytes.now ∷ []) }
{
    let selected = plain(alloc, 0, bytes)?;
    match convert(alloc, &[selected]) {
        Ok(converted) => Ok(Some(conversion_due(alloc, converted)?)),
        Err(ConvertEnd::Refused(_)) => Ok(None),
        Err(ConvertEnd::Limit(_)) => Ok(None),
        Err(ConvertEnd::Memory) => Err(AllocError),
    }
}

fn conversion_due(alloc: Global, converted: Converted) -> Result<DueBytes, AllocError>
    ensures { IfOk result (λ due. due ≡ conversion converted.design converted.map.rows converted.units) }
{
    let Converted { design, map, units } = converted;
    let line = conversion_line(alloc, units, map.rows.as_slice().len())?;
    let map = map_text(alloc, &map)?;
    Ok(DueBytes::files(design, map, line))
}
