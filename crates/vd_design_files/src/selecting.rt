//! The lines of files that their directives select.

ghost use Rattle.std.specs.Prelude.{◌≤◌, ◌<◌, ℕ, [], length, get_or, IfOk, IfErr};
ghost use Rattle.std.specs.List.{AllByRecursion};
ghost use Rattle.vd_design_files.specs.Files.{numbered, IsSelected, IsUnselected};
ghost use Rattle.vd_design_files.specs.InOrder.{HaveEach, IsFirstEnd};
ghost use Rattle.vd_design_files.specs.Laws.{IsEnd};
ghost use Rattle.vd_directives.specs.Lines.{ColumnsFit};

use crate::answers::{DesignEnd, end_of_refusal};
use std::alloc::Global;
use vd_bytes::Bytes;
use vd_directives::select::select;
use vd_directives::selected::Selected;
use vd_directives::settings::Settings;

/// The selected lines of each file, or the first file of which a directive breaks a rule.
pub(crate) fn selected(
    alloc: Global,
    settings: &Settings,
    contents: &[Bytes],
) -> Result<Vec<Selected>, DesignEnd>
    requires few { length contents.now ≤ 64 }
    requires short { (i : ℕ) → length (get_or contents.now i []) < 2147483648 }
    ensures have { IfOk result (λ texts. HaveEach (IsSelected settings.now.tool_type) (numbered 0 contents.now) texts.items) }
    ensures fit { IfOk result (λ texts. AllByRecursion ColumnsFit texts.items) }
    ensures end { IfErr result (IsEnd (IsFirstEnd (IsSelected settings.now.tool_type) (IsUnselected settings.now.tool_type) (numbered 0 contents.now))) }
{
    let mut texts = Vec::with_capacity(alloc, contents.len())?;
    for (i, bytes) in contents.iter().enumerate() {
        let text = match select(alloc, i as u32, bytes.as_slice(), settings) {
            Ok(text) => text,
            Err(end) => return Err(end_of_refusal(end)),
        };
        match texts.push(text) {
            Ok(()) => {}
            Err(_) => return Err(DesignEnd::Memory),
        }
    }
    Ok(texts)
}
