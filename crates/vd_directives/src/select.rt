//! The selected text of a file.

ghost use Rattle.std.specs.Prelude.{◌≡◌, ◌<◌, ◌+◌, ◌^◌, ◌++◌, length, IfOk, OnOk};
ghost use Rattle.vd_directives.specs.Lines.{ColumnsFit};
ghost use Rattle.vd_directives.specs.Directives.{kind_of};
ghost use Rattle.vd_directives.specs.Kept.{kept_lines, kept_warnings, column_behind, IsBroken, IsKept};
ghost use Rattle.vd_directives.specs.Levels.{here, entered};
ghost use Rattle.vd_directives.specs.Selection as selections;
ghost use Rattle.vd_directives.specs.Selection.{selection, IsAnswer};

use crate::groups::{Level, enter, is_here, level_rule};
use crate::kinds::{Kind, blank_length, kind_from};
use crate::plain::first_line;
use crate::selected::{Line, Lines, Selected};
use crate::settings::Settings;
use crate::stack::Stack;
use std::alloc::{AllocError, Global};
use vd_bytes::{Bytes, Place, Refusal, Refused};

/// What stands so far: the groups that are open, the lines that are read and the warnings.
#[derive(Drop)]
struct Selecting {
    groups: Stack<Level>,
    lines: Vec<Line>,
    warnings: Vec<Line>,
}

/// Keeps a line or a warning that is selected.
fn keep(
    alloc: Global,
    selecting: &mut Selecting,
    number: u32,
    line: &[u8],
    kind: &Kind,
) -> Result<(), AllocError>
    ensures groups { selecting.new.groups ≡ selecting.old.groups }
    ensures lines { OnOk result (selecting.new.lines.items ≡ selecting.old.lines.items ++ kept_lines number line.now kind.now) }
    ensures warnings { OnOk result (selecting.new.warnings.items ≡ selecting.old.warnings.items ++ kept_warnings number kind.now) }
{
    match kind {
        Kind::Plain => {
            let bytes = Bytes::from_slice(alloc, line)?;
            selecting.lines.push(Line { number, bytes })?;
        }
        Kind::Warning(text) => {
            let bytes = Bytes::from_slice(alloc, text.as_slice())?;
            selecting.warnings.push(Line { number, bytes })?;
        }
        _ => {}
    }
    Ok(())
}

/// The rule that a line breaks and the column, where it breaks one itself or a group has no end. The
/// rule 0 is none.
fn break_of(own: u16, unclosed: bool, blank: usize) -> (u16, u32)
    requires fits { 0 < own → blank + 1 < 2 ^ 32 }
    ensures rule { result.0 ≡ selections.rule_of unclosed own }
    ensures column { 0 < result.0 → result.1 ≡ column_behind unclosed own blank }
{
    if unclosed && own != 111 {
        (112, 1)
    } else if own == 0 {
        (0, 1)
    } else {
        (own, blank as u32 + 1)
    }
}

/// Reads a line. The answer is the rule that it breaks and the column, or the rule 0.
#[tactic(auto, using(crate::proofs::SelectLemmas::own_fits, crate::proofs::SelectLemmas::kept_none))]
fn read_line(
    alloc: Global,
    selecting: &mut Selecting,
    tool: &[u8],
    number: u32,
    line: &[u8],
    is_last: bool,
) -> Result<(u16, u32), AllocError>
    requires short { length line.now < 2 ^ 32 }
    ensures broken { IfOk result (λ broken. IsBroken tool.now line.now is_last selecting.old.groups broken.0 broken.1) }
    ensures groups { OnOk result (selecting.new.groups ≡ entered (kind_of tool.now line.now) selecting.old.groups) }
    ensures kept { IfOk result (λ broken. broken.0 ≡ 0
        → IsKept number line.now (kind_of tool.now line.now) (here selecting.old.groups) selecting.old.lines.items selecting.new.lines.items selecting.old.warnings.items selecting.new.warnings.items) }
{
    let blank = blank_length(line);
    let kind = kind_from(alloc, tool, &line[blank..])?;
    let own = level_rule(&selecting.groups, &kind);
    let here = is_here(&selecting.groups);
    enter(&mut selecting.groups, &kind)?;
    let unclosed = is_last && !selecting.groups.is_empty();
    let (rule, column) = break_of(own, unclosed, blank);
    if rule == 0 && here {
        keep(alloc, selecting, number, line, &kind)?;
    }
    Ok((rule, column))
}

/// The answer for a file, where the text of TOOL_TYPE is known.
#[tactic(auto, using(crate::proofs::SelectLemmas::selecting_steps))]
fn answer(
    alloc: Global,
    file: u32,
    bytes: &[u8],
    tool: &[u8],
) -> Result<Result<Selected, Refused>, AllocError>
    requires short { length bytes.now < 2 ^ 32 }
    ensures exact { IfOk result (λ given. selection tool.now file bytes.now ≡ given) }
{
    let mut selecting = Selecting {
        groups: Stack::new(alloc),
        lines: Vec::new(alloc),
        warnings: Vec::new(alloc),
    };
    let mut number = 0;
    let mut rest = bytes;
    while !rest.is_empty() {
        let (line, after) = first_line(rest);
        number += 1;
        let is_last = after.is_empty();
        let (rule, column) = read_line(alloc, &mut selecting, tool, number, line, is_last)?;
        if rule != 0 {
            let place = Place {
                file,
                line: number,
                column,
            };
            return Ok(Err(Refused { place, rule }));
        }
        rest = after;
    }
    Ok(Ok(Selected {
        file,
        lines: Lines::of(selecting.lines),
        warnings: Lines::of(selecting.warnings),
    }))
}

/// The lines of a file that its directives select, and the warnings among them. A refusal names
/// the first line that breaks a rule.
#[tactic(auto, using(crate::proofs::SelectLemmas::selection_fits))]
pub fn select(
    alloc: Global,
    file: u32,
    bytes: &[u8],
    settings: &Settings,
) -> Result<Selected, Refusal>
    requires short { length bytes.now < 2 ^ 32 }
    ensures exact { IsAnswer (selection settings.now.tool_type file bytes.now) result }
    ensures fits { IfOk result (λ s. length bytes.now + 1 < 2 ^ 32 → ColumnsFit s) }
{
    match answer(alloc, file, bytes, settings.tool_type.as_slice()) {
        Ok(Ok(selected)) => Ok(selected),
        Ok(Err(refused)) => Err(Refusal::Refused(refused)),
        Err(_) => Err(Refusal::Memory),
    }
}
