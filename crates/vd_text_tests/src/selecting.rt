//! The lines of files, and those that directives select.

ghost use Rattle.std.specs.Prelude.{◌<◌, length};

use crate::lexing::shown_refusal;
use std::alloc::{AllocError, Global};
use vd_bytes::{Refusal, Text};
use vd_directives::plain::plain;
use vd_directives::select::select;
use vd_directives::{Line, Selected, Settings};
use vd_test_texts::LONGEST;

/// Lines with their numbers.
fn add_lines(alloc: Global, out: &mut Vec<u8>, lines: &[Line]) -> Result<(), AllocError> {
    for line in lines {
        let number = line.number;
        let head = format!(in alloc; "{number} ")?;
        out.extend_from_slice(head.as_bytes())?;
        out.extend_from_slice(line.bytes.as_slice())?;
        out.push(b'|')?;
    }
    Ok(())
}

/// The number of the file, its lines, and the warnings behind `!`.
fn shown(alloc: Global, selected: &Selected) -> Result<Vec<u8>, AllocError> {
    let file = selected.file;
    let head = format!(in alloc; "{file}: ")?;
    let mut out = Vec::from_slice(alloc, head.as_bytes())?;
    add_lines(alloc, &mut out, selected.lines.as_slice())?;
    out.push(b'!')?;
    add_lines(alloc, &mut out, selected.warnings.as_slice())?;
    Ok(out)
}

/// All lines of a file. In front of it stands a digit, the number of the file, and a colon.
pub fn shown_lines(alloc: Global, input: &[u8]) -> Result<Vec<u8>, AllocError> {
    let [digit, b':', bytes @ ..] = input else {
        return Vec::from_slice(alloc, b"the file has no number");
    };
    if bytes.len() >= LONGEST {
        return Vec::from_slice(alloc, b"too long");
    }
    let file = u32::from(digit.saturating_sub(b'0'));
    let selected = plain(alloc, file, bytes)?;
    shown(alloc, &selected)
}

/// What is selected of a file where TOOL_TYPE is SYNTHESIS.
fn selected(alloc: Global, bytes: &[u8]) -> Result<Selected, Refusal>
    requires { length bytes.now < 16777216 }
{
    match Text::from_slice(alloc, b"SYNTHESIS") {
        Ok(tool_type) => select(alloc, 0, bytes, &Settings { tool_type }),
        Err(_) => Err(Refusal::Memory),
    }
}

/// The lines and the warnings that are selected of a file, or what refuses it.
pub fn shown_selection(alloc: Global, bytes: &[u8]) -> Result<Vec<u8>, AllocError> {
    if bytes.len() >= LONGEST {
        return Vec::from_slice(alloc, b"too long");
    }
    match selected(alloc, bytes) {
        Ok(selected) => shown(alloc, &selected),
        Err(end) => shown_refusal(alloc, &end),
    }
}
