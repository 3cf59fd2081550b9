//! The lines of the mode: warnings, and how many units are accepted.

ghost use Rattle.std.specs.Prelude.{◌≡◌, ◌++◌, IfOk, OnOk, codes, string_bytes};
ghost use Rattle.std.specs.Fmt.{decimal};
ghost use Rattle.vd_modes.specs.Checks.{accepted_line, file_named, warning_line, warning_lines, warnings_from};
ghost use Rattle.vd_words.specs.Words.{texts_of};

use std::alloc::{AllocError, Global};
use vd_directives::{Line, Lines};

/// `FILE:LINE:1: warning: `
fn warning_head(alloc: Global, file: &str, number: u32) -> Result<String, AllocError>
    ensures { IfOk result (λ head. string_bytes head ≡ file.now ++ (codes ":" ++ (decimal number ++ codes ":1: warning: "))) }
{
    format!(in alloc; "{file}:{number}:1: warning: ")
}

/// Puts the line of a warning behind a text.
fn add_warning(
    alloc: Global,
    text: &mut Vec<u8>,
    file: &str,
    warning: &Line,
) -> Result<(), AllocError>
    ensures { OnOk result (text.new.items ≡ text.old.items ++ warning_line file.now warning.now) }
{
    let head = warning_head(alloc, file, warning.number)?;
    text.extend_from_slice(head.as_bytes())?;
    text.extend_from_slice(warning.bytes.as_slice())?;
    text.push(b'\n')?;
    Ok(())
}

/// Puts the lines of a file's warnings behind a text.
fn add_warnings(
    alloc: Global,
    text: &mut Vec<u8>,
    file: &str,
    warnings: &[Line],
) -> Result<(), AllocError>
    ensures { OnOk result (text.new.items ≡ text.old.items ++ warning_lines file.now warnings.now) }
{
    for warning in warnings {
        add_warning(alloc, text, file, warning)?;
    }
    Ok(())
}

/// The name of the file of that number, from 0.
pub(crate) fn file_named<'a>(names: &'a [String], file: usize) -> &'a str
    ensures { result.now ≡ file_named (texts_of names.now) file }
{
    match names.get(file) {
        Some(name) => name.as_str(),
        None => "",
    }
}

/// Puts the lines of the warnings of all files behind a text.
pub fn add_all_warnings(
    alloc: Global,
    text: &mut Vec<u8>,
    names: &[String],
    warnings: &[Lines],
) -> Result<(), AllocError>
    ensures { OnOk result (text.new.items ≡ text.old.items ++ warnings_from (texts_of names.now) 0 warnings.now) }
{
    for (i, own) in warnings.iter().enumerate() {
        add_warnings(alloc, text, file_named(names, i), own.as_slice())?;
    }
    Ok(())
}

/// The text of the console where units are accepted: the warnings of all files, and how many units there are.
pub(crate) fn console_text(
    alloc: Global,
    names: &[String],
    warnings: &[Lines],
    units: u32,
) -> Result<Vec<u8>, AllocError>
    ensures { IfOk result (λ text. text.items ≡ warnings_from (texts_of names.now) 0 warnings.now ++ accepted_line units) }
{
    let mut text = Vec::new(alloc);
    add_all_warnings(alloc, &mut text, names, warnings)?;
    let line = format!(in alloc; "accepted {units} units\n")?;
    text.extend_from_slice(line.as_bytes())?;
    Ok(text)
}
