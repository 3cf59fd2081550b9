//! The text of a map: compact JSON and a line end.

ghost use Rattle.std.specs.Prelude.{◌≡◌, ◌++◌, ◌∷◌, [], ◌<◌, ◌/◌, ◌%◌, OnOk, IfOk};
ghost use Rattle.vd_first_names.specs.Maps.{digit, code_start, escaped, quoted, kind_text, field_text, row_text, further_rows_text, rows_text, map_text_of};

use crate::map::NameMap;
use std::alloc::{AllocError, Global};
use vd_trees::{Row, RowKind};

/// The map's text.
pub fn map_text(alloc: Global, map: &NameMap) -> Result<Vec<u8>, AllocError>
    ensures { IfOk result (λ text. text.items ≡ map_text_of map.now.rows) }
{
    let mut out = Vec::new(alloc);
    out.extend_from_slice(b"{\"format\":1,\"rows\":[")?;
    push_rows(&mut out, map.rows.as_slice())?;
    out.extend_from_slice(b"]}")?;
    out.push(b'\n')?;
    Ok(out)
}

// The rows, with commas between them.
fn push_rows(out: &mut Vec<u8>, rows: &[Row]) -> Result<(), AllocError>
    ensures { OnOk result (out.new.items ≡ out.old.items ++ rows_text rows.now) }
{
    if let Some((first, others)) = rows.split_first() {
        push_row(out, first)?;
        push_further(out, others)?;
    }
    Ok(())
}

// Rows behind a first one.
fn push_further(out: &mut Vec<u8>, rows: &[Row]) -> Result<(), AllocError>
    ensures { OnOk result (out.new.items ≡ out.old.items ++ further_rows_text rows.now) }
{
    for row in rows {
        out.extend_from_slice(b",")?;
        push_row(out, row)?;
    }
    Ok(())
}

fn push_row(out: &mut Vec<u8>, row: &Row) -> Result<(), AllocError>
    ensures { OnOk result (out.new.items ≡ out.old.items ++ row_text row.now) }
{
    out.extend_from_slice(b"[")?;
    push_quoted(out, kind_text(row.kind))?;
    push_field(out, row.unit.as_slice())?;
    push_field(out, row.name19.as_slice())?;
    push_field(out, row.name93.as_slice())?;
    push_field(out, row.mark.as_slice())?;
    push_field(out, row.mode.as_slice())?;
    out.extend_from_slice(b"]")?;
    Ok(())
}

// A text behind its comma.
fn push_field(out: &mut Vec<u8>, text: &[u8]) -> Result<(), AllocError>
    ensures { OnOk result (out.new.items ≡ out.old.items ++ field_text text.now) }
{
    out.push(b',')?;
    push_quoted(out, text)
}

fn kind_text(kind: RowKind) -> &'static [u8]
    ensures { result.now ≡ kind_text kind }
{
    match kind {
        RowKind::Port => b"port",
        RowKind::Signal => b"signal",
        RowKind::Implicit => b"implicit",
        RowKind::Label => b"label",
        RowKind::TypeName => b"type",
    }
}

fn push_quoted(out: &mut Vec<u8>, text: &[u8]) -> Result<(), AllocError>
    ensures { OnOk result (out.new.items ≡ out.old.items ++ quoted text.now) }
{
    out.push(b'"')?;
    for byte in text {
        push_escaped(out, *byte)?;
    }
    out.push(b'"')?;
    Ok(())
}

// One byte of a text, escaped where JSON wants it.
fn push_escaped(out: &mut Vec<u8>, byte: u8) -> Result<(), AllocError>
    ensures { OnOk result (out.new.items ≡ out.old.items ++ escaped byte) }
{
    match byte {
        b'"' => out.extend_from_slice(b"\\\"")?,
        b'\\' => out.extend_from_slice(b"\\\\")?,
        8 => out.extend_from_slice(b"\\b")?,
        9 => out.extend_from_slice(b"\\t")?,
        10 => out.extend_from_slice(b"\\n")?,
        12 => out.extend_from_slice(b"\\f")?,
        13 => out.extend_from_slice(b"\\r")?,
        0..32 => push_code(out, byte)?,
        _ => out.push(byte)?,
    }
    Ok(())
}

// A control code by its number.
fn push_code(out: &mut Vec<u8>, byte: u8) -> Result<(), AllocError>
    ensures { OnOk result (out.new.items ≡ out.old.items ++ (code_start ++ (digit (byte / 16) ∷ digit (byte % 16) ∷ []))) }
{
    out.extend_from_slice(b"\\u00")?;
    out.push(digit(byte / 16))?;
    out.push(digit(byte % 16))?;
    Ok(())
}

fn digit(number: u8) -> u8
    requires { number < 16 }
    ensures { result ≡ digit number }
{
    if number < 10 {
        b'0' + number
    } else {
        b'a' - 10 + number
    }
}
