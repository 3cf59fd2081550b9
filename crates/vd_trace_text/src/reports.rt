//! The lines of reports and stops.

ghost use Rattle.std.specs.Prelude.{◌≡◌, ◌++◌, ◌<◌, OnOk, false};
ghost use Rattle.std.specs.List.{flat_map};
ghost use Rattle.std.specs.Fmt.{digit_glyph};
ghost use Rattle.vd_trees.specs.TraceText.{escaped, severity_text, report_line, kind_text, stop_line};

use crate::paths::add_scope;
use std::alloc::AllocError;
use vd_trees::{Report, Stop};
use vd_values::StopKind;

pub(crate) fn add_reports(
    text: &mut Vec<u8>,
    time: u64,
    delta: u32,
    reports: &[Report],
) -> Result<(), AllocError>
    ensures { OnOk result (text.new.items ≡ text.old.items ++ flat_map (report_line time delta) reports.now) }
{
    for report in reports {
        add_report(text, time, delta, report)?;
    }
    Ok(())
}

// `report TIME DELTA SEVERITY TEXT`
fn add_report(text: &mut Vec<u8>, time: u64, delta: u32, report: &Report) -> Result<(), AllocError>
    ensures { OnOk result (text.new.items ≡ text.old.items ++ report_line time delta report.now) }
{
    let alloc = *text.allocator();
    let severity = severity_text(report.severity);
    let start = format!(in alloc; "report {time} {delta} {severity} ")?;
    text.extend_from_slice(start.as_bytes())?;
    add_escaped(text, report.text.as_slice())?;
    text.push(b'\n')?;
    Ok(())
}

fn severity_text(severity: u8) -> &'static str
    ensures { result.now ≡ severity_text severity }
{
    match severity {
        0 => "note",
        1 => "warning",
        2 => "error",
        3 => "failure",
        _ => "",
    }
}

fn add_escaped(text: &mut Vec<u8>, bytes: &[u8]) -> Result<(), AllocError>
    ensures { OnOk result (text.new.items ≡ text.old.items ++ flat_map escaped bytes.now) }
{
    for byte in bytes {
        add_byte(text, *byte)?;
    }
    Ok(())
}

// A backslash, or a byte that is no printed character of ASCII, is written as two digits.
fn add_byte(text: &mut Vec<u8>, byte: u8) -> Result<(), AllocError>
    ensures { OnOk result (text.new.items ≡ text.old.items ++ escaped byte) }
{
    if byte == b'\\' || byte < b' ' || byte > b'~' {
        text.push(b'\\')?;
        text.push(hexadecimal_digit(byte / 16))?;
        text.push(hexadecimal_digit(byte % 16))?;
    } else {
        text.push(byte)?;
    }
    Ok(())
}

fn hexadecimal_digit(number: u8) -> u8
    requires { number < 16 }
    ensures { result ≡ digit_glyph false number }
{
    if number < 10 {
        b'0' + number
    } else {
        b'a' + (number - 10)
    }
}

/// `stop KIND TIME DELTA SCOPE`
pub(crate) fn add_stop_line(text: &mut Vec<u8>, stop: &Stop) -> Result<(), AllocError>
    ensures { OnOk result (text.new.items ≡ text.old.items ++ stop_line stop.now) }
{
    let alloc = *text.allocator();
    let kind = kind_text(stop.kind);
    let time = stop.time;
    let delta = stop.delta;
    let start = format!(in alloc; "stop {kind} {time} {delta} ")?;
    text.extend_from_slice(start.as_bytes())?;
    add_scope(text, &stop.scope)?;
    text.push(b'\n')?;
    Ok(())
}

fn kind_text(kind: StopKind) -> &'static str
    ensures { result.now ≡ kind_text kind }
{
    match kind {
        StopKind::Range => "Range",
        StopKind::Index => "Index",
        StopKind::Length => "Length",
        StopKind::Overflow => "Overflow",
        StopKind::DivideByZero => "DivideByZero",
        StopKind::NoReturn => "NoReturn",
        StopKind::TwoSources => "TwoSources",
        StopKind::Failure => "Failure",
    }
}
