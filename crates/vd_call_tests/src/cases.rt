//! Files of cases. A line `@ KIND: TITLE` begins a case, and `= KIND NAME` one of its parts. Behind a line `=>` stand the parts that are
//! wanted. The bytes of a part follow in lines:
//!
//!     |TEXT         the text and a line feed
//!     +TEXT         the text
//!     %80 0d        the bytes of these numbers, in hexadecimal
//!     *COUNT LINE   what one of these three lines stands for, so many times
//!     <NAME         the bytes of the file of this name
//!
//! A line that is empty or begins with `#` stands for nothing.

use crate::parts::Part;
use anyhow::bail;
use std::alloc::{AllocError, Global};
use std::fs;

/// A case, and the number of its line.
#[derive(Drop)]
pub struct Case {
    pub line: usize,
    pub kind: String,
    pub title: String,
    pub given: Vec<Part>,
    pub wanted: Vec<Part>,
    is_given: bool,
}

/// What stands in front of some text, and what stands behind it, or nothing.
fn split<'a>(text: &'a str, between: &str) -> (&'a str, &'a str) {
    match text.split_once(between) {
        Some(parts) => parts,
        None => (text, ""),
    }
}

/// A case that is begun by a line.
fn begun(alloc: Global, head: &str, line: usize) -> Result<Case, AllocError> {
    let (kind, title) = split(head, ": ");
    Ok(Case {
        line,
        kind: String::from_str(alloc, kind)?,
        title: String::from_str(alloc, title)?,
        given: Vec::new(alloc),
        wanted: Vec::new(alloc),
        is_given: true,
    })
}

/// The number of a digit of base sixteen, or 0 of any other byte.
fn digit(b: u8) -> u8 {
    match b {
        b'0'..=b'9' => b - b'0',
        b'a'..=b'f' => b - b'a' + 10,
        _ => 0,
    }
}

/// Adds the bytes of some numbers.
fn add_numbers(bytes: &mut Vec<u8>, numbers: &str) -> anyhow::Result<()> {
    for number in numbers.split(' ') {
        let [high, low] = number.as_bytes() else {
            bail!("a byte has two digits");
        };
        bytes.push(digit(*high).wrapping_mul(16) | digit(*low))?;
    }
    Ok(())
}

/// Adds what a line stands for that has bytes of its own.
fn add_piece(bytes: &mut Vec<u8>, line: &str) -> anyhow::Result<()> {
    if let Some(text) = line.strip_prefix('|') {
        bytes.extend_from_slice(text.as_bytes())?;
        bytes.push(b'\n')?;
        return Ok(());
    }
    if let Some(text) = line.strip_prefix('+') {
        bytes.extend_from_slice(text.as_bytes())?;
        return Ok(());
    }
    match line.strip_prefix('%') {
        Some(numbers) => add_numbers(bytes, numbers),
        None => bail!("there is no line {line}"),
    }
}

/// Adds what a line stands for, so many times.
fn add_times(alloc: Global, bytes: &mut Vec<u8>, count: usize, line: &str) -> anyhow::Result<()> {
    let mut piece = Vec::new(alloc);
    add_piece(&mut piece, line)?;
    if let [b] = piece.as_slice() {
        let run = vec![in alloc; *b; count]?;
        bytes.extend_from_slice(&run)?;
        return Ok(());
    }
    for _ in 0..count {
        bytes.extend_from_slice(&piece)?;
    }
    Ok(())
}

/// Adds what a line stands for.
fn add_line(rt: HostRuntime, bytes: &mut Vec<u8>, line: &str) -> anyhow::Result<()> {
    if let Some(name) = line.strip_prefix('<') {
        let content = fs::read(&rt, name)?;
        bytes.extend_from_slice(&content)?;
        return Ok(());
    }
    match line.strip_prefix('*') {
        Some(rest) => {
            let (count, line) = split(rest, " ");
            add_times(rt.alloc(), bytes, count.parse::<usize>()?, line)
        }
        None => add_piece(bytes, line),
    }
}

/// Begins a part with a line, or adds what it stands for to the last one.
fn read_part(rt: HostRuntime, parts: &mut Vec<Part>, line: &str) -> anyhow::Result<()> {
    if let Some(head) = line.strip_prefix("= ") {
        let (kind, name) = split(head, " ");
        parts.push(Part::named(rt.alloc(), kind, name)?)?;
        return Ok(());
    }
    match parts.last_mut() {
        Some(part) => add_line(rt, &mut part.bytes, line),
        None => bail!("a line belongs to no part"),
    }
}

/// Reads a line of a case.
fn read_line(rt: HostRuntime, case: &mut Case, line: &str) -> anyhow::Result<()> {
    if line == "=>" {
        case.is_given = false;
        return Ok(());
    }
    if case.is_given {
        read_part(rt, &mut case.given, line)
    } else {
        read_part(rt, &mut case.wanted, line)
    }
}

/// Whether a line stands for nothing.
fn is_comment(line: &str) -> bool {
    line.is_empty() || line.starts_with('#')
}

/// The cases of a file.
pub fn cases_of(rt: HostRuntime, text: &str) -> anyhow::Result<Vec<Case>> {
    let mut cases = Vec::new(rt.alloc());
    for (number, line) in text.lines().enumerate() {
        if is_comment(line) {
            continue;
        }
        if let Some(head) = line.strip_prefix("@ ") {
            cases.push(begun(rt.alloc(), head, number.saturating_add(1))?)?;
            continue;
        }
        match cases.last_mut() {
            Some(case) => read_line(rt, case, line)?,
            None => bail!("a line belongs to no case"),
        }
    }
    Ok(cases)
}
