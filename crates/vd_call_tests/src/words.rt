//! Command lines, and what they mean.

use crate::parts::Part;
use anyhow::bail;
use std::alloc::{AllocError, Global};
use std::str;
use vd_words::{Command, WordsEnd, read_words};

/// Adds each line of a text as a word.
fn add_lines(words: &mut Vec<String>, alloc: Global, text: &str) -> Result<(), AllocError> {
    for line in text.lines() {
        words.push(String::from_str(alloc, line)?)?;
    }
    Ok(())
}

/// The words of a part: those in its own line, and then each line of its bytes.
pub fn words_of(alloc: Global, part: &Part) -> anyhow::Result<Vec<String>> {
    let Ok(lines) = str::from_utf8(&part.bytes) else {
        bail!("words have other bytes than UTF-8");
    };
    let mut words = Vec::new(alloc);
    for word in part.name.as_str().split_whitespace() {
        words.push(String::from_str(alloc, word)?)?;
    }
    add_lines(&mut words, alloc, lines)?;
    Ok(words)
}

/// Words as a part, a line each.
fn lines_part(alloc: Global, kind: &str, words: &[String]) -> Result<Part, AllocError> {
    let mut part = Part::named(alloc, kind, "")?;
    for word in words {
        part.bytes.extend_from_slice(word.as_bytes())?;
        part.bytes.push(b'\n')?;
    }
    Ok(part)
}

/// What a command has, each as a part.
fn parts_of(alloc: Global, command: &Command) -> Result<Vec<Part>, AllocError> {
    let mode = command.mode;
    let cycles = command.cycles;
    let units = command.units;
    let mode = format!(in alloc; "{mode:?}")?;
    let cycles = format!(in alloc; "{cycles}")?;
    let units = format!(in alloc; "{units}")?;
    let mut parts = Vec::new(alloc);
    parts.push(Part::named(alloc, "mode", mode.as_str())?)?;
    parts.push(Part::of(alloc, "top", "", command.top.as_slice())?)?;
    parts.push(Part::named(alloc, "cycles", cycles.as_str())?)?;
    parts.push(Part::named(alloc, "units", units.as_str())?)?;
    parts.push(Part::of(alloc, "tool", "", command.tool_type.as_slice())?)?;
    parts.push(lines_part(alloc, "files", command.files.as_slice())?)?;
    Ok(parts)
}

/// What some words mean, or that they aren't taken.
pub fn meaning(alloc: Global, part: &Part) -> anyhow::Result<Vec<Part>> {
    let words = words_of(alloc, part)?;
    match read_words(alloc, &words) {
        Ok(command) => Ok(parts_of(alloc, &command)?),
        Err(WordsEnd::NotTaken) => {
            let mut parts = Vec::new(alloc);
            parts.push(Part::named(alloc, "refused", "")?)?;
            Ok(parts)
        }
        Err(WordsEnd::Memory) => bail!("memory ran out"),
    }
}
