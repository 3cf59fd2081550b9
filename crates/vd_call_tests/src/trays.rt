//! Trays in memory with the files of a case, and what is left on them.

use crate::parts::{Part, name_of};
use anyhow::bail;
use std::alloc::{AllocError, Global};
use vd_bytes::{Channel, MemoryTray, SureTray};

/// The names of the files.
fn file_names(alloc: Global, given: &[Part]) -> Result<Vec<String>, AllocError> {
    let mut names = Vec::new(alloc);
    for part in given {
        if part.kind.as_str() == "file" {
            names.push(String::from_str(alloc, part.name.as_str())?)?;
        }
    }
    Ok(names)
}

/// What stands in the files.
fn file_contents(alloc: Global, given: &[Part]) -> Result<Vec<Vec<u8>>, AllocError> {
    let mut contents = Vec::new(alloc);
    for part in given {
        if part.kind.as_str() == "file" {
            contents.push(Vec::from_slice(alloc, &part.bytes)?)?;
        }
    }
    Ok(contents)
}

/// The numbers, from 1, of the calls of a kind that fail.
fn failing(alloc: Global, given: &[Part], kind: &str) -> anyhow::Result<Vec<u64>> {
    let mut numbers = Vec::new(alloc);
    for word in name_of(given, kind).split_whitespace() {
        numbers.push(word.parse::<u64>()?)?;
    }
    Ok(numbers)
}

/// How many bytes a call moves at most.
fn most_of(given: &[Part]) -> anyhow::Result<usize> {
    match name_of(given, "most") {
        "" => Ok(usize::MAX),
        word => Ok(word.parse::<usize>()?),
    }
}

/// A tray of the files, on which the calls of `opens`, `reads` and `writes` fail, and a call moves at most `most` bytes.
pub fn memory_tray(alloc: Global, given: &[Part]) -> anyhow::Result<MemoryTray> {
    let names = file_names(alloc, given)?;
    let contents = file_contents(alloc, given)?;
    if names.len() != contents.len() {
        bail!("each name has a text");
    }
    let opens = failing(alloc, given, "opens")?;
    let reads = failing(alloc, given, "reads")?;
    let writes = failing(alloc, given, "writes")?;
    let most = most_of(given)?;
    let mut tray = MemoryTray::new(alloc, names, contents, opens, reads, writes)?;
    tray.short(most);
    Ok(tray)
}

/// A tray of the files that never fails.
pub fn sure_tray(alloc: Global, given: &[Part]) -> anyhow::Result<SureTray> {
    let names = file_names(alloc, given)?;
    let contents = file_contents(alloc, given)?;
    if names.len() != contents.len() {
        bail!("each name has a text");
    }
    Ok(SureTray::new(alloc, names, contents)?)
}

/// A status as a part.
pub fn status_part(alloc: Global, status: u8) -> Result<Part, AllocError> {
    let number = format!(in alloc; "{status}")?;
    Part::named(alloc, "status", number.as_str())
}

/// Adds what stands on a channel, if it was begun: else its file is neither created nor emptied.
fn add_channel(
    alloc: Global,
    parts: &mut Vec<Part>,
    tray: &MemoryTray,
    to: Channel,
    kind: &str,
) -> Result<(), AllocError> {
    let bytes = tray.out(to);
    if tray.is_begun(to) || !bytes.is_empty() {
        parts.push(Part::of(alloc, kind, "", bytes)?)?;
    }
    Ok(())
}

/// The status of a call, and what stands on each channel that it began.
pub fn left(alloc: Global, tray: &MemoryTray, status: u8) -> Result<Vec<Part>, AllocError> {
    let mut parts = Vec::new(alloc);
    parts.push(status_part(alloc, status)?)?;
    add_channel(alloc, &mut parts, tray, Channel::Design, "design")?;
    add_channel(alloc, &mut parts, tray, Channel::Map, "map")?;
    add_channel(alloc, &mut parts, tray, Channel::Console, "console")?;
    Ok(parts)
}
