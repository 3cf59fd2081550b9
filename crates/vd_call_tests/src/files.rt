//! Steps over real files, in the folder in which the program runs.

use crate::parts::Part;
use anyhow::bail;
use std::alloc::Global;
use std::fs;
use vd_bytes::{Channel, Failed, ReadEnd, Tray, read_all, write_all};
use vd_file_tray::FileTray;

/// Longer files aren't read.
const LONGEST: u64 = 100;

/// What a file has, or why it wasn't read.
fn read(alloc: Global, tray: &mut FileTray, name: &str) -> anyhow::Result<Part> {
    match read_all(alloc, tray, name, LONGEST) {
        Ok(bytes) => Ok(Part::of(alloc, "read", name, &bytes)?),
        Err(ReadEnd::ReadFault) => Ok(Part::named(alloc, "fault", name)?),
        Err(_) => bail!("a file is too long"),
    }
}

/// What comes of opening a file, and of reading four bytes of it.
fn open(alloc: Global, tray: &mut FileTray, name: &str) -> anyhow::Result<Part> {
    if tray.open_file(name).is_err() {
        return Ok(Part::named(alloc, "fault", name)?);
    }
    match tray.read(&mut [0; 4]) {
        Ok(_) => Ok(Part::named(alloc, "opened", name)?),
        Err(Failed) => Ok(Part::named(alloc, "unreadable", name)?),
    }
}

/// Writes a piece on the channel of a file.
fn write(tray: &mut FileTray, name: &str, bytes: &[u8]) -> anyhow::Result<()> {
    let to = match name {
        "design" => Channel::Design,
        "map" => Channel::Map,
        _ => bail!("there is no file for {name}"),
    };
    if write_all(tray, to, bytes).is_err() {
        bail!("a file can't be written");
    }
    Ok(())
}

/// How long a file is.
fn size(rt: HostRuntime, name: &str) -> anyhow::Result<Part> {
    let length = fs::metadata(&rt, name)?.len();
    let number = format!(in rt.alloc(); "{length}")?;
    Ok(Part::of(rt.alloc(), "size", name, number.as_bytes())?)
}

/// Carries out a step on a tray: `write CHANNEL`, `read FILE`, `open FILE` or `size FILE`.
fn step(rt: HostRuntime, tray: &mut FileTray, part: &Part) -> anyhow::Result<Option<Part>> {
    let name = part.name.as_str();
    match part.kind.as_str() {
        "write" => write(tray, name, &part.bytes)?,
        "read" => return Ok(Some(read(rt.alloc(), tray, name)?)),
        "open" => return Ok(Some(open(rt.alloc(), tray, name)?)),
        "size" => return Ok(Some(size(rt, name)?)),
        _ => {}
    }
    Ok(None)
}

/// Writes the old files, those of the parts `old FILE`.
fn add_old(rt: HostRuntime, given: &[Part]) -> anyhow::Result<()> {
    for part in given {
        if part.kind.as_str() == "old" {
            fs::write(&rt, part.name.as_str(), &part.bytes)?;
        }
    }
    Ok(())
}

/// Removes the files of the parts `remove FILE`.
fn remove(rt: HostRuntime, given: &[Part]) -> anyhow::Result<()> {
    for part in given {
        if part.kind.as_str() == "remove" {
            fs::remove_file(&rt, part.name.as_str())?;
        }
    }
    Ok(())
}

/// What comes of steps over real files. Old files are written before, and files are removed behind them.
pub fn stepped(rt: HostRuntime, given: &[Part]) -> anyhow::Result<Vec<Part>> {
    add_old(rt, given)?;
    let mut tray = FileTray::new(rt);
    let mut parts = Vec::new(rt.alloc());
    for part in given {
        if let Some(came) = step(rt, &mut tray, part)? {
            parts.push(came)?;
        }
    }
    remove(rt, given)?;
    Ok(parts)
}
