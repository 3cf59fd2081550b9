//! Trays in memory that are read and written. In front of the commands stand the numbers of the calls of opening, of reading and of writing that fail.
//! Commands have a `/` between them.

ghost use Rattle.std.specs.Prelude.{◌≡◌, ◌≢◌, IfOk, IsOk, vec_len};

use std::alloc::{AllocError, Global};
use vd_bytes::{Channel, MemoryTray, ReadEnd, SureTray, WriteFault, read_all, write_all};

/// The names of the files.
fn names(alloc: Global) -> Result<Vec<String>, AllocError>
    ensures { IfOk result (λ names. vec_len names ≡ 2) }
{
    let mut names = Vec::new(alloc);
    names.push(String::from_str(alloc, "a")?)?;
    names.push(String::from_str(alloc, "long")?)?;
    Ok(names)
}

/// The text `entity`, and a file that is longer than the buffer.
fn contents(alloc: Global) -> Result<Vec<Vec<u8>>, AllocError>
    ensures { IfOk result (λ contents. vec_len contents ≡ 2) }
{
    let mut contents = Vec::new(alloc);
    contents.push(Vec::from_slice(alloc, b"entity")?)?;
    contents.push(vec![in alloc; 7; 70000]?)?;
    Ok(contents)
}

/// Numbers with spaces between them.
fn numbers(alloc: Global, text: &str) -> Result<Vec<u64>, AllocError> {
    let mut out = Vec::new(alloc);
    for word in text.split_whitespace() {
        out.push(word.parse::<u64>().unwrap_or(0))?;
    }
    Ok(out)
}

/// A tray of the files, on which the calls of these numbers fail.
fn memory_tray(
    alloc: Global,
    opens: &str,
    reads: &str,
    writes: &str,
) -> Result<MemoryTray, AllocError> {
    let opens = numbers(alloc, opens)?;
    let reads = numbers(alloc, reads)?;
    let writes = numbers(alloc, writes)?;
    MemoryTray::new(alloc, names(alloc)?, contents(alloc)?, opens, reads, writes)
}

/// A word and what stands behind it.
fn split(text: &str) -> (&str, &str) {
    match text.split_once(' ') {
        Some(parts) => parts,
        None => (text, ""),
    }
}

fn channel(word: &str) -> Channel {
    match word {
        "design" => Channel::Design,
        "map" => Channel::Map,
        _ => Channel::Console,
    }
}

/// What was read, where it is long the number of sevens, or why nothing was.
fn add_read(
    alloc: Global,
    out: &mut Vec<u8>,
    read: &Result<Vec<u8>, ReadEnd>,
) -> Result<(), AllocError> {
    let text = match read {
        Ok(bytes) => {
            let count = bytes.len();
            if count < 1000 {
                return out.extend_from_slice(bytes);
            }
            let sevens = bytes.iter().filter(|b| **b == 7).count();
            format!(in alloc; "{count} bytes, {sevens} sevens")?
        }
        Err(end) => format!(in alloc; "{end:?}")?,
    };
    out.extend_from_slice(text.as_bytes())
}

fn add_written(out: &mut Vec<u8>, written: Result<(), WriteFault>) -> Result<(), AllocError> {
    match written {
        Ok(()) => out.extend_from_slice(b"written"),
        Err(WriteFault) => out.extend_from_slice(b"WriteFault"),
    }
}

/// What one command gives.
fn add_answer(
    alloc: Global,
    out: &mut Vec<u8>,
    tray: &mut MemoryTray,
    command: &str,
) -> Result<(), AllocError> {
    let (word, rest) = split(command);
    let (name, rest) = split(rest);
    match word {
        "short" => {
            tray.short(name.parse::<usize>().unwrap_or(usize::MAX));
            Ok(())
        }
        "read" => {
            let left = rest.parse::<u64>().unwrap_or(0);
            add_read(alloc, out, &read_all(alloc, tray, name, left))
        }
        "write" => add_written(out, write_all(tray, channel(name), rest.as_bytes())),
        "out" => out.extend_from_slice(tray.out(channel(name))),
        _ => {
            let begun = tray.is_begun(channel(name));
            let text = format!(in alloc; "{begun}")?;
            out.extend_from_slice(text.as_bytes())
        }
    }
}

/// What commands give on a tray on which some calls fail.
pub fn with_tray(alloc: Global, input: &str) -> Result<Vec<u8>, AllocError> {
    let mut parts = input.split('|');
    let opens = parts.next().unwrap_or("");
    let reads = parts.next().unwrap_or("");
    let mut tray = memory_tray(alloc, opens, reads, parts.next().unwrap_or(""))?;
    let mut out = Vec::new(alloc);
    for command in parts.next().unwrap_or("").split('/') {
        add_answer(alloc, &mut out, &mut tray, command)?;
        out.push(b'|')?;
    }
    Ok(out)
}

/// Over the sure tray there is no write fault.
fn write_surely(tray: &mut SureTray, bytes: &[u8]) -> Result<(), WriteFault>
    ensures { IsOk result }
{
    write_all(tray, Channel::Design, bytes)
}

/// Over the sure tray there is no read fault.
fn read_surely(
    alloc: Global,
    tray: &mut SureTray,
    name: &str,
    left: u64,
) -> Result<Vec<u8>, ReadEnd>
    ensures { result ≢ Err ReadEnd.ReadFault }
{
    read_all(alloc, tray, name, left)
}

/// What one command gives on the sure tray.
fn add_surely(
    alloc: Global,
    out: &mut Vec<u8>,
    tray: &mut SureTray,
    command: &str,
) -> Result<(), AllocError> {
    let (word, rest) = split(command);
    let (name, left) = split(rest);
    if word == "write" {
        return add_written(out, write_surely(tray, rest.as_bytes()));
    }
    let left = left.parse::<u64>().unwrap_or(0);
    add_read(alloc, out, &read_surely(alloc, tray, name, left))
}

/// What commands give on the sure tray.
pub fn surely(alloc: Global, input: &str) -> Result<Vec<u8>, AllocError> {
    let mut tray = SureTray::new(alloc, names(alloc)?, contents(alloc)?)?;
    let mut out = Vec::new(alloc);
    for command in input.split('/') {
        add_surely(alloc, &mut out, &mut tray, command)?;
        out.push(b'|')?;
    }
    Ok(out)
}
