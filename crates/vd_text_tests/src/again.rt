//! Texts that are printed, read and printed once more.

use crate::printing::printed;
use std::alloc::{AllocError, Global};

/// Whether a text is read, its print is read, and that is printed in the same way.
fn is_stable(alloc: Global, text: &[u8]) -> Result<bool, AllocError> {
    let Some(first) = printed(alloc, text)? else {
        return Ok(false);
    };
    let second = printed(alloc, &first)?;
    Ok(second.as_ref() == Some(&first))
}

/// Says which texts aren't printed again as they were printed first, and how many there are. In front of each text stands a line with
/// `@`.
pub fn check_again(rt: HostRuntime, file: &str, bytes: &[u8]) -> anyhow::Result<()> {
    let alloc = rt.alloc();
    let whole = bytes.strip_suffix(b"\n".as_slice()).unwrap_or(bytes);
    let mut count: usize = 0;
    let mut wrong: usize = 0;
    let mut text: Vec<u8> = Vec::new(alloc);
    let mut at: usize = 0;
    for (number, line) in whole.split(|b| *b == b'\n').enumerate() {
        if !line.starts_with(b"@".as_slice()) {
            text.extend_from_slice(line)?;
            text.push(b'\n')?;
            continue;
        }
        if at > 0 && !is_stable(alloc, &text)? {
            println!(rt; "{file}:{at}: printed otherwise")?;
            wrong = wrong.saturating_add(1);
        }
        count = count.saturating_add(1);
        at = number.saturating_add(1);
        text.clear();
    }
    if at > 0 && !is_stable(alloc, &text)? {
        println!(rt; "{file}:{at}: printed otherwise")?;
        wrong = wrong.saturating_add(1);
    }
    println!(rt; "{file}: {count} texts, {wrong} printed otherwise")?;
    Ok(())
}
