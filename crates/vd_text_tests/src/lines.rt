//! Files of cases, a line each: an input, a tab, and what is answered. A line with `#` in front says what follows. In both parts `\n`, `\r`, `\t` and
//! `\\` stand for a line feed, a carriage return, a tab and a backslash, and `\xHH` for the byte with that number.

use crate::given::given;
use std::alloc::{AllocError, Global};

/// The number of a digit of base sixteen, or 0 of any other byte.
fn digit(b: u8) -> u8 {
    match b {
        b'0'..=b'9' => b - b'0',
        b'a'..=b'f' => b - b'a' + 10,
        _ => 0,
    }
}

/// The first byte that a part of a line stands for, and the rest.
fn first_byte(part: &[u8]) -> Option<(u8, &[u8])> {
    match part {
        [] => None,
        [b'\\', b'n', rest @ ..] => Some((b'\n', rest)),
        [b'\\', b'r', rest @ ..] => Some((b'\r', rest)),
        [b'\\', b't', rest @ ..] => Some((b'\t', rest)),
        [b'\\', b'x', high, low, rest @ ..] => {
            Some((digit(*high).wrapping_mul(16) | digit(*low), rest))
        }
        [b'\\', rest @ ..] => Some((b'\\', rest.strip_prefix(b"\\".as_slice()).unwrap_or(rest))),
        [b, rest @ ..] => Some((*b, rest)),
    }
}

/// What a part of a line stands for.
fn meant(alloc: Global, part: &[u8]) -> Result<Vec<u8>, AllocError> {
    let mut bytes = Vec::new(alloc);
    let mut left = part;
    for _ in 0..part.len() {
        let Some((b, rest)) = first_byte(left) else {
            return Ok(bytes);
        };
        bytes.push(b)?;
        left = rest;
    }
    Ok(bytes)
}

/// What is answered in place of what a line says, if it differs.
fn differing(alloc: Global, kind: &str, line: &[u8]) -> Result<Option<Vec<u8>>, AllocError> {
    let mut parts = line.split(|b| *b == b'\t');
    let input = meant(alloc, parts.next().unwrap_or(&[]))?;
    let wanted = meant(alloc, parts.next().unwrap_or(&[]))?;
    let answer = given(alloc, kind, &input)?;
    if answer == wanted {
        Ok(None)
    } else {
        Ok(Some(answer))
    }
}

/// Says which lines are answered otherwise, and how many cases there are.
pub fn check_lines(rt: HostRuntime, kind: &str, name: &str, bytes: &[u8]) -> anyhow::Result<()> {
    let whole = bytes.strip_suffix(b"\n".as_slice()).unwrap_or(bytes);
    let mut count: usize = 0;
    let mut wrong: usize = 0;
    for (number, line) in whole.split(|b| *b == b'\n').enumerate() {
        if line.starts_with(b"#".as_slice()) {
            continue;
        }
        count = count.saturating_add(1);
        if let Some(answer) = differing(rt.alloc(), kind, line)? {
            wrong = wrong.saturating_add(1);
            let place = number.saturating_add(1);
            print!(rt; "{name}:{place}: ")?;
            rt.stdout().write_all(&answer)?;
            println!(rt; "")?;
        }
    }
    println!(rt; "{name}: {count} cases, {wrong} answered otherwise")?;
    Ok(())
}
