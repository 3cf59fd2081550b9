//! Parts of cases: what is given, what is wanted, and what came.

use std::alloc::{AllocError, Global};

/// A part: its kind, what stands behind that in its line, and its bytes.
#[derive(Drop)]
pub struct Part {
    pub kind: String,
    pub name: String,
    pub bytes: Vec<u8>,
}

impl Part {
    /// A part with these bytes.
    pub fn of(alloc: Global, kind: &str, name: &str, bytes: &[u8]) -> Result<Part, AllocError> {
        Ok(Part {
            kind: String::from_str(alloc, kind)?,
            name: String::from_str(alloc, name)?,
            bytes: Vec::from_slice(alloc, bytes)?,
        })
    }

    /// A part without bytes.
    pub fn named(alloc: Global, kind: &str, name: &str) -> Result<Part, AllocError> {
        Part::of(alloc, kind, name, &[])
    }

    fn is_same(&self, other: &Part) -> bool {
        self.kind == other.kind && self.name == other.name && self.bytes == other.bytes
    }
}

/// Whether two lists have the same parts in the same order.
pub fn are_same(parts: &[Part], others: &[Part]) -> bool {
    for (part, other) in parts.iter().zip(others) {
        if !part.is_same(other) {
            return false;
        }
    }
    parts.len() == others.len()
}

/// The first of some parts that is of a kind.
pub fn part_of<'a>(parts: &'a [Part], kind: &str) -> Option<&'a Part> {
    for part in parts {
        if part.kind.as_str() == kind {
            return Some(part);
        }
    }
    None
}

/// What stands behind a kind in the line of its first part, or nothing.
pub fn name_of<'a>(parts: &'a [Part], kind: &str) -> &'a str {
    match part_of(parts, kind) {
        Some(part) => part.name.as_str(),
        None => "",
    }
}

/// Adds the bytes with another text for each `$`.
fn add_replaced(out: &mut Vec<u8>, bytes: &[u8], value: &[u8]) -> Result<(), AllocError> {
    for b in bytes {
        if *b == b'$' {
            out.extend_from_slice(value)?;
        } else {
            out.push(*b)?;
        }
    }
    Ok(())
}

/// The parts with another text for each `$` of their bytes.
pub fn replaced(alloc: Global, parts: &[Part], value: &[u8]) -> Result<Vec<Part>, AllocError> {
    let mut out = Vec::new(alloc);
    for part in parts {
        let mut made = Part::named(alloc, part.kind.as_str(), part.name.as_str())?;
        add_replaced(&mut made.bytes, &part.bytes, value)?;
        out.push(made)?;
    }
    Ok(out)
}
