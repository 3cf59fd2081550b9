//! Derivations as text: a node is the number of its production with its parts between brackets, and a leaf its symbol, `@` and its place.

use std::alloc::{AllocError, Global};
use vd_gram::{Cursor, Opened};

/// Adds the start of the first of some trees, and what is to be shown next, the last of it first.
fn add_first<'a>(
    alloc: Global,
    out: &mut Vec<u8>,
    waiting: &mut Vec<Cursor<'a>>,
    trees: &Cursor<'a>,
) -> Result<(), AllocError> {
    match trees.open() {
        None => {
            out.push(b')')?;
            Ok(())
        }
        Some(
            Opened::Leaf {
                symbol,
                place,
                next,
            },
        ) => {
            let text = format!(in alloc; "{symbol}@{place} ")?;
            out.extend_from_slice(text.as_bytes())?;
            waiting.push(next)?;
            Ok(())
        }
        Some(
            Opened::Node {
                production,
                parts,
                next,
            },
        ) => {
            let text = format!(in alloc; "{production}(")?;
            out.extend_from_slice(text.as_bytes())?;
            waiting.push(next)?;
            waiting.push(parts)?;
            Ok(())
        }
    }
}

/// A derivation between brackets.
pub fn derived(alloc: Global, trees: &Cursor<'_>) -> Result<Vec<u8>, AllocError> {
    let mut out = Vec::from_slice(alloc, b"(")?;
    let mut waiting = Vec::new(alloc);
    waiting.push(trees.fork())?;
    for _ in 0..u64::MAX {
        let Some(trees) = waiting.pop() else {
            return Ok(out);
        };
        add_first(alloc, &mut out, &mut waiting, &trees)?;
    }
    Ok(out)
}
