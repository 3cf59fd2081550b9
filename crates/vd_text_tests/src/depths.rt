//! How deep expressions and statements stand in one another in texts of revision 1993, as they are written anew.

use anyhow::bail;
use std::alloc::{AllocError, Global};
use vd_derivations93::depth::depth93;
use vd_directives::plain::plain;
use vd_grammar93::read93;
use vd_lex::lex93;
use vd_test_texts::LONGEST;

/// The depth of a text, if it is one.
fn depth_of(alloc: Global, bytes: &[u8]) -> Result<Option<u32>, AllocError> {
    if bytes.len() >= LONGEST {
        return Ok(None);
    }
    let text = plain(alloc, 0, bytes)?;
    let Ok(tokens) = lex93(alloc, &text) else {
        return Ok(None);
    };
    let Ok(design) = read93(alloc, &tokens) else {
        return Ok(None);
    };
    let depth = depth93(alloc, &design)?;
    Ok(Some(depth))
}

/// Shows the depth of a text.
pub fn show_depth(rt: HostRuntime, name: &str, bytes: &[u8]) -> anyhow::Result<()> {
    match depth_of(rt.alloc(), bytes)? {
        Some(depth) => println!(rt; "{name} {depth}")?,
        None => bail!("{name} is no text"),
    }
    Ok(())
}
