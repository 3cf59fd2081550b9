//! Texts, read and printed.

use std::alloc::{AllocError, Global};
use vd_directives::plain::plain;
use vd_grammar93::read93;
use vd_lex::lex93;
use vd_print93::{derive93, print};
use vd_test_texts::LONGEST;
use vd_tokens::Tokens;

/// The print of a text of revision 1993, if it is one and the print has the tokens that are derived from its tree.
pub fn printed(alloc: Global, bytes: &[u8]) -> Result<Option<Vec<u8>>, AllocError> {
    if bytes.len() >= LONGEST {
        return Ok(None);
    }
    let text = plain(alloc, 0, bytes)?;
    let Ok(tokens) = lex93(alloc, &text) else {
        return Ok(None);
    };
    let Ok(design) = read93(alloc, &tokens) else {
        return Ok(None);
    };
    let text = print(alloc, &design)?;
    let derived = derive93(alloc, &design)?;
    if !has_tokens(alloc, &text, &derived)? {
        return Ok(None);
    }
    Ok(Some(text))
}

/// Whether the tokens of a text are these, their places aside.
fn has_tokens(alloc: Global, bytes: &[u8], wanted: &Tokens) -> Result<bool, AllocError> {
    if bytes.len() >= LONGEST {
        return Ok(false);
    }
    let text = plain(alloc, 0, bytes)?;
    let Ok(tokens) = lex93(alloc, &text) else {
        return Ok(false);
    };
    if tokens.len() != wanted.len() {
        return Ok(false);
    }
    for index in 0..tokens.len() {
        let given = tokens.get(index);
        let other = wanted.get(index);
        if given.kind != other.kind || given.text != other.text {
            return Ok(false);
        }
    }
    Ok(true)
}
