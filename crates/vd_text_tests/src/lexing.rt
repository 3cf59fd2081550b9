//! The tokens of texts of both revisions.

ghost use Rattle.std.specs.Prelude.{◌<◌, length};

use std::alloc::{AllocError, Global};
use vd_bytes::Refusal;
use vd_directives::plain::plain;
use vd_lex::{Kind, Token, Tokens, lex19, lex93, spell};
use vd_test_texts::LONGEST;
use vd_trees::Revision;

fn lexed(alloc: Global, revision: Revision, bytes: &[u8]) -> Result<Tokens, Refusal>
    requires { length bytes.now < 16777216 }
{
    match plain(alloc, 0, bytes) {
        Ok(text) => match revision {
            Revision::V2019 => lex19(alloc, &text),
            Revision::V1993 => lex93(alloc, &text),
        },
        Err(_) => Err(Refusal::Memory),
    }
}

/// A refusal: its rule, line and column.
pub fn shown_refusal(alloc: Global, end: &Refusal) -> Result<Vec<u8>, AllocError> {
    match end {
        Refusal::Refused(e) => {
            let rule = e.rule;
            let line = e.place.line;
            let column = e.place.column;
            let text = format!(in alloc; "refused {rule} {line}:{column}")?;
            Vec::from_slice(alloc, text.as_bytes())
        }
        Refusal::Memory => Vec::from_slice(alloc, b"no memory"),
    }
}

/// A token: its place, kind and text.
fn add_token(alloc: Global, out: &mut Vec<u8>, token: &Token<'_>) -> Result<(), AllocError> {
    let line = token.place.line;
    let column = token.place.column;
    let kind = token.kind;
    let head = format!(in alloc; "{line}:{column} {kind:?}")?;
    out.extend_from_slice(head.as_bytes())?;
    if !token.text.is_empty() {
        out.push(b' ')?;
        out.extend_from_slice(token.text)?;
    }
    out.push(b'|')?;
    Ok(())
}

/// The tokens of a text, or what refuses it.
pub fn shown_tokens(
    alloc: Global,
    revision: Revision,
    bytes: &[u8],
) -> Result<Vec<u8>, AllocError> {
    if bytes.len() >= LONGEST {
        return Vec::from_slice(alloc, b"too long");
    }
    match lexed(alloc, revision, bytes) {
        Ok(tokens) => {
            let mut out = Vec::new(alloc);
            for index in 0..tokens.len() {
                add_token(alloc, &mut out, &tokens.get(index))?;
            }
            Ok(out)
        }
        Err(end) => shown_refusal(alloc, &end),
    }
}

/// A token's kind and text, and how it is spelled.
fn add_spelling(alloc: Global, out: &mut Vec<u8>, token: &Token<'_>) -> Result<(), AllocError> {
    if token.kind == Kind::End {
        return Ok(());
    }
    add_token(alloc, out, token)?;
    let bytes = spell(alloc, token)?;
    out.extend_from_slice(&bytes)
}

/// The tokens of a text of revision 2019 with their spellings, or what refuses it.
pub fn shown_spellings(alloc: Global, bytes: &[u8]) -> Result<Vec<u8>, AllocError> {
    if bytes.len() >= LONGEST {
        return Vec::from_slice(alloc, b"too long");
    }
    match lexed(alloc, Revision::V2019, bytes) {
        Ok(tokens) => {
            let mut out = Vec::new(alloc);
            for index in 0..tokens.len() {
                add_spelling(alloc, &mut out, &tokens.get(index))?;
            }
            Ok(out)
        }
        Err(end) => shown_refusal(alloc, &end),
    }
}
