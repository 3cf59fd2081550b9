//! The bytes of a token.

ghost use Rattle.std.specs.Prelude.{◌≡◌, ◌++◌, ◌∷◌, [], IfOk, OnOk, map, slice_index_or};
ghost use Rattle.vd_trees.specs.Words.{reserved_words};
ghost use Rattle.vd_trees.specs.declared.revision.Revision.TheVariants.{V2019};
ghost use Rattle.vd_tokens.specs.Marks.{marks};
ghost use Rattle.vd_tokens.specs.Spellings.{doubled, spelling_of};

use crate::kinds::Kind;
use crate::tokens::Token;
use crate::words::WORDS;
use std::alloc::{AllocError, Global};

/// The marks in their order: those of revision 1993, and behind them those that revision 2019 adds.
pub static MARKS: [&str; 31] = [
    "&", "'", "(", ")", "*", "+", ",", "-", ".", "/", ":", ";", "<", "=", ">", "|", "=>", "**",
    ":=", "/=", ">=", "<=", "<>", "?", "??", "?=", "?/=", "?<", "?<=", "?>", "?>=",
];

/// The text of a number in a table, or nothing.
fn text_at(texts: &[&'static str], number: u16) -> &'static [u8]
    ensures { result.now ≡ slice_index_or (map (λ text. text.now) texts.now) number [] }
{
    let at = number as usize;
    if at < texts.len() {
        texts[at].as_bytes()
    } else {
        &[]
    }
}

/// The word of a number, or nothing.
fn word(number: u16) -> &'static [u8]
    ensures { result.now ≡ slice_index_or (reserved_words V2019) number [] }
{
    text_at(&WORDS, number)
}

/// The mark of a number, or nothing.
fn mark(number: u16) -> &'static [u8]
    ensures { result.now ≡ slice_index_or (marks V2019) number [] }
{
    text_at(&MARKS, number)
}

/// A text in quotation marks, each mark inside doubled, comes behind some bytes.
fn quote_into(out: &mut Vec<u8>, text: &[u8]) -> Result<(), AllocError>
    ensures { OnOk result (out.new.items ≡ out.old.items ++ 34 ∷ doubled text.now ++ 34 ∷ []) }
{
    out.push(b'"')?;
    for b in text {
        if *b == b'"' {
            out.push(b'"')?;
        }
        out.push(*b)?;
    }
    out.push(b'"')?;
    Ok(())
}

/// A token's bytes come behind some bytes.
pub fn spell_into(out: &mut Vec<u8>, kind: Kind, text: &[u8]) -> Result<(), AllocError>
    ensures { OnOk result (out.new.items ≡ out.old.items ++ spelling_of kind text.now) }
{
    match kind {
        Kind::Name | Kind::Number => out.extend_from_slice(text),
        Kind::Letter => {
            out.push(b'\'')?;
            out.extend_from_slice(text)?;
            out.push(b'\'')?;
            Ok(())
        }
        Kind::Quoted => quote_into(out, text),
        Kind::Bits => {
            out.push(b'B')?;
            quote_into(out, text)
        }
        Kind::Word(number) => out.extend_from_slice(word(number)),
        Kind::Mark(number) => out.extend_from_slice(mark(number)),
        Kind::End => Ok(()),
    }
}

/// A token's bytes. A name stands in lower case, bits stand in base two, and the end of a file has none.
pub fn spell(alloc: Global, token: &Token) -> Result<Vec<u8>, AllocError>
    ensures { IfOk result (λ v. v.items ≡ spelling_of token.now.kind token.now.text.now) }
{
    let mut out = Vec::new(alloc);
    spell_into(&mut out, token.kind, token.text)?;
    Ok(out)
}
