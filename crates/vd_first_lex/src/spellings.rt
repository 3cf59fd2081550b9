//! The bytes of a token.

ghost use Rattle.std.specs.Prelude.{◌≡◌, [], map, slice_index_or};
ghost use Rattle.vd_trees.specs.Words.{reserved_words};
ghost use Rattle.vd_trees.specs.declared.revision.Revision.TheVariants.{V2019};
ghost use Rattle.vd_first_lex.specs.Lexis.{marks};
ghost use Rattle.vd_first_lex.specs.Spellings.{spelling_of};

use crate::reserved::WORDS;
use crate::tokens::{Kind, Token};

/// The marks in their order.
static MARKS: [&str; 31] = [
    "&", "'", "(", ")", "*", "+", ",", "-", ".", "/", ":", ";", "<", "=", ">", "|", "=>", "**",
    ":=", "/=", ">=", "<=", "<>", "?", "??", "?=", "?/=", "?<", "?<=", "?>", "?>=",
];

/// A token's bytes. A name stands in lower case, and the end of a file has none.
pub fn spelling(token: &Token) -> &[u8]
    ensures { result.now ≡ spelling_of token.now.kind token.now.text }
{
    match token.kind {
        Kind::Name => token.text.as_slice(),
        Kind::Word(number) => word(number),
        Kind::Mark(number) => mark(number),
        _ => &[],
    }
}

// The word of a number, or nothing.
fn word(number: u16) -> &'static [u8]
    ensures { result.now ≡ slice_index_or (reserved_words V2019) number [] }
{
    text_at(&WORDS, number)
}

// The mark of a number, or nothing.
fn mark(number: u16) -> &'static [u8]
    ensures { result.now ≡ slice_index_or marks number [] }
{
    text_at(&MARKS, number)
}

// The text of a number in a table, or nothing.
fn text_at(texts: &[&'static str], number: u16) -> &'static [u8]
    ensures { result.now ≡ slice_index_or (map (λ text. text.now) texts.now) number [] }
{
    let at = number as usize;
    if at < texts.len() {
        texts[at].as_bytes()
    } else {
        &[]
    }
}
