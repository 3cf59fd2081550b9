//! What is answered to an input.

use crate::forests::{heads, interned, many_trees, shown_after};
use crate::lexing::{shown_spellings, shown_tokens};
use crate::passes::widths;
use crate::selecting::{shown_lines, shown_selection};
use crate::tables::shown_reading;
use crate::traces::trace;
use crate::trays::{surely, with_tray};
use std::alloc::{AllocError, Global};
use std::str;
use vd_test_texts::LONGEST;
use vd_trees::Revision;

/// What is answered to words.
fn given_words(alloc: Global, kind: &str, words: &str) -> Result<Vec<u8>, AllocError> {
    match kind {
        "table" => shown_reading(alloc, words),
        "forest" => shown_after(alloc, words),
        "heads" => heads(alloc, words),
        "widths" => widths(alloc, words),
        "texts" => interned(alloc, words),
        "many" => many_trees(alloc, words),
        "trace" => trace(alloc, words),
        "tray" => with_tray(alloc, words),
        "sure" => surely(alloc, words),
        _ => Vec::from_slice(alloc, b"there is no such kind"),
    }
}

/// What is answered to an input. The kinds are `plain` and `select` for the lines of a file, `lex19`, `lex93` and `spell` for its tokens, `table` for a
/// table and a text that is read by it, `forest`, `heads`, `widths`, `texts` and `many` for forests, `trace` for a trace, and `tray` and `sure` for
/// what is read and written.
pub fn given(alloc: Global, kind: &str, input: &[u8]) -> Result<Vec<u8>, AllocError> {
    if input.len() >= LONGEST {
        return Vec::from_slice(alloc, b"too long");
    }
    match kind {
        "plain" => shown_lines(alloc, input),
        "select" => shown_selection(alloc, input),
        "lex19" => shown_tokens(alloc, Revision::V2019, input),
        "lex93" => shown_tokens(alloc, Revision::V1993, input),
        "spell" => shown_spellings(alloc, input),
        _ => match str::from_utf8(input) {
            Ok(words) => given_words(alloc, kind, words),
            Err(_) => Vec::from_slice(alloc, b"no words"),
        },
    }
}
