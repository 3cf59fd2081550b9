//! The layout of a token list.

ghost use Rattle.std.specs.Prelude.{◌≡◌, ◌≤◌, ◌<◌, ◌+◌, ◌-◌, ◌*◌, ◌++◌, ◌∷◌, [], ℕ, List, OnOk, IfOk, length, replicate, ◌==◌, ◌&&◌, ◌||◌, if◌then◌else◌};
ghost use Rattle.vd_first_print.specs.Layout.{layout_of, is_word, is_mark, is_name_kind, is_spaced, line_start, gap};
ghost use Rattle.vd_first_print.specs.Counts.{counted_with};

use std::alloc::{AllocError, Global};
use vd_first_lex::spellings::spelling;
use vd_first_lex::tokens::*;

/// How many of some words and marks stand before a token.
#[derive(Clone, Copy)]
struct Counts {
    opening: usize,
    closing: usize,
    is_words: usize,
    end_words: usize,
}

/// The bytes of some tokens, laid out in lines.
pub fn layout(alloc: Global, tokens: &[Token]) -> Result<Vec<u8>, AllocError>
    ensures { IfOk result (λ bytes. bytes.items ≡ layout_of tokens.now) }
{
    let mut out = Vec::new(alloc);
    let Some((first, others)) = tokens.split_first() else {
        return Ok(out);
    };
    out.extend_from_slice(spelling(first))?;
    let mut counts = Counts {
        opening: 0,
        closing: 0,
        is_words: 0,
        end_words: 0,
    };
    let mut last = first;
    let mut rest = others;
    while let Some((token, after)) = rest.split_first() {
        let ends = ends_line(counts, last.kind);
        counts = counted(counts, last.kind)?;
        let level = level(counts, token.kind);
        push_gap(&mut out, ends, level, last.kind, token.kind)?;
        out.extend_from_slice(spelling(token))?;
        last = token;
        rest = after;
    }
    out.push(b'\n')?;
    Ok(out)
}

// What stands between two tokens.
fn push_gap(
    out: &mut Vec<u8>,
    ends: bool,
    level: usize,
    left: Kind,
    right: Kind,
) -> Result<(), AllocError>
    ensures { OnOk result (out.new.items ≡ out.old.items ++ (if ends then line_start level else (if is_spaced left right then 32 ∷ [] else []))) }
{
    if ends {
        return push_line_start(out, level);
    }
    if is_spaced(left, right) {
        out.push(b' ')?;
    }
    Ok(())
}

// The counts with one more token.
fn counted(counts: Counts, kind: Kind) -> Result<Counts, AllocError>
    ensures { IfOk result (λ next. next ≡ counted_with counts kind) }
{
    let mut next = counts;
    match kind {
        Kind::Mark(OPENING) => next.opening = one_more(counts.opening)?,
        Kind::Mark(CLOSING) => next.closing = one_more(counts.closing)?,
        Kind::Word(IS) => next.is_words = one_more(counts.is_words)?,
        Kind::Word(END) => next.end_words = one_more(counts.end_words)?,
        _ => {}
    }
    Ok(next)
}

fn one_more(count: usize) -> Result<usize, AllocError>
    ensures { IfOk result (λ more. more ≡ count + 1) }
{
    match count.checked_add(1) {
        Some(more) => Ok(more),
        None => Err(AllocError),
    }
}

fn ends_line(counts: Counts, last: Kind) -> bool
    ensures { result ≡ ((is_mark SEMICOLON last && (counts.opening == counts.closing)) || (is_word IS last || is_word BEGIN last)) }
{
    match last {
        Kind::Mark(SEMICOLON) => counts.opening == counts.closing,
        Kind::Word(IS | BEGIN) => true,
        _ => false,
    }
}

fn level(counts: Counts, kind: Kind) -> usize
    ensures { result ≡ (if is_word BEGIN kind || is_word END kind then (counts.is_words - counts.end_words) - 1 else counts.is_words - counts.end_words) }
{
    let bodies = counts.is_words.saturating_sub(counts.end_words);
    match kind {
        Kind::Word(BEGIN | END) => bodies.saturating_sub(1),
        _ => bodies,
    }
}

fn is_spaced(left: Kind, right: Kind) -> bool
    ensures { result ≡ is_spaced left right }
{
    match (left, right) {
        (_, Kind::Mark(SEMICOLON | COMMA | CLOSING | POINT)) => false,
        (Kind::Mark(OPENING | POINT), _) => false,
        (Kind::Name | Kind::Mark(CLOSING), Kind::Mark(OPENING)) => false,
        _ => true,
    }
}

fn push_line_start(out: &mut Vec<u8>, level: usize) -> Result<(), AllocError>
    ensures { OnOk result (out.new.items ≡ out.old.items ++ line_start level) }
{
    out.push(b'\n')?;
    for _step in 0..level {
        out.extend_from_slice(b"  ")?;
    }
    Ok(())
}
