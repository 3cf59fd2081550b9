//! The pieces of a directive: words, texts, relators and brackets.

ghost use Rattle.std.specs.Prelude.{◌≡◌, ◌<◌, ◌≤◌, ◌∷◌, false, length, drop, option_map, MatchOption, IfOk};
ghost use Rattle.vd_trees.specs.Identifiers as identifiers;
ghost use Rattle.vd_directives.specs.Pieces as pieces;
ghost use Rattle.vd_directives.specs.Pieces.{IsFirst, pieces_of, quoted};

use std::alloc::{AllocError, Global};
use vd_bytes::Text;

/// How two texts are to compare.
#[derive(Clone, Copy, Drop)]
pub(crate) enum Relator {
    Same,
    Differs,
    Below,
    AtMost,
    Above,
    AtLeast,
}

/// A piece of a directive.
#[derive(Drop)]
pub(crate) enum Piece {
    /// Letters, digits and underscores, in lower case.
    Word(Text),
    /// A text, each doubled quotation mark single.
    Quoted(Text),
    Compare(Relator),
    Opening,
    Closing,
}

/// What a text begins with that has no spacing in front.
#[derive(Drop)]
pub(crate) enum First<'a> {
    /// Nothing, or a comment.
    Nothing,
    /// A byte that can't stand there, or a text without end.
    Nonsense,
    /// A piece, and what comes after it.
    Next(Piece, &'a [u8]),
}

fn is_spacing(b: u8) -> bool
    ensures { result ≡ pieces.is_spacing b }
{
    b == b' ' || (9 <= b && b <= 13)
}

fn is_graphic(b: u8) -> bool
    ensures { result ≡ pieces.is_graphic b }
{
    32 <= b && b <= 126
}

fn is_word_byte(b: u8) -> bool
    ensures { result ≡ pieces.is_word_byte b }
{
    (b'A' <= b && b <= b'Z') || (b'a' <= b && b <= b'z') || (b'0' <= b && b <= b'9') || b == b'_'
}

/// A letter's lower case. Every other byte stays.
fn lower(b: u8) -> u8
    ensures { result ≡ identifiers.lower b }
{
    if b'A' <= b && b <= b'Z' { b + 32 } else { b }
}

/// How long the word is that a text begins with.
#[tactic(auto, using(crate::proofs::RunLemmas::run_steps))]
pub(crate) fn word_length(text: &[u8]) -> usize
    ensures is { result ≡ pieces.word_length text.now }
    ensures within { result ≤ length text.now }
{
    let mut n = 0;
    let mut rest = text;
    while let [b, after @ ..] = rest {
        if !is_word_byte(*b) {
            return n;
        }
        n += 1;
        rest = after;
    }
    n
}

/// How much spacing stands in front.
#[tactic(auto, using(crate::proofs::RunLemmas::run_steps))]
fn spacing_length(text: &[u8]) -> usize
    ensures is { result ≡ pieces.spacing_length text.now }
    ensures within { result ≤ length text.now }
{
    let mut n = 0;
    let mut rest = text;
    while let [b, after @ ..] = rest {
        if !is_spacing(*b) {
            return n;
        }
        n += 1;
        rest = after;
    }
    n
}

/// A text in lower case.
pub(crate) fn lowered(alloc: Global, text: &[u8]) -> Result<Text, AllocError>
    ensures { IfOk result (λ t. t ≡ identifiers.lowered text.now) }
{
    let mut bytes = Vec::new(alloc);
    for b in text {
        bytes.push(lower(*b))?;
    }
    let text = Text::from_slice(alloc, &bytes)?;
    Ok(text)
}

/// What comes after a quotation mark that a text begins with.
fn behind_mark(text: &[u8]) -> Option<&[u8]>
    ensures { MatchOption result (pieces.starts_with 34 text.now ≡ false) (λ more. text.now ≡ 34 ∷ more.now) }
{
    match text {
        [b'"', more @ ..] => Some(more),
        _ => None,
    }
}

/// A text without the spacing in front.
fn behind_spacing(text: &[u8]) -> &[u8]
    ensures { result.now ≡ drop (pieces.spacing_length text.now) text.now }
{
    let length = spacing_length(text);
    &text[length..]
}

/// The rest of a text behind its first quotation mark: what it says, and what comes after it.
#[tactic(auto, using(crate::proofs::PieceLemmas::said_none, crate::proofs::PieceLemmas::said_more, crate::proofs::PieceLemmas::said_mark, crate::proofs::PieceLemmas::said_all, crate::proofs::PieceLemmas::said_nonsense))]
fn read_quoted(alloc: Global, text: &[u8]) -> Result<First<'_>, AllocError>
    ensures { IfOk result (λ f. IsFirst f (pieces.first_quoted (quoted text.now))) }
{
    let mut said = Vec::new(alloc);
    let mut rest = text;
    while let [b, after @ ..] = rest {
        if *b != b'"' {
            if !is_graphic(*b) {
                return Ok(First::Nonsense);
            }
            said.push(*b)?;
            rest = after;
        } else {
            match behind_mark(after) {
                Some(more) => {
                    said.push(*b)?;
                    rest = more;
                }
                None => {
                    let text = Text::from_slice(alloc, &said)?;
                    return Ok(First::Next(Piece::Quoted(text), after));
                }
            }
        }
    }
    Ok(First::Nonsense)
}

/// The relator that a text begins with.
fn read_relator(text: &[u8]) -> First<'_>
    requires { 0 < length text.now }
    ensures { IsFirst result (pieces.first_relator text.now) }
{
    let after = &text[1..];
    let wide = !after.is_empty() && after[0] == b'=';
    match text[0] {
        b'=' => First::Next(Piece::Compare(Relator::Same), after),
        b'/' if wide => First::Next(Piece::Compare(Relator::Differs), &after[1..]),
        b'<' if wide => First::Next(Piece::Compare(Relator::AtMost), &after[1..]),
        b'<' => First::Next(Piece::Compare(Relator::Below), after),
        b'>' if wide => First::Next(Piece::Compare(Relator::AtLeast), &after[1..]),
        b'>' => First::Next(Piece::Compare(Relator::Above), after),
        _ => First::Nonsense,
    }
}

/// The first piece of a text without spacing in front.
fn first_piece(alloc: Global, text: &[u8]) -> Result<First<'_>, AllocError>
    ensures { IfOk result (λ f. IsFirst f (pieces.first_of text.now)) }
{
    if text.is_empty() {
        return Ok(First::Nothing);
    }
    let after = &text[1..];
    match text[0] {
        b'(' => Ok(First::Next(Piece::Opening, after)),
        b')' => Ok(First::Next(Piece::Closing, after)),
        b'-' => {
            if !after.is_empty() && after[0] == b'-' {
                Ok(First::Nothing)
            } else {
                Ok(First::Nonsense)
            }
        }
        b'"' => read_quoted(alloc, after),
        _ => {
            let length = word_length(text);
            if length > 0 {
                let word = lowered(alloc, &text[..length])?;
                Ok(First::Next(Piece::Word(word), &text[length..]))
            } else {
                Ok(read_relator(text))
            }
        }
    }
}

/// The pieces of a text, or `None` where it isn't made of pieces.
#[tactic(auto, using(crate::proofs::PieceLemmas::found_none, crate::proofs::PieceLemmas::found_step, crate::proofs::PieceLemmas::found_more, crate::proofs::PieceLemmas::found_end, crate::proofs::PieceLemmas::found_all))]
pub(crate) fn pieces(alloc: Global, text: &[u8]) -> Result<Option<Vec<Piece>>, AllocError>
    ensures { IfOk result (λ found. option_map (λ ps. ps.items) found ≡ pieces_of text.now) }
{
    let mut found = Vec::new(alloc);
    let mut rest = text;
    for taken in 0..text.len() {
        let here = behind_spacing(rest);
        match first_piece(alloc, here)? {
            First::Nothing => return Ok(Some(found)),
            First::Nonsense => return Ok(None),
            First::Next(piece, after) => {
                found.push(piece)?;
                rest = after;
            }
        }
    }
    Ok(Some(found))
}
