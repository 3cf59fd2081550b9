//! What a line is to the groups.

ghost use Rattle.std.specs.Prelude.{◌≡◌, ◌≤◌, length, option_map, IfOk};
ghost use Rattle.vd_directives.specs.Directives as directives;

use crate::conditions::condition_of;
use crate::pieces::{Piece, lowered, pieces, word_length};
use std::alloc::{AllocError, Global};
use vd_bytes::Text;

/// What a line is. The condition of a directive that has one stands here by its value.
#[derive(Drop)]
pub(crate) enum Kind {
    /// No directive.
    Plain,
    If(bool),
    Elsif(bool),
    Else,
    End,
    /// A warning with its text.
    Warning(Text),
    Error,
    /// A directive that begins with the word of an `if`, `elsif`, `else` or `end` and has no form.
    Broken,
    /// Any other directive that has no form.
    Unknown,
}

/// The word that a directive begins with.
#[derive(Clone, Copy, Drop)]
pub(crate) enum Head {
    If,
    Elsif,
    Else,
    End,
    Warning,
    Error,
    Other,
}

fn is_blank(b: u8) -> bool
    ensures { result ≡ directives.is_blank b }
{
    b == b' ' || b == b'\t'
}

/// How many spaces and tabs stand in front.
#[tactic(auto, using(crate::proofs::RunLemmas::run_steps))]
pub(crate) fn blank_length(line: &[u8]) -> usize
    ensures is { result ≡ directives.blank_length line.now }
    ensures within { result ≤ length line.now }
{
    let mut n = 0;
    let mut rest = line;
    while let [b, after @ ..] = rest {
        if !is_blank(*b) {
            return n;
        }
        n += 1;
        rest = after;
    }
    n
}

/// Which head a word in lower case is.
fn head_of(word: &[u8]) -> Head
    ensures { result ≡ directives.head_of word.now }
{
    if word == b"if".as_slice() {
        Head::If
    } else if word == b"elsif".as_slice() {
        Head::Elsif
    } else if word == b"else".as_slice() {
        Head::Else
    } else if word == b"end".as_slice() {
        Head::End
    } else if word == b"warning".as_slice() {
        Head::Warning
    } else if word == b"error".as_slice() {
        Head::Error
    } else {
        Head::Other
    }
}

/// What a directive is whose head is followed by something that isn't made of pieces.
fn formless(head: Head) -> Kind
    ensures { result ≡ directives.formless head }
{
    match head {
        Head::If | Head::Elsif | Head::Else | Head::End => Kind::Broken,
        Head::Warning | Head::Error | Head::Other => Kind::Unknown,
    }
}

/// What a directive is that has an end, of which the pieces are behind the word.
fn end_of(pieces: &[Piece]) -> Kind
    ensures { result ≡ directives.end_of pieces.now }
{
    match pieces {
        [] => Kind::End,
        [Piece::Word(word)] => {
            if word.as_slice() == b"if".as_slice() {
                Kind::End
            } else {
                Kind::Broken
            }
        }
        _ => Kind::Broken,
    }
}

/// The text that pieces are, where they are just one.
fn only_text(pieces: &[Piece]) -> Option<&[u8]>
    ensures { option_map (λ t. t.now) result ≡ directives.only_text pieces.now }
{
    match pieces {
        [Piece::Quoted(text)] => Some(text.as_slice()),
        _ => None,
    }
}

/// What a directive is, by its head and the pieces behind it.
fn with_pieces(alloc: Global, tool: &[u8], head: Head, pieces: &[Piece]) -> Result<Kind, AllocError>
    ensures { IfOk result (λ kind. kind ≡ directives.with_pieces tool.now head pieces.now) }
{
    match head {
        Head::If => match condition_of(alloc, tool, pieces)? {
            None => Ok(Kind::Broken),
            Some(condition) => Ok(Kind::If(condition)),
        },
        Head::Elsif => match condition_of(alloc, tool, pieces)? {
            None => Ok(Kind::Broken),
            Some(condition) => Ok(Kind::Elsif(condition)),
        },
        Head::Else => {
            if pieces.is_empty() {
                Ok(Kind::Else)
            } else {
                Ok(Kind::Broken)
            }
        }
        Head::End => Ok(end_of(pieces)),
        Head::Warning => match only_text(pieces) {
            None => Ok(Kind::Unknown),
            Some(text) => {
                let text = Text::from_slice(alloc, text)?;
                Ok(Kind::Warning(text))
            }
        },
        Head::Error => match only_text(pieces) {
            None => Ok(Kind::Unknown),
            Some(_) => Ok(Kind::Error),
        },
        Head::Other => Ok(Kind::Unknown),
    }
}

/// What a directive is, by what stands behind its backquote.
fn directive_of(alloc: Global, tool: &[u8], text: &[u8]) -> Result<Kind, AllocError>
    ensures { IfOk result (λ kind. kind ≡ directives.directive_of tool.now text.now) }
{
    let length = word_length(text);
    let word = lowered(alloc, &text[..length])?;
    let head = head_of(word.as_slice());
    match pieces(alloc, &text[length..])? {
        None => Ok(formless(head)),
        Some(found) => with_pieces(alloc, tool, head, &found),
    }
}

/// What a line is, behind the spaces and tabs in front of it.
pub(crate) fn kind_from(alloc: Global, tool: &[u8], text: &[u8]) -> Result<Kind, AllocError>
    ensures { IfOk result (λ kind. kind ≡ directives.kind_from tool.now text.now) }
{
    if !text.is_empty() && text[0] == b'`' {
        directive_of(alloc, tool, &text[1..])
    } else {
        Ok(Kind::Plain)
    }
}
