//! All lines of a file.

ghost use Rattle.std.specs.Prelude.{◌≡◌, ◌==◌, ◌≢◌, ◌∷◌, ◌++◌, ◌+◌, ◌-◌, ◌<◌, ◌^◌, ◌⊎◌, List, ℕ, [], length, position, IfOk};
ghost use Rattle.vd_directives.specs.Lines.{lines_of, plain_of, ColumnsFit};

use crate::selected::{Line, Lines, Selected};
use std::alloc::{AllocError, Global};
use vd_bytes::Bytes;

/// A text without a carriage return at its end.
fn without_return(text: &[u8]) -> &[u8]
    ensures { (text.now ≡ result.now ++ 13 ∷ [])
        ⊎ ((result.now ≡ text.now) × ((front : List ℕ) → text.now ≢ front ++ 13 ∷ [])) }
{
    match text {
        [front @ .., b'\r'] => front,
        _ => text,
    }
}

/// The place of the first line feed.
fn line_feed(rest: &[u8]) -> Option<usize>
    ensures { result ≡ position (λ b. b == 10) rest.now }
{
    rest.iter().position(|b| *b == b'\n')
}

/// The first line without its end, and what stands behind that end.
pub fn first_line(rest: &[u8]) -> (&[u8], &[u8])
    requires { 0 < length rest.now }
    ensures first { lines_of rest.now ≡ result.0.now ∷ lines_of result.1.now }
    ensures shorter { length result.1.now < length rest.now }
{
    match line_feed(rest) {
        Some(feed) => (without_return(&rest[..feed]), &rest[feed + 1..]),
        None => (rest, &rest[rest.len()..]),
    }
}

/// All lines of a file are read. No line is a directive, and there is no warning.
pub fn plain(alloc: Global, file: u32, bytes: &[u8]) -> Result<Selected, AllocError>
    requires short { length bytes.now < 2 ^ 32 }
    ensures lines { IfOk result (λ s. s ≡ plain_of file bytes.now) }
    ensures fits { IfOk result (λ s. length bytes.now + 1 < 2 ^ 32 → ColumnsFit s) }
{
    let mut lines = Vec::new(alloc);
    let mut number = 0;
    let mut rest = bytes;
    while !rest.is_empty() {
        let (text, after) = first_line(rest);
        let bytes = Bytes::from_slice(alloc, text)?;
        number += 1;
        lines.push(Line { number, bytes })?;
        rest = after;
    }
    Ok(Selected {
        file,
        lines: Lines::of(lines),
        warnings: Lines::of(Vec::new(alloc)),
    })
}
