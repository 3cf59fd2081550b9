//! Digits and letters with single underscores between them.

ghost use Rattle.std.specs.Prelude.{◌≡◌, ◌+◌, ◌<◌, ◌≤◌, length, drop};
ghost use Rattle.vd_literals.specs.Runs as runs;
ghost use Rattle.vd_literals.specs.Runs.{goes_on};

use crate::bytes::is_part;

/// Whether the first byte goes on with a run.
fn continues(letters: bool, rest: &[u8]) -> bool
    requires { 0 < length rest.now }
    ensures { result ≡ goes_on letters rest.now }
{
    is_part(letters, rest[0]) || (rest[0] == b'_' && rest.len() > 1 && is_part(letters, rest[1]))
}

/// How many bytes go on with a run that stands in front of them.
pub fn more_length(letters: bool, rest: &[u8]) -> usize
    ensures more { result ≡ runs.more_length letters rest.now }
    ensures within { result ≤ length rest.now }
{
    let mut n = 0;
    while n < rest.len() && continues(letters, &rest[n..]) {
        n += 1;
    }
    n
}

/// How long the run is that stands first.
pub fn run_length(letters: bool, rest: &[u8]) -> usize
    ensures run { result ≡ runs.run_length letters rest.now }
    ensures within { result ≤ length rest.now }
{
    if rest.is_empty() || !is_part(letters, rest[0]) {
        0
    } else {
        1 + more_length(letters, &rest[1..])
    }
}
