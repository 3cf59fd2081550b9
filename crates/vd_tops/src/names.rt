//! Names of tops.

ghost use Rattle.std.specs.Prelude.{◌≡◌, ◌<◌, ◌==◌, position, length, IfSome};
ghost use Rattle.std.specs.Option.{option_copied};
ghost use Rattle.vd_trees.specs.Identifiers as identifiers;
ghost use Rattle.vd_tops.specs.TopNames.{last_byte, is_meant as meant, is_wanted as wanted};

// A letter's lower case. Every other byte stays.
fn lower(b: u8) -> u8
    ensures { result ≡ identifiers.lower b }
{
    if b'A' <= b && b <= b'Z' { b + 32 } else { b }
}

/// Whether a unit of this name is meant by what is written.
pub(crate) fn is_meant(written: &[u8], name: &[u8]) -> bool
    ensures { result ≡ meant written.now name.now }
{
    if written.len() != name.len() {
        return false;
    }
    for (i, b) in written.iter().enumerate() {
        if name[i] != lower(*b) {
            return false;
        }
    }
    true
}

/// Whether an architecture of this name is meant.
pub(crate) fn is_wanted(written: Option<&[u8]>, name: &[u8]) -> bool
    ensures { result ≡ wanted (option_copied written.entry) name.now }
{
    match written {
        None => true,
        Some(written) => is_meant(written, name),
    }
}

/// The place of the first opening bracket.
pub(crate) fn opening(name: &[u8]) -> Option<usize>
    ensures place { result ≡ position (λ b. b == 40) name.now }
    ensures within { IfSome result (λ i. i < length name.now) }
{
    name.iter().position(|b| *b == b'(')
}

/// Whether a closing bracket stands at the end.
pub(crate) fn is_closed(text: &[u8]) -> bool
    ensures { result ≡ (last_byte text.now == 41) }
{
    let n = text.len();
    n > 0 && text[n - 1] == b')'
}
