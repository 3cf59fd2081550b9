//! Classes of bytes.

ghost use Rattle.std.specs.Prelude.{◌≡◌};
ghost use Rattle.std.specs.Char.{digit_value as digit_of};
ghost use Rattle.vd_trees.specs.Identifiers as identifiers;
ghost use Rattle.vd_tokens.specs.Spellings as spellings;
ghost use Rattle.vd_literals.specs.Runs as runs;

pub fn is_digit(b: u8) -> bool
    ensures { result ≡ spellings.is_digit b }
{
    b'0' <= b && b <= b'9'
}

pub fn is_letter(b: u8) -> bool
    ensures { result ≡ identifiers.is_letter b }
{
    (b'A' <= b && b <= b'Z') || (b'a' <= b && b <= b'z')
}

/// A character from the space to the tilde.
pub fn is_graphic(b: u8) -> bool
    ensures { result ≡ spellings.is_graphic b }
{
    32 <= b && b <= 126
}

/// A digit, or a letter where letters count.
pub fn is_part(letters: bool, b: u8) -> bool
    ensures { result ≡ runs.is_part letters b }
{
    is_digit(b) || (letters && is_letter(b))
}

/// What a digit or a letter counts, from 0 of '0' to 35 of 'Z' and 'z'. Every other byte gives 36.
pub fn digit_value(b: u8) -> u32
    ensures { result ≡ digit_of b }
{
    if is_digit(b) {
        (b - b'0') as u32
    } else if b'A' <= b && b <= b'Z' {
        (b - b'A' + 10) as u32
    } else if b'a' <= b && b <= b'z' {
        (b - b'a' + 10) as u32
    } else {
        36
    }
}
