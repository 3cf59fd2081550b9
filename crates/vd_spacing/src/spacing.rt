//! Which tokens of a line have a space between them.

ghost use Rattle.std.specs.Prelude.{◌≡◌};
ghost use Rattle.vd_spacing.specs.Spacing.{is_spaced};

use vd_tokens::Kind;
use vd_tokens::kinds::{APOSTROPHE, CLOSING};

/// The mark `(`.
pub const OPENING: u16 = 2;

/// The mark `,`.
pub const COMMA: u16 = 6;

/// The mark `.`.
pub const POINT: u16 = 8;

/// The mark `;`.
pub const SEMICOLON: u16 = 11;

/// Whether a space stands between two tokens of a line.
pub fn is_spaced(left: Kind, right: Kind) -> bool
    ensures { result ≡ is_spaced left right }
{
    match (left, right) {
        (_, Kind::Mark(SEMICOLON | COMMA | CLOSING | POINT | APOSTROPHE)) => false,
        (Kind::Mark(OPENING | POINT | APOSTROPHE), _) => false,
        (Kind::Name | Kind::Quoted | Kind::Mark(CLOSING), Kind::Mark(OPENING)) => false,
        _ => true,
    }
}
