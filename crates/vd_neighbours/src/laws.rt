//! The tokens of a tree can stand side by side in a text.

ghost use Rattle.vd_neighbours.specs.Neighbours.{TokensStandSideBySide};

/// The word `all`.
pub const ALL: u16 = 4;

/// The word `range`.
pub const RANGE: u16 = 64;

/// The tokens of a design can be read where they stand side by side, if no apostrophe stands behind `range` and `all`.
pub fn tokens_stand_side_by_side()
    ensures { TokensStandSideBySide }
{}
