//! What the definitions of division give.

ghost use Rattle.vd_integers.specs.Divisions.{DivisionFollowsTheStandard};

/// `rem` and `mod` are what the standard says they are, for every two numbers of which the second isn't 0.
pub fn division_follows_the_standard()
    ensures { DivisionFollowsTheStandard }
{}
