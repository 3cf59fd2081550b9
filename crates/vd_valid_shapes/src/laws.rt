//! What holds of every table whose productions are shown to make valid trees. The function does nothing: its contract is
//! the law.

ghost use Rattle.vd_valid_shapes.specs.Laws.{ShapesOfShownTablesAreDesigns};

/// A shape of a derivation is a design.
pub fn shapes_are_designs()
    ensures { ShapesOfShownTablesAreDesigns }
{}
