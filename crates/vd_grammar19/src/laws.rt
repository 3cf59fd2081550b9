//! What holds of the grammar. The functions do nothing: their contracts are the laws.

ghost use Rattle.std.specs.Prelude.{IsTrue};
ghost use Rattle.vd_trees.specs.declared.revision.Revision.TheVariants.{V2019};
ghost use Rattle.vd_gram.specs.Claims.{is_checked};
ghost use Rattle.vd_valid_shapes.specs.Effects.{makes_valid_trees};
ghost use Rattle.vd_valid_shapes.specs.Laws.{ShapesAreDesigns};
ghost use Rattle.vd_grammar19.specs.Effects.{effects};
ghost use Rattle.vd_grammar19.specs.Grammar.{grammar, actions, HasOneReading};

/// The claims of the grammar hold together, so that one symbol tells which production comes next.
pub fn is_checked_grammar()
    ensures { IsTrue (is_checked grammar) }
{}

/// A token list has one answer, memory aside: no two, and some.
pub fn one_reading()
    ensures { HasOneReading }
{}

/// Each production does with trees what is claimed of it, and makes valid nodes. So the shape of a
/// derivation is a design.
pub fn shapes_are_valid()
    ensures shown { IsTrue (makes_valid_trees V2019 grammar actions effects) }
    ensures designs { ShapesAreDesigns V2019 grammar actions }
{}
