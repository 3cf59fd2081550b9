//! The worked example, from the definitions alone.

ghost use Rattle.vd_trees.specs.declared.revision.Revision.TheVariants.{V2019};
ghost use Rattle.vd_first_grammar.specs.Derivations.{IsFile};
ghost use Rattle.vd_first_names.specs.Maps.{map_text_of};
ghost use Rattle.vd_first_lower.specs.Conversions.{design_text, map_rows};
ghost use Rattle.vd_first_tests.specs.Example.{example, IsItsDesign, IsItsMap};
ghost use Rattle.vd_first_tests.specs.ExampleTraces.{IsQuietSoon, IsDoneAtOnce, FollowsItsInputs, StopsBeforeItRuns};

/// What the definitions make of the worked example.
pub fn worked_example()
    ensures in_the_grammar { IsFile V2019 example }
    ensures design { IsItsDesign (design_text example) }
    ensures map { IsItsMap (map_text_of (map_rows example)) }
{}

/// What the worked example and its design print when they run.
pub fn worked_runs()
    ensures quiet { IsQuietSoon }
    ensures done { IsDoneAtOnce }
    ensures driven { FollowsItsInputs }
    ensures two_sources { StopsBeforeItRuns }
{}
