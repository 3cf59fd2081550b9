//! What some maps join, by the definitions alone.

ghost use Rattle.vd_maps.specs.Paths.{Paths};
ghost use Rattle.vd_maps.specs.Views.{Views};
ghost use Rattle.vd_maps.specs.Expressions.{Expressions};
ghost use Rattle.vd_maps.specs.Packages.{Packages};

/// Paths and scopes that join, and such that don't: elements of a view, instances, an implicit signal, alternatives of a generate, indexes.
pub fn worked_paths()
    ensures { Paths }
{}

/// A design with a view, and the one that is written from it.
pub fn worked_views()
    ensures { Views }
{}

/// A design with an expression as an actual, and the one that is written from it.
pub fn worked_expressions()
    ensures { Expressions }
{}

/// Packages with an instance of a package and one of a function, and what is written for them.
pub fn worked_packages()
    ensures { Packages }
{}
