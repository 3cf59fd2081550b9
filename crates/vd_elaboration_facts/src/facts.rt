//! The traces of some designs, by the definitions alone.

ghost use Rattle.vd_elaboration_facts.specs.Designs.{Designs};
ghost use Rattle.vd_elaboration_facts.specs.Hierarchies.{Hierarchies};

/// The text of the trace of a design with instances, an implicit signal and a generate.
pub fn worked_designs()
    ensures { Designs }
{}

/// Those of designs with a package, generics, a condition, two sources, and a view.
pub fn worked_hierarchies()
    ensures { Hierarchies }
{}
