//! The traces and weights of designs from their syntax trees, and what an instance declares, by the definitions alone.

ghost use Rattle.vd_named_designs.specs.Facts.{InstanceDeclares, SameTraces, Weights};

/// The traces are those of the trees that a script resolved.
pub fn same_traces()
    ensures { SameTraces }
{}

/// What designs with instances and views weigh.
pub fn weights()
    ensures { Weights }
{}

/// What an instance of a package declares, in order, and of which types.
pub fn instance_declares()
    ensures { InstanceDeclares }
{}
