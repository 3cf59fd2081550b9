//! Laws of the definitions, each as the contract of a function that does nothing.

ghost use Rattle.vd_subtypes.specs.Laws.{HeadsConcatenate, HeadsDecide, HeadsMakeArrays};

/// A value made one of a subtype, a concatenation and an array from its elements depend on the head of the subtype alone.
pub fn heads_decide()
    ensures fitting { HeadsDecide }
    ensures concatenation { HeadsConcatenate }
    ensures arrays { HeadsMakeArrays }
{}
