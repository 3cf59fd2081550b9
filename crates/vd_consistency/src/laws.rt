//! Laws of the definitions, each the contract of a function that does nothing.

ghost use Rattle.vd_consistency.specs.Consistency.{DesignsAreConsistent};

/// Each design that elaboration gives is consistent, of whatever tree and top: what its signals, drivers and processes say of each other is so.
pub fn designs_are_consistent()
    ensures { DesignsAreConsistent }
{}
