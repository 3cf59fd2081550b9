//! The grammar isn't ambiguous.

ghost use Rattle.vd_first_unambiguous.specs.OneDerivation.{HasOneDerivation};

/// A token list has one derivation at most, in either revision.
pub fn one_derivation()
    ensures { HasOneDerivation }
{}
