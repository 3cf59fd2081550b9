//! What the functions of the support package give.

ghost use Rattle.vd_support_facts.specs.Matching.{MatchingFacts, BitMatchingFacts};
ghost use Rattle.vd_support_facts.specs.Reductions.{ReductionFacts, BitReductionFacts};
ghost use Rattle.vd_support_facts.specs.Mixed.{MixedFacts, BitMixedFacts};
ghost use Rattle.vd_support_facts.specs.Shifts.{ShiftFacts, RotationFacts};
ghost use Rattle.vd_support_facts.specs.Texts.{TextFacts};
ghost use Rattle.vd_support_facts.specs.Scalars.{FunctionsOfValues};

/// Functions for conditions and matching of STD_ULOGIC and vectors of it, and whether a vector holds '-'.
pub fn matching_functions_give()
    ensures { MatchingFacts }
{}

/// Those for matching and order of BIT, and for matching of arrays of it.
pub fn bit_matching_functions_give()
    ensures { BitMatchingFacts }
{}

/// Reductions of vectors of STD_ULOGIC.
pub fn reductions_give()
    ensures { ReductionFacts }
{}

/// Reductions of arrays of BIT.
pub fn bit_reductions_give()
    ensures { BitReductionFacts }
{}

/// Functions of a vector and a value of STD_ULOGIC.
pub fn mixed_functions_give()
    ensures { MixedFacts }
{}

/// Functions of an array and a value of BIT.
pub fn bit_mixed_functions_give()
    ensures { BitMixedFacts }
{}

/// Shifts of vectors of STD_ULOGIC.
pub fn shifts_give()
    ensures { ShiftFacts }
{}

/// Rotations of vectors of STD_ULOGIC.
pub fn rotations_give()
    ensures { RotationFacts }
{}

/// Functions for `to_string`.
pub fn text_functions_give()
    ensures { TextFacts }
{}

/// Functions on values alone give what their operators give, whatever the values.
pub fn functions_of_values_are_operators()
    ensures { FunctionsOfValues }
{}
