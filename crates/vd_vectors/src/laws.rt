//! Laws of the definitions, each as the contract of a function that does nothing.

ghost use Rattle.vd_vectors.specs.Laws.{LengthsStay, TwoValuesAreBits};
ghost use Rattle.vd_vectors.specs.Support.{DeniedBySupport, SupportGivesOperators};

/// On '0' and '1' the tables of STD_ULOGIC are the operators of BIT and BOOLEAN.
pub fn two_values_are_bits()
    ensures { TwoValuesAreBits }
{}

/// Logical operators and shifts give as many elements as their operands have.
pub fn results_are_as_long()
    ensures { LengthsStay }
{}

/// What the functions of the support package give is what the operators give that they stand for, or `not` of it.
pub fn support_functions_are_operators()
    ensures same { SupportGivesOperators }
    ensures denied { DeniedBySupport }
{}
