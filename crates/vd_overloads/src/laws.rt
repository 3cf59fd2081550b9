//! Laws of interpretations, each the contract of a function that does nothing.

ghost use Rattle.vd_overloads.specs.Laws.{InterpretationsAreTyped, WantedAreInterpretations, AgreeingInterpretAlike};

/// Interpretations are typed trees, and each tree that is typed as it is wanted is one.
pub fn interpretations_are_typed()
    ensures sound { InterpretationsAreTyped }
    ensures complete { WantedAreInterpretations }
{}

/// Two languages that agree on an expression interpret it alike.
pub fn interpretations_compared()
    ensures { AgreeingInterpretAlike }
{}
