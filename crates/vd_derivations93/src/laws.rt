//! What holds of the tokens of a design. The functions do nothing: their contracts are the laws.

ghost use Rattle.vd_grammar93.specs.Grammar.{grammar, actions};
ghost use Rattle.vd_derivations.specs.Laws.{DesignsAreDerived, HaveNoOtherShape};
ghost use Rattle.vd_derivations93.specs.Laws.{DesignsAreReadBack};

/// The tokens of a design have a derivation, whose shape is the design up to places. So has each derivation of these tokens, and
/// of tokens like them at other places. `read93` gives the design for them, or they are too deep.
pub fn designs_are_read_back()
    ensures derives { DesignsAreDerived grammar actions }
    ensures only { HaveNoOtherShape grammar actions }
    ensures read { DesignsAreReadBack }
{}
