//! What holds of every table whose pieces lead back. The functions do nothing: their contracts are the laws.

ghost use Rattle.vd_derivations.specs.Laws.{DesignsLeadBack, DesignsAreAlone};

/// The tokens of a design have a derivation, and its shape is the design.
pub fn designs_lead_back()
    ensures { DesignsLeadBack }
{}

/// No derivation of these tokens, or of tokens like them at other places, has another shape.
pub fn designs_are_alone()
    ensures { DesignsAreAlone }
{}
