//! What the definitions of the rules say, as laws.

ghost use Rattle.vd_value_rules.specs.Laws.{CoveringIsGiving, TextsAreGiven};

/// Choices cover a range exactly where they give each of its values.
pub fn covering_is_giving()
    ensures { CoveringIsGiving }
{}

/// And texts all arrays of so many elements.
pub fn texts_are_given()
    ensures { TextsAreGiven }
{}
