//! Laws of the definitions, each as the contract of a function that does nothing.

ghost use Rattle.vd_operators.specs.Support.{SupportWritesTexts};

/// What the functions of the support package write is what `to_string` writes, for which they stand.
pub fn support_texts_are_operators()
    ensures { SupportWritesTexts }
{}
