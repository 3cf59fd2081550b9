//! Laws of the definitions, each the contract of a function that does nothing.

ghost use Rattle.vd_meaning.specs.Given.{GivenCounted};

/// The declarations that no file has are as many as the definitions count.
pub fn given_declarations_are_counted()
    ensures { GivenCounted }
{}
