//! The laws that what is written for a 2019 file is a text of 1993.

ghost use Rattle.vd_first_written.specs.Written.{WrittenIs93, WrittenAreGiven};

/// The tokens that are written for a 2019 file are a 1993 text whose tree is the written one.
pub fn written_is_93()
    ensures { WrittenIs93 }
{}

/// A token list of 1993 can have the tokens that are written for a 2019 file.
pub fn written_are_given()
    ensures { WrittenAreGiven }
{}
