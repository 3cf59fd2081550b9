//! What a token is.

/// What a token is. A word's number is its place in the list of reserved words of revision 2019, a mark's its place in
/// the list of marks of that revision. Revision 1993 has the words below 97 and the marks below 23.
#[derive(Clone, Copy, PartialEq, Eq, Debug)]
pub enum Kind {
    /// An identifier that is no reserved word. Its text stands in lower case.
    Name,
    /// An abstract literal. Its text is its value in decimal, without zeros in front.
    Number,
    /// A character literal. Its text is the character.
    Letter,
    /// A string literal. Its text is its value.
    Quoted,
    /// A bit string literal. Its text is its value, an element a byte.
    Bits,
    /// A reserved word, without text.
    Word(u16),
    /// A delimiter, without text.
    Mark(u16),
    /// The end of the file, without text.
    End,
}

/// How many reserved words revision 1993 has.
pub const WORDS_OF_1993: u16 = 97;

/// How many marks revision 1993 has.
pub const MARKS_OF_1993: u16 = 23;

/// The mark `'`.
pub const APOSTROPHE: u16 = 1;

/// The mark `)`.
pub const CLOSING: u16 = 3;
