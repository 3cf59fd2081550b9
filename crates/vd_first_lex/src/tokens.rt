//! Tokens, and the numbers of words and marks.

use vd_bytes::{Place, Text};

/// What a token is. A word's number is its place in the list of reserved words, a mark's its place in the list of
/// marks.
#[derive(Clone, Copy, PartialEq, Eq, Debug)]
pub enum Kind {
    Name,
    Number,
    Letter,
    Quoted,
    Bits,
    Word(u16),
    Mark(u16),
    /// The end of the file.
    End,
}

/// A token: its kind, its text (a name's in lower case; that of a word, a mark or the end is empty) and the place of
/// its first byte.
#[derive(Debug, Drop)]
pub struct Token {
    pub kind: Kind,
    pub text: Text,
    pub place: Place,
}

pub const ALL: u16 = 4;

pub const AND: u16 = 5;

pub const ARCHITECTURE: u16 = 6;

pub const BEGIN: u16 = 10;

pub const END: u16 = 23;

pub const ENTITY: u16 = 24;

pub const IN: u16 = 35;

pub const IS: u16 = 38;

pub const LIBRARY: u16 = 40;

pub const NOT: u16 = 50;

pub const OF: u16 = 52;

pub const OUT: u16 = 57;

pub const PORT: u16 = 59;

pub const PROCESS: u16 = 62;

pub const USE: u16 = 89;

/// The mark `(`.
pub const OPENING: u16 = 2;
/// The mark `)`.
pub const CLOSING: u16 = 3;
/// The mark `,`.
pub const COMMA: u16 = 6;
/// The mark `.`.
pub const POINT: u16 = 8;
/// The mark `:`.
pub const COLON: u16 = 10;
/// The mark `;`.
pub const SEMICOLON: u16 = 11;
/// The mark `<=`.
pub const ARROW: u16 = 21;

/// How many processes, assignments and expressions may stand above one another.
pub const NESTING_LIMIT: u32 = 200;

/// The same in 1993 text that is read.
pub const NESTING93_LIMIT: u32 = 2000;

/// How many tokens the files may have, their ends not counted.
pub const TOKENS_LIMIT: u32 = 2_000_000;
