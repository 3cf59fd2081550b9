//! The two revisions of the language.

/// A revision of IEEE 1076.
#[derive(Clone, Copy, PartialEq, Eq, Debug)]
pub enum Revision {
    V2019,
    V1993,
}
