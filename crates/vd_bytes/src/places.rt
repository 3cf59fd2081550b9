//! Where something stands in the files.

/// A place in the files: the file's number from 0, the line and the column, both from 1, in bytes.
#[derive(Clone, Copy, PartialEq, Eq, Debug)]
pub struct Place {
    pub file: u32,
    pub line: u32,
    pub column: u32,
}
