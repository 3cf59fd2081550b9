//! What the program can do.

use vd_bytes::Text;
use vd_words::FileNames;

/// A mode that the program has, with what it needs of the words.
#[derive(Debug, Drop)]
pub enum Action {
    /// Say that the words aren't taken.
    RefuseWords,
    /// Convert the files, under a tool type.
    Convert(Text, FileNames),
    /// Check the files, under a tool type.
    Check(Text, FileNames),
}
