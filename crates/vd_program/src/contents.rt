//! The contents of files.

ghost use Rattle.std.specs.Prelude.{◌≡◌};

use std::marker::Model;
use vd_bytes::Bytes;

/// The bytes of some files, in the order in which they were named. Contracts see a list of lists of bytes.
#[derive(Debug, Drop)]
pub struct Contents {
    files: Vec<Bytes>,
}

impl Model for Contents {
    ghost use Rattle.std.specs.Prelude.{ℕ, List};

    ghost Value = { List (List ℕ) };

    ghost view = { λ a. a.files.items };
}

impl Contents {
    /// These contents, as they are.
    pub fn of(files: Vec<Bytes>) -> Contents
        ensures { result ≡ files.items }
    {
        Contents { files }
    }

    /// The contents.
    pub fn as_slice(&self) -> &[Bytes]
        ensures { result.now ≡ self.now }
    {
        self.files.as_slice()
    }
}
