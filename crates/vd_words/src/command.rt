//! What words mean.

ghost use Rattle.std.specs.Prelude.{◌≡◌};
ghost use Rattle.vd_words.specs.Words.{texts_of};
ghost use Rattle.vd_words.specs.declared.command.WordsEnd.TheVariants.{Memory};

use std::alloc::AllocError;
use std::marker::Model;
use thiserror::Error;
use vd_bytes::Text;

/// What the program is to do.
#[derive(Clone, Copy, PartialEq, Eq, Debug)]
pub enum Mode {
    /// Convert the files.
    Convert,
    /// Check the files, and write nothing but what is refused.
    Check,
    /// Simulate files of revision 2019.
    Run19,
    /// Simulate files of revision 1993.
    Run93,
}

/// The names of files in their order, which contracts see as a list of lists of bytes.
#[derive(Debug, Drop)]
pub struct FileNames {
    names: Vec<String>,
}

impl Model for FileNames {
    ghost use Rattle.std.specs.Prelude.{ℕ, List};
    ghost use Rattle.vd_words.specs.Words.{texts_of};

    ghost Value = { List (List ℕ) };

    ghost view = { λ a. texts_of a.names.items };
}

impl FileNames {
    /// These names, as they are.
    pub fn of(names: Vec<String>) -> FileNames
        ensures { result ≡ texts_of names.items }
    {
        FileNames { names }
    }

    /// The names.
    pub fn as_slice(&self) -> &[String]
        ensures { texts_of result.now ≡ self.now }
    {
        self.names.as_slice()
    }
}

/// A mode with its options and its FILEs. `top` is the NAME of a run, and empty in the other modes. A NAME needn't be
/// well formed: that is asked where it is looked up.
#[derive(Debug, Drop)]
pub struct Command {
    pub mode: Mode,
    pub top: Text,
    pub cycles: u32,
    pub units: u32,
    pub tool_type: Text,
    pub files: FileNames,
}

/// Why there is no command.
#[derive(Clone, Copy, PartialEq, Eq, Debug, Error)]
pub enum WordsEnd {
    /// The words aren't taken.
    #[error("refused words")]
    NotTaken,
    /// Memory ran out.
    #[error("out of memory")]
    Memory,
}

impl From<AllocError> for WordsEnd {
    ghost from_gives = { λ _ end. end ≡ Memory };

    fn from(_: AllocError) -> Self {
        WordsEnd::Memory
    }
}
