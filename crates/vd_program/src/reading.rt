//! Reading the FILEs of a call.

ghost use Rattle.std.specs.Prelude.{◌≡◌, ◌≢◌, ◌<◌, ◌≤◌, ℕ, [], ◌∷◌, ◌++◌, length, IfOk, OnOk, IfSome};
ghost use Rattle.vd_bytes.specs.declared.answers.Limit.TheVariants as limits;
ghost use Rattle.vd_bytes.specs.Trays.{SameCounts, OnlyReads};
ghost use Rattle.vd_words.specs.Words.{texts_of};
ghost use Rattle.vd_program.specs.Dues.{limit_number};
ghost use Rattle.vd_program.specs.Outcomes.{contents_of, total_length, IsReadFault};
ghost use Rattle.vd_program.specs.declared.reading.FilesEnd.TheVariants.{Memory};

use crate::contents::Contents;
use std::alloc::{AllocError, Global};
use thiserror::Error;
use vd_bytes::{Bytes, ReadEnd, Tray, read_all};

/// How many FILEs there may be.
const FILES_LIMIT: usize = 64;

/// How many bytes the files may have together.
const INPUT_LIMIT: u64 = 8_388_608;

/// Why the files weren't read whole.
#[derive(Clone, Copy, PartialEq, Eq, Debug, Error)]
pub enum FilesEnd {
    /// There are too many of them.
    #[error("too many files")]
    TooMany,
    /// They have too many bytes together.
    #[error("the files are too long")]
    TooLong,
    /// The file of that number, from 0, couldn't be opened or read.
    #[error("read fault")]
    ReadFault(usize),
    /// Memory ran out.
    #[error("out of memory")]
    Memory,
}

impl From<AllocError> for FilesEnd {
    ghost from_gives = { λ _ end. end ≡ Memory };

    fn from(_: AllocError) -> Self {
        FilesEnd::Memory
    }
}

/// The contents of the files of these names, in their order, and none where a limit is passed. A name that stands twice is
/// read twice, and counts twice. Of too many names none is opened, and no file behind the one that passes the limit of
/// bytes.
pub fn read_files<T: Tray>(
    alloc: Global,
    tray: &mut T,
    names: &[String],
) -> Result<Contents, FilesEnd>
    ensures contents { IfOk result (λ contents. IfSome (T.files tray.old)
        (λ told. contents ≡ contents_of told (texts_of names.now))) }
    ensures as_many { IfOk result (λ contents. length contents ≡ length names.now) }
    ensures few { IfOk result (λ _. length names.now ≤ limit_number limits.Files) }
    ensures within { IfOk result (λ contents. total_length contents ≤ limit_number limits.Input) }

    ensures many_files { limit_number limits.Files < length names.now
        → (result ≡ Err FilesEnd.TooMany) × (tray.new ≡ tray.old) }
    ensures only_many { result ≡ Err FilesEnd.TooMany → limit_number limits.Files < length names.now }
    ensures too_long { result ≡ Err FilesEnd.TooLong → (length names.now ≤ limit_number limits.Files) × (0 < length names.now)
        × IfSome (T.files tray.old) (λ told. limit_number limits.Input < total_length (contents_of told (texts_of names.now))) }
    ensures fault { (i : ℕ) → result ≡ Err (FilesEnd.ReadFault i)
        → IsReadFault T.read_faults tray.old tray.new (T.files tray.old) (texts_of names.now) i }
    ensures no_fault { ((i : ℕ) → result ≢ Err (FilesEnd.ReadFault i))
        → SameCounts (T.read_faults tray.old) (T.read_faults tray.new) }
    ensures only_reads { OnlyReads T.files T.written T.is_begun T.read_faults T.write_faults tray.old tray.new }
{
    if names.len() > FILES_LIMIT {
        return Err(FilesEnd::TooMany);
    }
    let mut contents = Vec::with_capacity(alloc, names.len())?;
    let mut left = INPUT_LIMIT;
    for (i, name) in names.iter().enumerate() {
        let bytes = match read_all(alloc, tray, name.as_str(), left) {
            Ok(bytes) => bytes,
            Err(ReadEnd::TooLong) => return Err(FilesEnd::TooLong),
            Err(ReadEnd::ReadFault) => return Err(FilesEnd::ReadFault(i)),
            Err(ReadEnd::Memory) => return Err(FilesEnd::Memory),
        };
        left -= bytes.len() as u64;
        add(&mut contents, bytes)?;
    }
    Ok(Contents::of(contents))
}

fn add(contents: &mut Vec<Bytes>, bytes: Vec<u8>) -> Result<(), AllocError>
    ensures { OnOk result (contents.new.items ≡ contents.old.items ++ bytes.items ∷ []) }
{
    contents.push(Bytes::of(bytes))?;
    Ok(())
}
