//! Reading a whole file.

ghost use Rattle.std.specs.Prelude.{◌≡◌, ◌≢◌, ◌<◌, ◌≤◌, length, IfOk, IfSome, IsTrue, vec_len};
ghost use Rattle.vd_bytes.specs.declared.reading.ReadEnd.TheVariants.{ReadFault, Memory};
ghost use Rattle.vd_bytes.specs.Trays.{content_of, Rose, RoseAt, SameCounts, OnlyReads};

use crate::channels::Failed;
use crate::tray::Tray;
use std::alloc::{AllocError, Global};
use thiserror::Error;

/// Why a file wasn't read whole.
#[derive(Clone, Copy, PartialEq, Eq, Debug, Error)]
pub enum ReadEnd {
    /// The file couldn't be opened or read.
    #[error("read fault")]
    ReadFault,
    /// The file has more bytes than were allowed.
    #[error("a file is too long")]
    TooLong,
    /// Memory ran out.
    #[error("out of memory")]
    Memory,
}

impl From<AllocError> for ReadEnd {
    ghost from_gives = { λ _ end. end ≡ Memory };

    fn from(_: AllocError) -> Self {
        ReadEnd::Memory
    }
}

impl From<Failed> for ReadEnd {
    ghost from_gives = { λ _ end. end ≡ ReadFault };

    fn from(_: Failed) -> Self {
        ReadEnd::ReadFault
    }
}

/// How many bytes are read at once.
const PIECE: usize = 65536;

/// The bytes of the file of that name, if there are at most `left`. Every answer but the read fault comes
/// only where no fault came.
pub fn read_all<T: Tray>(
    alloc: Global,
    tray: &mut T,
    name: &str,
    left: u64,
) -> Result<Vec<u8>, ReadEnd>
    ensures content { IfOk result (λ bytes. IfSome (T.files tray.old)
        (λ told. bytes.items ≡ content_of told name.now)) }
    ensures within { IfOk result (λ bytes. vec_len bytes ≤ left) }

    ensures too_long { result ≡ Err ReadEnd.TooLong
        → IfSome (T.files tray.old) (λ told. left < length (content_of told name.now)) }
    ensures fault { result ≡ Err ReadEnd.ReadFault
        → Rose (T.read_faults tray.old name.now) (T.read_faults tray.new name.now) }

    ensures no_fault { result ≢ Err ReadEnd.ReadFault
        → SameCounts (T.read_faults tray.old) (T.read_faults tray.new) }

    ensures only_reads { OnlyReads T.files T.written T.is_begun T.read_faults T.write_faults
        tray.old tray.new }
{
    let mut piece = vec![in alloc; 0u8; PIECE]?;
    match tray.open_file(name) {
        Ok(()) => read_rest(alloc, tray, &mut piece, left),
        Err(_) => Err(ReadEnd::ReadFault),
    }
}

/// What is left of the open file, if that is at most `left` bytes. It is read through the buffer.
fn read_rest<T: Tray>(
    alloc: Global,
    tray: &mut T,
    piece: &mut [u8],
    left: u64,
) -> Result<Vec<u8>, ReadEnd>
    requires opened { IsTrue (T.is_open tray.old) }
    requires room { 0 < length piece.old }
    ensures content { IfOk result (λ bytes. IfSome (T.rest tray.old) (λ told. bytes.items ≡ told)) }
    ensures within { IfOk result (λ bytes. vec_len bytes ≤ left) }

    ensures too_long { result ≡ Err ReadEnd.TooLong
        → IfSome (T.rest tray.old) (λ told. left < length told) }
    ensures fault { result ≡ Err ReadEnd.ReadFault
        → RoseAt (T.open_name tray.old) (T.read_faults tray.old) (T.read_faults tray.new) }

    ensures no_fault { result ≢ Err ReadEnd.ReadFault
        → SameCounts (T.read_faults tray.old) (T.read_faults tray.new) }

    ensures only_reads { OnlyReads T.files T.written T.is_begun T.read_faults T.write_faults
        tray.old tray.new }
{
    let mut bytes = Vec::new(alloc);
    'pieces: loop {
        let n = tray.read(piece)?;
        if n == 0 {
            return Ok(bytes);
        }
        if n as u64 > left - bytes.len() as u64 {
            return Err(ReadEnd::TooLong);
        }
        bytes.extend_from_slice(&piece[..n])?;
    }
}
