//! Writing a whole text.

ghost use Rattle.std.specs.Prelude.{◌≡◌, OnOk, OnErr, IsTrue};
ghost use Rattle.vd_bytes.specs.Trays.{Rose, Appends, AppendsFront, OnlyWrites};

use crate::channels::{Channel, Failed, WriteFault};
use crate::tray::Tray;

impl From<Failed> for WriteFault {
    ghost from_gives = { λ _ _. Unit {0} };

    fn from(_: Failed) -> Self {
        WriteFault
    }
}

/// Writes all the bytes on a channel. Calls `write` at least once, so that an empty text empties a
/// channel that is a real file.
pub fn write_all<T: Tray>(tray: &mut T, to: Channel, bytes: &[u8]) -> Result<(), WriteFault>
    ensures appended { OnOk result
        (Appends (T.written tray.old to) (T.written tray.new to) bytes.now) }
    ensures begun { OnOk result (IsTrue (T.is_begun tray.new to)) }
    ensures no_fault { OnOk result (T.write_faults tray.new ≡ T.write_faults tray.old) }

    ensures fault { OnErr result (Rose (T.write_faults tray.old) (T.write_faults tray.new)) }
    ensures front { AppendsFront (T.written tray.old to) (T.written tray.new to) bytes.now }

    ensures only_writes { OnlyWrites T.files T.is_open T.open_name T.rest T.written T.is_begun
        T.read_faults T.write_faults to tray.old tray.new }
{
    let mut done = 0;
    'pieces: loop {
        done += tray.write(to, &bytes[done..])?;
        if done >= bytes.len() {
            return Ok(());
        }
    }
}
