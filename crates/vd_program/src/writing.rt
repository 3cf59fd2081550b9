//! Writing what is due, which takes no memory.

ghost use Rattle.std.specs.Prelude.{◌≡◌, ◌≢◌, ◌⊎◌, [], OnOk, OnErr, IsTrue, IsFalse};
ghost use Rattle.vd_bytes.specs.declared.channels.Channel.{Channel};
ghost use Rattle.vd_bytes.specs.Trays.{Rose, SameCounts};
ghost use Rattle.vd_program.specs.Outcomes.{WritesFiles};
ghost use Rattle.vd_program.specs.Endings.{GotAll, GotFronts, GotNothing, FilesUntouched, BeginsInOrder, due_with};

use vd_bytes::{Channel, Tray, WriteFault, write_all};

// Writes what is due, and answers its status, or that writing failed. The files of Design and Map are written where the mode is one
// that writes them, and is done.
pub(crate) fn write_due<T: Tray>(
    tray: &mut T,
    writes: bool,
    status: u8,
    design: &[u8],
    map: &[u8],
    console: &[u8],
) -> u8
    requires no_fault { status ≢ 4 }
    requires quiet { (WritesFiles writes status → ⊥) → (design.now ≡ []) × (map.now ≡ []) }
    ensures all { result ≢ 4 → (result ≡ status)
        × GotAll T.written tray.old tray.new (due_with status design.now map.now console.now) }
    ensures fault { result ≡ 4 → Rose (T.write_faults tray.old) (T.write_faults tray.new) }
    ensures fronts { result ≡ 4
        → GotFronts T.written tray.old tray.new (due_with status design.now map.now console.now) }
    ensures read_counts { SameCounts (T.read_faults tray.old) (T.read_faults tray.new) }
    ensures in_order { result ≡ 4 → BeginsInOrder T.written T.is_begun tray.old tray.new (due_with status design.now map.now console.now) }
    ensures begun { WritesFiles writes result → (to : Channel) → IsTrue (T.is_begun tray.new to) }
    ensures console_begun { result ≢ 4 → IsTrue (T.is_begun tray.new Channel.Console) }
    ensures untouched { (WritesFiles writes status → ⊥) → FilesUntouched T.is_begun tray.old tray.new }
    ensures no_fault { result ≢ 4 → T.write_faults tray.new ≡ T.write_faults tray.old }
    ensures no_design { (WritesFiles writes status → ⊥) → GotNothing T.written tray.old tray.new Channel.Design }
    ensures no_map { (WritesFiles writes status → ⊥) → GotNothing T.written tray.old tray.new Channel.Map }
    ensures same_files { T.files tray.new ≡ T.files tray.old }
    ensures either { (result ≡ status) ⊎ (result ≡ 4) }
{
    match write_channels(tray, writes_files(writes, status), design, map, console) {
        Ok(()) => status,
        Err(_) => 4,
    }
}

fn writes_files(writes: bool, status: u8) -> bool
    ensures yes { IsTrue result → WritesFiles writes status }
    ensures no { IsFalse result → WritesFiles writes status → ⊥ }
{
    writes && status == 0
}

// Writes the channels in their order; with no files the console alone.
fn write_channels<T: Tray>(
    tray: &mut T,
    files: bool,
    design: &[u8],
    map: &[u8],
    console: &[u8],
) -> Result<(), WriteFault>
    requires quiet { IsFalse files → (design.now ≡ []) × (map.now ≡ []) }
    ensures all { OnOk result (GotAll T.written tray.old tray.new (due_with 0 design.now map.now console.now)) }
    ensures fault { OnErr result (Rose (T.write_faults tray.old) (T.write_faults tray.new)) }
    ensures fronts { OnErr result (GotFronts T.written tray.old tray.new (due_with 0 design.now map.now console.now)) }
    ensures read_counts { SameCounts (T.read_faults tray.old) (T.read_faults tray.new) }
    ensures in_order { OnErr result (BeginsInOrder T.written T.is_begun tray.old tray.new (due_with 0 design.now map.now console.now)) }
    ensures begun { OnOk result (IsTrue files → (to : Channel) → IsTrue (T.is_begun tray.new to)) }
    ensures console_begun { OnOk result (IsTrue (T.is_begun tray.new Channel.Console)) }
    ensures untouched { IsFalse files → FilesUntouched T.is_begun tray.old tray.new }
    ensures no_fault { OnOk result (T.write_faults tray.new ≡ T.write_faults tray.old) }
    ensures no_design { IsFalse files → GotNothing T.written tray.old tray.new Channel.Design }
    ensures no_map { IsFalse files → GotNothing T.written tray.old tray.new Channel.Map }
    ensures same_files { T.files tray.new ≡ T.files tray.old }
{
    if files {
        write_all(tray, Channel::Design, design)?;
        write_all(tray, Channel::Map, map)?;
    }
    write_all(tray, Channel::Console, console)
}
