//! A mode carried out: the files are read, all bytes are formed, and then the channels are written.

ghost use Rattle.std.specs.Prelude.{◌≡◌, ◌≢◌, ◌≤◌, ◌<◌, ◌⊎◌, ℕ, [], length, map, slice_index_or, IfOk, OnErr, IsTrue, string_bytes};
ghost use Rattle.vd_bytes.specs.declared.channels.Channel.{Channel};
ghost use Rattle.vd_bytes.specs.Trays.{Rose, SameCounts, OnlyReads};
ghost use Rattle.vd_words.specs.Words.{texts_of};
ghost use Rattle.vd_program.specs.Dues.{Due, refused_words, read_fault};
ghost use Rattle.vd_program.specs.Outcomes.{IsOutcomeOfFiles, IsReadFault, IsDueOrReadFault, IsOwnStatus, WritesFiles, HasConsoleAlone, IsReady};
ghost use Rattle.vd_program.specs.Endings.{GotAll, GotFronts, GotNothing, FilesUntouched, BeginsInOrder};

use crate::due::DueBytes;
use crate::lines::{REFUSED_WORDS, read_fault_line};
use crate::reading::{FilesEnd, read_files};
use crate::task::Task;
use crate::writing::write_due;
use std::alloc::{AllocError, Global};
use vd_bytes::{Channel, Limit, Tray};

/// Want of memory.
pub const MEMORY: u8 = 5;

/// Carries a mode out over the files of these names, and answers a status: that of the mode's answer, or 3 a fault in reading, 4 a
/// fault in writing, 5 want of memory, 6 too many files, or too many bytes in them.
pub fn perform<M: Task, T: Tray>(alloc: Global, task: &M, names: &[String], tray: &mut T) -> u8
    requires taken { M.takes task.now (length names.now) }

    // Faults and want of memory aside, the outcome of the files is reached, and each channel got its due bytes.
    ensures completed { result ≢ 3 → result ≢ 4 → result ≢ 5 → (due : Due) × (due.status ≡ result) × IsOwnStatus result
        × IsOutcomeOfFiles (M.says task.now) (T.files tray.old) (texts_of names.now) due
        × GotAll T.written tray.old tray.new due }

    // A fault in reading is that of one of the files, and Console names it.
    ensures read_fault { result ≡ 3 → (i : ℕ)
        × IsReadFault T.read_faults tray.old tray.new (T.files tray.old) (texts_of names.now) i
        × GotAll T.written tray.old tray.new (read_fault (slice_index_or (texts_of names.now) i [])) }

    // After a fault in writing each channel got a front of its due bytes, a later one only where the earlier ones got all.
    ensures write_fault { result ≡ 4 → Rose (T.write_faults tray.old) (T.write_faults tray.new) }
    ensures fronts { result ≡ 4 → (due : Due)
        × IsDueOrReadFault T.read_faults tray.old tray.new (M.says task.now) (T.files tray.old) (texts_of names.now) due
        × GotFronts T.written tray.old tray.new due × BeginsInOrder T.written T.is_begun tray.old tray.new due
        × ((WritesFiles (M.writes task.now) due.status → ⊥) → FilesUntouched T.is_begun tray.old tray.new) }

    // Design and Map are written where the mode writes them and is done.
    ensures no_design { (WritesFiles (M.writes task.now) result → ⊥) → result ≢ 4 → GotNothing T.written tray.old tray.new Channel.Design }
    ensures no_map { (WritesFiles (M.writes task.now) result → ⊥) → result ≢ 4 → GotNothing T.written tray.old tray.new Channel.Map }

    // Then every channel is begun, so that no old file stays beside a new one. Else the files of Design and Map are neither
    // created nor emptied.
    ensures begun { WritesFiles (M.writes task.now) result → (to : Channel) → IsTrue (T.is_begun tray.new to) }
    ensures console_begun { result ≢ 4 → result ≢ 5 → IsTrue (T.is_begun tray.new Channel.Console) }
    ensures untouched { (WritesFiles (M.writes task.now) result → ⊥) → result ≢ 4 → FilesUntouched T.is_begun tray.old tray.new }

    // No fault is hidden: where one came in writing the status is 4, and where one came in reading it is 3, or 4.
    ensures no_write_fault { result ≢ 4 → T.write_faults tray.new ≡ T.write_faults tray.old }
    ensures no_read_fault { result ≢ 3 → result ≢ 4 → SameCounts (T.read_faults tray.old) (T.read_faults tray.new) }

    // Nothing is written, and no channel begun, before all bytes are formed.
    ensures memory { result ≡ 5 → (to : Channel) → GotNothing T.written tray.old tray.new to }
    ensures memory_begun { result ≡ 5 → (to : Channel) → T.is_begun tray.new to ≡ T.is_begun tray.old to }
    ensures no_words { result ≢ 2 }
    ensures same_files { T.files tray.new ≡ T.files tray.old }
{
    match ready_for(alloc, task, names, tray) {
        Ok(due) => write_due(
            tray,
            task.writes_files(),
            due.status(),
            due.design(),
            due.map(),
            due.console(),
        ),
        Err(_) => MEMORY,
    }
}

/// Says that the words aren't taken.
pub fn refuse_words<T: Tray>(tray: &mut T) -> u8
    ensures all { result ≢ 4 → (result ≡ 2) × GotAll T.written tray.old tray.new refused_words }
    ensures fault { result ≡ 4 → Rose (T.write_faults tray.old) (T.write_faults tray.new) }
    ensures fronts { result ≡ 4 → GotFronts T.written tray.old tray.new refused_words }
    ensures in_order { result ≡ 4 → BeginsInOrder T.written T.is_begun tray.old tray.new refused_words }
    ensures console_begun { result ≢ 4 → IsTrue (T.is_begun tray.new Channel.Console) }
    ensures untouched { FilesUntouched T.is_begun tray.old tray.new }
    ensures no_fault { result ≢ 4 → T.write_faults tray.new ≡ T.write_faults tray.old }
    ensures read_counts { SameCounts (T.read_faults tray.old) (T.read_faults tray.new) }
    ensures no_design { GotNothing T.written tray.old tray.new Channel.Design }
    ensures no_map { GotNothing T.written tray.old tray.new Channel.Map }
    ensures same_files { T.files tray.new ≡ T.files tray.old }
    ensures either { (result ≡ 2) ⊎ (result ≡ 4) }
{
    write_due(tray, false, 2, &[], &[], REFUSED_WORDS)
}

// Reads the files, and forms what is due.
fn ready_for<M: Task, T: Tray>(
    alloc: Global,
    task: &M,
    names: &[String],
    tray: &mut T,
) -> Result<DueBytes, AllocError>
    requires taken { M.takes task.now (length names.now) }
    ensures ready { IfOk result (λ due. IsReady T.read_faults tray.old tray.new (M.says task.now) (T.files tray.old) (texts_of names.now) due) }
    ensures console_alone { IfOk result (λ due. (WritesFiles (M.writes task.now) due.status → ⊥) → HasConsoleAlone due) }
    ensures memory { OnErr result (SameCounts (T.read_faults tray.old) (T.read_faults tray.new)) }
    ensures only_reads { OnlyReads T.files T.written T.is_begun T.read_faults T.write_faults tray.old tray.new }
{
    // The lines of faults are formed before a fault can come, so that want of memory never hides one.
    let mut faults = fault_lines(alloc, names)?;
    match read_files(alloc, tray, names) {
        Ok(contents) => task.form(alloc, names, &contents),
        Err(FilesEnd::TooMany) => DueBytes::limit(alloc, Limit::Files),
        Err(FilesEnd::TooLong) => DueBytes::limit(alloc, Limit::Input),
        Err(FilesEnd::ReadFault(i)) => {
            Ok(DueBytes::console_alone(alloc, 3, faults.swap_remove(i)))
        }
        Err(FilesEnd::Memory) => Err(AllocError),
    }
}

// The line of a fault in reading, for each of the files.
fn fault_lines(alloc: Global, names: &[String]) -> Result<Vec<String>, AllocError>
    ensures { IfOk result (λ lines. map string_bytes lines.items ≡ map (λ name. (read_fault (string_bytes name)).console) names.now) }
{
    let mut lines = Vec::with_capacity(alloc, names.len())?;
    for name in names {
        lines.push(read_fault_line(alloc, name.as_str())?)?;
    }
    Ok(lines)
}
