//! The top call: words and files in, a status and bytes on three channels out.

ghost use Rattle.std.specs.Prelude.{◌≡◌, ◌≢◌, ◌<◌, ◌⊎◌, ℕ, List, [], IfSome, IsTrue, slice_index_or};
ghost use Rattle.vd_bytes.specs.declared.channels.Channel.{Channel};
ghost use Rattle.vd_bytes.specs.Trays.{Rose, SameCounts};
ghost use Rattle.vd_program.specs.Dues.{Due, refused_words, read_fault};
ghost use Rattle.vd_program.specs.Endings.{GotAll, GotFronts, GotNothing, FilesUntouched, BeginsInOrder};
ghost use Rattle.vd_program.specs.Outcomes.{contents_of};
ghost use Rattle.vd_command.specs.Words.{Job, refusing, checking, job_of, files_of, texts_of};
ghost use Rattle.vd_command.specs.Outcomes.{HasOneOutcome, HasSomeOutcome};
ghost use Rattle.vd_command.specs.Endings.{IsCompleted, IsOutcomeOf, IsDueOrFault, FailsAt, Writes};
ghost use Rattle.vd_command.specs.Headline.{ConvertsFile, ConvertsFiles, RefusesFiles, HasNoFault, NamesAcceptable, ChecksLegal, IsWithinRules};

use crate::action::Action;
use crate::conversion::Conversion;
use crate::words::action_of;
use std::alloc::Global;
use vd_bytes::Tray;
use vd_modes::Checking;
use vd_program::{MEMORY, perform, refuse_words};

/// Converts the files that the words name, or checks them, and answers a status: 0 done, 1 a rule is broken, 2 the words aren't taken,
/// 3 a fault in reading, 4 a fault in writing, 5 want of memory, 6 a limit is passed.
pub fn vdown<T: Tray>(alloc: Global, words: &Vec<String>, tray: &mut T) -> u8
    // With the statuses 0, 1, 2 and 6 the outcome of words and files is reached, and each channel got its due bytes.
    ensures completed { IsCompleted result → (due : Due) × (due.status ≡ result)
        × IsOutcomeOf (T.files tray.old) (texts_of words.now.items) due
        × GotAll T.written tray.old tray.new due }

    // With status 0 of a conversion of one file of the first language Design and Map got a design and a map that say what the file says: a
    // 1993 text with a whole map, the same interface, and the same run for every top, all inputs and every number of cycles.
    ensures headline { result ≡ 0
        → IfSome (T.files tray.old) (λ told. ConvertsFile T.written tray.old tray.new (texts_of words.now.items) told) }

    // With status 0 of any other conversion the files break no rule of revision 2019, and Design got a text of revision 1993 that breaks no
    // rule of that revision, read again by its lexis and grammar, and laid out.
    ensures converts { result ≡ 0
        → IfSome (T.files tray.old) (λ told. ConvertsFiles T.written tray.old tray.new (texts_of words.now.items) told) }

    // With status 1 of a conversion Console got the first rule that the files break; or 199, only where they break none: the program can't
    // show that what it would write is a text of revision 1993.
    ensures refuses { result ≡ 1
        → IfSome (T.files tray.old) (λ told. RefusesFiles T.written tray.old tray.new (texts_of words.now.items) told) }

    // Where no fault came and memory sufficed, the outcome is reached; and a file of the first language within the limits is then
    // converted.
    ensures complete { HasNoFault T.read_faults T.write_faults tray.old tray.new (texts_of words.now.items)
        → result ≢ 5 → IsCompleted result }
    ensures accepts { HasNoFault T.read_faults T.write_faults tray.old tray.new (texts_of words.now.items)
        → result ≢ 5 → IfSome (T.files tray.old) (λ told. NamesAcceptable (texts_of words.now.items) told → result ≡ 0) }

    // Status 0 of a check comes exactly where the files break no rule, within the limits: there alone, and always there where no fault came
    // and memory sufficed.
    ensures legal { result ≡ 0 → IfSome (T.files tray.old) (λ told. (tool : List ℕ) (names : List (List ℕ))
        → job_of (texts_of words.now.items) ≡ checking tool names → IsWithinRules tool names (contents_of told names)) }
    ensures checks { HasNoFault T.read_faults T.write_faults tray.old tray.new (texts_of words.now.items)
        → result ≢ 5 → IfSome (T.files tray.old) (λ told. ChecksLegal (texts_of words.now.items) told → result ≡ 0) }

    // Whether the words are taken needs no file.
    ensures words { result ≡ 2 → (job_of (texts_of words.now.items) ≡ refusing)
        × GotAll T.written tray.old tray.new refused_words }
    ensures not_taken { job_of (texts_of words.now.items) ≡ refusing → (result ≡ 2) ⊎ ((result ≡ 4) ⊎ (result ≡ 5)) }

    // A fault in reading is that of one of the files that the words name, and Console names it.
    ensures read_fault { result ≡ 3 → (i : ℕ)
        × FailsAt T.read_faults tray.old tray.new (T.files tray.old) (texts_of words.now.items) i
        × GotAll T.written tray.old tray.new (read_fault (slice_index_or (files_of (job_of (texts_of words.now.items))) i [])) }

    // After a fault in writing each channel got a front of its due bytes, a later one only where the earlier ones got all.
    ensures write_fault { result ≡ 4 → Rose (T.write_faults tray.old) (T.write_faults tray.new) }
    ensures fronts { result ≡ 4 → (due : Due)
        × IsDueOrFault T.read_faults tray.old tray.new (texts_of words.now.items) (T.files tray.old) due
        × GotFronts T.written tray.old tray.new due × BeginsInOrder T.written T.is_begun tray.old tray.new due
        × ((Writes (texts_of words.now.items) due.status → ⊥) → FilesUntouched T.is_begun tray.old tray.new) }

    // Design and Map are written with a conversion alone.
    ensures no_design { (Writes (texts_of words.now.items) result → ⊥) → result ≢ 4 → GotNothing T.written tray.old tray.new Channel.Design }
    ensures no_map { (Writes (texts_of words.now.items) result → ⊥) → result ≢ 4 → GotNothing T.written tray.old tray.new Channel.Map }

    // A conversion begins every channel, so that no old file stays beside a new one. Else the files of Design and Map are neither created nor
    // emptied.
    ensures begun { Writes (texts_of words.now.items) result → (to : Channel) → IsTrue (T.is_begun tray.new to) }
    ensures console_begun { result ≢ 4 → result ≢ 5 → IsTrue (T.is_begun tray.new Channel.Console) }
    ensures untouched { (Writes (texts_of words.now.items) result → ⊥) → result ≢ 4 → FilesUntouched T.is_begun tray.old tray.new }

    // No fault is hidden: where one came in writing the status is 4, and where one came in reading it is 3, or 4.
    ensures no_write_fault { result ≢ 4 → T.write_faults tray.new ≡ T.write_faults tray.old }
    ensures no_read_fault { result ≢ 3 → result ≢ 4 → SameCounts (T.read_faults tray.old) (T.read_faults tray.new) }

    // Nothing is written, and no channel begun, before all bytes are formed.
    ensures memory { result ≡ 5 → (to : Channel) → GotNothing T.written tray.old tray.new to }
    ensures memory_begun { result ≡ 5 → (to : Channel) → T.is_begun tray.new to ≡ T.is_begun tray.old to }
    ensures statuses { result < 7 }
    ensures same_files { T.files tray.new ≡ T.files tray.old }
{
    match action_of(alloc, words) {
        Ok(Action::Convert(tool_type, files)) => {
            perform(alloc, &Conversion::of(tool_type), files.as_slice(), tray)
        }
        Ok(Action::Check(tool_type, files)) => {
            perform(alloc, &Checking::of(tool_type), files.as_slice(), tray)
        }
        Ok(Action::RefuseWords) => refuse_words(tray),
        Err(_) => MEMORY,
    }
}

/// Words and files have at most one outcome, so where a tray tells its files, the statuses 0, 1, 2 and 6, and what is written
/// with them, are determined by words and files, faults and want of memory aside; but for what is written of files of the whole profile that
/// break no rule.
pub fn one_outcome()
    ensures { HasOneOutcome }
{}

/// Words and files have an outcome, whatever they are.
pub fn some_outcome()
    ensures { HasSomeOutcome }
{}
