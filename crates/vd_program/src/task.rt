//! What a mode does with its files.

ghost use Rattle.std.specs.Prelude.{◌≡◌, ◌≤◌, ℕ, Bool, List, length, IfOk};
ghost use Rattle.vd_bytes.specs.declared.answers.Limit.TheVariants as limits;
ghost use Rattle.vd_words.specs.Words.{texts_of};
ghost use Rattle.vd_program.specs.Dues.{Due, limit_number};
ghost use Rattle.vd_program.specs.Outcomes.{total_length, IsOwnStatus, WritesFiles, HasConsoleAlone};

use crate::contents::Contents;
use crate::due::DueBytes;
use std::alloc::{AllocError, Global};

/// A mode with its options: it forms all that is due for files that were read within the limits.
pub trait Task {
    /// How many FILEs the mode takes.
    ghost takes: { Self → ℕ → Type 0 };

    /// Whether the mode writes Design and Map where it is done.
    ghost writes: { Self → Bool };

    /// What is due for the names of the files and their contents.
    ghost says: { Self → List (List ℕ) → List (List ℕ) → Due → Type 0 };

    /// Whether the mode writes Design and Map where it is done.
    fn writes_files(&self) -> bool
        ensures { result ≡ writes self.now };

    /// All bytes that are due.
    fn form(
        &self,
        alloc: Global,
        names: &[String],
        contents: &Contents,
    ) -> Result<DueBytes, AllocError>
        requires taken { takes self.now (length names.now) }
        requires as_many { length contents.now ≡ length names.now }
        requires few { length names.now ≤ limit_number limits.Files }
        requires within { total_length contents.now ≤ limit_number limits.Input }
        ensures said { IfOk result (λ due. says self.now (texts_of names.now) contents.now due) }
        ensures own_status { IfOk result (λ due. IsOwnStatus due.status) }
        ensures console_alone { IfOk result (λ due. (WritesFiles (writes self.now) due.status → ⊥) → HasConsoleAlone due) };
}
