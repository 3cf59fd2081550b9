//! Reading the words.

ghost use Rattle.std.specs.Prelude.{◌≡◌, None, Some, IfOk};
ghost use Rattle.vd_words.specs.Words.{texts_of};
ghost use Rattle.vd_words.specs.Commands.{meaning_of, meaning_in};
ghost use Rattle.vd_words.specs.declared.command.WordsEnd.TheVariants.{NotTaken};

use crate::command::{Command, WordsEnd};
use crate::given::matches_of;
use crate::plan::{command_of, planned};
use std::alloc::Global;

/// The command that the words behind the program's name mean. Each option stands at most once, as `--x v` or `--x=v`, in any
/// order with the FILEs; behind `--` every word is a FILE. `run19` and `run93` have `--top`, and no other mode has it.
pub fn read_words(alloc: Global, words: &Vec<String>) -> Result<Command, WordsEnd>
    ensures taken { IfOk result (λ command. meaning_of (texts_of words.now.items) ≡ Some (meaning_in command)) }
    ensures not_taken { result ≡ Err WordsEnd.NotTaken → meaning_of (texts_of words.now.items) ≡ None }
{
    let matches = matches_of(alloc, words)?;
    match planned(&matches) {
        Some(plan) => Ok(command_of(alloc, &plan, &matches)?),
        None => Err(WordsEnd::NotTaken),
    }
}
