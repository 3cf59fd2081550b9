//! The words that are taken.

ghost use Rattle.std.specs.Prelude.{IfOk};
ghost use Rattle.vd_words.specs.Commands.{meaning_in};
ghost use Rattle.vd_command.specs.Words.{texts_of, job_of, job_of_meaning, IsActionFor};

use crate::action::Action;
use std::alloc::{AllocError, Global};
use vd_words::{Command, Mode, WordsEnd, read_words};

/// What is to be done for these words.
pub fn action_of(alloc: Global, words: &Vec<String>) -> Result<Action, AllocError>
    ensures { IfOk result (λ action. IsActionFor action (job_of (texts_of words.now.items))) }
{
    match read_words(alloc, words) {
        Ok(command) => Ok(action_for(command)),
        Err(WordsEnd::NotTaken) => Ok(Action::RefuseWords),
        Err(WordsEnd::Memory) => Err(AllocError),
    }
}

// What is to be done for a command: the words are taken where the program has its mode.
fn action_for(command: Command) -> Action
    ensures { IsActionFor result (job_of_meaning (meaning_in command)) }
{
    let Command {
        mode,
        tool_type,
        files,
        ..
    } = command;
    match mode {
        Mode::Convert => Action::Convert(tool_type, files),
        Mode::Check => Action::Check(tool_type, files),
        _ => Action::RefuseWords,
    }
}
