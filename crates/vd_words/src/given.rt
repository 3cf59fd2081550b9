//! Which word is whose value: the words by `clap`, as one command with five options and FILEs.

ghost use Rattle.std.specs.Prelude.{◌≡◌, ◌≢◌, ℕ, None, Some, false, IfOk, IsTrue, map, string_bytes};
ghost use Rattle.clap.specs.Words.{app_of, rule_of};
ghost use Rattle.vd_words.specs.Words.{Said, texts_of, said_after, is_escape};
ghost use Rattle.vd_words.specs.Given.{line, option, argument, Tells, is_plain_line, is_short, wants_next, dash_first};
ghost use Rattle.clap.specs.declared.error.kind.ErrorKind.TheVariants.{OutOfMemory};
ghost use Rattle.vd_words.specs.declared.command.WordsEnd.TheVariants.{NotTaken};

use crate::command::WordsEnd;
use clap::error::ErrorKind;
use clap::{Arg, ArgAction, ArgMatches, Command};
use std::alloc::{AllocError, Global};

/// The id of the FILEs.
pub(crate) const FILE: &str = "FILE";

/// What `clap` finds in the words.
pub(crate) fn matches_of(alloc: Global, words: &Vec<String>) -> Result<ArgMatches<'_>, WordsEnd>
    ensures taken { IfOk result (λ matches. (said : Said) × (said_after None (texts_of words.now.items) ≡ Some said) × Tells matches said) }
    ensures not_taken { result ≡ Err WordsEnd.NotTaken → said_after None (texts_of words.now.items) ≡ None }
{
    if !is_plain_line(words) {
        return Err(WordsEnd::NotTaken);
    }
    let command = line(alloc)?;
    match command.try_get_matches_from(words.as_slice()) {
        Ok(matches) => Ok(matches),
        Err(error) => Err(end_of(error.kind())),
    }
}

// The command has no other kind of failure than words that it doesn't take, and want of memory.
fn end_of(kind: ErrorKind) -> WordsEnd
    ensures { result ≡ WordsEnd.NotTaken → kind ≢ ErrorKind.OutOfMemory }
{
    match kind {
        ErrorKind::OutOfMemory => WordsEnd::Memory,
        _ => WordsEnd::NotTaken,
    }
}

fn line<'a>(alloc: Global) -> Result<Command<'a>, AllocError>
    ensures { IfOk result (λ command. app_of command ≡ line) }
{
    Command::new(alloc, "vdown")
        .no_binary_name(true)
        .disable_help_flag(true)
        .disable_version_flag(true)
        .arg(option(alloc, "do"))?
        .arg(option(alloc, "top"))?
        .arg(option(alloc, "cycles"))?
        .arg(option(alloc, "units"))?
        .arg(option(alloc, "tool-type"))?
        .arg(argument(alloc, FILE))
}

fn option<'a>(alloc: Global, name: &'a str) -> Arg<'a>
    ensures rule { rule_of result ≡ option name.entry.now }
    ensures local { result.global ≡ false }
{
    argument(alloc, name).long(name)
}

fn argument<'a>(alloc: Global, id: &'a str) -> Arg<'a>
    ensures rule { rule_of result ≡ argument id.entry.now }
    ensures local { result.global ≡ false }
{
    Arg::new(alloc, id).action(ArgAction::Append)
}

// `clap` takes a dash alone as the value of an option before it, and these words don't. There are no options of one
// dash. So both are looked for before.
fn is_plain_line(words: &[String]) -> bool
    ensures { result ≡ is_plain_line (texts_of words.now) }
{
    for (i, word) in words.iter().enumerate() {
        if word.as_str() == "--" {
            return true;
        }
        if is_short(word) || wants_next(word) && dash_first(&words[i + 1..]) {
            return false;
        }
    }
    true
}

fn dash_first(words: &[String]) -> bool
    ensures { result ≡ dash_first (texts_of words.now) }
{
    match words {
        [word, ..] => word.as_str() == "-",
        [] => false,
    }
}

fn is_short(word: &str) -> bool
    ensures { result ≡ is_short word.now }
{
    match word.as_bytes() {
        [first, second, ..] => *first == b'-' && *second != b'-',
        _ => false,
    }
}

fn wants_next(word: &str) -> bool
    ensures { result ≡ wants_next word.now }
{
    match word.as_bytes() {
        [first, second, rest @ ..] if !rest.is_empty() => {
            *first == b'-' && *second == b'-' && !rest.contains(&b'=')
        }
        _ => false,
    }
}
