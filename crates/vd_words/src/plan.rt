//! The values of the options, each looked at.

ghost use Rattle.std.specs.Prelude.{◌≡◌, ℕ, List, [], Some, None, codes, map, option_map, option_and_then, unwrap_or, string_bytes, IfOk};
ghost use Rattle.clap.specs.Words.{found_of, rows_of};
ghost use Rattle.vd_words.specs.Words.{values_of};
ghost use Rattle.vd_words.specs.Given.{values_given, file_id};
ghost use Rattle.vd_words.specs.Plans.{given_values, meaning_of_plan};
ghost use Rattle.vd_words.specs.Commands.{Meaning, meaning_by, meaning_in, one_or, mode_named, mode_in, number_in, tool_type_named, tool_type_in, top_in};

use crate::command::{Command, FileNames, Mode};
use crate::given::FILE;
use crate::numbers::number_named;
use clap::ArgMatches;
use std::alloc::{AllocError, Global};
use vd_bytes::Text;

/// A mode with its options, over the words themselves.
#[derive(Clone, Copy)]
pub struct Plan<'a> {
    pub mode: Mode,
    pub top: &'a str,
    pub cycles: u32,
    pub units: u32,
    pub tool_type: &'a str,
}

/// What the values that were given for the options come to.
pub(crate) fn planned<'a>(matches: &ArgMatches<'a>) -> Option<Plan<'a>>
    ensures { (files : List (List ℕ)) → option_map (meaning_of_plan files) result ≡ meaning_by (values_given matches.now) files }
{
    let mode = mode_in(values(matches, "do"))?;
    let top = top_in(mode, values(matches, "top"))?;
    let cycles = number_in(values(matches, "cycles"), "100", 0, 1_000_000)?;
    let units = number_in(values(matches, "units"), "10", 1, 1000)?;
    let tool_type = tool_type_in(values(matches, "tool-type"))?;
    Some(Plan {
        mode,
        top,
        cycles,
        units,
        tool_type,
    })
}

/// The command of a plan and the FILEs, with texts of its own.
pub(crate) fn command_of(
    alloc: Global,
    plan: &Plan<'_>,
    matches: &ArgMatches<'_>,
) -> Result<Command, AllocError>
    ensures { IfOk result (λ command. meaning_in command ≡ meaning_of_plan (values_given matches.now file_id) plan.now) }
{
    let top = text_of(alloc, plan.top)?;
    let tool_type = text_of(alloc, plan.tool_type)?;
    let files = names_of(alloc, values(matches, FILE))?;
    Ok(Command {
        mode: plan.mode,
        top,
        cycles: plan.cycles,
        units: plan.units,
        tool_type,
        files,
    })
}

fn text_of(alloc: Global, text: &str) -> Result<Text, AllocError>
    ensures { IfOk result (λ t. t ≡ text.now) }
{
    Text::from_slice(alloc, text.as_bytes())
}

fn names_of(alloc: Global, words: Option<&[&str]>) -> Result<FileNames, AllocError>
    ensures { IfOk result (λ names. names ≡ given_values words.entry) }
{
    match words {
        Some(words) => copied(alloc, words),
        None => Ok(FileNames::of(Vec::new(alloc))),
    }
}

fn copied(alloc: Global, words: &[&str]) -> Result<FileNames, AllocError>
    ensures { IfOk result (λ names. names ≡ map (λ word. word.now) words.now) }
{
    let mut names = Vec::with_capacity(alloc, words.len())?;
    for word in words {
        names.push(String::from_str(alloc, word)?)?;
    }
    Ok(FileNames::of(names))
}

fn values<'m, 'a>(matches: &'m ArgMatches<'a>, id: &str) -> Option<&'m [&'a str]>
    ensures { given_values result ≡ values_given matches.now id.now }
{
    matches.get_strs(id)
}

// The value of an option that stands at most once.
fn one_or<'a>(values: Option<&[&'a str]>, absent: &'a str) -> Option<&'a str>
    ensures { option_map (λ value. value.now) result ≡ one_or absent.now (given_values values.entry) }
{
    match values {
        None | Some([]) => Some(absent),
        Some([value]) => Some(value),
        _ => None,
    }
}

fn mode_in(values: Option<&[&str]>) -> Option<Mode>
    ensures { result ≡ mode_in (given_values values.entry) }
{
    mode_named(one_or(values, "")?)
}

fn mode_named(text: &str) -> Option<Mode>
    ensures { result ≡ mode_named text.now }
{
    match text {
        "convert" => Some(Mode::Convert),
        "check" => Some(Mode::Check),
        "run19" => Some(Mode::Run19),
        "run93" => Some(Mode::Run93),
        _ => None,
    }
}

fn top_in<'a>(mode: Mode, values: Option<&[&'a str]>) -> Option<&'a str>
    ensures { option_map (λ name. name.now) result ≡ top_in mode (given_values values.entry) }
{
    match (mode, values) {
        (Mode::Run19 | Mode::Run93, Some([name])) => Some(name),
        (Mode::Convert | Mode::Check, None | Some([])) => Some(""),
        _ => None,
    }
}

fn number_in(values: Option<&[&str]>, absent: &str, least: u32, most: u32) -> Option<u32>
    ensures { result ≡ number_in absent.now least most (given_values values.entry) }
{
    number_named(one_or(values, absent)?, least, most)
}

fn tool_type_in<'a>(values: Option<&[&'a str]>) -> Option<&'a str>
    ensures { option_map (λ text. text.now) result ≡ tool_type_in (given_values values.entry) }
{
    match one_or(values, "SIMULATION")? {
        text @ ("SIMULATION" | "SYNTHESIS" | "FORMAL") => Some(text),
        _ => None,
    }
}
