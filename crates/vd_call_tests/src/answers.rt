//! What comes of cases.

use crate::cases::Case;
use crate::files::stepped;
use crate::modes::{Lengths, refusal, units};
use crate::parts::{Part, part_of, replaced};
use crate::runs::{add_runs, add_written};
use crate::steps::steps;
use crate::trays::{left, memory_tray, status_part, sure_tray};
use crate::words::{meaning, words_of};
use anyhow::bail;
use std::alloc::Global;
use std::str;
use vd_command::{sure_call, vdown};
use vd_program::perform;

/// What is left of a call with some words.
fn called(alloc: Global, given: &[Part], words: &Part) -> anyhow::Result<Vec<Part>> {
    let words = words_of(alloc, words)?;
    let mut tray = memory_tray(alloc, given)?;
    let status = vdown(alloc, &words, &mut tray);
    Ok(left(alloc, &tray, status)?)
}

/// What is left of a mode over the files that some words name.
fn performed(alloc: Global, given: &[Part], words: &Part) -> anyhow::Result<Vec<Part>> {
    let names = words_of(alloc, words)?;
    let mut tray = memory_tray(alloc, given)?;
    let status = perform(alloc, &Lengths, &names, &mut tray);
    Ok(left(alloc, &tray, status)?)
}

/// The status of a call over a tray that never fails.
fn surely_called(alloc: Global, given: &[Part], words: &Part) -> anyhow::Result<Vec<Part>> {
    let words = words_of(alloc, words)?;
    let mut tray = sure_tray(alloc, given)?;
    let status = sure_call(alloc, &words, &mut tray);
    let mut parts = Vec::new(alloc);
    parts.push(status_part(alloc, status)?)?;
    Ok(parts)
}

/// What comes of some words.
fn answer_to_words(
    alloc: Global,
    kind: &str,
    given: &[Part],
    words: &Part,
) -> anyhow::Result<Vec<Part>> {
    match kind {
        "call" => called(alloc, given, words),
        "lengths" => performed(alloc, given, words),
        "sure" => surely_called(alloc, given, words),
        "words" => meaning(alloc, words),
        _ => bail!("there is no kind {kind}"),
    }
}

/// What comes of each command line of a case.
fn answers_to_words(alloc: Global, kind: &str, given: &[Part]) -> anyhow::Result<Vec<Vec<Part>>> {
    let mut answers = Vec::new(alloc);
    for part in given {
        if part.kind.as_str() == "words" {
            answers.push(answer_to_words(alloc, kind, given, part)?)?;
        }
    }
    Ok(answers)
}

/// The text that stands behind a kind, or else in the bytes.
fn text_of(part: &Part) -> &str {
    if part.name.is_empty() {
        return str::from_utf8(&part.bytes).unwrap_or("");
    }
    part.name.as_str()
}

/// What comes of runs from each top of a case.
fn answers_to_tops(alloc: Global, given: &[Part]) -> anyhow::Result<Vec<Vec<Part>>> {
    let mut answers = Vec::new(alloc);
    for part in given {
        if part.kind.as_str() == "top" {
            add_runs(alloc, &mut answers, given, text_of(part))?;
        }
    }
    Ok(answers)
}

/// What comes of runs of the sources in which each line of `each` stands for a `$`, and of what is written for them.
fn answers_to_sources(alloc: Global, given: &[Part]) -> anyhow::Result<Vec<Vec<Part>>> {
    let Some(each) = part_of(given, "each") else {
        bail!("nothing stands for a $");
    };
    let mut answers = Vec::new(alloc);
    for value in each.bytes.as_slice().split(|b| *b == b'\n') {
        if !value.is_empty() {
            let source = replaced(alloc, given, value)?;
            add_written(alloc, &mut answers, &source)?;
        }
    }
    Ok(answers)
}

/// What comes of a case that is asked once.
fn one_answer(rt: HostRuntime, kind: &str, given: &[Part]) -> anyhow::Result<Vec<Part>> {
    match kind {
        "refusal" => refusal(rt.alloc(), given),
        "units" => units(rt.alloc(), given),
        "steps" => steps(rt.alloc(), given),
        "files" => stepped(rt, given),
        _ => bail!("there is no kind {kind}"),
    }
}

/// What comes of a case, each time that it is asked.
pub fn answers(rt: HostRuntime, case: &Case) -> anyhow::Result<Vec<Vec<Part>>> {
    let kind = case.kind.as_str();
    match kind {
        "call" | "lengths" | "sure" | "words" => answers_to_words(rt.alloc(), kind, &case.given),
        "runs" => answers_to_tops(rt.alloc(), &case.given),
        "written" => answers_to_sources(rt.alloc(), &case.given),
        _ => {
            let mut answers = Vec::new(rt.alloc());
            answers.push(one_answer(rt, kind, &case.given)?)?;
            Ok(answers)
        }
    }
}
