//! Lines `WORDS => ANSWER`, whose answers are compared. `--` begins a comment.

use crate::{
    calculating, choosing, composing, driving, fielding, indicating, integers, logic, readings,
    shapes, simulating, times, walkers,
};
use anyhow::bail;
use std::alloc::Global;

/// The answer of some words of a kind of file.
fn answer(alloc: Global, kind: &str, words: &str) -> anyhow::Result<String> {
    match kind {
        "logic" => logic::answer(alloc, words),
        "times" => times::answer(alloc, words),
        "integers" => integers::answer(alloc, words),
        "choices" => choosing::answer(alloc, words),
        "composites" => composing::answer(alloc, words),
        "shapes" => shapes::answer(alloc, words),
        "drivers" => driving::answer(alloc, words),
        "simulations" => simulating::answer(alloc, words),
        "calculations" => calculating::answer(alloc, words),
        "subtypes" => indicating::answer(alloc, words),
        "fields" => fielding::answer(alloc, words),
        "walks" => walkers::answer(alloc, words),
        "readings" => readings::answer(alloc, words),
        _ => bail!("there is no kind {kind}"),
    }
}

/// Whether the answer of some words is another one, which is said.
fn differs(
    rt: HostRuntime,
    kind: &str,
    name: &str,
    at: usize,
    words: &str,
    wanted: &str,
) -> anyhow::Result<bool> {
    let given = answer(rt.alloc(), kind, words)?;
    if given.as_str() == wanted {
        return Ok(false);
    }
    println!(rt; "{name}:{at}: {given}")?;
    Ok(true)
}

/// Whether a line is a comment or empty.
fn is_comment(line: &str) -> bool {
    line.is_empty() || line.starts_with("--")
}

/// Says which answers of a file are others than its lines have, and how many there are.
pub fn compare_answers(rt: HostRuntime, kind: &str, name: &str, text: &str) -> anyhow::Result<()> {
    let mut answers: usize = 0;
    let mut others: usize = 0;
    for (number, line) in text.lines().enumerate() {
        if is_comment(line) {
            continue;
        }
        let Some((words, wanted)) = line.split_once(" => ") else {
            bail!("a line of {name} has no answer");
        };
        answers = answers.saturating_add(1);
        if differs(rt, kind, name, number.saturating_add(1), words, wanted)? {
            others = others.saturating_add(1);
        }
    }
    println!(rt; "{name}: {answers} answers, {others} others")?;
    Ok(())
}
