//! Cases. A line `declare WORD` declares something, `? WORD ..` evaluates an expression, and the line behind it has the answer that it must
//! have, behind `=>`. `--` begins a comment.

use crate::declaring::{declaration, entry};
use crate::showing::answer;
use crate::subtypes::{Subtypes, add_bits, add_digits, named};
use crate::trees::{field, tree};
use std::alloc::{AllocError, Global};
use std::io;
use vd_declarations::Declaration;
use vd_evaluator::{Entry, evaluate};
use vd_forest::Store;
use vd_trees::Revision;

/// What is declared, the last answer, and how many answers there were, and how many other ones.
#[derive(Drop)]
struct Cases<'a> {
    declarations: Vec<Declaration>,
    environment: Vec<Entry<'a>>,
    last: String,
    answers: usize,
    others: usize,
}

/// Declares what a word says.
fn declare<'a>(
    alloc: Global,
    subtypes: &Subtypes<'a>,
    cases: &mut Cases<'a>,
    word: &str,
) -> Result<bool, AllocError> {
    let Some(declared) = declaration(alloc, word)? else {
        return Ok(false);
    };
    cases.declarations.push(declared)?;
    let entry = entry(alloc, named(subtypes, field(word, 6)), word)?;
    cases.environment.push(entry)?;
    Ok(true)
}

/// What the expression of some words comes to.
fn ask(alloc: Global, cases: &mut Cases<'_>, words: &str) -> Result<bool, AllocError> {
    let Some(tree) = tree(alloc, words)? else {
        return Ok(false);
    };
    let found = evaluate(
        alloc,
        Revision::V2019,
        &cases.declarations,
        &cases.environment,
        &tree.cursor(),
    );
    cases.last = answer(alloc, &found)?;
    Ok(true)
}

/// Declares or asks, where a line does.
fn take<'a>(
    alloc: Global,
    subtypes: &Subtypes<'a>,
    cases: &mut Cases<'a>,
    line: &str,
) -> Result<bool, AllocError> {
    if let Some(words) = line.strip_prefix('?') {
        return ask(alloc, cases, words);
    }
    match line.strip_prefix("declare ") {
        Some(word) => declare(alloc, subtypes, cases, word),
        None => Ok(line.is_empty() || line.starts_with("--")),
    }
}

fn say(rt: HostRuntime, name: &str, at: usize, text: &str) -> io::Result<()> {
    println!(rt; "{name}:{at}: {text}")?;
    Ok(())
}

/// Compares the last answer with the wanted one.
fn compare(
    rt: HostRuntime,
    cases: &mut Cases<'_>,
    name: &str,
    at: usize,
    wanted: &str,
) -> io::Result<()> {
    cases.answers = cases.answers.saturating_add(1);
    if wanted != cases.last.as_str() {
        cases.others = cases.others.saturating_add(1);
        say(rt, name, at, cases.last.as_str())?;
    }
    Ok(())
}

/// Reads a line.
fn read<'a>(
    rt: HostRuntime,
    subtypes: &Subtypes<'a>,
    cases: &mut Cases<'a>,
    name: &str,
    at: usize,
    line: &str,
) -> anyhow::Result<()> {
    if let Some(wanted) = line.strip_prefix("=> ") {
        compare(rt, cases, name, at, wanted)?;
    } else if !take(rt.alloc(), subtypes, cases, line)? {
        say(rt, name, at, "no case")?;
    }
    Ok(())
}

/// Reads the lines of a file, and says which answers are others than the lines have.
fn read_all<'a>(
    rt: HostRuntime,
    subtypes: &Subtypes<'a>,
    cases: &mut Cases<'a>,
    name: &str,
    text: &str,
) -> anyhow::Result<()> {
    for (number, line) in text.lines().enumerate() {
        read(rt, subtypes, cases, name, number.saturating_add(1), line)?;
    }
    let Cases {
        answers,
        others,
        ..
    } = cases;
    println!(rt; "{name}: {answers} answers, {others} others")?;
    Ok(())
}

/// Nothing declared.
fn begun<'a>(alloc: Global) -> Cases<'a> {
    Cases {
        declarations: Vec::new(alloc),
        environment: Vec::new(alloc),
        last: String::new(alloc),
        answers: 0,
        others: 0,
    }
}

/// Carries out the cases of a file.
pub fn run_cases(rt: HostRuntime, name: &str, text: &str) -> anyhow::Result<()> {
    let mut digits_store = Store::new(rt.alloc());
    let digits = add_digits(&mut digits_store)?;
    let mut bits_store = Store::new(rt.alloc());
    let bits = add_bits(&mut bits_store)?;
    let subtypes = Subtypes {
        digits: digits_store.cursor(digits),
        bits: bits_store.cursor(bits),
        none: bits_store.cursor(0),
    };
    let mut cases = begun(rt.alloc());
    read_all(rt, &subtypes, &mut cases, name, text)
}
