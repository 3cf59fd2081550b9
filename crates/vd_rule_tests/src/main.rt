//! Asks all rules of texts and says what is refused first. The words are pairs of a kind and a file:
//!
//!     texts        texts of revision 2019, whose answers are compared with those that stand in front of them
//!     texts93      the same of revision 1993
//!     whole        one text of revision 2019, whose answer is said
//!     overloads    steps that declare names, and expressions with what overload resolution makes of them
#![tactic(auto)]

mod answers;
mod asking;
mod declaring;
mod frames;
mod steps;
mod world;

use crate::answers::answered;
use crate::steps::run_steps;
use anyhow::bail;
use std::{env, fs, str};
use vd_test_texts::{LONGEST, Text, texts_of};
use vd_trees::Revision;

/// Says which texts of a file are answered otherwise than stands in front of them, and how many there are.
fn compare(rt: HostRuntime, revision: Revision, name: &str, texts: &[Text]) -> anyhow::Result<()> {
    let mut wrong: usize = 0;
    for text in texts {
        let given = answered(rt.alloc(), revision, &text.bytes).shown(rt.alloc())?;
        if !text.wants(given.as_bytes()) {
            let line = text.line;
            println!(rt; "{name}:{line}: {given}")?;
            wrong = wrong.saturating_add(1);
        }
    }
    let count = texts.len();
    println!(rt; "{name}: {count} texts, {wrong} answered otherwise")?;
    Ok(())
}

/// Says what one text is answered.
fn tell(rt: HostRuntime, name: &str, bytes: &[u8]) -> anyhow::Result<()> {
    let given = answered(rt.alloc(), Revision::V2019, bytes).shown(rt.alloc())?;
    println!(rt; "{name}: {given}")?;
    Ok(())
}

/// Carries out the steps of a file.
fn resolve(rt: HostRuntime, name: &str, bytes: &[u8]) -> anyhow::Result<()> {
    match str::from_utf8(bytes) {
        Ok(text) => run_steps(rt, name, text),
        Err(_) => bail!("the file is no text"),
    }
}

/// Runs one kind on one file.
fn run(rt: HostRuntime, kind: &str, name: &str, bytes: &[u8]) -> anyhow::Result<()> {
    match kind {
        "texts" => compare(rt, Revision::V2019, name, &texts_of(rt.alloc(), bytes)?),
        "texts93" => compare(rt, Revision::V1993, name, &texts_of(rt.alloc(), bytes)?),
        "whole" => tell(rt, name, bytes),
        "overloads" => resolve(rt, name, bytes),
        _ => bail!("there is no such kind"),
    }
}

fn main(rt: HostRuntime) -> anyhow::Result<()> {
    let words: Vec<String> = env::args(&rt)?.skip(1).collect(rt.alloc())?;
    for pair in words.chunks(2) {
        let [kind, name] = pair else {
            bail!("the words are pairs");
        };
        let bytes = fs::read(&rt, name)?;
        if bytes.len() >= LONGEST {
            bail!("the file is too long");
        }
        run(rt, kind, name, &bytes)?;
    }
    Ok(())
}
