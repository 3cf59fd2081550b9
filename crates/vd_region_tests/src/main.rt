//! Carries out what files say of regions, resolved trees and the evaluator, and compares the answers with those that stand there. The words
//! are pairs: a kind of file, and its name.
#![tactic(auto)]

mod cases;
mod declaring;
mod drawing;
mod forms;
mod listing;
mod making;
mod showing;
mod steps;
mod subtypes;
mod trees;
mod words;
mod world;

use crate::cases::run_cases;
use crate::drawing::draw;
use crate::listing::compare_given;
use crate::steps::run_steps;
use anyhow::bail;
use std::{env, fs};
use vd_trees::Revision;

/// Does with a file what its kind says.
fn run(rt: HostRuntime, kind: &str, name: &str) -> anyhow::Result<()> {
    let text = fs::read_to_string(&rt, name)?;
    match kind {
        "regions" => run_steps(rt, name, &text),
        "2019" => compare_given(rt, Revision::V2019, name, &text),
        "1993" => compare_given(rt, Revision::V1993, name, &text),
        "trees" => draw(rt, &text),
        "expressions" => run_cases(rt, name, &text),
        _ => bail!("there is no kind {kind}"),
    }
}

fn main(rt: HostRuntime) -> anyhow::Result<()> {
    let words: Vec<String> = env::args(&rt)?.skip(1).collect(rt.alloc())?;
    for pair in words.chunks(2) {
        let [kind, name] = pair else {
            bail!("the words are pairs");
        };
        run(rt, kind, name)?;
    }
    Ok(())
}
